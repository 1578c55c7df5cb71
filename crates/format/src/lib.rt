// The definitions of the format stand in specs/, the laws that proofs of code cite in proofs/. The code is five numbers.
#![tactic(auto)]

// How many words a record's row has.
pub const RECORD_WIDTH: usize = 21;

// The parent of a record that has none.
pub const NO_PARENT: u32 = 65535;

// The most bytes and the most records that a file may have: the desktop's allowance.
pub const DESKTOP_BYTES: u32 = 65536;

pub const DESKTOP_RECORDS: u32 = 1024;

// How many opcodes there are, and so how many bytes of a list of permitted ones are read.
pub const OPCODES: usize = 119;
