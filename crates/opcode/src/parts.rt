// What is known of an opcode, as one number of digits of base 8: where its parts stand, and the numbers that they have.
// One number is for speed: the examination reads the parts that it needs of each instruction with one look at the table.
use crate::Role;

pub const BASE: usize = 8;

// The size, in the two lowest digits.
pub const SIZE: usize = 0o100;

// By what two operands are tested: their roles, the first with the registers behind it.
pub const FIRST: usize = 0o100;

pub const SECOND: usize = 0o1000;

// The flag of an instruction whose operands are below their limits, inside a record and at its end.
pub const INSIDE: usize = 0o10000;

pub const LAST: usize = 0o100000;

// The operand kind.
pub const KIND: usize = 0o1000000;

// 1 where the first operand is a byte that a prefix can widen, and the second.
pub const FIRST_BYTE: usize = 0o10000000;

pub const SECOND_BYTE: usize = 0o100000000;

// Of an opcode that asks for more: the role of its third operand,
pub const THIRD: usize = 0o1000000000;

// and above it the register behind the last that it names, as a sum: a number, each operand so often, and the arguments of the second or the third.
pub const FORM: usize = 0o10000000000;

pub const NUMBER: usize = 1;

pub const OF_FIRST: usize = 0o10;

pub const OF_SECOND: usize = 0o100;

pub const OF_THIRD: usize = 0o1000;

pub const ARGUMENTS_OF_SECOND: usize = 0o10000;

pub const ARGUMENTS_OF_THIRD: usize = 0o100000;

// Roles.
pub const PLAIN: usize = Role::Plain as usize;

pub const REG: usize = Role::Reg as usize;

pub const POOL: usize = Role::Pool as usize;

pub const SYM: usize = Role::Sym as usize;

pub const CHILD: usize = Role::Child as usize;

// A register with what stands behind it: R[a] and R[a+1]; R[a] to R[a+2].
pub const PAIR: usize = 5;

pub const TRIPLE: usize = 6;

// Flags: neither 17 nor 18; the target has to be tested; a run goes on past the record.
pub const PASSES: usize = 1;

pub const TARGET: usize = 3;

pub const PAST: usize = 4;
