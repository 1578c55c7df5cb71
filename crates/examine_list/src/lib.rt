// A caller's list of permitted opcodes, written in full, and what it says.
#![tactic(auto)]

ghost use Rattle.std.specs.Prelude.{◌≡◌};
ghost use Rattle.format.specs.Permitted.{permits};
ghost use Rattle.examine_list.specs.Full as full;

use format::OPCODES;

// How many answers a list in full has: one for each byte, so that none is looked for behind its end.
pub const FULL: usize = 256;

// A list in full: what it answers for each byte.
#[derive(Drop)]
pub struct FullList {
    pub answers: [bool; 256],
    ghost told: { full.Told answers },
}

impl FullList {
    // What the list says of a byte.
    pub fn permits(&self, b: u8) -> bool
        ensures { result ≡ permits (full.bytes_of self.now.answers) b }
    {
        self.answers[usize::from(b)]
    }
}

// Writes a list in full over noes.
pub fn write_full(list: &[u8], w: &mut [bool; 256])
    requires { full.Blank w.old }
    ensures { full.Written list.now w.new }
{
    let read = list.len().min(OPCODES);
    for (i, x) in list[..read].iter().enumerate() {
        w[i] = *x != 0;
    }
}
