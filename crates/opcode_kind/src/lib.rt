// The kinds of operands, and the size of an instruction of each, in the order in which ops.h first uses them.
#![tactic(auto)]

ghost use Rattle.std.specs.Prelude.{◌≡◌, suc};
ghost use Rattle.format.specs.Insn.{width};
ghost use Rattle.opcode_kind.specs.Kinds.{kind_of};

// Operand kinds: B a byte, S two bytes, W three.
#[derive(Clone, Copy, Debug, PartialEq, Eq)]
pub enum Kind {
    Z,
    BB,
    B,
    BS,
    BSS,
    BBB,
    S,
    W,
}

impl Kind {
    // How many bytes an instruction of this kind has, its opcode byte with them.
    pub fn size(self) -> usize
        ensures { result ≡ suc (width (kind_of self)) }
    {
        match self {
            Kind::Z => 1,
            Kind::BB => 3,
            Kind::B => 2,
            Kind::BS => 4,
            Kind::BSS => 6,
            Kind::BBB => 4,
            Kind::S => 3,
            Kind::W => 4,
        }
    }
}
