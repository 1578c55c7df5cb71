// Instructions: fetching one with its operands.
#![tactic(auto)]

ghost use Rattle.std.specs.Prelude.{◌≡◌};
ghost use Rattle.format.specs.Insn as format;
ghost use Rattle.opcode_kind.specs.Kinds.{kind_of};
ghost use Rattle.refusal.specs.Number.{answer_as};
ghost use Rattle.insn.specs.Answers.{fetched_of};

use binfmt::u16_in;
use opcode::names;
pub use opcode::{Flow, Kind, OpRow, Role, op_row, size};
use refusal::Refusal;

// The operands of an instruction, by operand kind.
#[derive(Clone, Copy, Debug, PartialEq, Eq)]
pub enum Fetched {
    Z,
    BB(u8, u8),
    B(u8),
    BS(u8, u16),
    BSS(u8, u16, u16),
    BBB(u8, u8, u8),
    S(u16),
    W(u32),
}

impl Fetched {
    pub fn kind(self) -> Kind
        ensures { kind_of result ≡ (fetched_of self).kind }
    {
        match self {
            Fetched::Z => Kind::Z,
            Fetched::BB(_, _) => Kind::BB,
            Fetched::B(_) => Kind::B,
            Fetched::BS(_, _) => Kind::BS,
            Fetched::BSS(_, _, _) => Kind::BSS,
            Fetched::BBB(_, _, _) => Kind::BBB,
            Fetched::S(_) => Kind::S,
            Fetched::W(_) => Kind::W,
        }
    }

    // How many operand bytes there are.
    pub fn len(self) -> usize
        ensures { result ≡ format.width (fetched_of self).kind }
    {
        self.kind().size() - 1
    }
}

// The instruction of a kind, 24 where there are too few bytes. Each kind tests its own: one test before the match would be a second match.
#[tactic(auto, unfolding(format::specs::Insn::fetch_as, format::specs::Insn::operands))]
fn fetch_as(kind: Kind, bin: &[u8]) -> Result<Fetched, Refusal>
    ensures { answer_as fetched_of result ≡ format.fetch_as (kind_of kind) bin.now }
{
    match kind {
        Kind::Z => {
            if bin.len() < Kind::Z.size() {
                return Err(Refusal::CodeCut);
            }
            Ok(Fetched::Z)
        }
        Kind::BB => {
            if bin.len() < Kind::BB.size() {
                return Err(Refusal::CodeCut);
            }
            Ok(Fetched::BB(bin[1], bin[2]))
        }
        Kind::B => {
            if bin.len() < Kind::B.size() {
                return Err(Refusal::CodeCut);
            }
            Ok(Fetched::B(bin[1]))
        }
        Kind::BS => {
            if bin.len() < Kind::BS.size() {
                return Err(Refusal::CodeCut);
            }
            Ok(Fetched::BS(bin[1], u16_in(bin, 2)))
        }
        Kind::BSS => {
            if bin.len() < Kind::BSS.size() {
                return Err(Refusal::CodeCut);
            }
            Ok(Fetched::BSS(bin[1], u16_in(bin, 2), u16_in(bin, 4)))
        }
        Kind::BBB => {
            if bin.len() < Kind::BBB.size() {
                return Err(Refusal::CodeCut);
            }
            Ok(Fetched::BBB(bin[1], bin[2], bin[3]))
        }
        Kind::S => {
            if bin.len() < Kind::S.size() {
                return Err(Refusal::CodeCut);
            }
            Ok(Fetched::S(u16_in(bin, 1)))
        }
        Kind::W => {
            if bin.len() < Kind::W.size() {
                return Err(Refusal::CodeCut);
            }
            Ok(Fetched::W(u32::from_be_bytes([0, bin[1], bin[2], bin[3]])))
        }
    }
}

// The instruction that starts the bytes: 24 where there are too few, 23 where the opcode byte is above STOP's. Further bytes are ignored.
#[tactic(auto, unfolding(format::specs::Insn::fetch), using(opcode::proofs::Rows::kind_told))]
pub fn fetch(bin: &[u8]) -> Result<Fetched, Refusal>
    ensures { answer_as fetched_of result ≡ format.fetch bin.now }
{
    let Some(&b) = bin.first() else {
        return Err(Refusal::CodeCut);
    };
    if b > names::STOP {
        return Err(Refusal::UnknownOpcode);
    }
    fetch_as(op_row(b).kind, bin)
}
