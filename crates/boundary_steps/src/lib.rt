// What a fetched instruction and a line are at the C boundary: a struct of numbers. A refusal is its number, 0 for none, and after one all else is 0.
#![tactic(auto)]

ghost use Rattle.std.specs.Prelude.{◌≡◌};
ghost use Rattle.insn.specs.Answers.{fetched_of};
ghost use Rattle.line.specs.Answers.{line_of};
ghost use Rattle.refusal.specs.Number.{answer_as};
ghost use Rattle.boundary_steps.specs.Structs.{given, instruction_is, fetched_is, line_is};

use insn::Fetched;
use line::Line;
use refusal::Refusal;

// C reads kinds and flags as numbers.
// A fetched instruction: the operand kind, in the order Z, B, BB, S, BBB, BS, W, BSS from 0 on; its operands, 0 for one that it lacks.
#[repr(C)]
#[derive(Default, Drop)]
pub struct BlotheathFetched {
    pub refusal: u32,
    pub kind: u32,
    pub a: u32,
    pub b: u32,
    pub c: u32,
}

// A line: 1 where there is one, else 0; and its number.
#[repr(C)]
#[derive(Default, Drop)]
pub struct BlotheathLine {
    pub found: u32,
    pub line: u32,
}

fn operands(kind: u32, a: u32, b: u32, c: u32) -> BlotheathFetched
    ensures { result ≡ given kind a b c }
{
    BlotheathFetched {
        refusal: 0,
        kind,
        a,
        b,
        c,
    }
}

impl From<Fetched> for BlotheathFetched {
    ghost from_gives = { λ f s. s ≡ instruction_is (fetched_of f) };

    fn from(f: Fetched) -> BlotheathFetched {
        match f {
            Fetched::Z => operands(0, 0, 0, 0),
            Fetched::B(a) => operands(1, a as u32, 0, 0),
            Fetched::BB(a, b) => operands(2, a as u32, b as u32, 0),
            Fetched::S(s) => operands(3, s as u32, 0, 0),
            Fetched::BBB(a, b, c) => operands(4, a as u32, b as u32, c as u32),
            Fetched::BS(a, s) => operands(5, a as u32, s as u32, 0),
            Fetched::W(w) => operands(6, w, 0, 0),
            Fetched::BSS(a, s, t) => operands(7, a as u32, s as u32, t as u32),
        }
    }
}

pub fn fetched(answer: Result<Fetched, Refusal>) -> BlotheathFetched
    ensures { result ≡ fetched_is (answer_as fetched_of answer) }
{
    match answer {
        Ok(f) => f.into(),
        Err(e) => BlotheathFetched {
            refusal: e.into(),
            ..BlotheathFetched::default()
        },
    }
}

pub fn line_found(line: Option<Line>) -> BlotheathLine
    ensures { result ≡ line_is (line_of line) }
{
    match line {
        Some(n) => BlotheathLine {
            found: 1,
            line: n.0,
        },
        None => BlotheathLine::default(),
    }
}
