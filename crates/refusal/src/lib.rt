// Why a call refuses, by the papers' numbers.
#![tactic(auto)]

ghost use Rattle.std.specs.Prelude.{◌≡◌};
ghost use Rattle.refusal.specs.Number.{number};

// A reason to refuse. Its number is the one that the papers give it.
#[derive(Clone, Copy, Debug, PartialEq, Eq)]
pub enum Refusal {
    FileTooLong = 1,
    HeaderCut = 2,
    Version = 3,
    NoSection = 4,
    UnknownMark = 5,
    SectionOrder = 6,
    PastEnd = 7,
    SizeZero = 8,
    TextZero = 9,
    PoolKind = 10,
    LocalName = 11,
    DebugFile = 12,
    LinePosition = 13,
    NoRow = 14,
    NotOneTree = 15,
    Unreadable = 16,
    Operand = 17,
    Landing = 18,
    HandlerTarget = 19,
    LinesFall = 20,
    Choice = 21,
    Missing = 22,
    UnknownOpcode = 23,
    CodeCut = 24,
    StrayPrefix = 25,
    NotRite = 27,
    FileCut = 28,
    Allowance = 29,
    NotPermitted = 32,
}

impl From<Refusal> for u32 {
    ghost from_gives = { λ e n. n ≡ number e };

    fn from(e: Refusal) -> u32 {
        e as u32
    }
}
