// What a load's, an examination's or a run's answer is at the C boundary: a struct of numbers. A refusal is its number, 0 for none, and after one all
// else is 0.
#![tactic(auto)]

ghost use Rattle.std.specs.Prelude.{◌≡◌, Some};
ghost use Rattle.refusal.specs.Number.{answer_as};
ghost use Rattle.rite.specs.Answers.{counts_of};
ghost use Rattle.run.specs.Answers.{followed_of};
ghost use Rattle.boundary.specs.Structs.{counts_is, loaded_is, standing_is, followed_is};

use boundary_steps::line_found;
use refusal::Refusal;
use rite::Used;
use run::Standing;

// A load's or an examination's answer: the rows used of each table, and the visits that the LVAR walk made.
#[repr(C)]
#[derive(Default, Drop)]
pub struct BlotheathLoaded {
    pub refusal: u32,
    pub records: u32,
    pub handlers: u32,
    pub pool: u32,
    pub symbols: u32,
    pub strings: u32,
    pub names: u32,
    pub filenames: u32,
    pub files: u32,
    pub lines: u32,
    pub visits: u32,
}

// Where a run stands: 1 where it is finished, and then no frames; else the top frame's record and offset, its line as in BlotheathLine, and
// the number of frames.
#[repr(C)]
#[derive(Default, Drop)]
pub struct BlotheathFollowed {
    pub refusal: u32,
    pub finished: u32,
    pub record: u32,
    pub offset: u32,
    pub found: u32,
    pub line: u32,
    pub frames: u32,
}

impl From<Used> for BlotheathLoaded {
    ghost from_gives = { λ u r. r ≡ counts_is (counts_of u) };

    fn from(u: Used) -> BlotheathLoaded {
        BlotheathLoaded {
            refusal: 0,
            records: u.records,
            handlers: u.handlers,
            pool: u.pool,
            symbols: u.symbols,
            strings: u.strings,
            names: u.names,
            filenames: u.filenames,
            files: u.files,
            lines: u.lines,
            visits: u.visits,
        }
    }
}

pub fn loaded(answer: Result<Used, Refusal>) -> BlotheathLoaded
    ensures { result ≡ loaded_is (answer_as counts_of answer) }
{
    match answer {
        Ok(u) => u.into(),
        Err(e) => BlotheathLoaded {
            refusal: e.into(),
            ..BlotheathLoaded::default()
        },
    }
}

impl From<Standing> for BlotheathFollowed {
    ghost from_gives = { λ s r. r ≡ standing_is (followed_of (Some s)) };

    fn from(s: Standing) -> BlotheathFollowed {
        let line = line_found(s.line);
        BlotheathFollowed {
            record: s.record,
            offset: s.offset,
            found: line.found,
            line: line.line,
            frames: s.frames,
            ..BlotheathFollowed::default()
        }
    }
}

pub fn followed(answer: Result<Option<Standing>, Refusal>) -> BlotheathFollowed
    ensures { result ≡ followed_is (answer_as followed_of answer) }
{
    match answer {
        Ok(Some(s)) => s.into(),
        Ok(None) => BlotheathFollowed {
            finished: 1,
            ..BlotheathFollowed::default()
        },
        Err(e) => BlotheathFollowed {
            refusal: e.into(),
            ..BlotheathFollowed::default()
        },
    }
}
