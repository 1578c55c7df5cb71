// What is asked of a loaded pattern, the whole of it or one record by itself, and the examination that answers it.
#![tactic(auto)]

ghost use Rattle.std.specs.Prelude.{◌≡◌};
ghost use Rattle.format.specs.Exam.{examine_single};
ghost use Rattle.exam.specs.Loaded.{pattern_of};
ghost use Rattle.refusal.specs.Number.{refusal_of};
ghost use Rattle.examine_asked.specs.Asked.{examine_asked};

use exam::{Pattern, examine_records, examine_tables};
use refusal::Refusal;

// The whole pattern, which has at most so many records, or a single record.
#[derive(Clone, Copy)]
pub enum Asked {
    Whole(usize),
    Single(u32),
}

// Examination of record `rec`: 22 where it is missing, else the first condition of 16 to 20, 25 and 32 that it meets.
pub fn examine_single(pattern: &Pattern, rec: u32, permitted: &[u8]) -> Result<(), Refusal>
    ensures { refusal_of result ≡ examine_single permitted.now rec (pattern_of pattern.now) }
{
    let r = rec as usize;
    let next = r + 1;
    if next > pattern.n {
        return Err(Refusal::Missing);
    }
    examine_records(pattern, r, next, permitted)
}

// The examination that is asked: 14 where the whole pattern has more records than it may.
pub fn examine_asked(pattern: &Pattern, asked: Asked, permitted: &[u8]) -> Result<(), Refusal>
    ensures { refusal_of result ≡ examine_asked asked permitted.now (pattern_of pattern.now) }
{
    match asked {
        Asked::Whole(rows) => {
            if rows < pattern.n {
                return Err(Refusal::NoRow);
            }
            examine_tables(pattern, permitted)
        }
        Asked::Single(rec) => examine_single(pattern, rec, permitted),
    }
}
