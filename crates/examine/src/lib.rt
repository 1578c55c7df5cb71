// Examination of a file, or of one record of it: it is loaded, then tested for 15 to 20, 25 and 32; after a refusal every table is zeros alone.
#![tactic(auto)]

ghost use Rattle.std.specs.Prelude.{◌≡◌};
ghost use Rattle.format.specs.Load.{laid};
ghost use Rattle.format.specs.Exam.{examine, examine_one};
ghost use Rattle.tables.specs.Tables.{words_of, Same};
ghost use Rattle.rite.specs.Answers.{sizes, loaded_of, allowance_of};
ghost use Rattle.examine_kept.specs.Kept.{asked_in};

use examine_asked::Asked;
use examine_kept::{Failure, examine_kept};
use format::DESKTOP_RECORDS;
use refusal::Refusal;
use rite::{Allowance, Used};
use tables::Tables;

// Loads a file under an allowance of which what is asked passes, by a list of permitted opcodes.
pub fn load_passing(
    f: &[u8],
    t: &mut Tables,
    asked: Asked,
    a: Allowance,
    permitted: &[u8],
) -> Result<Used, Refusal>
    ensures same { Same t.old t.new }
    ensures loaded { loaded_of result (words_of t.new)
        ≡ laid (sizes (words_of t.old))
        (asked_in asked f.now (sizes (words_of t.old)) (allowance_of a) permitted.now) }
{
    match examine_kept(f, t, asked, a, permitted) {
        Ok(u) => Ok(u),
        Err(Failure::Load(e)) => Err(e),
        Err(Failure::Examination(e)) => {
            t.clear();
            Err(e)
        }
    }
}

// Examines a file under an allowance and a list of permitted opcodes, over nine lent tables: the rows used, where it passes, or the refusal; the tables as
// after a load.
pub fn examine(f: &[u8], t: &mut Tables, a: Allowance, permitted: &[u8]) -> Result<Used, Refusal>
    ensures same { Same t.old t.new }
    ensures loaded { loaded_of result (words_of t.new)
        ≡ examine f.now (sizes (words_of t.old)) (allowance_of a) permitted.now }
{
    load_passing(f, t, Asked::Whole(DESKTOP_RECORDS as usize), a, permitted)
}

// Examines record `rec` of a file by itself, without 15: the rows used by the whole file, where the record passes, or the refusal, 22 where it is missing;
// the tables as after an examination.
pub fn examine_record(
    f: &[u8],
    t: &mut Tables,
    a: Allowance,
    permitted: &[u8],
    rec: u32,
) -> Result<Used, Refusal>
    ensures same { Same t.old t.new }
    ensures loaded { loaded_of result (words_of t.new)
        ≡ examine_one f.now (sizes (words_of t.old)) (allowance_of a) permitted.now rec }
{
    load_passing(f, t, Asked::Single(rec), a, permitted)
}
