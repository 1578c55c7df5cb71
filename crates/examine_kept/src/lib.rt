// A file that is loaded and then examined, with what was loaded kept, refused later or not.
#![tactic(auto)]

ghost use Rattle.std.specs.Prelude.{◌≡◌};
ghost use Rattle.exam.specs.View.{pattern_at, Fits};
ghost use Rattle.exam.specs.Loaded.{pattern_of};
ghost use Rattle.tables.specs.Tables.{words_of, Same};
ghost use Rattle.rite.specs.Answers.{sizes, allowance_of};
ghost use Rattle.examine_kept.specs.Kept.{examine_kept, kept_of};

use exam::Pattern;
use examine_asked::{Asked, examine_asked};
use refusal::Refusal;
use rite::{Allowance, Used};
use tables::Tables;

// Whether the load refuses, and then every table is zeros alone, or the examination of what it loaded.
#[derive(Clone, Copy, Debug, PartialEq, Eq)]
pub enum Failure {
    Load(Refusal),
    Examination(Refusal),
}

// The pattern of the first `n` records that the tables hold.
pub fn pattern_in<'a>(f: &'a [u8], t: &'a Tables<'_>, n: u32) -> Pattern<'a>
    requires { Fits f.now t.now.records.now t.now.handlers.now t.now.lines.now n }
    ensures { pattern_of result ≡ pattern_at f.now t.now.records.now t.now.handlers.now t.now.lines.now n }
{
    Pattern {
        file: f,
        records: t.records,
        handlers: t.handlers,
        lines: t.lines,
        n: n as usize,
    }
}

// Loads a file under an allowance and examines what is asked of it by a list of permitted opcodes. What was loaded stays in the tables, whatever is met of it.
pub fn examine_kept(
    f: &[u8],
    t: &mut Tables,
    asked: Asked,
    a: Allowance,
    permitted: &[u8],
) -> Result<Used, Failure>
    ensures same { Same t.old t.new }
    ensures kept { kept_of result (words_of t.new)
        ≡ examine_kept asked f.now (sizes (words_of t.old)) (allowance_of a) permitted.now }
{
    let used = rite::load(f, t, a).map_err(Failure::Load)?;
    let pattern = pattern_in(f, t, used.records);
    examine_asked(&pattern, asked, permitted).map_err(Failure::Examination)?;
    Ok(used)
}
