// Loading a file into nine lent tables that are cleared first, and cleared again after the refusal of a section; where none is refused, each
// record's row is given its depth and parent.
#![tactic(auto)]

ghost use Rattle.std.specs.Prelude.{◌≡◌, ◌≤◌};
ghost use Rattle.format.specs.Load.{load};
ghost use Rattle.tables.specs.Tables.{words_of, Same};
ghost use Rattle.rite.specs.Answers.{sizes, loaded_of, allowance_of, load_within};

use file::read_sections;
use format::{DESKTOP_BYTES, DESKTOP_RECORDS};
use irep::Limits;
use marks::check_file;
pub use refusal::Refusal;
use rite_parents::link_parents;
pub use sections::Used;
pub use tables::Tables;

// What a caller lets a file have.
#[derive(Drop)]
pub struct Allowance {
    pub bytes: u32,
    pub records: u32,
}

// Loads a file into nine lent tables within limits: the tables hold the rows that were read, then zeros; after a refusal zeros alone.
pub fn load_within(f: &[u8], t: &mut Tables, limits: Limits) -> Result<Used, Refusal>
    requires { limits.most ≤ 1024 }
    ensures same { Same t.old t.new }
    ensures loaded { loaded_of result (words_of t.new) ≡ load_within limits f.now (sizes (words_of t.old)) }
{
    t.clear();
    check_file(f, limits.bytes as usize)?;
    match read_sections(f, limits, t) {
        Ok(used) => {
            link_parents(t.records, used.records as usize);
            Ok(used)
        }
        Err(e) => {
            t.clear();
            Err(e)
        }
    }
}

// Loads a file into nine lent tables under an allowance; a larger number in it counts as the desktop's.
pub fn load(f: &[u8], t: &mut Tables, a: Allowance) -> Result<Used, Refusal>
    ensures same { Same t.old t.new }
    ensures loaded { loaded_of result (words_of t.new) ≡ load f.now (sizes (words_of t.old)) (allowance_of a) }
{
    let limits = Limits {
        bytes: a.bytes.min(DESKTOP_BYTES),
        allowed: a.records.min(DESKTOP_RECORDS),
        most: DESKTOP_RECORDS,
    };
    load_within(f, t, limits)
}
