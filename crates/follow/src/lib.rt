// The run of a file along a list of choices: it is loaded and examined, then followed.
#![tactic(auto)]

ghost use Rattle.std.specs.Prelude.{◌≡◌, length};
ghost use Rattle.format.specs.Run.{follow};
ghost use Rattle.tables.specs.Tables.{words_of, Same};
ghost use Rattle.rite.specs.Answers.{sizes, allowance_of};
ghost use Rattle.follow.specs.Answers.{followed};

use examine::load_passing;
use examine_asked::Asked;
use examine_kept::pattern_in;
use refusal::Refusal;
use rite::Allowance;
use rows::clear;
use run::{Standing, follow_tables};
use tables::Tables;

// Follows the run of a file under an allowance and a list of permitted opcodes along choice bytes, over nine lent tables and a frame table: the tables as
// after a load, and the frames, lowest first, then zeros; after a refusal every table is zeros alone.
pub fn follow(
    f: &[u8],
    t: &mut Tables,
    frames: &mut [u32],
    choices: &[u8],
    a: Allowance,
    permitted: &[u8],
) -> Result<Option<Standing>, Refusal>
    ensures same { Same t.old t.new }
    ensures followed { followed result (words_of t.new) frames.new
        ≡ follow f.now (sizes (words_of t.old)) (allowance_of a) permitted.now (length frames.old) choices.now }
{
    match load_passing(f, t, Asked::Whole(frames.len() / 2), a, permitted) {
        Ok(used) => {
            let pattern = pattern_in(f, t, used.records);
            match follow_tables(&pattern, choices, frames) {
                Ok(stands) => Ok(stands),
                Err(e) => {
                    t.clear();
                    Err(e)
                }
            }
        }
        Err(e) => {
            clear(frames);
            Err(e)
        }
    }
}
