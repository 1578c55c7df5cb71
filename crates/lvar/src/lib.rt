// The LVAR section: its strings, then the names of each record that the walk visits, put into lent tables of words.
#![tactic(auto)]

ghost use Rattle.std.specs.Prelude.{◌≡◌, ◌+◌, ◌*◌, ◌<◌, ◌≤◌, length};
ghost use Rattle.refusal.specs.Number.{answer_of};
ghost use Rattle.lvar.specs.Names.{state_of, out_of, put_names, lv_step, lv_walk, visits_over, in_word};
ghost use Rattle.lvar.specs.Section.{filled, end_of, lvar_of};
ghost use Rattle.format.specs.Rows.{record_width};

use binfmt::u32_at;
use format::RECORD_WIDTH;
use headers::section_size;
use refusal::Refusal;
use rows::{Part, Row, Rows, first_row};

// The next place, the names used and the next record.
#[derive(Clone, Copy)]
struct Walk {
    rows: Rows,
    rec: usize,
}

// The rows used of both tables, and the visits that the walk made.
#[derive(Clone, Copy, Default)]
pub struct Used {
    pub strings: u32,
    pub names: u32,
    pub visits: u32,
}

// The section's size, and what it uses.
#[derive(Clone, Copy)]
pub struct Section {
    pub size: u32,
    pub used: Used,
}

// What the walk reads by: the section's part of the file, the number of its strings, and that of the records.
// The lent tables stay parameters beside it: held in a struct, each would need a clause in every contract that its field keeps its ghost name.
#[derive(Clone, Copy)]
struct Entries<'a> {
    part: Part<'a>,
    strings: u32,
    count: usize,
}

// Sets the first name and the number of names in the record row from a word on.
fn put_names(records: &mut [u32], row: usize, first: u32, n: u32)
    requires { row + 14 < length records.old }
    ensures { records.new ≡ put_names records.old row first n }
{
    records[row + 13] = first;
    records[row + 14] = n;
}

impl<'a> Entries<'a> {
    // The entries of one record: one fewer than its nlocals.
    #[tactic(auto, unfolding(crate::specs::Names::lv_step))]
    fn read_record(
        &self,
        walk: Walk,
        records: &mut [u32],
        names: &mut [u32],
    ) -> Result<Walk, Refusal>
        requires { walk.rec * record_width + 14 < length records.old }
        ensures { out_of (answer_of result) records.new names.new
            ≡ lv_step self.now.part.bytes.now self.now.part.base self.now.strings (state_of walk records.old names.old) }
    {
        let row = walk.rec * RECORD_WIDTH;
        let nlocals = records[row + 1];
        if nlocals == 0 {
            return Err(Refusal::LocalName);
        }
        let n = nlocals - 1;
        let used = walk.rows.used;
        let rows = self.part.read_rows(
            Row::Name(self.strings),
            n as usize,
            walk.rows.at,
            names,
            used,
        )?;
        put_names(records, row, first_row(used, n), n);
        let rec = walk.rec + 1;
        Ok(Walk { rows, rec })
    }

    // A visit of a record: its entries, then its children in turn. A visit past the last record reads nothing.
    // `debug::read_debug_record` walks alike: one function for both would be no plainer, as it needs a trait of the steps, whose ghost members state both walks.
    fn read_lv_records(
        &self,
        walk: Walk,
        records: &mut [u32],
        names: &mut [u32],
    ) -> Result<Walk, Refusal>
        requires { self.now.count * record_width ≤ length records.old }
        ensures { out_of (answer_of result) records.new names.new
            ≡ lv_walk self.now.part.bytes.now self.now.part.base self.now.strings self.now.count 1 (state_of walk records.old names.old) }
    {
        if self.count <= walk.rec {
            return Ok(walk);
        }
        let rlen = records[walk.rec * RECORD_WIDTH + 3];
        let mut then = self.read_record(walk, records, names)?;
        for _child in 0..rlen {
            if self.count <= then.rec {
                return Ok(then);
            }
            then = self.read_lv_records(then, records, names)?;
        }
        Ok(then)
    }
}

// The visits of a walk that visits the first n records: that of record 0 and one for each child, past the last record or not. For no file is the
// sum above a word.
#[tactic(auto, using(crate::proofs::Sums::left_start, crate::proofs::Sums::left_turn, crate::proofs::Sums::left_end))]
fn visits(records: &[u32], n: usize) -> u32
    requires { n * record_width ≤ length records.now }
    ensures { result ≡ in_word (visits_over records.now n) }
{
    let mut sum: u32 = 1;
    for i in 0..n {
        sum = sum.wrapping_add(records[i * RECORD_WIDTH + 3]);
    }
    sum
}

impl Section {
    // The size is not 0, and the part has as many bytes.
    #[tactic(auto, unfolding(crate::specs::Section::end_of))]
    fn sized(self, f: &[u8]) -> Result<Section, Refusal>
        ensures { answer_of result ≡ end_of f.now self.size self.used.strings self.used.names self.used.visits }
    {
        if self.size == 0 {
            return Err(Refusal::SizeZero);
        }
        if f.len() < (self.size as usize) {
            return Err(Refusal::PastEnd);
        }
        Ok(self)
    }
}

// The strings, the names of the records visited, then the size.
#[tactic(auto, unfolding(crate::specs::Section::lvar_of))]
pub fn section_lvar(
    part: Part,
    count: usize,
    records: &mut [u32],
    strings: &mut [u32],
    names: &mut [u32],
) -> Result<Section, Refusal>
    requires { count * record_width ≤ length records.old }
    ensures { filled (answer_of result) records.new strings.new names.new
        ≡ lvar_of part.entry.bytes.now part.entry.base count records.old strings.old names.old }
{
    let size = section_size(part.bytes)?;
    let n = u32_at(part.bytes, 8)?;
    let texts = part.read_rows(Row::Text, n as usize, 12, strings, 0)?;
    let entries = Entries {
        part,
        strings: n,
        count,
    };
    let from = Walk {
        rows: Rows {
            at: texts.at,
            used: 0,
        },
        rec: 0,
    };
    let walk = entries.read_lv_records(from, records, names)?;
    let used = Used {
        strings: texts.used,
        names: walk.rows.used,
        visits: visits(records, walk.rec),
    };
    Section { size, used }.sized(part.bytes)
}
