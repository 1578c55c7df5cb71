// Record rows as structs, in a slice that the caller lends, filled from the words of a record table.
#![tactic(auto)]

ghost use Rattle.std.specs.Prelude.{◌≡◌, length, get_or};
ghost use Rattle.records_row.specs.Row.{zero_row};
ghost use Rattle.records.specs.Records.{rows_of};

use records_row::{Record, row_at};

// Fills lent rows from the words of a record table: a row for each that they hold, then rows of zeros.
#[tactic(auto, using(crate::proofs::Filled::filled_more), unfolding(format::specs::Line::rows_from))]
pub fn fill(rows: &mut [Record], words: &[u32])
    ensures { rows.new ≡ rows_of words.now (length rows.old) }
{
    for (i, row) in rows.iter_mut().enumerate() {
        *row = row_at(words, i);
    }
}

// Row i of the rows, zeros past the last.
#[tactic(auto, unfolding(records_row::specs::Row::zero_row))]
pub fn row(rows: &[Record], i: usize) -> Record
    ensures { result ≡ get_or rows.now i zero_row }
{
    rows.get(i).copied().unwrap_or_default()
}
