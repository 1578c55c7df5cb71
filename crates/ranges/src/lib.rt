// What lookups share: the words of a record's row, a row of a range, bytes of the file.
#![tactic(auto)]

ghost use Rattle.std.specs.Prelude.{◌≡◌, ◌||◌, ◌+◌, ◌<◌, leb, eqb};
ghost use Rattle.format.specs.Rows.{text_row};
ghost use Rattle.format.specs.Lookup as format;
ghost use Rattle.refusal.specs.Number.{answer_of, answer_as};
ghost use Rattle.ranges.specs.Answers.{text_of, range_of};
ghost use Rattle.ranges.specs.Leaves.{record_words, row_among, record_row};

use format::RECORD_WIDTH;
use refusal::Refusal;

// A text's place and length in the file.
#[derive(Clone, Copy)]
pub struct Text {
    pub place: u32,
    pub length: u32,
}

// Rows of a table: the first and how many.
#[derive(Clone, Copy)]
pub struct Range {
    pub first: u32,
    pub number: u32,
}

impl Range {
    // Which row of a table of `rows` rows an index of the range is.
    fn row_among(self, rows: usize, index: u32) -> Result<usize, Refusal>
        ensures { answer_of result ≡ row_among rows (range_of self) index }
    {
        if self.number <= index {
            return Err(Refusal::Missing);
        }
        let row = (self.first as usize) + (index as usize);
        if rows <= row {
            return Err(Refusal::Missing);
        }
        Ok(row)
    }

    // Whether it lies in a table of `rows` rows: no rows point nowhere.
    pub fn is_in(self, rows: usize) -> bool
        ensures { result ≡ (eqb self.number 0 || leb (self.first + self.number) rows) }
    {
        self.number == 0 || (self.first as usize) + (self.number as usize) <= rows
    }
}

// Words k and k + 1 of a record's row, which mostly say a range; a row of size 0 is none.
pub fn record_words(records: &[u32], rec: u32, k: usize) -> Result<Range, Refusal>
    requires { k < 18 }
    ensures { answer_as range_of result ≡ record_words records.now rec k }
{
    let row = rec as usize;
    if records.len() / RECORD_WIDTH <= row {
        return Err(Refusal::Missing);
    }
    let start = row * RECORD_WIDTH;
    if records[start] == 0 {
        return Err(Refusal::Missing);
    }
    Ok(Range {
        first: records[start + k],
        number: records[start + k + 1],
    })
}

// Which row of a table of `rows` rows an index of a record's range is: words k and k + 1 of the record's row are the range.
pub fn record_row(
    records: &[u32],
    rec: u32,
    k: usize,
    rows: usize,
    index: u32,
) -> Result<usize, Refusal>
    requires { k < 18 }
    ensures { answer_of result ≡ record_row records.now rec k rows index }
{
    record_words(records, rec, k)?.row_among(rows, index)
}

// Bytes of the file.
#[tactic(auto, unfolding(format::specs::Lookup::bytes_in))]
pub fn bytes_in(f: &[u8], place: u32, length: u32) -> Result<Text, Refusal>
    ensures { answer_as text_of result ≡ format.bytes_in f.now (text_row place length) }
{
    if f.len() < (place as usize) + (length as usize) {
        return Err(Refusal::Missing);
    }
    Ok(Text { place, length })
}

// Row i of a table of texts.
#[tactic(auto, unfolding(format::specs::Lookup::text_in))]
pub fn text_in(f: &[u8], texts: &[u32], i: usize) -> Result<Text, Refusal>
    ensures { answer_as text_of result ≡ format.text_in f.now texts.now i }
{
    if texts.len() / 2 <= i {
        return Err(Refusal::Missing);
    }
    let start = i * 2;
    bytes_in(f, texts[start], texts[start + 1])
}
