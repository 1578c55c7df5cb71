// A record's row as a struct, and what the words of a record table say of one.
#![tactic(auto)]

ghost use Rattle.std.specs.Prelude.{◌≡◌};
ghost use Rattle.records_row.specs.Row.{zero_row, row_at};

use format::RECORD_WIDTH;

// A record's row, its words in their order. A kind's name is the first of its rows, and n before the name their number.
// Depth is how many records lie above it in the tree, and parent the record right above, 65535 where there is none.
#[repr(C)]
#[derive(Clone, Copy, Default)]
pub struct Record {
    pub size: u32,
    pub nlocals: u32,
    pub nregs: u32,
    pub rlen: u32,
    pub clen: u32,
    pub ilen: u32,
    pub place: u32,
    pub handlers: u32,
    pub nhandlers: u32,
    pub pool: u32,
    pub npool: u32,
    pub symbols: u32,
    pub nsymbols: u32,
    pub names: u32,
    pub nnames: u32,
    pub files: u32,
    pub nfiles: u32,
    pub lines: u32,
    pub nlines: u32,
    pub depth: u32,
    pub parent: u32,
}

// A row of zeros.
#[tactic(auto, unfolding(crate::specs::Row::zero_row))]
pub fn zero_row() -> Record
    ensures { result ≡ zero_row }
{
    Record::default()
}

// What the words of a record table say of row i; zeros past the last whole row.
#[tactic(auto, unfolding(crate::specs::Row::row_at))]
pub fn row_at(words: &[u32], i: usize) -> Record
    ensures { result ≡ row_at words.now i }
{
    if words.len() / RECORD_WIDTH <= i {
        return zero_row();
    }
    let k = i * RECORD_WIDTH;
    Record {
        size: words[k],
        nlocals: words[k + 1],
        nregs: words[k + 2],
        rlen: words[k + 3],
        clen: words[k + 4],
        ilen: words[k + 5],
        place: words[k + 6],
        handlers: words[k + 7],
        nhandlers: words[k + 8],
        pool: words[k + 9],
        npool: words[k + 10],
        symbols: words[k + 11],
        nsymbols: words[k + 12],
        names: words[k + 13],
        nnames: words[k + 14],
        files: words[k + 15],
        nfiles: words[k + 16],
        lines: words[k + 17],
        nlines: words[k + 18],
        depth: words[k + 19],
        parent: words[k + 20],
    }
}
