// Readers that fill one lent table of words, row by row. Each takes a part of the file, a place in the part, a table and how many of its rows are used, and
// answers the next place with the rows now used, or a refusal.
#![tactic(auto)]

ghost use Rattle.std.specs.Prelude.{◌≡◌, ◌+◌, ◌≤◌, ◌<◌, length, replicate};
ghost use Rattle.format.specs.Bytes.{no_zero};
ghost use Rattle.format.specs.Irep.{handler, bytes, pool_text, symbol_text, big_integer, pool_value};
ghost use Rattle.format.specs.Lvar.{plain_text, name_entry};
ghost use Rattle.format.specs.Rows.{text_row, handler_words, text_words, name_words};
ghost use Rattle.refusal.specs.Number.{answer_of, answer_as};
ghost use Rattle.rows.specs.Table.{out, row_count, first_of, put_of, put_step, times};
ghost use Rattle.rows.specs.Rows.{span_of, is_name, row_of, counted_of};
ghost use Rattle.rows.specs.declared.Row.TheVariants.{Pool};

use binfmt::{rest, u8_in, u16_in, u32_in};
use refusal::Refusal;

// A part of a file, and where it begins there.
#[derive(Clone, Copy)]
pub struct Part<'a> {
    pub bytes: &'a [u8],
    pub base: usize,
    ghost in_file: { base + length bytes.now ≤ 65536 },
}

// The next place and the rows used.
#[derive(Clone, Copy)]
pub struct Rows {
    pub at: usize,
    pub used: u32,
}

// Where a value's bytes lie, and the place after them.
#[derive(Clone, Copy)]
struct Span {
    place: u32,
    len: u32,
    next: usize,
}

// What a row is of: a handler, a pool entry, a symbol, a string without a zero, or a name among so many strings.
#[derive(Clone, Copy)]
pub enum Row {
    Handler,
    Pool,
    Symbol,
    Text,
    Name(u32),
}

// Every word of the table becomes 0.
pub fn clear(t: &mut [u32])
    ensures { t.new ≡ replicate (length t.old) 0 }
{
    t.fill(0);
}

// How many rows of so many words a table has, as far as 32 bits count them.
pub fn row_count(len: usize, w: usize) -> u32
    requires { 0 < w }
    ensures { result ≡ row_count len w }
{
    (len / w).min(u32::MAX as usize) as u32
}

// A first row is 0 where its number is 0.
pub fn first_row(row: u32, n: u32) -> u32
    ensures { result ≡ first_of row n }
{
    if n == 0 { 0 } else { row }
}

// Writes the words of the row behind those used, and goes on at a place; refused where the table has no such row. The table is lent from C, so how many
// of its rows are used is a number beside it.
pub fn put_row(t: &mut [u32], used: u32, row: &[u32], at: usize) -> Result<Rows, Refusal>
    requires { 0 < length row.now }
    ensures { out (answer_of result) t.new ≡ put_of at used t.old row.now }
{
    let w = row.len();
    if row_count(t.len(), w) <= used {
        return Err(Refusal::NoRow);
    }
    let from = (used as usize) * w;
    t[from..from + w].copy_from_slice(row);
    Ok(Rows { at, used: used + 1 })
}

// Whether none of the n bytes from a place on is zero.
fn no_zero(f: &[u8], n: usize, at: usize) -> bool
    requires { at + n ≤ length f.now }
    ensures { result ≡ no_zero f.now n at }
{
    !f[at..at + n].contains(&0)
}

// A handler: kind 1, begin 4, end 4, target 4.
#[tactic(auto, unfolding(format::specs::Irep::handler))]
fn read_handler(f: &[u8], at: usize, t: &mut [u32], used: u32) -> Result<Rows, Refusal>
    ensures { out (answer_of result) t.new ≡ put_step handler_words (handler f.now at) used t.old }
{
    if rest(f, at) < 13 {
        return Err(Refusal::PastEnd);
    }
    let row = [
        u8_in(f, at),
        u32_in(f, at + 1),
        u32_in(f, at + 5),
        u32_in(f, at + 9),
    ];
    put_row(t, used, &row, at + 13)
}

// Whether a name index is 65535, for unnamed, or below the number of strings.
fn is_name(index: u32, count: u32) -> bool
    ensures { result ≡ is_name index count }
{
    index == 65535 || index < count
}

// A name: a string index of two bytes.
#[tactic(auto, unfolding(format::specs::Lvar::name_entry))]
fn read_name(f: &[u8], count: u32, at: usize, t: &mut [u32], used: u32) -> Result<Rows, Refusal>
    ensures { out (answer_of result) t.new ≡ put_step name_words (name_entry f.now count at) used t.old }
{
    if rest(f, at) < 2 {
        return Err(Refusal::PastEnd);
    }
    let index = u16_in(f, at) as u32;
    if !is_name(index, count) {
        return Err(Refusal::LocalName);
    }
    put_row(t, used, &[index], at + 2)
}

// A text's place and length.
fn put_text(text: Span, t: &mut [u32], used: u32) -> Result<Rows, Refusal>
    ensures { out (answer_of result) t.new ≡ put_of text.next used t.old (text_words (text_row text.place text.len)) }
{
    put_row(t, used, &[text.place, text.len], text.next)
}

impl<'a> Part<'a> {
    // The n bytes from a place on.
    fn span(self, at: usize, n: usize) -> Result<Span, Refusal>
        requires { 0 < n }
        ensures { answer_as span_of result ≡ bytes self.entry.bytes.now self.entry.base at n }
    {
        if rest(self.bytes, at) < n {
            return Err(Refusal::PastEnd);
        }
        Ok(Span {
            place: (self.base + at) as u32,
            len: n as u32,
            next: at + n,
        })
    }

    // A pool string: a length n of two bytes, then n + 1 bytes of which the last is zero, which the span leaves out.
    #[tactic(auto, unfolding(format::specs::Irep::pool_text))]
    fn pool_text(self, at: usize) -> Result<Span, Refusal>
        ensures { answer_as span_of result ≡ pool_text self.entry.bytes.now self.entry.base at }
    {
        let f = self.bytes;
        if rest(f, at) < 2 {
            return Err(Refusal::PastEnd);
        }
        let n = u16_in(f, at) as usize;
        let place = at + 2;
        if rest(f, place) < n + 1 {
            return Err(Refusal::PastEnd);
        }
        if f[place + n] != 0 {
            return Err(Refusal::TextZero);
        }
        Ok(Span {
            place: (self.base + place) as u32,
            len: n as u32,
            next: place + (n + 1),
        })
    }

    // A symbol: a text that ends as a pool string does, without another zero.
    #[tactic(auto, unfolding(format::specs::Irep::symbol_text))]
    fn symbol_text(self, at: usize) -> Result<Span, Refusal>
        ensures { answer_as span_of result ≡ symbol_text self.entry.bytes.now self.entry.base at }
    {
        let span = self.pool_text(at)?;
        if no_zero(self.bytes, span.len as usize, at + 2) {
            Ok(span)
        } else {
            Err(Refusal::TextZero)
        }
    }

    // A local name or a file name: a length n of two bytes, then n bytes without a zero.
    #[tactic(auto, unfolding(format::specs::Lvar::plain_text))]
    fn plain_text(self, at: usize) -> Result<Span, Refusal>
        ensures { answer_as span_of result ≡ plain_text self.entry.bytes.now self.entry.base at }
    {
        let f = self.bytes;
        if rest(f, at) < 2 {
            return Err(Refusal::PastEnd);
        }
        let n = u16_in(f, at) as usize;
        let place = at + 2;
        if rest(f, place) < n {
            return Err(Refusal::PastEnd);
        }
        if !no_zero(f, n, place) {
            return Err(Refusal::TextZero);
        }
        Ok(Span {
            place: (self.base + place) as u32,
            len: n as u32,
            next: place + n,
        })
    }

    // A big integer: a length n of one byte, then n + 1 bytes.
    #[tactic(auto, unfolding(format::specs::Irep::big_integer))]
    fn big_integer(self, at: usize) -> Result<Span, Refusal>
        ensures { answer_as span_of result ≡ big_integer self.entry.bytes.now self.entry.base at }
    {
        if rest(self.bytes, at) < 1 {
            return Err(Refusal::PastEnd);
        }
        self.span(at + 1, (u8_in(self.bytes, at) as usize) + 1)
    }

    // The value of a pool entry of a kind, from the place after the kind. The kind stays a number: it is put as the word of a lent table.
    #[tactic(auto, unfolding(format::specs::Irep::pool_value))]
    fn pool_value(self, kind: u32, at: usize) -> Result<Span, Refusal>
        ensures { answer_as span_of result ≡ pool_value self.entry.bytes.now self.entry.base kind at }
    {
        match kind {
            0 | 2 => self.pool_text(at),
            1 => self.span(at, 4),
            3 | 5 => self.span(at, 8),
            7 => self.big_integer(at),
            _ => Err(Refusal::PoolKind),
        }
    }

    // A pool entry: its kind, then its value.
    #[tactic(auto, unfolding(format::specs::Irep::pool_entry))]
    fn read_pool_entry(self, at: usize, t: &mut [u32], used: u32) -> Result<Rows, Refusal>
        ensures { out (answer_of result) t.new ≡ row_of self.entry.bytes.now self.entry.base Pool at used t.old }
    {
        if rest(self.bytes, at) < 1 {
            return Err(Refusal::PastEnd);
        }
        let kind = u8_in(self.bytes, at);
        let value = self.pool_value(kind, at + 1)?;
        put_row(t, used, &[kind, value.place, value.len], value.next)
    }

    fn read_row(self, row: Row, at: usize, t: &mut [u32], used: u32) -> Result<Rows, Refusal>
        ensures { out (answer_of result) t.new ≡ row_of self.entry.bytes.now self.entry.base row at used t.old }
    {
        match row {
            Row::Handler => read_handler(self.bytes, at, t, used),
            Row::Pool => self.read_pool_entry(at, t, used),
            Row::Symbol => put_text(self.symbol_text(at)?, t, used),
            Row::Text => put_text(self.plain_text(at)?, t, used),
            Row::Name(count) => read_name(self.bytes, count, at, t, used),
        }
    }

    // So many rows of one kind.
    pub fn read_rows(
        self,
        row: Row,
        n: usize,
        at: usize,
        t: &mut [u32],
        used: u32,
    ) -> Result<Rows, Refusal>
        ensures { out (answer_of result) t.new ≡ times (row_of self.entry.bytes.now self.entry.base row) n at used t.old }
    {
        let mut rows = Rows { at, used };
        for _i in 0..n {
            rows = self.read_row(row, rows.at, t, rows.used)?;
        }
        Ok(rows)
    }

    // A count of two bytes, then as many rows.
    #[tactic(auto, unfolding(crate::specs::Rows::counted_of))]
    pub fn read_counted(
        self,
        row: Row,
        at: usize,
        t: &mut [u32],
        used: u32,
    ) -> Result<Rows, Refusal>
        ensures { out (answer_of result) t.new ≡ counted_of self.entry.bytes.now self.entry.base row at used t.old }
    {
        if rest(self.bytes, at) < 2 {
            return Err(Refusal::PastEnd);
        }
        self.read_rows(row, u16_in(self.bytes, at) as usize, at + 2, t, used)
    }
}
