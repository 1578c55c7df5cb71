// Stored answers: numbers of four bytes, high byte first, and how far a replay has come with them.
// The form stands at the top of host/compare/src/store.rs.
#![tactic(auto)]

ghost use Rattle.std.specs.Prelude.{◌≡◌, ◌≤◌, IfOk};
ghost use Rattle.stored.specs.Stored as stored;

use std::io;

// A place past everything that is stored.
const FAR: usize = 16777216;

// How far a replay has come: the place of the next item, the bytes and the words that stand last, and the answers of this group.
// `going` is a field beside the values, not an Option around them: `begun` and `ended` are public and promise it so, and `ended` keeps the values.
#[derive(Clone, Copy, Default)]
pub struct State {
    pub going: bool,
    pub at: usize,
    pub file: usize,
    pub bytes: usize,
    pub map: usize,
    pub rows: usize,
    pub answers: u32,
    pub differences: u32,
}

// A place so many bytes on; past everything stored if it is far.
pub fn ahead(at: usize, n: usize) -> usize
    ensures { result ≡ stored.ahead at n }
{
    if at < FAR && n < FAR { at + n } else { FAR }
}

// The number at a place, 0 past the end.
pub fn word(all: &[u8], at: usize) -> u32
    ensures { result ≡ stored.word all.now at }
{
    binfmt::u32_at(all, at).unwrap_or(0)
}

pub fn least(a: usize, b: usize) -> usize
    ensures { (result ≡ stored.least a b) × (result ≤ b) }
{
    a.min(b)
}

fn one_more(n: u32) -> u32
    ensures { result ≡ stored.one_more n }
{
    n.saturating_add(1)
}

// So many bytes at a place, as far as they are stored.
pub fn part(all: &[u8], at: usize, bytes: usize) -> &[u8]
    ensures { result.now ≡ stored.part all.now at bytes }
{
    let end = least(ahead(at, bytes), all.len());
    let start = least(at, end);
    &all[start..end]
}

// Whether five numbers are those stored at a place.
pub fn five_agree(a: u32, b: u32, c: u32, d: u32, e: u32, all: &[u8], at: usize) -> bool
    ensures { result ≡ stored.five_agree a b c d e all.now at }
{
    [a, b, c, d, e]
        == [
            word(all, at),
            word(all, ahead(at, 4)),
            word(all, ahead(at, 8)),
            word(all, ahead(at, 12)),
            word(all, ahead(at, 16)),
        ]
}

// Nothing has come yet.
pub fn begun() -> State
    ensures { result ≡ stored.begun }
{
    State {
        going: true,
        ..State::default()
    }
}

// A count of differences, with an answer that agrees or not.
fn counted(n: u32, agrees: bool) -> u32
    ensures { result ≡ stored.counted n agrees }
{
    if agrees { n } else { one_more(n) }
}

// Behind an answer of so many bytes.
pub fn answered(s: State, agrees: bool, bytes: usize) -> State
    ensures { result ≡ stored.answered s agrees bytes }
{
    State {
        going: true,
        at: ahead(s.at, bytes),
        answers: one_more(s.answers),
        differences: counted(s.differences, agrees),
        ..s
    }
}

// Behind bytes, which stand last.
pub fn at_file(all: &[u8], s: State) -> State
    ensures { result ≡ stored.at_file all.now s }
{
    let bytes = word(all, ahead(s.at, 4)) as usize;
    let file = ahead(s.at, 8);
    State {
        going: true,
        at: ahead(file, bytes),
        file,
        bytes,
        ..s
    }
}

// Behind words, which stand last.
pub fn at_words(all: &[u8], s: State) -> State
    ensures { result ≡ stored.at_words all.now s }
{
    let rows = word(all, ahead(s.at, 4)) as usize;
    let map = ahead(s.at, 8);
    let bytes = least(rows, 512) * 4;
    State {
        going: true,
        at: ahead(map, bytes),
        map,
        rows,
        ..s
    }
}

// Behind the name that ends a group of answers.
pub fn next_group(s: State, bytes: usize) -> State
    ensures { result ≡ stored.next_group s bytes }
{
    State {
        going: true,
        at: ahead(ahead(s.at, 8), bytes),
        answers: 0,
        differences: 0,
        ..s
    }
}

// The end of a group: prints its name, answers and differences, and goes on behind it.
pub fn group_item(rt: &impl Print, all: &[u8], s: State) -> io::Result<State>
    ensures { IfOk result (λ t. t ≡ stored.next_group s (stored.word all.now (stored.ahead s.at 4))) }
{
    let bytes = word(all, ahead(s.at, 4)) as usize;
    rt.write_all(part(all, ahead(s.at, 8), bytes))?;
    println!(rt; ": {} answers, differences {}", s.answers, s.differences)?;
    Ok(next_group(s, bytes))
}

// At the end.
pub fn ended(s: State) -> State
    ensures { result ≡ stored.ended s }
{
    State { going: false, ..s }
}
