// Replays stored answers of fetch, line lookup and the seven lookups. Answers are compared as the structs of the C boundary.
#![tactic(auto)]

ghost use Rattle.std.specs.Prelude.{◌≤◌, length};

use boundary_lookups::{
    BlotheathConstant, BlotheathDebugFile, BlotheathHandler, BlotheathLookedLine, BlotheathName,
    BlotheathText,
};
use boundary_steps::{BlotheathFetched, BlotheathLine};
use line::Pos;
use number_float::f64_at;
use std::io;
use std::io::Read;
use stored::{
    State, ahead, answered, at_file, at_words, begun, ended, five_agree, group_item, least, part,
    word,
};

// The lookups, by the numbers that are stored for them; any other number is a line's.
#[derive(Clone, Copy)]
enum Lookup {
    Instructions,
    Handler,
    Constant,
    Symbol,
    Name,
    DebugFile,
    Line,
}

impl From<u32> for Lookup {
    fn from(n: u32) -> Lookup {
        match n {
            0 => Lookup::Instructions,
            1 => Lookup::Handler,
            2 => Lookup::Constant,
            3 => Lookup::Symbol,
            4 => Lookup::Name,
            5 => Lookup::DebugFile,
            _ => Lookup::Line,
        }
    }
}

fn fetched_agrees(r: BlotheathFetched, all: &[u8], at: usize) -> bool {
    five_agree(r.refusal, r.kind, r.a, r.b, r.c, all, at)
}

fn fetch_at(all: &[u8], code: &[u8], at: usize) -> bool {
    fetched_agrees(boundary_steps::fetched(insn::fetch(code)), all, at)
}

// Reads as many words as there is place for.
fn read_words(words: &mut [u32], all: &[u8], at: usize) {
    for (i, w) in words.iter_mut().enumerate() {
        *w = word(all, ahead(at, i.saturating_mul(4)));
    }
}

fn line_agrees(r: BlotheathLine, all: &[u8], at: usize) -> bool {
    word(all, at) == r.found && word(all, ahead(at, 4)) == r.line
}

fn line_in(words: &mut [u32], all: &[u8], map: usize, at: usize) -> bool {
    read_words(words, all, map);
    line_agrees(
        boundary_steps::line_found(line::line_at(words, Pos(word(all, at)))),
        all,
        ahead(at, 4),
    )
}

fn line_at(all: &[u8], map: usize, rows: usize, at: usize) -> bool {
    let mut words = [0u32; 512];
    let n = least(rows, 512);
    line_in(&mut words[0..n], all, map, at)
}

// Answers are compared as arrays of six numbers, by functions: `From` cannot stand here, as array and struct are both of other crates.
fn of_text(r: BlotheathText) -> [u32; 6] {
    [r.refusal, r.place, r.length, 0, 0, 0]
}

fn of_handler(r: BlotheathHandler) -> [u32; 6] {
    [r.refusal, r.kind, r.begin, r.end, r.target, 0]
}

fn of_name(r: BlotheathName) -> [u32; 6] {
    [r.refusal, r.named, r.place, r.length, 0, 0]
}

fn of_debug_file(r: BlotheathDebugFile) -> [u32; 6] {
    [r.refusal, r.start, r.place, r.length, r.first, r.number]
}

fn of_looked_line(r: BlotheathLookedLine) -> [u32; 6] {
    [r.refusal, r.found, r.line, 0, 0, 0]
}

fn looked_agrees(n: [u32; 6], all: &[u8], at: usize) -> bool {
    word(all, at) == n[0] && five_agree(n[1], n[2], n[3], n[4], n[5], all, ahead(at, 4))
}

// The stored number is two words, the high one first, in two's complement.
// The halves are put together by hand: read by `i64_at`, which is under test here, they would agree in any order of bytes.
fn same_int(n: i64, all: &[u8], at: usize) -> bool {
    let stored = (word(all, at) as u64) << 32 | word(all, ahead(at, 4)) as u64;
    n == stored.cast_signed()
}

// Equal floats, zeros of one sign, or two NaNs.
fn floats_agree(x: f64, y: f64) -> bool {
    if x == y {
        return 1.0 / x == 1.0 / y;
    }
    x != x && y != y
}

fn same_float(x: f64, all: &[u8], at: usize) -> bool {
    f64_at(all, at).is_ok_and(|y| floats_agree(x, y))
}

fn constant_agrees(r: BlotheathConstant, all: &[u8], at: usize) -> bool {
    word(all, at) == r.refusal
        && word(all, ahead(at, 4)) == r.kind
        && word(all, ahead(at, 8)) == r.place
        && word(all, ahead(at, 12)) == r.length
        && same_int(r.int, all, ahead(at, 16))
        && same_float(r.float, all, ahead(at, 24))
}

// Where the words of a table end that start at a place behind the nine lengths; at the last word if they are too few.
fn table_end(words: &[u32], table: usize, start: usize) -> usize
    requires { start ≤ length words.now }
    ensures { (start ≤ result) × (result ≤ length words.now) }
{
    if table < words.len() {
        let n = words[table] as usize;
        if n < words.len() - start {
            return start + n;
        }
    }
    words.len()
}

// Where the words of a table start, behind the nine lengths and the tables before it.
fn table_start(words: &[u32], table: usize) -> usize
    ensures { result ≤ length words.now }
{
    let mut at = least(9, words.len());
    for i in 0..table {
        at = table_end(words, i, at);
    }
    at
}

// The words of one of the nine tables.
fn table(words: &[u32], i: usize) -> &[u32] {
    let start = table_start(words, i);
    &words[start..table_end(words, i, start)]
}

// Whether a lookup in nine tables answers as stored at a place, behind the record and the index.
fn looked_in(words: &[u32], lookup: Lookup, file: &[u8], all: &[u8], at: usize) -> bool {
    let rec = word(all, at);
    let index = word(all, ahead(at, 4));
    let answer = ahead(at, 8);
    let records = table(words, 0);
    let agrees = |numbers: [u32; 6]| looked_agrees(numbers, all, answer);
    match lookup {
        Lookup::Instructions => agrees(of_text(boundary_lookups::text(lookup::instructions(
            file, records, rec,
        )))),
        Lookup::Handler => agrees(of_handler(boundary_lookups::handler(lookup::handler(
            records,
            table(words, 1),
            rec,
            index,
        )))),
        Lookup::Constant => constant_agrees(
            boundary_lookups::constant(lookup::pool(file, records, table(words, 2), rec, index)),
            all,
            answer,
        ),
        Lookup::Symbol => agrees(of_text(boundary_lookups::text(lookup::symbol(
            file,
            records,
            table(words, 3),
            rec,
            index,
        )))),
        Lookup::Name => agrees(of_name(boundary_lookups::name(lookup::name(
            file,
            records,
            table(words, 4),
            table(words, 5),
            rec,
            index,
        )))),
        Lookup::DebugFile => agrees(of_debug_file(boundary_lookups::debug_file(
            lookup::debug_file(
                file,
                records,
                table(words, 6),
                table(words, 7),
                table(words, 8),
                rec,
                index,
            ),
        ))),
        Lookup::Line => agrees(of_looked_line(boundary_lookups::looked_line(lookup::line(
            records,
            table(words, 8),
            rec,
            Pos(index),
        )))),
    }
}

fn read_and_look_up(words: &mut [u32], lookup: Lookup, all: &[u8], s: State, at: usize) -> bool {
    read_words(words, all, s.map);
    looked_in(words, lookup, part(all, s.file, s.bytes), all, at)
}

fn look_up_at(lookup: Lookup, all: &[u8], s: State, at: usize) -> bool {
    let mut words = [0u32; 512];
    let n = least(s.rows, 512);
    read_and_look_up(&mut words[0..n], lookup, all, s, at)
}

fn fetch_item(all: &[u8], s: State) -> State {
    answered(
        s,
        fetch_at(all, part(all, s.file, s.bytes), ahead(s.at, 4)),
        24,
    )
}

fn line_item(all: &[u8], s: State) -> State {
    answered(s, line_at(all, s.map, s.rows, ahead(s.at, 4)), 16)
}

fn lookup_item(all: &[u8], s: State) -> State {
    let lookup = Lookup::from(word(all, ahead(s.at, 4)));
    answered(s, look_up_at(lookup, all, s, ahead(s.at, 8)), 40)
}

fn constant_item(all: &[u8], s: State) -> State {
    answered(s, look_up_at(Lookup::Constant, all, s, ahead(s.at, 4)), 44)
}

fn item(rt: &impl Print, all: &[u8], s: State) -> io::Result<State> {
    match word(all, s.at) {
        1 => Ok(at_file(all, s)),
        3 => Ok(fetch_item(all, s)),
        4 => Ok(at_words(all, s)),
        5 => Ok(line_item(all, s)),
        9 => Ok(lookup_item(all, s)),
        10 => Ok(constant_item(all, s)),
        6 => group_item(rt, all, s),
        _ => Ok(ended(s)),
    }
}

// Each replay has its loop: one for both would be a public function with nothing to promise, since a clause says nothing of what is printed.
fn replay(rt: &impl Print, all: &[u8]) -> io::Result<()> {
    let mut s = begun();
    for _ in 0..1000000u32 {
        if !s.going {
            return Ok(());
        }
        s = item(rt, all, s)?;
    }
    Ok(())
}

fn main(rt: HostRuntime) -> io::Result<()> {
    let mut all = Vec::new(rt.alloc());
    rt.reader().take(524288).read_to_end(&mut all)?;
    replay(&rt, all.as_slice())
}
