// Replays stored answers of load, examination and follow, the papers' samples first. Answers are compared as the structs of the C boundary.
#![tactic(auto)]

ghost use Rattle.std.specs.Prelude.{◌≤◌};

use boundary::{BlotheathFollowed, BlotheathLoaded};
use format::{DESKTOP_BYTES, DESKTOP_RECORDS, OPCODES, RECORD_WIDTH};
use rite::Allowance;
use std::io;
use std::io::Read;
use stored::{
    State, ahead, answered, at_file, at_words, begun, ended, five_agree, group_item, least, part,
    word,
};
use tables::Tables;

// The most words of a lent record table: those of the 1,024 rows that a load may fill, and of three rows more.
const RECORD_WORDS: usize = (1024 + 3) * RECORD_WIDTH;

// The most words of any other lent table, and of the frame table.
const TABLE_WORDS: usize = 8192;

const FRAME_WORDS: usize = 2048;

// What each lent word holds before a call.
const ANYTHING: u32 = 3735928559;

// What is called: a load, an examination of the whole or of a single record, or a follow along choices over a frame table of so many words.
#[derive(Clone, Copy)]
enum Call<'a> {
    Load,
    Examine,
    ExamineRecord(u32),
    Follow {
        frame_words: usize,
        choices: &'a [u8],
    },
}

// What a call answers, and the sum of its tables afterwards.
#[derive(Drop)]
struct Outcome {
    numbers: [u32; 11],
    sum: u64,
}

// The number at a place, at most so many.
fn size(all: &[u8], at: usize, most: usize) -> usize
    ensures { result ≤ most }
{
    least(word(all, at) as usize, most)
}

fn sum_step(sum: u64, w: u32) -> u64 {
    (sum % 4294967291 * 65599 + (w as u64) + 1) % 4294967291
}

// The sum of a table's words, behind that of the tables before it.
fn sum(words: &[u32], before: u64) -> u64 {
    let mut s = before;
    for w in words {
        s = sum_step(s, *w);
    }
    s
}

fn sum_of_all(t: &Tables, frames: &[u32]) -> u64 {
    let tables = [
        &*t.records,
        &*t.handlers,
        &*t.pool,
        &*t.symbols,
        &*t.strings,
        &*t.names,
        &*t.filenames,
        &*t.files,
        &*t.lines,
        frames,
    ];
    let mut s = 0;
    for words in tables {
        s = sum(words, s);
    }
    s
}

// Answers are compared as arrays of eleven numbers, by functions: `From` cannot stand here, as array and struct are both of other crates.
fn of_loaded(r: BlotheathLoaded) -> [u32; 11] {
    [
        r.refusal,
        r.records,
        r.handlers,
        r.pool,
        r.symbols,
        r.strings,
        r.names,
        r.filenames,
        r.files,
        r.lines,
        r.visits,
    ]
}

fn of_followed(r: BlotheathFollowed) -> [u32; 11] {
    [
        r.refusal, r.finished, r.record, r.offset, r.found, r.line, r.frames, 0, 0, 0, 0,
    ]
}

// Whether an answer and the sum of its tables are the stored ones.
fn outcome_agrees(o: Outcome, all: &[u8], at: usize) -> bool {
    let n = o.numbers;
    (word(all, ahead(at, 44)) as u64) == o.sum
        && word(all, ahead(at, 40)) == n[10]
        && five_agree(n[0], n[1], n[2], n[3], n[4], all, at)
        && five_agree(n[5], n[6], n[7], n[8], n[9], all, ahead(at, 20))
}

// How many of the words that stand last are an allowance; a list of permitted opcodes may stand behind them, its length first.
const ALLOWANCE_WORDS: usize = 2;

// The allowance of a call: the first of the words that stand last, or the desktop's.
fn allowance_of(all: &[u8], s: State) -> Allowance {
    if s.rows >= ALLOWANCE_WORDS {
        return Allowance {
            bytes: word(all, s.map),
            records: word(all, ahead(s.map, 4)),
        };
    }
    Allowance {
        bytes: DESKTOP_BYTES,
        records: DESKTOP_RECORDS,
    }
}

fn answer(
    call: Call,
    file: &[u8],
    t: &mut Tables,
    frames: &mut [u32],
    allowance: Allowance,
    permitted: &[u8],
) -> [u32; 11] {
    match call {
        Call::Load => of_loaded(boundary::loaded(rite::load(file, t, allowance))),
        Call::Examine => of_loaded(boundary::loaded(examine::examine(
            file, t, allowance, permitted,
        ))),
        Call::ExamineRecord(rec) => of_loaded(boundary::loaded(examine::examine_record(
            file, t, allowance, permitted, rec,
        ))),
        Call::Follow { choices, .. } => of_followed(boundary::followed(follow::follow(
            file, t, frames, choices, allowance, permitted,
        ))),
    }
}

// A call over tables of nine sizes that stand at a place, and over a frame table; they hold anything before it.
fn call_sized(
    call: Call,
    file: &[u8],
    all: &[u8],
    at: usize,
    allowance: Allowance,
    permitted: &[u8],
) -> Outcome {
    let mut records = [ANYTHING; RECORD_WORDS];
    let mut handlers = [ANYTHING; TABLE_WORDS];
    let mut pool = [ANYTHING; TABLE_WORDS];
    let mut symbols = [ANYTHING; TABLE_WORDS];
    let mut strings = [ANYTHING; TABLE_WORDS];
    let mut names = [ANYTHING; TABLE_WORDS];
    let mut filenames = [ANYTHING; TABLE_WORDS];
    let mut files = [ANYTHING; TABLE_WORDS];
    let mut lines = [ANYTHING; TABLE_WORDS];
    let mut frames = [ANYTHING; FRAME_WORDS];
    let frame_words = match call {
        Call::Follow { frame_words, .. } => least(frame_words, FRAME_WORDS),
        _ => 0,
    };
    let mut t = Tables {
        records: &mut records[..size(all, at, RECORD_WORDS)],
        handlers: &mut handlers[..size(all, ahead(at, 4), TABLE_WORDS)],
        pool: &mut pool[..size(all, ahead(at, 8), TABLE_WORDS)],
        symbols: &mut symbols[..size(all, ahead(at, 12), TABLE_WORDS)],
        strings: &mut strings[..size(all, ahead(at, 16), TABLE_WORDS)],
        names: &mut names[..size(all, ahead(at, 20), TABLE_WORDS)],
        filenames: &mut filenames[..size(all, ahead(at, 24), TABLE_WORDS)],
        files: &mut files[..size(all, ahead(at, 28), TABLE_WORDS)],
        lines: &mut lines[..size(all, ahead(at, 32), TABLE_WORDS)],
    };
    let frames = &mut frames[..frame_words];
    let numbers = answer(call, file, &mut t, frames, allowance, permitted);
    let sum = sum_of_all(&t, frames);
    Outcome { numbers, sum }
}

// Whether a call answers as stored, for a list of permitted opcodes; the nine sizes stand first, then the answer.
fn call_listed(call: Call, all: &[u8], s: State, at: usize, permitted: &[u8]) -> bool {
    let file = part(all, s.file, s.bytes);
    let o = call_sized(call, file, all, at, allowance_of(all, s), permitted);
    outcome_agrees(o, all, ahead(at, 36))
}

// The same for the list behind the allowance, or for one that permits everything.
fn call_agrees(call: Call, all: &[u8], s: State, at: usize) -> bool {
    if s.rows <= ALLOWANCE_WORDS {
        return call_listed(call, all, s, at, &[1u8; OPCODES]);
    }
    let bytes = word(all, ahead(s.map, 8)) as usize;
    call_listed(call, all, s, at, part(all, ahead(s.map, 12), bytes))
}

// The item of a call, of so many bytes.
fn call_item(call: Call, all: &[u8], s: State, bytes: usize) -> State {
    answered(s, call_agrees(call, all, s, ahead(s.at, 4)), bytes)
}

// An examination of a single record, whose number stands last.
fn single_item(all: &[u8], s: State) -> State {
    let rec = word(all, ahead(s.at, 88));
    call_item(Call::ExamineRecord(rec), all, s, 92)
}

fn follow_item(all: &[u8], s: State) -> State {
    let frame_words = word(all, ahead(s.at, 88)) as usize;
    let bytes = word(all, ahead(s.at, 92)) as usize;
    let choices = part(all, ahead(s.at, 96), bytes);
    call_item(
        Call::Follow {
            frame_words,
            choices,
        },
        all,
        s,
        ahead(bytes, 96),
    )
}

fn item(rt: &impl Print, all: &[u8], s: State) -> io::Result<State> {
    match word(all, s.at) {
        1 => Ok(at_file(all, s)),
        2 => Ok(call_item(Call::Load, all, s, 88)),
        4 => Ok(at_words(all, s)),
        7 => Ok(call_item(Call::Examine, all, s, 88)),
        8 => Ok(follow_item(all, s)),
        11 => Ok(single_item(all, s)),
        6 => group_item(rt, all, s),
        _ => Ok(ended(s)),
    }
}

// Each replay has its loop: one for both would be a public function with nothing to promise, since a clause says nothing of what is printed.
fn replay(rt: &impl Print, all: &[u8]) -> io::Result<()> {
    let mut s = begun();
    for _ in 0..1000000u32 {
        if !s.going {
            return Ok(());
        }
        s = item(rt, all, s)?;
    }
    Ok(())
}

fn main(rt: HostRuntime) -> io::Result<()> {
    let mut all = Vec::new(rt.alloc());
    rt.reader().take(589824).read_to_end(&mut all)?;
    replay(&rt, all.as_slice())
}
