// The run of an examined pattern along choice bytes, with its frames in a lent table.
#![tactic(auto)]

ghost use Rattle.std.specs.Prelude.{◌≡◌, ◌+◌, ◌*◌, ◌<◌, ◌≤◌, length, set, replicate};
ghost use Rattle.format.specs.Line.{line_at};
ghost use Rattle.format.specs.Lookup as table;
ghost use Rattle.format.specs.Run as format;
ghost use Rattle.format.specs.Rows.{record_width};
ghost use Rattle.format.specs.Tree.{child_of};
ghost use Rattle.refusal.specs.Number.{answer_as};
ghost use Rattle.line.specs.Answers.{line_of};
ghost use Rattle.exam.specs.View.{entries, rlens_at};
ghost use Rattle.exam.specs.Loaded.{pattern_of, Examined};
ghost use Rattle.moves.specs.Answers.{choice_of};
ghost use Rattle.run.specs.Answers.{followed_of};
ghost use Rattle.run.specs.Frames.{frames_of, Held};
ghost use Rattle.run.specs.Follow.{out, follow_out, Walk};

use exam::{Pattern, word};
use format::RECORD_WIDTH;
use line::{Line, Pos, line_at};
use moves::{Choice, Moved, Read, child_at, choice_at, move_in};
use refusal::Refusal;
use rows::clear;

// Where a run stands: the top frame, its line if it has one, and the number of frames.
#[derive(Clone, Copy, Debug, PartialEq, Eq)]
pub struct Standing {
    pub record: u32,
    pub offset: u32,
    pub line: Option<Line>,
    pub frames: u32,
}

// Row `i` of the frame table becomes the frame of record `r` at `o`. The table is lent from C, so how many frames stand is a number beside it.
fn put_frame(frames: &mut [u32], i: usize, r: usize, o: usize)
    requires { (i * 2 + 2 ≤ length frames.old) × (r < 4294967296) × (o < 4294967296) }
    ensures { frames.new ≡ set (set frames.old (i * 2) r) (i * 2 + 1) o }
{
    frames[i * 2] = r as u32;
    frames[i * 2 + 1] = o as u32;
}

// The record that is entered: child `k` of record `r`, which has more than that.
fn child_record(records: &[u32], n: usize, r: usize, k: usize) -> usize
    requires few { (n ≤ 1024) × (n * record_width ≤ length records.now) × (r < n) }
    requires k_bound { k < table.record_word records.now r 3 }
    ensures { result ≡ child_of (rlens_at records.now n) r k }
{
    child_at(records, n, r, k)
}

// One choice over the `d` frames of the table. Answers how many stand then. That examination passed is a clause, and no ghost field of the
// pattern: `Examined` holds the list that it passed by, and a ghost field states a fact without data.
#[tactic(auto, using(crate::proofs::Steps::sizes))]
fn one_step(pattern: &Pattern, choice: Choice, frames: &mut [u32], d: usize) -> usize
    requires ready { Examined pattern.now }
    requires n_in_bounds { 2 * pattern.now.n ≤ length frames.old }
    requires held { Held (pattern_of pattern.now) frames.old d (frames_of frames.old d) }
    ensures { Held (pattern_of pattern.now) frames.new result
        (format.one_step (pattern_of pattern.now) (frames_of frames.old d) (choice_of choice)) }
{
    if d == 0 {
        return 0;
    }
    let top = (d - 1) * 2;
    let r = word(frames, top);
    let o = word(frames, top + 1);
    match move_in(
        pattern.file,
        pattern.records,
        pattern.handlers,
        r,
        o,
        choice,
    ) {
        Moved::Gone => {
            put_frame(frames, d - 1, 0, 0);
            d - 1
        }
        Moved::To(offset) => {
            put_frame(frames, d - 1, r, offset);
            d
        }
        Moved::Into {
            child,
            offset: next,
        } => {
            let entered = child_record(pattern.records, pattern.n, r, child);
            put_frame(frames, d - 1, r, next);
            put_frame(frames, d, entered, 0);
            d + 1
        }
    }
}

// The choices in turn; answers how many frames stand after them. The table is zero throughout, which is the first frame: record 0 at offset 0.
fn walk(pattern: &Pattern, choices: &[u8], frames: &mut [u32]) -> Result<usize, Refusal>
    requires ready { Examined pattern.now }
    requires n_in_bounds { 2 * pattern.now.n ≤ length frames.old }
    requires frames_value { frames.old ≡ replicate (length frames.old) 0 }
    ensures { Walk (pattern_of pattern.now) choices.now frames.new result }
{
    let mut d: usize = 1;
    // `i` goes over whole choices, which no range does.
    let mut i = 0;
    while i < choices.len() {
        let Read { choice, next } = choice_at(choices, i)?;
        d = one_step(pattern, choice, frames, d);
        i = next;
    }
    Ok(d)
}

// The line of offset `o` of record `r`.
fn line_of(records: &[u32], lines: &[u32], r: usize, o: u32) -> Option<Line>
    requires record_width_in_bounds { r * record_width + record_width ≤ length records.now }
    requires r_in_bounds { (table.record_word records.now r 17 + table.record_word records.now r 18) * 2 ≤ length lines.now }
    ensures { line_of result ≡ line_at (entries lines.now (table.record_word records.now r 17) (table.record_word records.now r 18)) o }
{
    let row = r * RECORD_WIDTH;
    let first = word(records, row + 17);
    let start = first * 2;
    let end = (first + word(records, row + 18)) * 2;
    line_at(&lines[start..end], Pos(o))
}

// Where the run stands with the `d` frames of the table, if it is not finished.
#[tactic(auto, using(crate::proofs::Steps::sizes))]
fn standing_of(pattern: &Pattern, frames: &[u32], d: usize) -> Option<Standing>
    requires ready { Examined pattern.now }
    requires n_in_bounds { 2 * pattern.now.n ≤ length frames.now }
    requires held { Held (pattern_of pattern.now) frames.now d (frames_of frames.now d) }
    ensures { followed_of result ≡ (format.standing (pattern_of pattern.now) (frames_of frames.now d)) }
{
    if d == 0 {
        return None;
    }
    let top = (d - 1) * 2;
    let r = frames[top];
    let o = frames[top + 1];
    let line = line_of(pattern.records, pattern.lines, word(frames, top), o);
    let count = d as u32;
    Some(Standing {
        record: r,
        offset: o,
        line,
        frames: count,
    })
}

// Follow over the tables of a pattern that examination passed: where the run stands, if it is not finished, and the whole frame table, zero
// throughout after 21.
pub fn follow_tables(
    pattern: &Pattern,
    choices: &[u8],
    frames: &mut [u32],
) -> Result<Option<Standing>, Refusal>
    requires ready { Examined pattern.now }
    requires n_in_bounds { 2 * pattern.now.n ≤ length frames.old }
    ensures { out (answer_as followed_of result) frames.new
        ≡ follow_out (pattern_of pattern.now) choices.now (length frames.old) }
{
    clear(frames);
    match walk(pattern, choices, frames) {
        Err(e) => {
            clear(frames);
            Err(e)
        }
        Ok(d) => Ok(standing_of(pattern, frames, d)),
    }
}
