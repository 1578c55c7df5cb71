// The line map of one debug file, put into a lent table of words.
#![tactic(auto)]

ghost use Rattle.std.specs.Prelude.{◌≡◌, ◌+◌, ◌<◌};
ghost use Rattle.std.proofs.Math.Option.{none};
ghost use Rattle.format.specs.Rows.{line_row};
ghost use Rattle.format.specs.Debug.{map_entry, after, goes_on};
ghost use Rattle.line.specs.Answers.{line_of};
ghost use Rattle.line_packed.specs.Answers.{entry_of};
ghost use Rattle.refusal.specs.Number.{answer_of, answer_as};
ghost use Rattle.rows.specs.Table.{out};
ghost use Rattle.linemap.specs.Answers.{before_of};
ghost use Rattle.linemap.specs.Lines.{line_run, first_before, push_of, entry_put, lines_of};

use binfmt::{rest, u16_in, u32_in};
use line::{Line, Pos, keeps_line};
use line_packed::{Entry, packed_entry};
use refusal::Refusal;
use rows::{Rows, put_row};

// A map's kinds. They stay numbers: `LineMap::read_lines` promises what every number answers, those above 2 too.
const LINE_ARY: u32 = 0;

const FLAT_MAP: u32 = 1;

const PACKED_MAP: u32 = 2;

// The position that the next entry of a map goes by: that of the entry before it; of kind 0 the one that comes next, which may be one above the
// highest.
#[derive(Clone, Copy)]
struct NextPos(u64);

// What the next entry of a map goes by: a position, and the line of the entry before it.
#[derive(Clone, Copy)]
struct Before {
    pos: NextPos,
    line: Line,
}

// What the next entry goes by, the line of the entry before it, the next place and the rows used.
#[derive(Clone, Copy)]
struct OneLine {
    before: Before,
    last: Option<Line>,
    rows: Rows,
}

// A file's line map: the bytes that it is read from, its kind, the file's start, the place where the map starts, and how many entries it has, or bytes
// of kind 2.
#[derive(Clone, Copy)]
pub struct LineMap<'a> {
    pub bytes: &'a [u8],
    pub kind: u32,
    pub start: Pos,
    pub from: usize,
    pub count: u32,
}

// An entry of kind 0: a line, at the position that comes next.
#[tactic(auto, unfolding(format::specs::Debug::map_entry))]
fn line_ary_entry(s: &[u8], before: Before, at: usize) -> Result<Entry, Refusal>
    ensures { answer_as entry_of result ≡ map_entry s.now 0 (before_of before) at }
{
    if rest(s, at) < 2 {
        return Err(Refusal::PastEnd);
    }
    let Ok(pos) = u32::try_from(before.pos.0) else {
        return Err(Refusal::LinePosition);
    };
    Ok(Entry {
        pos: Pos(pos),
        line: Line(u16_in(s, at) as u32),
        next: at + 2,
    })
}

// An entry of kind 1: a position, then a line.
#[tactic(auto, unfolding(format::specs::Debug::map_entry))]
fn flat_map_entry(s: &[u8], before: Before, at: usize) -> Result<Entry, Refusal>
    ensures { answer_as entry_of result ≡ map_entry s.now 1 (before_of before) at }
{
    if rest(s, at) < 6 {
        return Err(Refusal::PastEnd);
    }
    Ok(Entry {
        pos: Pos(u32_in(s, at)),
        line: Line(u16_in(s, at + 4) as u32),
        next: at + 6,
    })
}

// An entry of kind 2: packed deltas of position and line. A position past the highest stands for 0, as the sums wrap.
#[tactic(auto, using(crate::proofs::Laws::packed_wrap), unfolding(format::specs::Debug::map_entry))]
fn packed_map_entry(s: &[u8], before: Before, at: usize) -> Result<Entry, Refusal>
    ensures { answer_as entry_of result ≡ map_entry s.now 2 (before_of before) at }
{
    packed_entry(s, at, Pos((before.pos.0 % 4294967296) as u32), before.line)
}

// What the entry after this one goes by.
fn after_entry(kind: u32, pos: Pos, line: Line) -> Before
    ensures { before_of result ≡ after kind (line_row pos.0 line.0) }
{
    let p = u64::from(pos.0);
    let next = if kind == LINE_ARY { p + 1 } else { p };
    Before {
        pos: NextPos(next),
        line,
    }
}

// Puts an entry's row, unless its line is that of the file's entry before, and goes on behind the entry.
#[tactic(auto, unfolding(crate::specs::Lines::push_of))]
fn push_line(
    lines: &mut [u32],
    used: u32,
    last: Option<Line>,
    entry: &Entry,
) -> Result<Rows, Refusal>
    ensures { out (answer_of result) lines.new ≡ push_of (line_of last) (entry_of entry.now) used lines.old }
{
    if keeps_line(last, entry.line) {
        put_row(lines, used, &[entry.pos.0, entry.line.0], entry.next)
    } else {
        Ok(Rows {
            at: entry.next,
            used,
        })
    }
}

impl<'a> LineMap<'a> {
    // What the first entry goes by: of kind 0 the file's start, else 0.
    fn first_before(self) -> Before
        ensures { before_of result ≡ first_before self.entry.kind self.entry.start.0 }
    {
        let first = if self.kind == LINE_ARY {
            u64::from(self.start.0)
        } else {
            0
        };
        Before {
            pos: NextPos(first),
            line: Line(0),
        }
    }

    // Whether the map goes on at a place: kind 2 goes by the bytes.
    fn goes_on(self, at: usize) -> bool
        requires { 0 < self.count }
        ensures { result ≡ goes_on self.entry.kind (self.entry.from + self.entry.count) at }
    {
        self.kind != PACKED_MAP || at.saturating_sub(self.from) < (self.count as usize)
    }

    // The entry at a place.
    #[tactic(auto, unfolding(format::specs::Debug::map_entry))]
    fn read_entry(self, before: Before, at: usize) -> Result<Entry, Refusal>
        ensures { answer_as entry_of result ≡ map_entry self.entry.bytes.now self.entry.kind (before_of before) at }
    {
        match self.kind {
            LINE_ARY => line_ary_entry(self.bytes, before, at),
            FLAT_MAP => flat_map_entry(self.bytes, before, at),
            _ => packed_map_entry(self.bytes, before, at),
        }
    }

    // One entry, put.
    #[tactic(auto, unfolding(crate::specs::Lines::entry_put))]
    fn read_line(self, one: OneLine, lines: &mut [u32]) -> Result<OneLine, Refusal>
        ensures { line_run (answer_of result) lines.new
            ≡ entry_put self.entry.bytes.now self.entry.kind (before_of one.before) (line_of one.last) one.rows.at one.rows.used lines.old }
    {
        let entry = self.read_entry(one.before, one.rows.at)?;
        let rows = push_line(lines, one.rows.used, one.last, &entry)?;
        Ok(OneLine {
            before: after_entry(self.kind, entry.pos, entry.line),
            last: Some(entry.line),
            rows,
        })
    }

    // The map's entries, put behind the rows used.
    pub fn read_lines(self, lines: &mut [u32], used: u32) -> Result<Rows, Refusal>
        ensures { out (answer_of result) lines.new
            ≡ lines_of self.entry.bytes.now self.entry.kind (self.entry.from + self.entry.count) self.entry.count
            (first_before self.entry.kind self.entry.start.0) none self.entry.from used lines.old }
    {
        let mut one = OneLine {
            before: self.first_before(),
            last: None,
            rows: Rows {
                at: self.from,
                used,
            },
        };
        for _i in 0..self.count {
            if !self.goes_on(one.rows.at) {
                return Ok(one.rows);
            }
            one = self.read_line(one, lines)?;
        }
        Ok(one.rows)
    }
}
