// The DBG section: its file names, then the debug files of each record that the walk visits with their lines, put into lent tables of words.
#![tactic(auto)]

ghost use Rattle.std.specs.Prelude.{◌≡◌, ◌+◌, ◌*◌, ◌≤◌, ◌<◌, length};
ghost use Rattle.std.proofs.Math.Option.{none};
ghost use Rattle.format.specs.Debug.{above, file_head};
ghost use Rattle.format.specs.Rows.{record_width};
ghost use Rattle.refusal.specs.Number.{answer_of, answer_as};
ghost use Rattle.debug.specs.Answers.{start_of, file_head_of};
ghost use Rattle.debug.specs.Records.{tabs, filed, filed_of, spot_of, state_of, file_run, files_run, walk_run, body_of, file_of, files_of, put_ranges, step_of, reads_nothing, walk_of};
ghost use Rattle.debug.specs.Section.{tables, filled, walked, walked_of, content_of, debug_of};

use binfmt::{rest, u8_in, u16_in, u32_in};
use format::RECORD_WIDTH;
use headers::section_size;
use line::Pos;
use linemap::LineMap;
use refusal::Refusal;
use rows::{Part, Row, first_row, put_row, row_count};

// What a debug file begins with, and the place behind it.
#[derive(Clone, Copy)]
struct FileHead {
    start: Pos,
    name: u32,
    count: u32,
    kind: u32,
    next: usize,
}

// The rows used of the table of debug files and of that of lines.
#[derive(Clone, Copy)]
struct FileRows {
    files: u32,
    lines: u32,
}

// The next place and the rows used.
#[derive(Clone, Copy)]
struct Reached {
    at: usize,
    used: FileRows,
}

// The start of a record's debug file before, if it has one, and how far reading has come.
#[derive(Clone, Copy)]
struct OneFile {
    last: Option<Pos>,
    reached: Reached,
}

// How far reading has come, and the next record.
#[derive(Clone, Copy)]
struct Walk {
    reached: Reached,
    rec: usize,
}

// The rows used of the three tables.
#[derive(Clone, Copy, Default)]
pub struct Used {
    pub file_names: u32,
    pub files: u32,
    pub lines: u32,
}

// The section's size, and the rows used.
#[derive(Clone, Copy)]
pub struct Section {
    pub size: u32,
    pub used: Used,
}

// What the walk reads by: the section, the number of its file names, and that of the records.
// The lent tables stay parameters beside it: held in a struct, each would need a clause in every contract that its field keeps its ghost name.
#[derive(Clone, Copy)]
struct Entries<'a> {
    part: Part<'a>,
    names: u32,
    count: usize,
}

// Whether a start is above the one of the file before.
fn rises(last: Option<Pos>, start: Pos) -> bool
    ensures { result ≡ above (start_of last) start.0 }
{
    last.is_none_or(|before| before < start)
}

// Sets the first row and the number of the debug files and of the lines in the record row from a word on.
fn put_ranges(records: &mut [u32], row: usize, before: FileRows, after: FileRows)
    requires { row + 18 < length records.old }
    ensures { records.new ≡ put_ranges records.old row before after }
{
    let files = after.files.saturating_sub(before.files);
    let lines = after.lines.saturating_sub(before.lines);
    records[row + 15] = first_row(before.files, files);
    records[row + 16] = files;
    records[row + 17] = first_row(before.lines, lines);
    records[row + 18] = lines;
}

impl<'a> Entries<'a> {
    // A debug file's head: start 4, name index 2, count 4, kind 1.
    #[tactic(auto, unfolding(format::specs::Debug::file_head))]
    fn read_head(&self, last: Option<Pos>, at: usize) -> Result<FileHead, Refusal>
        ensures { answer_as file_head_of result ≡ file_head self.now.part.bytes.now self.now.names (start_of last) at }
    {
        let s = self.part.bytes;
        if rest(s, at) < 4 {
            return Err(Refusal::PastEnd);
        }
        let start = Pos(u32_in(s, at));
        if !rises(last, start) {
            return Err(Refusal::DebugFile);
        }
        if rest(s, at + 4) < 2 {
            return Err(Refusal::PastEnd);
        }
        let name = u16_in(s, at + 4) as u32;
        if self.names <= name {
            return Err(Refusal::DebugFile);
        }
        if rest(s, at + 6) < 5 {
            return Err(Refusal::PastEnd);
        }
        let kind = u8_in(s, at + 10);
        if 2 < kind {
            return Err(Refusal::DebugFile);
        }
        Ok(FileHead {
            start,
            name,
            count: u32_in(s, at + 6),
            kind,
            next: at + 11,
        })
    }

    // The lines of a debug file, then its row.
    #[tactic(auto, unfolding(crate::specs::Records::body_of))]
    fn read_body(
        &self,
        head: FileHead,
        used: FileRows,
        files: &mut [u32],
        lines: &mut [u32],
    ) -> Result<OneFile, Refusal>
        ensures { file_run (answer_of result) files.new lines.new ≡ body_of self.now.part.bytes.now (file_head_of head) used (tabs files.old lines.old) }
    {
        let map = LineMap {
            bytes: self.part.bytes,
            kind: head.kind,
            start: head.start,
            from: head.next,
            count: head.count,
        };
        let mapped = map.read_lines(lines, used.lines)?;
        let more = mapped.used.saturating_sub(used.lines);
        let row = [head.start.0, head.name, first_row(used.lines, more), more];
        let put = put_row(files, used.files, &row, mapped.at)?;
        Ok(OneFile {
            last: Some(head.start),
            reached: Reached {
                at: put.at,
                used: FileRows {
                    files: put.used,
                    lines: mapped.used,
                },
            },
        })
    }

    // A debug file: its row is needed once its head is read, before its lines.
    #[tactic(auto, unfolding(crate::specs::Records::file_of))]
    fn read_file(
        &self,
        before: OneFile,
        files: &mut [u32],
        lines: &mut [u32],
    ) -> Result<OneFile, Refusal>
        ensures { file_run (answer_of result) files.new lines.new
            ≡ file_of self.now.part.bytes.now self.now.names (filed_of before files.old lines.old) }
    {
        let used = before.reached.used;
        let head = self.read_head(before.last, before.reached.at)?;
        if row_count(files.len(), 4) <= used.files {
            return Err(Refusal::NoRow);
        }
        self.read_body(head, used, files, lines)
    }

    // So many debug files, each starting above the one before.
    fn read_files(
        &self,
        n: u32,
        from: Reached,
        files: &mut [u32],
        lines: &mut [u32],
    ) -> Result<Reached, Refusal>
        ensures { files_run (answer_of result) files.new lines.new
            ≡ files_of self.now.part.bytes.now self.now.names n (filed none (spot_of from files.old lines.old)) }
    {
        let mut file = OneFile {
            last: None,
            reached: from,
        };
        for _i in 0..n {
            file = self.read_file(file, files, lines)?;
        }
        Ok(file.reached)
    }

    // The debug record of a record: its size and its files; the size is that of the bytes read. It stays a call, so that a level of the walk holds the
    // walk alone.
    #[inline(never)]
    #[tactic(auto, unfolding(crate::specs::Records::step_of))]
    fn read_record(
        &self,
        walk: Walk,
        records: &mut [u32],
        files: &mut [u32],
        lines: &mut [u32],
    ) -> Result<Walk, Refusal>
        requires { walk.rec * record_width + 18 < length records.old }
        ensures { walk_run (answer_of result) records.new files.new lines.new
            ≡ step_of self.now.part.bytes.now self.now.names (state_of walk records.old files.old lines.old) }
    {
        let s = self.part.bytes;
        let Reached { at, used } = walk.reached;
        if rest(s, at) < 6 {
            return Err(Refusal::PastEnd);
        }
        let size = u32_in(s, at) as usize;
        let n = u16_in(s, at + 4) as u32;
        let from = Reached { at: at + 6, used };
        let reached = self.read_files(n, from, files, lines)?;
        if reached.at.saturating_sub(at) != size {
            return Err(Refusal::DebugFile);
        }
        put_ranges(records, walk.rec * RECORD_WIDTH, used, reached.used);
        let rec = walk.rec + 1;
        Ok(Walk { reached, rec })
    }

    // Whether a visit reads nothing: past the last record, or where the section is used up.
    fn reads_nothing(&self, walk: Walk) -> bool
        ensures { result ≡ reads_nothing self.now.part.bytes.now walk.reached.at self.now.count walk.rec }
    {
        self.count <= walk.rec || self.part.bytes.len() <= walk.reached.at
    }

    // A visit of a record: its debug record, then its children in turn.
    // `lvar::read_lv_records` walks alike: one function for both would be no plainer, as it needs a trait of the steps, whose ghost members state both walks.
    fn read_debug_record(
        &self,
        walk: Walk,
        records: &mut [u32],
        files: &mut [u32],
        lines: &mut [u32],
    ) -> Result<Walk, Refusal>
        requires { self.now.count * record_width ≤ length records.old }
        ensures { walk_run (answer_of result) records.new files.new lines.new
            ≡ walk_of self.now.part.bytes.now self.now.names self.now.count 1 (state_of walk records.old files.old lines.old) }
    {
        if self.reads_nothing(walk) {
            return Ok(walk);
        }
        let rlen = records[walk.rec * RECORD_WIDTH + 3];
        let mut then = self.read_record(walk, records, files, lines)?;
        for _child in 0..rlen {
            if self.reads_nothing(then) {
                return Ok(then);
            }
            then = self.read_debug_record(then, records, files, lines)?;
        }
        Ok(then)
    }

    // The walk behind the file names, of which so many rows are used.
    #[tactic(auto, unfolding(crate::specs::Section::walked_of))]
    fn read_walk(
        &self,
        at: usize,
        texts: u32,
        records: &mut [u32],
        files: &mut [u32],
        lines: &mut [u32],
    ) -> Result<Section, Refusal>
        requires { self.now.count * record_width ≤ length records.old }
        ensures { walked (answer_of result) records.new files.new lines.new
            ≡ walked_of self.now.part.bytes.now self.now.names self.now.count texts at records.old (tabs files.old lines.old) }
    {
        let from = Walk {
            reached: Reached {
                at,
                used: FileRows { files: 0, lines: 0 },
            },
            rec: 0,
        };
        let used = self
            .read_debug_record(from, records, files, lines)?
            .reached
            .used;
        Ok(Section {
            size: self.part.bytes.len() as u32,
            used: Used {
                file_names: texts,
                files: used.files,
                lines: used.lines,
            },
        })
    }
}

// What is read inside the section: the file names, then the walk.
#[tactic(auto, unfolding(crate::specs::Section::content_of))]
fn read_content(
    part: Part,
    count: usize,
    records: &mut [u32],
    texts: &mut [u32],
    files: &mut [u32],
    lines: &mut [u32],
) -> Result<Section, Refusal>
    requires { count * record_width ≤ length records.old }
    ensures { filled (answer_of result) (tables records.new texts.new files.new lines.new)
        ≡ content_of part.entry.bytes.now part.entry.base count (tables records.old texts.old files.old lines.old) }
{
    if rest(part.bytes, 8) < 2 {
        return Err(Refusal::PastEnd);
    }
    let n = u16_in(part.bytes, 8);
    let named = part.read_rows(Row::Text, n as usize, 10, texts, 0)?;
    let entries = Entries {
        part,
        names: n as u32,
        count,
    };
    entries.read_walk(named.at, named.used, records, files, lines)
}

// The section: its size is tested first, and all is read inside it.
#[tactic(auto, unfolding(crate::specs::Section::debug_of))]
pub fn parse_debug_section(
    part: Part,
    count: usize,
    records: &mut [u32],
    file_names: &mut [u32],
    files: &mut [u32],
    lines: &mut [u32],
) -> Result<Section, Refusal>
    requires { count * record_width ≤ length records.old }
    ensures { filled (answer_of result) (tables records.new file_names.new files.new lines.new)
        ≡ debug_of part.entry.bytes.now part.entry.base count (tables records.old file_names.old files.old lines.old) }
{
    let size = section_size(part.bytes)? as usize;
    if part.bytes.len() < size {
        return Err(Refusal::PastEnd);
    }
    let inside = Part {
        bytes: &part.bytes[..size],
        base: part.base,
    };
    read_content(inside, count, records, file_names, files, lines)
}
