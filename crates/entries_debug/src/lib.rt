// What a debug file's row says, and the line of an offset in a map.
#![tactic(auto)]

ghost use Rattle.std.specs.Prelude.{◌≡◌, ◌/◌, ◌<◌, length};
ghost use Rattle.format.specs.Lookup as format;
ghost use Rattle.refusal.specs.Number.{answer_as};
ghost use Rattle.line.specs.Answers.{line_of};
ghost use Rattle.ranges.specs.Answers.{range_of};
ghost use Rattle.entries_debug.specs.Answers.{debug_file_of};
ghost use Rattle.entries_debug.specs.Lines.{line_in};

use line::{Line, Pos, line_at};
use ranges::{Range, Text, text_in};
use refusal::Refusal;

// A debug file: its start, its name and its lines.
#[derive(Clone, Copy)]
pub struct DebugFile {
    pub start: Pos,
    pub name: Text,
    pub lines: Range,
}

// The debug file that row i of the debug file table says.
#[tactic(auto, unfolding(format::specs::Lookup::debug_file_of, format::specs::Lookup::rows_in))]
pub fn debug_file_at(
    f: &[u8],
    filenames: &[u32],
    files: &[u32],
    lines: &[u32],
    i: usize,
) -> Result<DebugFile, Refusal>
    requires { i < length files.now / 4 }
    ensures { answer_as debug_file_of result ≡ format.debug_file_of f.now filenames.now lines.now (format.file_row_at files.now i) }
{
    let start = i * 4;
    let name = text_in(f, filenames, files[start + 1] as usize)?;
    let rows = Range {
        first: files[start + 2],
        number: files[start + 3],
    };
    if !rows.is_in(lines.len() / 2) {
        return Err(Refusal::Missing);
    }
    Ok(DebugFile {
        start: Pos(files[start]),
        name,
        lines: rows,
    })
}

// The line of an offset in the map that rows of the line table are.
#[tactic(auto, using(crate::proofs::Laws::line_none, crate::proofs::Laws::line_past, crate::proofs::Laws::line_part))]
pub fn line_in(lines: &[u32], rows: Range, offset: Pos) -> Result<Option<Line>, Refusal>
    ensures { answer_as line_of result ≡ line_in lines.now (range_of rows) offset.0 }
{
    if rows.number == 0 {
        return Ok(None);
    }
    let from = rows.first as usize;
    let to = from + (rows.number as usize);
    let map = lines.get(from * 2..to * 2).ok_or(Refusal::Missing)?;
    Ok(line_at(map, offset))
}
