// The lines that a map drops, and the line of a position.
#![tactic(auto)]

ghost use Rattle.std.specs.Prelude.{◌≡◌};
ghost use Rattle.format.specs.Packed.{keeps};
ghost use Rattle.format.specs.Line.{line_at, map_of};
ghost use Rattle.line.specs.Answers.{line_of};

// A position: an instruction's offset in its record.
#[derive(Clone, Copy, PartialEq, PartialOrd)]
pub struct Pos(pub u32);

// A line of a source file.
#[derive(Clone, Copy, Debug, PartialEq, Eq)]
pub struct Line(pub u32);

// An entry is kept unless its line is that of the file's previous entry, if it has one.
pub fn keeps_line(last: Option<Line>, line: Line) -> bool
    ensures { result ≡ keeps (line_of last) line.0 }
{
    last != Some(line)
}

// The line of a position in a map, if it has one, as the halving finds it. A row is 2 words: position, line.
pub fn line_at(map: &[u32], pos: Pos) -> Option<Line>
    ensures { line_of result ≡ line_at (map_of map.now) pos.0 }
{
    let p = pos.0;
    let mut lo = 0;
    let mut hi = map.len() / 2;
    // By hand: `line_at` of format/specs/Line says what this halving finds where positions fall too, and a library's search promises nothing of that.
    while lo < hi {
        let mid = (lo + hi) / 2;
        if map[mid * 2] <= p {
            lo = mid + 1;
        } else {
            hi = mid;
        }
    }
    if lo == 0 {
        return None;
    }
    let line = map[(lo - 1) * 2 + 1];
    Some(Line(line))
}
