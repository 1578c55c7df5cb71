// What each lookup's answer is at the C boundary: a struct of numbers. A refusal is its number, 0 for none, and after one all else is 0.
#![tactic(auto)]

ghost use Rattle.std.specs.Prelude.{◌≡◌};
ghost use Rattle.refusal.specs.Number.{answer_as};
ghost use Rattle.line.specs.Answers.{line_of};
ghost use Rattle.constant.specs.Answers.{value_of};
ghost use Rattle.ranges.specs.Answers.{text_of};
ghost use Rattle.entries.specs.Answers.{handler_of, name_of};
ghost use Rattle.entries_debug.specs.Answers.{debug_file_of};
ghost use Rattle.boundary_lookups.specs.Structs.{text_is, handler_is, constant_is, name_is, debug_file_is, looked_line_is};

use constant::PoolValue;
use line::Line;
use lookup::{DebugFile, Handler, Text};
use refusal::Refusal;

// The place and length of bytes in the file.
#[repr(C)]
#[derive(Default, Drop)]
pub struct BlotheathText {
    pub refusal: u32,
    pub place: u32,
    pub length: u32,
}

// A handler's four fields.
#[repr(C)]
#[derive(Default, Drop)]
pub struct BlotheathHandler {
    pub refusal: u32,
    pub kind: u32,
    pub begin: u32,
    pub end: u32,
    pub target: u32,
}

// A constant: kind 0 a text's place and length, 1 a whole number, 2 a float, 3 a big integer's place and length; what its kind lacks is 0.
#[repr(C)]
#[derive(Default, Drop)]
pub struct BlotheathConstant {
    pub refusal: u32,
    pub kind: u32,
    pub place: u32,
    pub length: u32,
    pub int: i64,
    pub float: f64,
}

// A local variable's name: 1 where there is one, else 0; its place and length.
#[repr(C)]
#[derive(Default, Drop)]
pub struct BlotheathName {
    pub refusal: u32,
    pub named: u32,
    pub place: u32,
    pub length: u32,
}

// A debug file: its start, its name's place and length, first row and number of its lines.
#[repr(C)]
#[derive(Default, Drop)]
pub struct BlotheathDebugFile {
    pub refusal: u32,
    pub start: u32,
    pub place: u32,
    pub length: u32,
    pub first: u32,
    pub number: u32,
}

// The line of an offset of a record: 1 where there is one, else 0; and its number.
#[repr(C)]
#[derive(Default, Drop)]
pub struct BlotheathLookedLine {
    pub refusal: u32,
    pub found: u32,
    pub line: u32,
}

pub fn text(a: Result<Text, Refusal>) -> BlotheathText
    ensures { result ≡ text_is (answer_as text_of a) }
{
    match a {
        Ok(Text { place, length }) => BlotheathText {
            place,
            length,
            ..BlotheathText::default()
        },
        Err(e) => BlotheathText {
            refusal: u32::from(e),
            ..BlotheathText::default()
        },
    }
}

pub fn handler(a: Result<Handler, Refusal>) -> BlotheathHandler
    ensures { result ≡ handler_is (answer_as handler_of a) }
{
    match a {
        Ok(row) => BlotheathHandler {
            kind: row.kind,
            begin: row.begin,
            end: row.end,
            target: row.target,
            ..BlotheathHandler::default()
        },
        Err(e) => BlotheathHandler {
            refusal: u32::from(e),
            ..BlotheathHandler::default()
        },
    }
}

pub fn constant(a: Result<PoolValue, Refusal>) -> BlotheathConstant
    ensures { result ≡ constant_is (answer_as value_of a) }
{
    match a {
        Ok(PoolValue::Text(Text { place, length })) => BlotheathConstant {
            place,
            length,
            ..BlotheathConstant::default()
        },
        Ok(PoolValue::Int(n)) => BlotheathConstant {
            kind: 1,
            int: n,
            ..BlotheathConstant::default()
        },
        Ok(PoolValue::Float(x)) => BlotheathConstant {
            kind: 2,
            float: x,
            ..BlotheathConstant::default()
        },
        Ok(PoolValue::Big(Text { place, length })) => BlotheathConstant {
            kind: 3,
            place,
            length,
            ..BlotheathConstant::default()
        },
        Err(e) => BlotheathConstant {
            refusal: u32::from(e),
            ..BlotheathConstant::default()
        },
    }
}

pub fn name(a: Result<Option<Text>, Refusal>) -> BlotheathName
    ensures { result ≡ name_is (answer_as name_of a) }
{
    match a {
        Ok(Some(Text { place, length })) => BlotheathName {
            named: 1,
            place,
            length,
            ..BlotheathName::default()
        },
        Ok(None) => BlotheathName::default(),
        Err(e) => BlotheathName {
            refusal: u32::from(e),
            ..BlotheathName::default()
        },
    }
}

pub fn debug_file(a: Result<DebugFile, Refusal>) -> BlotheathDebugFile
    ensures { result ≡ debug_file_is (answer_as debug_file_of a) }
{
    match a {
        Ok(file) => BlotheathDebugFile {
            start: file.start.0,
            place: file.name.place,
            length: file.name.length,
            first: file.lines.first,
            number: file.lines.number,
            ..BlotheathDebugFile::default()
        },
        Err(e) => BlotheathDebugFile {
            refusal: u32::from(e),
            ..BlotheathDebugFile::default()
        },
    }
}

pub fn looked_line(a: Result<Option<Line>, Refusal>) -> BlotheathLookedLine
    ensures { result ≡ looked_line_is (answer_as line_of a) }
{
    match a {
        Ok(Some(Line(line))) => BlotheathLookedLine {
            found: 1,
            line,
            ..BlotheathLookedLine::default()
        },
        Ok(None) => BlotheathLookedLine::default(),
        Err(e) => BlotheathLookedLine {
            refusal: u32::from(e),
            ..BlotheathLookedLine::default()
        },
    }
}
