// Lookups over a file and lent tables of any contents: instructions, handler, pool, symbol, name, debug file, line.
#![tactic(auto)]

ghost use Rattle.std.specs.Prelude.{◌≡◌};
ghost use Rattle.format.specs.Lookup as format;
ghost use Rattle.refusal.specs.Number.{answer_as};
ghost use Rattle.line.specs.Answers.{line_of};
ghost use Rattle.constant.specs.Answers.{value_of};
ghost use Rattle.ranges.specs.Answers.{text_of};
ghost use Rattle.entries.specs.Answers.{handler_of, name_of};
ghost use Rattle.entries_debug.specs.Answers.{debug_file_of};

use constant::PoolValue;
pub use entries::Handler;
use entries::{constant_at, handler_at, name_of};
pub use entries_debug::DebugFile;
use entries_debug::{debug_file_at, line_in};
use line::{Line, Pos};
pub use ranges::Text;
use ranges::{Range, bytes_in, record_row, record_words, text_in};
use refusal::Refusal;

// Which word of a record's row is the first of the two that say length and place of its instructions, or first and number of a kind's rows.
const ILEN: usize = 5;

const HANDLERS: usize = 7;

const POOL: usize = 9;

const SYMBOLS: usize = 11;

const NAMES: usize = 13;

const FILES: usize = 15;

const LINES: usize = 17;

// A record's instructions.
#[tactic(auto, unfolding(format::specs::Lookup::instructions, format::specs::Lookup::record_in))]
pub fn instructions(f: &[u8], records: &[u32], rec: u32) -> Result<Text, Refusal>
    ensures { answer_as text_of result ≡ format.instructions f.now records.now rec }
{
    let Range {
        first: ilen,
        number: place,
    } = record_words(records, rec, ILEN)?;
    bytes_in(f, place, ilen)
}

// A record's handler by its index.
#[tactic(auto, unfolding(format::specs::Lookup::handler, format::specs::Lookup::record_in, format::specs::Lookup::row_in))]
pub fn handler(records: &[u32], handlers: &[u32], rec: u32, index: u32) -> Result<Handler, Refusal>
    ensures { answer_as handler_of result ≡ format.handler records.now handlers.now rec index }
{
    let i = record_row(records, rec, HANDLERS, handlers.len() / 4, index)?;
    Ok(handler_at(handlers, i))
}

// A record's constant by its index.
#[tactic(auto, unfolding(format::specs::Lookup::pool, format::specs::Lookup::record_in, format::specs::Lookup::row_in))]
pub fn pool(
    f: &[u8],
    records: &[u32],
    pool: &[u32],
    rec: u32,
    index: u32,
) -> Result<PoolValue, Refusal>
    ensures { answer_as value_of result ≡ format.pool f.now records.now pool.now rec index }
{
    let i = record_row(records, rec, POOL, pool.len() / 3, index)?;
    constant_at(f, pool, i)
}

// A record's symbol by its index.
#[tactic(auto, unfolding(format::specs::Lookup::symbol, format::specs::Lookup::record_in, format::specs::Lookup::row_in))]
pub fn symbol(
    f: &[u8],
    records: &[u32],
    symbols: &[u32],
    rec: u32,
    index: u32,
) -> Result<Text, Refusal>
    ensures { answer_as text_of result ≡ format.symbol f.now records.now symbols.now rec index }
{
    let i = record_row(records, rec, SYMBOLS, symbols.len() / 2, index)?;
    text_in(f, symbols, i)
}

// The name of a record's local variable by its index.
#[tactic(auto, unfolding(format::specs::Lookup::name, format::specs::Lookup::record_in, format::specs::Lookup::row_in))]
pub fn name(
    f: &[u8],
    records: &[u32],
    strings: &[u32],
    names: &[u32],
    rec: u32,
    index: u32,
) -> Result<Option<Text>, Refusal>
    ensures { answer_as name_of result ≡ format.name f.now records.now strings.now names.now rec index }
{
    let i = record_row(records, rec, NAMES, names.len(), index)?;
    name_of(f, strings, names[i])
}

// A record's debug file by its index.
#[tactic(auto, unfolding(format::specs::Lookup::debug_file, format::specs::Lookup::record_in, format::specs::Lookup::row_in))]
pub fn debug_file(
    f: &[u8],
    records: &[u32],
    filenames: &[u32],
    files: &[u32],
    lines: &[u32],
    rec: u32,
    index: u32,
) -> Result<DebugFile, Refusal>
    ensures { answer_as debug_file_of result ≡ format.debug_file f.now records.now filenames.now files.now lines.now rec index }
{
    let i = record_row(records, rec, FILES, files.len() / 4, index)?;
    debug_file_at(f, filenames, files, lines, i)
}

// The line of an offset in a record.
#[tactic(auto, unfolding(format::specs::Lookup::line, format::specs::Lookup::record_in))]
pub fn line(records: &[u32], lines: &[u32], rec: u32, offset: Pos) -> Result<Option<Line>, Refusal>
    ensures { answer_as line_of result ≡ format.line records.now lines.now rec offset.0 }
{
    line_in(lines, record_words(records, rec, LINES)?, offset)
}
