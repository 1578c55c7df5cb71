// The C boundary: total calls on numbers and slices, with answers that are structs of numbers.
#![tactic(auto)]

ghost use Rattle.std.specs.Prelude.{◌≡◌, length};
ghost use Rattle.format.specs.Insn.{fetch};
ghost use Rattle.format.specs.Line.{line_at, map_of};
ghost use Rattle.format.specs.Allowance.{allowance};
ghost use Rattle.format.specs.Load.{load};
ghost use Rattle.format.specs.Lookup as lookup;
ghost use Rattle.format.specs.Exam.{examine, examine_one};
ghost use Rattle.format.specs.Run.{follow};
ghost use Rattle.rite.specs.Answers.{words, sizes};
ghost use Rattle.boundary_steps.specs.Structs.{fetched_is, line_is};
ghost use Rattle.boundary_lookups.specs.Structs.{text_is, handler_is, constant_is, name_is, debug_file_is, looked_line_is};
ghost use Rattle.records.specs.Records.{rows_of};
ghost use Rattle.blotheath.specs.Exported.{exported, loaded_is, ran, ran_is};

use boundary::{BlotheathFollowed, BlotheathLoaded};
use boundary_lookups::{
    BlotheathConstant, BlotheathDebugFile, BlotheathHandler, BlotheathLookedLine, BlotheathName,
    BlotheathText,
};
use boundary_steps::{BlotheathFetched, BlotheathLine};
use line::Pos;
use records_row::Record;
use rite::Allowance;
use tables::Tables;

// The instruction at the start of these bytes.
#[unsafe(no_mangle)]
pub extern "C" fn blotheath_fetch(code: &[u8]) -> BlotheathFetched
    ensures { result ≡ fetched_is (fetch code.now) }
{
    boundary_steps::fetched(insn::fetch(code))
}

// The line of a position in a map of rows of two words: position, line.
#[unsafe(no_mangle)]
pub extern "C" fn blotheath_line_at(map: &[u32], pos: u32) -> BlotheathLine
    ensures { result ≡ line_is (line_at (map_of map.now) pos) }
{
    boundary_steps::line_found(line::line_at(map, Pos(pos)))
}

// The place and length of a record's instructions.
#[unsafe(no_mangle)]
pub extern "C" fn blotheath_instructions(file: &[u8], records: &[u32], rec: u32) -> BlotheathText
    ensures { result ≡ text_is (lookup.instructions file.now records.now rec) }
{
    boundary_lookups::text(lookup::instructions(file, records, rec))
}

// A handler of a record.
#[unsafe(no_mangle)]
pub extern "C" fn blotheath_handler(
    records: &[u32],
    handlers: &[u32],
    rec: u32,
    index: u32,
) -> BlotheathHandler
    ensures { result ≡ handler_is (lookup.handler records.now handlers.now rec index) }
{
    boundary_lookups::handler(lookup::handler(records, handlers, rec, index))
}

// A constant of a record.
#[unsafe(no_mangle)]
pub extern "C" fn blotheath_pool(
    file: &[u8],
    records: &[u32],
    pool: &[u32],
    rec: u32,
    index: u32,
) -> BlotheathConstant
    ensures { result ≡ constant_is (lookup.pool file.now records.now pool.now rec index) }
{
    boundary_lookups::constant(lookup::pool(file, records, pool, rec, index))
}

// A symbol of a record.
#[unsafe(no_mangle)]
pub extern "C" fn blotheath_symbol(
    file: &[u8],
    records: &[u32],
    symbols: &[u32],
    rec: u32,
    index: u32,
) -> BlotheathText
    ensures { result ≡ text_is (lookup.symbol file.now records.now symbols.now rec index) }
{
    boundary_lookups::text(lookup::symbol(file, records, symbols, rec, index))
}

// A local variable's name.
#[unsafe(no_mangle)]
pub extern "C" fn blotheath_name(
    file: &[u8],
    records: &[u32],
    strings: &[u32],
    names: &[u32],
    rec: u32,
    index: u32,
) -> BlotheathName
    ensures { result ≡ name_is (lookup.name file.now records.now strings.now names.now rec index) }
{
    boundary_lookups::name(lookup::name(file, records, strings, names, rec, index))
}

// A debug file of a record.
#[unsafe(no_mangle)]
pub extern "C" fn blotheath_debug_file(
    file: &[u8],
    records: &[u32],
    filenames: &[u32],
    files: &[u32],
    lines: &[u32],
    rec: u32,
    index: u32,
) -> BlotheathDebugFile
    ensures { result ≡ debug_file_is (lookup.debug_file file.now records.now filenames.now files.now lines.now rec index) }
{
    boundary_lookups::debug_file(lookup::debug_file(
        file, records, filenames, files, lines, rec, index,
    ))
}

// The line of an offset of a record.
#[unsafe(no_mangle)]
pub extern "C" fn blotheath_line(
    records: &[u32],
    lines: &[u32],
    rec: u32,
    offset: u32,
) -> BlotheathLookedLine
    ensures { result ≡ looked_line_is (lookup.line records.now lines.now rec offset) }
{
    boundary_lookups::looked_line(lookup::line(records, lines, rec, Pos(offset)))
}

// C lends nine tables and two numbers in each of the calls below, so that each builds its Tables and Allowance: a function that does would take the same eleven.

// Loads a file of at most so many bytes and records into nine lent tables.
#[unsafe(no_mangle)]
pub extern "C" fn blotheath_load(
    file: &[u8],
    max_bytes: u32,
    max_records: u32,
    records: &mut [u32],
    handlers: &mut [u32],
    pool: &mut [u32],
    symbols: &mut [u32],
    strings: &mut [u32],
    names: &mut [u32],
    filenames: &mut [u32],
    files: &mut [u32],
    lines: &mut [u32],
) -> BlotheathLoaded
    ensures { exported result (words records.new handlers.new pool.new symbols.new strings.new names.new
        filenames.new files.new lines.new)
        ≡ loaded_is (load file.now (sizes
        (words records.old handlers.old pool.old symbols.old strings.old names.old
        filenames.old files.old lines.old)) (allowance max_bytes max_records)) }
{
    let mut t = Tables {
        records,
        handlers,
        pool,
        symbols,
        strings,
        names,
        filenames,
        files,
        lines,
    };
    let a = Allowance {
        bytes: max_bytes,
        records: max_records,
    };
    boundary::loaded(rite::load(file, &mut t, a))
}

// Loads a file as `blotheath_load` does, and fills lent record rows from the words of the record table.
#[unsafe(no_mangle)]
pub extern "C" fn blotheath_load_records(
    file: &[u8],
    max_bytes: u32,
    max_records: u32,
    records: &mut [u32],
    handlers: &mut [u32],
    pool: &mut [u32],
    symbols: &mut [u32],
    strings: &mut [u32],
    names: &mut [u32],
    filenames: &mut [u32],
    files: &mut [u32],
    lines: &mut [u32],
    rows: &mut [Record],
) -> BlotheathLoaded
    ensures { (exported result (words records.new handlers.new pool.new symbols.new strings.new names.new
        filenames.new files.new lines.new)
        ≡ loaded_is (load file.now (sizes
        (words records.old handlers.old pool.old symbols.old strings.old names.old
        filenames.old files.old lines.old)) (allowance max_bytes max_records)))
        × (rows.new ≡ rows_of records.new (length rows.old)) }
{
    let loaded = blotheath_load(
        file,
        max_bytes,
        max_records,
        records,
        handlers,
        pool,
        symbols,
        strings,
        names,
        filenames,
        files,
        lines,
    );
    records::fill(rows, records);
    loaded
}

// Examines a file of at most so many bytes and records, and of permitted opcodes alone, over nine lent tables.
#[unsafe(no_mangle)]
pub extern "C" fn blotheath_examine(
    file: &[u8],
    max_bytes: u32,
    max_records: u32,
    permitted: &[u8],
    records: &mut [u32],
    handlers: &mut [u32],
    pool: &mut [u32],
    symbols: &mut [u32],
    strings: &mut [u32],
    names: &mut [u32],
    filenames: &mut [u32],
    files: &mut [u32],
    lines: &mut [u32],
) -> BlotheathLoaded
    ensures { exported result (words records.new handlers.new pool.new symbols.new strings.new names.new
        filenames.new files.new lines.new)
        ≡ loaded_is (examine file.now (sizes
        (words records.old handlers.old pool.old symbols.old strings.old names.old
        filenames.old files.old lines.old)) (allowance max_bytes max_records)
        permitted.now) }
{
    let mut t = Tables {
        records,
        handlers,
        pool,
        symbols,
        strings,
        names,
        filenames,
        files,
        lines,
    };
    let a = Allowance {
        bytes: max_bytes,
        records: max_records,
    };
    boundary::loaded(examine::examine(file, &mut t, a, permitted))
}

// Examines record `rec` of such a file by itself.
#[unsafe(no_mangle)]
pub extern "C" fn blotheath_examine_record(
    file: &[u8],
    max_bytes: u32,
    max_records: u32,
    permitted: &[u8],
    records: &mut [u32],
    handlers: &mut [u32],
    pool: &mut [u32],
    symbols: &mut [u32],
    strings: &mut [u32],
    names: &mut [u32],
    filenames: &mut [u32],
    files: &mut [u32],
    lines: &mut [u32],
    rec: u32,
) -> BlotheathLoaded
    ensures { exported result (words records.new handlers.new pool.new symbols.new strings.new names.new
        filenames.new files.new lines.new)
        ≡ loaded_is (examine_one file.now (sizes
        (words records.old handlers.old pool.old symbols.old strings.old names.old
        filenames.old files.old lines.old)) (allowance max_bytes max_records)
        permitted.now rec) }
{
    let mut t = Tables {
        records,
        handlers,
        pool,
        symbols,
        strings,
        names,
        filenames,
        files,
        lines,
    };
    let a = Allowance {
        bytes: max_bytes,
        records: max_records,
    };
    boundary::loaded(examine::examine_record(file, &mut t, a, permitted, rec))
}

// Follows the run of a file of at most so many bytes and records, and of permitted opcodes alone, along choice bytes, over nine lent tables and a frame
// table.
#[unsafe(no_mangle)]
pub extern "C" fn blotheath_follow(
    file: &[u8],
    max_bytes: u32,
    max_records: u32,
    permitted: &[u8],
    records: &mut [u32],
    handlers: &mut [u32],
    pool: &mut [u32],
    symbols: &mut [u32],
    strings: &mut [u32],
    names: &mut [u32],
    filenames: &mut [u32],
    files: &mut [u32],
    lines: &mut [u32],
    frames: &mut [u32],
    choices: &[u8],
) -> BlotheathFollowed
    ensures { ran result (words records.new handlers.new pool.new symbols.new strings.new names.new
        filenames.new files.new lines.new) frames.new
        ≡ ran_is (follow file.now (sizes
        (words records.old handlers.old pool.old symbols.old strings.old names.old
        filenames.old files.old lines.old)) (allowance max_bytes max_records)
        permitted.now (length frames.old) choices.now) }
{
    let mut t = Tables {
        records,
        handlers,
        pool,
        symbols,
        strings,
        names,
        filenames,
        files,
        lines,
    };
    let a = Allowance {
        bytes: max_bytes,
        records: max_records,
    };
    boundary::followed(follow::follow(file, &mut t, frames, choices, a, permitted))
}
