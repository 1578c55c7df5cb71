// Examination of a loaded pattern by a list of permitted opcodes: conditions 15 to 20, 25 and 32 over the file's bytes and the lent tables.
#![tactic(auto)]

ghost use Rattle.std.specs.Prelude.{◌≡◌, ◌+◌, ◌-◌, ◌*◌, ◌<◌, ◌≤◌, length, get_or};
ghost use Rattle.format.specs.Line.{rising, map_of};
ghost use Rattle.format.specs.Tree.{whole};
ghost use Rattle.format.specs.Bytes.{refuse};
ghost use Rattle.format.specs.Exam.{examine_record, examine_all, examine_pattern};
ghost use Rattle.format.specs.Rows.{record_width};
ghost use Rattle.refusal.specs.Number.{refusal_of};
ghost use Rattle.flags.specs.Flags.{Marked};
ghost use Rattle.examine_list.specs.Full.{bytes_of};
ghost use Rattle.exam.specs.View.{rlens_at};
ghost use Rattle.exam.specs.Loaded.{record_of, between, pattern_of};
ghost use Rattle.exam.specs.Part.{targets_of, exam19_of, examine_part};

pub mod loaded;

use examine_list::{FULL, FullList, write_full};
use flags::{OperandLimits, begins_at};
use format::RECORD_WIDTH;
pub use loaded::Pattern;
use refusal::Refusal;
use scan::exam_code;

// A word of a table, as a place or a number.
pub fn word(t: &[u32], i: usize) -> usize
    requires { i < length t.now }
    ensures { (result ≡ get_or t.now i 0) × (result < 4294967296) }
{
    t[i] as usize
}

// 19 over handler rows.
fn exam_19(code: &[u8], flags: &[u8], handlers: &[u32]) -> Result<(), Refusal>
    requires { Marked code.now flags.now }
    ensures { refusal_of result ≡ exam19_of code.now (targets_of handlers.now) }
{
    for h in 0..handlers.len() / 4 {
        if !begins_at(code, flags, word(handlers, h * 4 + 3)) {
            return Err(Refusal::HandlerTarget);
        }
    }
    Ok(())
}

// 20 over line rows.
fn exam_20(lines: &[u32]) -> Result<(), Refusal>
    ensures { refusal_of result ≡ refuse 20 (rising (map_of lines.now)) }
{
    for j in 1..lines.len() / 2 {
        if lines[j * 2] < lines[(j - 1) * 2] {
            return Err(Refusal::LinesFall);
        }
    }
    Ok(())
}

// A record by its parts: its code, 19 over its handler rows, 20 over its line rows.
fn examine_part(
    code: &[u8],
    flags: &mut [u8],
    limits: &OperandLimits,
    handlers: &[u32],
    lines: &[u32],
    permitted: &FullList,
) -> Result<(), Refusal>
    requires { length code.now ≤ length flags.old }
    ensures { refusal_of result ≡ examine_part limits.now.by_role (bytes_of permitted.now.answers) code.now handlers.now lines.now }
{
    exam_code(code, flags, limits, permitted)?;
    exam_19(code, flags, handlers)?;
    exam_20(lines)
}

// Examination of record `r` by a list in full: the first condition of 16 to 20, 25 and 32 that it meets.
fn examine_record(
    pattern: &Pattern,
    r: usize,
    flags: &mut [u8],
    permitted: &FullList,
) -> Result<(), Refusal>
    requires inside { r < pattern.now.n }
    requires file_in_bounds { length pattern.now.file.now ≤ length flags.old }
    ensures { refusal_of result ≡ examine_record (bytes_of permitted.now.answers) (record_of pattern.now r) }
{
    let records = pattern.records;
    let row = r * RECORD_WIDTH;
    let place = word(records, row + 6);
    let end = place + word(records, row + 5);
    let h = word(records, row + 7);
    let handlers_end = h + word(records, row + 8);
    let l = word(records, row + 17);
    let lines_end = l + word(records, row + 18);
    let nregs = records[row + 2];
    let limits = OperandLimits {
        by_role: [
            65536,
            nregs,
            records[row + 10],
            records[row + 12],
            records[row + 3],
            nregs.saturating_sub(1),
            nregs.saturating_sub(2),
        ],
    };
    examine_part(
        &pattern.file[place..end],
        flags,
        &limits,
        &pattern.handlers[h * 4..handlers_end * 4],
        &pattern.lines[l * 2..lines_end * 2],
        permitted,
    )
}

// 15: is the tree of the first `n` records whole?
pub fn whole_tree(records: &[u32], n: usize) -> bool
    requires n_bound { n ≤ 1024 }
    requires record_width_in_bounds { n * record_width ≤ length records.now }
    ensures { result ≡ whole (rlens_at records.now n) }
{
    let mut p: usize = 1;
    for i in 0..n {
        if p == 0 {
            return false;
        }
        p = p - 1 + word(records, i * RECORD_WIDTH + 3);
    }
    p == 0
}

// Examination of the records from one on, up to but not with another, in turn, by a list in full.
fn examine_all(
    pattern: &Pattern,
    from: usize,
    to: usize,
    flags: &mut [u8],
    permitted: &FullList,
) -> Result<(), Refusal>
    requires inside { to ≤ pattern.now.n }
    requires file_in_bounds { length pattern.now.file.now ≤ length flags.old }
    ensures { refusal_of result ≡ examine_all (bytes_of permitted.now.answers) (between pattern.now from to) }
{
    for r in from..to {
        examine_record(pattern, r, flags, permitted)?;
    }
    Ok(())
}

// The same by any list: the first condition of 16 to 20, 25 and 32 that one of them meets.
pub fn examine_records(
    pattern: &Pattern,
    from: usize,
    to: usize,
    permitted: &[u8],
) -> Result<(), Refusal>
    requires { to ≤ pattern.now.n }
    ensures { refusal_of result ≡ examine_all permitted.now (between pattern.now from to) }
{
    let mut answers = [false; FULL];
    write_full(permitted, &mut answers);
    let full = FullList { answers };
    // A small file pays for few flags alone. The arrays are two, since there is no heap for one of the file's length.
    if pattern.file.len() <= 4096 {
        let mut few: [u8; 4096] = [0; 4096];
        return examine_all(pattern, from, to, &mut few, &full);
    }
    let mut flags: [u8; 65536] = [0; 65536];
    examine_all(pattern, from, to, &mut flags, &full)
}

// Examination of the records: the first condition of 15 to 20, 25 and 32 that is met.
pub fn examine_tables(pattern: &Pattern, permitted: &[u8]) -> Result<(), Refusal>
    ensures { refusal_of result ≡ examine_pattern permitted.now (pattern_of pattern.now) }
{
    if !whole_tree(pattern.records, pattern.n) {
        return Err(Refusal::NotOneTree);
    }
    examine_records(pattern, 0, pattern.n, permitted)
}
