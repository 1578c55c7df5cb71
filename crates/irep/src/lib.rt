// The records of an IREP section, read into four lent tables: records, handlers, pool entries and symbols.
// The tables stay four parameters: in a struct of references each contract would also say that the four of them stay the same.
#![tactic(auto)]

ghost use Rattle.std.specs.Prelude.{◌≡◌, ◌+◌, ◌≤◌, length};
ghost use Rattle.format.specs.Bytes.{reads};
ghost use Rattle.format.specs.Rows.{record_words};
ghost use Rattle.format.specs.Irep.{head_at};
ghost use Rattle.refusal.specs.Number.{answer_of, answer_as};
ghost use Rattle.irep.specs.Record.{unused, head_of, range_of, lent, lists, placed, run, row_is, body_of, finish_of, record_of, records_of, irep_of};

use binfmt::{be16_to_u16, be32_to_u32, rest};
use format::{NO_PARENT, RECORD_WIDTH};
use headers_irep::{IrepRecord, SectionIrepHeader};
use refusal::Refusal;
use rows::{Part, Row, first_row, put_row, row_count};

// How far a load may go: the bytes and the records that the caller allows, and how many records there can be.
#[derive(Clone, Copy)]
pub struct Limits {
    pub bytes: u32,
    pub allowed: u32,
    pub most: u32,
}

// How many rows of each table are used.
#[derive(Clone, Copy, Default)]
pub struct Used {
    pub records: u32,
    pub handlers: u32,
    pub pool: u32,
    pub symbols: u32,
}

// A record's header as numbers.
#[derive(Clone, Copy)]
struct Header {
    size: u32,
    nlocals: u32,
    nregs: u32,
    rlen: u32,
    clen: u32,
    ilen: u32,
}

// The next record's place, and the rows used.
#[derive(Clone, Copy)]
struct Reached {
    at: usize,
    used: Used,
}

// The section's size, and the rows used.
#[derive(Clone, Copy)]
pub struct Section {
    pub size: u32,
    pub used: Used,
}

// The header of the record at a place.
fn read_header(f: &[u8], at: usize) -> Result<Header, Refusal>
    requires { at ≤ length f.now }
    ensures { answer_as head_of result ≡ reads f.now at 16 (head_at f.now at) }
{
    let h = IrepRecord::from_bytes(&f[at..])?;
    Ok(Header {
        size: be32_to_u32(h.size),
        nlocals: be16_to_u16(h.nlocals) as u32,
        nregs: be16_to_u16(h.nregs) as u32,
        rlen: be16_to_u16(h.rlen) as u32,
        clen: be16_to_u16(h.clen) as u32,
        ilen: be32_to_u32(h.ilen),
    })
}

// The first row and the number of the rows that are used after, and were not before.
fn range(before: u32, after: u32) -> [u32; 2]
    ensures { result ≡ range_of before after }
{
    let n = after.saturating_sub(before);
    [first_row(before, n), n]
}

// A record's row: its header, its instructions' place, and first row and number of its handlers, pool entries and symbols; those of its
// names, debug files and lines are 0, and it has no parent.
fn record_row(h: Header, place: u32, u: Used, v: Used) -> [u32; RECORD_WIDTH]
    ensures { result ≡ record_words (row_is (head_of h) place u v) }
{
    let [fh, nh] = range(u.handlers, v.handlers);
    let [fp, np] = range(u.pool, v.pool);
    let [fs, ns] = range(u.symbols, v.symbols);
    [
        h.size, h.nlocals, h.nregs, h.rlen, h.clen, h.ilen, place, fh, nh, fp, np, fs, ns, 0, 0, 0,
        0, 0, 0, 0, NO_PARENT,
    ]
}

// A record's handlers, pool and symbols, from the place after its instructions.
#[tactic(auto, unfolding(crate::specs::Record::body_of))]
fn read_body(
    part: Part,
    clen: usize,
    at: usize,
    handlers: &mut [u32],
    pool: &mut [u32],
    symbols: &mut [u32],
    u: Used,
) -> Result<Used, Refusal>
    ensures { lists (answer_of result) handlers.new pool.new symbols.new
        ≡ body_of part.entry.bytes.now part.entry.base clen at handlers.old pool.old symbols.old u }
{
    let h = part.read_rows(Row::Handler, clen, at, handlers, u.handlers)?;
    let p = part.read_counted(Row::Pool, h.at, pool, u.pool)?;
    let s = part.read_counted(Row::Symbol, p.at, symbols, u.symbols)?;
    Ok(Used {
        handlers: h.used,
        pool: p.used,
        symbols: s.used,
        ..u
    })
}

// Writes the record's row and goes on at the next record; refused where the size is 0.
#[tactic(auto, unfolding(crate::specs::Record::finish_of))]
fn finish(
    h: Header,
    base: usize,
    at: usize,
    records: &mut [u32],
    u: Used,
    v: Used,
) -> Result<Reached, Refusal>
    requires { base + at ≤ 65536 }
    ensures { placed (answer_of result) records.new ≡ finish_of (head_of h) base at records.old u v }
{
    if h.size == 0 {
        return Err(Refusal::SizeZero);
    }
    let row = record_row(h, (base + (at + 16)) as u32, u, v);
    let rows = put_row(records, u.records, &row, at + (h.size as usize))?;
    Ok(Reached {
        at: rows.at,
        used: Used {
            records: rows.used,
            ..v
        },
    })
}

// One record. Its row is needed once its 16 bytes are read.
#[tactic(auto, unfolding(crate::specs::Record::record_of))]
fn read_record(
    part: Part,
    limit: Limits,
    from: Reached,
    records: &mut [u32],
    handlers: &mut [u32],
    pool: &mut [u32],
    symbols: &mut [u32],
) -> Result<Reached, Refusal>
    requires { from.at ≤ length part.bytes.now }
    ensures { run (answer_of result) (lent records.new handlers.new pool.new symbols.new)
        ≡ record_of part.entry.bytes.now part.entry.base limit from.at (lent records.old handlers.old pool.old symbols.old) from.used }
{
    let f = part.bytes;
    let at = from.at;
    let u = from.used;
    let h = read_header(f, at)?;
    if limit.most <= u.records {
        return Err(Refusal::NoRow);
    }
    if row_count(records.len(), RECORD_WIDTH) <= u.records {
        return Err(Refusal::NoRow);
    }
    if limit.allowed <= u.records {
        return Err(Refusal::Allowance);
    }
    if rest(f, at + 16) < (h.ilen as usize) {
        return Err(Refusal::PastEnd);
    }
    let code_end = at + 16 + (h.ilen as usize);
    let v = read_body(part, h.clen as usize, code_end, handlers, pool, symbols, u)?;
    finish(h, part.base, at, records, u, v)
}

// The records, while the place is below the section's size.
fn read_records(
    part: Part,
    size: usize,
    limit: Limits,
    records: &mut [u32],
    handlers: &mut [u32],
    pool: &mut [u32],
    symbols: &mut [u32],
) -> Result<Reached, Refusal>
    requires { size ≤ length part.bytes.now }
    ensures { run (answer_of result) (lent records.new handlers.new pool.new symbols.new)
        ≡ records_of part.entry.bytes.now part.entry.base size limit (length part.entry.bytes.now) 12
        (lent records.old handlers.old pool.old symbols.old) unused }
{
    let mut reached = Reached {
        at: 12,
        used: Used::default(),
    };
    // A loop with a test: how many records there are is not known before.
    while reached.at < size {
        reached = read_record(part, limit, reached, records, handlers, pool, symbols)?;
    }
    Ok(reached)
}

// The section at the start of the part, over tables of which no row is used; its size is tested before its records.
#[tactic(auto, unfolding(crate::specs::Record::irep_of))]
pub fn section_irep_1(
    part: Part,
    limit: Limits,
    records: &mut [u32],
    handlers: &mut [u32],
    pool: &mut [u32],
    symbols: &mut [u32],
) -> Result<Section, Refusal>
    ensures { run (answer_of result) (lent records.new handlers.new pool.new symbols.new)
        ≡ irep_of part.entry.bytes.now part.entry.base limit (lent records.old handlers.old pool.old symbols.old) }
{
    let header = SectionIrepHeader::from_bytes(part.bytes)?;
    let size = be32_to_u32(header.size);
    if part.bytes.len() < (size as usize) {
        return Err(Refusal::PastEnd);
    }
    let reached = read_records(part, size as usize, limit, records, handlers, pool, symbols)?;
    if size == 0 {
        return Err(Refusal::SizeZero);
    }
    Ok(Section {
        size,
        used: reached.used,
    })
}
