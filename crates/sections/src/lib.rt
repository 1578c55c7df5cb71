// One section, at the start of a part of a file, into the lent tables that are its own.
// The tables stay parameters: a call is lent those of its section alone, so that the others are seen to stay.
#![tactic(auto)]

ghost use Rattle.std.specs.Prelude.{◌≡◌};
ghost use Rattle.refusal.specs.Number.{answer_of};
ghost use Rattle.sections.specs.Sections.{used_of, irep_out, irep_out_of, lvar_out, lvar_out_of, dbg_out, dbg_out_of, end_of};

use format::RECORD_WIDTH;
use marks::section_end;
use refusal::Refusal;
use rows::{Part, row_count};

// How many rows of each table are used, and how many visits the LVAR walk made.
#[derive(Clone, Copy)]
pub struct Used {
    pub records: u32,
    pub handlers: u32,
    pub pool: u32,
    pub symbols: u32,
    pub strings: u32,
    pub names: u32,
    pub filenames: u32,
    pub files: u32,
    pub lines: u32,
    pub visits: u32,
}

// What each section that has come uses.
#[derive(Clone, Copy, Default)]
pub struct Progress {
    pub irep: Option<irep::Used>,
    pub lvar: Option<lvar::Used>,
    pub dbg: Option<debug::Used>,
}

impl Progress {
    // All that is used so far: nothing of a section that has not come.
    pub fn used(self) -> Used
        ensures { result ≡ used_of self }
    {
        let irep = self.irep.unwrap_or_default();
        let lvar = self.lvar.unwrap_or_default();
        let dbg = self.dbg.unwrap_or_default();
        Used {
            records: irep.records,
            handlers: irep.handlers,
            pool: irep.pool,
            symbols: irep.symbols,
            strings: lvar.strings,
            names: lvar.names,
            filenames: dbg.file_names,
            files: dbg.files,
            lines: dbg.lines,
            visits: lvar.visits,
        }
    }
}

// A section's size, and how far reading has come with it.
#[derive(Clone, Copy)]
pub struct Section {
    pub size: u32,
    pub progress: Progress,
}

// The IREP section: a second one is 6.
#[tactic(auto, unfolding(crate::specs::Sections::irep_out_of))]
pub fn irep_at(
    part: Part,
    limit: irep::Limits,
    records: &mut [u32],
    handlers: &mut [u32],
    pool: &mut [u32],
    symbols: &mut [u32],
    p: Progress,
) -> Result<Section, Refusal>
    ensures { irep_out (answer_of result) records.new handlers.new pool.new symbols.new
        ≡ irep_out_of part.entry.bytes.now part.entry.base limit records.old handlers.old pool.old symbols.old p }
{
    if p.irep.is_some() {
        return Err(Refusal::SectionOrder);
    }
    let read = irep::section_irep_1(part, limit, records, handlers, pool, symbols)?;
    Ok(Section {
        size: read.size,
        progress: Progress {
            irep: Some(read.used),
            ..p
        },
    })
}

// The LVAR section: a second one, or one before IREP, is 6.
#[tactic(auto, unfolding(crate::specs::Sections::lvar_out_of))]
pub fn lvar_at(
    part: Part,
    records: &mut [u32],
    strings: &mut [u32],
    names: &mut [u32],
    p: Progress,
) -> Result<Section, Refusal>
    ensures { lvar_out (answer_of result) records.new strings.new names.new
        ≡ lvar_out_of part.entry.bytes.now part.entry.base records.old strings.old names.old p }
{
    let Some(irep) = p.irep else {
        return Err(Refusal::SectionOrder);
    };
    if p.lvar.is_some() {
        return Err(Refusal::SectionOrder);
    }
    if row_count(records.len(), RECORD_WIDTH) < irep.records {
        return Err(Refusal::NoRow);
    }
    let read = lvar::section_lvar(part, irep.records as usize, records, strings, names)?;
    Ok(Section {
        size: read.size,
        progress: Progress {
            lvar: Some(read.used),
            ..p
        },
    })
}

// The DBG section: a second one, or one before IREP, is 6.
#[tactic(auto, unfolding(crate::specs::Sections::dbg_out_of))]
pub fn dbg_at(
    part: Part,
    records: &mut [u32],
    filenames: &mut [u32],
    files: &mut [u32],
    lines: &mut [u32],
    p: Progress,
) -> Result<Section, Refusal>
    ensures { dbg_out (answer_of result) records.new filenames.new files.new lines.new
        ≡ dbg_out_of part.entry.bytes.now part.entry.base records.old filenames.old files.old lines.old p }
{
    let Some(irep) = p.irep else {
        return Err(Refusal::SectionOrder);
    };
    if p.dbg.is_some() {
        return Err(Refusal::SectionOrder);
    }
    if row_count(records.len(), RECORD_WIDTH) < irep.records {
        return Err(Refusal::NoRow);
    }
    let read = debug::parse_debug_section(
        part,
        irep.records as usize,
        records,
        filenames,
        files,
        lines,
    )?;
    Ok(Section {
        size: read.size,
        progress: Progress {
            dbg: Some(read.used),
            ..p
        },
    })
}

// The END section.
pub fn end_at(f: &[u8], p: Progress) -> Result<Section, Refusal>
    ensures { answer_of result ≡ end_of f.now p }
{
    let size = section_end(f)?;
    Ok(Section { size, progress: p })
}
