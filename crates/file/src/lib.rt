// A file's sections in turn, into nine lent tables.
#![tactic(auto)]

ghost use Rattle.std.specs.Prelude.{◌≡◌, ◌+◌, ◌≤◌, length};
ghost use Rattle.refusal.specs.Number.{answer_of};
ghost use Rattle.tables.specs.Tables.{words_of, Same};
ghost use Rattle.sections.specs.Sections.{begun};
ghost use Rattle.file.specs.File.{out, section_out, sections_out};

use binfmt::rest;
use irep::Limits;
use marks::{Mark, peek4};
use refusal::Refusal;
use rows::Part;
use sections::{Progress, Section, Used, dbg_at, end_at, irep_at, lvar_at};
use tables::Tables;

// The section at a place, by its mark.
#[tactic(auto, unfolding(crate::specs::File::section_out))]
fn read_section(
    f: &[u8],
    at: usize,
    limit: Limits,
    t: &mut Tables,
    p: Progress,
) -> Result<Section, Refusal>
    requires { (at + 4 ≤ length f.now) × (length f.now ≤ 65536) }
    ensures same { Same t.old t.new }
    ensures section { out (answer_of result) (words_of t.new) ≡ section_out f.now limit at (words_of t.old) p }
{
    let part = Part {
        bytes: &f[at..],
        base: at,
    };
    match peek4(f, at) {
        Some(Mark::Irep) => irep_at(part, limit, t.records, t.handlers, t.pool, t.symbols, p),
        Some(Mark::Lvar) => lvar_at(part, t.records, t.strings, t.names, p),
        Some(Mark::Dbg) => dbg_at(part, t.records, t.filenames, t.files, t.lines, p),
        Some(Mark::End) => end_at(part.bytes, p),
        None => Err(Refusal::UnknownMark),
    }
}

// The sections from the file's header on, until fewer than four bytes are left. Each moves the place on, so as many as the file has bytes do.
pub fn read_sections(f: &[u8], limit: Limits, t: &mut Tables) -> Result<Used, Refusal>
    requires { length f.now ≤ 65536 }
    ensures same { Same t.old t.new }
    ensures sections { out (answer_of result) (words_of t.new) ≡ sections_out f.now limit (length f.now) 20 (words_of t.old) begun }
{
    let mut at = 20;
    let mut p = Progress::default();
    for _i in 0..f.len() {
        if rest(f, at) < 4 {
            break;
        }
        let section = read_section(f, at, limit, t, p)?;
        at += section.size as usize;
        p = section.progress;
    }
    Ok(p.used())
}
