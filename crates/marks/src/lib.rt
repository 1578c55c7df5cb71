// What is tested of a file without tables: its size and header, the mark of a section, the size of END.
#![tactic(auto)]

ghost use Rattle.std.specs.Prelude.{◌≡◌, ◌+◌, ◌≤◌, length};
ghost use Rattle.format.specs.File.{end_section, file_refusal};
ghost use Rattle.refusal.specs.Number.{answer_of, refusal_of};
ghost use Rattle.marks.specs.Marks.{mark_of};

use binfmt::be32_to_u32;
use format::DESKTOP_BYTES;
use headers::{RiteBinaryHeader, section_size};
use refusal::Refusal;

// The mark of a section.
#[derive(Drop)]
pub enum Mark {
    Irep,
    Lvar,
    Dbg,
    End,
}

// The mark at a place, if there is one.
#[tactic(auto, unfolding(crate::specs::Marks::mark_of))]
pub fn peek4(f: &[u8], at: usize) -> Option<Mark>
    requires { at + 4 ≤ length f.now }
    ensures { result ≡ mark_of f.now at }
{
    match &f[at..at + 4] {
        b"IREP" => Some(Mark::Irep),
        b"LVAR" => Some(Mark::Lvar),
        b"DBG\0" => Some(Mark::Dbg),
        b"END\0" => Some(Mark::End),
        _ => None,
    }
}

// The size of a section of which nothing else is looked at.
#[tactic(auto, unfolding(format::specs::File::end_section))]
pub fn section_end(f: &[u8]) -> Result<u32, Refusal>
    ensures { answer_of result ≡ end_section f.now }
{
    let size = section_size(f)?;
    if size == 0 {
        return Err(Refusal::SizeZero);
    }
    if f.len() < (size as usize) {
        return Err(Refusal::PastEnd);
    }
    Ok(size)
}

// The tests of a file by its size and its header, where so many bytes are allowed.
#[tactic(auto, unfolding(format::specs::File::file_refusal))]
pub fn check_file(f: &[u8], allowed: usize) -> Result<(), Refusal>
    ensures { refusal_of result ≡ file_refusal f.now allowed }
{
    if (DESKTOP_BYTES as usize) < f.len() {
        return Err(Refusal::FileTooLong);
    }
    if allowed < f.len() {
        return Err(Refusal::Allowance);
    }
    let Ok(header) = RiteBinaryHeader::from_bytes(f) else {
        return Err(Refusal::HeaderCut);
    };
    if header.ident != *b"RITE" {
        return Err(Refusal::NotRite);
    }
    let stated = be32_to_u32(header.size) as usize;
    if f.len() < stated {
        return Err(Refusal::FileCut);
    }
    if header.major_version != *b"04" {
        return Err(Refusal::Version);
    }
    if f.len() < 32 {
        return Err(Refusal::NoSection);
    }
    Ok(())
}
