// The headers of the file and of LVAR, DBG and END, field by field as bytes, and their reading from the first bytes of a slice; the size that a section
// states.
#![tactic(auto)]

ghost use Rattle.std.specs.Prelude.{◌≡◌};
ghost use Rattle.format.specs.Bytes.{u32_at, reads};
ghost use Rattle.format.specs.Headers.{file_header, section_header};
ghost use Rattle.refusal.specs.Number.{answer_of, answer_as};
ghost use Rattle.headers.specs.Headers.{file_header_of, section_header_of};

use binfmt::{be32_to_u32, bytes_at};
use refusal::Refusal;

// The file's header.
#[derive(Drop)]
pub struct RiteBinaryHeader {
    pub ident: [u8; 4],
    pub major_version: [u8; 2],
    pub minor_version: [u8; 2],
    pub size: [u8; 4],
    pub compiler_name: [u8; 4],
    pub compiler_version: [u8; 4],
}

impl RiteBinaryHeader {
    pub fn from_bytes(buf: &[u8]) -> Result<RiteBinaryHeader, Refusal>
        ensures { answer_as file_header_of result ≡ file_header buf.now }
    {
        if buf.len() < 20 {
            return Err(Refusal::PastEnd);
        }
        Ok(RiteBinaryHeader {
            ident: bytes_at(buf, 0),
            major_version: bytes_at(buf, 4),
            minor_version: bytes_at(buf, 6),
            size: bytes_at(buf, 8),
            compiler_name: bytes_at(buf, 12),
            compiler_version: bytes_at(buf, 16),
        })
    }
}

// The header of an LVAR, DBG or END section.
#[derive(Drop)]
pub struct SectionMiscHeader {
    pub ident: [u8; 4],
    pub size: [u8; 4],
}

impl SectionMiscHeader {
    pub fn from_bytes(buf: &[u8]) -> Result<SectionMiscHeader, Refusal>
        ensures { answer_as section_header_of result ≡ section_header buf.now }
    {
        if buf.len() < 8 {
            return Err(Refusal::PastEnd);
        }
        Ok(SectionMiscHeader {
            ident: bytes_at(buf, 0),
            size: bytes_at(buf, 4),
        })
    }
}

// The size that an LVAR, DBG or END section states.
pub fn section_size(f: &[u8]) -> Result<u32, Refusal>
    ensures { answer_of result ≡ reads f.now 0 8 (u32_at f.now 4) }
{
    let header = SectionMiscHeader::from_bytes(f)?;
    Ok(be32_to_u32(header.size))
}
