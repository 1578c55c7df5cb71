// The headers of IREP, of its records and of their handlers, field by field as bytes, and their reading from the first bytes of a slice.
#![tactic(auto)]

ghost use Rattle.std.specs.Prelude.{◌≡◌};
ghost use Rattle.format.specs.Headers.{irep_header, record_header, handler_header};
ghost use Rattle.refusal.specs.Number.{answer_as};
ghost use Rattle.headers_irep.specs.Headers.{irep_header_of, irep_record_of, irep_catch_handler_of};

use binfmt::bytes_at;
use refusal::Refusal;

// The header of an IREP section.
#[derive(Drop)]
pub struct SectionIrepHeader {
    pub ident: [u8; 4],
    pub size: [u8; 4],
    pub rite_version: [u8; 4],
}

impl SectionIrepHeader {
    pub fn from_bytes(buf: &[u8]) -> Result<SectionIrepHeader, Refusal>
        ensures { answer_as irep_header_of result ≡ irep_header buf.now }
    {
        if buf.len() < 12 {
            return Err(Refusal::PastEnd);
        }
        Ok(SectionIrepHeader {
            ident: bytes_at(buf, 0),
            size: bytes_at(buf, 4),
            rite_version: bytes_at(buf, 8),
        })
    }
}

// A record's first 16 bytes.
#[derive(Drop)]
pub struct IrepRecord {
    pub size: [u8; 4],
    pub nlocals: [u8; 2],
    pub nregs: [u8; 2],
    pub rlen: [u8; 2],
    pub clen: [u8; 2],
    pub ilen: [u8; 4],
}

impl IrepRecord {
    pub fn from_bytes(buf: &[u8]) -> Result<IrepRecord, Refusal>
        ensures { answer_as irep_record_of result ≡ record_header buf.now }
    {
        if buf.len() < 16 {
            return Err(Refusal::PastEnd);
        }
        Ok(IrepRecord {
            size: bytes_at(buf, 0),
            nlocals: bytes_at(buf, 4),
            nregs: bytes_at(buf, 6),
            rlen: bytes_at(buf, 8),
            clen: bytes_at(buf, 10),
            ilen: bytes_at(buf, 12),
        })
    }
}

// A handler's 13 bytes.
#[derive(Drop)]
pub struct IrepCatchHandler {
    pub type_: u8,
    pub begin: [u8; 4],
    pub end: [u8; 4],
    pub target: [u8; 4],
}

impl IrepCatchHandler {
    pub fn from_bytes(buf: &[u8]) -> Result<IrepCatchHandler, Refusal>
        ensures { answer_as irep_catch_handler_of result ≡ handler_header buf.now }
    {
        if buf.len() < 13 {
            return Err(Refusal::PastEnd);
        }
        Ok(IrepCatchHandler {
            type_: buf[0],
            begin: bytes_at(buf, 1),
            end: bytes_at(buf, 5),
            target: bytes_at(buf, 9),
        })
    }
}
