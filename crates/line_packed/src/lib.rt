// Packed numbers, and the entries of a packed line map.
#![tactic(auto)]

ghost use Rattle.std.specs.Prelude.{◌≡◌, ◌+◌, ◌*◌, ◌%◌};
ghost use Rattle.format.specs.Packed.{wrap, packed_from, packed, packed_entry};
ghost use Rattle.refusal.specs.Number.{answer_as};
ghost use Rattle.line_packed.specs.Answers.{packed_of, entry_of};

use line::{Line, Pos};
use refusal::Refusal;

// Two types with a sum each, as docs/DECISIONS.md ('The shape of each place') has them: one for both would need a trait for position and line.
// What a packed map's entry adds to the position before it.
#[derive(Clone, Copy)]
pub struct PosDelta(pub u32);

// What a packed map's entry adds to the line before it.
#[derive(Clone, Copy)]
pub struct LineDelta(pub u32);

impl PosDelta {
    // The position that is this much behind another: the sum wraps.
    fn behind(self, pos: Pos) -> Pos
        ensures { result.0 ≡ wrap (pos.0 + self.0) }
    {
        Pos(pos.0.wrapping_add(self.0))
    }
}

impl LineDelta {
    // The line that is this much behind another: the sum wraps.
    fn behind(self, line: Line) -> Line
        ensures { result.0 ≡ wrap (line.0 + self.0) }
    {
        Line(line.0.wrapping_add(self.0))
    }
}

// A packed number and the place after it.
#[derive(Drop)]
pub struct Packed {
    pub value: u32,
    pub next: usize,
}

// An entry of a packed map and the place after it.
#[derive(Drop)]
pub struct Entry {
    pub pos: Pos,
    pub line: Line,
    pub next: usize,
}

// The low 7 bits of a byte with the higher bits above them; bits above 31 drop.
fn above(low: u32, high: u32) -> u32
    ensures { result ≡ wrap (low % 128 + 128 * high) }
{
    low % 128 + high.wrapping_mul(128)
}

// A packed number of at most `left` bytes: 12 where the last of them goes on, 7 where the next is past the end.
#[tactic(auto, using(crate::proofs::FirstByte::packed_none, crate::proofs::FirstByte::packed_short, crate::proofs::FirstByte::packed_last, crate::proofs::FirstByte::packed_more))]
fn packed_from(head: &[u8], cur: usize, left: u32) -> Result<Packed, Refusal>
    ensures { answer_as packed_of result ≡ packed_from head.now left cur }
{
    if left == 0 {
        return Err(Refusal::DebugFile);
    }
    let Some(&b) = head.get(cur) else {
        return Err(Refusal::PastEnd);
    };
    if b < 128 {
        return Ok(Packed {
            value: b as u32,
            next: cur + 1,
        });
    }
    let high = packed_from(head, cur + 1, left - 1)?;
    Ok(Packed {
        value: above(b as u32, high.value),
        next: high.next,
    })
}

// A packed number of more bytes than one. It stands by itself for speed: a caller clears no place for its answer before it is called.
#[tactic(auto, unfolding(format::specs::Packed::packed))]
fn packed_long(head: &[u8], cur: usize) -> Result<Packed, Refusal>
    ensures { answer_as packed_of result ≡ packed head.now cur }
{
    let long = packed_from(head, cur, 5)?;
    Ok(long)
}

// A packed number: 7 bits of each byte, the lowest first, in at most five bytes.
#[tactic(auto, using(crate::proofs::FirstByte::packed_last), unfolding(format::specs::Packed::packed))]
pub fn decode_packed_int(head: &[u8], cur: usize) -> Result<Packed, Refusal>
    ensures { answer_as packed_of result ≡ packed head.now cur }
{
    // most numbers have one byte, and need no call
    if let Some(&b) = head.get(cur)
        && b < 128
    {
        return Ok(Packed {
            value: b as u32,
            next: cur + 1,
        });
    }
    packed_long(head, cur)
}

// The entry of a packed map at a place, after the entry with a position and a line: the position's delta, then the line's.
#[tactic(auto, unfolding(format::specs::Packed::packed_entry))]
pub fn packed_entry(head: &[u8], cur: usize, pos: Pos, line: Line) -> Result<Entry, Refusal>
    ensures { answer_as entry_of result ≡ packed_entry head.now cur pos.0 line.0 }
{
    let first = decode_packed_int(head, cur)?;
    let second = decode_packed_int(head, first.next)?;
    Ok(Entry {
        pos: PosDelta(first.value).behind(pos),
        line: LineDelta(second.value).behind(line),
        next: second.next,
    })
}
