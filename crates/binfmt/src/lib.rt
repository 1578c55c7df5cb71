// Fields of one, two and four bytes, high byte first, and the bytes of one of any length.
#![tactic(auto)]

ghost use Rattle.std.specs.Prelude.{◌≡◌, ◌+◌, ◌-◌, ◌≤◌, ◌<◌, length};
ghost use Rattle.format.specs.Bytes.{byte, u16_at, u32_at, reads};
ghost use Rattle.binfmt.specs.Bytes.{bytes_at};
ghost use Rattle.refusal.specs.Number.{answer_of};

use refusal::Refusal;

// The two fields by value keep names of their own: docs/DECISIONS.md ('The shape of each place') names them.
// Two bytes, high byte first.
pub fn be16_to_u16(be16: [u8; 2]) -> u16
    ensures { result ≡ u16_at be16 0 }
{
    u16::from_be_bytes(be16)
}

// Four bytes, high byte first.
pub fn be32_to_u32(be32: [u8; 4]) -> u32
    ensures { result ≡ u32_at be32 0 }
{
    u32::from_be_bytes(be32)
}

// How many bytes are left from a place on; none where it is past the end.
pub fn rest(head: &[u8], cur: usize) -> usize
    ensures { result ≡ length head.now - cur }
{
    head.len().saturating_sub(cur)
}

// The N bytes at a place.
#[tactic(auto, using(crate::proofs::Slices::slice_bytes))]
pub fn bytes_at<const N: usize>(buf: &[u8], at: usize) -> [u8; N]
    requires { at + N ≤ length buf.now }
    ensures { result ≡ bytes_at N buf.now at }
{
    let mut bytes = [0; N];
    bytes.copy_from_slice(&buf[at..at + N]);
    bytes
}

// The byte at a place.
pub fn u8_in(head: &[u8], cur: usize) -> u32
    requires { cur + 1 ≤ length head.now }
    ensures { (result ≡ byte head.now cur) × (result < 256) }
{
    u32::from(head[cur])
}

// The field of two bytes at a place.
pub fn u16_in(head: &[u8], cur: usize) -> u16
    requires { cur + 2 ≤ length head.now }
    ensures { result ≡ u16_at head.now cur }
{
    be16_to_u16([head[cur], head[cur + 1]])
}

// The field of four bytes at a place.
pub fn u32_in(head: &[u8], cur: usize) -> u32
    requires { cur + 4 ≤ length head.now }
    ensures { result ≡ u32_at head.now cur }
{
    be32_to_u32([head[cur], head[cur + 1], head[cur + 2], head[cur + 3]])
}

// The N bytes at a place, where as many are left.
pub fn field_at<const N: usize>(head: &[u8], cur: usize) -> Result<[u8; N], Refusal>
    requires { 0 < N }
    ensures { answer_of result ≡ reads head.now cur N (bytes_at N head.now cur) }
{
    if rest(head, cur) < N {
        return Err(Refusal::PastEnd);
    }
    Ok(bytes_at(head, cur))
}

pub fn u16_at(head: &[u8], cur: usize) -> Result<u16, Refusal>
    ensures { answer_of result ≡ reads head.now cur 2 (u16_at head.now cur) }
{
    Ok(u16::from_be_bytes(field_at(head, cur)?))
}

pub fn u32_at(head: &[u8], cur: usize) -> Result<u32, Refusal>
    ensures { answer_of result ≡ reads head.now cur 4 (u32_at head.now cur) }
{
    Ok(u32::from_be_bytes(field_at(head, cur)?))
}
