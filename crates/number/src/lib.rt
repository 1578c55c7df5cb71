// Whole numbers of four and eight bytes, high byte first.
#![tactic(auto)]

ghost use Rattle.std.specs.Prelude.{◌≡◌};
ghost use Rattle.format.specs.Bytes.{int32_at, int64_at, reads};
ghost use Rattle.refusal.specs.Number.{answer_of};

use binfmt::field_at;
use refusal::Refusal;

// Four bytes as a whole number, high byte first.
pub fn i32_at(head: &[u8], cur: usize) -> Result<i32, Refusal>
    ensures { answer_of result ≡ reads head.now cur 4 (int32_at head.now cur) }
{
    Ok(i32::from_be_bytes(field_at(head, cur)?))
}

// Eight bytes as a whole number, high byte first.
pub fn i64_at(head: &[u8], cur: usize) -> Result<i64, Refusal>
    ensures { answer_of result ≡ reads head.now cur 8 (int64_at head.now cur) }
{
    Ok(i64::from_be_bytes(field_at(head, cur)?))
}
