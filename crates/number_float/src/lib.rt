// Floats of eight bytes, low byte first.
#![tactic(auto)]

ghost use Rattle.std.specs.Prelude.{◌≡◌};
ghost use Rattle.format.specs.Bytes.{float64_at, reads};
ghost use Rattle.refusal.specs.Number.{answer_of};

use binfmt::field_at;
use refusal::Refusal;
use std::num::f64_from_bits_with_nan;

// Eight bytes as a float, low byte first, a NaN's too.
pub fn f64_at(head: &[u8], cur: usize) -> Result<f64, Refusal>
    ensures { answer_of result ≡ reads head.now cur 8 (float64_at head.now cur) }
{
    let n = u64::from_le_bytes(field_at(head, cur)?);
    Ok(f64_from_bits_with_nan(n))
}
