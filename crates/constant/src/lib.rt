// Constants: what the bytes of a pool row are, by its kind.
#![tactic(auto)]

ghost use Rattle.std.specs.Prelude.{◌≡◌};
ghost use Rattle.format.specs.Lookup as format;
ghost use Rattle.refusal.specs.Number.{answer_as};
ghost use Rattle.constant.specs.Answers.{pool_row, value_of};

use number::{i32_at, i64_at};
use number_float::f64_at;
use ranges::{Text, bytes_in};
use refusal::Refusal;

// A constant by its kind: texts and big integers are bytes of the file.
#[derive(Clone, Copy)]
pub enum PoolValue {
    Text(Text),
    Int(i64),
    Float(f64),
    Big(Text),
}

// The constant that a pool row's words say. The kind stays a number: it is a word of the lent pool table, and any has an answer here.
#[tactic(auto, unfolding(format::specs::Lookup::constant_of, format::specs::Lookup::bytes_in, format::specs::Lookup::constant_at))]
pub fn constant_of(f: &[u8], kind: u32, place: u32, length: u32) -> Result<PoolValue, Refusal>
    ensures { answer_as value_of result ≡ format.constant_of f.now (pool_row kind place length) }
{
    let bytes = bytes_in(f, place, length)?;
    let at = place as usize;
    match (kind, length) {
        (0 | 2, _) => Ok(PoolValue::Text(bytes)),
        (1, 4) => Ok(PoolValue::Int(i64::from(i32_at(f, at)?))),
        (3, 8) => Ok(PoolValue::Int(i64_at(f, at)?)),
        (5, 8) => Ok(PoolValue::Float(f64_at(f, at)?)),
        (7, _) => Ok(PoolValue::Big(bytes)),
        _ => Err(Refusal::Missing),
    }
}
