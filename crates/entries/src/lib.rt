// What an entry of a table says: a handler, a constant, a name.
#![tactic(auto)]

ghost use Rattle.std.specs.Prelude.{◌≡◌, ◌/◌, ◌<◌, length};
ghost use Rattle.format.specs.Lookup as format;
ghost use Rattle.refusal.specs.Number.{answer_as};
ghost use Rattle.constant.specs.Answers.{value_of};
ghost use Rattle.entries.specs.Answers.{handler_of, name_of};

use constant::{PoolValue, constant_of};
use ranges::{Text, text_in};
use refusal::Refusal;

// A handler's four fields.
#[derive(Clone, Copy)]
pub struct Handler {
    pub kind: u32,
    pub begin: u32,
    pub end: u32,
    pub target: u32,
}

// The handler that row i of the handler table says.
pub fn handler_at(handlers: &[u32], i: usize) -> Handler
    requires { i < length handlers.now / 4 }
    ensures { handler_of result ≡ format.handler_row_at handlers.now i }
{
    let start = i * 4;
    Handler {
        kind: handlers[start],
        begin: handlers[start + 1],
        end: handlers[start + 2],
        target: handlers[start + 3],
    }
}

// The constant that row i of the pool table says.
pub fn constant_at(f: &[u8], pool: &[u32], i: usize) -> Result<PoolValue, Refusal>
    requires { i < length pool.now / 3 }
    ensures { answer_as value_of result ≡ format.constant_of f.now (format.pool_row_at pool.now i) }
{
    let start = i * 3;
    constant_of(f, pool[start], pool[start + 1], pool[start + 2])
}

// The name that a word of the name table says: 65535 is unnamed.
#[tactic(auto, unfolding(format::specs::Lookup::name_of))]
pub fn name_of(f: &[u8], strings: &[u32], n: u32) -> Result<Option<Text>, Refusal>
    ensures { answer_as name_of result ≡ format.name_of f.now strings.now n }
{
    if n == 65535 {
        return Ok(None);
    }
    Ok(Some(text_in(f, strings, n as usize)?))
}
