// The tests of one instruction with the flag that says what they found, and where flags say that instructions begin.
#![tactic(auto)]

ghost use Rattle.std.specs.Prelude.{false, ◌≡◌, ◌+◌, ◌*◌, ◌<◌, ◌≤◌, length};
ghost use Rattle.format.specs.Bytes.{byte};
ghost use Rattle.format.specs.Insn.{operand, opcode as opcode_of, signed16, next};
ghost use Rattle.format.specs.Registers as registers;
ghost use Rattle.format.specs.Pattern.{begins};
ghost use Rattle.refusal.specs.Number.{answer_as};
ghost use Rattle.opcode.specs.Digits.{end_by, instruction};
ghost use Rattle.flags.specs.Flags.{Numbered, Alone, Behind, Entire, bare, size_behind, within, below_by, flag_at, flag_by, found_of, tested_at, Marked, lands_from};

pub mod limits;

pub use limits::OperandLimits;
use opcode::parts::*;
use opcode::{digits, first_width, lead, second_width};
use refusal::Refusal;

// The flag of an instruction with an operand that meets 17, and of one whose target has to be tested.
pub const HIGH: u8 = 2;

pub const TARGETED: u8 = 3;

// The number of arguments, or of pairs of a key and a value, that says that one register holds them all.
const ALL_IN_ONE: usize = 15;

// What the tests of an instruction find: its size and its flag.
#[derive(Clone, Copy)]
pub struct Tested {
    pub size: usize,
    // Kept in an array, one byte for each byte of code, and read off the digits of an opcode: an enum takes a match for each instruction.
    pub flag: u8,
}

// The byte at `i`, 0 past the end.
fn byte_at(code: &[u8], i: usize) -> usize
    ensures { (result ≡ byte code.now i) × (result < 256) }
{
    usize::from(code.get(i).copied().unwrap_or(0))
}

// The number that an operand of one or two bytes holds. How many it has costs no test.
pub fn operand_at(code: &[u8], at: usize, w: usize) -> usize
    requires { (1 ≤ w) × (w ≤ 2) × (at ≤ length code.now + 8) }
    ensures { (result ≡ operand w code.now at) × (result < 65536) }
{
    (w - 1) * byte_at(code, at) * 256 + byte_at(code, at + w - 1)
}

// Is the operand `v` below the limit of this number? One that is plain is below any.
fn is_below(v: usize, role: usize, limits: &OperandLimits) -> bool
    requires role_bound { (role < 7) × (v < 65536) }
    ensures { result ≡ within limits.now.by_role role v }
{
    v < limits.by_role[role] as usize
}

// How many registers `n` arguments take, so many each.
fn counted(each: usize, n: usize) -> usize
    requires { (each ≤ 2) × (n < 16) }
    ensures { (result ≡ registers.counted each n) × (result < 32) }
{
    if n == ALL_IN_ONE {
        return 1;
    }
    each * n
}

// How many registers the arguments of a call take: `n` in the low four bits, twice `k` in the next four.
fn arguments(v: usize) -> usize
    ensures { (result ≡ registers.arguments v) × (result < 64) }
{
    counted(1, v % 16) + counted(2, v / 16 % 16)
}

// An operand so often.
fn times(n: usize, v: usize) -> usize
    requires { (n < 8) × (v < 65536) }
    ensures { (result ≡ n * v) × (result < 524288) }
{
    n * v
}

// The register behind the last that an instruction of the operands `a`, `b` and `c` names, by the sum in the digits of its opcode.
fn end_of(sum: usize, a: usize, b: usize, c: usize) -> usize
    requires { (a < 65536) × (b < 65536) × (c < 65536) }
    ensures { result ≡ end_by sum a b c }
{
    let operands = times(sum / OF_FIRST % BASE, a)
        + times(sum / OF_SECOND % BASE, b)
        + times(sum / OF_THIRD % BASE, c);
    let call = times(sum / ARGUMENTS_OF_SECOND % BASE, b)
        + times(sum / ARGUMENTS_OF_THIRD % BASE, c);
    sum % BASE + operands + arguments(call)
}

// 17 at an instruction whose operands begin at `at`, by the digits of its opcode. The first has `x` bytes and the second `y`, where a prefix can
// widen them; a third that has a role is one byte.
fn operands_below(
    code: &[u8],
    at: usize,
    x: usize,
    y: usize,
    d: usize,
    limits: &OperandLimits,
) -> bool
    requires numbered { Numbered d }
    requires le_x { (1 ≤ x) × (x ≤ 2) × (1 ≤ y) × (y ≤ 2) × (at ≤ length code.now + 2) }
    ensures { result ≡ below_by limits.now.by_role d (operand x code.now at) (operand y code.now (at + x))
        (byte code.now (at + x + y)) }
{
    let a = operand_at(code, at, x);
    if !is_below(a, d / FIRST % BASE, limits) {
        return false;
    }
    let b = operand_at(code, at + x, y);
    if !is_below(b, d / SECOND % BASE, limits) {
        return false;
    }
    let more = d / THIRD;
    if more == 0 {
        return true;
    }
    let c = byte_at(code, at + x + y);
    if !is_below(c, more % BASE, limits) {
        return false;
    }
    end_of(more / BASE, a, b, c) <= limits.by_role[REG] as usize
}

// The flag of an instruction by 17, by whether its next offset is inside the record, and by the digits of its opcode.
fn flag_of(below: bool, inside: bool, d: usize) -> u8
    ensures { (result ≡ flag_by below inside d) × (result < 8) }
{
    if !below {
        return HIGH;
    }
    if inside {
        return (d / INSIDE % BASE) as u8;
    }
    (d / LAST % BASE) as u8
}

// The flag of the instruction at `i`, which has no prefix and is whole, by the digits of its opcode.
pub fn flag_at(code: &[u8], i: usize, d: usize, limits: &OperandLimits) -> u8
    requires alone { Alone code.now i d }
    ensures { result ≡ flag_at (bare limits.now.by_role code.now) i }
{
    let below = operands_below(code, i + 1, 1, 1, d, limits);
    flag_of(below, i + d % SIZE < code.len(), d)
}

// The size of an instruction of prefix `p` and an opcode of these digits.
fn size_behind(p: u8, d: usize) -> usize
    ensures { (result ≡ size_behind p d) × (result < 128) }
{
    let x = first_width(p) - 1;
    let y = second_width(p) - 1;
    1 + d % SIZE + x * (d / FIRST_BYTE % BASE) + y * (d / SECOND_BYTE % BASE)
}

// The flag of the instruction at `i`, which has a prefix and is whole, of `n` bytes, by the digits of its opcode. It stays a call, so that the loop over
// instructions has the registers to itself.
#[inline(never)]
fn flag_behind(code: &[u8], i: usize, n: usize, d: usize, limits: &OperandLimits) -> u8
    requires { Behind code.now i n d }
    ensures { result ≡ flag_at (bare limits.now.by_role code.now) i }
{
    let p = code[i];
    let below = operands_below(code, i + 2, first_width(p), second_width(p), d, limits);
    flag_of(below, i + n < code.len(), d)
}

// The tests of the instruction at `i`, whose first byte is no instruction by itself: its size and its flag, or what it meets of 16 and 25.
pub fn test_behind(code: &[u8], i: usize, limits: &OperandLimits) -> Result<Tested, Refusal>
    requires i_in_bounds { (i < length code.now) × (false ≡ instruction (byte code.now i)) }
    ensures { answer_as found_of result ≡ tested_at limits.now.by_role code.now i }
{
    let p = code[i];
    if lead(p) == 0 {
        return Err(Refusal::Unreadable);
    }
    let at = i + 1;
    if at == code.len() {
        return Err(Refusal::StrayPrefix);
    }
    let b = code[at];
    let d = digits(b);
    if d % SIZE == 0 {
        if lead(b) == 0 {
            return Err(Refusal::Unreadable);
        }
        return Err(Refusal::StrayPrefix);
    }
    let n = size_behind(p, d);
    if code.len() - i < n {
        return Err(Refusal::Unreadable);
    }
    let flag = flag_behind(code, i, n, d, limits);
    Ok(Tested { size: n, flag })
}

// The opcode byte of the instruction at `i`.
pub fn opcode_at(code: &[u8], i: usize) -> u8
    requires { Entire code.now i }
    ensures { result ≡ opcode_of code.now i }
{
    code[i + lead(code[i])]
}

// The offset behind the instruction at `i`.
pub fn next_offset(code: &[u8], i: usize) -> usize
    requires { Entire code.now i }
    ensures { result ≡ next code.now i }
{
    let n = digits(code[i]) % SIZE;
    if n == 0 {
        return i + size_behind(code[i], digits(code[i + 1]));
    }
    i + n
}

// Does an instruction begin at `t`?
pub fn begins_at(code: &[u8], flags: &[u8], t: usize) -> bool
    requires { Marked code.now flags.now }
    ensures { result ≡ begins code.now t }
{
    t < code.len() && flags[t] > 0
}

// A jump's operand with 65536 added where it counts forward.
fn signed(s: usize) -> usize
    ensures { (result ≡ signed16 s) × (result ≤ s + 65536) }
{
    if s < 32768 {
        return s + 65536;
    }
    s
}

// Does the jump before `next` go to where an instruction begins?
pub fn lands_at(code: &[u8], flags: &[u8], next: usize) -> bool
    requires marked { Marked code.now flags.now }
    requires le_next { (2 ≤ next) × (next ≤ length code.now) }
    ensures { result ≡ lands_from code.now next }
{
    let s = usize::from(code[next - 2]) * 256 + usize::from(code[next - 1]);
    let j = next + signed(s);
    if j < 65536 {
        return false;
    }
    begins_at(code, flags, j - 65536)
}
