// Conditions 16, 25, 32, 17 and 18 over the code of a record, with a flag for each byte.
#![tactic(auto)]

ghost use Rattle.std.specs.Prelude.{true, false, ◌&&◌, ◌≡◌, ◌+◌, ◌≤◌, ◌<◌, length};
ghost use Rattle.format.specs.Bytes.{byte};
ghost use Rattle.format.specs.Insn.{prefix};
ghost use Rattle.format.specs.Permitted.{permitted_at};
ghost use Rattle.refusal.specs.Number.{refusal_of};
ghost use Rattle.examine_list.specs.Full.{bytes_of};
ghost use Rattle.scan.specs.Scan.{Cleared, Marks, Coded};

use examine_list::FullList;
use flags::{HIGH, OperandLimits, TARGETED, flag_at, lands_at, next_offset, test_behind};
use opcode::digits;
use opcode::parts::SIZE;
use refusal::Refusal;

// The first `n` flags become 0.
fn clear(flags: &mut [u8], n: usize)
    requires { n ≤ length flags.old }
    ensures { Cleared flags.old n flags.new }
{
    flags[..n].fill(0);
}

// An answer about the instructions before `i`, with the one there, which has no prefix: yes where a list permits them all. Both sides are
// always asked, so that a scan has no branch for them.
fn with_alone(all: bool, code: &[u8], i: usize, permitted: &FullList) -> bool
    requires alone { (i < length code.now) × (prefix (byte code.now i) ≡ false) }
    ensures { result ≡ (all && permitted_at (bytes_of permitted.now.answers) code.now i) }
{
    all & permitted.permits(code[i])
}

// The same where it has one: a prefix needs its own yes.
fn with_prefixed(all: bool, code: &[u8], i: usize, permitted: &FullList) -> bool
    requires prefixed { (i + 1 < length code.now) × (prefix (byte code.now i) ≡ true) }
    ensures { result ≡ (all && permitted_at (bytes_of permitted.now.answers) code.now i) }
{
    all & permitted.permits(code[i]) & permitted.permits(code[i + 1])
}

// 16 and 25 over the whole record, then 32 by a list in full, and the flag of each instruction: 0 where none begins.
fn exam_16(
    code: &[u8],
    flags: &mut [u8],
    limits: &OperandLimits,
    permitted: &FullList,
) -> Result<(), Refusal>
    requires code_in_bounds { length code.now ≤ length flags.old }
    ensures { Marks limits.now.by_role (bytes_of permitted.now.answers) code.now flags.new (refusal_of result) }
{
    if code.is_empty() {
        return Err(Refusal::Unreadable);
    }
    clear(flags, code.len());
    // Yes while all opcodes and prefixes so far are permitted.
    let mut all = true;
    // `i` goes over whole instructions, which no range does.
    let mut i = 0;
    while i < code.len() {
        let d = digits(code[i]);
        let n = d % SIZE;
        if n == 0 {
            let t = test_behind(code, i, limits)?;
            flags[i] = t.flag;
            all = with_prefixed(all, code, i, permitted);
            i += t.size;
        } else {
            if code.len() - i < n {
                return Err(Refusal::Unreadable);
            }
            flags[i] = flag_at(code, i, d, limits);
            all = with_alone(all, code, i, permitted);
            i += n;
        }
    }
    if !all {
        return Err(Refusal::NotPermitted);
    }
    Ok(())
}

// 16 and 25 over the whole record, 32 over it, then 17 before 18 at each instruction in turn.
pub fn exam_code(
    code: &[u8],
    flags: &mut [u8],
    limits: &OperandLimits,
    permitted: &FullList,
) -> Result<(), Refusal>
    requires code_in_bounds { length code.now ≤ length flags.old }
    ensures { Coded limits.now.by_role (bytes_of permitted.now.answers) code.now flags.new (refusal_of result) }
{
    exam_16(code, flags, limits, permitted)?;
    for i in 0..code.len() {
        let v = flags[i];
        if v >= HIGH {
            if v == HIGH {
                return Err(Refusal::Operand);
            }
            if v > TARGETED {
                return Err(Refusal::Landing);
            }
            if !lands_at(code, flags, next_offset(code, i)) {
                return Err(Refusal::Landing);
            }
        }
    }
    Ok(())
}
