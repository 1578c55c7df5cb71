// The choices of a run, and what each does to the top frame.
#![tactic(auto)]

ghost use Rattle.std.specs.Prelude.{◌≡◌, [], ◌+◌, ◌*◌, ◌<◌, ◌≤◌, length, get_or};
ghost use Rattle.format.specs.Insn.{target};
ghost use Rattle.format.specs.Lookup as table;
ghost use Rattle.format.specs.Tree.{child_of};
ghost use Rattle.format.specs.Run as format;
ghost use Rattle.format.specs.Rows.{record_width};
ghost use Rattle.runs.specs.Stack.{Stands, Jumps};
ghost use Rattle.opcode.specs.Rows.{row_of};
ghost use Rattle.exam.specs.View.{targets, code_at, rlens_at};
ghost use Rattle.moves.specs.Answers.{choice_of, move_of, child_among, child_number, ReadAt};
ghost use Rattle.moves.specs.Part.{part, part_at};

use exam::word;
use flags::{next_offset, opcode_at, operand_at};
use format::RECORD_WIDTH;
use opcode::{Flow, OpRow, Role, first_width, lead, op_row, second_width};
use refusal::Refusal;

// A choice. Caught has the handler's number.
#[derive(Clone, Copy)]
pub enum Choice {
    GoOn,
    Jump,
    Enter,
    Caught(usize),
    Leave,
}

// A choice and the place after it.
#[derive(Clone, Copy)]
pub struct Read {
    pub choice: Choice,
    pub next: usize,
}

// What a choice does to the top frame: it goes; it passes to an offset; it passes to an offset and a child, by its number, is entered.
#[derive(Clone, Copy)]
pub enum Moved {
    Gone,
    To(usize),
    Into { child: usize, offset: usize },
}

// Which operand of an opcode numbers a child.
#[derive(Clone, Copy)]
enum Operand {
    Second,
    Third,
}

// The choice of kind 3 at `i`: its body is a handler's number in two bytes, high byte first.
fn caught_at(choices: &[u8], i: usize) -> Result<Read, Refusal>
    requires { (i < length choices.now) × (get_or choices.now i 0 ≡ 3) }
    ensures { ReadAt choices.now i result }
{
    if choices.len() - i < 3 {
        return Err(Refusal::Choice);
    }
    let h = usize::from(choices[i + 1]) * 256 + usize::from(choices[i + 2]);
    Ok(Read {
        choice: Choice::Caught(h),
        next: i + 3,
    })
}

// The choice at `i`: 21 where its kind is above 4 or its body cut.
pub fn choice_at(choices: &[u8], i: usize) -> Result<Read, Refusal>
    requires { i < length choices.now }
    ensures { ReadAt choices.now i result }
{
    let choice = match choices[i] {
        0 => Choice::GoOn,
        1 => Choice::Jump,
        2 => Choice::Enter,
        3 => return caught_at(choices, i),
        4 => Choice::Leave,
        _ => return Err(Refusal::Choice),
    };
    let next = i + 1;
    Ok(Read { choice, next })
}

// Where the jump at `o` goes: its last two bytes are added to the next offset, signed.
#[tactic(auto, using(runs::proofs::Jumps::room))]
fn jump_target(code: &[u8], o: usize) -> usize
    requires { Jumps code.now o }
    ensures { result ≡ target code.now o }
{
    let next = next_offset(code, o);
    let at = next - 2;
    let s = usize::from(code[at]) * 256 + usize::from(code[at + 1]);
    if s < 32768 {
        next + s
    } else {
        next + s - 65536
    }
}

// Choice 0: an ending opcode leaves, JMP and JMPUW jump, others pass to the next offset.
fn go_on(code: &[u8], o: usize) -> Moved
    requires { Stands code.now o }
    ensures { move_of result ≡ format.move (part code.now []) o format.go_on }
{
    match op_row(opcode_at(code, o)).flow {
        Flow::On | Flow::May => Moved::To(next_offset(code, o)),
        Flow::Ends => Moved::Gone,
        Flow::Jumps => Moved::To(jump_target(code, o)),
    }
}

// Choice 1: JMPIF, JMPNOT and JMPNIL jump.
fn jump(code: &[u8], o: usize) -> Moved
    requires { Stands code.now o }
    ensures { move_of result ≡ format.move (part code.now []) o format.jump }
{
    match op_row(opcode_at(code, o)).flow {
        Flow::On | Flow::Ends | Flow::Jumps => go_on(code, o),
        Flow::May => Moved::To(jump_target(code, o)),
    }
}

// Which operand numbers a child, if one does.
fn child_operand(op: OpRow) -> Option<Operand>
    ensures { result ≡ child_among (row_of op) }
{
    if op.second == Role::Child {
        return Some(Operand::Second);
    }
    if op.third == Role::Child {
        return Some(Operand::Third);
    }
    None
}

// The number that an operand of the instruction at `o` holds.
fn child_number(code: &[u8], o: usize, operand: Operand) -> usize
    requires { o < length code.now }
    ensures { result ≡ child_number code.now o operand }
{
    let b = code[o];
    let second = o + lead(b) + 1 + first_width(b);
    let width = second_width(b);
    match operand {
        Operand::Second => operand_at(code, second, width),
        Operand::Third => operand_at(code, second + width, 1),
    }
}

// Choice 2: at an opcode with a child operand the child is entered.
fn enter(code: &[u8], o: usize) -> Moved
    requires { Stands code.now o }
    ensures { move_of result ≡ format.move (part code.now []) o format.enter }
{
    match child_operand(op_row(opcode_at(code, o))) {
        None => go_on(code, o),
        Some(operand) => {
            let child = child_number(code, o, operand);
            let offset = next_offset(code, o);
            Moved::Into { child, offset }
        }
    }
}

// Choice 3: handler `h` of the record's `number`, which stand from row `first` on, has its target taken.
fn caught(code: &[u8], o: usize, h: usize, handlers: &[u32], first: usize, number: usize) -> Moved
    requires stands { Stands code.now o }
    requires number_in_bounds { (first + number) * 4 ≤ length handlers.now }
    ensures { move_of result ≡ format.move (part code.now (targets handlers.now first number)) o (format.caught h) }
{
    if h < number {
        let target = word(handlers, (first + h) * 4 + 3);
        return Moved::To(target);
    }
    go_on(code, o)
}

// What a choice does to a frame at `o`, in a record of these instruction bytes and of `number` handlers from row `first` on.
fn move_at(
    code: &[u8],
    o: usize,
    choice: Choice,
    handlers: &[u32],
    first: usize,
    number: usize,
) -> Moved
    requires stands { Stands code.now o }
    requires number_in_bounds { (first + number) * 4 ≤ length handlers.now }
    ensures { move_of result ≡ format.move (part code.now (targets handlers.now first number)) o (choice_of choice) }
{
    match choice {
        Choice::GoOn => go_on(code, o),
        Choice::Jump => jump(code, o),
        Choice::Enter => enter(code, o),
        Choice::Caught(h) => caught(code, o, h, handlers, first, number),
        Choice::Leave => Moved::Gone,
    }
}

// What a choice does to a frame at `o` of record `r`.
pub fn move_in(
    file: &[u8],
    records: &[u32],
    handlers: &[u32],
    r: usize,
    o: usize,
    choice: Choice,
) -> Moved
    requires record_width_in_bounds { r * record_width + record_width ≤ length records.now }
    requires r_in_bounds { table.record_word records.now r 6 + table.record_word records.now r 5 ≤ length file.now }
    requires r_in_bounds_2 { (table.record_word records.now r 7 + table.record_word records.now r 8) * 4 ≤ length handlers.now }
    requires stands { Stands (code_at file.now records.now r) o }
    ensures { move_of result ≡ format.move (part_at file.now records.now handlers.now r) o (choice_of choice) }
{
    let row = r * RECORD_WIDTH;
    let place = word(records, row + 6);
    let end = place + word(records, row + 5);
    let first = word(records, row + 7);
    let number = word(records, row + 8);
    move_at(&file[place..end], o, choice, handlers, first, number)
}

// The loop is by index, as the index is the answer.
// Child `k` of record `r`: the next child starts where the previous one's subtree ends. `trees` are the subtrees still to pass.
pub fn child_at(records: &[u32], n: usize, r: usize, k: usize) -> usize
    requires { (n ≤ 1024) × (n * record_width ≤ length records.now) × (r < n) × (k < 4294967296) }
    ensures { result ≡ child_of (rlens_at records.now n) r k }
{
    let mut trees = k;
    for i in r + 1..n {
        if trees == 0 {
            return i;
        }
        let rlen = word(records, i * RECORD_WIDTH + 3);
        trees = trees - 1 + rlen;
    }
    n
}
