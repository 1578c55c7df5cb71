// What is known of each opcode byte: operand kind, what its operands number, where a run goes on, size; and what each prefix says.
#![tactic(auto)]

ghost use Rattle.std.specs.Prelude.{◌≡◌, ◌<◌};
ghost use Rattle.format.specs.Insn as format;
ghost use Rattle.opcode.specs.Digits.{role_at, kind_at, flow_at, digits_of};
ghost use Rattle.opcode.specs.Rows.{role_of, flow_of, row_of, op_row};
ghost use Rattle.opcode_kind.specs.Kinds.{kind_of};

pub use opcode_kind::Kind;

pub mod names;
pub mod parts;

use names::*;
use parts::*;

// What an operand numbers.
#[derive(Clone, Copy, Debug, PartialEq, Eq)]
pub enum Role {
    Plain,
    Reg,
    Pool,
    Sym,
    Child,
}

// Where a run goes on: to the next offset; nowhere; to the jump target; to the next offset or the jump target.
#[derive(Clone, Copy, Debug, PartialEq, Eq)]
pub enum Flow {
    On,
    Ends,
    Jumps,
    May,
}

// Operand kind of an opcode, roles of its operands, and where a run goes on. An operand that it lacks is plain.
#[derive(Clone, Copy, Debug, PartialEq, Eq)]
pub struct OpRow {
    pub kind: Kind,
    pub first: Role,
    pub second: Role,
    pub third: Role,
    pub flow: Flow,
}

// Operand kinds by number, each with the size that `Kind::size` answers: a constant cannot call it.
const Z: usize = Kind::Z as usize * KIND + 1;

const BB: usize = Kind::BB as usize * KIND + FIRST_BYTE + SECOND_BYTE + 3;

const B: usize = Kind::B as usize * KIND + FIRST_BYTE + 2;

const BS: usize = Kind::BS as usize * KIND + FIRST_BYTE + 4;

const BSS: usize = Kind::BSS as usize * KIND + FIRST_BYTE + 6;

const BBB: usize = Kind::BBB as usize * KIND + FIRST_BYTE + SECOND_BYTE + 4;

const S: usize = Kind::S as usize * KIND + 3;

const W: usize = Kind::W as usize * KIND + 4;

// Where a run goes on, as the flags of an instruction that goes there.
const ON: usize = PASSES * INSIDE + PAST * LAST;

const ENDS: usize = PASSES * INSIDE + PASSES * LAST;

const JUMPS: usize = TARGET * INSIDE + TARGET * LAST;

const MAY: usize = TARGET * INSIDE + PAST * LAST;

// The digits that occur, by operand kind, roles that are not plain, and where a run goes on if not to the next offset.
const Z_ON: usize = Z + ON;

const Z_ENDS: usize = Z + ENDS;

const BB_REG: usize = BB + REG * FIRST + ON;

const BB_REG_REG: usize = BB_REG + REG * SECOND;

const BB_REG_POOL: usize = BB_REG + POOL * SECOND;

const BB_REG_SYM: usize = BB_REG + SYM * SECOND;

const BB_REG_CHILD: usize = BB_REG + CHILD * SECOND;

const BB_SYM_SYM: usize = BB + SYM * FIRST + SYM * SECOND + ON;

const BB_PAIR_SYM: usize = BB + PAIR * FIRST + SYM * SECOND + ON;

const B_REG: usize = B + REG * FIRST + ON;

const B_PAIR: usize = B + PAIR * FIRST + ON;

const B_TRIPLE: usize = B + TRIPLE * FIRST + ON;

const B_REG_ENDS: usize = B + REG * FIRST + ENDS;

const B_POOL_ENDS: usize = B + POOL * FIRST + ENDS;

const B_SYM: usize = B + SYM * FIRST + ON;

const BS_REG: usize = BS + REG * FIRST + ON;

const BS_REG_MAY: usize = BS + REG * FIRST + MAY;

const BSS_REG: usize = BSS + REG * FIRST + ON;

const BBB_ON: usize = BBB + ON;

const BBB_REG: usize = BBB + REG * FIRST + ON;

const BBB_REG_REG: usize = BBB_REG + REG * SECOND;

const BBB_REG_SYM: usize = BBB_REG + SYM * SECOND;

const BBB_REG_SYM_CHILD: usize = BBB_REG_SYM + CHILD * THIRD;

const S_JUMPS: usize = S + JUMPS;

const W_ON: usize = W + ON;

// And with the registers that an opcode names by its operands.
const BBB_SEND: usize = (NUMBER + OF_FIRST + ARGUMENTS_OF_THIRD) * FORM + BBB_REG_SYM;

const BBB_SENDB: usize = (2 * NUMBER + OF_FIRST + ARGUMENTS_OF_THIRD) * FORM + BBB_REG_SYM;

const BB_SUPER: usize = (2 * NUMBER + OF_FIRST + ARGUMENTS_OF_SECOND) * FORM + BB_REG;

const BB_ARRAY: usize = (OF_FIRST + OF_SECOND) * FORM + BB_REG;

const BBB_ARRAY2: usize = (OF_SECOND + OF_THIRD) * FORM + BBB_REG_REG;

const BB_PUSH: usize = (NUMBER + OF_FIRST + OF_SECOND) * FORM + BB_REG;

const BBB_POST: usize = (NUMBER + OF_FIRST + OF_THIRD) * FORM + BBB_REG;

const BB_HASH: usize = (OF_FIRST + 2 * OF_SECOND) * FORM + BB_REG;

const BB_HASHADD: usize = (NUMBER + OF_FIRST + 2 * OF_SECOND) * FORM + BB_REG;

// A prefix and a byte above 118 are no instruction by themselves: NOP's row without a size.
const NO_SIZE: usize = ON;

// The digits of an opcode byte. Its size is 0 where it is no instruction by itself.
// A line for each opcode, in the order of ops.h; arms joined by | are no plainer, and their proof does not close by itself.
#[tactic(auto, unfolding(format::specs::Insn::row, format::specs::Insn::table, format::specs::Registers::form, format::specs::Registers::comments), using(crate::proofs::Numbers::above))]
pub fn digits(b: u8) -> usize
    ensures { result ≡ digits_of b }
{
    match b {
        NOP => Z_ON,
        MOVE => BB_REG_REG,
        LOADL => BB_REG_POOL,
        LOADI => BB_REG,
        LOADINEG => BB_REG,
        LOADI__1 => B_REG,
        LOADI_0 => B_REG,
        LOADI_1 => B_REG,
        LOADI_2 => B_REG,
        LOADI_3 => B_REG,
        LOADI_4 => B_REG,
        LOADI_5 => B_REG,
        LOADI_6 => B_REG,
        LOADI_7 => B_REG,
        LOADI16 => BS_REG,
        LOADI32 => BSS_REG,
        LOADSYM => BB_REG_SYM,
        LOADNIL => B_REG,
        LOADSELF => B_REG,
        LOADT => B_REG,
        LOADF => B_REG,
        GETGV => BB_REG_SYM,
        SETGV => BB_REG_SYM,
        GETSV => BB_REG_SYM,
        SETSV => BB_REG_SYM,
        GETIV => BB_REG_SYM,
        SETIV => BB_REG_SYM,
        GETCV => BB_REG_SYM,
        SETCV => BB_REG_SYM,
        GETCONST => BB_REG_SYM,
        SETCONST => BB_REG_SYM,
        GETMCNST => BB_REG_SYM,
        SETMCNST => BB_PAIR_SYM,
        GETUPVAR => BBB_REG,
        SETUPVAR => BBB_REG,
        GETIDX => B_PAIR,
        GETIDX0 => BB_REG_REG,
        SETIDX => B_TRIPLE,
        JMP => S_JUMPS,
        JMPIF => BS_REG_MAY,
        JMPNOT => BS_REG_MAY,
        JMPNIL => BS_REG_MAY,
        JMPUW => S_JUMPS,
        EXCEPT => B_REG,
        RESCUE => BB_REG_REG,
        RAISEIF => B_REG,
        MATCHERR => B_REG,
        SSEND => BBB_SEND,
        SSEND0 => BB_REG_SYM,
        SSENDB => BBB_SENDB,
        SEND => BBB_SEND,
        SEND0 => BB_REG_SYM,
        SENDB => BBB_SENDB,
        CALL => Z_ENDS,
        BLKCALL => BB_REG,
        SUPER => BB_SUPER,
        ARGARY => BS_REG,
        ENTER => W_ON,
        KEY_P => BB_REG_SYM,
        KEYEND => Z_ON,
        KARG => BB_REG_SYM,
        RETURN => B_REG_ENDS,
        RETURN_BLK => B_REG_ENDS,
        RETSELF => Z_ENDS,
        RETNIL => Z_ENDS,
        RETTRUE => Z_ENDS,
        RETFALSE => Z_ENDS,
        BREAK => B_REG_ENDS,
        BLKPUSH => BS_REG,
        ADD => B_PAIR,
        ADDI => BB_REG,
        SUB => B_PAIR,
        SUBI => BB_REG,
        ADDILV => BBB_REG,
        SUBILV => BBB_REG,
        MUL => B_PAIR,
        DIV => B_PAIR,
        EQ => B_PAIR,
        LT => B_PAIR,
        LE => B_PAIR,
        GT => B_PAIR,
        GE => B_PAIR,
        ARRAY => BB_ARRAY,
        ARRAY2 => BBB_ARRAY2,
        ARYCAT => B_PAIR,
        ARYPUSH => BB_PUSH,
        ARYSPLAT => B_REG,
        AREF => BBB_REG_REG,
        ASET => BBB_REG_REG,
        APOST => BBB_POST,
        INTERN => B_REG,
        SYMBOL => BB_REG_POOL,
        STRING => BB_REG_POOL,
        STRCAT => B_PAIR,
        HASH => BB_HASH,
        HASHADD => BB_HASHADD,
        HASHCAT => B_PAIR,
        LAMBDA => BB_REG_CHILD,
        BLOCK => BB_REG_CHILD,
        METHOD => BB_REG_CHILD,
        RANGE_INC => B_PAIR,
        RANGE_EXC => B_PAIR,
        OCLASS => B_REG,
        CLASS => BB_PAIR_SYM,
        MODULE => BB_REG_SYM,
        EXEC => BB_REG_CHILD,
        DEF => BB_PAIR_SYM,
        TDEF => BBB_REG_SYM_CHILD,
        SDEF => BBB_REG_SYM_CHILD,
        ALIAS => BB_SYM_SYM,
        UNDEF => B_SYM,
        SCLASS => B_REG,
        TCLASS => B_REG,
        DEBUG => BBB_ON,
        ERR => B_POOL_ENDS,
        EXT1 => NO_SIZE,
        EXT2 => NO_SIZE,
        EXT3 => NO_SIZE,
        STOP => Z_ENDS,
        _ => NO_SIZE,
    }
}

// The role of this number: one that is tested with what stands behind it is a register's.
fn role_of(n: usize) -> Role
    ensures { role_of result ≡ role_at n }
{
    match n {
        PLAIN => Role::Plain,
        REG => Role::Reg,
        POOL => Role::Pool,
        SYM => Role::Sym,
        CHILD => Role::Child,
        _ => Role::Reg,
    }
}

// The operand kinds by number. A digit of the table is below 8, so that no error is left for a TryFrom.
const KINDS: [Kind; 8] = [
    Kind::Z,
    Kind::BB,
    Kind::B,
    Kind::BS,
    Kind::BSS,
    Kind::BBB,
    Kind::S,
    Kind::W,
];

// The operand kind of this number.
fn kind_of(n: usize) -> Kind
    requires { n < 8 }
    ensures { kind_of result ≡ kind_at n }
{
    KINDS[n]
}

// Where a run goes on, by the flags inside a record and at its end.
fn flow_of(inside: usize, last: usize) -> Flow
    ensures { flow_of result ≡ flow_at inside last }
{
    match (inside, last) {
        (_, PASSES) => Flow::Ends,
        (_, TARGET) => Flow::Jumps,
        (PASSES, _) => Flow::On,
        _ => Flow::May,
    }
}

// The row of an opcode byte. It is part of its caller, so that one that asks for a field does not make the others.
#[inline(always)]
#[tactic(auto, using(crate::proofs::Rows::row_told))]
pub fn op_row(b: u8) -> OpRow
    ensures { row_of result ≡ op_row b }
{
    let d = digits(b);
    let kind = kind_of(d / KIND % BASE);
    let first = role_of(d / FIRST % BASE);
    let second = role_of(d / SECOND % BASE);
    let third = role_of(d / THIRD % BASE);
    let flow = flow_of(d / INSIDE % BASE, d / LAST % BASE);
    OpRow {
        kind,
        first,
        second,
        third,
        flow,
    }
}

// How many bytes the instruction of an opcode byte has, that byte with them.
pub fn size(b: u8) -> usize
    ensures { result ≡ format.size b }
{
    op_row(b).kind.size()
}

// What the first byte of an instruction says of it: how many bytes stand before its opcode byte,
pub fn lead(b: u8) -> usize
    ensures { result ≡ format.lead b }
{
    match b {
        EXT1 | EXT2 | EXT3 => 1,
        _ => 0,
    }
}

// how many bytes a first operand has that is a byte without a prefix,
pub fn first_width(b: u8) -> usize
    ensures { result ≡ format.first_width b }
{
    match b {
        EXT1 | EXT3 => 2,
        _ => 1,
    }
}

// and a second one.
pub fn second_width(b: u8) -> usize
    ensures { result ≡ format.second_width b }
{
    match b {
        EXT2 | EXT3 => 2,
        _ => 1,
    }
}
