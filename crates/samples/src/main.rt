// Runs paper 01's samples of instructions, packed numbers, line maps and fields that are not proved, and prints what is answered.
#![tactic(auto)]

use binfmt::{u16_at, u32_at};
use insn::Fetched;
use line::{Line, Pos};
use line_packed::Packed;
use number::{i32_at, i64_at};
use number_float::f64_at;
use refusal::Refusal;
use std::fmt::Display;
use std::io;

fn fetch(rt: &impl Print, bin: &[u8]) -> io::Result<()> {
    match insn::fetch(bin) {
        Ok(Fetched::Z) => println!(rt; "fetch Z"),
        Ok(Fetched::B(a)) => println!(rt; "fetch B {a}"),
        Ok(Fetched::BB(a, b)) => println!(rt; "fetch BB {a} {b}"),
        Ok(Fetched::BBB(a, b, c)) => println!(rt; "fetch BBB {a} {b} {c}"),
        Ok(Fetched::BS(a, s)) => println!(rt; "fetch BS {a} {s}"),
        Ok(Fetched::BSS(a, s, t)) => println!(rt; "fetch BSS {a} {s} {t}"),
        Ok(Fetched::S(s)) => println!(rt; "fetch S {s}"),
        Ok(Fetched::W(w)) => println!(rt; "fetch W {w}"),
        Err(e) => println!(rt; "fetch refused {}", u32::from(e)),
    }
}

// Every byte as an opcode, with five bytes behind it.
fn every_opcode(rt: &impl Print) -> io::Result<()> {
    for b in 0u8..=255 {
        fetch(rt, &[b, 1, 2, 3, 4, 5])?;
    }
    Ok(())
}

fn cut_instructions(rt: &impl Print) -> io::Result<()> {
    fetch(rt, b"")?;
    fetch(rt, &[1, 1])?;
    fetch(rt, &[15, 1, 2, 3, 4])?;
    fetch(rt, &[57, 1, 2])?;
    fetch(rt, &[119])?;
    fetch(rt, &[116])
}

fn packed(rt: &impl Print, head: &[u8]) -> io::Result<()> {
    match line_packed::decode_packed_int(head, 0) {
        Ok(Packed { value, next }) => println!(rt; "packed {value} {}", next % 8),
        Err(e) => println!(rt; "packed refused {}", u32::from(e)),
    }
}

fn packed_numbers(rt: &impl Print) -> io::Result<()> {
    packed(rt, b"")?;
    packed(rt, &[0])?;
    packed(rt, &[128, 0])?;
    packed(rt, &[129, 1, 7])?;
    packed(rt, &[255, 255])?;
    packed(rt, &[255, 255, 255, 255, 15])?;
    packed(rt, &[255, 255, 255, 255, 127])?;
    packed(rt, &[255, 255, 255, 255, 143])?;
    packed(rt, &[128, 128, 128, 128, 16])
}

fn line_of(rt: &impl Print, map: &[u32], pos: u32) -> io::Result<()> {
    match line::line_at(map, Pos(pos)) {
        Some(Line(n)) => println!(rt; "line {n}"),
        None => println!(rt; "line none"),
    }
}

fn lines(rt: &impl Print) -> io::Result<()> {
    let map = [0u32, 10, 4, 12, 9, 11];
    line_of(rt, &map, 0)?;
    line_of(rt, &map, 3)?;
    line_of(rt, &map, 4)?;
    line_of(rt, &map, 9)?;
    line_of(rt, &map, 4294967295)?;
    line_of(rt, &[0, 1, 0, 2], 0)?;
    line_of(rt, &[4, 12], 3)?;
    line_of(rt, &[], 3)?;
    line_of(rt, &[4], 9)?;
    line_of(rt, &[5, 1, 0, 2, 9, 3], 4)
}

fn field<T: Display + Drop>(rt: &impl Print, answer: Result<T, Refusal>) -> io::Result<()> {
    match answer {
        Ok(v) => println!(rt; "field {v}"),
        Err(e) => println!(rt; "field refused {}", u32::from(e)),
    }
}

// Whether a field that was read is the number that it should be.
fn is<T: PartialEq + Drop>(
    rt: &impl Print,
    name: &str,
    answer: Result<T, Refusal>,
    n: T,
) -> io::Result<()> {
    match answer {
        Ok(v) => println!(rt; "{name} {}", if v == n { "yes" } else { "no" }),
        Err(e) => println!(rt; "{name} refused {}", u32::from(e)),
    }
}

fn fields(rt: &impl Print) -> io::Result<()> {
    let b = [1u8, 2, 3, 4, 5];
    field(rt, u16_at(&b, 0))?;
    field(rt, u16_at(&b, 3))?;
    field(rt, u16_at(&b, 4))?;
    field(rt, u16_at(&b, 18446744073709551615))?;
    field(rt, u32_at(&b, 1))?;
    field(rt, u32_at(&b, 2))?;
    is(rt, "int32", i32_at(&[0, 0, 1, 2], 0), 258)?;
    is(rt, "int32", i32_at(&[255, 255, 255, 254], 0), -2)?;
    is(rt, "int32", i32_at(&[128, 0, 0, 0], 0), -2147483648)?;
    is(rt, "int32", i32_at(&[0, 0, 1], 0), 0)?;
    is(rt, "int64", i64_at(&[0, 0, 0, 0, 0, 0, 1, 2], 0), 258)?;
    is(
        rt,
        "int64",
        i64_at(&[255, 255, 255, 255, 255, 255, 255, 254], 0),
        -2,
    )?;
    is(rt, "int64", i64_at(&[2, 1, 0, 0, 0, 0, 0, 0], 0), 258)?;
    is(rt, "int64", i64_at(&[0, 0, 0, 0, 0, 0, 1], 0), 0)?;
    is(rt, "float64", f64_at(&[0, 0, 0, 0, 0, 0, 248, 63], 0), 1.5)?;
    is(
        rt,
        "float64",
        f64_at(&[0, 0, 0, 0, 0, 0, 248, 191], 0),
        -1.5,
    )?;
    is(rt, "float64", f64_at(&[1, 0, 0, 0, 0, 0, 248, 127], 0), 1.5)?;
    is(rt, "float64", f64_at(&[0, 0], 0), 1.5)
}

fn main(rt: HostRuntime) -> io::Result<()> {
    every_opcode(&rt)?;
    cut_instructions(&rt)?;
    packed_numbers(&rt)?;
    lines(&rt)?;
    fields(&rt)
}
