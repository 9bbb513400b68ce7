// Expressions, guards, updates and labels, from the bytes of a file.
use crate::case::Case;
use crate::show::{fault, none, number, signed_number, truth};
use expr::expression;
use labels::label::Limits;
use labels::{guard, label};
use numbers::{signed, value};
use std::io;
use std::io::Write;

// The first two of sixteen variables.
fn variables(a: i32, b: i32) -> [i32; 16] {
    let mut values = [0; 16];
    values[0] = a;
    values[1] = b;
    values
}

// The first two of eight clocks.
fn clocks(x: u32, y: u32) -> [u32; 8] {
    let mut times = [0; 8];
    times[0] = x;
    times[1] = y;
    times
}

// A value: a number, or that there is none.
fn value_or_none(out: &mut impl Write, x: Option<i32>) -> io::Result<()> {
    match x {
        Some(z) => signed_number(out, z),
        None => none(out),
    }
}

// The value of an expression where a is -7 and b is 8, and how many bytes it takes.
pub fn show_value(out: &mut impl Write, s: &[u8]) -> io::Result<()> {
    let values = variables(-7, 8);
    match expression::evaluate(s, expression::LEVELS, 16, &values) {
        Ok((x, n)) => {
            value_or_none(out, x)?;
            number(out, n as u64)
        }
        Err(f) => fault(out, f),
    }
}

// How many bytes an expression takes, as a file is checked.
pub fn show_expression(out: &mut impl Write, s: &[u8]) -> io::Result<()> {
    match expression::read_expression(s, expression::LEVELS, 16) {
        Ok(n) => number(out, n as u64),
        Err(f) => fault(out, f),
    }
}

// Whether a guard holds where a is 3 and b is 5, and the clocks are at 7 and 4.
pub fn show_guard(out: &mut impl Write, s: &[u8]) -> io::Result<()> {
    let values = variables(3, 5);
    match guard::guard_holds(s, 0, 8, 16, &values, clocks(7, 4)) {
        Ok((b, n)) => {
            truth(out, b)?;
            number(out, n as u64)
        }
        Err(f) => fault(out, f),
    }
}

// Whether the updates of a label's body stay in the range, and the first two variables after them, from 3 and 8, in a file
// of version 2. The variables are 0 where there is no number for them; no step stores that.
pub fn show_assigned(out: &mut impl Write, s: &[u8]) -> io::Result<()> {
    let values = variables(3, 8);
    let limits = Limits {
        version: 2,
        clocks: 0,
        variables: 16,
    };
    let after = label::assigned(s, 0, limits, values, values);
    truth(out, after.within)?;
    signed_number(out, after.values[0])?;
    signed_number(out, after.values[1])
}

// An advance of steps and a remainder, in two's complement, by a ratio.
pub fn show_advance(out: &mut impl Write, case: &Case) -> io::Result<()> {
    let x = signed::signed(case.word(0));
    let y = signed::signed(case.word(1));
    let p = (case.word(2) % 65536) as u16;
    let q = (case.word(3) % 65536) as u16;
    value_or_none(out, value::steps_after(x, y, p, q))?;
    signed_number(out, signed::remainder_after(y, p, q))
}

// A label of a file's version, with one clock, two variables and three channels: where its body stands, and rule 13.
pub fn show_label(out: &mut impl Write, s: &[u8]) -> io::Result<()> {
    if s.len() == 0 {
        return Ok(());
    }
    let limits = Limits {
        version: s[0],
        clocks: 1,
        variables: 2,
    };
    match label::read_label(&s[1..], 0, limits, 3) {
        Ok((k, next)) => {
            number(out, k.body as u64)?;
            truth(out, k.once)?;
            number(out, next as u64)
        }
        Err(f) => fault(out, f),
    }
}
