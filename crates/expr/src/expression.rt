// Expressions: prefix codes, read and evaluated from the front of a part of a record. The evaluator reads on after a value that
// is none: the other side of a guard, or the next guard or update, begins after the expression. So it is held to `mapped` of the
// reader, and the faults that it tells are the reader's.
ghost use Rattle.std.specs.Prelude.{◌≡◌, ◌≤◌, ◌<◌, pos, length, get_or, ltb, Some};
ghost use Rattle.reading.specs.Reading.{byte, byte4, such, mapped, skipped};
ghost use Rattle.numbers.specs.Integer.{signed};
ghost use Rattle.numbers.specs.Value.{divided};
ghost use Rattle.expr.specs.Expression.{divisor, expression, value};
ghost use Rattle.reading.specs.Places.{onward, read_of, end_of, reached, reached_end};

use numbers::signed::{is_divisor, signed};
use numbers::value::{combine, divide};
use reading::field::{Fault, Read, read_below, read_word};

// How deep an expression may nest, a constant or a variable being one level.
pub const LEVELS: u8 = 8;

// The signed number whose bits are the four bytes.
fn read_signed(s: &[u8], at: usize) -> Read<Option<i32>>
    ensures means { read_of s.now result ≡ mapped (λ x. Some (signed x)) (byte4 (onward s.now at)) }
    ensures within { end_of result ≤ length s.now }
{
    let (x, next) = read_word(s, at)?;
    Ok((Some(signed(x)), next))
}

// A constant of four bytes.
fn read_constant(s: &[u8], at: usize) -> Result<usize, Fault>
    ensures means { reached s.now tt result ≡ skipped (byte4 (onward s.now at)) }
    ensures within { reached_end result ≤ length s.now }
{
    let (_, next) = read_word(s, at)?;
    Ok(next)
}

// The number of a variable.
fn read_variable(s: &[u8], at: usize, variables: u8) -> Result<usize, Fault>
    ensures means { reached s.now tt result ≡ skipped (such byte (λ i. ltb i variables) (onward s.now at)) }
    ensures within { reached_end result ≤ length s.now }
{
    let (_, next) = read_below(s, at, variables)?;
    Ok(next)
}

// The divisor of a quotient or remainder, in front of s.
fn read_divisor(s: &[u8]) -> Read<u32>
    ensures means { read_of s.now result ≡ divisor s.now }
    ensures within { end_of result ≤ length s.now }
{
    let (d, next) = read_word(s, 0)?;
    if is_divisor(d) {
        Ok((d, next))
    } else {
        Err(Fault::Range)
    }
}

// An expression in front of s, nested at most so many levels, over so many variables.
pub fn read_expression(s: &[u8], levels: u8, variables: u8) -> Result<usize, Fault>
    ensures means { reached s.now tt result ≡ skipped (expression variables levels s.now) }
    ensures within { reached_end result ≤ length s.now }
{
    if s.len() == 0 {
        return Err(Fault::Length);
    }
    if levels == 0 {
        return Err(Fault::Range);
    }
    match s[0] {
        0 => read_constant(s, 1),
        1 => read_variable(s, 1, variables),
        2 | 3 | 4 => {
            let n = read_expression(&s[1..], levels - 1, variables)?;
            let m = read_expression(&s[1 + n..], levels - 1, variables)?;
            Ok(1 + n + m)
        }
        5 | 6 => {
            let n = read_expression(&s[1..], levels - 1, variables)?;
            let (_, m) = read_divisor(&s[1 + n..])?;
            Ok(1 + n + m)
        }
        _ => Err(Fault::Range),
    }
}

// The value of a variable; 0 past those that the array has.
pub fn variable_value(i: u8, values: [i32; 16]) -> i32
    ensures { result ≡ get_or values i (pos 0) }
{
    if i < 16 { values[i as usize] } else { 0 }
}

// The value of the variable whose number stands at a place.
fn evaluate_variable(s: &[u8], at: usize, variables: u8, values: &[i32; 16]) -> Read<Option<i32>>
    ensures means { read_of s.now result ≡ mapped (λ i. Some (get_or values.now i (pos 0))) (such byte (λ i. ltb i variables) (onward s.now at)) }
    ensures within { end_of result ≤ length s.now }
{
    let (i, next) = read_below(s, at, variables)?;
    Ok((Some(variable_value(i, *values)), next))
}

// The quotient or remainder, by the code, with the divisor in front of s.
fn divide_by(s: &[u8], code: u8, x: Option<i32>) -> Read<Option<i32>>
    ensures means { read_of s.now result ≡ mapped (divided code x) (divisor s.now) }
    ensures within { end_of result ≤ length s.now }
{
    let (d, next) = read_divisor(s)?;
    Ok((divide(code, x, d), next))
}

// The value of the expression in front of s.
pub fn evaluate(s: &[u8], levels: u8, variables: u8, values: &[i32; 16]) -> Read<Option<i32>>
    ensures means { read_of s.now result ≡ mapped (value values.now) (expression variables levels s.now) }
    ensures within { end_of result ≤ length s.now }
{
    if s.len() == 0 {
        return Err(Fault::Length);
    }
    if levels == 0 {
        return Err(Fault::Range);
    }
    let code = s[0];
    match code {
        0 => read_signed(s, 1),
        1 => evaluate_variable(s, 1, variables, values),
        2 | 3 | 4 => {
            let (x, n) = evaluate(&s[1..], levels - 1, variables, values)?;
            let (y, m) = evaluate(&s[1 + n..], levels - 1, variables, values)?;
            Ok((combine(code, x, y), 1 + n + m))
        }
        5 | 6 => {
            let (x, n) = evaluate(&s[1..], levels - 1, variables, values)?;
            let (z, m) = divide_by(&s[1 + n..], code, x)?;
            Ok((z, 1 + n + m))
        }
        _ => Err(Fault::Range),
    }
}

// The expression at a place.
pub fn expression_at(s: &[u8], at: usize, variables: u8) -> Result<usize, Fault>
    ensures { reached s.now tt result ≡ skipped (expression variables 8 (onward s.now at)) }
{
    if s.len() < at {
        return Err(Fault::Length);
    }
    let n = read_expression(&s[at..], LEVELS, variables)?;
    Ok(at + n)
}

// The value of the expression at a place.
pub fn value_at(s: &[u8], at: usize, variables: u8, values: &[i32; 16]) -> Read<Option<i32>>
    ensures { read_of s.now result ≡ mapped (value values.now) (expression variables 8 (onward s.now at)) }
{
    if s.len() < at {
        return Err(Fault::Length);
    }
    let (z, n) = evaluate(&s[at..], LEVELS, variables, values)?;
    Ok((z, at + n))
}
