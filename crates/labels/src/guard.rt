// Guards: read as a file is checked, and evaluated on variables and clocks.
ghost use Rattle.std.specs.Prelude.{◌≡◌, ◌+◌, ◌^◌, ◌<◌, get_or};
ghost use Rattle.reading.specs.Reading.{mapped, skipped};
ghost use Rattle.expr.specs.Expression.{expression, value};
ghost use Rattle.labels.specs.Guard.{ticks, relation, data_guard, clock_guard, difference_guard, guard, holds};
ghost use Rattle.reading.specs.Places.{onward, read_of, reached};

use expr::expression;
use numbers::relation::Relation;
use numbers::{relation, value};
use reading::field;
use reading::field::{Fault, Read};

// A constant that a clock is compared with.
fn read_ticks(s: &[u8], at: usize) -> Read<u32>
    ensures { read_of s.now result ≡ ticks (onward s.now at) }
{
    let (n, next) = field::read_word(s, at)?;
    if n < 2147483648 {
        Ok((n, next))
    } else {
        Err(Fault::Range)
    }
}

fn read_relation(s: &[u8], at: usize) -> Read<Relation>
    ensures { read_of s.now result ≡ relation (onward s.now at) }
{
    let (code, next) = field::read_below(s, at, 6)?;
    Ok((Relation::of(code), next))
}

fn wide(x: u32) -> u64
    ensures { (result ≡ x) × (result < 2 ^ 32) }
{
    x as u64
}

fn time_of(times: [u32; 8], clock: u8) -> u64
    ensures means { result ≡ get_or (times) clock 0 }
    ensures within { result < 2 ^ 32 }
{
    let i = clock as usize;
    if i < 8 { wide(times[i]) } else { 0 }
}

// A clock and a constant, added exactly.
fn sum_of(time: u64, n: u32) -> u64
    requires { time < 2 ^ 32 }
    ensures { result ≡ time + n }
{
    time + n as u64
}

// What follows the kind of a guard on variables.
fn read_data_guard(s: &[u8], at: usize, variables: u8) -> Result<usize, Fault>
    ensures { reached s.now tt result ≡ skipped (data_guard variables (onward s.now at)) }
{
    let (_, at1) = read_relation(s, at)?;
    let at2 = expression::expression_at(s, at1, variables)?;
    expression::expression_at(s, at2, variables)
}

// What follows the kind of a guard on one clock.
fn clock_guard_holds(s: &[u8], at: usize, clocks: u8, times: [u32; 8]) -> Read<bool>
    ensures { (vars : _) → read_of s.now result ≡ mapped (holds vars (times)) (clock_guard clocks (onward s.now at)) }
{
    let (clock, at1) = field::read_below(s, at, clocks)?;
    let (relation, at2) = read_relation(s, at1)?;
    let (n, at3) = read_ticks(s, at2)?;
    let holds = relation::compare_clocks(relation, time_of(times, clock), n as u64);
    Ok((holds, at3))
}

// What follows the kind of a guard on the difference of two clocks.
fn difference_guard_holds(s: &[u8], at: usize, clocks: u8, times: [u32; 8]) -> Read<bool>
    ensures { (vars : _) → read_of s.now result ≡ mapped (holds vars (times)) (difference_guard clocks (onward s.now at)) }
{
    let (first, at1) = field::read_below(s, at, clocks)?;
    let (second, at2) = field::read_below(s, at1, clocks)?;
    let (relation, at3) = read_relation(s, at2)?;
    let (n, at4) = read_ticks(s, at3)?;
    let later = sum_of(time_of(times, second), n);
    let holds = relation::compare_clocks(relation, time_of(times, first), later);
    Ok((holds, at4))
}

// What follows the kind of a guard on variables.
fn data_guard_holds(s: &[u8], at: usize, variables: u8, values: &[i32; 16]) -> Read<bool>
    ensures { (times : _) → read_of s.now result ≡ mapped (holds values.now times) (data_guard variables (onward s.now at)) }
{
    let (relation, at1) = read_relation(s, at)?;
    let (x, at2) = expression::value_at(s, at1, variables, values)?;
    let (y, at3) = expression::value_at(s, at2, variables, values)?;
    Ok((value::compare_values(relation, x, y), at3))
}

// A guard, as a file is checked. No value is needed, and none is computed on variables.
pub fn read_guard(s: &[u8], at: usize, clocks: u8, variables: u8) -> Result<usize, Fault>
    ensures { reached s.now tt result ≡ skipped (guard clocks variables (onward s.now at)) }
{
    let (kind, from) = field::read_below(s, at, 3)?;
    match kind {
        0 => read_data_guard(s, from, variables),
        1 => {
            let (_, next) = clock_guard_holds(s, from, clocks, [0; 8])?;
            Ok(next)
        }
        _ => {
            let (_, next) = difference_guard_holds(s, from, clocks, [0; 8])?;
            Ok(next)
        }
    }
}

// Whether a guard holds of variables and clocks.
pub fn guard_holds(
    s: &[u8],
    at: usize,
    clocks: u8,
    variables: u8,
    values: &[i32; 16],
    times: [u32; 8],
) -> Read<bool>
    ensures { read_of s.now result ≡ mapped (holds values.now times) (guard clocks variables (onward s.now at)) }
{
    let (kind, from) = field::read_below(s, at, 3)?;
    match kind {
        0 => data_guard_holds(s, from, variables, values),
        1 => clock_guard_holds(s, from, clocks, times),
        _ => difference_guard_holds(s, from, clocks, times),
    }
}
