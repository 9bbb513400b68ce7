// The value of an expression: a number, or none where the exact result of an operation in it is outside signed 32 bits.
ghost use Rattle.std.specs.Prelude.{◌≡◌, cond, pos, ◌+ℤ◌, leb, None};
ghost use Rattle.numbers.specs.Integer.{is_divisor, floor_div};
ghost use Rattle.numbers.specs.Value.{exactly, of_one, combined, divided, compared};

use crate::relation::{Relation, compare};
use crate::signed::{quotient, remainder, total};

// The sum, difference or product, by the code.
pub fn combine(code: u8, x: Option<i32>, y: Option<i32>) -> Option<i32>
    ensures { result ≡ combined code x y }
{
    let a = x?; // whatever y is, also 0
    let b = y?; // whatever x is, also 0
    match code {
        2 => a.checked_add(b),
        3 => a.checked_sub(b),
        _ => a.checked_mul(b),
    }
}

// The quotient or remainder, by the code. By what is no divisor a number gives 0.
pub fn divide(code: u8, x: Option<i32>, d: u32) -> Option<i32>
    ensures { result ≡ cond (is_divisor d) (divided code x d) (of_one (λ z. pos 0) x) }
{
    let z = x?;
    if code == 5 {
        Some(quotient(z, d))
    } else {
        Some(remainder(z, d))
    }
}

// The steps after an advance: the whole part is added. By a denominator of 0 they have no value.
pub fn steps_after(steps: i32, remainder: i32, numerator: u16, denominator: u16) -> Option<i32>
    ensures { result ≡ cond (leb 1 denominator) (exactly (steps +ℤ floor_div (remainder +ℤ pos numerator) denominator)) None }
{
    if denominator == 0 {
        return None;
    }
    let sum = total(remainder, numerator);
    i32::try_from(steps as i64 + sum.div_euclid(denominator as i64)).ok()
}

// Whether two values stand in a relation: no relation holds of what has none.
pub fn compare_values(relation: Relation, x: Option<i32>, y: Option<i32>) -> bool
    ensures { result ≡ compared relation x y }
{
    let (Some(a), Some(b)) = (x, y) else {
        return false; // whatever the other is
    };
    compare(relation, a, b)
}
