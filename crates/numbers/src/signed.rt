// Signed 32-bit numbers: the floored quotient and remainder, and those of an advance. A divisor is positive, so that what is
// rounded down is Euclid's.
ghost use Rattle.std.specs.Prelude.{◌≡◌, cond, ◌<◌, ◌^◌, pos, ◌+ℤ◌, leb};
ghost use Rattle.std.specs.Int.Signed.{mag};
ghost use Rattle.numbers.specs.Integer.{signed, is_divisor, floor_div, floor_mod};

// The number that 32 bits mean in two's complement.
pub fn signed(u: u32) -> i32
    ensures { result ≡ signed u }
{
    u.cast_signed()
}

// Whether a number can be a divisor.
pub fn is_divisor(d: u32) -> bool
    ensures { result ≡ is_divisor d }
{
    1 <= d && d < 2147483648
}

// The quotient rounded down. By what is no divisor it is 0.
pub fn quotient(x: i32, d: u32) -> i32
    ensures { result ≡ cond (is_divisor d) (floor_div x d) (pos 0) }
{
    if !is_divisor(d) {
        return 0;
    }
    x.div_euclid(d as i32)
}

// What the quotient rounded down leaves. By what is no divisor it is 0.
pub fn remainder(x: i32, d: u32) -> i32
    ensures { result ≡ cond (is_divisor d) (floor_mod x d) (pos 0) }
{
    if !is_divisor(d) {
        return 0;
    }
    x.rem_euclid(d as i32)
}

// The remainder and the numerator of an advance, added exactly.
pub(crate) fn total(remainder: i32, numerator: u16) -> i64
    ensures is { result ≡ remainder +ℤ pos numerator }
    ensures within { mag result < 2 ^ 32 }
{
    (remainder as i64) + (numerator as i64)
}

// The remainder after an advance: what the whole part leaves. By a denominator of 0 it is 0.
pub fn remainder_after(remainder: i32, numerator: u16, denominator: u16) -> i32
    ensures { result ≡ cond (leb 1 denominator) (floor_mod (remainder +ℤ pos numerator) denominator) (pos 0) }
{
    if denominator == 0 {
        return 0;
    }
    total(remainder, numerator).rem_euclid(denominator as i64) as i32
}
