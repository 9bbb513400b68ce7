// Clocks and their bounds.
ghost use Rattle.std.specs.Prelude.{◌≡◌, Bool, cond, ◌+◌, ◌<◌, min, leb, eqb, drop, Some, None};
ghost use Rattle.lists.specs.Lists.{has, all};
ghost use Rattle.reading.specs.Reading.{byte4, such, skipped};
ghost use Rattle.clocks.specs.Clocks.{clock_limit, is_bound, row, join, join_tables, keeps, reset, later, in_limit, is_zero};
ghost use Rattle.reading.specs.Places.{onward, read_of, reached};

use crate::left::ticks_left;
use lists::mark::has;
use reading::field::{Fault, Read, read_word};

// What no clock passes.
pub const CLOCK_LIMIT: u32 = 2147483647;

// What stands for no bound.
pub const NO_BOUND: u32 = 4294967295;

pub fn is_bound(b: u32) -> bool
    ensures { result ≡ is_bound b }
{
    b <= CLOCK_LIMIT || b == NO_BOUND
}

pub fn read_bound(s: &[u8], at: usize) -> Read<u32>
    ensures { read_of s.now result ≡ such byte4 is_bound (onward s.now at) }
{
    let (b, next) = read_word(s, at)?;
    if is_bound(b) {
        Ok((b, next))
    } else {
        Err(Fault::Range)
    }
}

// The bounds of the declared clocks, as a file is checked.
pub fn read_bounds(s: &[u8], at: usize, clocks: u8) -> Result<usize, Fault>
    ensures { reached s.now tt result ≡ skipped (row clocks (onward s.now at)) }
{
    let mut place = at;
    for _ in 0..clocks {
        let (_, next) = read_bound(s, place)?;
        place = next;
    }
    Ok(place)
}

// The bounds of the first eight of the declared clocks; the others have none.
pub fn read_row(s: &[u8], at: usize, clocks: usize) -> Read<[u32; 8]>
    ensures { read_of s.now result ≡ row (min clocks 8) (onward s.now at) }
{
    let mut row = [NO_BOUND; 8];
    let mut place = at;
    for i in 0..clocks.min(8) {
        let (b, next) = read_bound(s, place)?;
        row[i] = b;
        place = next;
    }
    Ok((row, place))
}

// The least bound for each clock.
pub fn join(a: [u32; 8], b: [u32; 8]) -> [u32; 8]
    ensures { result ≡ join a b }
{
    let mut joined = [0; 8];
    for i in 0..8 {
        joined[i] = a[i].min(b[i]);
    }
    joined
}

// Tables of bounds, joined row by row.
pub fn join_tables(a: [[u32; 8]; 48], b: [[u32; 8]; 48]) -> [[u32; 8]; 48]
    ensures { result ≡ join_tables a b }
{
    let mut joined = a;
    for i in 0..48 {
        joined[i] = join(a[i], b[i]);
    }
    joined
}

// Whether each clock is at most its bound.
pub fn keeps(bounds: [u32; 8], clocks: [u32; 8]) -> bool
    ensures { result ≡ keeps bounds clocks }
{
    for i in 0..8 {
        if ticks_left(bounds[i], clocks[i]).is_none() {
            return false;
        }
    }
    true
}

// The clocks whose bits are set at 0.
pub fn reset(bits: u8, clocks: [u32; 8]) -> [u32; 8]
    ensures { result ≡ reset bits clocks }
{
    let mut after = [0; 8];
    for i in 0..8 {
        after[i] = if has(bits as u32, i as u32) {
            0
        } else {
            clocks[i]
        };
    }
    after
}

// A type of numbers, and which of them is 0.
pub trait IsZero: Copy {
    ghost zero: { Self → Bool };

    fn is_zero(self) -> bool
        ensures { result ≡ zero self };
}

impl IsZero for u8 {
    ghost zero = { λ x. eqb x 0 };

    fn is_zero(self) -> bool {
        self == 0
    }
}

impl IsZero for u32 {
    ghost zero = { λ x. eqb x 0 };

    fn is_zero(self) -> bool {
        self == 0
    }
}

impl IsZero for i32 {
    ghost zero = { is_zero };

    fn is_zero(self) -> bool {
        self == 0
    }
}

// Whether what is past the first `count` is 0, of clocks, of bytes and of the values of variables.
pub fn zero_past<T: IsZero>(count: usize, values: &[T]) -> bool
    ensures { result ≡ all T.zero (drop count values.now) }
{
    for x in &values[count.min(values.len())..] {
        if !x.is_zero() {
            return false;
        }
    }
    true
}

// Whether the first `count` clocks are within the limit.
pub fn in_limit(count: usize, clocks: [u32; 8]) -> bool
    ensures { result ≡ in_limit count clocks }
{
    for i in 0..count.min(8) {
        if clocks[i] > CLOCK_LIMIT {
            return false;
        }
    }
    true
}

// The first `count` clocks so many ticks later, where that is within the limit.
pub fn later(count: usize, ticks: u32, clocks: [u32; 8]) -> Option<[u32; 8]>
    ensures { result ≡ cond (in_limit count (later count ticks clocks)) (Some (later count ticks clocks)) None }
{
    let mut moved = clocks;
    for i in 0..count.min(8) {
        let clock = clocks[i].saturating_add(ticks);
        if clock > CLOCK_LIMIT {
            return None;
        }
        moved[i] = clock;
    }
    Some(moved)
}
