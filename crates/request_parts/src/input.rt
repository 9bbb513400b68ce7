// The parts of a request. A slice that ends early reads as if zeros followed.
ghost use Rattle.std.specs.Prelude.{◌≡◌, ◌≤◌, map, ◌*◌, length, take};
ghost use Rattle.lists.specs.Lists.{below};
ghost use Rattle.reading.specs.Reading.{framed, byte4};
ghost use Rattle.reading.specs.Places.{onward, part_of, end_of};
ghost use Rattle.request_parts.specs.Parts.{byte_at, short_at, word_at, mark_at, value_at};

use reading::field::{Read, byte_at, part, read_word, short_of, word_of};
use std::array;

// A file's length, in four bytes, and its bytes.
pub fn read_file(s: &[u8], at: usize) -> Read<&[u8]>
    ensures means { part_of s.now result ≡ framed byte4 (onward s.now at) }
    ensures within { end_of result ≤ length s.now }
{
    let (size, from) = read_word(s, at)?;
    part(s, from, size as usize)
}

// The i-th number of two bytes.
pub fn short(s: &[u8], i: u16) -> u16
    ensures { result ≡ short_at s.now (2 * i) }
{
    let at = 2 * (i as usize);
    short_of(byte_at(s, at), byte_at(s, at + 1))
}

// The i-th number of four bytes.
pub fn word(s: &[u8], i: u8) -> u32
    ensures { result ≡ word_at s.now (4 * i) }
{
    let at = 4 * (i as usize);
    word_of(
        byte_at(s, at),
        byte_at(s, at + 1),
        byte_at(s, at + 2),
        byte_at(s, at + 3),
    )
}

// The i-th byte is 1.
fn mark(s: &[u8], i: u8) -> bool
    ensures { result ≡ mark_at s.now i }
{
    byte_at(s, i as usize) == 1
}

// The i-th signed number.
fn value(s: &[u8], i: u8) -> i32
    ensures { result ≡ value_at s.now i }
{
    numbers::signed::signed(word(s, i))
}

// The active states.
pub fn marks(s: &[u8]) -> [bool; 48]
    ensures { result ≡ map (mark_at s.now) (below 48) }
{
    array::from_fn(|i| mark(s, i as u8))
}

// A byte for each automaton.
pub fn bytes(s: &[u8]) -> [u8; 16]
    ensures { result ≡ map (byte_at s.now) (below 16) }
{
    array::from_fn(|i| byte_at(s, i))
}

// The variables.
pub fn values(s: &[u8]) -> [i32; 16]
    ensures { result ≡ map (value_at s.now) (below 16) }
{
    array::from_fn(|i| value(s, i as u8))
}

// The clocks.
pub fn words(s: &[u8]) -> [u32; 8]
    ensures { result ≡ map (λ i. word_at s.now (4 * i)) (below 8) }
{
    array::from_fn(|i| word(s, i as u8))
}

// The numbers of a list, from the start of an array on.
pub fn shorts(s: &[u8], count: u16) -> [u16; 65536]
    ensures long { 65536 ≡ length result }
    ensures list { take count result ≡ map (λ i. short_at s.now (2 * i)) (below count) }
{
    let mut t = [0; 65536];
    for i in 0..count {
        t[i as usize] = short(s, i);
    }
    t
}
