// Fields of a record, read from left to right: one, two and four bytes, and the frame of a record.
//
// A reader of the definitions takes the bytes that are left, and gives a value with the rest or the first fault. A reader here
// answers the next place in the slice that it is lent, which stands for the bytes from there on (specs/Places). So a chain of
// `?` is a chain of binds, and no arithmetic on places is needed.
ghost use Rattle.std.specs.Prelude.{◌≡◌, ℕ, ◌+◌, ◌*◌, ◌-◌, ◌≤◌, ◌^◌, length, get_or, ◌||◌, List, ltb, eqb};
ghost use Rattle.reading.specs.Reading.{Reader, got, byte, byte2, byte4, such, framed};
ghost use Rattle.reading.specs.Places.{onward, read_of, end_of, part_of, wholly};

// What a file can have wrong: a length, or a field out of its range.
#[derive(Clone, Copy, PartialEq, Eq, Debug)]
pub enum Fault {
    Length,
    Range,
}

// A value and the place after it, or the first fault.
pub type Read<T> = Result<(T, usize), Fault>;

// How many bytes stand from a place on.
pub fn left(s: &[u8], at: usize) -> usize
    ensures { result ≡ length s.now - at }
{
    s.len().saturating_sub(at)
}

// The byte at a place, 0 past the end.
pub fn byte_at(s: &[u8], at: usize) -> u8
    ensures { result ≡ get_or s.now at 0 }
{
    if at < s.len() { s[at] } else { 0 }
}

pub fn read_byte(s: &[u8], at: usize) -> Read<u8>
    ensures means { read_of s.now result ≡ byte (onward s.now at) }
    ensures within { end_of result ≤ length s.now }
{
    if at < s.len() {
        Ok((s[at], at + 1))
    } else {
        Err(Fault::Length)
    }
}

// A byte below a limit.
pub fn read_below(s: &[u8], at: usize, limit: u8) -> Read<u8>
    ensures means { read_of s.now result ≡ such byte (λ x. ltb x limit) (onward s.now at) }
    ensures within { end_of result ≤ length s.now }
{
    let (x, next) = read_byte(s, at)?;
    if x < limit {
        Ok((x, next))
    } else {
        Err(Fault::Range)
    }
}

// A number below a limit, or 255 for none.
fn known_or_none(x: u8, limit: u8) -> bool
    ensures { result ≡ (ltb x limit || eqb x 255) }
{
    x < limit || x == 255
}

pub fn read_byte_or_none(s: &[u8], at: usize, limit: u8) -> Read<u8>
    ensures { read_of s.now result ≡ such byte (λ x. ltb x limit || eqb x 255) (onward s.now at) }
{
    let (x, next) = read_byte(s, at)?;
    if known_or_none(x, limit) {
        Ok((x, next))
    } else {
        Err(Fault::Range)
    }
}

// A number of so many bits.
pub fn in_width(x: u32, width: u8) -> bool
    ensures { result ≡ ltb x (2 ^ width) }
{
    if width < 32 { x >> width == 0 } else { true }
}

// A set of marks in a byte, of which only the first `width` are in use.
pub fn read_marks(s: &[u8], at: usize, width: u8) -> Read<u8>
    ensures { read_of s.now result ≡ such byte (λ x. ltb x (2 ^ width)) (onward s.now at) }
{
    let (x, next) = read_byte(s, at)?;
    if in_width(x as u32, width) {
        Ok((x, next))
    } else {
        Err(Fault::Range)
    }
}

// A big-endian number of two bytes.
pub fn short_of(a: u8, b: u8) -> u16
    ensures { result ≡ 256 * a + b }
{
    256 * (a as u16) + (b as u16)
}

pub fn read_short(s: &[u8], at: usize) -> Read<u16>
    ensures means { read_of s.now result ≡ byte2 (onward s.now at) }
    ensures within { end_of result ≤ length s.now }
{
    if left(s, at) < 2 {
        Err(Fault::Length)
    } else {
        Ok((short_of(s[at], s[at + 1]), at + 2))
    }
}

// The two bytes at a place that has them, else 0.
pub fn short_at(s: &[u8], at: usize) -> u16
    ensures { (x : _) (t : _) → byte2 (onward s.now at) ≡ got x t → result ≡ x }
{
    match read_short(s, at) {
        Ok((x, _)) => x,
        Err(_) => 0,
    }
}

// A set of marks in two bytes, of which only the first `width` are in use.
pub fn read_long_marks(s: &[u8], at: usize, width: u8) -> Read<u16>
    ensures { read_of s.now result ≡ such byte2 (λ x. ltb x (2 ^ width)) (onward s.now at) }
{
    let (x, next) = read_short(s, at)?;
    if in_width(x as u32, width) {
        Ok((x, next))
    } else {
        Err(Fault::Range)
    }
}

// A big-endian number of four bytes.
pub fn word_of(a: u8, b: u8, c: u8, d: u8) -> u32
    ensures { result ≡ 256 * (256 * (256 * a + b) + c) + d }
{
    256 * (256 * (256 * (a as u32) + (b as u32)) + (c as u32)) + (d as u32)
}

pub fn read_word(s: &[u8], at: usize) -> Read<u32>
    ensures means { read_of s.now result ≡ byte4 (onward s.now at) }
    ensures within { end_of result ≤ length s.now }
{
    if left(s, at) < 4 {
        Err(Fault::Length)
    } else {
        Ok((word_of(s[at], s[at + 1], s[at + 2], s[at + 3]), at + 4))
    }
}

// The four bytes at a place that has them, else 0.
pub fn word_at(s: &[u8], at: usize) -> u32
    ensures { (x : _) (t : _) → byte4 (onward s.now at) ≡ got x t → result ≡ x }
{
    match read_word(s, at) {
        Ok((x, _)) => x,
        Err(_) => 0,
    }
}

// So many bytes from a place on, the length of a record having been read before it. Past the end there are none.
pub fn part(s: &[u8], from: usize, size: usize) -> Read<&[u8]>
    ensures means { (q : Reader ℕ) (b : List ℕ) → q b ≡ got size (onward s.now from) → part_of s.now result ≡ framed q b }
    ensures within { end_of result ≤ length s.now }
{
    let from = from.min(s.len());
    if s.len() - from < size {
        Err(Fault::Length)
    } else {
        let to = from + size;
        Ok((&s[from..to], to))
    }
}

// A record's length, in one byte, and its bytes.
pub fn read_frame(s: &[u8], at: usize) -> Read<&[u8]>
    ensures means { part_of s.now result ≡ framed byte (onward s.now at) }
    ensures within { end_of result ≤ length s.now }
{
    let (size, from) = read_byte(s, at)?;
    part(s, from, size as usize)
}

// A record's length, in two bytes, and its bytes.
pub fn read_long_frame(s: &[u8], at: usize) -> Read<&[u8]>
    ensures means { part_of s.now result ≡ framed byte2 (onward s.now at) }
    ensures within { end_of result ≤ length s.now }
{
    let (size, from) = read_short(s, at)?;
    part(s, from, size as usize)
}

// The place after a record of `size` bytes that ends at `to`, where its reader has used so many of them: all must be used.
pub fn whole(used: usize, size: usize, to: usize) -> Result<usize, Fault>
    ensures { result ≡ wholly used size to }
{
    if used < size {
        Err(Fault::Length)
    } else {
        Ok(to)
    }
}
