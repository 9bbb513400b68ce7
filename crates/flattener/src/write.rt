// Bytes written into a lent buffer. What does not fit is not written.
ghost use Rattle.std.specs.Prelude.{[], ◌∷◌, ◌+◌, ◌≤◌, length};
ghost use Rattle.flattening.specs.File.{out2, out4};
ghost use Rattle.flattener.specs.Writing.{Wrote, part};

// One byte. The answer of each writer is the place after what it writes.
pub fn put(out: &mut [u8], at: usize, b: u8) -> usize
    ensures { Wrote out.old at (b ∷ []) out.new result }
{
    if at >= out.len() {
        return at;
    }
    out[at] = b;
    at + 1
}

// Two bytes.
pub fn put_short(out: &mut [u8], at: usize, n: usize) -> usize
    ensures { Wrote out.old at (out2 n) out.new result }
{
    let next = put(out, at, (n / 256 % 256) as u8);
    put(out, next, (n % 256) as u8)
}

// Four bytes.
pub fn put_word(out: &mut [u8], at: usize, n: usize) -> usize
    ensures { Wrote out.old at (out4 n) out.new result }
{
    let next = put_short(out, at, n / 65536);
    put_short(out, next, n)
}

// So many bytes of others, from a place of theirs on. A loop, since a copy of std's would call C's memmove.
pub fn copy(out: &mut [u8], at: usize, from: &[u8], start: usize, size: usize) -> usize
    ensures { start + size ≤ length from.now → Wrote out.old at (part from.now start size) out.new result }
{
    if from.len() < size || from.len() - size < start {
        return at;
    }
    if out.len() < size || out.len() - size < at {
        return at;
    }
    for i in 0..size {
        out[at + i] = from[start + i];
    }
    at + size
}
