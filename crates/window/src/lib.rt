// Parts of the bytes of an input, of which a window holds some. No part passes the end.
#![tactic(auto)]

ghost use Rattle.std.specs.Prelude.{◌≡◌, ◌++◌, ◌-◌, length, take, drop};
ghost use Rattle.std.specs.Io.{ReadsAtMost};

use std::io;
use std::io::Read;

// Reads until the bytes are full or the input ends, and answers how many were read.
pub fn fill(input: &mut impl Read, bytes: &mut [u8]) -> io::Result<usize>
    ensures { ReadsAtMost result bytes.new }
{
    let mut done = 0;
    // A loop by `while`: each read says how many bytes are done.
    while done < bytes.len() {
        let n = input.read(&mut bytes[done..])?;
        if n == 0 {
            break;
        }
        done += n;
    }
    Ok(done)
}

// The bytes in front of a place.
pub fn front(s: &[u8], to: usize) -> &[u8]
    ensures { result.now ≡ take to s.now }
{
    &s[..to.min(s.len())]
}

// The bytes from a place on.
pub fn tail(s: &[u8], from: usize) -> &[u8]
    ensures { result.now ≡ drop from s.now }
{
    &s[from.min(s.len())..]
}

// Moves the bytes from a place on to the front; those past them stay as they are.
pub fn shift(s: &mut [u8], from: usize)
    ensures { s.new ≡ drop from s.old ++ drop (length s.old - from) s.old }
{
    let start = from.min(s.len());
    s.copy_within(start.., 0);
}
