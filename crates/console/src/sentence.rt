// The line of a refusal: its number, and the sentence that reading has for it.
use crate::print::text;
use reading::refusal::Refusal;
use std::io;
use std::io::Write;

// A line with the number of a refusal and its sentence; with a number of none, there is no sentence.
pub fn refusal(out: &mut impl Write, k: impl Into<u8>) -> io::Result<()> {
    let k: u8 = k.into();
    match Refusal::of(k) {
        Some(r) => writeln!(out, "refused {k}: {r}"),
        None => writeln!(out, "refused {k}: "),
    }
}

// The same below the call that is refused.
pub fn refused_call(out: &mut impl Write, k: impl Into<u8>) -> io::Result<()> {
    let k: u8 = k.into();
    text(out, b"  ")?;
    refusal(out, k)
}
