// Answers, on an output.
ghost use Rattle.std.specs.Prelude.{◌≡◌};
ghost use Rattle.numbers.specs.Integer.{signed};

use crate::checksum::checksum;
use std::io;
use std::io::Write;

pub fn text(out: &mut impl Write, s: &[u8]) -> io::Result<()> {
    out.write_all(s)
}

pub fn number(out: &mut impl Write, n: u64) -> io::Result<()> {
    write!(out, "{n}")
}

// A refusal is its number.
pub fn refusal(out: &mut impl Write, k: impl Into<u8>) -> io::Result<()> {
    let k: u8 = k.into();
    writeln!(out, "{k}")
}

// The end of a run on input that is not made of whole requests.
pub fn malformed(out: &mut impl Write) -> io::Result<()> {
    text(out, b"malformed\n")
}

// The 32 bits of a signed number.
fn bits(z: i32) -> u32
    ensures { signed result ≡ z }
{
    z.cast_unsigned()
}

// Two hexadecimal digits.
fn byte(out: &mut impl Write, x: u8) -> io::Result<()> {
    write!(out, "{x:02x}")
}

// 1 for what is active.
fn mark(out: &mut impl Write, b: bool) -> io::Result<()> {
    byte(out, b as u8)
}

// Eight hexadecimal digits.
fn word(out: &mut impl Write, x: u32) -> io::Result<()> {
    write!(out, "{x:08x}")
}

fn value(out: &mut impl Write, z: i32) -> io::Result<()> {
    word(out, bits(z))
}

// A network that was written: how many bytes it has, and their checksum.
pub fn flattened(out: &mut impl Write, t: &[u8]) -> io::Result<()> {
    writeln!(out, "ok {} {:08x}", t.len(), checksum(t))
}

fn bytes(out: &mut impl Write, t: &[u8]) -> io::Result<()> {
    for &x in t {
        byte(out, x)?;
    }
    Ok(())
}

fn marks(out: &mut impl Write, t: &[bool]) -> io::Result<()> {
    for &x in t {
        mark(out, x)?;
    }
    Ok(())
}

fn words(out: &mut impl Write, t: &[u32]) -> io::Result<()> {
    for &x in t {
        word(out, x)?;
    }
    Ok(())
}

fn values(out: &mut impl Write, t: &[i32]) -> io::Result<()> {
    for &x in t {
        value(out, x)?;
    }
    Ok(())
}

// The configuration of a chart.
pub fn chart(
    out: &mut impl Write,
    active: &[bool; 48],
    variables: &[i32; 16],
    clocks: &[u32; 8],
) -> io::Result<()> {
    marks(out, active)?;
    values(out, variables)?;
    words(out, clocks)
}

// The configuration of a network.
pub fn network(
    out: &mut impl Write,
    locations: &[u8; 16],
    flags: &[u8; 16],
    variables: &[i32; 16],
    clocks: &[u32; 8],
) -> io::Result<()> {
    bytes(out, locations)?;
    bytes(out, flags)?;
    values(out, variables)?;
    words(out, clocks)
}

// A number after a comma, or as the first without one.
fn listed(out: &mut impl Write, first: bool, n: u16) -> io::Result<()> {
    if !first {
        text(out, b",")?;
    }
    write!(out, "{n}")
}

// Numbers with commas.
pub fn numbers(out: &mut impl Write, t: &[u16]) -> io::Result<()> {
    for (i, &n) in t.iter().enumerate() {
        listed(out, i == 0, n)?;
    }
    Ok(())
}
