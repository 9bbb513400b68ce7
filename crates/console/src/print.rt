// Printing, to an output.
use std::io;
use std::io::Write;

pub fn text(out: &mut impl Write, s: &[u8]) -> io::Result<()> {
    out.write_all(s)
}

pub fn line_end(out: &mut impl Write) -> io::Result<()> {
    text(out, b"\n")
}

// A number with a space before it.
pub fn number(out: &mut impl Write, n: u64) -> io::Result<()> {
    write!(out, " {n}")
}

pub fn byte(out: &mut impl Write, b: u8) -> io::Result<()> {
    number(out, b as u64)
}

fn word(out: &mut impl Write, n: u32) -> io::Result<()> {
    number(out, n as u64)
}

// The line of the longest wait.
pub fn longest(out: &mut impl Write, ticks: u32) -> io::Result<()> {
    text(out, b"  longest wait")?;
    word(out, ticks)?;
    line_end(out)
}

pub fn signed_number(out: &mut impl Write, z: i32) -> io::Result<()> {
    write!(out, " {z}")
}

// The first variables of sixteen, as many as are declared.
pub fn variables(out: &mut impl Write, values: &[i32; 16], count: u8) -> io::Result<()> {
    text(out, b"  variables")?;
    for &value in values.iter().take(count as usize) {
        signed_number(out, value)?;
    }
    line_end(out)
}

// The first clocks of eight, as many as are declared.
pub fn clocks(out: &mut impl Write, values: &[u32; 8], count: u8) -> io::Result<()> {
    text(out, b"  clocks")?;
    for &value in values.iter().take(count as usize) {
        word(out, value)?;
    }
    line_end(out)
}

// The first of sixteen bytes under their name, as many as there are automata.
pub fn automata(out: &mut impl Write, name: &[u8], values: &[u8; 16], count: u8) -> io::Result<()> {
    text(out, name)?;
    for &value in values.iter().take(count as usize) {
        byte(out, value)?;
    }
    line_end(out)
}

// The numbers of the active states.
pub fn states(out: &mut impl Write, active: &[bool; 48]) -> io::Result<()> {
    text(out, b"  active")?;
    for (s, &is_active) in active.iter().enumerate() {
        if is_active {
            number(out, s as u64)?;
        }
    }
    line_end(out)
}
