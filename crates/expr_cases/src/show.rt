// Answers, on an output.
use reading::field::Fault;
use std::io;
use std::io::Write;

pub fn text(out: &mut impl Write, s: &[u8]) -> io::Result<()> {
    out.write_all(s)
}

pub fn number(out: &mut impl Write, n: u64) -> io::Result<()> {
    write!(out, " {n}")
}

pub fn signed_number(out: &mut impl Write, z: i32) -> io::Result<()> {
    write!(out, " {z}")
}

pub fn truth(out: &mut impl Write, b: bool) -> io::Result<()> {
    if b {
        text(out, b" yes")
    } else {
        text(out, b" no")
    }
}

pub fn none(out: &mut impl Write) -> io::Result<()> {
    text(out, b" none")
}

pub fn fault(out: &mut impl Write, f: Fault) -> io::Result<()> {
    match f {
        Fault::Length => text(out, b" fault of the length"),
        Fault::Range => text(out, b" out of range"),
    }
}
