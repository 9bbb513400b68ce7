// Requests to count weft breaks in a window.
use answers::output;
use break_windows::window::Best;
use breaks::busiest::busiest;
use request_parts::ticks::fill_ticks;
use std::io;
use std::io::Write;

// More ticks than a request can have: it has 131,072 bytes at most, and a tick has four.
const TICKS: usize = 32768;

fn show_best(out: &mut impl Write, best: Best) -> io::Result<()> {
    output::text(out, b"ok ")?;
    output::number(out, best.count as u64)?;
    output::text(out, b" ")?;
    output::number(out, best.first as u64)?;
    output::text(out, b"\n")
}

// The most breaks within a window of so many ticks, and the first tick of the earliest window that has them, or the refusal; the ticks of the breaks stand in some bytes.
pub fn count(out: &mut impl Write, bytes: &[u8], window: u32) -> io::Result<()> {
    let mut ticks = [0; TICKS];
    let n = fill_ticks(bytes, &mut ticks);
    match busiest(&ticks[..n], window) {
        Ok(best) => show_best(out, best),
        Err(refusal) => output::refusal(out, refusal),
    }
}
