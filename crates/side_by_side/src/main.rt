// Runs a chart, the file that the first argument names, and its network side by side. The script on standard input has
// calls of the network, and each that is accepted is read as a call of the chart, or as none; the longest wait is asked of
// both. After each call both configurations are printed, and how many urgent moves are owed.
#![tactic(auto)]

mod follow;
mod show;

ghost use Rattle.std.specs.Prelude.{◌≡◌, IfOk};
ghost use Rattle.console.specs.Script.{line_of};
ghost use Rattle.side_by_side.specs.Lines.{AfterLine};

use console::script;
use flattener::operation::flatten;
use paired_run::run::Run;
use std::io;
use std::io::Write;

// One line of the script.
fn take_line(
    out: &mut impl Write,
    file: &[u8],
    bytes: &[u8],
    r: Run,
    text: &[u8],
    number: u64,
) -> io::Result<Run>
    ensures { IfOk result (λ next. AfterLine file.now bytes.now r (line_of text.now) next) }
{
    let line = script::read_line(text);
    if !script::is_call(out, line.call, text, number)? {
        return Ok(r);
    }
    let next = follow::after_call(out, file, bytes, r, line)?;
    show::show_chart(out, file, next.chart, next.owed)?;
    Ok(next)
}

// The whole script, from before the first start on.
fn run<W: Write>(out: &mut W, file: &[u8], bytes: &[u8], lines: &[u8]) -> io::Result<()> {
    let mut r = Run::zero();
    for (i, text) in lines.split(|b| *b == b'\n').enumerate() {
        r = take_line(out, file, bytes, r, text, i as u64 + 1)?;
    }
    Ok(())
}

// The script on the chart and its network, or why there is no network.
fn run_flattened(out: &mut impl Write, file: &[u8], lines: &[u8]) -> io::Result<()> {
    let mut buffer = [0; 65536];
    match flatten(file, &mut buffer) {
        Ok(length) => run(out, file, &buffer[..length], lines),
        Err(refusal) => console::sentence::refusal(out, refusal),
    }
}

// One byte more is read than a chart may have, so that a longer file is refused as such.
fn main(rt: HostRuntime) -> io::Result<()> {
    let mut out = rt.stdout();
    let mut path = [0; 4096];
    let length = console::file::first_argument(&rt, &mut path);
    let mut file = [0u8; 65537];
    let size = console::file::read_file(&rt, &mut out, &path[..length], &mut file)?;
    let mut lines = [0; 65536];
    let count = window::fill(&mut rt.stdin(), &mut lines)?;
    run_flattened(&mut out, &file[..size], &lines[..count])
}
