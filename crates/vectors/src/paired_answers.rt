// The line that shows both machines: the network's answer and configuration, the call of the chart that is read and the
// chart's configuration, and how many urgent moves are owed.
use crate::machine_requests::Form;
use answers::output;
use chart_calls::Chart;
use chart_moves::configuration::Configuration;
use network_calls::Network;
use paired_run::carry::Transitions;
use paired_run::run::{Followed, Reading, Run};
use reading::refusal::Refusal;
use std::io;
use std::io::Write;

fn show_verdict(out: &mut impl Write, verdict: Result<(), Refusal>) -> io::Result<()> {
    match verdict {
        Ok(()) => output::text(out, b"ok "),
        Err(refusal) => {
            output::number(out, refusal.number() as u64)?;
            output::text(out, b" ")
        }
    }
}

// No move carries over sixteen transitions.
fn show_step(out: &mut impl Write, carried: Transitions) -> io::Result<()> {
    let list = carried.list;
    let count = carried.count;
    output::text(out, b" step ")?;
    if count <= 16 {
        output::numbers(out, &list[0..count])?;
    }
    Ok(())
}

fn show_reading(out: &mut impl Write, reading: Reading, carried: Transitions) -> io::Result<()> {
    match reading {
        Reading::Nothing => output::text(out, b" none"),
        Reading::Step => show_step(out, carried),
        Reading::Wait(ticks) => {
            output::text(out, b" wait ")?;
            output::number(out, ticks as u64)
        }
    }
}

// What stands after the call that is read.
fn show_chart(out: &mut impl Write, c: Configuration, owed: u64) -> io::Result<()> {
    output::text(out, b" ")?;
    Chart::write(out, c)?;
    output::text(out, b" ")?;
    output::number(out, owed)?;
    output::text(out, b"\n")
}

// After the starts.
pub fn show_start(out: &mut impl Write, r: Run) -> io::Result<()> {
    output::text(out, b"ok ")?;
    Network::write(out, r.network)?;
    output::text(out, b" start")?;
    show_chart(out, r.chart, r.owed)
}

// After a call of the network.
pub fn show_call(out: &mut impl Write, f: Followed) -> io::Result<()> {
    let run = f.run;
    let verdict = f.verdict;
    let reading = f.reading;
    show_verdict(out, verdict)?;
    Network::write(out, run.network)?;
    show_reading(out, reading, f.carried)?;
    show_chart(out, run.chart, run.owed)
}
