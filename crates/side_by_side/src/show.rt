// What is printed of a run.
use chart_calls::Chart;
use console::machine::Machine;
use console::print;
use network_calls::Network;
use paired_run::carry::Transitions;
use paired_run::run::Reading;
use std::io;
use std::io::Write;

// The configuration of the network.
pub fn show_network(
    out: &mut impl Write,
    file: &[u8],
    c: network_moves::configuration::Configuration,
) -> io::Result<()> {
    print::text(out, b" network\n")?;
    Network::show(out, file, c)
}

fn show_number(out: &mut impl Write, n: u16) -> io::Result<()> {
    print::number(out, n as u64)
}

// The first `count` numbers of a step.
fn show_list(out: &mut impl Write, list: &[u16; 16], count: usize) -> io::Result<()> {
    for n in &list[..count.min(16)] {
        show_number(out, *n)?;
    }
    Ok(())
}

pub fn show_start(out: &mut impl Write) -> io::Result<()> {
    print::text(out, b" chart: start\n")
}

pub fn show_asked(out: &mut impl Write) -> io::Result<()> {
    print::text(out, b" chart: longest\n")
}

// The call of the chart that is read.
pub fn show_call(out: &mut impl Write, reading: Reading, carried: Transitions) -> io::Result<()> {
    let list = carried.list;
    print::text(out, b" chart:")?;
    match reading {
        Reading::Nothing => print::text(out, b" no call")?,
        Reading::Step => {
            print::text(out, b" step")?;
            show_list(out, &list, carried.count)?;
        }
        Reading::Wait(ticks) => {
            print::text(out, b" wait")?;
            print::number(out, ticks as u64)?;
        }
    }
    print::line_end(out)
}

// The configuration of the chart, and how many urgent moves are owed.
pub fn show_chart(
    out: &mut impl Write,
    file: &[u8],
    c: chart_moves::configuration::Configuration,
    owed: u64,
) -> io::Result<()> {
    Chart::show(out, file, c)?;
    print::text(out, b" urgent moves owed:")?;
    print::number(out, owed)?;
    print::line_end(out)
}
