// The calls of a script, on the network and on the chart that follows it.
ghost use Rattle.std.specs.Prelude.{◌≡◌, IfOk, []};
ghost use Rattle.chart_records.specs.Chart.{Chart};
ghost use Rattle.network_records.specs.Network.{Network};
ghost use Rattle.agreement.specs.Agreement as agreed;
ghost use Rattle.paired_run.specs.Paired.{Flattening, Stands};
ghost use Rattle.side_by_side.specs.Lines.{AfterLine};

use crate::show::{show_asked, show_call, show_network, show_start};
use console::machine::show_longest;
use console::script::{Call, Line};
use console::sentence::refused_call;
use paired_run::run;
use paired_run::run::{Followed, Run};
use std::io;
use std::io::Write;

// Both machines start anew.
fn started(out: &mut impl Write, file: &[u8], bytes: &[u8]) -> io::Result<Run>
    ensures { IfOk result (λ r. (c : Chart) (n : Network) → Flattening file.now bytes.now c n → Stands r (agreed.run c n [])) }
{
    let r = run::start(file, bytes);
    show_network(out, bytes, r.network)?;
    show_start(out)?;
    Ok(r)
}

// What follows a call of the network, which is shown. The agreement says that the chart accepts the call that is read, if
// the machines were started.
fn shown(out: &mut impl Write, bytes: &[u8], f: Followed) -> io::Result<Run>
    ensures { IfOk result (λ r. r ≡ f.run) }
{
    if let Err(refusal) = f.verdict {
        refused_call(out, refusal)?;
    }
    show_network(out, bytes, f.run.network)?;
    show_call(out, f.reading, f.carried)?;
    if let Err(refusal) = f.answer {
        refused_call(out, refusal)?;
    }
    Ok(f.run)
}

// Both machines are asked for the longest wait, and stay as they are.
fn asked(out: &mut impl Write, file: &[u8], bytes: &[u8], r: Run) -> io::Result<Run>
    ensures { IfOk result (λ next. next ≡ r) }
{
    show_longest::<network_calls::Network, _>(out, bytes, r.network)?;
    show_network(out, bytes, r.network)?;
    show_asked(out)?;
    show_longest::<chart_calls::Chart, _>(out, file, r.chart)?;
    Ok(r)
}

// The run after a call of the network.
pub fn after_call(
    out: &mut impl Write,
    file: &[u8],
    bytes: &[u8],
    r: Run,
    line: Line,
) -> io::Result<Run>
    ensures { IfOk result (λ next. AfterLine file.now bytes.now r line next) }
{
    let count = line.count.min(17);
    match line.call {
        Call::Start => started(out, file, bytes),
        Call::Step => shown(
            out,
            bytes,
            run::after_step(file, bytes, r, &line.list[..count]),
        ),
        Call::Wait(ticks) => shown(out, bytes, run::after_wait(file, bytes, r, ticks)),
        Call::Longest => asked(out, file, bytes, r),
        _ => Ok(r),
    }
}
