// Waiting.
ghost use Rattle.std.specs.Prelude.{◌≡◌};
ghost use Rattle.reading.specs.Verdict.{answer_of};
ghost use Rattle.network_records.specs.Network.{Network};
ghost use Rattle.network_moves.specs.Machine.{wait};
ghost use Rattle.network_records.specs.Layout.{Located};

use network_moves::configuration::{Configuration, bounds_kept, is_configuration, urgent};
use network_records::header::Counts;
use reading::refusal::Refusal;

// Every declared clock so many ticks later, on a checked file.
pub fn wait_checked(
    rest: &[u8],
    counts: Counts,
    c: Configuration,
    ticks: u32,
) -> Result<Configuration, Refusal>
    ensures { (n : Network) → Located rest.now counts n → answer_of result ≡ wait n c ticks }
{
    if !is_configuration(rest, counts, c) {
        return Err(Refusal::NetworkConfiguration);
    }
    if ticks == 0 {
        return Err(Refusal::Ticks);
    }
    let Some(clocks) = clocks::clock::later(counts.clocks as usize, ticks, c.clocks) else {
        return Err(Refusal::Ticks);
    };
    if urgent(rest, counts, c) {
        return Err(Refusal::Urgent);
    }
    let next = Configuration { clocks, ..c };
    if !bounds_kept(rest, counts, next) {
        return Err(Refusal::Bound);
    }
    Ok(next)
}
