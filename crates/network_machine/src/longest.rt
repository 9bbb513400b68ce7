// The longest wait.
ghost use Rattle.std.specs.Prelude.{◌≡◌};
ghost use Rattle.lists.specs.Lists.{below};
ghost use Rattle.reading.specs.Verdict.{answer_of};
ghost use Rattle.clocks.specs.Clocks.{left_where, limit_left};
ghost use Rattle.network_records.specs.Network.{Network};
ghost use Rattle.network_moves.specs.Machine.{is_configuration, ticks_under, longest};
ghost use Rattle.network_records.specs.Layout.{Located};

use network_moves::configuration::{Configuration, bounds_left, stands, urgent};
use network_records::header::Counts;
use reading::refusal::Refusal;

// The ticks left in a configuration of the network, by the same look at its bounds that tells whether it is one.
fn ticks_left(rest: &[u8], counts: Counts, c: Configuration) -> Option<u32>
    ensures { (n : Network) → Located rest.now counts n → result ≡ left_where (is_configuration n c) (ticks_under n c (below n.automata) (limit_left n.clocks c.clocks)) }
{
    if !stands(rest, counts, c) {
        return None;
    }
    bounds_left(rest, counts, c)
}

// How long a wait may be, on a checked file. No wait leaves an urgent location.
pub fn longest_checked(rest: &[u8], counts: Counts, c: Configuration) -> Result<u32, Refusal>
    ensures { (n : Network) → Located rest.now counts n → answer_of result ≡ longest n c }
{
    let Some(ticks) = ticks_left(rest, counts, c) else {
        return Err(Refusal::NetworkConfiguration);
    };
    if urgent(rest, counts, c) {
        return Ok(0);
    }
    Ok(ticks)
}
