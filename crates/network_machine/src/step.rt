// Taking edges.
ghost use Rattle.std.specs.Prelude.{◌≡◌, true};
ghost use Rattle.lists.specs.Lists.{any, implies};
ghost use Rattle.reading.specs.Verdict.{answer_of};
ghost use Rattle.steps.specs.Moves.{known};
ghost use Rattle.network_records.specs.Network.{Network, urgent_at, edge_at};
ghost use Rattle.network_moves.specs.Choices.{Known};
ghost use Rattle.network_moves.specs.Machine.{urgent, is_configuration, step};
ghost use Rattle.network_records.specs.Layout.{Laid};

use network_moves::active::{all_active, any_urgent};
use network_moves::after::configuration_after;
use network_moves::choice::is_allowed;
use network_moves::configuration::{Configuration, bounds_kept, is_configuration, urgent};
use network_records::header::Counts;
use reading::refusal::Refusal;
use steps::step::last_tests;

// Whether an edge of the list leaves an urgent location, if one is occupied.
fn urgency_kept(
    rest: &[u8],
    counts: Counts,
    offsets: &[u32; 1024],
    c: Configuration,
    list: &[u16],
) -> bool
    ensures { (n : Network) → Laid rest.now counts offsets.now n → Known counts list.now → result ≡ implies (urgent n c) (any (λ m. urgent_at n (edge_at n m).source) list.now) }
{
    let occupied = urgent(rest, counts, c);
    let left = any_urgent(rest, counts, offsets, list);
    !occupied | left
}

// A step from a configuration of the network, along edges that are known.
fn step_along(
    rest: &[u8],
    counts: Counts,
    offsets: &[u32; 1024],
    c: Configuration,
    list: &[u16],
) -> Result<Configuration, Refusal>
    ensures { (n : Network) → Laid rest.now counts offsets.now n → is_configuration n c ≡ true → known counts.edges list.now ≡ true → answer_of result ≡ step n c list.now }
{
    if !all_active(rest, counts, offsets, c, list) {
        return Err(Refusal::Inactive);
    }
    if !urgency_kept(rest, counts, offsets, c, list) {
        return Err(Refusal::Urgent);
    }
    let allowed = is_allowed(rest, counts, offsets, c, list);
    let after = configuration_after(rest, counts, offsets, list, c);
    let within = after.within;
    let next = after.configuration;
    let kept = bounds_kept(rest, counts, next);
    last_tests(allowed, within, kept)?;
    Ok(next)
}

// A step on a checked file.
pub fn step_checked(
    rest: &[u8],
    counts: Counts,
    offsets: &[u32; 1024],
    c: Configuration,
    list: &[u16],
) -> Result<Configuration, Refusal>
    ensures { (n : Network) → Laid rest.now counts offsets.now n → answer_of result ≡ step n c list.now }
{
    if !is_configuration(rest, counts, c) {
        return Err(Refusal::NetworkConfiguration);
    }
    if !steps::step::known(list, counts.edges as usize) {
        return Err(Refusal::List);
    }
    step_along(rest, counts, offsets, c, list)
}
