// What becomes of a configuration when edges are taken.
ghost use Rattle.std.specs.Prelude.{◌≡◌, ◌&&◌, map, get_or, set};
ghost use Rattle.lists.specs.Lists.{all};
ghost use Rattle.updates.specs.Update.{stays, assign};
ghost use Rattle.steps.specs.Moves.{all_stay};
ghost use Rattle.network_records.specs.Network.{Network, edge_at};
ghost use Rattle.network_moves.specs.Choices.{Known};
ghost use Rattle.network_moves.specs.Machine.{overwrite, after};
ghost use Rattle.network_moves.specs.Turns.{taken};
ghost use Rattle.network_records.specs.Edges.{Kept};
ghost use Rattle.network_records.specs.Layout.{Located, Laid};

use crate::configuration::Configuration;
use network::laid::edge_of;
use network_records::edge::Edge;
use network_records::header::Counts;
use network_records::location::automaton_of;
use updates::update::NewValues;

// The locations with one automaton at another. There are sixteen; one that is not there changes none.
fn with_location(locations: [u8; 16], automaton: u8, target: u8) -> [u8; 16]
    ensures { result ≡ set locations automaton target }
{
    let mut next = locations;
    let i = automaton as usize;
    if i < 16 {
        next[i] = target;
    }
    next
}

// The flags with those written at the values given.
fn overwrite(flags: u8, written: u8, values: u8) -> u8
    ensures { result ≡ overwrite flags written values }
{
    (flags - (flags & written)) | (values & written)
}

// All flags with those of one automaton overwritten.
fn with_flags(flags: [u8; 16], automaton: u8, written: u8, values: u8) -> [u8; 16]
    ensures { result ≡ set flags automaton (overwrite (get_or flags automaton 0) written values) }
{
    let mut next = flags;
    let i = automaton as usize;
    if i < 16 {
        next[i] = overwrite(flags[i], written, values);
    }
    next
}

// The new variables with the updates of one more edge, which read the old values.
fn assigned_by(rest: &[u8], counts: Counts, e: Edge, old: [i32; 16], new: [i32; 16]) -> NewValues
    ensures within { (d : _) → Kept counts rest.now e d → result.within ≡ all (stays old) d.label.body.updates }
    ensures values { (d : _) → Kept counts rest.now e d → result.values ≡ assign old d.label.body.updates new }
{
    labels::label::assigned(rest, e.body, counts.limits(), old, new)
}

// The configuration after some edges, and whether their updates stayed in the range: a flag, since the configuration is said also
// where they did not (clause `configuration`).
#[derive(Clone, Copy)]
pub struct Next {
    pub configuration: Configuration,
    pub within: bool,
}

// The same with one more edge taken. Its updates read the old values.
fn taken(rest: &[u8], counts: Counts, old: [i32; 16], before: Next, e: Edge) -> Next
    ensures within { (d : _) → Kept counts rest.now e d → result.within ≡ (before.within && all (stays old) d.label.body.updates) }
    ensures configuration { (n : Network) (d : _) → Located rest.now counts n → Kept counts rest.now e d → result.configuration ≡ taken n d old before.configuration }
{
    let c = before.configuration;
    let owner = automaton_of(rest, counts, e.source);
    let assigned = assigned_by(rest, counts, e, old, c.variables);
    let variables = assigned.values;
    Next {
        within: before.within & assigned.within,
        configuration: Configuration {
            locations: with_location(c.locations, owner, e.target),
            flags: with_flags(c.flags, owner, e.written, e.values),
            variables,
            clocks: clocks::clock::reset(e.resets, c.clocks),
        },
    }
}

// The same of all edges of the list. All updates read the values that the configuration has now.
pub fn configuration_after(
    rest: &[u8],
    counts: Counts,
    offsets: &[u32; 1024],
    list: &[u16],
    c: Configuration,
) -> Next
    ensures within { (n : Network) → Laid rest.now counts offsets.now n → Known counts list.now → result.within ≡ all_stay (map (λ m. (edge_at n m).label) list.now) c.variables }
    ensures configuration { (n : Network) → Laid rest.now counts offsets.now n → Known counts list.now → result.configuration ≡ after n (map (edge_at n) list.now) c }
{
    let mut after = Next {
        within: true,
        configuration: c,
    };
    for &m in list {
        let e = edge_of(rest, offsets, m);
        after = taken(rest, counts, c.variables, after, e);
    }
    after
}
