// What the network machine moves, and the tests of it.
ghost use Rattle.std.specs.Prelude.{◌≡◌, ◌&&◌, ltb, eqb, length};
ghost use Rattle.lists.specs.Lists.{all, below};
ghost use Rattle.network_records.specs.Network.{Network, location_at};
ghost use Rattle.clocks.specs.Clocks.{left_where, limit_left};
ghost use Rattle.network_moves.specs.Machine.{place, zero_configuration, start, bounds_kept, ticks_under, is_configuration, urgent};
ghost use Rattle.network_moves.specs.Stands.{stands};
ghost use Rattle.network_records.specs.Layout.{Located};

use clocks::left::limit_left;
use network::initial::initial_locations;
use network_records::header::Counts;
use network_records::location::{automaton_of, is_urgent, keeps_bounds, left_under};

#[repr(C)]
#[derive(Clone, Copy)]
pub struct Configuration {
    pub locations: [u8; Configuration::AUTOMATA],
    pub flags: [u8; Configuration::AUTOMATA],
    pub variables: [i32; Configuration::VARIABLES],
    pub clocks: [u32; Configuration::CLOCKS],
}

impl Configuration {
    pub const AUTOMATA: usize = 16;

    pub const VARIABLES: usize = 16;

    pub const CLOCKS: usize = 8;

    // Everything 0.
    pub fn zero() -> Configuration
        ensures { result ≡ zero_configuration }
    {
        Configuration {
            locations: [0; Self::AUTOMATA],
            flags: [0; Self::AUTOMATA],
            variables: [0; Self::VARIABLES],
            clocks: [0; Self::CLOCKS],
        }
    }

    // Each automaton at its initial location, all values 0.
    pub fn start(rest: &[u8], counts: Counts) -> Configuration
        ensures { (n : Network) → Located rest.now counts n → result ≡ start n }
    {
        Configuration {
            locations: initial_locations(rest, counts),
            ..Self::zero()
        }
    }
}

// Where an automaton is.
pub fn place(c: Configuration, automaton: u8) -> u8
    ensures { result ≡ place c automaton }
{
    let i = automaton as usize;
    if i < Configuration::AUTOMATA {
        c.locations[i]
    } else {
        0
    }
}

// Whether the clocks keep the bounds of all occupied locations.
pub fn bounds_kept(rest: &[u8], counts: Counts, c: Configuration) -> bool
    ensures { (n : Network) → Located rest.now counts n → result ≡ bounds_kept n c }
{
    for a in 0..counts.automata {
        let l = place(c, a);
        if !keeps_bounds(rest, counts, l, c.clocks) {
            return false;
        }
    }
    true
}

// The ticks left under the bounds of all occupied locations, and to the limit. There are none, not even 0, where the clocks
// break a bound.
pub fn bounds_left(rest: &[u8], counts: Counts, c: Configuration) -> Option<u32>
    ensures { (n : Network) → Located rest.now counts n → result ≡ left_where (bounds_kept n c) (ticks_under n c (below n.automata) (limit_left n.clocks c.clocks)) }
{
    let mut ticks = limit_left(counts.clocks as usize, c.clocks);
    for a in 0..counts.automata {
        let l = place(c, a);
        ticks = left_under(rest, counts, l, c.clocks, ticks)?;
    }
    Some(ticks)
}

// Whether an urgent location is occupied.
pub fn urgent(rest: &[u8], counts: Counts, c: Configuration) -> bool
    ensures { (n : Network) → Located rest.now counts n → result ≡ urgent n c }
{
    for a in 0..counts.automata {
        let l = place(c, a);
        if is_urgent(rest, counts, l) {
            return true;
        }
    }
    false
}

// Whether there is a location l, and it is one of the automaton's.
fn is_location_of(rest: &[u8], counts: Counts, l: u8, automaton: u8) -> bool
    ensures { (n : Network) → Located rest.now counts n → result ≡ (ltb l (length n.locations) && eqb (location_at n l).automaton automaton) }
{
    let own = automaton_of(rest, counts, l) == automaton;
    (l < counts.locations) & own
}

// Whether each automaton is at a location of its own.
fn at_own_locations(rest: &[u8], counts: Counts, c: Configuration) -> bool
    ensures { (n : Network) → Located rest.now counts n → result ≡ all (λ a. ltb (place c a) (length n.locations) && eqb (location_at n (place c a)).automaton a) (below n.automata) }
{
    for a in 0..counts.automata {
        let l = place(c, a);
        if !is_location_of(rest, counts, l, a) {
            return false;
        }
    }
    true
}

// Whether c is a configuration of the network but for its bounds: what is not declared is 0.
pub fn stands(rest: &[u8], counts: Counts, c: Configuration) -> bool
    ensures { (n : Network) → Located rest.now counts n → result ≡ stands n c }
{
    let automata = counts.automata as usize;
    let timed = counts.clocks as usize;
    let at_locations = at_own_locations(rest, counts, c);
    let locations_zero = clocks::clock::zero_past(automata, &c.locations);
    let flags_zero = clocks::clock::zero_past(automata, &c.flags);
    let variables_zero = clocks::clock::zero_past(counts.variables as usize, &c.variables);
    let within = clocks::clock::in_limit(timed, c.clocks);
    let clocks_zero = clocks::clock::zero_past(timed, &c.clocks);
    at_locations & (locations_zero & (flags_zero & (variables_zero & (within & clocks_zero))))
}

// Whether c is a configuration of the network.
pub fn is_configuration(rest: &[u8], counts: Counts, c: Configuration) -> bool
    ensures { (n : Network) → Located rest.now counts n → result ≡ is_configuration n c }
{
    let standing = stands(rest, counts, c);
    standing & bounds_kept(rest, counts, c)
}
