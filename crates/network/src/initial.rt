// The initial locations of a checked file.
ghost use Rattle.std.specs.Prelude.{◌≡◌, cond, ◌&&◌, map, ltb, eqb, get_or, length};
ghost use Rattle.lists.specs.Lists.{all, below};
ghost use Rattle.network_records.specs.Network.{Network, location_at, initials};
ghost use Rattle.network_records.specs.Layout.{Located};

use network_records::header::Counts;
use network_records::location::{automaton_of, is_initial};

// Whether location i is one of the automaton's and has the initial mark.
fn is_initial_of(rest: &[u8], counts: Counts, i: u8, automaton: u8) -> bool
    ensures { (n : Network) → Located rest.now counts n → result ≡ (eqb (location_at n i).automaton automaton && eqb (location_at n i).initial 1) }
{
    let own = automaton_of(rest, counts, i) == automaton;
    own & is_initial(rest, counts, i)
}

// The first initial location of an automaton.
fn initial_of(rest: &[u8], counts: Counts, automaton: u8) -> u8
    ensures { (n : Network) → Located rest.now counts n → result ≡ get_or (initials n automaton) 0 0 }
{
    for i in 0..counts.locations {
        if is_initial_of(rest, counts, i, automaton) {
            return i;
        }
    }
    0
}

// How many it has.
fn count_initials(rest: &[u8], counts: Counts, automaton: u8) -> u8
    ensures { (n : Network) → Located rest.now counts n → result ≡ length (initials n automaton) }
{
    let mut count = 0;
    for i in 0..counts.locations {
        if is_initial_of(rest, counts, i, automaton) {
            count += 1;
        }
    }
    count
}

// Whether each automaton has exactly one.
pub fn one_initial_each(rest: &[u8], counts: Counts) -> bool
    ensures { (n : Network) → Located rest.now counts n → result ≡ all (λ a. eqb (length (initials n a)) 1) (below n.automata) }
{
    for a in 0..counts.automata {
        if count_initials(rest, counts, a) != 1 {
            return false;
        }
    }
    true
}

// Where an automaton starts, 0 for one that the network lacks.
fn start_of(rest: &[u8], counts: Counts, automaton: u8) -> u8
    ensures { (n : Network) → Located rest.now counts n → result ≡ cond (ltb automaton n.automata) (get_or (initials n automaton) 0 0) 0 }
{
    if automaton < counts.automata {
        initial_of(rest, counts, automaton)
    } else {
        0
    }
}

// Where each of sixteen automata starts.
pub fn initial_locations(rest: &[u8], counts: Counts) -> [u8; 16]
    ensures { (n : Network) → Located rest.now counts n → result ≡ map (λ a. cond (ltb a n.automata) (get_or (initials n a) 0 0) 0) (below 16) }
{
    let mut locations = [0; 16];
    for a in 0..16 {
        locations[a] = start_of(rest, counts, a as u8);
    }
    locations
}
