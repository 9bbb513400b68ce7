// The records of the network's locations.
ghost use Rattle.std.specs.Prelude.{◌≡◌, cond, ◌<◌, ◌≤◌, eqb, get_or, take};
ghost use Rattle.lists.specs.Lists.{concat};
ghost use Rattle.chart_records.specs.Chart.{Chart};
ghost use Rattle.flattening.specs.File.{out4};
ghost use Rattle.flattening.specs.Flatten.{Place, urgent_place, flatten};
ghost use Rattle.flatten_places.specs.Tables.{kind_of};
ghost use Rattle.flattener.specs.Records.{location_record};
ghost use Rattle.flattener.specs.Writing.{Wrote};
ghost use Rattle.flattener.specs.Locating.{Located};

use crate::write::{put, put_word};
use chart_tree::table::Tree;
use flatten_places::place::Places;
use flatten_places::transition::Transitions;
use flatten_tables::bound::place_bounds;

// The bounds of the declared clocks.
fn write_bounds(out: &mut [u8], at: usize, clocks: u8, bounds: [u32; 8]) -> usize
    ensures { clocks ≤ 8 → Wrote out.old at (concat out4 (take clocks bounds)) out.new result }
{
    if clocks > 8 {
        return at;
    }
    let mut place = at;
    for &bound in &bounds[..clocks as usize] {
        place = put_word(out, place, bound as usize);
    }
    place
}

// The record of a location: its length, its automaton, whether it is urgent and initial, its bounds.
fn write_location(
    out: &mut [u8],
    at: usize,
    clocks: u8,
    automaton: u8,
    urgent: u8,
    initial: u8,
    bounds: [u32; 8],
) -> usize
    ensures { clocks ≤ 8 → Wrote out.old at (location_record clocks (record { automaton = automaton; urgent = urgent; initial = initial; bounds = bounds })) out.new result }
{
    if clocks > 8 {
        return at;
    }
    let at1 = put(out, at, 3 + 4 * clocks);
    let at2 = put(out, at1, automaton);
    let at3 = put(out, at2, urgent);
    let at4 = put(out, at3, initial);
    write_bounds(out, at4, clocks, bounds)
}

// Places before an entry and after an exit are urgent.
fn urgent_of(kind: u8) -> u8
    ensures { (p : Place) → kind ≡ kind_of p → result ≡ urgent_place p }
{
    if kind < Places::PRE { 0 } else { 1 }
}

// Whether a place is the initial one of its automaton.
fn initial_of(initials: [u8; 16], automaton: u8, i: u8) -> u8
    ensures { automaton < 16 → result ≡ cond (eqb i (get_or initials automaton 0)) 1 0 }
{
    let a = automaton as usize;
    if a >= 16 {
        return 0;
    }
    if i == initials[a] { 1 } else { 0 }
}

// The records of all locations.
pub fn write_locations(
    out: &mut [u8],
    at: usize,
    clocks: u8,
    tree: Tree,
    rows: [[u32; 8]; 48],
    transitions: Transitions,
    places: Places,
    initials: [u8; 16],
) -> usize
    ensures { (c : Chart) → Located c tree rows transitions places initials → clocks ≡ c.clocks → Wrote out.old at (concat (location_record clocks) (flatten c).locations) out.new result }
{
    if places.count > 192 {
        return at;
    }
    let mut place = at;
    for i in 0..places.count {
        let k = i as usize;
        let kind = places.kinds[k];
        let automaton = places.automata[k];
        let value = places.values[k];
        let mark = places.marks[k];
        let bounds = place_bounds(tree, rows, transitions, kind, value, mark);
        let initial = initial_of(initials, automaton, i);
        place = write_location(
            out,
            place,
            clocks,
            automaton,
            urgent_of(kind),
            initial,
            bounds,
        );
    }
    place
}
