// The numbers of places, by what they stand for.
ghost use Rattle.std.specs.Prelude.{ℕ, ◌<◌, ◌≡◌, true, length, get_or};
ghost use Rattle.chart_records.specs.Chart.{Chart, transition_at, sequential};
ghost use Rattle.chart_tree.specs.Table.{Tabled};
ghost use Rattle.flattening.specs.Flatten.{all_places, number, arrival, departure, marked_child, initial_place};
ghost use Rattle.flatten_places.specs.Tables.{Chartered, Columned, Automated, Listed, Departing, Arriving};
ghost use Rattle.flatten_tables.specs.Numbering.{slot_at, Numbered, Idling, Starting, start_set};

use chart_tree::entry::start_active;
use chart_tree::table::{Tree, is_in, marks_at};
use flatten_places::automaton::Automata;
use flatten_places::place::{Places, is_child};
use flatten_places::transition::Transitions;
use lists::mark::has;
use reading::field::byte_at;

// Where a place's number stands in the table of numbers.
fn slot(kind: u8, value: u8, mark: u8) -> usize
    ensures { result ≡ slot_at kind value mark }
{
    let v = value as usize;
    if kind == Places::PRE {
        256 + v * 16 + (mark as usize)
    } else {
        (kind as usize) * 64 + v
    }
}

// The table of the numbers of all places.
pub fn numbers_of(places: Places) -> [u8; 1024]
    ensures { (c : Chart) → Chartered c → Listed c (all_places c) places → Numbered c result }
{
    let mut numbers = [0; 1024];
    for i in 0..places.count {
        let kind = byte_at(&places.kinds, i as usize);
        let value = byte_at(&places.values, i as usize);
        let mark = byte_at(&places.marks, i as usize);
        let at = slot(kind, value, mark);
        if at < 1024 {
            numbers[at] = i;
        }
    }
    numbers
}

// The number of a place.
fn number_at(numbers: &[u8], kind: u8, value: u8, mark: u8) -> u8
    ensures { result ≡ get_or numbers.now (slot_at kind value mark) 0 }
{
    byte_at(numbers, slot(kind, value, mark))
}

// The number of the place where a transition with this destination and entry arrives.
fn arrival_number(numbers: &[u8], destination: u8, entry: u8) -> u8
    ensures { (c : Chart) (t : ℕ) → Chartered c → Numbered c numbers.now → t < length c.transitions → destination ≡ (transition_at c t).destination → entry ≡ (transition_at c t).entry → result ≡ number c (arrival c t) }
{
    if entry == 255 {
        return number_at(numbers, Places::CHILD, destination, 0);
    }
    number_at(numbers, Places::PRE, destination, entry)
}

// The number of the place where the transition t goes from its source: after its exit if it has one, else where it
// arrives.
fn departure_number(numbers: &[u8], t: u8, destination: u8, exit: u8, entry: u8) -> u8
    ensures { (c : Chart) → Chartered c → Numbered c numbers.now → t < length c.transitions → destination ≡ (transition_at c t).destination → exit ≡ (transition_at c t).exit → entry ≡ (transition_at c t).entry → result ≡ number c (departure c t) }
{
    if exit == 255 {
        return arrival_number(numbers, destination, entry);
    }
    number_at(numbers, Places::POST, t, 0)
}

// The numbers of the places where transitions arrive.
pub fn arrivals(transitions: Transitions, numbers: &[u8]) -> [u8; 64]
    ensures { (c : Chart) → Chartered c → Columned c transitions → Numbered c numbers.now → Arriving c result }
{
    let mut reached = [0; 64];
    for i in 0..64 {
        reached[i] = arrival_number(numbers, transitions.destinations[i], transitions.entries[i]);
    }
    reached
}

// The numbers of the places where transitions go from their sources.
pub fn departures(transitions: Transitions, numbers: &[u8]) -> [u8; 64]
    ensures { (c : Chart) → Chartered c → Columned c transitions → Numbered c numbers.now → Departing c result }
{
    let mut reached = [0; 64];
    for t in 0..64 {
        let i = t as usize;
        reached[i] = departure_number(
            numbers,
            t,
            transitions.destinations[i],
            transitions.exits[i],
            transitions.entries[i],
        );
    }
    reached
}

// The numbers of the places where automata are idle.
pub fn firsts(automata: Automata, numbers: &[u8]) -> [u8; 16]
    ensures { (c : Chart) → Automated c automata → Numbered c numbers.now → Idling c result }
{
    let mut first = [0; 16];
    for a in 0..16 {
        first[a] = number_at(numbers, Places::IDLE, automata.states[a], 0);
    }
    first
}

// The child of q that is marked with the entry 0, which the chart starts by; 0 where there is none.
fn marked_child(tree: Tree, q: u8) -> u8
    ensures { (c : Chart) → Tabled c tree → result ≡ marked_child c q 0 }
{
    for s in 0..tree.states {
        let marks = marks_at(&tree.entries, s as usize) as u32;
        if is_child(&tree.parents, q, s) && has(marks, 0) {
            return s;
        }
    }
    0
}

// The number of the place where the automaton of q starts: at its marked child if it is active then, else idle.
fn initial_number(tree: Tree, active: &[bool], numbers: &[u8], q: u8) -> u8
    ensures { (c : Chart) → Chartered c → Tabled c tree → Numbered c numbers.now → sequential c q ≡ true → q < length c.states → active.now ≡ start_set c → result ≡ number c (initial_place c q) }
{
    if is_in(active, q as usize) {
        let s = marked_child(tree, q);
        return number_at(numbers, Places::CHILD, s, 0);
    }
    number_at(numbers, Places::IDLE, q, 0)
}

// The numbers of the places where automata start.
pub fn initials(tree: Tree, automata: Automata, numbers: &[u8]) -> [u8; 16]
    ensures { (c : Chart) → Chartered c → Tabled c tree → Automated c automata → Numbered c numbers.now → Starting c result }
{
    let active = start_active(tree);
    let mut initial = [0; 16];
    for a in 0..16 {
        initial[a] = initial_number(tree, &active, numbers, automata.states[a]);
    }
    initial
}
