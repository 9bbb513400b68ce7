// The alternatives of an exit: sets of automata, as bits. They are listed ascending and each once, and the listing stops counting
// at 1,025. Each state below the source is met once, so that nothing grows with the number of choices, and a chart with too many
// is refused as soon as they are.
ghost use Rattle.std.specs.Prelude.{◌≡◌, true, false, cond, ℕ, ◌+◌, ◌^◌, ◌<◌, get_or, length};
ghost use mathlib.Core.List.{List, [], ◌++◌, map, Memᴰ as Mem};
ghost use Rattle.std.specs.Int.Bits.{bit_or};
ghost use Rattle.lists.specs.Lists.{has};
ghost use Rattle.chart_records.specs.Chart.{Chart};
ghost use Rattle.flatten_alternatives.specs.Choosing.{choices, Kept, Choosing, Gives, Chooses, Lists};

use crate::ascending::with_number;
use chart_tree::table::{Tree, is_child};
use flatten_places::automaton::Automata;
use flatten_places::fixed::Fixed;
use lists::mark::has;
use reading::field::byte_at;

// The sets of one table with each set of another, joined with a set that it has nothing of.
fn with_each(from: &[u16; 1024], size: usize, set: u16, to: &mut [u16; 1024], count: usize) -> usize
    ensures { (xs ys : List ℕ) → Kept from.now size xs → Kept to.old count ys → ((x : ℕ) → Mem x xs → bit_or x set ≡ x + set) → Kept to.new result (map (λ x. x + set) xs ++ ys) }
{
    if size > 1024 {
        return 1025;
    }
    let mut total = count;
    for x in &from[..size] {
        total = with_number(to, total, *x | set);
    }
    total
}

// The set of the automaton of a sequential state.
fn set_of(numbers: &[u8], s: usize) -> u16
    ensures { get_or numbers.now s 0 < 16 → result ≡ 2 ^ get_or numbers.now s 0 }
{
    let a = byte_at(numbers, s) as u16;
    let one: u16 = 1;
    if a < 16 { one << a } else { 0 }
}

// The sets with those that a basic or plain state x gives: if it is at the exit, each of another table with a set of its own.
fn with_fixed(
    exits: &[u8],
    exit: u8,
    own: u16,
    x: usize,
    from: &[u16; 1024],
    size: usize,
    to: &mut [u16; 1024],
    count: usize,
) -> usize
    ensures { (xs ys : List ℕ) → Kept from.now size xs → Kept to.old count ys → ((x : ℕ) → Mem x xs → bit_or x own ≡ x + own) → Kept to.new result (cond (has (get_or exits.now x 0) exit) (map (λ x. x + own) xs) [] ++ ys) }
{
    let marks = byte_at(exits, x);
    if has(marks as u32, exit as u32) {
        with_each(from, size, own, to, count)
    } else {
        count
    }
}

// The sets with those that a state x gives its parent, each joined with each set of another table: those of the choices from
// x down, or if x is basic or plain a set of its own.
#[cycle(choose_choose_parallel_choose_sequential)]
fn choose(
    parents: &[u8],
    kinds: &[u8],
    exits: &[u8],
    numbers: &[u8],
    exit: u8,
    x: usize,
    own: u16,
    from: &[u16; 1024],
    size: usize,
    to: &mut [u16; 1024],
    count: usize,
) -> usize
    requires { x < 48 }
    ensures { Gives parents.now kinds.now exits.now numbers.now exit x own from.now size to.old count to.new result }
{
    let kind = byte_at(kinds, x);
    if kind == 0 {
        return with_fixed(exits, exit, own, x, from, size, to, count);
    }
    if kind == 2 {
        return choose_parallel(
            parents, kinds, exits, numbers, exit, x, from, size, to, count,
        );
    }
    choose_sequential(
        parents, kinds, exits, numbers, exit, x, from, size, to, count,
    )
}

// The sets with those of the choices from a sequential state s down, each joined with each set of another table.
#[cycle(choose_choose_parallel_choose_sequential)]
fn choose_sequential(
    parents: &[u8],
    kinds: &[u8],
    exits: &[u8],
    numbers: &[u8],
    exit: u8,
    s: usize,
    from: &[u16; 1024],
    size: usize,
    to: &mut [u16; 1024],
    count: usize,
) -> usize
    requires { s < 48 }
    ensures { Chooses false parents.now kinds.now exits.now numbers.now exit s from.now size to.old count to.new result }
{
    let own = set_of(numbers, s);
    let mut total = count;
    for x in s + 1..Tree::STATES {
        if is_child(parents, s, x) {
            total = choose(
                parents, kinds, exits, numbers, exit, x, own, from, size, to, total,
            );
        }
    }
    total
}

// The same of a parallel state: choices of all its children are joined.
#[cycle(choose_choose_parallel_choose_sequential)]
fn choose_parallel(
    parents: &[u8],
    kinds: &[u8],
    exits: &[u8],
    numbers: &[u8],
    exit: u8,
    s: usize,
    from: &[u16; 1024],
    size: usize,
    to: &mut [u16; 1024],
    count: usize,
) -> usize
    requires { s < 48 }
    ensures { Chooses true parents.now kinds.now exits.now numbers.now exit s from.now size to.old count to.new result }
{
    let mut joined = *from;
    let mut made = size;
    for x in s + 1..Tree::STATES {
        if is_child(parents, s, x) {
            let mut next = [0; 1024];
            made = choose(
                parents, kinds, exits, numbers, exit, x, 0, &joined, made, &mut next, 0,
            );
            joined = next;
        }
    }
    with_each(&joined, made, 0, to, count)
}

// The sets of the choices from a state s down.
fn chosen(
    parents: &[u8],
    kinds: &[u8],
    exits: &[u8],
    numbers: &[u8],
    exit: u8,
    s: usize,
    items: &mut [u16; 1024],
) -> usize
    ensures { (c : Chart) → Choosing c parents.now kinds.now exits.now numbers.now s → exit < 8 → length items.old ≡ 1024 → Kept items.new result (choices c exit s) }
{
    if s >= Tree::STATES {
        return 0;
    }
    let none = [0; 1024]; // the set of no automaton
    choose(
        parents, kinds, exits, numbers, exit, s, 0, &none, 1, items, 0,
    )
}

// The alternatives of an exit of a state m, ascending, each once: how many there are, or 1,025 if there are too many for the
// table that is lent.
pub fn alternatives(
    tree: Tree,
    fixed: Fixed,
    automata: Automata,
    m: u8,
    exit: u8,
    items: &mut [u16; 1024],
) -> usize
    ensures { Lists tree fixed automata m exit items.old items.new result }
{
    chosen(
        &tree.parents,
        &fixed.kinds,
        &fixed.exits,
        &automata.numbers,
        exit,
        m as usize,
        items,
    )
}
