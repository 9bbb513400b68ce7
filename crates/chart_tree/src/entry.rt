// What entering a state enters.
ghost use Rattle.std.specs.Prelude.{◌≡◌, true, ◌&&◌, map, ◌<◌, ltb, eqb, get_or, length};
ghost use Rattle.lists.specs.Lists.{has, below};
ghost use Rattle.chart_records.specs.Chart.{Chart, parallel};
ghost use Rattle.chart_records.specs.Tree.{entered};
ghost use Rattle.chart_records.specs.Rules.{parents, entry_marks};
ghost use Rattle.chart_tree.specs.Table.{Tabled, Enters, adding};

use crate::table::{Tree, is_child, marks_at};
use lists::mark::has;
use reading::field::byte_at;

// Whether x, which is not the root, is a child of s that is marked with the entry.
fn is_marked_child(parents: &[u8], entries: &[u16], entry: u8, s: usize, x: usize) -> bool
    ensures { result ≡ (eqb (get_or parents.now x 0) s && has (get_or entries.now x 0) entry) }
{
    is_child(parents, s, x) && has(marks_at(entries, x) as u32, entry as u32)
}

// The set with the states that entering the sequential state s enters: s, and what its marked child enters.
#[cycle(enter_parallel_enter_sequential)]
fn enter_sequential(
    parents: &[u8],
    kinds: &[u8],
    entries: &[u16],
    entry: u8,
    s: usize,
    set: [bool; Tree::STATES],
) -> [bool; Tree::STATES]
    requires { s < 48 }
    ensures { (c : Chart) → Enters c parents.now kinds.now entries.now entry s → result ≡ adding 48 c (entered c s entry) set }
{
    let mut out = set;
    out[s] = true;
    for x in s + 1..Tree::STATES {
        if is_marked_child(parents, entries, entry, s, x) {
            let kind = byte_at(kinds, x); // of the marked child
            match kind {
                0 => out[x] = true,
                2 => out = enter_parallel(parents, kinds, entries, entry, x, out),
                _ => out = enter_sequential(parents, kinds, entries, entry, x, out),
            }
        }
    }
    out
}

// The same of a parallel state: s, and what each of its children enters.
#[cycle(enter_parallel_enter_sequential)]
fn enter_parallel(
    parents: &[u8],
    kinds: &[u8],
    entries: &[u16],
    entry: u8,
    s: usize,
    set: [bool; Tree::STATES],
) -> [bool; Tree::STATES]
    requires { s < 48 }
    ensures { (c : Chart) → Enters c parents.now kinds.now entries.now entry s → parallel c s ≡ true → result ≡ adding 48 c (entered c s entry) set }
{
    let mut out = set;
    out[s] = true;
    for x in s + 1..Tree::STATES {
        if is_child(parents, s, x) {
            let kind = byte_at(kinds, x); // of each child
            match kind {
                0 => out[x] = true,
                2 => out = enter_parallel(parents, kinds, entries, entry, x, out),
                _ => out = enter_sequential(parents, kinds, entries, entry, x, out),
            }
        }
    }
    out
}

// The set with the states that entering a destination enters: by no entry (255) itself, else what is marked.
pub fn entered(
    t: Tree,
    destination: u8,
    entry: u8,
    set: [bool; Tree::STATES],
) -> [bool; Tree::STATES]
    ensures { (c : Chart) → Tabled c t → parents c ≡ true → entry_marks c ≡ true → result ≡ adding 48 c (entered c destination entry) set }
{
    let d = destination as usize;
    if destination >= t.states {
        return set;
    }
    if d >= Tree::STATES {
        return set;
    }
    if entry == 255 {
        let mut out = set;
        out[d] = true;
        return out;
    }
    if !has(t.entries[d] as u32, entry as u32) {
        return set;
    }
    if t.kinds[d] == 2 {
        enter_parallel(&t.parents, &t.kinds, &t.entries, entry, d, set)
    } else {
        enter_sequential(&t.parents, &t.kinds, &t.entries, entry, d, set)
    }
}

// The active states at the start.
pub fn start_active(t: Tree) -> [bool; Tree::STATES]
    ensures { (c : Chart) → Tabled c t → parents c ≡ true → entry_marks c ≡ true → result ≡ map (λ s. ltb s (length c.states) && entered c 0 0 s) (below 48) }
{
    entered(t, 0, 0, [false; 48])
}
