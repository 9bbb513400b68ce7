// The edges of the network's own: an automaton hears that a state is entered or left.
ghost use Rattle.std.specs.Prelude.{◌≡◌, cond, ◌&&◌, [], ◌∷◌, ℕ, ◌<◌, length};
ghost use Rattle.lists.specs.Lists.{has};
ghost use Rattle.chart_records.specs.Chart.{Chart};
ghost use Rattle.chart_records.specs.Tree.{under, entered};
ghost use Rattle.chart_tree.specs.Table.{Rooted};
ghost use Rattle.flattening.specs.Flatten.{Place, signalling, own_edge};
ghost use Rattle.flatten_edges.specs.Adding.{Adds};
ghost use Rattle.flatten_edges.specs.Ends.{Joins};
ghost use Rattle.flatten_edges.specs.Hearing.{Entering, HearsEntries, HearsExits, entry_edges, exit_edges};

use crate::flag::{Ends, own_head};
use crate::head::push;
use chart_tree::table::{marks_at, under};
use flatten_places::pair::channel_of;
use lists::mark::has;
use reading::field::byte_at;

// Whether entering d by an entry enters s.
fn enters(parents: &[u8; 48], entries: &[u16; 48], d: u8, e: u8, s: u8) -> bool
    ensures { (c : Chart) → Entering c parents.now entries.now → s < length c.states → e < 16 → result ≡ entered c d e s }
{
    let top = d as usize;
    let mut x = s as usize;
    // A loop by `while`: it climbs from parent to parent, and counts no index.
    while x > top {
        if !has(marks_at(entries, x) as u32, e as u32) {
            return false;
        }
        let above = byte_at(parents, x) as usize;
        if above >= x {
            return false;
        }
        x = above;
    }
    x == top && has(marks_at(entries, x) as u32, e as u32)
}

// An edge that hears a channel, if it does.
fn push_if(heads: &mut [u8; 13312], count: u16, heard: bool, e: Ends, channel: u8) -> u16
    ensures { (c : Chart) (p q : Place) → Joins c p q e → Adds heads.old count heads.new result (cond heard (own_edge c p q (signalling 2 channel) ∷ []) []) }
{
    if heard {
        return push(heads, count, own_head(e, 2, channel));
    }
    count
}

// Whether a child with such marks is entered by a pair, as q is.
fn hears_entry(parents: &[u8; 48], entries: &[u16; 48], own: u16, q: u8, d: u8, mark: u8) -> bool
    ensures { (c : Chart) → Entering c parents.now entries.now → q < length c.states → mark < 16 → result ≡ (entered c d mark q && has own mark) }
{
    if !has(own as u32, mark as u32) {
        return false;
    }
    enters(parents, entries, d, mark, q)
}

// The edges by which the child s of an idle state is entered: e joins the two.
pub fn hear_entries(
    heads: &mut [u8; 13312],
    count: u16,
    e: Ends,
    parents: &[u8; 48],
    entries: &[u16; 48],
    q: u8,
    s: u8,
    states: &[u8; 64],
    marks: &[u8; 64],
    pairs: u8,
    before: u8,
) -> u16
    ensures { (c : Chart) → HearsEntries c e parents.now entries.now q s states.now marks.now pairs before
        → Adds heads.old count heads.new result (entry_edges c q s) }
{
    let own = marks_at(entries, s as usize);
    let mut n = count;
    for k in 0..pairs {
        let d = byte_at(states, k as usize);
        let mark = byte_at(marks, k as usize);
        let heard = hears_entry(parents, entries, own, q, d, mark);
        n = push_if(heads, n, heard, e, channel_of(before, k));
    }
    n
}

// Whether a child of q goes idle by a pair, if states below it have such marks.
fn hears_exit(parents: &[u8; 48], below: u8, q: u8, m: u8, mark: u8) -> bool
    ensures { (c : Chart) → Rooted c parents.now → q < length c.states → result ≡ (under c m q && has below mark) }
{
    if !has(below as u32, mark as u32) {
        return false;
    }
    under(parents, m as usize, q as usize)
}

// The edges by which a child of q goes idle: e joins the two.
pub fn hear_exits(
    heads: &mut [u8; 13312],
    count: u16,
    e: Ends,
    parents: &[u8; 48],
    below: u8,
    q: u8,
    states: &[u8; 64],
    marks: &[u8; 64],
    pairs: u8,
    before: u8,
) -> u16
    ensures { (c : Chart) (s : ℕ) → HearsExits c s e parents.now below q states.now marks.now pairs before
        → Adds heads.old count heads.new result (exit_edges c s q) }
{
    let mut n = count;
    for k in 0..pairs {
        let m = byte_at(states, k as usize);
        let mark = byte_at(marks, k as usize);
        let heard = hears_exit(parents, below, q, m, mark);
        n = push_if(heads, n, heard, e, channel_of(before, k));
    }
    n
}
