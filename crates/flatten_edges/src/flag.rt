// The flags that an edge writes, and those that it tests.
ghost use Rattle.std.specs.Prelude.{◌≡◌, cond, ℕ, ◌+◌, ◌*◌, ◌<◌, eqb, length};
ghost use mathlib.Core.List.{List, Memᴰ as Mem};
ghost use Rattle.labels.specs.Label.{Label};
ghost use Rattle.chart_records.specs.Chart.{Chart};
ghost use Rattle.chart_records.specs.Tree.{sequentials};
ghost use Rattle.flattening.specs.Flatten.{Place, all_places, number, on_values, edge, own_edge, signalling};
ghost use Rattle.flatten_edges.specs.Gathering.{head_of};
ghost use Rattle.flatten_edges.specs.Ends.{Flagged, Joins, Signalled, start_off};

use crate::head::Head;
use lists::mark::has;
use reading::field::byte_at;

// The numbers of the two places of an edge, the flags that it writes and their values.
#[derive(Clone, Copy)]
pub struct Ends {
    pub source: u8,
    pub target: u8,
    pub written: u8,
    pub values: u8,
}

// What a label has before its body.
#[derive(Clone, Copy)]
pub struct Signals {
    pub signal: u8,
    pub channel: u8,
    pub resets: u8,
}

// The ends of an edge between two places, by their numbers.
pub fn joining(
    exits: &[u8; 192],
    automata: &[u8; 192],
    initials: &[u8; 16],
    source: u8,
    target: u8,
) -> Ends
    ensures { (c : Chart) (p q : Place) → Flagged c exits.now automata.now initials.now → Mem p (all_places c) → Mem q (all_places c) → source ≡ number c p → target ≡ number c q → Joins c p q result }
{
    let from = byte_at(exits, source as usize);
    let to = byte_at(exits, target as usize);
    let home = byte_at(automata, target as usize);
    let first = byte_at(initials, home as usize);
    let start = byte_at(exits, first as usize);
    let written = from ^ to;
    Ends {
        source,
        target,
        written,
        values: written & (start ^ to),
    }
}

// The head of an edge of the network's own.
pub fn own_head(e: Ends, signal: u8, channel: u8) -> Head
    ensures { (c : Chart) (p q : Place) → Joins c p q e → result ≡ head_of (own_edge c p q (signalling signal channel)) }
{
    Head {
        source: e.source,
        target: e.target,
        transition: 255,
        exit: 255,
        tested: 0,
        needed: 0,
        written: e.written,
        values: e.values,
        signal,
        channel,
        resets: 0,
    }
}

// The head of an edge that bears a transition and tests a set of automata for an exit.
pub fn bearing_head(e: Ends, s: Signals, transition: u8, exit: u8, tested: u16, needed: u16) -> Head
    ensures { (c : Chart) (p q : Place) (l : Label) → Joins c p q e → Signalled l s → needed ≡ cond (eqb exit 255) 0 (on_values c exit tested) → result ≡ head_of (edge c p q transition exit tested l) }
{
    Head {
        source: e.source,
        target: e.target,
        transition,
        exit,
        tested,
        needed,
        written: e.written,
        values: e.values,
        signal: s.signal,
        channel: s.channel,
        resets: s.resets,
    }
}

// A bit before the others, of which there are at most fifteen.
fn with_low(bits: u16, low: bool) -> u16
    ensures { bits < 32768 → result ≡ cond low 1 0 + 2 * bits }
{
    let others = bits % 32768;
    if low { 1 + 2 * others } else { 2 * others }
}

// The automata, of so many, whose initial place is not at the exit.
pub fn start_off(exits: &[u8; 192], initials: &[u8; 16], automata: u8, exit: u8) -> u16
    ensures { (c : Chart) (homes : List ℕ) → Flagged c exits.now homes initials.now → automata ≡ length (sequentials c) → exit < 8 → result ≡ start_off c exit }
{
    if automata > 16 {
        return 0;
    }
    let mut off = 0;
    for a in (0..automata).rev() {
        let first = byte_at(initials, a as usize);
        let at = byte_at(exits, first as usize);
        off = with_low(off, !has(at as u32, exit as u32));
    }
    off
}
