// The edges of a checked file, each at its offset.
ghost use Rattle.std.specs.Prelude.{◌≡◌, true, ◌<◌, eqb, get_or};
ghost use Rattle.lists.specs.Lists.{all};
ghost use Rattle.network_records.specs.Network.{Network, location_at, edge_at, owner_of, lex_less, edges_ascend};
ghost use Rattle.network_records.specs.Edges.{Kept};
ghost use Rattle.network_records.specs.Layout.{Located, Laid};
ghost use Rattle.network.specs.Keys.{key_of};

use network_records::edge::{Edge, fields_at};
use network_records::header::Counts;
use network_records::location::automaton_of;

// The offset of edge i, of which there are at most 1024.
pub fn offset_of(offsets: &[u32; 1024], i: u16) -> u32
    ensures { i < 1024 → result ≡ get_or offsets.now i 0 }
{
    let j = i as usize;
    if j < 1024 { offsets[j] } else { 0 }
}

// Edge i of a checked file.
pub fn edge_of(rest: &[u8], offsets: &[u32; 1024], i: u16) -> Edge
    ensures { (k : _) (n : Network) → Laid rest.now k offsets.now n → i < k.edges → Kept k rest.now result (edge_at n i) }
{
    let offset = offset_of(offsets, i);
    fields_at(rest, offset)
}

// Whether an edge joins two locations of one automaton.
fn joins(rest: &[u8], counts: Counts, e: Edge) -> bool
    ensures { (n : Network) → Located rest.now counts n → result ≡ eqb (location_at n e.source).automaton (location_at n e.target).automaton }
{
    let from = automaton_of(rest, counts, e.source);
    from == automaton_of(rest, counts, e.target)
}

// Whether each edge does.
pub fn all_join(rest: &[u8], counts: Counts, offsets: &[u32; 1024]) -> bool
    ensures { (n : Network) → Laid rest.now counts offsets.now n → result ≡ all (λ e. eqb (owner_of n e) (location_at n e.target).automaton) n.edges }
{
    for i in 0..counts.edges {
        let e = edge_of(rest, offsets, i);
        if !joins(rest, counts, e) {
            return false;
        }
    }
    true
}

// The order of edges in a file.
fn precedes(x: Edge, y: Edge) -> bool
    ensures { result ≡ lex_less (key_of x) (key_of y) }
{
    let x_key = (x.source, x.target, x.transition, x.tested, x.channel);
    let y_key = (y.source, y.target, y.transition, y.tested, y.channel);
    x_key < y_key
}

// Whether the edges are in order, and none stands twice.
pub fn all_ascend(rest: &[u8], counts: Counts, offsets: &[u32; 1024]) -> bool
    ensures { (n : Network) → Laid rest.now counts offsets.now n → result ≡ edges_ascend n.edges }
{
    for i in 1..counts.edges {
        let a = edge_of(rest, offsets, i - 1);
        let b = edge_of(rest, offsets, i);
        if !precedes(a, b) {
            return false;
        }
    }
    true
}
