// Which edges are active.
ghost use Rattle.std.specs.Prelude.{◌≡◌};
ghost use Rattle.std.specs.Bool.{beq};
ghost use Rattle.lists.specs.Lists.{all, any, has, implies};
ghost use Rattle.network_records.specs.Network.{Network, urgent_at, edge_at};
ghost use Rattle.network_moves.specs.Machine.{flags_agree, active_edge};
ghost use Rattle.network_moves.specs.Choices.{Known};
ghost use Rattle.network_records.specs.Edges.{Kept};
ghost use Rattle.network_records.specs.Layout.{Located, Laid};

use crate::configuration::{Configuration, place};
use network::laid::edge_of;
use network_records::edge::Edge;
use network_records::header::Counts;
use network_records::location::{automaton_of, is_urgent};

// Whether an automaton's flag for the exit is as needed, if it is tested.
fn flag_agrees(flags: u8, exit: u8, tested: bool, needed: bool) -> bool
    ensures { result ≡ implies tested (beq (has flags exit) needed) }
{
    let flag = lists::mark::has(flags as u32, exit as u32);
    !tested | (flag == needed)
}

// Whether the flags that an edge tests have the values that it needs.
fn flags_agree(c: Configuration, e: Edge) -> bool
    ensures { (k : _) (s : _) (d : _) → Kept k s e d → result ≡ flags_agree c d }
{
    for a in 0..16 {
        let tested = lists::mark::has(e.tested as u32, a as u32);
        let needed = lists::mark::has(e.needed as u32, a as u32);
        if !flag_agrees(c.flags[a], e.exit, tested, needed) {
            return false;
        }
    }
    true
}

// Whether an edge is active: its source is occupied, its guards hold, its flags agree.
pub fn is_active(rest: &[u8], counts: Counts, c: Configuration, e: Edge) -> bool
    ensures { (n : Network) (d : _) → Located rest.now counts n → Kept counts rest.now e d → result ≡ active_edge n c d }
{
    let owner = automaton_of(rest, counts, e.source);
    let occupied = place(c, owner) == e.source;
    let holds = labels::label::guards_hold(
        rest,
        e.body,
        counts.clocks,
        counts.variables,
        &c.variables,
        c.clocks,
    );
    let agree = flags_agree(c, e);
    occupied & (holds & agree)
}

// Whether each edge of a list is, which has numbers of edges only.
pub fn all_active(
    rest: &[u8],
    counts: Counts,
    offsets: &[u32; 1024],
    c: Configuration,
    list: &[u16],
) -> bool
    ensures { (n : Network) → Laid rest.now counts offsets.now n → Known counts list.now → result ≡ all (λ m. active_edge n c (edge_at n m)) list.now }
{
    for &m in list {
        let e = edge_of(rest, offsets, m);
        if !is_active(rest, counts, c, e) {
            return false;
        }
    }
    true
}

// Whether an edge of a list leaves an urgent location.
pub fn any_urgent(rest: &[u8], counts: Counts, offsets: &[u32; 1024], list: &[u16]) -> bool
    ensures { (n : Network) → Laid rest.now counts offsets.now n → Known counts list.now → result ≡ any (λ m. urgent_at n (edge_at n m).source) list.now }
{
    for &m in list {
        let e = edge_of(rest, offsets, m);
        if is_urgent(rest, counts, e.source) {
            return true;
        }
    }
    false
}
