// The transitions that edges bear.
ghost use Rattle.std.specs.Prelude.{◌≡◌, map, get_or};
ghost use Rattle.network_records.specs.Network.{Network, network_of};
ghost use Rattle.network.specs.Bearing.{transition_of, transitions_of, transitions_in};
ghost use Rattle.network_records.specs.Layout.{Laid};

use crate::check::check;
use crate::laid::edge_of;
use network_records::header::Counts;

// The transition of an edge of a checked file, 255 for none and for an edge that the network lacks.
fn transition_of(rest: &[u8], counts: Counts, offsets: &[u32; 1024], m: u16) -> u8
    ensures { (n : Network) → Laid rest.now counts offsets.now n → result ≡ transition_of n m }
{
    if m >= counts.edges {
        return 255;
    }
    let e = edge_of(rest, offsets, m);
    e.transition
}

// The same of edge i of a list, 255 past its end.
fn transition_at(rest: &[u8], counts: Counts, offsets: &[u32; 1024], list: &[u16], i: usize) -> u8
    ensures { (n : Network) → Laid rest.now counts offsets.now n → result ≡ get_or (map (transition_of n) list.now) i 255 }
{
    if i < list.len() {
        transition_of(rest, counts, offsets, list[i])
    } else {
        255
    }
}

// The same of the first sixteen edges of a list.
fn transitions_at(rest: &[u8], counts: Counts, offsets: &[u32; 1024], list: &[u16]) -> [u8; 16]
    ensures { (n : Network) → Laid rest.now counts offsets.now n → result ≡ transitions_of n list.now }
{
    let mut transitions = [255; 16];
    for i in 0..16 {
        transitions[i] = transition_at(rest, counts, offsets, list, i);
    }
    transitions
}

// The same for a file: a step has at most sixteen edges. The file is checked once, for all of them. What is no network
// has no edge that bears one.
pub fn transitions_of(file: &[u8], list: &[u16]) -> [u8; 16]
    ensures { result ≡ transitions_in (network_of file.now) list.now }
{
    let mut offsets = [0; 1024];
    match check(file, &mut offsets) {
        Ok(counts) => transitions_at(&file[5..], counts, &offsets, list),
        Err(_) => [255; 16],
    }
}
