// The records of the network's file.
ghost use Rattle.std.specs.Prelude.{◌≡◌, List, ◌*◌, ◌<◌, length};
ghost use Rattle.lists.specs.Lists.{concat};
ghost use Rattle.network_records.specs.Network.{Edge};
ghost use Rattle.chart_records.specs.Chart.{Chart};
ghost use Rattle.chart_records.specs.Laid.{Laid};
ghost use Rattle.chart_records.specs.declared.header.Counts.{Counts};
ghost use Rattle.flatten_edges.specs.Gathering.{head_of, head_bytes};
ghost use Rattle.flattener.specs.Records.{edge_record, Bodied, Writable};
ghost use Rattle.flattener.specs.Writing.{Wrote, part};

use crate::body::{body_size, write_body};
use crate::write::{copy, put_short};
use flatten_edges::head::Head;
use reading::field::byte_at;

// The transition that an edge bears, by its gathered head.
fn transition_at(heads: &[u8], i: u16) -> u8
    ensures { (e : Edge) → part heads.now (13 * i) 13 ≡ head_bytes (head_of e) → result ≡ e.transition }
{
    byte_at(heads, Head::SIZE * (i as usize) + 2)
}

// The record of an edge: its length, its head, its label's body.
fn write_edge(
    out: &mut [u8],
    at: usize,
    heads: &[u8],
    i: u16,
    rest: &[u8],
    offsets: &[u32],
) -> usize
    ensures { (c : Chart) (n : Counts) (e : Edge) → Laid rest.now n offsets.now c → part heads.now (13 * i) 13 ≡ head_bytes (head_of e) → Bodied c e → Wrote out.old at (edge_record e) out.new result }
{
    let t = transition_at(heads, i);
    let size = body_size(rest, offsets, t) as usize;
    let head = put_short(out, at, Head::SIZE + size);
    let body = copy(out, head, heads, Head::SIZE * (i as usize), Head::SIZE);
    write_body(out, body, rest, offsets, t)
}

// The records of all edges.
pub fn write_edges(
    out: &mut [u8],
    at: usize,
    heads: &[u8],
    count: u16,
    rest: &[u8],
    offsets: &[u32],
) -> usize
    ensures { (c : Chart) (es : List Edge) → Writable heads.now count rest.now offsets.now c es → Wrote out.old at (concat edge_record es) out.new result }
{
    let mut place = at;
    for i in 0..count {
        place = write_edge(out, place, heads, i, rest, offsets);
    }
    place
}

// How many bytes they take.
pub fn edges_length(heads: &[u8], count: u16, rest: &[u8], offsets: &[u32]) -> usize
    ensures means { (c : Chart) (es : List Edge) → Writable heads.now count rest.now offsets.now c es → result ≡ length (concat edge_record es) }
    ensures small { result < 8589934592 }
{
    let mut sum = 0;
    for i in 0..count {
        let t = transition_at(heads, i);
        let size = body_size(rest, offsets, t) as usize;
        sum += 2 + Head::SIZE + size;
    }
    sum
}
