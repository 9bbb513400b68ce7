// The network's file.
ghost use Rattle.std.specs.Prelude.{◌≡◌, [], ◌∷◌, ◌++◌, ◌+◌, ◌*◌, ◌<◌, length};
ghost use Rattle.chart_records.specs.Chart.{Chart};
ghost use Rattle.flattening.specs.File.{out2, content_bytes, network_bytes};
ghost use Rattle.flattening.specs.Flatten.{flatten};
ghost use Rattle.flatten_tables.specs.Bounding.{Bounded};
ghost use Rattle.flatten_tables.specs.Summing.{Summed};
ghost use Rattle.flattener.specs.Records.{Writable};
ghost use Rattle.flattener.specs.Writing.{Wrote};

use crate::location::write_locations;
use crate::record::{edges_length, write_edges};
use crate::write::{put, put_short, put_word};
use chart_records::header::Counts;
use flatten_tables::summary::Summary;

// How many bytes the locations take.
fn locations_length(places: u8, clocks: u8) -> usize
    ensures is { result ≡ places * (4 + 4 * clocks) }
    ensures small { result < 262144 }
{
    (places as usize) * (4 + 4 * (clocks as usize))
}

// How many bytes follow the version and the length.
pub fn content_length(
    summary: Summary,
    heads: &[u8],
    edges: u16,
    rest: &[u8],
    offsets: &[u32],
) -> usize
    ensures means { (c : Chart) → Summed c summary → Writable heads.now edges rest.now offsets.now c (flatten c).edges → result ≡ length (content_bytes (flatten c)) }
    ensures small { result < 17179869184 }
{
    let places = locations_length(summary.places.count, summary.counts.clocks);
    8 + places + edges_length(heads, edges, rest, offsets)
}

// The counts.
fn write_counts(
    out: &mut [u8],
    at: usize,
    counts: Counts,
    automata: u8,
    locations: u8,
    edges: u16,
    broadcasts: u8,
) -> usize
    ensures { Wrote out.old at (automata ∷ locations ∷ out2 edges ++ (counts.clocks ∷ counts.variables ∷ counts.rendezvous ∷ broadcasts ∷ [])) out.new result }
{
    let at1 = put(out, at, automata);
    let at2 = put(out, at1, locations);
    let at3 = put_short(out, at2, edges as usize);
    let at4 = put(out, at3, counts.clocks);
    let at5 = put(out, at4, counts.variables);
    let at6 = put(out, at5, counts.rendezvous);
    put(out, at6, broadcasts)
}

// The whole file: version, length, counts, locations, edges.
pub fn write_network(
    out: &mut [u8],
    size: usize,
    summary: Summary,
    rows: [[u32; 8]; 48],
    heads: &[u8],
    edges: u16,
    rest: &[u8],
    offsets: &[u32],
) -> usize
    ensures { (c : Chart) → Summed c summary → Bounded c summary.tree rows
        → Writable heads.now edges rest.now offsets.now c (flatten c).edges
        → size ≡ length (content_bytes (flatten c))
        → Wrote out.old 0 (network_bytes (flatten c)) out.new result }
{
    let counts = summary.counts;
    let places = summary.places;
    let at1 = put(out, 0, counts.version);
    let at2 = put_word(out, at1, size);
    let at3 = write_counts(
        out,
        at2,
        counts,
        summary.automata,
        places.count,
        edges,
        summary.broadcasts,
    );
    let at4 = write_locations(
        out,
        at3,
        counts.clocks,
        summary.tree,
        rows,
        summary.transitions,
        places,
        summary.initials,
    );
    write_edges(out, at4, heads, edges, rest, offsets)
}
