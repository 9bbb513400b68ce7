// Flattening. The edges are gathered first; then the length is added up, 15 and 16 are judged, and only then is a byte of the
// lent buffer written.
ghost use Rattle.std.specs.Prelude.{◌≡◌, length};
ghost use Rattle.chart_records.specs.Chart.{Chart};
ghost use Rattle.chart.specs.Ready.{Ready};
ghost use Rattle.flattening.specs.File.{flatten_of};
ghost use Rattle.flattening.specs.Flatten.{flatten};
ghost use Rattle.flatten_places.specs.Tables.{Chartered};
ghost use Rattle.flatten_tables.specs.Summing.{Summed};
ghost use Rattle.flatten_edges.specs.Gathering.{Gathered};
ghost use Rattle.reading.specs.Verdict.{answer_of};
ghost use Rattle.flattener.specs.Outcomes.{length_of, lent_after, network_for, Answered};

use crate::output::{content_length, write_network};
use chart::check::checked;
use chart_records::header::Counts;
use chart_tree::table::Tree;
use flatten_edges::edge::all_edges;
use flatten_places::automaton::automata_of;
use flatten_places::fixed::fixed_of;
use flatten_places::pair::enter_pairs;
use flatten_places::place::places_of;
use flatten_places::transition::columns;
use flatten_tables::bound::joined_bounds;
use flatten_tables::summary::Summary;
use flatten_tables::tabulate::{summary_of, tables_of};
use reading::refusal::Refusal;

// The network of a chart whose edges are gathered: refused if there are too many, or if it does not fit. The answer of each
// function here is the network's length in bytes.
fn deliver(
    out: &mut [u8],
    summary: Summary,
    heads: &[u8; 13312],
    edges: u16,
    rest: &[u8],
    offsets: &[u32],
) -> Result<usize, Refusal>
    ensures { (c : Chart) → Summed c summary → Ready rest.now summary.counts offsets.now summary.tree c
        → Gathered heads.now edges (flatten c).edges
        → Answered (network_for (length out.old) c) out.old result out.new }
{
    if edges > 1024 {
        return Err(Refusal::ManyEdges);
    }
    let size = content_length(summary, heads, edges, rest, offsets);
    if out.len() < 5 + size {
        return Err(Refusal::ShortBuffer);
    }
    let rows = joined_bounds(rest, summary.counts, summary.tree, summary.fixed);
    write_network(out, size, summary, rows, heads, edges, rest, offsets);
    Ok(5 + size)
}

// Flattening a chart that passes the check.
fn flatten_checked(
    out: &mut [u8],
    rest: &[u8],
    counts: Counts,
    offsets: &[u32],
    tree: Tree,
) -> Result<usize, Refusal>
    ensures { (c : Chart) → Chartered c → Ready rest.now counts offsets.now tree c → Answered (network_for (length out.old) c) out.old result out.new }
{
    let transitions = columns(rest, counts, offsets);
    let fixed = fixed_of(tree);
    let automata = automata_of(tree);
    let enters = enter_pairs(transitions, counts.states, counts.entries);
    let places = places_of(tree, fixed, transitions, automata, enters);
    let tables = tables_of(counts, tree, fixed, transitions, automata, enters, places);
    let summary = summary_of(counts, tables, places);
    let mut heads = [0; 13312];
    let edges = all_edges(&mut heads, &tables, places, rest, offsets);
    deliver(out, summary, &heads, edges, rest, offsets)
}

// The network of the chart in a file, written into the buffer lent. A refused call leaves the buffer as it was; bytes after
// the network keep their values.
pub fn flatten(file: &[u8], out: &mut [u8]) -> Result<usize, Refusal>
    ensures answer { answer_of result ≡ length_of (flatten_of file.now (length out.old)) }
    ensures bytes { out.new ≡ lent_after out.old (flatten_of file.now (length out.old)) }
{
    let f = checked(file)?;
    flatten_checked(out, &file[3..], f.counts, &f.offsets, f.tree)
}
