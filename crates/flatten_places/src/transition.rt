// The transitions of a chart as columns.
ghost use Rattle.std.specs.Prelude.{◌≤◌, ◌≡◌, length};
ghost use Rattle.chart_records.specs.Chart.{Chart};
ghost use Rattle.chart_records.specs.Laid.{Laid};
ghost use Rattle.flatten_places.specs.Tables.{Columned};

use chart_records::header::Counts;
use chart_records::transition::{destination_of, entry_of, exit_of, source_of};

// Of each transition its source, destination, exit and entry.
#[derive(Clone, Copy)]
pub struct Transitions {
    pub sources: [u8; Transitions::COUNT],
    pub destinations: [u8; Transitions::COUNT],
    pub exits: [u8; Transitions::COUNT],
    pub entries: [u8; Transitions::COUNT],
    pub count: u8,
}

impl Transitions {
    pub const COUNT: usize = 64;
}

// The columns of all transitions of a file.
pub fn columns(rest: &[u8], counts: Counts, offsets: &[u32]) -> Transitions
    ensures { (c : Chart) → Laid rest.now counts offsets.now c → length c.transitions ≤ 64 → Columned c result }
{
    let count = counts.transitions.min(64);
    let mut sources = [0; 64];
    let mut destinations = [0; 64];
    let mut exits = [0; 64];
    let mut entries = [0; 64];
    for t in 0..count {
        let i = t as usize;
        sources[i] = source_of(rest, offsets, t);
        destinations[i] = destination_of(rest, offsets, t);
        exits[i] = exit_of(rest, offsets, t);
        entries[i] = entry_of(rest, offsets, t);
    }
    Transitions {
        sources,
        destinations,
        exits,
        entries,
        count,
    }
}
