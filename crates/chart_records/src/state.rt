// The state records of a chart file.
ghost use Rattle.std.specs.Prelude.{◌≡◌, ◌<◌};
ghost use Rattle.reading.specs.Reading.{byte, many, recorded, skipped};
ghost use Rattle.reading.specs.Places.{onward, reached};
ghost use Rattle.clocks.specs.Clocks.{row};
ghost use Rattle.chart_records.specs.Chart.{Chart, state, state_at};
ghost use Rattle.chart_records.specs.Layout.{state_place, Stated};

use crate::header::Counts;
use reading::field::{
    Fault, read_below, read_byte, read_frame, read_long_marks, read_marks, whole,
};

// The content of a state's record.
fn read_state(s: &[u8], at: usize, counts: Counts) -> Result<usize, Fault>
    ensures { reached s.now tt result ≡ skipped (state counts.clocks counts.entries counts.exits (onward s.now at)) }
{
    let (_, at1) = read_byte(s, at)?;
    let (_, at2) = read_below(s, at1, 3)?;
    let (_, at3) = read_long_marks(s, at2, counts.entries)?;
    let (_, at4) = read_marks(s, at3, counts.exits)?;
    clocks::clock::read_bounds(s, at4, counts.clocks)
}

// The state's record at a place.
fn state_at(s: &[u8], at: usize, counts: Counts) -> Result<usize, Fault>
    ensures { reached s.now tt result ≡ skipped (recorded byte (state counts.clocks counts.entries counts.exits) (onward s.now at)) }
{
    let (bytes, to) = read_frame(s, at)?;
    let used = read_state(bytes, 0, counts)?;
    whole(used, bytes.len(), to)
}

// The records of all states, from a place on.
pub fn read_states(s: &[u8], at: usize, counts: Counts) -> Result<usize, Fault>
    ensures { reached s.now tt result ≡ skipped (many counts.states (recorded byte (state counts.clocks counts.entries counts.exits)) (onward s.now at)) }
{
    let mut place = at;
    for _ in 0..counts.states {
        place = state_at(s, place, counts)?;
    }
    Ok(place)
}

// Where the record of a state stands.
pub fn state_place(clocks: u8, s: u8) -> usize
    ensures is { result ≡ state_place clocks s }
    ensures small { result < 262144 }
{
    8 + (s as usize) * (6 + 4 * (clocks as usize))
}

// The fields of a state's record; past the states 255, 0, 0, 0.
pub fn parent_of(rest: &[u8], counts: Counts, s: u8) -> u8
    ensures { (c : Chart) → Stated rest.now counts c → result ≡ (state_at c s).parent }
{
    if s >= counts.states {
        return 255;
    }
    reading::field::byte_at(rest, state_place(counts.clocks, s) + 1)
}

pub fn kind_of(rest: &[u8], counts: Counts, s: u8) -> u8
    ensures { (c : Chart) → Stated rest.now counts c → result ≡ (state_at c s).kind }
{
    if s >= counts.states {
        return 0;
    }
    reading::field::byte_at(rest, state_place(counts.clocks, s) + 2)
}

pub fn entries_of(rest: &[u8], counts: Counts, s: u8) -> u16
    ensures { (c : Chart) → Stated rest.now counts c → result ≡ (state_at c s).entries }
{
    if s >= counts.states {
        return 0;
    }
    reading::field::short_at(rest, state_place(counts.clocks, s) + 3)
}

pub fn exits_of(rest: &[u8], counts: Counts, s: u8) -> u8
    ensures { (c : Chart) → Stated rest.now counts c → result ≡ (state_at c s).exits }
{
    if s >= counts.states {
        return 0;
    }
    reading::field::byte_at(rest, state_place(counts.clocks, s) + 5)
}

// The bounds of a state; past the states none is said.
pub fn bounds_of(rest: &[u8], counts: Counts, s: u8) -> [u32; 8]
    ensures { (c : Chart) → Stated rest.now counts c → s < counts.states → result ≡ (state_at c s).bounds }
{
    let place = state_place(counts.clocks, s) + 6;
    match clocks::clock::read_row(rest, place, counts.clocks as usize) {
        Ok(read) => read.0,
        Err(_) => [0; 8],
    }
}
