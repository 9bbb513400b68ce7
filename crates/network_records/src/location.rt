// The location records of a network file. Once they are checked they all have one size, so each one's place is known.
ghost use Rattle.std.specs.Prelude.{◌≡◌, ◌+◌, ◌<◌, eqb};
ghost use Rattle.reading.specs.Reading.{byte, many, recorded, skipped};
ghost use Rattle.reading.specs.Places.{onward, reached};
ghost use Rattle.clocks.specs.Clocks.{left_where, row, keeps, row_left};
ghost use Rattle.network_records.specs.Network.{Network, location, location_at, urgent_at};
ghost use Rattle.network_records.specs.Layout.{location_place, Located};

use crate::header::Counts;
use reading::field;
use reading::field::Fault;

// The content of a location's record.
fn read_location(s: &[u8], at: usize, automata: u8, clocks: u8) -> Result<usize, Fault>
    ensures { reached s.now tt result ≡ skipped (location automata clocks (onward s.now at)) }
{
    let (_, at1) = field::read_below(s, at, automata)?;
    let (_, at2) = field::read_below(s, at1, 2)?;
    let (_, at3) = field::read_below(s, at2, 2)?;
    clocks::clock::read_bounds(s, at3, clocks)
}

// The location's record at a place.
fn location_at(s: &[u8], at: usize, automata: u8, clocks: u8) -> Result<usize, Fault>
    ensures { reached s.now tt result ≡ skipped (recorded byte (location automata clocks) (onward s.now at)) }
{
    let (bytes, to) = field::read_frame(s, at)?;
    let used = read_location(bytes, 0, automata, clocks)?;
    field::whole(used, bytes.len(), to)
}

// All location records, from a place on.
pub fn read_locations(rest: &[u8], at: usize, counts: Counts) -> Result<usize, Fault>
    ensures { reached rest.now tt result ≡ skipped (many counts.locations (recorded byte (location counts.automata counts.clocks)) (onward rest.now at)) }
{
    let mut place = at;
    for _ in 0..counts.locations {
        place = location_at(rest, place, counts.automata, counts.clocks)?;
    }
    Ok(place)
}

// The place of a byte of location i's record, which is the first at 0.
fn location_place(clocks: u8, i: u8, byte: u8) -> usize
    ensures { result ≡ location_place clocks i + byte }
{
    8 + (i as usize) * (4 + 4 * (clocks as usize)) + (byte as usize)
}

// What location i of a checked file has; there is no location from the count on.
pub fn automaton_of(rest: &[u8], counts: Counts, i: u8) -> u8
    ensures { (n : Network) → Located rest.now counts n → result ≡ (location_at n i).automaton }
{
    if i < counts.locations {
        field::byte_at(rest, location_place(counts.clocks, i, 1))
    } else {
        0
    }
}

pub fn is_urgent(rest: &[u8], counts: Counts, i: u8) -> bool
    ensures { (n : Network) → Located rest.now counts n → result ≡ urgent_at n i }
{
    i < counts.locations && field::byte_at(rest, location_place(counts.clocks, i, 2)) == 1
}

pub fn is_initial(rest: &[u8], counts: Counts, i: u8) -> bool
    ensures { (n : Network) → Located rest.now counts n → result ≡ eqb (location_at n i).initial 1 }
{
    i < counts.locations && field::byte_at(rest, location_place(counts.clocks, i, 3)) == 1
}

// The bounds of a location; from the count on none is said.
pub fn bounds_of(rest: &[u8], counts: Counts, i: u8) -> [u32; 8]
    ensures { (n : Network) → Located rest.now counts n → i < counts.locations → result ≡ (location_at n i).bounds }
{
    let place = location_place(counts.clocks, i, 4);
    match clocks::clock::read_row(rest, place, counts.clocks as usize) {
        Ok(read) => read.0,
        Err(_) => [0; 8],
    }
}

// Whether clocks keep the bounds of location i.
pub fn keeps_bounds(rest: &[u8], counts: Counts, i: u8, clocks: [u32; 8]) -> bool
    ensures { (n : Network) → Located rest.now counts n → result ≡ keeps (location_at n i).bounds clocks }
{
    i >= counts.locations || clocks::clock::keeps(bounds_of(rest, counts, i), clocks)
}

// The ticks left for clocks under the bounds of location i, and `ticks` at most. There are none, not even 0, where the clocks break a bound.
pub fn left_under(rest: &[u8], counts: Counts, i: u8, clocks: [u32; 8], ticks: u32) -> Option<u32>
    ensures { (n : Network) → Located rest.now counts n → result ≡ left_where (keeps (location_at n i).bounds clocks) (row_left n.clocks (location_at n i).bounds clocks ticks) }
{
    if i < counts.locations {
        let bounds = bounds_of(rest, counts, i);
        clocks::left::under_row(counts.clocks as usize, bounds, clocks, ticks)
    } else {
        Some(ticks)
    }
}
