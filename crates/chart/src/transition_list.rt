// The transition records of a chart file, one after the other.
ghost use Rattle.std.specs.Prelude.{◌≡◌, true, List, ℕ, ◌≤◌, ◌<◌, length, IfOk};
ghost use Rattle.lists.specs.Lists.{all};
ghost use Rattle.reading.specs.Reading.{got, byte2, many, recorded, mapped};
ghost use Rattle.reading.specs.Places.{onward, read_of};
ghost use Rattle.chart_records.specs.Layout.{transition_by, once};
ghost use Rattle.chart_records.specs.Chart.{Transition, in_range};
ghost use Rattle.chart_records.specs.Laid.{Placed};

use chart_records::header::Counts;
use labels::label::read_label;
use reading::field::{Read, read_below, read_byte_or_none, read_long_frame, whole};

// The content of a transition's record: whether its label keeps rule 13.
fn read_transition(s: &[u8], at: usize, counts: Counts) -> Read<bool>
    requires { in_range counts ≡ true }
    ensures { read_of s.now result ≡ mapped once (transition_by counts (onward s.now at)) }
{
    let channels = counts.rendezvous + counts.broadcasts;
    let (_, at1) = read_below(s, at, counts.states)?;
    let (_, at2) = read_below(s, at1, counts.states)?;
    let (_, at3) = read_byte_or_none(s, at2, counts.exits)?;
    let (_, at4) = read_byte_or_none(s, at3, counts.entries)?;
    let (label, next) = read_label(s, at4, counts.limits(), channels)?;
    Ok((label.once, next))
}

// The transition's record at a place.
fn transition_at(s: &[u8], at: usize, counts: Counts) -> Read<bool>
    requires { in_range counts ≡ true }
    ensures { read_of s.now result ≡ mapped once (recorded byte2 (transition_by counts) (onward s.now at)) }
{
    let (bytes, to) = read_long_frame(s, at)?;
    let (once, used) = read_transition(bytes, 0, counts)?;
    let next = whole(used, bytes.len(), to)?;
    Ok((once, next))
}

// The transitions that were read: whether all keep rule 13, and where their records stand. A flag, since the places are said also
// where it is false (clause `placed`).
#[derive(Clone, Copy)]
pub struct Transitions {
    pub once: bool,
    pub offsets: [u32; 64],
}

// A place of a file, which is below 65536.
fn offset_of(place: usize) -> u32
    ensures { place < 65536 → result ≡ place }
{
    u32::try_from(place).unwrap_or(0)
}

// The records of all transitions, from a place on.
pub fn read_transitions(rest: &[u8], at: usize, counts: Counts) -> Read<Transitions>
    requires { in_range counts ≡ true }
    ensures read { mapped (λ t. t.once) (read_of rest.now result) ≡ mapped (all once) (many counts.transitions (recorded byte2 (transition_by counts)) (onward rest.now at)) }
    ensures placed { IfOk result (λ r. (ts : List Transition) (t : List ℕ) → length rest.now ≤ 65536 → many counts.transitions (recorded byte2 (transition_by counts)) (onward rest.now at) ≡ got ts t → Placed rest.now counts r.0.offsets ts) }
{
    let mut offsets = [0; 64];
    let mut once = true;
    let mut place = at;
    for i in 0..counts.transitions {
        let (kept, next) = transition_at(rest, place, counts)?;
        offsets[i as usize] = offset_of(place);
        once = once & kept;
        place = next;
    }
    Ok((Transitions { once, offsets }, place))
}
