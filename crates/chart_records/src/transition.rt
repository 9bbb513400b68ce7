// The fields of a transition's record, in a checked file.
ghost use Rattle.std.specs.Prelude.{◌≡◌, ◌+◌, ◌<◌, get_or};
ghost use Rattle.chart_records.specs.Chart.{Chart, transition_at, home};
ghost use Rattle.chart_records.specs.Laid.{Laid};

use crate::header::Counts;
use crate::state::parent_of;

// Where the record of a transition stands.
pub fn offset_at(offsets: &[u32], t: u8) -> u32
    ensures { result ≡ get_or offsets.now t 0 }
{
    let i = t as usize;
    if i < offsets.len() { offsets[i] } else { 0 }
}

// The byte of a transition's record at a place in it.
fn field_at(rest: &[u8], offsets: &[u32], t: u8, k: u8) -> u8
    ensures { result ≡ get_or rest.now (get_or offsets.now t 0 + k) 0 }
{
    let place = offset_at(offsets, t) as usize;
    reading::field::byte_at(rest, place + (k as usize))
}

// The fields of a transition's record.
pub fn source_of(rest: &[u8], offsets: &[u32], t: u8) -> u8
    ensures { (c : Chart) (n : Counts) → Laid rest.now n offsets.now c → t < n.transitions → result ≡ (transition_at c t).source }
{
    field_at(rest, offsets, t, 2)
}

pub fn destination_of(rest: &[u8], offsets: &[u32], t: u8) -> u8
    ensures { (c : Chart) (n : Counts) → Laid rest.now n offsets.now c → t < n.transitions → result ≡ (transition_at c t).destination }
{
    field_at(rest, offsets, t, 3)
}

pub fn exit_of(rest: &[u8], offsets: &[u32], t: u8) -> u8
    ensures { (c : Chart) (n : Counts) → Laid rest.now n offsets.now c → t < n.transitions → result ≡ (transition_at c t).exit }
{
    field_at(rest, offsets, t, 4)
}

pub fn entry_of(rest: &[u8], offsets: &[u32], t: u8) -> u8
    ensures { (c : Chart) (n : Counts) → Laid rest.now n offsets.now c → t < n.transitions → result ≡ (transition_at c t).entry }
{
    field_at(rest, offsets, t, 5)
}

pub fn signal_of(rest: &[u8], offsets: &[u32], t: u8) -> u8
    ensures { (c : Chart) (n : Counts) → Laid rest.now n offsets.now c → t < n.transitions → result ≡ (transition_at c t).label.signal }
{
    field_at(rest, offsets, t, 6)
}

pub fn channel_of(rest: &[u8], offsets: &[u32], t: u8) -> u8
    ensures { (c : Chart) (n : Counts) → Laid rest.now n offsets.now c → t < n.transitions → result ≡ (transition_at c t).label.channel }
{
    field_at(rest, offsets, t, 7)
}

pub fn resets_of(rest: &[u8], offsets: &[u32], t: u8) -> u8
    ensures { (c : Chart) (n : Counts) → Laid rest.now n offsets.now c → t < n.transitions → result ≡ (transition_at c t).label.resets }
{
    field_at(rest, offsets, t, 8)
}

// Where the body of a transition's label stands: its guards and assignments.
pub fn body_of(offsets: &[u32], t: u8) -> usize
    ensures { result ≡ get_or offsets.now t 0 + 9 }
{
    let place = offset_at(offsets, t) as usize;
    place + 9
}

// The sequential state that a transition belongs to.
pub fn home_of(rest: &[u8], counts: Counts, offsets: &[u32], t: u8) -> u8
    ensures { (c : Chart) → Laid rest.now counts offsets.now c → t < counts.transitions → result ≡ home c t }
{
    parent_of(rest, counts, source_of(rest, offsets, t))
}
