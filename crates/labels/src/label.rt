// The label of a transition or an edge: what stands from the signal on. Of its body the place is kept: flattening copies the
// bytes, and the network reads the same bytes, so that no law about printing expressions is needed. The pass that computes the
// new variables tells also whether all updates stay in the range: one of its own for 28 would evaluate every expression twice.
ghost use Rattle.std.specs.Prelude.{◌≡◌, true, ◌&&◌, ◌||◌, not, eqb};
ghost use Rattle.lists.specs.Lists.{all, distinct};
ghost use Rattle.reading.specs.Reading.{got, byte, such, many, mapped, skipped};
ghost use Rattle.labels.specs.Guard.{guard, holds};
ghost use Rattle.updates.specs.Update.{update, targets, stays, assign};
ghost use Rattle.labels.specs.Label.{limits, body_once, body, channel_fits, label, heading};
ghost use Rattle.reading.specs.Places.{onward, read_of, reached};
ghost use Rattle.labels.specs.Headings.{label_of};

use crate::guard;
use reading::field;
use reading::field::{Fault, Read};
use updates::update;
pub use updates::update::NewValues;

// What the labels of a file may hold: its version, and how many clocks and variables there are.
#[derive(Clone, Copy)]
pub struct Limits {
    pub version: u8,
    pub clocks: u8,
    pub variables: u8,
}

// So many guards from a place on, as a file is checked.
fn read_guards(s: &[u8], at: usize, count: u8, clocks: u8, variables: u8) -> Result<usize, Fault>
    ensures { reached s.now tt result ≡ skipped (many count (guard clocks variables) (onward s.now at)) }
{
    let mut place = at;
    for _ in 0..count {
        place = guard::read_guard(s, place, clocks, variables)?;
    }
    Ok(place)
}

// So many updates from a place on, as a file is checked: whether no variable is written twice.
fn read_updates(s: &[u8], at: usize, count: u8, version: u8, variables: u8) -> Read<bool>
    ensures { read_of s.now result ≡ mapped (λ us. distinct (targets us)) (many count (update version variables) (onward s.now at)) }
{
    let mut seen = [false; 256];
    let mut once = true;
    let mut place = at;
    for _ in 0..count {
        let (form, next) = update::read_update(s, place, version, variables)?;
        once = update::note(form, once, &mut seen);
        place = next;
    }
    Ok((once, place))
}

// Whether so many guards from a place on, which are known to be there, hold.
fn all_hold(
    s: &[u8],
    at: usize,
    count: u8,
    clocks: u8,
    variables: u8,
    values: &[i32; 16],
    times: [u32; 8],
) -> bool
    ensures { (gs : _) (t : _) → many count (guard clocks variables) (onward s.now at) ≡ got gs t → result ≡ all (holds values.now times) gs }
{
    let mut place = at;
    for _ in 0..count {
        let Ok((holds, next)) = guard::guard_holds(s, place, clocks, variables, values, times)
        else {
            return false;
        };
        if !holds {
            return false;
        }
        place = next;
    }
    true
}

// The variables after so many updates from a place on, which are known to be there. All of them read `old`.
fn all_assigned(
    s: &[u8],
    at: usize,
    count: u8,
    version: u8,
    variables: u8,
    old: [i32; 16],
    new: [i32; 16],
) -> NewValues
    ensures within { (us : _) (t : _) → many count (update version variables) (onward s.now at) ≡ got us t → result.within ≡ all (stays old) us }
    ensures values { (us : _) (t : _) → many count (update version variables) (onward s.now at) ≡ got us t → result.values ≡ assign old us new }
{
    let mut values = new;
    let mut within = true;
    let mut place = at;
    for _ in 0..count {
        let Ok((after, next)) = update::updated_at(s, place, version, variables, old, values) else {
            return NewValues {
                values: old,
                within: false,
            };
        };
        values = after.values;
        within = within & after.within;
        place = next;
    }
    NewValues { values, within }
}

// The variables after no update.
fn unassigned(values: [i32; 16]) -> NewValues
    ensures { (result.within ≡ true) × (result.values ≡ values) }
{
    NewValues {
        within: true,
        values,
    }
}

// Rule 13 of a label with so many updates: a receiver has none, and no variable is written twice.
fn keeps_rule(signal: u8, updates: u8, once: bool) -> bool
    ensures { result ≡ ((not (eqb signal 2) || eqb updates 0) && once) }
{
    if signal == 2 {
        if updates == 0 { once } else { false }
    } else {
        once
    }
}

// The body of a label, as a file is checked: whether it keeps rule 13.
fn read_body(s: &[u8], at: usize, limits: Limits, signal: u8) -> Read<bool>
    ensures { read_of s.now result ≡ mapped (body_once signal) (body limits (onward s.now at)) }
{
    let (guards, at1) = field::read_byte(s, at)?;
    let (updates, at2) = field::read_byte(s, at1)?;
    let at3 = read_guards(s, at2, guards, limits.clocks, limits.variables)?;
    let (once, at4) = read_updates(s, at3, updates, limits.version, limits.variables)?;
    Ok((keeps_rule(signal, updates, once), at4))
}

// 255 without a signal, and else one of the channels.
fn channel_fits(channels: u8, signal: u8, channel: u8) -> bool
    ensures { result ≡ channel_fits channels signal channel }
{
    if signal == 0 {
        channel == 255
    } else {
        channel < channels
    }
}

fn read_channel(s: &[u8], at: usize, channels: u8, signal: u8) -> Read<u8>
    ensures { read_of s.now result ≡ such byte (channel_fits channels signal) (onward s.now at) }
{
    let (channel, next) = field::read_byte(s, at)?;
    if channel_fits(channels, signal, channel) {
        Ok((channel, next))
    } else {
        Err(Fault::Range)
    }
}

// What is kept of a label that was read: its first fields, where its body stands, and whether it keeps rule 13: a flag, since the
// fields are said also where it is false (`label_of`).
#[derive(Clone, Copy)]
pub struct Label {
    pub signal: u8,
    pub channel: u8,
    pub resets: u8,
    pub body: usize,
    pub once: bool,
}

// A label, as a file is checked.
pub fn read_label(s: &[u8], at: usize, limits: Limits, channels: u8) -> Read<Label>
    ensures { label_of s.now result ≡ mapped heading (label limits channels (onward s.now at)) }
{
    let (signal, at1) = field::read_below(s, at, 3)?;
    let (channel, at2) = read_channel(s, at1, channels, signal)?;
    let (resets, body) = field::read_marks(s, at2, limits.clocks)?;
    let (once, next) = read_body(s, body, limits, signal)?;
    let label = Label {
        signal,
        channel,
        resets,
        body,
        once,
    };
    Ok((label, next))
}

// Whether the guards of a body, which is known to stand at a place, hold.
pub fn guards_hold(
    s: &[u8],
    at: usize,
    clocks: u8,
    variables: u8,
    values: &[i32; 16],
    times: [u32; 8],
) -> bool
    ensures { (w : _) (b : _) (t : _) → body (limits w clocks variables) (onward s.now at) ≡ got b t → result ≡ all (holds values.now times) b.guards }
{
    let Ok((guards, at1)) = field::read_byte(s, at) else {
        return false;
    };
    let Ok((_, at2)) = field::read_byte(s, at1) else {
        return false;
    };
    all_hold(s, at2, guards, clocks, variables, values, times)
}

// The variables after the updates of a body, which is known to stand at a place. All of them read `old`.
pub fn assigned(s: &[u8], at: usize, limits: Limits, old: [i32; 16], new: [i32; 16]) -> NewValues
    ensures within { (b : _) (t : _) → body limits (onward s.now at) ≡ got b t → result.within ≡ all (stays old) b.updates }
    ensures values { (b : _) (t : _) → body limits (onward s.now at) ≡ got b t → result.values ≡ assign old b.updates new }
{
    let Ok((guards, at1)) = field::read_byte(s, at) else {
        return unassigned(new);
    };
    let Ok((updates, at2)) = field::read_byte(s, at1) else {
        return unassigned(new);
    };
    let Ok(at3) = read_guards(s, at2, guards, limits.clocks, limits.variables) else {
        return unassigned(new);
    };
    all_assigned(s, at3, updates, limits.version, limits.variables, old, new)
}
