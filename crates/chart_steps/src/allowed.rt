// Which transitions are active, and which sets of them are allowed.
ghost use Rattle.std.specs.Prelude.{◌≡◌, true, map, ℕ, ◌≤◌, ◌<◌, get_or, length, take};
ghost use Rattle.lists.specs.Lists.{all, below};
ghost use Rattle.labels.specs.Label.{guards_hold};
ghost use Rattle.steps.specs.Moves.{known};
ghost use Rattle.steps.specs.Cases.{member};
ghost use Rattle.chart_records.specs.Chart.{Chart, transition_at, home};
ghost use Rattle.chart_moves.specs.Machine.{active_transition};
ghost use Rattle.chart_moves.specs.Active.{is_allowed};
ghost use Rattle.chart_records.specs.Laid.{Laid};
ghost use Rattle.chart_steps.specs.Asked.{Prepared, receiving_home, is_maximal};

use chart_moves::completion::is_complete;
use chart_moves::configuration::Configuration;
use chart_records::header::Counts;
use chart_records::state::kind_of;
use chart_records::transition::{body_of, channel_of, exit_of, home_of, signal_of, source_of};
use chart_tree::table::is_in;
use steps::step::{Case, Member};

// The number of a transition, of which there are at most 64.
pub fn chosen(m: u16) -> u8
    ensures { m < 64 → result ≡ m }
{
    if m < 64 { m as u8 } else { 0 }
}

// Whether the guards of a transition hold.
fn guards_hold(
    rest: &[u8],
    counts: Counts,
    offsets: &[u32],
    variables: [i32; 16],
    clocks: [u32; 8],
    t: u8,
) -> bool
    ensures { (c : Chart) → Laid rest.now counts offsets.now c → t < counts.transitions → result ≡ guards_hold variables clocks (transition_at c t).label }
{
    let body = body_of(offsets, t);
    labels::label::guards_hold(
        rest,
        body,
        counts.clocks,
        counts.variables,
        &variables,
        clocks,
    )
}

// Whether a transition is active: its source is, its guards hold, and a composite source is completed.
fn is_active(
    rest: &[u8],
    counts: Counts,
    offsets: &[u32],
    given: Configuration,
    complete: &[u8],
    t: u8,
) -> bool
    ensures { (c : Chart) → Prepared rest.now counts offsets.now given complete.now c → t < counts.transitions → result ≡ active_transition c given (transition_at c t) }
{
    let source = source_of(rest, offsets, t);
    if !is_in(&given.active, source as usize) {
        return false;
    }
    if !guards_hold(rest, counts, offsets, given.variables, given.clocks, t) {
        return false;
    }
    if kind_of(rest, counts, source) == 0 {
        return true;
    }
    is_complete(complete, source, exit_of(rest, offsets, t))
}

// Whether each transition of a list is active.
pub fn all_active(
    rest: &[u8],
    counts: Counts,
    offsets: &[u32],
    given: Configuration,
    complete: &[u8],
    list: &[u16],
) -> bool
    ensures { (c : Chart) → Prepared rest.now counts offsets.now given complete.now c → known counts.transitions list.now ≡ true → result ≡ all (active_transition c given) (map (transition_at c) list.now) }
{
    for &m in list {
        if !is_active(rest, counts, offsets, given, complete, chosen(m)) {
            return false;
        }
    }
    true
}

// What is known of a transition of a set.
fn member_of(rest: &[u8], counts: Counts, offsets: &[u32], t: u8) -> Member
    ensures { (c : Chart) → Laid rest.now counts offsets.now c → t < counts.transitions → result ≡ member (λ m. (transition_at c m).label) (home c) t }
{
    Member {
        signal: signal_of(rest, offsets, t),
        channel: channel_of(rest, offsets, t),
        owner: home_of(rest, counts, offsets, t),
    }
}

// The transitions of a list as members.
fn members_of(rest: &[u8], counts: Counts, offsets: &[u32], list: &[u16]) -> [Member; 16]
    ensures { (c : Chart) → Laid rest.now counts offsets.now c → known counts.transitions list.now ≡ true → take (length list.now) result ≡ map (member (λ m. (transition_at c m).label) (home c)) list.now }
{
    let mut members = [Member {
        signal: 0,
        channel: 0,
        owner: 0,
    }; 16];
    for i in 0..list.len().min(16) {
        members[i] = member_of(rest, counts, offsets, chosen(list[i]));
    }
    members
}

// The sequential states that the transitions of a list belong to.
fn homes_of(rest: &[u8], counts: Counts, offsets: &[u32], list: &[u16]) -> [u8; 16]
    ensures { (c : Chart) → Laid rest.now counts offsets.now c → known counts.transitions list.now ≡ true → take (length list.now) result ≡ map (home c) list.now }
{
    let mut homes = [0; 16];
    for i in 0..list.len().min(16) {
        homes[i] = home_of(rest, counts, offsets, chosen(list[i]));
    }
    homes
}

// The sequential state of a transition that is active and receives on the channel, and 255 of any other.
fn receiver_home(
    rest: &[u8],
    counts: Counts,
    offsets: &[u32],
    given: Configuration,
    complete: &[u8],
    channel: u8,
    t: u8,
) -> u8
    ensures { (c : Chart) → Prepared rest.now counts offsets.now given complete.now c → t < counts.transitions → result ≡ receiving_home c given channel t }
{
    if signal_of(rest, offsets, t) != 2 {
        return 255;
    }
    if channel_of(rest, offsets, t) != channel {
        return 255;
    }
    if !is_active(rest, counts, offsets, given, complete, t) {
        return 255;
    }
    home_of(rest, counts, offsets, t)
}

// The same of each transition.
fn receiver_homes(
    rest: &[u8],
    counts: Counts,
    offsets: &[u32],
    given: Configuration,
    complete: &[u8],
    channel: u8,
) -> [u8; 64]
    ensures { (c : Chart) → Prepared rest.now counts offsets.now given complete.now c → take counts.transitions result ≡ map (receiving_home c given channel) (below counts.transitions) }
{
    let mut homes = [0; 64];
    for t in 0..counts.transitions.min(64) {
        homes[t as usize] = receiver_home(rest, counts, offsets, given, complete, channel, t);
    }
    homes
}

// Whether no further active receiver of the channel fits.
fn is_maximal(
    rest: &[u8],
    counts: Counts,
    offsets: &[u32],
    given: Configuration,
    complete: &[u8],
    channel: u8,
    list: &[u16],
) -> bool
    ensures { (c : Chart) → Prepared rest.now counts offsets.now given complete.now c → known counts.transitions list.now ≡ true → result ≡ is_maximal c given channel list.now }
{
    let receivers = receiver_homes(rest, counts, offsets, given, complete, channel);
    let homes = homes_of(rest, counts, offsets, list);
    let transitions = (counts.transitions as usize).min(64);
    let count = list.len().min(16);
    steps::step::maximal(&receivers[..transitions], &homes[..count])
}

// Whether a set of transitions is allowed.
pub fn is_allowed(
    rest: &[u8],
    counts: Counts,
    offsets: &[u32],
    given: Configuration,
    complete: &[u8],
    list: &[u16],
) -> bool
    ensures { (c : Chart) → Prepared rest.now counts offsets.now given complete.now c → known counts.transitions list.now ≡ true → result ≡ is_allowed c given list.now }
{
    let members = members_of(rest, counts, offsets, list);
    let count = list.len().min(16);
    match steps::step::case_of(&members[..count], counts.rendezvous) {
        Case::Refused => false,
        Case::Allowed => true,
        Case::Broadcast(channel) => {
            is_maximal(rest, counts, offsets, given, complete, channel, list)
        }
    }
}
