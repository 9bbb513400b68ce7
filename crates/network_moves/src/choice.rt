// Whether a set of edges may be taken together.
ghost use Rattle.std.specs.Prelude.{◌≡◌, List, map, ℕ, ◌≤◌, ◌<◌, length, take};
ghost use Rattle.lists.specs.Lists.{below};
ghost use Rattle.labels.specs.Label.{receives};
ghost use Rattle.steps.specs.Moves.{maximal};
ghost use Rattle.steps.specs.Cases.{member};
ghost use Rattle.network_records.specs.Network.{Network};
ghost use Rattle.network_records.specs.Layout.{Laid};
ghost use Rattle.network_moves.specs.Choices.{label_at, owner_at, active_at, receiver_at, Known, Members, allowed_in};

use crate::active::is_active;
use crate::configuration::Configuration;
use network::laid::edge_of;
use network_records::header::Counts;
use network_records::location::automaton_of;
use steps::step::{Case, Member};

// What is known of edge m.
fn member_of(rest: &[u8], counts: Counts, offsets: &[u32; 1024], m: u16) -> Member
    ensures { (n : Network) → Laid rest.now counts offsets.now n → m < counts.edges → result ≡ member (label_at n) (owner_at n) m }
{
    let e = edge_of(rest, offsets, m);
    let owner = automaton_of(rest, counts, e.source);
    Member {
        signal: e.signal,
        channel: e.channel,
        owner,
    }
}

// The same of each edge of a list, which has at most sixteen.
fn members_of(rest: &[u8], counts: Counts, offsets: &[u32; 1024], list: &[u16]) -> [Member; 16]
    ensures { (n : Network) → Laid rest.now counts offsets.now n → Known counts list.now → length list.now ≤ 16 → Members n list.now result }
{
    let mut members = [Member {
        signal: 0,
        channel: 0,
        owner: 0,
    }; 16];
    for i in 0..list.len().min(16) {
        members[i] = member_of(rest, counts, offsets, list[i]);
    }
    members
}

// Whether edge m receives on the channel.
fn hears(rest: &[u8], offsets: &[u32; 1024], channel: u8, m: u16) -> bool
    ensures { (k : _) (n : Network) → Laid rest.now k offsets.now n → m < k.edges → result ≡ receives (label_at n m) channel }
{
    let e = edge_of(rest, offsets, m);
    (e.signal == 2) & (e.channel == channel)
}

// The automaton of edge m if it is an active receiver of the channel, and else 255.
fn active_receiver(
    rest: &[u8],
    counts: Counts,
    offsets: &[u32; 1024],
    c: Configuration,
    channel: u8,
    m: u16,
) -> u8
    ensures { (n : Network) → Laid rest.now counts offsets.now n → m < counts.edges → result ≡ receiver_at n c channel m }
{
    if !hears(rest, offsets, channel, m) {
        return 255;
    }
    let e = edge_of(rest, offsets, m);
    if is_active(rest, counts, c, e) {
        automaton_of(rest, counts, e.source)
    } else {
        255
    }
}

// The same of each edge.
fn active_receivers(
    rest: &[u8],
    counts: Counts,
    offsets: &[u32; 1024],
    c: Configuration,
    channel: u8,
) -> [u8; 1024]
    ensures { (n : Network) → Laid rest.now counts offsets.now n → take counts.edges result ≡ map (receiver_at n c channel) (below counts.edges) }
{
    let mut receivers = [255; 1024];
    for m in 0..counts.edges.min(1024) {
        receivers[m as usize] = active_receiver(rest, counts, offsets, c, channel, m);
    }
    receivers
}

// Whether no further active receiver of the channel fits beside edges with these owners.
fn none_fits(
    rest: &[u8],
    counts: Counts,
    offsets: &[u32; 1024],
    c: Configuration,
    channel: u8,
    owners: &[u8],
) -> bool
    ensures { (n : Network) (ms : List ℕ) → Laid rest.now counts offsets.now n → owners.now ≡ map (owner_at n) ms → result ≡ maximal (label_at n) (owner_at n) (active_at n c) counts.edges channel ms }
{
    let edges = counts.edges as usize;
    if edges > 1024 {
        return false;
    }
    let receivers = active_receivers(rest, counts, offsets, c, channel);
    steps::step::maximal(&receivers[..edges], owners)
}

// Whether a list of at most sixteen edges is an allowed set.
pub fn is_allowed(
    rest: &[u8],
    counts: Counts,
    offsets: &[u32; 1024],
    c: Configuration,
    list: &[u16],
) -> bool
    ensures { (n : Network) → Laid rest.now counts offsets.now n → Known counts list.now → length list.now ≤ 16 → result ≡ allowed_in n c counts list.now }
{
    let count = list.len();
    if count > 16 {
        return false;
    }
    let members = members_of(rest, counts, offsets, list);
    let owners = steps::step::owners_of(members);
    match steps::step::case_of(&members[..count], counts.rendezvous) {
        Case::Refused => false,
        Case::Allowed => true,
        Case::Broadcast(channel) => {
            none_fits(rest, counts, offsets, c, channel, &owners[..count])
        }
    }
}
