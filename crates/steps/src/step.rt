// What the steps of charts and networks share: which sets of transitions or edges are allowed, and a step's last tests. The loops
// run over plain numbers: each machine collects the owners of its active receivers.
ghost use Rattle.std.specs.Prelude.{◌≡◌, map, ltb, length};
ghost use Rattle.lists.specs.Lists.{all, keep, elem, ascending, distinct};
ghost use Rattle.reading.specs.Verdict.{answer_of};
ghost use Rattle.steps.specs.Moves.{known, none_fits};
ghost use Rattle.steps.specs.Last.{last_tests};
ghost use Rattle.steps.specs.Cases.{owner_of, signals_on, takes_part, one_sender, allowed_if, case_of};

use reading::refusal::Refusal;

// Of a chosen transition or edge. Its owner is a sequential state or an automaton.
#[derive(Clone, Copy)]
pub struct Member {
    pub signal: u8,
    pub channel: u8,
    pub owner: u8,
}

// Broadcast: allowed if no further active receiver of the channel fits.
#[derive(Clone, Copy)]
pub enum Case {
    Refused,
    Allowed,
    Broadcast(u8),
}

fn ascends(list: &[u16]) -> bool
    ensures { result ≡ ascending list.now }
{
    for i in 1..list.len() {
        if list[i] <= list[i - 1] {
            return false;
        }
    }
    true
}

fn all_below(list: &[u16], count: usize) -> bool
    ensures { result ≡ all (λ m. ltb m count) list.now }
{
    for m in list {
        if *m as usize >= count {
            return false;
        }
    }
    true
}

// One to sixteen numbers below the count, strictly ascending.
pub fn known(list: &[u16], count: usize) -> bool
    ensures { result ≡ known count list.now }
{
    if list.len() < 1 {
        return false;
    }
    if list.len() > 16 {
        return false;
    }
    ascends(list) && all_below(list, count)
}

fn signals_on(m: Member, signal: u8, channel: u8) -> bool
    ensures { result ≡ signals_on signal channel m }
{
    m.signal == signal && m.channel == channel
}

// Whether the member sends or receives on the channel.
fn takes_part(m: Member, channel: u8) -> bool
    ensures { result ≡ takes_part channel m }
{
    signals_on(m, 1, channel) || signals_on(m, 2, channel)
}

// How many members send on the channel.
fn count_senders(members: &[Member], channel: u8) -> usize
    ensures { result ≡ length (keep (signals_on 1 channel) members.now) }
{
    let mut senders = 0;
    for m in members {
        if signals_on(*m, 1, channel) {
            senders += 1;
        }
    }
    senders
}

fn all_take_part(members: &[Member], channel: u8) -> bool
    ensures { result ≡ all (takes_part channel) members.now }
{
    for m in members {
        if !takes_part(*m, channel) {
            return false;
        }
    }
    true
}

// One sender on the channel, and otherwise receivers of it.
fn one_sender(members: &[Member], channel: u8) -> bool
    ensures { result ≡ one_sender channel members.now }
{
    count_senders(members, channel) == 1 && all_take_part(members, channel)
}

// Whether one of the members has the owner.
fn owned(members: &[Member], owner: u8) -> bool
    ensures { result ≡ elem owner (map owner_of members.now) }
{
    for m in members {
        if m.owner == owner {
            return true;
        }
    }
    false
}

fn owners_distinct(members: &[Member]) -> bool
    ensures { result ≡ distinct (map owner_of members.now) }
{
    for i in 0..members.len() {
        if owned(&members[i + 1..], members[i].owner) {
            return false;
        }
    }
    true
}

fn allowed_if(b: bool) -> Case
    ensures { result ≡ allowed_if b }
{
    if b { Case::Allowed } else { Case::Refused }
}

// The case of some members. The first channels are rendezvous channels.
pub fn case_of(members: &[Member], rendezvous: u8) -> Case
    ensures { result ≡ case_of rendezvous members.now }
{
    let [m, others @ ..] = members else {
        return Case::Refused;
    };
    if !owners_distinct(members) {
        return Case::Refused;
    }
    if m.signal == 0 {
        return allowed_if(others.is_empty());
    }
    if !one_sender(members, m.channel) {
        return Case::Refused;
    }
    if m.channel < rendezvous {
        allowed_if(others.len() == 1)
    } else {
        Case::Broadcast(m.channel)
    }
}

// The owner of each member.
pub fn owners_of(members: [Member; 16]) -> [u8; 16]
    ensures { result ≡ map owner_of members }
{
    let mut owners = [0; 16];
    for i in 0..16 {
        let m = members[i];
        owners[i] = m.owner;
    }
    owners
}

// Whether each active receiver, of which the owner is given and else 255, has an owner of the chosen set.
pub fn maximal(receivers: &[u8], owners: &[u8]) -> bool
    ensures { result ≡ none_fits receivers.now owners.now }
{
    'receivers: for receiver in receivers {
        if *receiver == 255 {
            continue;
        }
        for owner in owners {
            if *owner == *receiver {
                continue 'receivers;
            }
        }
        return false;
    }
    true
}

// What becomes of a step by its last three tests: its set is allowed, its updates stay in the range, the bounds after it are kept.
// What a set leads to is computed before, also where the set is not allowed, and dropped where the step is refused.
#[tactic(auto, unfolding(crate::specs::Last::last_tests))]
pub fn last_tests(allowed: bool, within: bool, kept: bool) -> Result<(), Refusal>
    ensures { answer_of result ≡ last_tests allowed within kept }
{
    if !allowed {
        return Err(Refusal::NotAllowed);
    }
    if !within {
        return Err(Refusal::OutOfRange);
    }
    if !kept {
        return Err(Refusal::Bound);
    }
    Ok(())
}
