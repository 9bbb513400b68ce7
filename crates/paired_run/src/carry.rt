// The transitions that a move of the network carries.
ghost use Rattle.std.specs.Prelude.{◌≡◌, ℕ, ◌≤◌, not, List, ◌∷◌, length, take, if◌then◌else◌, ◌==◌};
ghost use Rattle.lists.specs.Lists.{keep};
ghost use Rattle.reading.specs.Answer.{done};
ghost use Rattle.network_records.specs.Network.{Network, network_of};
ghost use Rattle.flatten_alternatives.specs.Choosing.{Kept};
ghost use Rattle.agreement.specs.Agreement.{carried};
ghost use Rattle.paired_run.specs.Paired.{list_of};

use flatten_alternatives::ascending::with_number;
use network::bearing::transitions_of;

// Transitions, ascending: the first `count` of the list.
#[derive(Clone, Copy)]
pub struct Transitions {
    pub list: [u16; 16],
    pub count: usize,
}

// A table of ascending numbers with a transition's; 255 is none.
fn with_transition(items: &mut [u16; 1024], count: usize, t: u8) -> usize
    ensures { (xs : List ℕ) → Kept items.old count xs → Kept items.new result (if not (t == 255) then t ∷ xs else xs) }
{
    if t == 255 {
        return count;
    }
    with_number(items, count, t as u16)
}

// The transitions of an array, put into an empty table from the last to the first.
fn tabled(transitions: &[u8; 16], items: &mut [u16; 1024]) -> usize
    ensures { length transitions.now ≡ 16 → length items.old ≡ 1024 → Kept items.new result (keep (λ t. not (t == 255)) transitions.now) }
{
    let mut count = 0;
    for i in (0..16).rev() {
        count = with_transition(items, count, transitions[i]);
    }
    count
}

fn first_sixteen(items: &[u16; 1024]) -> [u16; 16]
    ensures { length items.now ≡ 1024 → result ≡ take 16 items.now }
{
    let mut list = [0; 16];
    for i in 0..16 {
        list[i] = items[i];
    }
    list
}

// The transitions that a move along a list of edges carries.
pub fn carried(file: &[u8], list: &[u16]) -> Transitions
    ensures means { (n : Network) → network_of file.now ≡ done n → length list.now ≤ 16 → list_of result ≡ carried n list.now }
    ensures few { result.count ≤ 16 }
{
    let transitions = transitions_of(file, list);
    let mut items = [0; 1024];
    let count = tabled(&transitions, &mut items);
    Transitions {
        list: first_sixteen(&items),
        count: count.min(16),
    }
}
