// The automata of the network: one for each sequential state, in order.
ghost use Rattle.std.specs.Prelude.{ℕ, ◌≤◌, ◌<◌, List, ◌∷◌, length};
ghost use Rattle.chart_records.specs.Chart.{Chart};
ghost use Rattle.chart_records.specs.Tree.{sequentials};
ghost use Rattle.chart_tree.specs.Table.{Tabled};
ghost use Rattle.flatten_places.specs.Tables.{Automated};
ghost use Rattle.flatten_places.specs.Filling.{AutomatedTo};

use chart_tree::table::Tree;
use reading::field::byte_at;

// The sequential state of each automaton, and the automaton of each sequential state (255 of any other state).
#[derive(Clone, Copy)]
pub struct Automata {
    pub states: [u8; Automata::COUNT],
    pub numbers: [u8; 48],
    pub count: u8,
}

impl Automata {
    pub const COUNT: usize = 16;
}

fn no_automata() -> Automata
    ensures { (c : Chart) → AutomatedTo c (sequentials c) result }
{
    Automata {
        states: [0; 16],
        numbers: [255; 48],
        count: 0,
    }
}

// The automata with that of the state s after those before it.
fn with_automaton(a: Automata, s: u8) -> Automata
    ensures { (c : Chart) (rest : List ℕ) → AutomatedTo c (s ∷ rest) a → length (sequentials c) ≤ 16 → s < 48 → AutomatedTo c rest result }
{
    let i = a.count as usize;
    let j = s as usize;
    if i >= Automata::COUNT {
        return a;
    }
    if j >= 48 {
        return a;
    }
    let mut next = a;
    next.states[i] = s;
    next.numbers[j] = a.count;
    next.count = a.count + 1;
    next
}

// The automata of the chart with these tables.
pub fn automata_of(tree: Tree) -> Automata
    ensures { (c : Chart) → Tabled c tree → length (sequentials c) ≤ 16 → Automated c result }
{
    let mut automata = no_automata();
    for s in 0..tree.states {
        if byte_at(&tree.kinds, s as usize) == 1 {
            automata = with_automaton(automata, s);
        }
    }
    automata
}
