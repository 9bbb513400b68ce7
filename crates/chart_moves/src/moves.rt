// The moves of a step: where its transitions come from and go to, and what they enter.
ghost use Rattle.std.specs.Prelude.{◌≡◌, true, List, [], ◌∷◌, ◌++◌, ◌+◌, ◌<◌, length};
ghost use Rattle.chart_records.specs.Chart.{Chart, Transition};
ghost use Rattle.chart_records.specs.Tree.{entered};
ghost use Rattle.chart_tree.specs.Table.{Tabled, adding};
ghost use Rattle.chart_moves.specs.Active.{Moved};
ghost use Rattle.lists.specs.Lists.{any};
ghost use Rattle.chart_records.specs.Rules.{parents, entry_marks};

use chart_tree::entry::entered;
use chart_tree::table::Tree;

// Of each transition of a step its source, destination and entry.
#[derive(Clone, Copy)]
pub struct Moves {
    pub sources: [u8; Moves::COUNT],
    pub destinations: [u8; Moves::COUNT],
    pub entries: [u8; Moves::COUNT],
    pub count: u8,
}

impl Moves {
    pub const COUNT: usize = 16;
}

pub fn no_moves() -> Moves
    ensures { Moved [] result }
{
    Moves {
        sources: [0; 16],
        destinations: [0; 16],
        entries: [0; 16],
        count: 0,
    }
}

// The moves with one more.
pub fn with_move(m: Moves, source: u8, destination: u8, entry: u8) -> Moves
    ensures { (ts : List Transition) (t : Transition) → Moved ts m → length ts < 16 → source ≡ t.source → destination ≡ t.destination → entry ≡ t.entry → Moved (ts ++ (t ∷ [])) result }
{
    let i = m.count as usize;
    if i >= Moves::COUNT {
        return m;
    }
    let mut next = m;
    next.sources[i] = source;
    next.destinations[i] = destination;
    next.entries[i] = entry;
    next.count = m.count + 1;
    next
}

// The set with the states that the moves enter.
pub fn enter_all(t: Tree, moves: Moves, set: [bool; 48]) -> [bool; 48]
    ensures { (c : Chart) (ts : List Transition) → Tabled c t → parents c ≡ true → entry_marks c ≡ true → Moved ts moves → result ≡ adding 48 c (λ s. any (λ t. entered c t.destination t.entry s) ts) set }
{
    let count = (moves.count as usize).min(Moves::COUNT);
    let mut out = set;
    for i in 0..count {
        let next = entered(t, moves.destinations[i], moves.entries[i], out);
        out = next;
    }
    out
}
