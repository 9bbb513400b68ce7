// Completion: the active composite states whose active basic states below are all marked with an exit. A state's exits are the
// bits of a byte, so one pass gives the sets of all eight exits. It leaves out what is not active: where the active states are a
// tree nothing is active below such a state, and it bars nothing (`completed_idle`). So the contract asks for a tree, and a step
// makes the pass after 17.
ghost use Rattle.std.specs.Prelude.{◌≡◌, true, cond, not, ◌&&◌, eqb, get_or};
ghost use Rattle.lists.specs.Lists.{has};
ghost use Rattle.chart_records.specs.Chart.{Chart};
ghost use Rattle.chart_records.specs.Rules.{parents};
ghost use Rattle.chart_tree.specs.Table.{Tabled};
ghost use Rattle.chart_moves.specs.Machine.{is_tree};
ghost use Rattle.chart_moves.specs.Completion.{CompleteIn};
ghost use Rattle.chart_moves.specs.declared.configuration.Configuration.{Configuration};

use chart_tree::table::Tree;
use lists::mark::has;
use reading::field::byte_at;

// Of the exits that no child of a state bars those by which it is complete: all if it is active and composite, else none.
fn completing(active: bool, kind: u8, row: u8) -> u8
    ensures { result ≡ cond (active && not (eqb kind 0)) row 0 }
{
    if !active {
        return 0;
    }
    if kind == 0 { 0 } else { row }
}

// The exits that an active state does not bar: a basic one those that it is marked with, a composite one those of its row.
fn unbarred_by(kind: u8, exits: u8, row: u8) -> u8
    ensures { result ≡ cond (eqb kind 0) exits row }
{
    if kind == 0 { exits } else { row }
}

// Of each state the exits by which it is complete, as bits: the sets of all exits, in one pass from the last state to the first.
// Until a state's turn its row has the exits that no child bars; from then on those that complete it. A parent's number is smaller
// than its child's, so at its turn all children have had theirs.
pub fn complete_exits(t: Tree, active: [bool; 48]) -> [u8; 48]
    ensures { (c : Chart) (σ : Configuration) → Tabled c t → parents c ≡ true → σ.active ≡ active → is_tree c σ ≡ true → CompleteIn c σ result }
{
    let mut rows = [255; 48];
    let states = (t.states as usize).min(48);
    for s in (0..states).rev() {
        let row = rows[s];
        rows[s] = completing(active[s], t.kinds[s], row);
        if active[s] {
            let unbarred = unbarred_by(t.kinds[s], t.exits[s], row);
            let above = byte_at(&t.parents, s) as usize;
            if above < s {
                rows[above] = rows[above] & unbarred;
            }
        }
    }
    rows
}

// Whether a state is in the set of an exit.
pub fn is_complete(rows: &[u8], m: u8, exit: u8) -> bool
    ensures { result ≡ has (get_or rows.now m 0) exit }
{
    has(byte_at(rows, m as usize) as u32, exit as u32)
}
