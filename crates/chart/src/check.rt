// The check of a chart file.
ghost use Rattle.std.specs.Prelude.{◌≡◌, true, List, ℕ, ◌≤◌, length, IfOk};
ghost use Rattle.lists.specs.Lists.{all};
ghost use Rattle.reading.specs.Answer.{done};
ghost use Rattle.reading.specs.Verdict.{answer_of, verdict_of, number};
ghost use Rattle.reading.specs.Reading.{got, mapped};
ghost use Rattle.reading.specs.Places.{onward, read_of};
ghost use Rattle.chart_records.specs.Chart.{Chart, records, in_range};
ghost use Rattle.chart_records.specs.Rules.{keeps_rules, chart_of};
ghost use Rattle.chart_records.specs.Layout.{once};
ghost use Rattle.chart_records.specs.Laid.{Laid};
ghost use Rattle.chart_tree.specs.Table.{Tabled};
ghost use Rattle.chart.specs.Ready.{chart_from, fault_number, Ready};

use crate::transition_list::{Transitions, read_transitions};
use chart_records::header::{Counts, read_header};
use chart_records::state::read_states;
use chart_rules::rule::states_checked;
use chart_rules::transition_rule::{transitions_checked, tree_of};
use chart_tree::table::Tree;
use reading::field::{Fault, Read};
use reading::refusal::Refusal;

// All records, up to the end of the file.
fn read_records(rest: &[u8], counts: Counts) -> Read<Transitions>
    requires { in_range counts ≡ true }
    ensures read { mapped (λ t. t.once) (read_of rest.now result) ≡ mapped (λ c. all once c.transitions) (records counts (onward rest.now 8)) }
    ensures laid { IfOk result (λ r. (c : Chart) (t : List ℕ) → length rest.now ≤ 65536 → records counts (onward rest.now 8) ≡ got c t → Laid rest.now counts r.0.offsets c) }
{
    let at = read_states(rest, 8, counts)?;
    let (transitions, to) = read_transitions(rest, at, counts)?;
    if to < rest.len() {
        return Err(Fault::Length);
    }
    Ok((transitions, to))
}

// The rules, in order.
fn rules_checked(
    rest: &[u8],
    counts: Counts,
    offsets: &[u32],
    passed: bool,
    tree: Tree,
) -> Result<(), Refusal>
    ensures { (c : Chart) → Laid rest.now counts offsets.now c → Tabled c tree → passed ≡ all once c.transitions → answer_of result ≡ verdict_of (keeps_rules c) }
{
    states_checked(rest, counts)?;
    transitions_checked(rest, counts, offsets, passed, tree)
}

// What the machine uses of a file that passes the check.
#[derive(Clone, Copy)]
pub struct CheckedFile {
    pub counts: Counts,
    pub offsets: [u32; 64],
    pub tree: Tree,
}

// What a file is refused for where a record is at fault.
fn refusal_of(f: Fault) -> Refusal
    ensures { number result ≡ fault_number f }
{
    match f {
        Fault::Length => Refusal::ChartLength,
        Fault::Range => Refusal::ChartField,
    }
}

// What follows version and length.
fn checked_records(rest: &[u8], counts: Counts) -> Result<CheckedFile, Refusal>
    requires { (in_range counts ≡ true) × (length rest.now ≤ 65536) }
    ensures means { verdict_of (answer_of result) ≡ verdict_of (chart_from counts (onward rest.now 8)) }
    ensures ready { IfOk result (λ f. (c : Chart) → chart_from counts (onward rest.now 8) ≡ done c → Ready rest.now f.counts f.offsets f.tree c) }
{
    let (transitions, _) = read_records(rest, counts).map_err(refusal_of)?;
    let Transitions { once, offsets } = transitions;
    let tree = tree_of(rest, counts);
    rules_checked(rest, counts, &offsets, once, tree)?;
    Ok(CheckedFile {
        counts,
        offsets,
        tree,
    })
}

// What the machine uses of a file, or what the file is refused for.
pub fn checked(file: &[u8]) -> Result<CheckedFile, Refusal>
    ensures means { verdict_of (answer_of result) ≡ verdict_of (chart_of file.now) }
    ensures ready { IfOk result (λ f. (c : Chart) → chart_of file.now ≡ done c → Ready (onward file.now 3) f.counts f.offsets f.tree c) }
{
    let counts = read_header(file)?;
    checked_records(&file[3..file.len()], counts)
}

// Whether a file holds a chart, or what it is refused for.
pub fn check(file: &[u8]) -> Result<(), Refusal>
    ensures { answer_of result ≡ verdict_of (chart_of file.now) }
{
    checked(file)?;
    Ok(())
}
