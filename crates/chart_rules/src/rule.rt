// The rules of a chart's states, 5 to 9.
ghost use Rattle.std.specs.Prelude.{◌≡◌, leb, length};
ghost use Rattle.chart_records.specs.Chart.{Chart};
ghost use Rattle.chart_records.specs.Tree.{is_child, children, sequentials};
ghost use Rattle.chart_records.specs.Rules.{parent_fits, placed, parents, few, some_sequential, inherits, children_marked, entries_fit, entry_marks, exits_fit, exit_marks, state_rules};
ghost use Rattle.reading.specs.Verdict.{answer_of, verdict_of};
ghost use Rattle.chart_records.specs.Layout.{Stated};

use chart_records::header::Counts;
use chart_records::state::{entries_of, exits_of, kind_of, parent_of};
use reading::refusal::Refusal;

fn is_child(rest: &[u8], counts: Counts, m: u8, s: u8) -> bool
    ensures { (c : Chart) → Stated rest.now counts c → result ≡ is_child c m s }
{
    s != 0 && parent_of(rest, counts, s) == m
}

fn has_child(rest: &[u8], counts: Counts, m: u8) -> bool
    ensures { (c : Chart) → Stated rest.now counts c → result ≡ leb 1 (length (children c m)) }
{
    for s in 0..counts.states {
        if is_child(rest, counts, m, s) {
            return true;
        }
    }
    false
}

fn parent_fits(rest: &[u8], counts: Counts, s: u8) -> bool
    ensures { (c : Chart) → Stated rest.now counts c → result ≡ parent_fits c s }
{
    let p = parent_of(rest, counts, s);
    if s == 0 {
        return p == 255;
    }
    if p >= s {
        return false;
    }
    kind_of(rest, counts, p) != 0
}

fn is_placed(rest: &[u8], counts: Counts, s: u8) -> bool
    ensures { (c : Chart) → Stated rest.now counts c → result ≡ placed c s }
{
    if !parent_fits(rest, counts, s) {
        return false;
    }
    if kind_of(rest, counts, s) == 0 {
        return true;
    }
    has_child(rest, counts, s)
}

// 5
pub fn parents(rest: &[u8], counts: Counts) -> bool
    ensures { (c : Chart) → Stated rest.now counts c → result ≡ parents c }
{
    for s in 0..counts.states {
        if !is_placed(rest, counts, s) {
            return false;
        }
    }
    true
}

fn count_sequentials(rest: &[u8], counts: Counts) -> u8
    ensures { (c : Chart) → Stated rest.now counts c → result ≡ length (sequentials c) }
{
    let mut count = 0;
    for s in 0..counts.states {
        if kind_of(rest, counts, s) == 1 {
            count += 1;
        }
    }
    count
}

// 6
pub fn few(rest: &[u8], counts: Counts) -> bool
    ensures { (c : Chart) → Stated rest.now counts c → result ≡ few c }
{
    count_sequentials(rest, counts) <= 16
}

// 7
pub fn some_sequential(rest: &[u8], counts: Counts) -> bool
    ensures { (c : Chart) → Stated rest.now counts c → result ≡ some_sequential c }
{
    count_sequentials(rest, counts) >= 1
}

// A child of a parallel state has its parent's marks.
fn inherits(rest: &[u8], counts: Counts, s: u8) -> bool
    ensures { (c : Chart) → Stated rest.now counts c → result ≡ inherits c s }
{
    if s == 0 {
        return true;
    }
    let p = parent_of(rest, counts, s);
    if kind_of(rest, counts, p) != 2 {
        return true;
    }
    entries_of(rest, counts, s) == entries_of(rest, counts, p)
}

// The children of a state share no mark, and together have each of its own.
fn children_marked(rest: &[u8], counts: Counts, m: u8) -> bool
    ensures { (c : Chart) → Stated rest.now counts c → result ≡ children_marked c m }
{
    let mut seen = 0;
    for s in 0..counts.states {
        if is_child(rest, counts, m, s) {
            let marks = entries_of(rest, counts, s);
            if seen & marks != 0 {
                return false;
            }
            seen = seen | marks;
        }
    }
    lists::mark::subset(entries_of(rest, counts, m) as u32, seen as u32)
}

fn entries_fit(rest: &[u8], counts: Counts, s: u8) -> bool
    ensures { (c : Chart) → Stated rest.now counts c → result ≡ entries_fit c s }
{
    if !inherits(rest, counts, s) {
        return false;
    }
    if kind_of(rest, counts, s) != 1 {
        return true;
    }
    children_marked(rest, counts, s)
}

// 8
pub fn entry_marks(rest: &[u8], counts: Counts) -> bool
    ensures { (c : Chart) → Stated rest.now counts c → result ≡ entry_marks c }
{
    if entries_of(rest, counts, 0) != 1 {
        return false;
    }
    for s in 0..counts.states {
        if !entries_fit(rest, counts, s) {
            return false;
        }
    }
    true
}

fn exits_fit(rest: &[u8], counts: Counts, s: u8) -> bool
    ensures { (c : Chart) → Stated rest.now counts c → result ≡ exits_fit c s }
{
    kind_of(rest, counts, s) == 0 || exits_of(rest, counts, s) == 0
}

// 9
pub fn exit_marks(rest: &[u8], counts: Counts) -> bool
    ensures { (c : Chart) → Stated rest.now counts c → result ≡ exit_marks c }
{
    for s in 0..counts.states {
        if !exits_fit(rest, counts, s) {
            return false;
        }
    }
    true
}

// The rules of the states, in order, or the first that is not kept.
pub fn states_checked(rest: &[u8], counts: Counts) -> Result<(), Refusal>
    ensures { (c : Chart) → Stated rest.now counts c → answer_of result ≡ verdict_of (state_rules c) }
{
    if !parents(rest, counts) {
        return Err(Refusal::Parent);
    }
    if !few(rest, counts) {
        return Err(Refusal::ManySequential);
    }
    if !some_sequential(rest, counts) {
        return Err(Refusal::NoSequential);
    }
    if !entry_marks(rest, counts) {
        return Err(Refusal::EntryMarks);
    }
    if !exit_marks(rest, counts) {
        return Err(Refusal::ExitMarks);
    }
    Ok(())
}
