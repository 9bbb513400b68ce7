// How many urgent moves of the network a step of the chart owes.
ghost use Rattle.std.specs.Prelude.{◌≡◌, ◌+◌, ◌<◌, ◌≤◌, true, not, length, if◌then◌else◌, ◌==◌};
ghost use Rattle.reading.specs.Answer.{done};
ghost use Rattle.steps.specs.Moves.{known};
ghost use Rattle.chart_records.specs.Chart.{Chart};
ghost use Rattle.chart_records.specs.Rules.{chart_of};
ghost use Rattle.chart_records.specs.Laid.{Laid};
ghost use Rattle.chart_records.specs.declared.header.Counts.{Counts as Counted};
ghost use Rattle.flattening.specs.Flatten.{has_exit, has_entry};
ghost use Rattle.agreement.specs.Agreement.{named};

// 1 for an exit or an entry, 0 where none is named.
fn one(name: u8) -> u64
    ensures means { result ≡ (if not (name == 255) then 1 else 0) }
    ensures few { result ≤ 1 }
{
    if name == 255 { 0 } else { 1 }
}

// How many of exit and entry a transition names.
fn named_by(rest: &[u8], offsets: &[u32], t: u16) -> u64
    ensures few { result ≤ 2 }
    ensures means { (c : Chart) (k : Counted) → Laid rest.now k offsets.now c → t < k.transitions → result ≡ (if has_exit c t then 1 else 0) + (if has_entry c t then 1 else 0) }
{
    if t > 255 {
        return 0;
    }
    let exits = one(chart_records::transition::exit_of(rest, offsets, t as u8));
    exits + one(chart_records::transition::entry_of(rest, offsets, t as u8))
}

// How many exits and entries the transitions of a list name together.
fn named_in(rest: &[u8], offsets: &[u32], list: &[u16]) -> u64
    requires { length list.now ≤ 16 }
    ensures { (c : Chart) (k : Counted) → Laid rest.now k offsets.now c → known k.transitions list.now ≡ true → result ≡ named c list.now }
{
    let mut sum = 0;
    for t in list {
        sum += named_by(rest, offsets, *t);
    }
    sum
}

// The same of a chart file; what is no chart names none.
pub fn named(file: &[u8], list: &[u16]) -> u64
    requires { length list.now ≤ 16 }
    ensures { (c : Chart) → chart_of file.now ≡ done c → known (length c.transitions) list.now ≡ true → result ≡ named c list.now }
{
    match chart::check::checked(file) {
        Ok(f) => named_in(&file[3..], &f.offsets, list),
        Err(_) => 0,
    }
}
