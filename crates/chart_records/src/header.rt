// The header of a chart file: version, length and counts.
ghost use Rattle.std.specs.Prelude.{◌≡◌, true, ◌≤◌, length, OnOk};
ghost use Rattle.reading.specs.Verdict.{answer_of};
ghost use Rattle.labels.specs.Label.{limits};
ghost use Rattle.chart_records.specs.Chart.{headed, counts_at, in_range, counts_of};

use labels::label::Limits;
use reading::field::{byte_at, short_of};
use reading::refusal::Refusal;

#[derive(Clone, Copy)]
pub struct Counts {
    pub version: u8,
    pub states: u8,
    pub clocks: u8,
    pub variables: u8,
    pub rendezvous: u8,
    pub broadcasts: u8,
    pub entries: u8,
    pub exits: u8,
    pub transitions: u8,
}

impl Counts {
    // What the labels of such a file may hold.
    pub fn limits(self) -> Limits
        ensures { result ≡ limits self.version self.clocks self.variables }
    {
        Limits {
            version: self.version,
            clocks: self.clocks,
            variables: self.variables,
        }
    }
}

fn is_headed(file: &[u8]) -> bool
    ensures { result ≡ headed file.now }
{
    if file.len() < 11 {
        return false;
    }
    if file.len() > 65536 {
        return false;
    }
    if !reading::version::is_version(file[0]) {
        return false;
    }
    let size = short_of(file[1], file[2]) as usize;
    size == file.len() - 3
}

fn counts_at(file: &[u8]) -> Counts
    ensures { result ≡ counts_at file.now }
{
    Counts {
        version: byte_at(file, 0),
        states: byte_at(file, 3),
        clocks: byte_at(file, 4),
        variables: byte_at(file, 5),
        rendezvous: byte_at(file, 6),
        broadcasts: byte_at(file, 7),
        entries: byte_at(file, 8),
        exits: byte_at(file, 9),
        transitions: byte_at(file, 10),
    }
}

fn in_range(n: Counts) -> bool
    ensures { result ≡ in_range n }
{
    let channels = (n.rendezvous as u16) + (n.broadcasts as u16);
    if n.states < 2 {
        return false;
    }
    if n.states > 48 {
        return false;
    }
    if n.clocks > 8 {
        return false;
    }
    if n.variables > 16 {
        return false;
    }
    if channels > 16 {
        return false;
    }
    if n.entries < 1 {
        return false;
    }
    if n.entries > 16 {
        return false;
    }
    if n.exits > 8 {
        return false;
    }
    if n.transitions > 64 {
        return false;
    }
    true
}

pub fn read_header(file: &[u8]) -> Result<Counts, Refusal>
    ensures means { answer_of result ≡ counts_of file.now }
    ensures within { OnOk result (11 ≤ length file.now) }
{
    if !is_headed(file) {
        return Err(Refusal::ChartHeader);
    }
    let counts = counts_at(file);
    if !in_range(counts) {
        return Err(Refusal::ChartCount);
    }
    Ok(counts)
}
