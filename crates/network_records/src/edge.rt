// The edge records of a network file. The check keeps of an edge only whether rule 13 holds. Once a file is checked, each field
// is read at its fixed place of the record (`kept_at` in proofs/Fields), and the body of the label after them.
ghost use Rattle.std.specs.Prelude.{◌≡◌, true, ◌&&◌, ℕ, ◌+◌, ◌^◌, ltb, eqb};
ghost use Rattle.lists.specs.Lists.{implies, subset};
ghost use Rattle.reading.specs.Reading.{got, byte, byte2, such, recorded, mapped};
ghost use Rattle.labels.specs.Label.{assigns_once};
ghost use Rattle.reading.specs.Places.{onward, read_of};
ghost use Rattle.network_records.specs.Network.{in_range};
ghost use Rattle.network_records.specs.Edges.{label_in, edge_in, edge_from_tested, keeps_once, Kept};

use crate::header::Counts;
use reading::field;
use reading::field::{Fault, Read, byte_at, short_at};

// The fields of an edge, and where the body of its label stands.
#[derive(Clone, Copy)]
pub struct Edge {
    pub source: u8,
    pub target: u8,
    pub transition: u8,
    pub exit: u8,
    pub tested: u16,
    pub needed: u16,
    pub written: u8,
    pub values: u8,
    pub signal: u8,
    pub channel: u8,
    pub resets: u8,
    pub body: usize,
}

// Automata of the network, and none where no exit is tested.
fn tested_fits(tested: u16, automata: u8, exit: u8) -> bool
    ensures { result ≡ (ltb tested (2 ^ automata) && implies (eqb exit 255) (eqb tested 0)) }
{
    let within = field::in_width(tested as u32, automata);
    within & ((exit != 255) | (tested == 0))
}

fn read_tested(s: &[u8], at: usize, automata: u8, exit: u8) -> Read<u16>
    ensures { read_of s.now result ≡ such byte2 (λ x. ltb x (2 ^ automata) && implies (eqb exit 255) (eqb x 0)) (onward s.now at) }
{
    let (x, next) = field::read_short(s, at)?;
    if tested_fits(x, automata, exit) {
        Ok((x, next))
    } else {
        Err(Fault::Range)
    }
}

fn read_needed(s: &[u8], at: usize, tested: u16) -> Read<u16>
    ensures { read_of s.now result ≡ such byte2 (λ x. subset 16 x tested) (onward s.now at) }
{
    let (x, next) = field::read_short(s, at)?;
    if lists::mark::subset(x as u32, tested as u32) {
        Ok((x, next))
    } else {
        Err(Fault::Range)
    }
}

fn read_values(s: &[u8], at: usize, written: u8) -> Read<u8>
    ensures { read_of s.now result ≡ such byte (λ x. subset 8 x written) (onward s.now at) }
{
    let (x, next) = field::read_byte(s, at)?;
    if lists::mark::subset(x as u32, written as u32) {
        Ok((x, next))
    } else {
        Err(Fault::Range)
    }
}

// The channels, of which counts in range give at most 160.
fn channels_of(counts: Counts) -> u8
    ensures { in_range counts ≡ true → result ≡ counts.rendezvous + counts.broadcasts }
{
    counts.rendezvous.saturating_add(counts.broadcasts)
}

// The label of an edge, from its place on: whether it keeps rule 13.
fn read_edge_label(s: &[u8], at: usize, counts: Counts) -> Read<bool>
    ensures { in_range counts ≡ true → read_of s.now result ≡ mapped assigns_once (label_in counts (onward s.now at)) }
{
    let (label, next) = labels::label::read_label(s, at, counts.limits(), channels_of(counts))?;
    Ok((label.once, next))
}

// The content of an edge's record from the automata tested on: whether the label keeps rule 13.
fn read_from_tested(s: &[u8], at: usize, counts: Counts, exit: u8) -> Read<bool>
    ensures { in_range counts ≡ true → (source target transition : ℕ) → read_of s.now result ≡ mapped keeps_once (edge_from_tested counts source target transition exit (onward s.now at)) }
{
    let (tested, at1) = read_tested(s, at, counts.automata, exit)?;
    let (_, at2) = read_needed(s, at1, tested)?;
    let (written, at3) = field::read_byte(s, at2)?;
    let (_, at4) = read_values(s, at3, written)?;
    read_edge_label(s, at4, counts)
}

// The same of the whole content.
fn read_edge(s: &[u8], at: usize, counts: Counts) -> Read<bool>
    ensures { in_range counts ≡ true → read_of s.now result ≡ mapped keeps_once (edge_in counts (onward s.now at)) }
{
    let (_, at1) = field::read_below(s, at, counts.locations)?;
    let (_, at2) = field::read_below(s, at1, counts.locations)?;
    let (_, at3) = field::read_byte_or_none(s, at2, 64)?;
    let (exit, at4) = field::read_byte_or_none(s, at3, 8)?;
    read_from_tested(s, at4, counts, exit)
}

// An edge's record at a place, as a file is checked: whether its label keeps rule 13, and the place after the record.
pub fn edge_at(rest: &[u8], at: usize, counts: Counts) -> Read<bool>
    ensures { in_range counts ≡ true → read_of rest.now result ≡ mapped keeps_once (recorded byte2 (edge_in counts) (onward rest.now at)) }
{
    let (bytes, to) = field::read_long_frame(rest, at)?;
    let (once, used) = read_edge(bytes, 0, counts)?;
    let next = field::whole(used, bytes.len(), to)?;
    Ok((once, next))
}

// The fields of an edge whose record was checked. Each stands at a fixed place of the record.
pub fn fields_at(rest: &[u8], offset: u32) -> Edge
    ensures { (k : _) (e : _) (t : _) → recorded byte2 (edge_in k) (onward rest.now offset) ≡ got e t → Kept k rest.now result e }
{
    let at = offset as usize;
    Edge {
        source: byte_at(rest, at + 2),
        target: byte_at(rest, at + 3),
        transition: byte_at(rest, at + 4),
        exit: byte_at(rest, at + 5),
        tested: short_at(rest, at + 6),
        needed: short_at(rest, at + 8),
        written: byte_at(rest, at + 10),
        values: byte_at(rest, at + 11),
        signal: byte_at(rest, at + 12),
        channel: byte_at(rest, at + 13),
        resets: byte_at(rest, at + 14),
        body: at + 15,
    }
}
