// The check of a network file: one pass over its records, then the rules. The table of the edges' offsets is lent. Handed back
// by value it would be copied twice within a frame of the stack, between places 4 bytes apart modulo 4,096: a processor was
// found that takes 1.4 microseconds for such a copy of 4 KB, where any other takes 50 ns.
ghost use Rattle.std.specs.Prelude.{◌≡◌, true, ◌<◌, ◌^◌, length};
ghost use Rattle.lists.specs.Lists.{all};
ghost use Rattle.reading.specs.Places.{onward};
ghost use Rattle.reading.specs.Verdict.{number};
ghost use Rattle.network_records.specs.Network.{Network, in_range, records, sound, network_of};
ghost use Rattle.network_records.specs.Edges.{keeps_once};
ghost use Rattle.network_records.specs.Layout.{Laid};
ghost use Rattle.network.specs.Checks.{fault_number, sound_of, CheckedAs, FindingFits, ClearedIfRefused};

use crate::edge_list::read_edges;
use crate::initial::one_initial_each;
use crate::laid::{all_ascend, all_join};
use network_records::header::{Counts, read_header};
use network_records::location::read_locations;
use reading::field::Fault;
use reading::refusal::Refusal;

// What a fault of a file is refused for.
fn refusal_of(f: Fault) -> Refusal
    ensures { number result ≡ fault_number f }
{
    match f {
        Fault::Length => Refusal::NetworkHeader,
        Fault::Range => Refusal::NetworkField,
    }
}

// The rules of a file whose records are read.
fn keeps_rules(rest: &[u8], counts: Counts, offsets: &[u32; 1024], once: bool) -> bool
    ensures { (n : Network) → Laid rest.now counts offsets.now n → all keeps_once n.edges ≡ once → result ≡ sound n }
{
    let initial = one_initial_each(rest, counts);
    let joined = all_join(rest, counts, offsets);
    let ordered = all_ascend(rest, counts, offsets);
    initial & (joined & (ordered & once))
}

// The bytes after version and length. The offset of each edge is put down.
fn check_rest(rest: &[u8], counts: Counts, offsets: &mut [u32; 1024]) -> Result<Counts, Refusal>
    requires { (in_range counts ≡ true) × (length rest.now < 2 ^ 32) }
    ensures { length offsets.old ≡ 1024 → CheckedAs rest.now offsets.new (sound_of (records counts (onward rest.now 8))) result }
{
    let at = read_locations(rest, 8, counts).map_err(refusal_of)?;
    let (once, to) = read_edges(rest, at, counts, offsets).map_err(refusal_of)?;
    if to < rest.len() {
        return Err(Refusal::NetworkHeader);
    }
    if !keeps_rules(rest, counts, offsets, once) {
        return Err(Refusal::NetworkField);
    }
    Ok(counts)
}

// A whole file. The offset of each edge is put down, counted from the sixth byte on.
fn check_file(file: &[u8], offsets: &mut [u32; 1024]) -> Result<Counts, Refusal>
    ensures means { length offsets.old ≡ 1024
        → CheckedAs (onward file.now 5) offsets.new (network_of file.now) result }
    ensures within { FindingFits file.now result }
{
    let counts = read_header(file).ok_or(Refusal::NetworkHeader)?;
    check_rest(&file[5..], counts, offsets)
}

// The same; a file that is refused leaves every offset 0.
pub fn check(file: &[u8], offsets: &mut [u32; 1024]) -> Result<Counts, Refusal>
    ensures means { length offsets.old ≡ 1024
        → CheckedAs (onward file.now 5) offsets.new (network_of file.now) result }
    ensures within { FindingFits file.now result }
    ensures cleared { ClearedIfRefused offsets.new result }
{
    let finding = check_file(file, offsets);
    if finding.is_err() {
        *offsets = [0; 1024];
    }
    finding
}
