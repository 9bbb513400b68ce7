// The bodies of edges' labels. That of an edge that bears a transition stands in the chart's bytes, in the transition's
// record, seven bytes after its length.
ghost use Rattle.std.specs.Prelude.{◌≡◌, length};
ghost use Rattle.chart_records.specs.Chart.{Chart};
ghost use Rattle.chart_records.specs.Laid.{Laid};
ghost use Rattle.chart_records.specs.declared.header.Counts.{Counts};
ghost use Rattle.flattener.specs.Records.{body_of, Named};
ghost use Rattle.flattener.specs.Writing.{Wrote};

use crate::write::{copy, put_short};
use chart_records::transition::offset_at;
use reading::field::short_at;

// The length of the body of an edge that bears a transition, or none (255).
pub fn body_size(rest: &[u8], offsets: &[u32], t: u8) -> u16
    ensures { (c : Chart) (n : Counts) → Laid rest.now n offsets.now c → Named c t → result ≡ length (body_of c t) }
{
    if t == 255 {
        return 2;
    }
    let place = offset_at(offsets, t) as usize;
    let size = short_at(rest, place);
    if size < 7 {
        return 0;
    }
    size - 7
}

// That body, written.
pub fn write_body(out: &mut [u8], at: usize, rest: &[u8], offsets: &[u32], t: u8) -> usize
    ensures { (c : Chart) (n : Counts) → Laid rest.now n offsets.now c → Named c t → Wrote out.old at (body_of c t) out.new result }
{
    if t == 255 {
        return put_short(out, at, 0);
    }
    let place = offset_at(offsets, t) as usize;
    let size = body_size(rest, offsets, t) as usize;
    copy(out, at, rest, place + 9, size)
}
