// All edge records of a network file. They vary in size, so a check of the file keeps each one's offset.
ghost use Rattle.std.specs.Prelude.{◌≡◌, true, ◌<◌, ◌^◌, length};
ghost use Rattle.lists.specs.Lists.{all};
ghost use Rattle.reading.specs.Reading.{got, byte2, many, recorded, mapped};
ghost use Rattle.reading.specs.Places.{onward, read_of};
ghost use Rattle.network_records.specs.Network.{in_range};
ghost use Rattle.network_records.specs.Edges.{edge_in, keeps_once, EdgesAt};

use network_records::edge::edge_at;
use network_records::header::Counts;
use reading::field::Read;

// All edge records, from a place on: whether all keep rule 13. The offset of each is put down.
pub fn read_edges(rest: &[u8], at: usize, counts: Counts, offsets: &mut [u32; 1024]) -> Read<bool>
    requires { (in_range counts ≡ true) × (length rest.now < 2 ^ 32) }
    ensures means { read_of rest.now result ≡ mapped (all keeps_once) (many counts.edges (recorded byte2 (edge_in counts)) (onward rest.now at)) }
    ensures placed { length offsets.old ≡ 1024 → (es : _) (t : _) → many counts.edges (recorded byte2 (edge_in counts)) (onward rest.now at) ≡ got es t → EdgesAt counts rest.now offsets.new es }
{
    let mut once = true;
    let mut place = at;
    for i in 0..counts.edges {
        let (keeps, next) = edge_at(rest, place, counts)?;
        once &= keeps;
        offsets[i as usize] = place as u32;
        place = next;
    }
    Ok((once, place))
}
