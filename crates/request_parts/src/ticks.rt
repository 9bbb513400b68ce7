// The ticks of a request to count weft breaks.
ghost use Rattle.std.specs.Prelude.{◌≡◌, min, length};
ghost use Rattle.request_parts.specs.Ticks.{ticks_of, overwritten};

use reading::field::word_at;

// Writes the ticks to the front of an array, as many as it has room for, and answers how many these are.
pub fn fill_ticks(s: &[u8], ticks: &mut [u32]) -> usize
    ensures count { result ≡ min (length (ticks_of s.now)) (length ticks.old) }
    ensures filled { ticks.new ≡ overwritten ticks.old (ticks_of s.now) }
{
    let count = (s.len() / 4).min(ticks.len());
    for i in 0..count {
        ticks[i] = word_at(s, 4 * i);
    }
    count
}
