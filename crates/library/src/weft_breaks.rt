// Weft breaks.
ghost use Rattle.break_windows.specs.Breaks.{busiest_of, Tells};

use breaks::busiest::{busiest, tell};

// The most breaks within a window of so many ticks, and the first tick of the earliest window that has them and begins at a
// break, told in the two numbers that are lent. The list is only read.
#[unsafe(no_mangle)]
pub extern "C" fn figrummy_weft_breaks(
    ticks: &[u32],
    window: u32,
    count: &mut usize,
    first: &mut u32,
) -> u8
    ensures { Tells count.old first.old (busiest_of window ticks.now) count.new first.new result }
{
    tell(busiest(ticks, window), count, first)
}
