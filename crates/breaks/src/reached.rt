// A number of breaks that some window has, from a few windows that end far apart. A pass that begins with it need not grow its
// window break by break, which takes longer than to move it.
ghost use Rattle.std.specs.Prelude.{◌≡◌, true, ◌-◌, ◌≤◌, length};
ghost use Rattle.break_windows.specs.Breaks.{in_window};
ghost use Rattle.break_windows.specs.Found.{at, Reaches};

use break_windows::window::in_window;

// How far apart the windows end.
const APART: usize = 16384;

// How many breaks before a place are in one window with the last of them: a search by halves, which is right where the ticks
// climb. Of any ticks the window has the first and the last of so many.
fn breaks_before(ticks: &[u32], end: usize, window: u32) -> usize
    requires { (1 ≤ end) × (end ≤ length ticks.now) × (1 ≤ window) }
    ensures { (1 ≤ result) × (result ≤ end) × (in_window window (at ticks.now (end - result)) (at ticks.now (end - 1)) ≡ true) }
{
    let last = ticks[end - 1];
    // A search of its own: `partition_point` promises nothing of ticks that do not climb.
    let mut low = 0;
    let mut high = end - 1;
    while low < high {
        let middle = low + (high - low) / 2;
        if in_window(window, ticks[middle], last) {
            high = middle;
        } else {
            low = middle + 1;
        }
    }
    end - high
}

// The most breaks of these windows, and at least 1.
pub fn reached(ticks: &[u32], window: u32) -> usize
    requires { (1 ≤ length ticks.now) × (1 ≤ window) }
    ensures { Reaches window ticks.now result }
{
    let mut most = 1;
    for end in (APART..=ticks.len()).step_by(APART) {
        most = most.max(breaks_before(ticks, end, window));
    }
    most
}
