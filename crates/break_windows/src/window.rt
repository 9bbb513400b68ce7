// Windows of consecutive ticks.
ghost use Rattle.std.specs.Prelude.{◌≡◌};
ghost use Rattle.break_windows.specs.Breaks.{in_window};

// The most breaks in a window, and the first tick of the earliest window that has so many and begins at a break.
#[derive(Clone, Copy)]
pub struct Best {
    pub count: usize,
    pub first: u32,
}

// Whether a tick is in the window that begins at another. The difference is taken, since the window's end may have more than
// 32 bits.
pub fn in_window(window: u32, start: u32, tick: u32) -> bool
    ensures { result ≡ in_window window start tick }
{
    start <= tick && tick - start < window
}
