// The board keeps one configuration and moves it on in place. Each call answers 0, or the number of the refusal, and then
// leaves what it was lent as it was. The names differ from those of the library, since a program may link both archives, and two
// that are linked together cannot both define a name. Each function calls the one by value and stores its result.
ghost use Rattle.std.specs.Prelude.{◌≡◌};
ghost use Rattle.reading.specs.Answer.{Answer};
ghost use Rattle.reading.specs.Verdict.{answer_of};
ghost use Rattle.clocks.specs.Longest.{Tells};
ghost use Rattle.network_moves.specs.Machine.{start_of, step_of, wait_of, longest_of};
ghost use Rattle.network_moves.specs.declared.configuration.Configuration.{Configuration as Given};
ghost use Rattle.network_in_place.specs.Moves.{Moves};

use clocks::left::tell;
use network_machine::operation::{longest, start, step, wait};
use network_moves::configuration::Configuration;
use reading::refusal::Refusal;

// Stores what a call leads to, and tells its number. A refused call leaves what is lent as it was.
fn store(answer: Result<Configuration, Refusal>, c: &mut Configuration) -> u8
    ensures { (a : Answer Given) → answer_of answer ≡ a → Moves c.old a c.new result }
{
    match answer {
        Ok(next) => {
            *c = next;
            0
        }
        Err(refusal) => refusal.number(),
    }
}

// The configuration in which a network starts.
#[unsafe(no_mangle)]
pub extern "C" fn figrummy_start_in_place(file: &[u8], c: &mut Configuration) -> u8
    ensures { Moves c.old (start_of file.now) c.new result }
{
    store(start(file), c)
}

// Along the edges of a list.
#[unsafe(no_mangle)]
pub extern "C" fn figrummy_step_in_place(file: &[u8], c: &mut Configuration, list: &[u16]) -> u8
    ensures { Moves c.old (step_of file.now c.old list.now) c.new result }
{
    store(step(file, *c, list), c)
}

// So many ticks later.
#[unsafe(no_mangle)]
pub extern "C" fn figrummy_wait_in_place(file: &[u8], c: &mut Configuration, ticks: u32) -> u8
    ensures { Moves c.old (wait_of file.now c.old ticks) c.new result }
{
    store(wait(file, *c, ticks), c)
}

// How long a wait of the board's configuration may be, told in the ticks that are lent. The configuration is only read.
#[unsafe(no_mangle)]
pub extern "C" fn figrummy_longest_wait_in_place(
    file: &[u8],
    c: &Configuration,
    ticks: &mut u32,
) -> u8
    ensures { Tells ticks.old (longest_of file.now c.now) ticks.new result }
{
    tell(longest(file, *c), ticks)
}
