// The operations on files, of any bytes. A refusal is an error, and the caller keeps the configuration.
ghost use Rattle.std.specs.Prelude.{◌≡◌};
ghost use Rattle.reading.specs.Verdict.{answer_of};
ghost use Rattle.network_moves.specs.Machine.{start_of, step_of, wait_of, longest_of};

use crate::longest::longest_checked;
use crate::step::step_checked;
use crate::wait::wait_checked;
use network::check::check;
use network_moves::configuration::Configuration;
use reading::refusal::Refusal;

// The configuration in which a network starts.
pub fn start(file: &[u8]) -> Result<Configuration, Refusal>
    ensures { answer_of result ≡ start_of file.now }
{
    let mut offsets = [0; 1024];
    let counts = check(file, &mut offsets)?;
    Ok(Configuration::start(&file[5..], counts))
}

// Along the edges of a list.
pub fn step(file: &[u8], c: Configuration, list: &[u16]) -> Result<Configuration, Refusal>
    ensures { answer_of result ≡ step_of file.now c list.now }
{
    let mut offsets = [0; 1024];
    let counts = check(file, &mut offsets)?;
    step_checked(&file[5..], counts, &offsets, c, list)
}

// So many ticks later.
pub fn wait(file: &[u8], c: Configuration, ticks: u32) -> Result<Configuration, Refusal>
    ensures { answer_of result ≡ wait_of file.now c ticks }
{
    let mut offsets = [0; 1024];
    let counts = check(file, &mut offsets)?;
    wait_checked(&file[5..], counts, c, ticks)
}

// How long a wait may be.
pub fn longest(file: &[u8], c: Configuration) -> Result<u32, Refusal>
    ensures { answer_of result ≡ longest_of file.now c }
{
    let mut offsets = [0; 1024];
    let counts = check(file, &mut offsets)?;
    longest_checked(&file[5..], counts, c)
}
