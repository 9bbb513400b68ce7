// The chart machine, as a script calls it.
#![tactic(auto)]

ghost use Rattle.chart_calls.specs.Calls.{chart};

use chart_machine::operation;
use chart_moves::configuration::Configuration;
use console::machine::Machine;
use console::print;
use reading::field::byte_at;
use reading::refusal::Refusal;
use std::io;
use std::io::Write;

// The chart machine.
pub struct Chart;

impl Machine for Chart {
    type Configuration = Configuration;

    ghost operations = { chart };

    fn zero() -> Configuration {
        Configuration::zero()
    }

    fn start(file: &[u8]) -> Result<Configuration, Refusal> {
        operation::start(file)
    }

    fn step(file: &[u8], c: Configuration, list: &[u16]) -> Result<Configuration, Refusal> {
        operation::step(file, c, list)
    }

    fn wait(file: &[u8], c: Configuration, ticks: u32) -> Result<Configuration, Refusal> {
        operation::wait(file, c, ticks)
    }

    fn longest(file: &[u8], c: Configuration) -> Result<u32, Refusal> {
        operation::longest(file, c)
    }

    // The counts stand in the file's header.
    fn show<W: Write>(out: &mut W, file: &[u8], c: Configuration) -> io::Result<()> {
        print::states(out, &c.active)?;
        print::variables(out, &c.variables, byte_at(file, 5))?;
        print::clocks(out, &c.clocks, byte_at(file, 4))
    }
}
