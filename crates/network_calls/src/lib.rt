// The network machine, as a script calls it.
#![tactic(auto)]

ghost use Rattle.network_calls.specs.Calls.{network};

use console::machine::Machine;
use console::print;
use network_machine::operation;
use network_moves::configuration::Configuration;
use reading::field::byte_at;
use reading::refusal::Refusal;
use std::io;
use std::io::Write;

// The network machine.
pub struct Network;

impl Machine for Network {
    type Configuration = Configuration;

    ghost operations = { network };

    fn zero() -> Configuration {
        Configuration::zero()
    }

    fn start(file: &[u8]) -> Result<Configuration, Refusal> {
        operation::start(file)
    }

    fn step(file: &[u8], c: Configuration, list: &[u16]) -> Result<Configuration, Refusal> {
        operation::step(file, c, list)
    }

    fn wait(file: &[u8], c: Configuration, ticks: u32) -> Result<Configuration, Refusal> {
        operation::wait(file, c, ticks)
    }

    fn longest(file: &[u8], c: Configuration) -> Result<u32, Refusal> {
        operation::longest(file, c)
    }

    // The counts stand in the file's header.
    fn show<W: Write>(out: &mut W, file: &[u8], c: Configuration) -> io::Result<()> {
        let automata = byte_at(file, 5);
        print::automata(out, b"  locations", &c.locations, automata)?;
        print::automata(out, b"  flags", &c.flags, automata)?;
        print::variables(out, &c.variables, byte_at(file, 10))?;
        print::clocks(out, &c.clocks, byte_at(file, 9))
    }
}
