// The form of a network's configuration.
use crate::machine_requests::Form;
use answers::output;
use network_calls::Network;
use network_moves::configuration::Configuration;
use request_parts::input;
use std::io;
use std::io::Write;
use window::tail;

impl Form for Network {
    fn read(s: &[u8]) -> Configuration {
        Configuration {
            locations: input::bytes(s),
            flags: input::bytes(tail(s, 16)),
            variables: input::values(tail(s, 32)),
            clocks: input::words(tail(s, 96)),
        }
    }

    fn write<W: Write>(out: &mut W, c: Configuration) -> io::Result<()> {
        output::network(out, &c.locations, &c.flags, &c.variables, &c.clocks)
    }
}
