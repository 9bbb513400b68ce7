// Requests to the check of charts, and the form of a chart's configuration.
use crate::machine_requests::Form;
use answers::output;
use chart_calls::Chart;
use chart_moves::configuration::Configuration;
use request_parts::input;
use std::io;
use std::io::Write;
use window::tail;

impl Form for Chart {
    fn read(s: &[u8]) -> Configuration {
        Configuration {
            active: input::marks(s),
            variables: input::values(tail(s, 48)),
            clocks: input::words(tail(s, 112)),
        }
    }

    fn write<W: Write>(out: &mut W, c: Configuration) -> io::Result<()> {
        output::chart(out, &c.active, &c.variables, &c.clocks)
    }
}

pub fn check(out: &mut impl Write, file: &[u8]) -> io::Result<()> {
    match chart::check::check(file) {
        Ok(()) => output::text(out, b"ok\n"),
        Err(refusal) => output::refusal(out, refusal),
    }
}
