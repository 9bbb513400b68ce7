// Requests to flatten a chart.
use answers::output;
use flattener::operation::flatten as flatten_into;
use std::io;
use std::io::Write;
use window::front;

// Flattens into a buffer of so many bytes. No request lends more than 65,536.
pub fn flatten(out: &mut impl Write, file: &[u8], room: u32) -> io::Result<()> {
    let size = room as usize;
    let mut buffer = [0; 65536];
    if size > 65536 {
        return Ok(());
    }
    match flatten_into(file, &mut buffer[..size]) {
        Ok(length) => output::flattened(out, front(&buffer[..size], length)),
        Err(refusal) => output::refusal(out, refusal),
    }
}
