// The first argument, and files that it names.
ghost use Rattle.std.specs.Prelude.{◌≤◌, length};
ghost use Rattle.std.specs.Io.{ReadsAtMost};

use crate::print::text;
use std::env::Env;
use std::io::Write;
use std::rt::Files;
use std::{fs, io, str};

// Puts the first argument in front of a buffer, and answers how many bytes it has: none if it is missing, or longer than the
// buffer.
pub fn first_argument(env: &impl Env, buffer: &mut [u8]) -> usize
    ensures { result ≤ length buffer.new }
{
    env.arg(1, buffer).unwrap_or(0)
}

// A file cannot be opened by a path that is not UTF-8.
fn open<F: Files>(files: &F, path: &[u8]) -> Option<F::File> {
    let path = str::from_utf8(path).ok()?;
    fs::open(files, path).ok()
}

// Reads a file into a buffer, as far as it has room, and answers how many bytes were read. One that cannot be opened has
// none.
pub fn read_file(
    files: &impl Files,
    out: &mut impl Write,
    path: &[u8],
    buffer: &mut [u8],
) -> io::Result<usize>
    ensures { ReadsAtMost result buffer.new }
{
    let Some(mut file) = open(files, path) else {
        text(
            out,
            b"the file that the first argument names cannot be opened\n",
        )?;
        return Ok(0);
    };
    window::fill(&mut file, buffer)
}
