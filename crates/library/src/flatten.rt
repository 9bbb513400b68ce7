// Flattening.
ghost use Rattle.std.specs.Prelude.{◌≡◌, length};
ghost use Rattle.flattening.specs.File.{flatten_of};
ghost use Rattle.flattener.specs.Outcomes.{lent_after};
ghost use Rattle.library.specs.Numbers.{number_of, length_after};

use flattener::operation::flatten;

// The network of the chart in a file, written into the buffer lent, and its length. Bytes after the network keep their
// values.
#[unsafe(no_mangle)]
pub extern "C" fn figrummy_flatten(file: &[u8], out: &mut [u8], size: &mut usize) -> u8
    ensures number { result ≡ number_of (flatten_of file.now (length out.old)) }
    ensures size { size.new ≡ length_after size.old (flatten_of file.now (length out.old)) }
    ensures bytes { out.new ≡ lent_after out.old (flatten_of file.now (length out.old)) }
{
    match flatten(file, out) {
        Ok(n) => {
            *size = n;
            0
        }
        Err(refusal) => refusal.number(),
    }
}
