// The active states as C lends them: a byte each, 0 or 1.
ghost use Rattle.std.specs.Prelude.{◌≡◌, cond};
ghost use Rattle.library.specs.Flags.{are_flags, flags_of, bytes_of, no_flags};

use chart::check::check;
use chart_moves::configuration::Configuration;
use reading::refusal::Refusal;

// Whether each byte is 0 or 1. No branch depends on a byte, so that the compiler makes vector instructions of the test.
pub fn are_flags(bytes: [u8; Configuration::STATES]) -> bool
    ensures { result ≡ are_flags bytes }
{
    let mut good = true;
    for i in 0..Configuration::STATES {
        good = good & (bytes[i] < 2);
    }
    good
}

// The states whose bytes are 1.
pub fn flags_of(bytes: [u8; Configuration::STATES]) -> [bool; Configuration::STATES]
    ensures { result ≡ flags_of bytes }
{
    let mut flags = [false; Configuration::STATES];
    for i in 0..Configuration::STATES {
        flags[i] = bytes[i] == 1;
    }
    flags
}

fn byte_of(flag: bool) -> u8
    ensures { result ≡ cond flag 1 0 }
{
    if flag { 1 } else { 0 }
}

// 1 for an active state, and 0 for any other.
pub fn bytes_of(flags: [bool; Configuration::STATES]) -> [u8; Configuration::STATES]
    ensures { result ≡ bytes_of flags }
{
    let mut bytes = [0; Configuration::STATES];
    for i in 0..Configuration::STATES {
        bytes[i] = byte_of(flags[i]);
    }
    bytes
}

// The number of the refusal where a byte is neither 0 nor 1: the refusals of the file come first.
pub fn no_flags(file: &[u8]) -> u8
    ensures { result ≡ no_flags file.now }
{
    match check(file) {
        Ok(()) => Refusal::ChartConfiguration.number(),
        Err(refusal) => refusal.number(),
    }
}
