// FNV-1a with 32 bits.
ghost use Rattle.std.specs.Prelude.{◌≡◌};
ghost use Rattle.answers.specs.Checksum.{mixed, checksum};

fn mixed(h: u32, b: u8) -> u32
    ensures { result ≡ mixed h b }
{
    (h ^ u32::from(b)).wrapping_mul(16777619)
}

pub fn checksum(s: &[u8]) -> u32
    ensures { result ≡ checksum s.now }
{
    let mut h = 2166136261;
    for &b in s {
        h = mixed(h, b);
    }
    h
}
