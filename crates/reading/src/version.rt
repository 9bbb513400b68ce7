// The versions of a file, and what depends on them. A version is read with the counts and stands in them; a reader that needs
// it is given it. Guards are given none, so that they are the same in every version by their types.
ghost use Rattle.std.specs.Prelude.{◌≡◌};
ghost use Rattle.reading.specs.Version.{is_version, has_advances};

pub fn is_version(version: u8) -> bool
    ensures { result ≡ is_version version }
{
    (1 <= version) & (version <= 2)
}

// An advance may stand in the place of an assignment.
pub fn has_advances(version: u8) -> bool
    ensures { result ≡ has_advances version }
{
    2 <= version
}
