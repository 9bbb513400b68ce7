// Sets of small numbers, kept as the bits of a number.
ghost use Rattle.std.specs.Prelude.{◌≡◌};
ghost use Rattle.lists.specs.Lists.{has, subset};

// Whether the number i is in the set.
pub fn has(marks: u32, i: u32) -> bool
    ensures { result ≡ has marks i }
{
    i < 32 && (marks >> i) % 2 == 1
}

// Whether each number of a is in b.
pub fn subset(a: u32, b: u32) -> bool
    ensures { result ≡ subset 32 a b }
{
    (a & b) == a
}
