// Tables of ascending numbers, each once.
ghost use Rattle.std.specs.Prelude.{◌≡◌, ◌≤◌, ◌<◌, ◌+◌, ◌++◌, List, ◌∷◌, ℕ, take, drop};
ghost use Rattle.flatten_alternatives.specs.Choosing.{Kept, Splits};

// Where a number stands, or where it would. Most numbers come in ascending order, so the end is tried first.
fn place_of(items: &[u16; 1024], count: usize, x: u16) -> usize
    requires { count ≤ 1024 }
    ensures within { result ≤ count }
    ensures place { (xs : List ℕ) → Kept items.now count xs → Splits x (take count items.now) result }
{
    if count == 0 || items[count - 1] < x {
        return count;
    }
    // A loop of its own: std's searches take no branch that a processor could foresee, and cost twice the time.
    let mut low = 0;
    let mut high = count;
    while low < high {
        let middle = low + (high - low) / 2;
        let y = items[middle];
        if y < x {
            low = middle + 1;
        } else {
            high = middle;
        }
    }
    low
}

// A number put in at a place; those from there on move up. At the end, where most are put, nothing moves.
fn put_in(items: &mut [u16; 1024], count: usize, at: usize, x: u16)
    requires { (at ≤ count) × (count < 1024) }
    ensures { take (count + 1) items.new ≡ take at items.old ++ (x ∷ drop at (take count items.old)) }
{
    let mut value = x;
    for i in at..count {
        let above = items[i];
        items[i] = value;
        value = above;
    }
    items[count] = value;
}

// The numbers with one more; 1,025 of them if there are too many.
pub fn with_number(items: &mut [u16; 1024], count: usize, x: u16) -> usize
    ensures { (xs : List ℕ) → Kept items.old count xs → Kept items.new result (x ∷ xs) }
{
    if count > 1024 {
        return count;
    }
    let at = place_of(items, count, x);
    if at < count && items[at] == x {
        return count; // it stands there
    }
    if count == 1024 {
        return 1025;
    }
    put_in(items, count, at, x);
    count + 1
}
