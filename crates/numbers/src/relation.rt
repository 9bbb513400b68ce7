// The six relations of guards.
ghost use Rattle.std.specs.Prelude.{◌≡◌, get_or};
ghost use Rattle.numbers.specs.Relation.{lt, relations, compareℕ, compareℤ};

#[derive(Clone, Copy, PartialEq, Eq, Debug)]
pub enum Relation {
    Lt,
    Le,
    Gt,
    Ge,
    Eq,
    Ne,
}

impl Relation {
    // The relation of this number; a number that stands for none is taken as 0.
    pub fn of(code: u8) -> Relation
        ensures { result ≡ get_or relations code lt }
    {
        match code {
            1 => Relation::Le,
            2 => Relation::Gt,
            3 => Relation::Ge,
            4 => Relation::Eq,
            5 => Relation::Ne,
            _ => Relation::Lt,
        }
    }
}

// Whether two numbers stand in a relation.
pub fn compare(relation: Relation, x: i32, y: i32) -> bool
    ensures { result ≡ compareℤ relation x y }
{
    match relation {
        Relation::Lt => x < y,
        Relation::Le => x <= y,
        Relation::Gt => x > y,
        Relation::Ge => x >= y,
        Relation::Eq => x == y,
        Relation::Ne => x != y,
    }
}

pub fn compare_clocks(relation: Relation, x: u64, y: u64) -> bool
    ensures { result ≡ compareℕ relation x y }
{
    match relation {
        Relation::Lt => x < y,
        Relation::Le => x <= y,
        Relation::Gt => x > y,
        Relation::Ge => x >= y,
        Relation::Eq => x == y,
        Relation::Ne => x != y,
    }
}
