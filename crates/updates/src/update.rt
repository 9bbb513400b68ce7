// Updates, which are assignments and advances: read as a file is checked, and carried out on variables. An update is read in two
// parts: its form, an assignment's variable or a whole advance, and after that of an assignment its expression. The check notes
// what a form writes in a table that is lent down; the machines carry the update out.
ghost use Rattle.std.specs.Prelude.{◌≡◌, [], ◌∷◌, ◌++◌, set, ◌≤◌, leb};
ghost use Rattle.reading.specs.Reading.{byte, byte2, such, mapped};
ghost use Rattle.reading.specs.Places.{onward, read_of};
ghost use Rattle.numbers.specs.Value.{is_number, number_of};
ghost use Rattle.expr.specs.Expression.{expression, value};
ghost use Rattle.updates.specs.Update.{opens, advanced, form, update, form_of, writes, advance};
ghost use Rattle.updates.specs.Forms.{Noted, new_values};

use expr::expression;
use numbers::{signed, value};
use reading::field::{Fault, Read};
use reading::{field, version};

// Two variables and a ratio. The whole part is added to the steps, and what it leaves is kept as the remainder.
#[derive(Clone, Copy)]
pub struct Advance {
    pub steps: u8,
    pub remainder: u8,
    pub numerator: u16,
    pub denominator: u16,
}

// The form of an update: an assignment of a variable, whose expression follows, or an advance.
#[derive(Clone, Copy)]
pub enum Form {
    Assignment(u8),
    Advance(Advance),
}

// What an update may start with.
fn opens(version: u8, variables: u8, first: u8) -> bool
    ensures { result ≡ opens version variables first }
{
    if first < variables {
        return true;
    }
    version::has_advances(version) & (first == 255)
}

fn read_first(s: &[u8], at: usize, version: u8, variables: u8) -> Read<u8>
    ensures { read_of s.now result ≡ such byte (opens version variables) (onward s.now at) }
{
    let (first, next) = field::read_byte(s, at)?;
    if opens(version, variables, first) {
        Ok((first, next))
    } else {
        Err(Fault::Range)
    }
}

fn read_denominator(s: &[u8], at: usize) -> Read<u16>
    ensures { read_of s.now result ≡ such byte2 (λ q. leb 1 q) (onward s.now at) }
{
    let (q, next) = field::read_short(s, at)?;
    if 1 <= q {
        Ok((q, next))
    } else {
        Err(Fault::Range)
    }
}

// What follows the 255 of an advance.
fn read_advance(s: &[u8], at: usize, variables: u8) -> Read<Form>
    ensures { read_of s.now result ≡ advanced variables (onward s.now at) }
{
    let (steps, at1) = field::read_below(s, at, variables)?;
    let (remainder, at2) = field::read_below(s, at1, variables)?;
    let (numerator, at3) = field::read_short(s, at2)?;
    let (denominator, next) = read_denominator(s, at3)?;
    let advance = Advance {
        steps,
        remainder,
        numerator,
        denominator,
    };
    Ok((Form::Advance(advance), next))
}

// The form of the update at a place.
fn read_form(s: &[u8], at: usize, version: u8, variables: u8) -> Read<Form>
    ensures { read_of s.now result ≡ form version variables (onward s.now at) }
{
    let (first, from) = read_first(s, at, version, variables)?;
    if first == 255 {
        read_advance(s, from, variables)
    } else {
        Ok((Form::Assignment(first), from))
    }
}

// An update, as a file is checked: its form, and the place after it.
pub fn read_update(s: &[u8], at: usize, version: u8, variables: u8) -> Read<Form>
    ensures { read_of s.now result ≡ mapped form_of (update version variables (onward s.now at)) }
{
    let (form, from) = read_form(s, at, version, variables)?;
    match form {
        Form::Advance(_) => Ok((form, from)),
        Form::Assignment(_) => {
            let next = expression::expression_at(s, from, variables)?;
            Ok((form, next))
        }
    }
}

// One more variable is written: whether all are still written once.
fn note_variable(v: u8, once: bool, seen: &mut [bool; 256]) -> bool
    ensures { (vs : _) → Noted vs seen.old once → Noted (vs ++ (v ∷ [])) seen.new result }
{
    let i = v as usize;
    let again = seen[i];
    seen[i] = true;
    once & !again
}

// The same of what an update of a form writes.
pub fn note(form: Form, once: bool, seen: &mut [bool; 256]) -> bool
    ensures { (vs : _) → Noted vs seen.old once → Noted (vs ++ writes form) seen.new result }
{
    match form {
        Form::Assignment(v) => note_variable(v, once, seen),
        Form::Advance(a) => {
            let first = note_variable(a.steps, once, seen);
            note_variable(a.remainder, first, seen)
        }
    }
}

// The value of an expression. The variables pass by value, so that old and new ones are told apart by their names alone.
fn value_from(s: &[u8], at: usize, variables: u8, values: [i32; 16]) -> Read<Option<i32>>
    ensures { read_of s.now result ≡ mapped (value values) (expression variables 8 (onward s.now at)) }
{
    expression::value_at(s, at, variables, &values)
}

// The variables with one of them at a value. There are sixteen; one that is not there changes none.
fn stored(values: [i32; 16], variable: u8, z: i32) -> [i32; 16]
    ensures { result ≡ set values variable z }
{
    let mut next = values;
    let i = variable as usize;
    if i < 16 {
        next[i] = z;
    }
    next
}

// The variables after some updates, and whether these stayed in the range: a flag, since what the variables are is said also where
// they did not (`new_values`).
#[derive(Clone, Copy)]
pub struct NewValues {
    pub values: [i32; 16],
    pub within: bool,
}

// The variables after an assignment of a value, and whether there is one.
fn after_assignment(variable: u8, x: Option<i32>, new: [i32; 16]) -> NewValues
    ensures { result ≡ record { values = set new variable (number_of x); within = is_number x } }
{
    NewValues {
        values: stored(new, variable, x.unwrap_or(0)),
        within: x.is_some(),
    }
}

// The variables after an advance, which reads `old`.
fn after_advance(a: Advance, old: [i32; 16], new: [i32; 16]) -> NewValues
    ensures { 1 ≤ a.denominator → result ≡ new_values old new (advance a) }
{
    let before = expression::variable_value(a.steps, old);
    let rest = expression::variable_value(a.remainder, old);
    let steps = value::steps_after(before, rest, a.numerator, a.denominator);
    let counted = after_assignment(a.steps, steps, new);
    let kept = signed::remainder_after(rest, a.numerator, a.denominator);
    NewValues {
        values: stored(counted.values, a.remainder, kept),
        within: counted.within,
    }
}

// The variables after the update at a place, which reads `old`.
pub fn updated_at(
    s: &[u8],
    at: usize,
    version: u8,
    variables: u8,
    old: [i32; 16],
    new: [i32; 16],
) -> Read<NewValues>
    ensures { read_of s.now result ≡ mapped (new_values old new) (update version variables (onward s.now at)) }
{
    let (form, from) = read_form(s, at, version, variables)?;
    match form {
        Form::Advance(a) => Ok((after_advance(a, old, new), from)),
        Form::Assignment(v) => {
            let (x, next) = value_from(s, from, variables, old)?;
            Ok((after_assignment(v, x, new), next))
        }
    }
}
