// The lines of the input, byte by byte, since a line may go on in what is read next.
ghost use Rattle.std.specs.Prelude.{◌≡◌, cond};
ghost use Rattle.console.specs.Script.{is_space};
ghost use Rattle.tick_lines.specs.Lines.{with_byte, tick_of_number, ended_tick};
ghost use Rattle.tick_lines.specs.declared.line.Line.TheVariants as Li;

use console::script::{digit_value, is_digit, is_space, with_digit};

// What is known of a line: nothing but spaces; digits of a number, last; a number, and spaces after it; something else.
#[derive(Clone, Copy)]
pub enum Line {
    Blank,
    Digits(u64),
    Ended(u64),
    Bad,
}

// Why reading stops: a line that has no tick and is not blank, a tick that is smaller than the one before it, or a window with
// more breaks than ticks are kept.
#[derive(Clone, Copy, PartialEq, Eq, Debug)]
pub enum Stop {
    Bad,
    Falls,
    Full,
}

// A byte that is no digit, after a number or none.
fn with_other(spaced: Line, b: u8) -> Line
    ensures { result ≡ cond (is_space b) spaced Li.Bad }
{
    if is_space(b) { spaced } else { Line::Bad }
}

// A line with a byte more.
pub fn with_byte(line: Line, b: u8) -> Line
    ensures { result ≡ with_byte line b }
{
    match line {
        Line::Blank => {
            if is_digit(b) {
                Line::Digits(with_digit(0, digit_value(b)))
            } else {
                with_other(Line::Blank, b)
            }
        }
        Line::Digits(n) => {
            if is_digit(b) {
                Line::Digits(with_digit(n, digit_value(b)))
            } else {
                with_other(Line::Ended(n), b)
            }
        }
        Line::Ended(n) => with_other(Line::Ended(n), b),
        Line::Bad => Line::Bad,
    }
}

// A number of 32 bits as a tick.
fn tick_of(n: u64) -> Result<Option<u32>, Stop>
    ensures { result ≡ tick_of_number n }
{
    if n > 4294967295 {
        Err(Stop::Bad)
    } else {
        Ok(Some(n as u32))
    }
}

// The tick of a line that ends, if it has one.
pub fn ended_tick(line: Line) -> Result<Option<u32>, Stop>
    ensures { result ≡ ended_tick line }
{
    match line {
        Line::Blank => Ok(None),
        Line::Digits(n) | Line::Ended(n) => tick_of(n),
        Line::Bad => Err(Stop::Bad),
    }
}
