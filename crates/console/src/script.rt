// Scripts of calls, a line each: start, step 3 7, wait 5, longest. What follows # is a comment.
ghost use Rattle.std.specs.Prelude.{◌≡◌, ◌-◌, IfOk};
ghost use Rattle.reading.specs.Places.{onward};
ghost use Rattle.console.specs.Script.{is_space, words, same_word, is_digit, number_of, plain_line, shortened, step_line, wait_line, alone_line, call_line, line_of, is_call};
ghost use Rattle.console.specs.Places.{place_of, ends_run, with_digit, with_number, words_found, WordFits};

use crate::print;
use std::io;
use std::io::Write;
use window::tail;

#[derive(Clone, Copy)]
pub enum Call {
    Nothing,
    Start,
    Step,
    Wait(u32),
    Longest,
    Unknown,
    Number,
}

// A call, with the numbers of a step. More than sixteen numbers are kept as seventeen, which no machine takes.
#[derive(Clone, Copy)]
pub struct Line {
    pub call: Call,
    pub list: [u16; 17],
    pub count: usize,
}

pub fn is_space(b: u8) -> bool
    ensures { result ≡ is_space b }
{
    matches!(b, b' ' | b'\t' | b'\r')
}

// Whether a byte ends a run of spaces, or one of other bytes.
fn ends_run(spaces: bool, b: u8) -> bool
    ensures { result ≡ ends_run spaces b }
{
    let space = is_space(b);
    if spaces { !space } else { space }
}

// The end of the run of spaces, or of other bytes, that starts at a place.
fn run_end(s: &[u8], at: usize, spaces: bool) -> usize
    ensures { result ≡ place_of (ends_run spaces) s.now at }
{
    let rest = tail(s, at);
    let run = rest.iter().position(|b| ends_run(spaces, *b));
    at + run.unwrap_or(rest.len())
}

// Where the next word from a place on begins and ends.
fn next_word(s: &[u8], at: usize) -> Option<(usize, usize)>
    ensures means { words_found s.now result ≡ words (onward s.now at) }
    ensures within { WordFits s.now at result }
{
    let from = run_end(s, at, true);
    let to = run_end(s, from, false);
    if from < to { Some((from, to)) } else { None }
}

// One digit more; past the largest number the answer stays there.
pub fn with_digit(value: u64, digit: u8) -> u64
    ensures { result ≡ with_digit value digit }
{
    if value > 4294967295 {
        return value;
    }
    value * 10 + (digit as u64)
}

pub fn is_digit(b: u8) -> bool
    ensures { result ≡ is_digit b }
{
    b.is_ascii_digit()
}

// The value of a digit.
pub fn digit_value(b: u8) -> u8
    ensures { result ≡ b - 48 }
{
    b.saturating_sub(b'0')
}

// The number that a word is.
pub fn number(word: &[u8]) -> Option<u32>
    ensures { result ≡ number_of word.now }
{
    if word.is_empty() {
        return None;
    }
    let mut value = 0;
    for &b in word {
        if !is_digit(b) {
            return None;
        }
        value = with_digit(value, digit_value(b));
    }
    u32::try_from(value).ok()
}

// Whether two words are the same.
fn same(a: &[u8], b: &[u8]) -> bool
    ensures { result ≡ same_word a.now b.now }
{
    a == b
}

// A line with a call and no numbers.
pub fn plain(call: Call) -> Line
    ensures { result ≡ plain_line call }
{
    Line {
        call,
        list: [0; 17],
        count: 0,
    }
}

// A number of a list. One past sixteen bits is as unknown as the largest of sixteen bits.
fn short(n: u32) -> u16
    ensures { result ≡ shortened n }
{
    n.min(65535) as u16
}

// The list with one number more, if there is room.
pub fn with_number(line: Line, n: u32) -> Line
    ensures { result ≡ with_number line n }
{
    let at = line.count;
    if at >= 17 {
        return line;
    }
    let mut next = line;
    next.list[at] = short(n);
    next.count = at + 1;
    next
}

// The numbers of a step, from a place of the line on.
fn step_of(s: &[u8], at: usize) -> Line
    ensures { result ≡ step_line (words (onward s.now at)) }
{
    let mut line = plain(Call::Step);
    let mut place = at;
    while let Some((from, to)) = next_word(s, place) {
        let Some(value) = number(&s[from..to]) else {
            return plain(Call::Number);
        };
        line = with_number(line, value);
        place = to;
    }
    line
}

// The ticks of a wait: one number, and nothing after it.
fn wait_of(s: &[u8], at: usize) -> Line
    ensures { result ≡ wait_line (words (onward s.now at)) }
{
    let Some((from, to)) = next_word(s, at) else {
        return plain(Call::Number);
    };
    let Some(ticks) = number(&s[from..to]) else {
        return plain(Call::Number);
    };
    match next_word(s, to) {
        None => plain(Call::Wait(ticks)),
        Some(_) => plain(Call::Number),
    }
}

// A start or the longest wait: nothing stands after it.
fn alone(s: &[u8], at: usize, call: Call) -> Line
    ensures { result ≡ alone_line call (words (onward s.now at)) }
{
    match next_word(s, at) {
        None => plain(call),
        Some(_) => plain(Call::Unknown),
    }
}

// The call of a line without its comment.
fn call_of(s: &[u8]) -> Line
    ensures { result ≡ call_line (words s.now) }
{
    let Some((from, to)) = next_word(s, 0) else {
        return plain(Call::Nothing);
    };
    let word = &s[from..to];
    if same(word, b"step") {
        step_of(s, to)
    } else if same(word, b"wait") {
        wait_of(s, to)
    } else if same(word, b"start") {
        alone(s, to, Call::Start)
    } else if same(word, b"longest") {
        alone(s, to, Call::Longest)
    } else {
        plain(Call::Unknown)
    }
}

// The call of a line.
pub fn read_line(s: &[u8]) -> Line
    ensures { result ≡ line_of s.now }
{
    let to = s.iter().position(|b| *b == b'#').unwrap_or(s.len());
    call_of(&s[..to])
}

fn mistake(out: &mut impl Write, number: u64, text: &[u8], what: &[u8]) -> io::Result<()> {
    print::text(out, b"line")?;
    print::number(out, number)?;
    print::text(out, b": '")?;
    print::text(out, text)?;
    print::text(out, what)?;
    print::line_end(out)
}

// Whether a line has a call. It is printed then, and what is wrong with one that should have a call and has none.
pub fn is_call(out: &mut impl Write, call: Call, text: &[u8], number: u64) -> io::Result<bool>
    ensures { IfOk result (λ b. b ≡ is_call call) }
{
    match call {
        Call::Nothing => Ok(false),
        Call::Unknown => {
            mistake(
                out,
                number,
                text,
                b"' is no call; calls are start, step and numbers, wait and ticks, longest",
            )?;
            Ok(false)
        }
        Call::Number => {
            mistake(
                out,
                number,
                text,
                b"' lacks a number, has one too many, or has a word that is no number up to 4,294,967,295",
            )?;
            Ok(false)
        }
        _ => {
            print::text(out, text)?;
            print::line_end(out)?;
            Ok(true)
        }
    }
}
