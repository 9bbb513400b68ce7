// Worked cases of expressions, guards, updates, labels, clocks and sets of moves, a line each: a name, the operation
// and its numbers. The answer has the name and what the operation gives. S4, S6, S7, S8 and S10 are the samples of the
// paper that these functions decide.
#![tactic(auto)]

mod case;
mod expressions;
mod moves;
mod show;

use case::Case;
use std::io;
use std::io::Write;

// Answers an operation, known by its first letter, on its numbers.
fn answer(out: &mut impl Write, case: &Case) -> io::Result<()> {
    let count = case.count.min(32);
    let bytes = case.bytes();
    let shorts = case.shorts();
    let s = &bytes[..count];
    match case.letter.unwrap_or(0) {
        b'v' => expressions::show_value(out, s),
        b'e' => expressions::show_expression(out, s),
        b'g' => expressions::show_guard(out, s),
        b'a' => expressions::show_assigned(out, s), // the updates of a label
        b'l' => expressions::show_label(out, s),
        b'p' => expressions::show_advance(out, case),
        b'w' => moves::show_wait(out, case.word(0), case.word(1), case.word(2)),
        b'j' => moves::show_joined(out, case.word(0), case.word(1)),
        b'r' => moves::show_reset(out, case.word(0)),
        b's' => moves::show_set(out, s),
        b'm' => moves::show_maximal(out, s),
        _ => moves::show_known(out, &shorts[..count]),
    }
}

// A byte more of a case: its name is shown as it is read, and the case is answered at the end of its line.
fn read_on(out: &mut impl Write, case: &mut Case, b: u8) -> io::Result<()> {
    if !case.named {
        show::text(out, &[b])?;
        case.add_to_name(b);
        return Ok(());
    }
    if b != b'\n' {
        case.add(b);
        return Ok(());
    }
    case.close_number();
    answer(out, case)?;
    show::text(out, b"\n")?;
    *case = Case::new();
    Ok(())
}

fn answer_all(out: &mut impl Write, s: &[u8]) -> io::Result<()> {
    let mut case = Case::new();
    for b in s {
        read_on(out, &mut case, *b)?;
    }
    Ok(())
}

fn main(rt: HostRuntime) -> io::Result<()> {
    let mut buffer = [0; 65536];
    let n = window::fill(&mut rt.stdin(), &mut buffer)?;
    answer_all(&mut rt.stdout(), &buffer[..n])
}
