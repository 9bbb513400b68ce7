// Charts.
ghost use Rattle.std.specs.Prelude.{◌≡◌};
ghost use Rattle.reading.specs.Answer.{Answer};
ghost use Rattle.clocks.specs.Longest.{Tells};
ghost use Rattle.chart_records.specs.Rules.{chart_of};
ghost use Rattle.chart_moves.specs.Machine.{start_of};
ghost use Rattle.chart_moves.specs.declared.configuration.Configuration.{Configuration as Given};
ghost use Rattle.reading.specs.Verdict.{answer_of};
ghost use Rattle.library.specs.Flags.{lent, lent_after, step_lent, wait_lent, longest_lent};
ghost use Rattle.library.specs.Numbers.{number_of};

use crate::flags::{are_flags, bytes_of, flags_of, no_flags};
use chart::check::check;
use chart_machine::operation;
use chart_moves::configuration::Configuration;
use clocks::left::tell;
use reading::refusal::{Refusal, number_of};

// Whether a file holds a chart.
#[unsafe(no_mangle)]
pub extern "C" fn figrummy_check_chart(file: &[u8]) -> u8
    ensures { result ≡ number_of (chart_of file.now) }
{
    number_of(check(file))
}

// Stores what a call leads to, and tells its number. A refused call leaves what is lent as it was.
fn store(
    answer: Result<Configuration, Refusal>,
    active: &mut [u8; Configuration::STATES],
    variables: &mut [i32; Configuration::VARIABLES],
    clocks: &mut [u32; Configuration::CLOCKS],
) -> u8
    ensures { (a : Answer Given) → answer_of answer ≡ a → (result ≡ number_of a) × (lent active.new variables.new clocks.new ≡ lent_after (lent active.old variables.old clocks.old) a) }
{
    match answer {
        Ok(c) => {
            let states = c.active;
            let values = c.variables;
            let times = c.clocks;
            *active = bytes_of(states);
            *variables = values;
            *clocks = times;
            0
        }
        Err(refusal) => refusal.number(),
    }
}

// The configuration in which a chart starts.
#[unsafe(no_mangle)]
pub extern "C" fn figrummy_start_chart(
    file: &[u8],
    active: &mut [u8; Configuration::STATES],
    variables: &mut [i32; Configuration::VARIABLES],
    clocks: &mut [u32; Configuration::CLOCKS],
) -> u8
    ensures number { result ≡ number_of (start_of file.now) }
    ensures after { lent active.new variables.new clocks.new ≡ lent_after (lent active.old variables.old clocks.old) (start_of file.now) }
{
    store(operation::start(file), active, variables, clocks)
}

// The transitions of the list are taken.
#[unsafe(no_mangle)]
pub extern "C" fn figrummy_step_chart(
    file: &[u8],
    active: &mut [u8; Configuration::STATES],
    variables: &mut [i32; Configuration::VARIABLES],
    clocks: &mut [u32; Configuration::CLOCKS],
    list: &[u16],
) -> u8
    ensures number { result ≡ number_of (step_lent file.now (lent active.old variables.old clocks.old) list.now) }
    ensures after { lent active.new variables.new clocks.new ≡ lent_after (lent active.old variables.old clocks.old) (step_lent file.now (lent active.old variables.old clocks.old) list.now) }
{
    let bytes = *active;
    if !are_flags(bytes) {
        return no_flags(file);
    }
    let given = Configuration {
        active: flags_of(bytes),
        variables: *variables,
        clocks: *clocks,
    };
    store(
        operation::step(file, given, list),
        active,
        variables,
        clocks,
    )
}

// So many ticks later.
#[unsafe(no_mangle)]
pub extern "C" fn figrummy_wait_chart(
    file: &[u8],
    active: &mut [u8; Configuration::STATES],
    variables: &mut [i32; Configuration::VARIABLES],
    clocks: &mut [u32; Configuration::CLOCKS],
    ticks: u32,
) -> u8
    ensures number { result ≡ number_of (wait_lent file.now (lent active.old variables.old clocks.old) ticks) }
    ensures after { lent active.new variables.new clocks.new ≡ lent_after (lent active.old variables.old clocks.old) (wait_lent file.now (lent active.old variables.old clocks.old) ticks) }
{
    let bytes = *active;
    if !are_flags(bytes) {
        return no_flags(file);
    }
    let given = Configuration {
        active: flags_of(bytes),
        variables: *variables,
        clocks: *clocks,
    };
    store(
        operation::wait(file, given, ticks),
        active,
        variables,
        clocks,
    )
}

// How long a wait may be, told in the ticks that are lent. The configuration is only read.
#[unsafe(no_mangle)]
pub extern "C" fn figrummy_longest_wait_chart(
    file: &[u8],
    active: &[u8; Configuration::STATES],
    variables: &[i32; Configuration::VARIABLES],
    clocks: &[u32; Configuration::CLOCKS],
    ticks: &mut u32,
) -> u8
    ensures { Tells ticks.old (longest_lent file.now (lent active.now variables.now clocks.now)) ticks.new result }
{
    let bytes = *active;
    if !are_flags(bytes) {
        return no_flags(file);
    }
    let given = Configuration {
        active: flags_of(bytes),
        variables: *variables,
        clocks: *clocks,
    };
    tell(operation::longest(file, given), ticks)
}
