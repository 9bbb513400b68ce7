// Networks.
ghost use Rattle.std.specs.Prelude.{◌≡◌};
ghost use Rattle.reading.specs.Answer.{Answer};
ghost use Rattle.clocks.specs.Longest.{Tells};
ghost use Rattle.network_moves.specs.Machine.{start_of, step_of, wait_of, longest_of};
ghost use Rattle.network_moves.specs.declared.configuration.Configuration.{Configuration as Given};
ghost use Rattle.reading.specs.Verdict.{answer_of};
ghost use Rattle.library.specs.Numbers.{number_of, after, network_parts as parts, network_stepped, network_waited};

use clocks::left::tell;
use network_machine::operation;
use network_moves::configuration::Configuration;
use reading::refusal::Refusal;

// Stores what a call leads to, and tells its number. A refused call leaves what is lent as it was.
fn store(
    answer: Result<Configuration, Refusal>,
    locations: &mut [u8; Configuration::AUTOMATA],
    flags: &mut [u8; Configuration::AUTOMATA],
    variables: &mut [i32; Configuration::VARIABLES],
    clocks: &mut [u32; Configuration::CLOCKS],
) -> u8
    ensures { (a : Answer Given) → answer_of answer ≡ a → (result ≡ number_of a) × (parts locations.new flags.new variables.new clocks.new ≡ after (parts locations.old flags.old variables.old clocks.old) a) }
{
    match answer {
        Ok(c) => {
            let places = c.locations;
            let marks = c.flags;
            let values = c.variables;
            let times = c.clocks;
            *locations = places;
            *flags = marks;
            *variables = values;
            *clocks = times;
            0
        }
        Err(refusal) => refusal.number(),
    }
}

// The configuration in which a network starts.
#[unsafe(no_mangle)]
pub extern "C" fn figrummy_start_network(
    file: &[u8],
    locations: &mut [u8; Configuration::AUTOMATA],
    flags: &mut [u8; Configuration::AUTOMATA],
    variables: &mut [i32; Configuration::VARIABLES],
    clocks: &mut [u32; Configuration::CLOCKS],
) -> u8
    ensures number { result ≡ number_of (start_of file.now) }
    ensures after { parts locations.new flags.new variables.new clocks.new ≡ after (parts locations.old flags.old variables.old clocks.old) (start_of file.now) }
{
    store(operation::start(file), locations, flags, variables, clocks)
}

// Along the edges of the list.
#[unsafe(no_mangle)]
pub extern "C" fn figrummy_step_network(
    file: &[u8],
    locations: &mut [u8; Configuration::AUTOMATA],
    flags: &mut [u8; Configuration::AUTOMATA],
    variables: &mut [i32; Configuration::VARIABLES],
    clocks: &mut [u32; Configuration::CLOCKS],
    list: &[u16],
) -> u8
    ensures number { result ≡ number_of (step_of file.now (parts locations.old flags.old variables.old clocks.old) list.now) }
    ensures after { parts locations.new flags.new variables.new clocks.new ≡ network_stepped file.now (parts locations.old flags.old variables.old clocks.old) list.now }
{
    let given = Configuration {
        locations: *locations,
        flags: *flags,
        variables: *variables,
        clocks: *clocks,
    };
    store(
        operation::step(file, given, list),
        locations,
        flags,
        variables,
        clocks,
    )
}

// So many ticks later.
#[unsafe(no_mangle)]
pub extern "C" fn figrummy_wait_network(
    file: &[u8],
    locations: &mut [u8; Configuration::AUTOMATA],
    flags: &mut [u8; Configuration::AUTOMATA],
    variables: &mut [i32; Configuration::VARIABLES],
    clocks: &mut [u32; Configuration::CLOCKS],
    ticks: u32,
) -> u8
    ensures number { result ≡ number_of (wait_of file.now (parts locations.old flags.old variables.old clocks.old) ticks) }
    ensures after { parts locations.new flags.new variables.new clocks.new ≡ network_waited file.now (parts locations.old flags.old variables.old clocks.old) ticks }
{
    let given = Configuration {
        locations: *locations,
        flags: *flags,
        variables: *variables,
        clocks: *clocks,
    };
    store(
        operation::wait(file, given, ticks),
        locations,
        flags,
        variables,
        clocks,
    )
}

// How long a wait may be, told in the ticks that are lent. The configuration is only read.
#[unsafe(no_mangle)]
pub extern "C" fn figrummy_longest_wait_network(
    file: &[u8],
    locations: &[u8; Configuration::AUTOMATA],
    flags: &[u8; Configuration::AUTOMATA],
    variables: &[i32; Configuration::VARIABLES],
    clocks: &[u32; Configuration::CLOCKS],
    ticks: &mut u32,
) -> u8
    ensures { Tells ticks.old (longest_of file.now (parts locations.now flags.now variables.now clocks.now)) ticks.new result }
{
    let given = Configuration {
        locations: *locations,
        flags: *flags,
        variables: *variables,
        clocks: *clocks,
    };
    tell(operation::longest(file, given), ticks)
}
