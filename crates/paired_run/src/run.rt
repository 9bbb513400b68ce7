// Both machines at one moment of a run: of the chart in a file, and of the network whose bytes flattening wrote of it. Each
// accepted call of the network is read as a call of the chart, or as none.
//
// The contracts are over any list of calls: if what is given stands for the run after them, what is answered stands for the run
// with one call more. That the moves owed never pass 32, and so fit, follows from demand 3: where one is owed, no move that
// carries a transition is accepted. Of bytes that flattening did not write nothing is said, and each call ends all the same.
ghost use Rattle.std.specs.Prelude.{◌≡◌, ◌-◌, ◌≤◌, List, []};
ghost use Rattle.reading.specs.Answer.{done, refused};
ghost use Rattle.reading.specs.Verdict.{answer_of, number, or_kept};
ghost use Rattle.chart_records.specs.Chart.{Chart};
ghost use Rattle.chart_records.specs.Rules.{chart_of};
ghost use Rattle.network_records.specs.Network.{Network};
ghost use Rattle.agreement.specs.Agreement as agreed;
ghost use Rattle.chart_moves.specs.Machine as chart;
ghost use Rattle.network_moves.specs.Machine as network;
ghost use Rattle.chart_moves.specs.declared.configuration.Configuration.{Configuration as Active};
ghost use Rattle.paired_run.specs.Paired.{list_of, Flattening, Stands, Safe, Follows, FollowsCall, passed, followed_by};

use crate::carry::{Transitions, carried};
use crate::owe::named;
use chart_moves::configuration::Configuration as ChartConfiguration;
use network_moves::configuration::Configuration as NetworkConfiguration;
use reading::refusal::Refusal;

// Both machines, and how many urgent moves are owed.
#[derive(Clone, Copy)]
pub struct Run {
    pub network: NetworkConfiguration,
    pub chart: ChartConfiguration,
    pub owed: u64,
}

impl Run {
    // What stands for a run before the first start.
    pub fn zero() -> Run
        ensures { (result.network ≡ network.zero_configuration) × (result.chart ≡ chart.zero_configuration) × (result.owed ≡ 0) }
    {
        Run {
            network: NetworkConfiguration::zero(),
            chart: ChartConfiguration::zero(),
            owed: 0,
        }
    }
}

// The call of the chart that is read from one of the network.
#[derive(Clone, Copy)]
pub enum Reading {
    Nothing,
    Step,
    Wait(u32),
}

// What follows a call of the network: its verdict, the call that is read and the chart's verdict on it, and the run. A
// step is read with the transitions that the move carries.
#[derive(Clone, Copy)]
pub struct Followed {
    pub verdict: Result<(), Refusal>,
    pub reading: Reading,
    pub carried: Transitions,
    pub answer: Result<(), Refusal>,
    pub run: Run,
}

// Both machines start. A start that is refused answers the configuration that is all 0.
pub fn start(file: &[u8], bytes: &[u8]) -> Run
    ensures stands { (c : Chart) (n : Network) → Flattening file.now bytes.now c n → Stands result (agreed.run c n []) }
    ensures network { result.network ≡ or_kept network.zero_configuration (network.start_of bytes.now) }
    ensures chart { result.chart ≡ or_kept chart.zero_configuration (chart.start_of file.now) }
{
    let network = network_machine::operation::start(bytes).unwrap_or(NetworkConfiguration::zero());
    let chart = chart_machine::operation::start(file).unwrap_or(ChartConfiguration::zero());
    Run {
        network,
        chart,
        owed: 0,
    }
}

fn no_transitions() -> Transitions {
    Transitions {
        list: [0; 16],
        count: 0,
    }
}

// A refused call of the network adds nothing.
fn refused(refusal: Refusal, run: Run) -> Followed
    ensures { (x : agreed.Run) → Stands run x → Follows x x (refused (number refusal)) result }
{
    Followed {
        verdict: Err(refusal),
        reading: Reading::Nothing,
        carried: no_transitions(),
        answer: Ok(()),
        run,
    }
}

// An accepted call of the network, and the chart's answer to the call that is read. A chart that refuses it stays as it was.
fn answered(
    reading: Reading,
    carried: Transitions,
    answer: Result<ChartConfiguration, Refusal>,
    run: Run,
) -> Followed
    ensures { (σ : Active) → answer_of answer ≡ done σ → result ≡ followed_by reading carried (record { network = run.network; chart = σ; owed = run.owed }) }
{
    match answer {
        Ok(chart) => Followed {
            verdict: Ok(()),
            reading,
            carried,
            answer: Ok(()),
            run: Run { chart, ..run },
        },
        Err(refusal) => Followed {
            verdict: Ok(()),
            reading,
            carried,
            answer: Err(refusal),
            run,
        },
    }
}

// After a move of the network to the next configuration. One that carries transitions adds the chart's step with them, and
// owes an urgent move for each exit and entry that they name. One that carries none adds nothing, and one less is owed.
fn after_move(
    file: &[u8],
    run: Run,
    network: NetworkConfiguration,
    carried: Transitions,
) -> Followed
    requires { carried.count ≤ 16 }
    ensures { (c : Chart) (x : agreed.Run) → chart_of file.now ≡ done c → Stands run x → Safe c x (list_of carried) → Follows x (agreed.moved c network x (list_of carried)) passed result }
{
    let list = &carried.list[..carried.count];
    if carried.count == 0 {
        let owed = run.owed.saturating_sub(1);
        let run = Run {
            network,
            owed,
            ..run
        };
        return answered(Reading::Nothing, carried, Ok(run.chart), run);
    }
    let answer = chart_machine::operation::step(file, run.chart, list);
    // Nothing is owed where a move carries transitions, so the sum never wraps in a run.
    let owed = run.owed.wrapping_add(named(file, list));
    answered(
        Reading::Step,
        carried,
        answer,
        Run {
            network,
            owed,
            ..run
        },
    )
}

// After a step of the network along a list of edges.
pub fn after_step(file: &[u8], bytes: &[u8], run: Run, list: &[u16]) -> Followed
    ensures { (c : Chart) (n : Network) (calls : List agreed.Call) → Flattening file.now bytes.now c n → Stands run (agreed.run c n calls) → FollowsCall c n calls (agreed.step list.now) result }
{
    match network_machine::operation::step(bytes, run.network, list) {
        Ok(network) => after_move(file, run, network, carried(bytes, list)),
        Err(refusal) => refused(refusal, run),
    }
}

// After a wait of the network: the chart waits with it.
pub fn after_wait(file: &[u8], bytes: &[u8], run: Run, ticks: u32) -> Followed
    ensures { (c : Chart) (n : Network) (calls : List agreed.Call) → Flattening file.now bytes.now c n → Stands run (agreed.run c n calls) → FollowsCall c n calls (agreed.wait ticks) result }
{
    match network_machine::operation::wait(bytes, run.network, ticks) {
        Ok(network) => answered(
            Reading::Wait(ticks),
            no_transitions(),
            chart_machine::operation::wait(file, run.chart, ticks),
            Run { network, ..run },
        ),
        Err(refusal) => refused(refusal, run),
    }
}
