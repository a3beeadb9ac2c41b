//! Relay under schedules, as a program runs it.
ghost use Rattle.std.specs.List.{AllByRecursion};
ghost use Rattle.sdl_transition.specs.Bound.{IsBound};
ghost use Rattle.sdl_transition_behaviour.specs.Transitions.{IsAllowedBehaviour};

use sdl_agents::{Runner, relay};
use sdl_app_command::arguments::{Command, Options};
use sdl_app_file_runs::running::{Settings, run_bound};
use sdl_examples::RELAY;
use sdl_test_systems::{Stop, bind_to};
use sdl_transition::{Agents, Behaviour, Bound};
use std::alloc::Global;
use std::test::Fail;

/// The sets of Relay.
const SETS: u32 = 3;

/// Runs a system by the schedule, and answers the status and what was written.
#[derive(Drop)]
struct Scheduled<'a> {
    settings: Settings<'a>,
    file: &'a str,
    input: &'a [u8],
}

type Ran = (u8, Vec<u8>);

impl Runner for Scheduled<'_> {
    type Answer = Result<Ran, Stop>;

    fn run<S: Agents + Drop>(self, behaviours: Vec<Behaviour<S>>) -> Result<Ran, Stop> {
        let bound = bind_to(self.settings.alloc, self.file, behaviours)?;
        carry_out(self.settings, bound, self.input)
    }
}

/// Runs the system. Its structure's budget is one that a file may have.
fn carry_out<S: Agents + Drop>(
    settings: Settings,
    bound: Bound<S>,
    input: &[u8],
) -> Result<Ran, Stop>
    requires { IsBound S.may bound }
{
    let budget = bound.checked().structure().budget();
    if budget < 1 || budget > 1_000_000 {
        return Err(Stop::Wrong("no such budget"));
    }
    let mut input = input;
    let mut output = Vec::new(settings.alloc);
    let mut errors: Vec<u8> = Vec::new(settings.alloc);
    let status = run_bound(settings, bound, &mut input, &mut output, &mut errors);
    Ok((status, output))
}

const SERIAL: Options = Options {
    command: Command::Run,
    serial: true,
    ledger: false,
    trace: false,
};

const LINES: &[u8] = b"left put 1\nright put 2\n";

/// Schedules, each with what Relay writes under it: the order of the lines of two routes is that of the workers' steps.
static SCHEDULES: [(&[u32], &[u8]); 2] = [
    (&[], b"sink out 1\nsink out 2\n"),
    (&[2, 2, 4, 8, 0, 0, 0, 10], b"sink out 2\nsink out 1\n"),
];

#[test]
fn relay_goes_by_the_schedule(rt: HostRuntime) -> Result<(), Fail> {
    for (schedule, wanted) in SCHEDULES.iter() {
        let settings = Settings {
            alloc: rt.alloc(),
            options: SERIAL,
            schedule,
        };
        let scheduled = Scheduled {
            settings,
            file: RELAY,
            input: LINES,
        };
        let (status, written) = relay::run(rt.alloc(), SETS, scheduled)??;
        assert!(rt; status == 0);
        assert!(rt; written.as_slice() == *wanted);
    }
    Ok(())
}
