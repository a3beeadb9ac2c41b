//! The built-in systems: the behaviours of each are made, bound to the structure and run.
ghost use Rattle.std.specs.Prelude.{◌≡◌, IfOk, IfSome, IsErr, IsSome};
ghost use Rattle.std.specs.List.{AllByRecursion};
ghost use Rattle.std.specs.Io.KnownBytes.{Keeps};
ghost use Rattle.sdl_agents.specs.Tables.{EchoMay, RelayMay, SpawnMay, RingMay, HoldMay};
ghost use Rattle.sdl_app_file_commands.specs.Running.{CanRun};
ghost use Rattle.sdl_transition_behaviour.specs.Transitions.{IsAllowedBehaviour};
ghost use Rattle.sdl_app_program.specs.Commands.{HasRunJob, may_of};

use crate::running::Job;
use sdl_agents::{
    System, echo_behaviours, hold_behaviours, relay_behaviours, ring_behaviours, spawn_behaviours,
};
use sdl_app_command::status::REFUSED;
use sdl_app_file_commands::faults::write_bind_fault;
use sdl_app_file_runs::in_threads::run_bound_in_threads;
use sdl_transition::{Agents, Behaviour, bind};
use std::alloc::{AllocError, Global};
use std::io::{Read, Write};
use std::sync::Wait;
use std::thread::Threads;

/// Binds the agents of a built-in system to the structure and runs them, in threads unless one was asked for, and answers the
/// exit status. Nothing is run where memory is refused while the agents are made.
pub fn run_system<T: Threads + Wait + Sync, R: Read, W: Write, E: Write>(
    rt: &T,
    system: System,
    job: Job,
    input: &mut R,
    output: &mut W,
    errors: &mut E,
) -> Result<u8, AllocError>
    requires { CanRun job.checked job.routes }
    ensures made { IfOk result (HasRunJob (may_of system) (R.remaining input.old) (R.remaining input.new) (W.contents output.old) (W.contents output.new) job.entry) }
    ensures refused { IfOk result (λ status. status ≡ 1 → (input.new ≡ input.old) × (output.new ≡ output.old)) }
    ensures memory { IsErr result → (input.new ≡ input.old) × (output.new ≡ output.old) }
    ensures silent { IfOk result (λ status. status ≡ 0 → Keeps (E.contents errors.old) (E.contents errors.new)) }
{
    let sets = job.checked.structure().sets().len() as u32;
    let alloc = job.settings.alloc;
    let mut waiting = Some(job);
    match system {
        System::Echo => run_echo(rt, alloc, sets, &mut waiting, input, output, errors),
        System::Relay => run_relay(rt, alloc, sets, &mut waiting, input, output, errors),
        System::Spawn => run_spawn(rt, alloc, sets, &mut waiting, input, output, errors),
        System::Ring => run_ring(rt, alloc, sets, &mut waiting, input, output, errors),
        System::Hold => run_hold(rt, alloc, sets, &mut waiting, input, output, errors),
    }
}

/// Runs Echo: the same.
fn run_echo<T: Threads + Wait + Sync, R: Read, W: Write, E: Write>(
    rt: &T,
    alloc: Global,
    sets: u32,
    waiting: &mut Option<Job>,
    input: &mut R,
    output: &mut W,
    errors: &mut E,
) -> Result<u8, AllocError>
    requires waits { IsSome waiting.old }
    requires runs { IfSome waiting.old (λ job. CanRun job.checked job.routes) }
    ensures made { IfOk result (λ status. IfSome waiting.old (λ job.
        HasRunJob EchoMay (R.remaining input.old) (R.remaining input.new) (W.contents output.old) (W.contents output.new) job status)) }
    ensures refused { IfOk result (λ status. status ≡ 1 → (input.new ≡ input.old) × (output.new ≡ output.old)) }
    ensures memory { IsErr result → (input.new ≡ input.old) × (output.new ≡ output.old) }
    ensures silent { IfOk result (λ status. status ≡ 0 → Keeps (E.contents errors.old) (E.contents errors.new)) }
{
    let behaviours = echo_behaviours!(alloc, sets);
    Ok(run_waiting(rt, waiting, behaviours, input, output, errors))
}

/// Runs Relay: the same.
fn run_relay<T: Threads + Wait + Sync, R: Read, W: Write, E: Write>(
    rt: &T,
    alloc: Global,
    sets: u32,
    waiting: &mut Option<Job>,
    input: &mut R,
    output: &mut W,
    errors: &mut E,
) -> Result<u8, AllocError>
    requires waits { IsSome waiting.old }
    requires runs { IfSome waiting.old (λ job. CanRun job.checked job.routes) }
    ensures made { IfOk result (λ status. IfSome waiting.old (λ job.
        HasRunJob RelayMay (R.remaining input.old) (R.remaining input.new) (W.contents output.old) (W.contents output.new) job status)) }
    ensures refused { IfOk result (λ status. status ≡ 1 → (input.new ≡ input.old) × (output.new ≡ output.old)) }
    ensures memory { IsErr result → (input.new ≡ input.old) × (output.new ≡ output.old) }
    ensures silent { IfOk result (λ status. status ≡ 0 → Keeps (E.contents errors.old) (E.contents errors.new)) }
{
    let behaviours = relay_behaviours!(alloc, sets);
    Ok(run_waiting(rt, waiting, behaviours, input, output, errors))
}

/// Runs Spawn: the same.
fn run_spawn<T: Threads + Wait + Sync, R: Read, W: Write, E: Write>(
    rt: &T,
    alloc: Global,
    sets: u32,
    waiting: &mut Option<Job>,
    input: &mut R,
    output: &mut W,
    errors: &mut E,
) -> Result<u8, AllocError>
    requires waits { IsSome waiting.old }
    requires runs { IfSome waiting.old (λ job. CanRun job.checked job.routes) }
    ensures made { IfOk result (λ status. IfSome waiting.old (λ job.
        HasRunJob SpawnMay (R.remaining input.old) (R.remaining input.new) (W.contents output.old) (W.contents output.new) job status)) }
    ensures refused { IfOk result (λ status. status ≡ 1 → (input.new ≡ input.old) × (output.new ≡ output.old)) }
    ensures memory { IsErr result → (input.new ≡ input.old) × (output.new ≡ output.old) }
    ensures silent { IfOk result (λ status. status ≡ 0 → Keeps (E.contents errors.old) (E.contents errors.new)) }
{
    let behaviours = spawn_behaviours!(alloc, sets);
    Ok(run_waiting(rt, waiting, behaviours, input, output, errors))
}

/// Runs Ring: the same.
fn run_ring<T: Threads + Wait + Sync, R: Read, W: Write, E: Write>(
    rt: &T,
    alloc: Global,
    sets: u32,
    waiting: &mut Option<Job>,
    input: &mut R,
    output: &mut W,
    errors: &mut E,
) -> Result<u8, AllocError>
    requires waits { IsSome waiting.old }
    requires runs { IfSome waiting.old (λ job. CanRun job.checked job.routes) }
    ensures made { IfOk result (λ status. IfSome waiting.old (λ job.
        HasRunJob RingMay (R.remaining input.old) (R.remaining input.new) (W.contents output.old) (W.contents output.new) job status)) }
    ensures refused { IfOk result (λ status. status ≡ 1 → (input.new ≡ input.old) × (output.new ≡ output.old)) }
    ensures memory { IsErr result → (input.new ≡ input.old) × (output.new ≡ output.old) }
    ensures silent { IfOk result (λ status. status ≡ 0 → Keeps (E.contents errors.old) (E.contents errors.new)) }
{
    let behaviours = ring_behaviours!(alloc, sets);
    Ok(run_waiting(rt, waiting, behaviours, input, output, errors))
}

/// Runs Hold: the same.
fn run_hold<T: Threads + Wait + Sync, R: Read, W: Write, E: Write>(
    rt: &T,
    alloc: Global,
    sets: u32,
    waiting: &mut Option<Job>,
    input: &mut R,
    output: &mut W,
    errors: &mut E,
) -> Result<u8, AllocError>
    requires waits { IsSome waiting.old }
    requires runs { IfSome waiting.old (λ job. CanRun job.checked job.routes) }
    ensures made { IfOk result (λ status. IfSome waiting.old (λ job.
        HasRunJob HoldMay (R.remaining input.old) (R.remaining input.new) (W.contents output.old) (W.contents output.new) job status)) }
    ensures refused { IfOk result (λ status. status ≡ 1 → (input.new ≡ input.old) × (output.new ≡ output.old)) }
    ensures memory { IsErr result → (input.new ≡ input.old) × (output.new ≡ output.old) }
    ensures silent { IfOk result (λ status. status ≡ 0 → Keeps (E.contents errors.old) (E.contents errors.new)) }
{
    let behaviours = hold_behaviours!(alloc, sets);
    Ok(run_waiting(rt, waiting, behaviours, input, output, errors))
}

/// Binds the behaviours to the structure of the job that waits and runs the system, and answers the exit status. The job waits
/// behind a reference while the closures are made, since whoever owns it would drop it wherever memory is refused.
fn run_waiting<S: Agents + Send + Drop, T: Threads + Wait + Sync, R: Read, W: Write, E: Write>(
    rt: &T,
    waiting: &mut Option<Job>,
    behaviours: Vec<Behaviour<S>>,
    input: &mut R,
    output: &mut W,
    errors: &mut E,
) -> u8
    requires waits { IsSome waiting.old }
    requires runs { IfSome waiting.old (λ job. CanRun job.checked job.routes) }
    requires allowed { AllByRecursion (IsAllowedBehaviour S.may) behaviours.items }
    ensures made { IfSome waiting.old (λ job. HasRunJob S.may (R.remaining input.old) (R.remaining input.new) (W.contents output.old) (W.contents output.new) job result) }
    ensures refused { result ≡ 1 → (input.new ≡ input.old) × (output.new ≡ output.old) }
    ensures silent { result ≡ 0 → Keeps (E.contents errors.old) (E.contents errors.new) }
{
    match waiting.take() {
        Some(job) => run_behaviours(rt, job, behaviours, input, output, errors),
        None => unreachable!(),
    }
}

#[tactic(auto, unfolding(sdl_app_file_commands::specs::Running::CanRun))]
/// Binds the behaviours to the structure and runs the system, and answers the exit status.
fn run_behaviours<S: Agents + Send + Drop, T: Threads + Wait + Sync, R: Read, W: Write, E: Write>(
    rt: &T,
    job: Job,
    behaviours: Vec<Behaviour<S>>,
    input: &mut R,
    output: &mut W,
    errors: &mut E,
) -> u8
    requires runs { CanRun job.checked job.routes }
    requires allowed { AllByRecursion (IsAllowedBehaviour S.may) behaviours.items }
    ensures made { HasRunJob S.may (R.remaining input.old) (R.remaining input.new) (W.contents output.old) (W.contents output.new) job.entry result }
    ensures refused { result ≡ 1 → (input.new ≡ input.old) × (output.new ≡ output.old) }
    ensures silent { result ≡ 0 → Keeps (E.contents errors.old) (E.contents errors.new) }
{
    let Job {
        settings,
        checked,
        routes,
    } = job;
    match bind(settings.alloc, checked, routes, behaviours) {
        Ok(bound) => run_bound_in_threads(rt, settings, bound, input, output, errors),
        Err(unbound) => {
            write_bind_fault(errors, unbound.fault);
            REFUSED
        }
    }
}
