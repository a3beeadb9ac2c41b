//! All workers make their steps at once, the environment on this thread.
ghost use Rattle.std.specs.Prelude.{◌≡◌, ◌<◌, ◌≤◌, ◌^◌, [], ◌∷◌, map, vec_len, vec_capacity};
ghost use Rattle.std.specs.List.{All, AllZip};
ghost use Rattle.sdl_routes.specs.Routes.{EachOnce};
ghost use Rattle.sdl_routes.specs.declared.route.Station.TheVariants.{Outlet};
ghost use Rattle.sdl_forward_ends.specs.Ends.{IsSameEnds};
ghost use Rattle.sdl_forward_ends.specs.Marks.{mark};
ghost use Rattle.sdl_run_threads.specs.Back.{ComesFrom};
ghost use Rattle.sdl_run.specs.Environment.{KeepsEnvironment};

use crate::environment_thread::EnvironmentThread;
use sdl_forward_ends::Ends;
use sdl_instances_log::LogStore;
use sdl_routes::Routes;
use sdl_run_environment::EnvApart;
use sdl_run_settling::back::split_returned;
use sdl_run_threads::{AtWork, Gate, Returned, Team, Work, run_workers};
use sdl_structure_parts::Structure;
use sdl_transition::Agents;
use std::io::{Read, Write};
use std::snapshot::Snapshot;
use std::sync::Wait;
use std::thread::Threads;

/// The environment's worker with its ends.
#[derive(Drop)]
pub struct EnvironmentWithEnds {
    pub worker: EnvApart,
    pub ends: Ends,
}

/// Lets all workers make their steps until they are told to stop. It answers the environment, and how it came back, beside
/// the others as they came back.
fn run_until_told<
    'e,
    'i,
    'o,
    S: Agents + Send,
    K: LogStore + Send,
    G: Gate,
    T: Threads + Wait + Sync,
    R: Read,
    W: Write,
>(
    rt: &T,
    team: Team<AtWork<S, K>, EnvironmentThread<'e, 'i, 'o, R, W>>,
    structure: &Structure,
    routes: &Routes,
    gate: &G,
) -> (
    Vec<Returned<AtWork<S, K>>>,
    EnvironmentThread<'e, 'i, 'o, R, W>,
    Returned<()>,
)
    requires few { vec_len team.workers < 2 ^ 31 }
    requires sound { All (⟦<AtWork<S, K> as Work>⟧.keeps structure.now routes.now) team.workers.items }
    requires sound_environment { KeepsEnvironment structure.now routes.now team.environment.environment.now.worker team.environment.environment.now.astray team.environment.ends (R.remaining team.environment.started_input.value) (R.remaining team.environment.input.now) (W.contents team.environment.started_output.value) (W.contents team.environment.output.now) }
    requires empty { team.done.items ≡ [] }
    requires room { vec_len team.workers ≤ vec_capacity team.done }
    requires marks { EachOnce (map mark (Outlet ∷ map (⟦<AtWork<S, K> as Work>⟧.station) team.workers.items)) }
    ensures workers { AllZip (ComesFrom (⟦<AtWork<S, K> as Work>⟧.keeps structure.now routes.now) ⟦<AtWork<S, K> as Work>⟧.same) team.entry.workers.items result.0.items }
    ensures keeps { KeepsEnvironment structure.now routes.now result.1.environment.now.worker result.1.environment.now.astray result.1.ends (R.remaining result.1.started_input.value) (R.remaining result.1.input.now) (W.contents result.1.started_output.value) (W.contents result.1.output.now) }
    ensures environment { result.1.environment.ghost_name ≡ team.entry.environment.environment.ghost_name }
    ensures input { result.1.input.ghost_name ≡ team.entry.environment.input.ghost_name }
    ensures output { result.1.output.ghost_name ≡ team.entry.environment.output.ghost_name }
    ensures started_input { result.1.started_input ≡ team.entry.environment.started_input }
    ensures started_output { result.1.started_output ≡ team.entry.environment.started_output }
    ensures ends { IsSameEnds team.entry.environment.ends result.1.ends }
{
    let (done, environment) = run_workers(rt, team, structure, routes, gate);
    let (environment, way) = split_returned(environment);
    (done, environment, way)
}

/// Lets all workers make their steps until they are told to stop. The environment's are on this thread, with these to read from
/// and to write to. It answers the environment and its ends, and how it came back, beside the others as they came back.
pub fn run_beside<
    S: Agents + Send,
    K: LogStore + Send,
    G: Gate,
    T: Threads + Wait + Sync,
    R: Read,
    W: Write,
>(
    rt: &T,
    team: Team<AtWork<S, K>, EnvironmentWithEnds>,
    structure: &Structure,
    routes: &Routes,
    gate: &G,
    input: &mut R,
    output: &mut W,
) -> (Vec<Returned<AtWork<S, K>>>, EnvApart, Ends, Returned<()>)
    requires few { vec_len team.workers < 2 ^ 31 }
    requires sound { All (⟦<AtWork<S, K> as Work>⟧.keeps structure.now routes.now) team.workers.items }
    requires sound_environment { KeepsEnvironment structure.now routes.now team.environment.worker.worker team.environment.worker.astray team.environment.ends (R.remaining input.old) (R.remaining input.old) (W.contents output.old) (W.contents output.old) }
    requires empty { team.done.items ≡ [] }
    requires room { vec_len team.workers ≤ vec_capacity team.done }
    requires marks { EachOnce (map mark (Outlet ∷ map (⟦<AtWork<S, K> as Work>⟧.station) team.workers.items)) }
    ensures workers { AllZip (ComesFrom (⟦<AtWork<S, K> as Work>⟧.keeps structure.now routes.now) ⟦<AtWork<S, K> as Work>⟧.same) team.workers.items result.0.items }
    ensures keeps { KeepsEnvironment structure.now routes.now result.1.worker result.1.astray result.2 (R.remaining input.old) (R.remaining input.new) (W.contents output.old) (W.contents output.new) }
    ensures ends { IsSameEnds team.environment.ends result.2 }
{
    let started_input = Snapshot::of(&*input);
    let started_output = Snapshot::of(&*output);
    let Team {
        workers,
        environment: EnvironmentWithEnds { worker, ends },
        number_of_environment,
        done,
    } = team;
    let mut worker = worker;
    let environment = EnvironmentThread {
        environment: &mut worker,
        ends,
        input,
        output,
        started_input,
        started_output,
        idle_steps: 0,
    };
    let team = Team {
        workers,
        environment,
        number_of_environment,
        done,
    };
    let (done, environment, way) = run_until_told(rt, team, structure, routes, gate);
    let EnvironmentThread {
        environment,
        ends,
        input,
        output,
        started_input: _started_input,
        started_output: _started_output,
        idle_steps: _idle_steps,
    } = environment;
    take_back(environment);
    take_back(input);
    take_back(output);
    (done, worker, ends, way)
}

/// Does nothing, but that what becomes of a reference that was lent is known where it is lent.
fn take_back<X>(x: &mut X)
    ensures { x.new ≡ x.old }
{}
