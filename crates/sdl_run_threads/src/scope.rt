//! All workers at once, each in a thread of a scope, and the environment's on the caller's.
ghost use Rattle.std.specs.Prelude.{◌≡◌, ◌≤◌, ◌<◌, ◌+◌, ◌^◌, [], ◌∷◌, ◌++◌, None, false, vec_len, vec_capacity, IfOk, IfErr, IfSome, IfNone, slice_index_or};
ghost use Rattle.std.specs.List.{remove};
ghost use Rattle.std.specs.List.{All, AllZip};
ghost use Rattle.sdl_run_threads.specs.Back.{ComesFrom, ComesBackFrom, HandStaysEmpty, HaveCome, StartsLast, came_back};
ghost use Rattle.sdl_run_threads.specs.declared.work.Returned.{Returned};
ghost use Rattle.sdl_run_threads.specs.declared.kinds.Kind.{Kind};
ghost use Rattle.sdl_run_threads.specs.Kinds.{KeepsOneOf, SameOneOf};

use crate::driving::{Gate, drive};
use crate::kinds::Kind;
use crate::told::Told;
use crate::work::{Returned, Work};
use sdl_routes::Routes;
use sdl_structure_parts::Structure;
use std::snapshot::Snapshot;
use std::sync::Wait;
use std::thread;
use std::thread::{Promise, PromisedHandle, Scope, Threads};

/// The workers of a system before they start, and room for those that come back. The worker at a place of the list has that number,
/// and one more from the environment's number on.
#[derive(Drop)]
pub struct Team<W, E> {
    pub workers: Vec<W>,
    pub environment: E,
    pub number_of_environment: u32,
    /// Empty, with room for as many as there are workers.
    pub done: Vec<Returned<W>>,
}

/// A thread's promise: the worker that comes back is this one, and keeps what its steps keep in this system.
#[derive(Drop)]
struct ComesBack<B, F> {
    worker: Snapshot<Kind<B, F>>,
    structure: Snapshot<Structure>,
    routes: Snapshot<Routes>,
}

impl<B: Work, F: Work> Promise<Returned<Kind<B, F>>> for ComesBack<B, F> {
    ghost kept_by = { λ p r. ComesBackFrom (KeepsOneOf (B.keeps p.structure.value p.routes.value) (F.keeps p.structure.value p.routes.value)) (SameOneOf B.same F.same) (KeepsOneOf B.empty_handed F.empty_handed) p.worker.value r };
}

/// Lets the worker make its steps, where it stands, as `drive` does. Which kind it is, is told here, and not at each of its steps.
fn drive_kind<B: Work, F: Work, G: Gate, R: Wait>(
    rt: &R,
    worker: &mut Kind<B, F>,
    number: u32,
    structure: &Structure,
    routes: &Routes,
    gate: &G,
    told: &Told,
) -> bool
    requires { KeepsOneOf (B.keeps structure.now routes.now) (F.keeps structure.now routes.now) worker.old }
    ensures keeps { KeepsOneOf (B.keeps structure.now routes.now) (F.keeps structure.now routes.now) worker.new }
    ensures same { SameOneOf B.same F.same worker.old worker.new }
    ensures hand { result ≡ false → KeepsOneOf B.empty_handed F.empty_handed worker.old → KeepsOneOf B.empty_handed F.empty_handed worker.new }
{
    match worker {
        Kind::Block(block) => drive(rt, block, number, structure, routes, gate, told),
        Kind::Forwarder(forwarder) => drive(rt, forwarder, number, structure, routes, gate, told),
    }
}

/// Hands back a worker that made steps, and says whether memory was refused to the last.
fn come_back<W>(worker: W, refused: bool) -> Returned<W>
    ensures { result ≡ came_back worker refused }
{
    if refused {
        Returned::Refused(worker)
    } else {
        Returned::Ran(worker)
    }
}

/// Runs the worker in this thread, unless it was turned away.
fn run_one<B: Work, F: Work, G: Gate, R: Wait>(
    rt: &R,
    mut worker: Kind<B, F>,
    number: u32,
    structure: &Structure,
    routes: &Routes,
    gate: &G,
    told: &Told,
) -> Returned<Kind<B, F>>
    requires { KeepsOneOf (B.keeps structure.now routes.now) (F.keeps structure.now routes.now) worker }
    ensures { ComesBackFrom (KeepsOneOf (B.keeps structure.now routes.now) (F.keeps structure.now routes.now)) (SameOneOf B.same F.same) (KeepsOneOf B.empty_handed F.empty_handed) worker result }
{
    if told.is_turned_away(number) {
        return Returned::NotStarted(worker);
    }
    let refused = drive_kind(rt, &mut worker, number, structure, routes, gate, told);
    come_back(worker, refused)
}

/// Starts the worker of this number in a thread of its own. Where that can't start, all are told to stop, and the worker comes back
/// at once.
fn start_one<
    's,
    'e: 's,
    B: Work + Send + Drop + 'e,
    F: Work + Send + Drop + 'e,
    G: Gate + 'e,
    R: Threads + Wait + Sync + 'e,
>(
    scope: &'s Scope<'s, &'e ()>,
    rt: &'e R,
    worker: Kind<B, F>,
    number: u32,
    structure: &'e Structure,
    routes: &'e Routes,
    gate: &'e G,
    told: &'e Told,
) -> Result<PromisedHandle<Returned<Kind<B, F>>, ComesBack<B, F>>, Returned<Kind<B, F>>>
    requires { KeepsOneOf (B.keeps structure.now routes.now) (F.keeps structure.now routes.now) worker }
    ensures worker { IfOk result (λ thread. thread.promise.worker.value ≡ worker) }
    ensures system { IfOk result (λ thread. (thread.promise.structure.value ≡ structure.now) × (thread.promise.routes.value ≡ routes.now)) }
    ensures back { IfErr result (λ back. ComesBackFrom (KeepsOneOf (B.keeps structure.now routes.now) (F.keeps structure.now routes.now)) (SameOneOf B.same F.same) (KeepsOneOf B.empty_handed F.empty_handed) worker back) }
{
    let promise = ComesBack {
        worker: Snapshot::of(&worker),
        structure: Snapshot::of(structure),
        routes: Snapshot::of(routes),
    };
    let started = scope.spawn_with(
        promise,
        move || -> Returned<Kind<B, F>>
            requires { KeepsOneOf (B.keeps structure.now routes.now) (F.keeps structure.now routes.now) worker }
            ensures { ComesBackFrom (KeepsOneOf (B.keeps structure.entry.now routes.entry.now) (F.keeps structure.entry.now routes.entry.now)) (SameOneOf B.same F.same) (KeepsOneOf B.empty_handed F.empty_handed) worker result }
        { run_one(rt, worker, number, structure, routes, gate, told) },
    );
    match started {
        Ok(thread) => Ok(thread),
        Err(refused) => {
            told.words.stop();
            told.turn_away(number);
            Err((refused.value)())
        }
    }
}

/// Starts the last worker of the list in a thread of its own, and takes it off the list. Where that can't start, the worker comes back
/// at once, behind those that are done. What it needs of the stack is free again when it returns.
#[inline(never)]
fn start_last<
    's,
    'e: 's,
    B: Work + Send + Drop + 'e,
    F: Work + Send + Drop + 'e,
    G: Gate + 'e,
    R: Threads + Wait + Sync + 'e,
>(
    scope: &'s Scope<'s, &'e ()>,
    rt: &'e R,
    workers: &mut Vec<Kind<B, F>>,
    number_of_environment: u32,
    done: &mut Vec<Returned<Kind<B, F>>>,
    structure: &'e Structure,
    routes: &'e Routes,
    gate: &'e G,
    told: &'e Told,
) -> Option<PromisedHandle<Returned<Kind<B, F>>, ComesBack<B, F>>>
    requires some { 0 < vec_len workers.old }
    requires few { vec_len workers.old < 2 ^ 31 }
    requires sound { All (KeepsOneOf (B.keeps structure.now routes.now) (F.keeps structure.now routes.now)) workers.old.items }
    requires room { vec_len workers.old + vec_len done.old ≤ vec_capacity done.old }
    ensures starts { StartsLast (λ w thread. (thread.promise.worker.value ≡ w) × (thread.promise.structure.value ≡ structure.now) × (thread.promise.routes.value ≡ routes.now))
        (ComesBackFrom (KeepsOneOf (B.keeps structure.now routes.now) (F.keeps structure.now routes.now)) (SameOneOf B.same F.same) (KeepsOneOf B.empty_handed F.empty_handed)) workers.old.items workers.new.items done.old.items done.new.items result }
    ensures room { vec_capacity done.new ≡ vec_capacity done.old }
{
    let Some(worker) = workers.pop() else {
        unreachable!()
    };
    let place = workers.len() as u32;
    let number = if place < number_of_environment {
        place
    } else {
        place + 1
    };
    match start_one(scope, rt, worker, number, structure, routes, gate, told) {
        Ok(thread) => Some(thread),
        Err(turned_away) => {
            done.push_reserved(turned_away);
            None
        }
    }
}

/// Waits for a worker's thread, and adds the worker to those that are done. One without a thread is there already, at this place, and
/// comes behind the others.
#[inline(never)]
fn come_last<B: Work + Drop, F: Work + Drop, R: Threads + Wait>(
    rt: &R,
    thread: Option<PromisedHandle<Returned<Kind<B, F>>, ComesBack<B, F>>>,
    place: usize,
    done: &mut Vec<Returned<Kind<B, F>>>,
)
    requires there { thread ≡ None → place < vec_len done.old }
    requires room { IfSome thread (λ t. vec_len done.old < vec_capacity done.old) }
    ensures joined { IfSome thread (λ t. (back : Returned (Kind B F)) × (done.new.items ≡ done.old.items ++ back ∷ [])
        × ComesBackFrom (KeepsOneOf (B.keeps t.promise.structure.value t.promise.routes.value) (F.keeps t.promise.structure.value t.promise.routes.value)) (SameOneOf B.same F.same) (KeepsOneOf B.empty_handed F.empty_handed) t.promise.worker.value back) }
    ensures moved { IfNone thread ((back : Returned (Kind B F)) × (back ≡ slice_index_or done.old.items place back) × (done.new.items ≡ remove done.old.items place ++ back ∷ [])) }
    ensures room { vec_capacity done.new ≡ vec_capacity done.old }
{
    let back = match thread {
        Some(thread) => thread.join(rt),
        None => done.remove(place),
    };
    done.push_reserved(back);
}

/// Starts the last worker, then the rest beside it, and at last the environment's on this thread, whose number is this. It says whether
/// memory was refused to the environment's last step. Each worker takes some stack until its thread has ended; so this hands on
/// references alone, and what a worker takes itself is in functions of their own.
fn run_others<
    's,
    'e: 's,
    B: Work + Send + Drop + 'e,
    F: Work + Send + Drop + 'e,
    E: Work,
    G: Gate + 'e,
    R: Threads + Wait + Sync + 'e,
>(
    scope: &'s Scope<'s, &'e ()>,
    rt: &'e R,
    workers: &mut Vec<Kind<B, F>>,
    environment: &mut E,
    number_of_environment: u32,
    done: &mut Vec<Returned<Kind<B, F>>>,
    structure: &'e Structure,
    routes: &'e Routes,
    gate: &'e G,
    told: &'e Told,
) -> bool
    requires few { vec_len workers.old < 2 ^ 31 }
    requires sound { All (KeepsOneOf (B.keeps structure.now routes.now) (F.keeps structure.now routes.now)) workers.old.items }
    requires sound_environment { E.keeps structure.now routes.now environment.old }
    requires room { vec_len workers.old + vec_len done.old ≤ vec_capacity done.old }
    ensures workers { HaveCome (ComesBackFrom (KeepsOneOf (B.keeps structure.now routes.now) (F.keeps structure.now routes.now)) (SameOneOf B.same F.same) (KeepsOneOf B.empty_handed F.empty_handed)) workers.old.items done.old.items done.new.items }
    ensures keeps { E.keeps structure.now routes.now environment.new }
    ensures same { E.same environment.old environment.new }
    ensures hand { result ≡ false → E.empty_handed environment.old → E.empty_handed environment.new }
    ensures room { vec_capacity done.new ≡ vec_capacity done.old }
{
    if workers.is_empty() {
        return drive(
            rt,
            environment,
            number_of_environment,
            structure,
            routes,
            gate,
            told,
        );
    }
    let place = done.len();
    let thread = start_last(
        scope,
        rt,
        workers,
        number_of_environment,
        done,
        structure,
        routes,
        gate,
        told,
    );
    let refused = run_others(
        scope,
        rt,
        workers,
        environment,
        number_of_environment,
        done,
        structure,
        routes,
        gate,
        told,
    );
    come_last(rt, thread, place, done);
    refused
}

/// Runs all workers, and the environment's on this thread.
fn run_team<
    's,
    'e: 's,
    B: Work + Send + Drop + 'e,
    F: Work + Send + Drop + 'e,
    E: Work,
    G: Gate + 'e,
    R: Threads + Wait + Sync + 'e,
>(
    scope: &'s Scope<'s, &'e ()>,
    rt: &'e R,
    team: Team<Kind<B, F>, E>,
    structure: &'e Structure,
    routes: &'e Routes,
    gate: &'e G,
    told: &'e Told,
) -> (Vec<Returned<Kind<B, F>>>, Returned<E>)
    requires few { vec_len team.workers < 2 ^ 31 }
    requires sound { All (KeepsOneOf (B.keeps structure.now routes.now) (F.keeps structure.now routes.now)) team.workers.items }
    requires sound_environment { E.keeps structure.now routes.now team.environment }
    requires empty { team.done.items ≡ [] }
    requires room { vec_len team.workers ≤ vec_capacity team.done }
    ensures workers { AllZip (ComesFrom (KeepsOneOf (B.keeps structure.now routes.now) (F.keeps structure.now routes.now)) (SameOneOf B.same F.same)) team.workers.items result.0.items }
    ensures environment { ComesFrom (E.keeps structure.now routes.now) E.same team.environment result.1 }
    ensures hands { AllZip (HandStaysEmpty (KeepsOneOf B.empty_handed F.empty_handed)) team.workers.items result.0.items }
    ensures environment_hand { HandStaysEmpty E.empty_handed team.environment result.1 }
{
    let Team {
        mut workers,
        mut environment,
        number_of_environment,
        mut done,
    } = team;
    let refused = run_others(
        scope,
        rt,
        &mut workers,
        &mut environment,
        number_of_environment,
        &mut done,
        structure,
        routes,
        gate,
        told,
    );
    (done, come_back(environment, refused))
}

/// Lets each of the workers make its steps in a thread of its own, and the environment's in this one. All go on until they are
/// told to stop. Each makes at least one step, but where its thread can't start; then all are told to stop. They come back in the
/// order of the list.
pub fn run_all<
    B: Work + Send + Drop,
    F: Work + Send + Drop,
    E: Work + Drop,
    G: Gate,
    R: Threads + Wait + Sync,
>(
    rt: &R,
    team: Team<Kind<B, F>, E>,
    structure: &Structure,
    routes: &Routes,
    gate: &G,
) -> (Vec<Returned<Kind<B, F>>>, Returned<E>)
    requires few { vec_len team.workers < 2 ^ 31 }
    requires sound { All (KeepsOneOf (B.keeps structure.now routes.now) (F.keeps structure.now routes.now)) team.workers.items }
    requires sound_environment { E.keeps structure.now routes.now team.environment }
    requires empty { team.done.items ≡ [] }
    requires room { vec_len team.workers ≤ vec_capacity team.done }
    ensures workers { AllZip (ComesFrom (KeepsOneOf (B.keeps structure.now routes.now) (F.keeps structure.now routes.now)) (SameOneOf B.same F.same)) team.workers.items result.0.items }
    ensures environment { ComesFrom (E.keeps structure.now routes.now) E.same team.environment result.1 }
    ensures hands { AllZip (HandStaysEmpty (KeepsOneOf B.empty_handed F.empty_handed)) team.workers.items result.0.items }
    ensures environment_hand { HandStaysEmpty E.empty_handed team.environment result.1 }
{
    let told = Told::new(team.workers.len() as u32 + 1);
    run_told(rt, team, structure, routes, gate, &told)
}

/// Lets all make their steps, with these hints between them.
fn run_told<
    B: Work + Send + Drop,
    F: Work + Send + Drop,
    E: Work + Drop,
    G: Gate,
    R: Threads + Wait + Sync,
>(
    rt: &R,
    team: Team<Kind<B, F>, E>,
    structure: &Structure,
    routes: &Routes,
    gate: &G,
    told: &Told,
) -> (Vec<Returned<Kind<B, F>>>, Returned<E>)
    requires few { vec_len team.workers < 2 ^ 31 }
    requires sound { All (KeepsOneOf (B.keeps structure.now routes.now) (F.keeps structure.now routes.now)) team.workers.items }
    requires sound_environment { E.keeps structure.now routes.now team.environment }
    requires empty { team.done.items ≡ [] }
    requires room { vec_len team.workers ≤ vec_capacity team.done }
    ensures workers { AllZip (ComesFrom (KeepsOneOf (B.keeps structure.now routes.now) (F.keeps structure.now routes.now)) (SameOneOf B.same F.same)) team.workers.items result.0.items }
    ensures environment { ComesFrom (E.keeps structure.now routes.now) E.same team.environment result.1 }
    ensures hands { AllZip (HandStaysEmpty (KeepsOneOf B.empty_handed F.empty_handed)) team.workers.items result.0.items }
    ensures environment_hand { HandStaysEmpty E.empty_handed team.environment result.1 }
{
    thread::scope(
        thread::scope_env(),
        rt,
        |scope| -> (Vec<Returned<Kind<B, F>>>, Returned<E>)
            requires { All (KeepsOneOf (B.keeps structure.now routes.now) (F.keeps structure.now routes.now)) team.workers.items × E.keeps structure.now routes.now team.environment × (vec_len team.workers < 2 ^ 31) × (team.done.items ≡ []) × (vec_len team.workers ≤ vec_capacity team.done) }
            ensures workers { AllZip (ComesFrom (KeepsOneOf (B.keeps structure.entry.now routes.entry.now) (F.keeps structure.entry.now routes.entry.now)) (SameOneOf B.same F.same)) team.workers.items result.0.items }
            ensures environment { ComesFrom (E.keeps structure.entry.now routes.entry.now) E.same team.environment result.1 }
            ensures hands { AllZip (HandStaysEmpty (KeepsOneOf B.empty_handed F.empty_handed)) team.workers.items result.0.items }
            ensures environment_hand { HandStaysEmpty E.empty_handed team.environment result.1 }
        { run_team(scope, rt, team, structure, routes, gate, told) },
    )
}
