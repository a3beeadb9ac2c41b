//! The calls of a block at work over the board: `step [PICK]`, `counts` and `end`.
ghost use Rattle.std.specs.Prelude.{◌≡◌, All, IfOk};
ghost use Rattle.sdl_forward.specs.Boards.{IsBoardOf};
ghost use Rattle.sdl_instances.specs.Core.{IsSound, IsLegalIn};
ghost use Rattle.sdl_instances.specs.CoreOf.{CanFire};
ghost use Rattle.sdl_block_hand.specs.Work.{StepsAs};
ghost use Rattle.sdl_block.specs.Workers.{worker_of, behaviours_of, system_around};
ghost use Rattle.sdl_stepper_block_calls.specs.Stored.{CanGoOn};

use crate::cores::{pick_of, write_counts, write_items};
use crate::lines::text_of;
use crate::session::{Next, Session, Site, other_call};
use sdl_block::{BlockWorker, Hand, Stepped};
use sdl_forward::Board;
use sdl_routes::Routes;
use sdl_signal::InputEnd;
use sdl_stepper_calls::answers::Answers;
use sdl_stepper_calls::calls::{Call, words_of, write_meant};
use sdl_stepper_calls::common::{Desk, Place, name_of};
use sdl_stepper_calls::texts::write_item;
use sdl_transition::Agents;
use std::alloc::AllocError;
use std::io::{Read, Write};
use std::sync::Wait;

const STEP: &str = "step [PICK]";

const CALLS: &str =
    "a call of the block at work (step, counts, end), or one that needs no block; help tells them all";

/// Makes a step.
fn step<S: Agents>(
    worker: &mut BlockWorker<S>,
    routes: &Routes,
    board: &mut Board,
    pick: u32,
) -> Stepped
    requires worker { CanGoOn S.may worker.old routes.now }
    requires board { IsBoardOf routes.now board.old }
    ensures step { StepsAs S.may (system_around worker.old routes.now) (worker_of worker.old) board.old result (worker_of worker.new) board.new }
    ensures worker { CanGoOn S.may worker.new routes.now }
    ensures board { IsBoardOf routes.now board.new }
    ensures parts { behaviours_of worker.new ≡ behaviours_of worker.old }
{
    worker.step_serial(routes, board, pick)
}

/// A step, made once more where memory was refused or an item may not arrive.
fn step_again<S: Agents>(
    worker: &mut BlockWorker<S>,
    routes: &Routes,
    board: &mut Board,
    pick: u32,
) -> Stepped
    requires worker { CanGoOn S.may worker.old routes.now }
    requires board { IsBoardOf routes.now board.old }
    ensures worker { CanGoOn S.may worker.new routes.now }
    ensures board { IsBoardOf routes.now board.new }
    ensures parts { behaviours_of worker.new ≡ behaviours_of worker.old }
{
    match step(worker, routes, board, pick) {
        Stepped::Memory => step(worker, routes, board, pick),
        made => made,
    }
}

/// `step`: `did`, `idle`, or `refused` where memory was refused twice or an item may not arrive. What a refused step has in
/// hand is where the next one goes on.
fn step_call<S: Agents, W: Write>(
    place: &Place,
    board: &mut Board,
    worker: &mut BlockWorker<S>,
    call: Call,
    answers: &mut Answers<W>,
)
    requires worker { CanGoOn S.may worker.old place.now.routes.now }
    requires board { IsBoardOf place.now.routes.now board.old }
    ensures worker { CanGoOn S.may worker.new place.now.routes.now }
    ensures board { IsBoardOf place.now.routes.now board.new }
    ensures parts { behaviours_of worker.new ≡ behaviours_of worker.old }
{
    let Some(pick) = pick_of(call.words) else {
        return write_meant(answers, call.line, STEP);
    };
    let stepped = step_again(worker, place.routes, board, pick);
    answers.line(text_of_step(stepped));
}

fn text_of_step(stepped: Stepped) -> &'static str {
    match stepped {
        Stepped::Did => "did",
        Stepped::Idle => "idle",
        Stepped::Memory => "refused",
    }
}

/// Answers a call that leaves the block as it is.
fn still_call<S: Agents, T: Wait, W: Write>(
    site: &Site<T>,
    desk: &mut Desk,
    worker: &BlockWorker<S>,
    call: Call,
    answers: &mut Answers<W>,
) -> Result<(), AllocError>
    requires { IsBoardOf site.now.place.routes.now desk.old.board }
    ensures { IfOk result (λ _. IsBoardOf site.now.place.routes.now desk.new.board) }
{
    if name_of(call) == "counts" {
        write_worker_counts(answers, worker);
        return Ok(());
    }
    other_call(site, desk, call, CALLS, answers)
}

fn write_worker_counts<S: Agents, W: Write>(answers: &mut Answers<W>, worker: &BlockWorker<S>) {
    let made = worker.made();
    let left = worker.left_in_ports();
    write_counts(answers, made, left, worker.is_settled());
}

/// Answers a call, and `end`.
fn worker_call<S: Agents, T: Wait, W: Write>(
    site: &Site<T>,
    desk: &mut Desk,
    worker: &mut BlockWorker<S>,
    call: Call,
    answers: &mut Answers<W>,
) -> Result<Next, AllocError>
    requires worker { CanGoOn S.may worker.old site.now.place.routes.now }
    requires board { IsBoardOf site.now.place.routes.now desk.old.board }
    ensures worker { IfOk result (λ _. CanGoOn S.may worker.new site.now.place.routes.now) }
    ensures board { IfOk result (λ _. IsBoardOf site.now.place.routes.now desk.new.board) }
    ensures parts { behaviours_of worker.new ≡ behaviours_of worker.old }
{
    match name_of(call) {
        "end" => return Ok(Next::Over(None)),
        "step" => step_call(&site.place, &mut desk.board, worker, call, answers),
        _ => still_call(site, desk, worker, call, answers)?,
    }
    Ok(Next::Line)
}

/// Answers the call of the next line.
fn worker_line<S: Agents, T: Wait, R: Read, W: Write>(
    site: &Site<T>,
    desk: &mut Desk,
    worker: &mut BlockWorker<S>,
    session: &mut Session<R, W>,
) -> Result<Next, AllocError>
    requires worker { CanGoOn S.may worker.old site.now.place.routes.now }
    requires board { IsBoardOf site.now.place.routes.now desk.old.board }
    ensures worker { IfOk result (λ _. CanGoOn S.may worker.new site.now.place.routes.now) }
    ensures board { IfOk result (λ _. IsBoardOf site.now.place.routes.now desk.new.board) }
    ensures parts { behaviours_of worker.new ≡ behaviours_of worker.old }
{
    let line = match session.next_line() {
        Ok(line) => line,
        Err(end) => return Ok(Next::Over(Some(end))),
    };
    let words = words_of(site.place.alloc, text_of(&line))?;
    let call = session.call(words.as_slice());
    worker_call(site, desk, worker, call, &mut session.answers)
}

/// Answers the calls of the block at work up to `end`; or else answers how the input ended.
pub fn use_worker<S: Agents, T: Wait, R: Read, W: Write>(
    site: &Site<T>,
    desk: &mut Desk,
    worker: &mut BlockWorker<S>,
    session: &mut Session<R, W>,
) -> Result<Option<InputEnd>, AllocError>
    requires worker { CanGoOn S.may worker.old site.now.place.routes.now }
    requires board { IsBoardOf site.now.place.routes.now desk.old.board }
    ensures board { IfOk result (λ _. IsBoardOf site.now.place.routes.now desk.new.board) }
    ensures parts { behaviours_of worker.new ≡ behaviours_of worker.old }
{
    'calls: for _ in 0..u64::MAX {
        if let Next::Over(end) = worker_line(site, desk, worker, session)? {
            return Ok(end);
        }
    }
    Ok(None)
}

/// Writes what a block has in hand: the item that it keeps, and those that it has yet to put.
pub fn write_hand<W: Write>(answers: &mut Answers<W>, place: &Place, hand: &Hand) {
    if let Some(item) = &hand.kept {
        answers.text("kept ");
        write_item(answers, place.structure, item);
        answers.line("");
    }
    write_items(answers, place, hand.outgoing.as_slice());
}
