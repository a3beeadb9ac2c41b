//! The calls of the core of a block: `arrive ITEM [pick N]`, `turn [PICK]`, `knew`, `counts`, `log` and `end`.
ghost use Rattle.std.specs.Prelude.{◌≡◌, ◌^◌, ◌-◌, ◌<◌, ◌↔◌, IsSome, IfOk, MatchOption};
ghost use Rattle.sdl_forward.specs.Boards.{IsBoardOf};
ghost use Rattle.sdl_instances.specs.Calls.{TurnAnswers};
ghost use Rattle.sdl_instances.specs.Core.{IsSound};
ghost use Rattle.sdl_instances.specs.CoreOf.{CanFire, core_of, parts_of, system_in};
ghost use Rattle.sdl_instances.specs.Arriving.{CanArrive};
ghost use Rattle.sdl_instances.specs.Machine.{Arrives};

use crate::events::{Shown, cause_text, write_event};
use crate::lines::text_of;
use crate::session::{Next, Session, Site, other_call};
use sdl_instances::{Arrival, BlockCore, Event, Turned};
use sdl_routes::Routes;
use sdl_signal::{InputEnd, Item, Pid};
use sdl_stepper_calls::answers::Answers;
use sdl_stepper_calls::calls::{Call, words_of, write_meant};
use sdl_stepper_calls::common::{Desk, Place, name_of};
use sdl_stepper_calls::desk::given_after_name;
use sdl_stepper_calls::items::Given;
use sdl_stepper_calls::naming::block_name;
use sdl_stepper_calls::texts::{write_item, write_pid};
use sdl_transition::{Agents, Frame};
use std::alloc::AllocError;
use std::io::{Read, Write};
use std::sync::Wait;

const ARRIVE: &str =
    "arrive ROUTE SIGNAL VALUE .. [to PID] [sender PID] [stamp N] [origin W.N] [pick N]";

const STAMP: &str = "a stamp is at most 18446744073709551614";

const TURN: &str = "turn [PICK]";

const CALLS: &str =
    "a call of the core (arrive, turn, knew, counts, log, end), or one that needs no block; help tells them all";

/// Lets the item arrive where it may, and answers nothing where it may not. After a refusal all is as it was, so the call is
/// made once more.
pub fn arrive<S: Agents>(
    core: &mut BlockCore<S>,
    routes: &Routes,
    item: Item,
    pick: u32,
) -> Result<Option<Arrival>, AllocError>
    requires sound { IsSound S.may (system_in core.old routes.now) (core_of core.old) }
    requires stamp { item.stamp < 2 ^ 64 - 1 }
    ensures may { IfOk result (λ a. IsSome a ↔ CanArrive (system_in core.old routes.now) (core_of core.old).block item) }
    ensures arrives { IfOk result (λ a. MatchOption a
        (core_of core.new ≡ core_of core.old)
        (λ arrival. Arrives routes.now (core_of core.old).state item arrival (core_of core.new).state)) }
    ensures sound { IfOk result (λ _. IsSound S.may (system_in core.new routes.now) (core_of core.new)) }
    ensures parts { parts_of core.new ≡ parts_of core.old }
{
    if !core.can_arrive(routes, &item) {
        return Ok(None);
    }
    match core.arrive(routes, item, pick) {
        Ok(arrival) => Ok(Some(arrival)),
        Err((item, _)) => match core.arrive(routes, item, pick) {
            Ok(arrival) => Ok(Some(arrival)),
            Err((_, error)) => Err(error),
        },
    }
}

/// The item that the words give to arrive, or else what was meant. Where it is one, `next` goes up by one.
fn given_to_arrive(place: &Place, words: &[&str], next: &mut u64) -> Result<Given, &'static str>
    ensures { IfOk result (λ given. given.item.stamp < 2 ^ 64 - 1) }
{
    let Some(given) = given_after_name(place.structure, words, *next) else {
        return Err(ARRIVE);
    };
    if given.item.stamp == u64::MAX {
        return Err(STAMP);
    }
    *next = next.saturating_add(1);
    Ok(given)
}

/// `arrive`: what became of the item, or `may not arrive`.
fn arrive_call<S: Agents, W: Write>(
    place: &Place,
    next: &mut u64,
    core: &mut BlockCore<S>,
    call: Call,
    answers: &mut Answers<W>,
) -> Result<(), AllocError>
    requires sound { IsSound S.may (system_in core.old place.now.routes.now) (core_of core.old) }
    ensures sound { IfOk result (λ _. IsSound S.may (system_in core.new place.now.routes.now) (core_of core.new)) }
    ensures parts { parts_of core.new ≡ parts_of core.old }
{
    match given_to_arrive(place, call.words, next) {
        Ok(given) => arrive_given(place, core, given, answers),
        Err(meant) => {
            write_meant(answers, call.line, meant);
            Ok(())
        }
    }
}

/// Lets what was given arrive, and answers what became of it.
fn arrive_given<S: Agents, W: Write>(
    place: &Place,
    core: &mut BlockCore<S>,
    given: Given,
    answers: &mut Answers<W>,
) -> Result<(), AllocError>
    requires sound { IsSound S.may (system_in core.old place.now.routes.now) (core_of core.old) }
    requires stamp { given.item.stamp < 2 ^ 64 - 1 }
    ensures sound { IfOk result (λ _. IsSound S.may (system_in core.new place.now.routes.now) (core_of core.new)) }
    ensures parts { parts_of core.new ≡ parts_of core.old }
{
    let arrival = arrive(core, place.routes, given.item, given.pick)?;
    write_arrival(answers, place, arrival);
    Ok(())
}

fn write_arrival<W: Write>(answers: &mut Answers<W>, place: &Place, arrival: Option<Arrival>) {
    match arrival {
        Some(Arrival::Entered(pid)) => {
            answers.text("entered ");
            write_pid(answers, place.structure, pid);
            answers.line("");
        }
        Some(Arrival::Discarded(cause)) => {
            answers.text("discarded");
            answers.line(cause_text(cause));
        }
        None => answers.line("may not arrive"),
    }
}

/// Lets an instance make a turn. After a refusal all is as it was, so the call is made once more.
fn turn<S: Agents>(
    core: &mut BlockCore<S>,
    routes: &Routes,
    pick: u32,
) -> Result<Turned, AllocError>
    requires sound { IsSound S.may (system_in core.old routes.now) (core_of core.old) }
    requires parts { CanFire S.may (parts_of core.old) }
    ensures answers { IfOk result (λ t. TurnAnswers S.may (system_in core.old routes.now) pick (core_of core.old) t (core_of core.new)) }
    ensures sound { IfOk result (λ _. IsSound S.may (system_in core.new routes.now) (core_of core.new)) }
    ensures parts { parts_of core.new ≡ parts_of core.old }
{
    match core.turn(routes, pick) {
        Ok(turned) => Ok(turned),
        Err(_) => core.turn(routes, pick),
    }
}

/// `turn`: `idle`, `spent`, or what the turn was and did, and the items that it sent.
fn turn_call<S: Agents, W: Write>(
    place: &Place,
    core: &mut BlockCore<S>,
    call: Call,
    answers: &mut Answers<W>,
) -> Result<(), AllocError>
    requires sound { IsSound S.may (system_in core.old place.now.routes.now) (core_of core.old) }
    requires parts { CanFire S.may (parts_of core.old) }
    ensures sound { IfOk result (λ _. IsSound S.may (system_in core.new place.now.routes.now) (core_of core.new)) }
    ensures parts { parts_of core.new ≡ parts_of core.old }
{
    let Some(pick) = pick_of(call.words) else {
        write_meant(answers, call.line, TURN);
        return Ok(());
    };
    let turned = turn(core, place.routes, pick)?;
    write_turned(answers, place, core, &turned);
    Ok(())
}

/// The pick after the name of a call; 0 where there is none.
pub fn pick_of(words: &[&str]) -> Option<u32> {
    match words {
        [_] => Some(0),
        [_, pick] => pick.parse::<u32>().ok(),
        _ => None,
    }
}

fn shown_in<'a, S: Agents>(place: &Place<'a>, core: &BlockCore<S>) -> Shown<'a> {
    Shown {
        structure: place.structure,
        block: block_name(place.structure, core.block()),
    }
}

fn write_turned<S: Agents, W: Write>(
    answers: &mut Answers<W>,
    place: &Place,
    core: &BlockCore<S>,
    turned: &Turned,
) {
    match turned {
        Turned::Idle => answers.line("idle"),
        Turned::Spent => answers.line("spent"),
        Turned::Fired(pid, hand) => {
            write_fired(answers, place, *pid);
            write_last(answers, shown_in(place, core), core.log().as_slice());
            write_items(answers, place, hand.as_slice());
        }
    }
}

fn write_fired<W: Write>(answers: &mut Answers<W>, place: &Place, pid: Pid) {
    answers.text("fired ");
    write_pid(answers, place.structure, pid);
    answers.line("");
}

/// Writes the latest event.
fn write_last<W: Write>(answers: &mut Answers<W>, shown: Shown, log: &[Event]) {
    if let Some(event) = log.last() {
        write_event(answers, shown, event);
    }
}

/// Writes each item in a line after the word `hand`.
pub fn write_items<W: Write>(answers: &mut Answers<W>, place: &Place, items: &[Item]) {
    for item in items {
        answers.text("hand ");
        write_item(answers, place.structure, item);
        answers.line("");
    }
}

/// `knew`: PARENT, OFFSPRING and SENDER of the instance whose turn the latest event is.
fn write_knew<W: Write>(answers: &mut Answers<W>, place: &Place, log: &[Event]) {
    match log.last() {
        Some(Event::Turn { frame, .. }) => write_frame(answers, place, frame),
        _ => answers.line("the latest event is no turn"),
    }
}

fn write_frame<W: Write>(answers: &mut Answers<W>, place: &Place, frame: &Frame) {
    answers.text("parent ");
    write_pid(answers, place.structure, frame.parent);
    answers.text(" offspring ");
    write_pid(answers, place.structure, frame.offspring);
    answers.text(" sender ");
    write_pid(answers, place.structure, frame.sender);
    answers.line("");
}

/// Writes how many turns were made, how many signals wait in ports, and whether no instance is ready.
pub fn write_counts<W: Write>(answers: &mut Answers<W>, made: u32, left: u64, is_settled: bool) {
    answers.text("made ");
    answers.number(made as u64);
    answers.text(" left ");
    answers.number(left);
    answers.line(if is_settled { " settled" } else { " ready" });
}

fn write_core_counts<S: Agents, W: Write>(answers: &mut Answers<W>, core: &BlockCore<S>) {
    let made = core.made();
    let left = core.left_in_ports();
    write_counts(answers, made, left, core.is_settled());
}

fn write_log<W: Write>(answers: &mut Answers<W>, shown: Shown, log: &[Event]) {
    for event in log {
        write_event(answers, shown, event);
    }
    answers.text("events ");
    answers.number_line(log.len() as u64);
}

/// Answers a call that only looks at the core, and says whether it was one.
fn look_call<S: Agents, W: Write>(
    place: &Place,
    core: &BlockCore<S>,
    name: &str,
    answers: &mut Answers<W>,
) -> bool {
    match name {
        "knew" => write_knew(answers, place, core.log().as_slice()),
        "counts" => write_core_counts(answers, core),
        "log" => write_log(answers, shown_in(place, core), core.log().as_slice()),
        _ => return false,
    }
    true
}

/// Answers a call that leaves the core as it is.
fn still_call<S: Agents, T: Wait, W: Write>(
    site: &Site<T>,
    desk: &mut Desk,
    core: &BlockCore<S>,
    call: Call,
    answers: &mut Answers<W>,
) -> Result<(), AllocError>
    requires { IsBoardOf site.now.place.routes.now desk.old.board }
    ensures { IfOk result (λ _. IsBoardOf site.now.place.routes.now desk.new.board) }
{
    if look_call(&site.place, core, name_of(call), answers) {
        return Ok(());
    }
    other_call(site, desk, call, CALLS, answers)
}

/// Answers a call.
fn core_call<S: Agents, T: Wait, W: Write>(
    site: &Site<T>,
    desk: &mut Desk,
    core: &mut BlockCore<S>,
    call: Call,
    answers: &mut Answers<W>,
) -> Result<(), AllocError>
    requires board { IsBoardOf site.now.place.routes.now desk.old.board }
    requires sound { IsSound S.may (system_in core.old site.now.place.routes.now) (core_of core.old) }
    requires parts { CanFire S.may (parts_of core.old) }
    ensures board { IfOk result (λ _. IsBoardOf site.now.place.routes.now desk.new.board) }
    ensures sound { IfOk result (λ _. IsSound S.may (system_in core.new site.now.place.routes.now) (core_of core.new)) }
    ensures parts { parts_of core.new ≡ parts_of core.old }
{
    match name_of(call) {
        "arrive" => {
            let next = &mut desk.queues.next;
            arrive_call(&site.place, next, core, call, answers)
        }
        "turn" => turn_call(&site.place, core, call, answers),
        _ => still_call(site, desk, core, call, answers),
    }
}

/// Answers a call, and `end`.
fn core_call_or_end<S: Agents, T: Wait, W: Write>(
    site: &Site<T>,
    desk: &mut Desk,
    core: &mut BlockCore<S>,
    call: Call,
    answers: &mut Answers<W>,
) -> Result<Next, AllocError>
    requires board { IsBoardOf site.now.place.routes.now desk.old.board }
    requires sound { IsSound S.may (system_in core.old site.now.place.routes.now) (core_of core.old) }
    requires parts { CanFire S.may (parts_of core.old) }
    ensures board { IfOk result (λ _. IsBoardOf site.now.place.routes.now desk.new.board) }
    ensures sound { IfOk result (λ _. IsSound S.may (system_in core.new site.now.place.routes.now) (core_of core.new)) }
    ensures parts { parts_of core.new ≡ parts_of core.old }
{
    if name_of(call) == "end" {
        return Ok(Next::Over(None));
    }
    core_call(site, desk, core, call, answers)?;
    Ok(Next::Line)
}

/// Answers the call of the next line.
fn core_line<S: Agents, T: Wait, R: Read, W: Write>(
    site: &Site<T>,
    desk: &mut Desk,
    core: &mut BlockCore<S>,
    session: &mut Session<R, W>,
) -> Result<Next, AllocError>
    requires board { IsBoardOf site.now.place.routes.now desk.old.board }
    requires sound { IsSound S.may (system_in core.old site.now.place.routes.now) (core_of core.old) }
    requires parts { CanFire S.may (parts_of core.old) }
    ensures board { IfOk result (λ _. IsBoardOf site.now.place.routes.now desk.new.board) }
    ensures sound { IfOk result (λ _. IsSound S.may (system_in core.new site.now.place.routes.now) (core_of core.new)) }
    ensures parts { parts_of core.new ≡ parts_of core.old }
{
    let line = match session.next_line() {
        Ok(line) => line,
        Err(end) => return Ok(Next::Over(Some(end))),
    };
    let words = words_of(site.place.alloc, text_of(&line))?;
    let call = session.call(words.as_slice());
    core_call_or_end(site, desk, core, call, &mut session.answers)
}

/// Answers the calls of the core up to `end`; or else answers how the input ended.
pub fn use_core<S: Agents, T: Wait, R: Read, W: Write>(
    site: &Site<T>,
    desk: &mut Desk,
    core: &mut BlockCore<S>,
    session: &mut Session<R, W>,
) -> Result<Option<InputEnd>, AllocError>
    requires board { IsBoardOf site.now.place.routes.now desk.old.board }
    requires sound { IsSound S.may (system_in core.old site.now.place.routes.now) (core_of core.old) }
    requires parts { CanFire S.may (parts_of core.old) }
    ensures board { IfOk result (λ _. IsBoardOf site.now.place.routes.now desk.new.board) }
    ensures parts { parts_of core.new ≡ parts_of core.old }
{
    'calls: for _ in 0..u64::MAX {
        if let Next::Over(end) = core_line(site, desk, core, session)? {
            return Ok(end);
        }
    }
    Ok(None)
}
