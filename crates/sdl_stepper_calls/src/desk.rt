//! What the calls work on, and the calls on its board: `put ITEM [along ROUTE] [after STATION]`, `take STATION`,
//! `forward PATH` and `left`.
ghost use Rattle.std.specs.Prelude.{◌≡◌, ◌<◌, length, IfOk, Contains};
ghost use Rattle.sdl_forward.specs.Boards.{IsBoardOf, stations_of};

use crate::answers::Answers;
use crate::calls::{Call, write_meant};
use crate::items::{Given, given_of};
use crate::naming::{hop_of, station_of};
use crate::queues::Queues;
use crate::texts::{write_item, write_station};
use sdl_forward::{Board, Forwarded, Forwarder};
use sdl_queue::Rest;
use sdl_routes::{Hop, Routes, Station};
use sdl_signal::{Item, RouteId};
use sdl_structure_parts::Structure;
use std::alloc::{AllocError, Global};
use std::io::Write;
use std::mem;

const PUT: &str =
    "put ROUTE SIGNAL VALUE .. [to PID] [sender PID] [stamp N] [origin W.N] [along ROUTE] [after STATION]";

const TAKE: &str = "take STATION";

const FORWARD: &str = "forward PATH";

/// A system, and where memory comes from.
#[derive(Clone, Copy)]
pub struct Place<'a> {
    pub alloc: Global,
    pub routes: &'a Routes,
    pub structure: &'a Structure,
}

/// What the calls work on.
#[derive(Drop)]
pub struct Desk {
    pub board: Board,
    pub forwarders: Vec<Forwarder>,
    pub queues: Queues,
}

impl Desk {
    /// An empty board of the routes, and empty queues.
    pub fn new(alloc: Global, routes: &Routes) -> Result<Desk, AllocError>
        ensures { IfOk result (λ desk. IsBoardOf routes.now desk.board) }
    {
        let board = Board::new(alloc, routes)?;
        Ok(Desk {
            board,
            forwarders: Vec::new(alloc),
            queues: Queues::new(alloc),
        })
    }
}

/// Lets the item wait at the station that follows on the route, and answers that station.
pub fn put_along(
    routes: &Routes,
    board: &mut Board,
    item: Item,
    route: RouteId,
    after: Option<Station>,
) -> Result<Option<Station>, AllocError>
    requires { IsBoardOf routes.now board.old }
    ensures { IfOk result (λ _. IsBoardOf routes.now board.new) }
{
    let Some(station) = routes.next(route, after) else {
        return Ok(None);
    };
    put_with_retry(board, station, item)?;
    Ok(Some(station))
}

/// Puts the item. A refused put hands it back, so it is put once more.
fn put_with_retry(board: &mut Board, station: Station, item: Item) -> Result<(), AllocError>
    requires { Contains (stations_of board.old) station }
    ensures { stations_of board.new ≡ stations_of board.old }
{
    match board.put(station, item) {
        Ok(()) => Ok(()),
        Err((item, _)) => match board.put(station, item) {
            Ok(()) => Ok(()),
            Err((_, error)) => Err(error),
        },
    }
}

/// `put`: the station where the item waits, or `no station`.
pub fn put_call<W: Write>(
    place: &Place,
    desk: &mut Desk,
    call: Call,
    answers: &mut Answers<W>,
) -> Result<(), AllocError>
    requires { IsBoardOf place.now.routes.now desk.old.board }
    ensures { IfOk result (λ _. IsBoardOf place.now.routes.now desk.new.board) }
{
    let next = &mut desk.queues.next;
    let Some(given) = next_given(place.structure, call.words, next) else {
        write_meant(answers, call.line, PUT);
        return Ok(());
    };
    let put = put_given(place.routes, &mut desk.board, given)?;
    write_put(answers, place.structure, put);
    Ok(())
}

/// The item of a call whose first word is its name. Where it is one, `next` goes up by one.
pub fn next_given(structure: &Structure, words: &[&str], next: &mut u64) -> Option<Given> {
    let given = given_after_name(structure, words, *next)?;
    *next = next.saturating_add(1);
    Some(given)
}

/// Lets what was given wait, and answers its station.
fn put_given(
    routes: &Routes,
    board: &mut Board,
    given: Given,
) -> Result<Option<Station>, AllocError>
    requires { IsBoardOf routes.now board.old }
    ensures { IfOk result (λ _. IsBoardOf routes.now board.new) }
{
    let route = given.along.unwrap_or(given.item.route);
    put_along(routes, board, given.item, route, given.after)
}

/// The item of a call whose first word is its name.
pub fn given_after_name(structure: &Structure, words: &[&str], next: u64) -> Option<Given> {
    let [_, words @ ..] = words else {
        return None;
    };
    given_of(structure, words, next)
}

fn write_put<W: Write>(answers: &mut Answers<W>, structure: &Structure, put: Option<Station>) {
    match put {
        Some(station) => {
            answers.text("at ");
            write_station(answers, structure, station);
            answers.line("");
        }
        None => answers.line("no station"),
    }
}

/// `take`: the item that waited at the front of the station, or `none`.
pub fn take_call<W: Write>(place: &Place, desk: &mut Desk, call: Call, answers: &mut Answers<W>)
    requires { IsBoardOf place.now.routes.now desk.old.board }
    ensures { IsBoardOf place.now.routes.now desk.new.board }
{
    match station_after_name(place.structure, call.words) {
        Some(station) => write_taken(answers, place.structure, desk.board.take(station)),
        None => write_meant(answers, call.line, TAKE),
    }
}

fn station_after_name(structure: &Structure, words: &[&str]) -> Option<Station> {
    match words {
        [_, word] => station_of(structure, word),
        _ => None,
    }
}

fn write_taken<W: Write>(answers: &mut Answers<W>, structure: &Structure, item: Option<Item>) {
    match item {
        Some(item) => {
            answers.text("took ");
            write_item(answers, structure, &item);
            answers.line("");
        }
        None => answers.line("none"),
    }
}

/// `forward`: what the step of the path's forwarder did.
pub fn forward_call<W: Write>(
    place: &Place,
    desk: &mut Desk,
    call: Call,
    answers: &mut Answers<W>,
) -> Result<(), AllocError>
    requires { IsBoardOf place.now.routes.now desk.old.board }
    ensures { IfOk result (λ _. IsBoardOf place.now.routes.now desk.new.board) }
{
    let Some(path) = path_after_name(place.structure, call.words) else {
        write_meant(answers, call.line, FORWARD);
        return Ok(());
    };
    let at = place_of(&mut desk.forwarders, path)?;
    let forwarder = &mut desk.forwarders[at];
    forward_by(place, &mut desk.board, forwarder, answers);
    Ok(())
}

/// Makes a step of the forwarder, and answers what it did.
fn forward_by<W: Write>(
    place: &Place,
    board: &mut Board,
    forwarder: &mut Forwarder,
    answers: &mut Answers<W>,
)
    requires { IsBoardOf place.now.routes.now board.old }
    ensures { IsBoardOf place.now.routes.now board.new }
{
    let forwarded = step_with_retry(place.routes, board, forwarder);
    write_forwarded(answers, place.structure, forwarded, forwarder);
}

/// A step of the forwarder. An item that it holds since memory was refused is tried once more.
fn step_with_retry(routes: &Routes, board: &mut Board, forwarder: &mut Forwarder) -> Forwarded
    requires { IsBoardOf routes.now board.old }
    ensures { IsBoardOf routes.now board.new }
{
    match forwarder.step_serial(routes, board) {
        Forwarded::Held => forwarder.step_serial(routes, board),
        made => made,
    }
}

fn path_after_name(structure: &Structure, words: &[&str]) -> Option<Hop> {
    match words {
        [_, word] => hop_of(structure, word),
        _ => None,
    }
}

/// The place of the path's forwarder, which is made where there is none.
fn place_of(forwarders: &mut Vec<Forwarder>, path: Hop) -> Result<usize, AllocError>
    ensures { IfOk result (λ place. place < length forwarders.new.items) }
{
    for place in 0..forwarders.len() {
        if forwarders[place].hop() == path {
            return Ok(place);
        }
    }
    forwarders.push(Forwarder::new(path))?;
    Ok(forwarders.len() - 1)
}

fn text_of_forwarded(forwarded: Forwarded) -> &'static str {
    match forwarded {
        Forwarded::Moved => "moved",
        Forwarded::Idle => "idle",
        Forwarded::Held => "held",
    }
}

fn write_forwarded<W: Write>(
    answers: &mut Answers<W>,
    structure: &Structure,
    forwarded: Forwarded,
    forwarder: &Forwarder,
) {
    answers.text(text_of_forwarded(forwarded));
    if let Some(item) = forwarder.held() {
        answers.text(" ");
        write_item(answers, structure, item);
    }
    answers.line("");
}

/// `left`: how many items wait at each station of the board. An empty board and forwarders that hold nothing are laid in its
/// place.
pub fn left_call<W: Write>(
    place: &Place,
    desk: &mut Desk,
    answers: &mut Answers<W>,
) -> Result<(), AllocError>
    requires { IsBoardOf place.now.routes.now desk.old.board }
    ensures { IfOk result (λ _. IsBoardOf place.now.routes.now desk.new.board) }
{
    let used = clear(place, desk)?;
    let rests = used.into_rests();
    write_rests(answers, place.structure, rests.as_slice());
    Ok(())
}

/// Lays an empty board and forwarders that hold nothing in place of those that were used. Answers the board that was used.
fn clear(place: &Place, desk: &mut Desk) -> Result<Board, AllocError>
    requires { IsBoardOf place.now.routes.now desk.old.board }
    ensures { IfOk result (λ _. IsBoardOf place.now.routes.now desk.new.board) }
{
    let empty = Board::new(place.alloc, place.routes)?;
    desk.forwarders = Vec::new(place.alloc);
    Ok(mem::replace(&mut desk.board, empty))
}

fn write_rests<W: Write>(
    answers: &mut Answers<W>,
    structure: &Structure,
    rests: &[(Station, Rest)],
) {
    for (station, rest) in rests {
        write_station(answers, structure, *station);
        answers.text(" ");
        answers.number_line(rest.len() as u64);
    }
}
