//! The calls that need no block: on routes, on the board and on queues.
ghost use Rattle.std.specs.Prelude.{IfOk};
ghost use Rattle.sdl_forward.specs.Boards.{IsBoardOf};

use crate::answers::Answers;
use crate::calls::Call;
pub use crate::desk::{Desk, Place};
use crate::desk::{forward_call, left_call, put_call, take_call};
use crate::routing::call_routes;
use std::alloc::AllocError;
use std::io::Write;
use std::sync::Wait;

/// The calls, a line each.
const HELP: &str = "ITEM is ROUTE SIGNAL VALUE .. [to PID] [sender PID] [stamp N] [origin W.N]
PID is null, env or SET:N; PATH is CHANNEL+ or CHANNEL-; STATION is PATH, inlet:BLOCK or outlet
help: these lines
# TEXT: answered by itself
routes: all routes, by number
route N: where the route ends, and its stations
next ROUTE [STATION]: the station that follows on the route; without one the first
choose SOURCE SIGNAL GOAL VIA PICK: the route that is chosen; SOURCE is SET or gate:N, GOAL is anywhere, null, env or SET, VIA is any, gate:N or channel:NAME
put ITEM [along ROUTE] [after STATION]: lets the item wait at the station that follows
take STATION: the item that waited at its front
forward PATH: a step of the path's forwarder
left: how many items wait at each station; an empty board is laid in its place, with forwarders that hold nothing
serial put [W.N] | serial take | serial len | serial left | serial leave: a queue of one thread
queue open FEEDERS | queue put FEEDER [W.N] | queue take | queue rejoin: a queue with separate ends
ring open SLOTS | ring put [W.N] | ring take | ring flush | ring rejoin: a ring
rest len | rest serial: what was left when ends came back, or the queue of one thread at leave; serial makes it the queue of one thread
core BLOCK BUDGET: begins to use the core of the block, until end
arrive ITEM [pick N]: lets the item arrive at the core
turn [PICK] | knew | counts | log | end: calls of the core
work BLOCK BUDGET: begins to use the block over the board, until end
step [PICK] | counts | end: calls of the block at work";

/// Answers a call, and says whether it was one of these.
pub fn common_call<R: Wait, W: Write>(
    rt: &R,
    place: &Place,
    desk: &mut Desk,
    call: Call,
    answers: &mut Answers<W>,
) -> Result<bool, AllocError>
    requires { IsBoardOf place.now.routes.now desk.old.board }
    ensures { IfOk result (λ _. IsBoardOf place.now.routes.now desk.new.board) }
{
    if write_note(call, answers) || call_routes(place.routes, place.structure, call, answers) {
        return Ok(true);
    }
    if desk.queues.call(rt, place.alloc, call, answers)? {
        return Ok(true);
    }
    board_call(place, desk, call, answers)
}

/// A call on the board.
#[derive(Clone, Copy)]
enum OnBoard {
    Put,
    Take,
    Forward,
    Left,
}

fn on_board(name: &str) -> Option<OnBoard> {
    match name {
        "put" => Some(OnBoard::Put),
        "take" => Some(OnBoard::Take),
        "forward" => Some(OnBoard::Forward),
        "left" => Some(OnBoard::Left),
        _ => None,
    }
}

/// Answers a call on the board, and says whether it was one.
fn board_call<W: Write>(
    place: &Place,
    desk: &mut Desk,
    call: Call,
    answers: &mut Answers<W>,
) -> Result<bool, AllocError>
    requires { IsBoardOf place.now.routes.now desk.old.board }
    ensures { IfOk result (λ _. IsBoardOf place.now.routes.now desk.new.board) }
{
    let Some(what) = on_board(name_of(call)) else {
        return Ok(false);
    };
    use_board(place, desk, what, call, answers)?;
    Ok(true)
}

/// Answers a call on the board.
fn use_board<W: Write>(
    place: &Place,
    desk: &mut Desk,
    what: OnBoard,
    call: Call,
    answers: &mut Answers<W>,
) -> Result<(), AllocError>
    requires { IsBoardOf place.now.routes.now desk.old.board }
    ensures { IfOk result (λ _. IsBoardOf place.now.routes.now desk.new.board) }
{
    match what {
        OnBoard::Put => put_call(place, desk, call, answers),
        OnBoard::Take => {
            take_call(place, desk, call, answers);
            Ok(())
        }
        OnBoard::Forward => forward_call(place, desk, call, answers),
        OnBoard::Left => left_call(place, desk, answers),
    }
}

/// The first word of the call.
pub fn name_of<'a>(call: Call<'a>) -> &'a str {
    match call.words {
        [] => "",
        [name, ..] => name,
    }
}

/// Answers `help` and notes, and says whether the call was one of them.
fn write_note<W: Write>(call: Call, answers: &mut Answers<W>) -> bool {
    match name_of(call) {
        "help" => answers.line(HELP),
        "#" => write_words(answers, call.words),
        _ => return false,
    }
    true
}

/// Writes the words of a line again.
fn write_words<W: Write>(answers: &mut Answers<W>, words: &[&str]) {
    let mut before = "";
    for word in words {
        answers.text(before);
        answers.text(word);
        before = " ";
    }
    answers.line("");
}
