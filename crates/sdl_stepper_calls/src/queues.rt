//! The calls on queues, all on one thread. `serial ..` is for a queue of one thread, `queue ..` for one with separate ends, and
//! `ring ..` for a ring; `rest ..` is for what was left when ends came back. An item is told by its origin, `WORKER.NUMBER`.
ghost use Rattle.std.specs.Prelude.{◌≤◌, IfSome};

use crate::answers::Answers;
use crate::calls::{Call, write_meant};
use crate::ends::{QueueEnds, RingEnds};
use crate::items::{item_from, origin_of};
use crate::texts::write_origin;
use sdl_queue::{Rest, SerialQueue};
use sdl_signal::{Item, Origin};
use std::alloc::{AllocError, Global};
use std::io::Write;
use std::mem;
use std::sync::Wait;

const SERIAL: &str = "serial put [W.N] | serial take | serial len | serial left | serial leave";

const QUEUE: &str = "queue open FEEDERS | queue put FEEDER [W.N] | queue take | queue rejoin";

const RING: &str = "ring open SLOTS | ring put [W.N] | ring take | ring flush | ring rejoin";

const REST: &str = "rest len | rest serial";

const NO_QUEUE: &str = "no queue is open";

const NO_RING: &str = "no ring is open";

const NO_REST: &str = "nothing is left";

/// The most feeders of a queue that is opened by a call.
const MOST_FEEDERS: u32 = 1_000;

/// The most slots of a ring.
const MOST_SLOTS: u32 = 64;

/// What is said to a call.
#[derive(Clone, Copy)]
enum Said {
    /// A line.
    Line(&'static str),
    /// What was counted, and how many there are.
    Count(&'static str, usize),
    /// The origin of the item that was taken.
    Took(Origin),
    /// The origins of all items in the queue of one thread.
    Left,
}

/// A queue of one thread, and the ends of a queue and of a ring that are open. Beside them stand what was left when ends came
/// back, and the number of the next item.
#[derive(Drop)]
pub struct Queues {
    serial: SerialQueue,
    queue: Option<QueueEnds>,
    ring: Option<RingEnds>,
    rest: Option<Rest>,
    pub next: u64,
}

impl Queues {
    pub fn new(alloc: Global) -> Queues {
        Queues {
            serial: SerialQueue::new(alloc),
            queue: None,
            ring: None,
            rest: None,
            next: 0,
        }
    }

    /// Answers a call on a queue, and says whether it was one.
    pub fn call<R: Wait, W: Write>(
        &mut self,
        rt: &R,
        alloc: Global,
        call: Call,
        answers: &mut Answers<W>,
    ) -> Result<bool, AllocError> {
        let [kind, name, words @ ..] = call.words else {
            return Ok(false);
        };
        let Some(kind) = kind_of(kind) else {
            return Ok(false);
        };
        match self.said(rt, alloc, kind, name, words)? {
            Some(said) => self.write_said(answers, said),
            None => write_meant(answers, call.line, meant_by(kind)),
        }
        Ok(true)
    }

    /// Does what the call asks for. Answers what is said to it, and None where it is not understood.
    fn said<R: Wait>(
        &mut self,
        rt: &R,
        alloc: Global,
        kind: Kind,
        name: &str,
        words: &[&str],
    ) -> Result<Option<Said>, AllocError> {
        match kind {
            Kind::Serial => self.serial_call(alloc, name, words),
            Kind::Queue => self.queue_call(rt, alloc, name, words),
            Kind::Ring => self.ring_call(alloc, name, words),
            Kind::Rest => self.rest_call(rt, name),
        }
    }

    fn write_said<W: Write>(&self, answers: &mut Answers<W>, said: Said) {
        match said {
            Said::Line(text) => answers.line(text),
            Said::Count(what, count) => write_count(answers, what, count),
            Said::Took(origin) => write_taken(answers, origin),
            Said::Left => write_left(answers, &self.serial),
        }
    }

    fn serial_call(
        &mut self,
        alloc: Global,
        name: &str,
        words: &[&str],
    ) -> Result<Option<Said>, AllocError> {
        match name {
            "put" => self.put_serial(words),
            "take" => Ok(Some(said_of_taken(self.serial.take()))),
            "len" => Ok(Some(Said::Count("len", self.serial.len()))),
            "left" => Ok(Some(Said::Left)),
            "leave" => Ok(Some(self.leave_serial(alloc))),
            _ => Ok(None),
        }
    }

    fn put_serial(&mut self, words: &[&str]) -> Result<Option<Said>, AllocError> {
        let Some(item) = item_of(&mut self.next, words) else {
            return Ok(None);
        };
        put_with_retry(&mut self.serial, item)?;
        Ok(Some(Said::Line("put")))
    }

    fn leave_serial(&mut self, alloc: Global) -> Said {
        let empty = SerialQueue::new(alloc);
        let queue = mem::replace(&mut self.serial, empty);
        self.keep(Rest::Serial(queue))
    }

    fn queue_call<R: Wait>(
        &mut self,
        rt: &R,
        alloc: Global,
        name: &str,
        words: &[&str],
    ) -> Result<Option<Said>, AllocError> {
        match name {
            "open" => open_queue(&mut self.queue, rt, alloc, words),
            "put" => self.put_by(rt, words),
            "take" => Ok(Some(take_from(&mut self.queue, rt))),
            "rejoin" => Ok(Some(self.rejoin_queue(rt))),
            _ => Ok(None),
        }
    }

    fn rejoin_queue<R: Wait>(&mut self, rt: &R) -> Said {
        match self.queue.take() {
            Some(ends) => self.keep(Rest::Ruled(ends.rejoin(rt))),
            None => Said::Line(NO_QUEUE),
        }
    }

    /// A feeder puts an item.
    fn put_by<R: Wait>(&mut self, rt: &R, words: &[&str]) -> Result<Option<Said>, AllocError> {
        let Some((feeder, item)) = feeder_and_item_of(&mut self.next, words) else {
            return Ok(None);
        };
        match &mut self.queue {
            Some(ends) => Ok(Some(said_of_put(ends.put(rt, feeder, item)?))),
            None => Ok(Some(Said::Line(NO_QUEUE))),
        }
    }

    fn ring_call(
        &mut self,
        alloc: Global,
        name: &str,
        words: &[&str],
    ) -> Result<Option<Said>, AllocError> {
        match name {
            "open" => open_ring(&mut self.ring, alloc, words),
            "put" => self.put_in_ring(words),
            "rejoin" => Ok(Some(self.rejoin_ring())),
            _ => Ok(use_ring(&mut self.ring, name)),
        }
    }

    fn rejoin_ring(&mut self) -> Said {
        match self.ring.take() {
            Some(ends) => self.keep(Rest::Ring(ends.rejoin())),
            None => Said::Line(NO_RING),
        }
    }

    fn put_in_ring(&mut self, words: &[&str]) -> Result<Option<Said>, AllocError> {
        let Some(item) = item_of(&mut self.next, words) else {
            return Ok(None);
        };
        match &mut self.ring {
            Some(ends) => {
                ends.put(item)?;
                Ok(Some(Said::Line("put")))
            }
            None => Ok(Some(Said::Line(NO_RING))),
        }
    }

    /// Keeps what was left, and says how much it is.
    fn keep(&mut self, rest: Rest) -> Said {
        let left = rest.len();
        self.rest = Some(rest);
        Said::Count("left", left)
    }

    fn rest_call<R: Wait>(&mut self, rt: &R, name: &str) -> Result<Option<Said>, AllocError> {
        match name {
            "len" => Ok(Some(said_of_rest(&self.rest))),
            "serial" => self.rest_to_serial(rt),
            _ => Ok(None),
        }
    }

    fn rest_to_serial<R: Wait>(&mut self, rt: &R) -> Result<Option<Said>, AllocError> {
        let Some(rest) = self.rest.take() else {
            return Ok(Some(Said::Line(NO_REST)));
        };
        self.serial = serial_of(rt, rest)?;
        Ok(Some(Said::Count("len", self.serial.len())))
    }
}

fn open_queue<R: Wait>(
    queue: &mut Option<QueueEnds>,
    rt: &R,
    alloc: Global,
    words: &[&str],
) -> Result<Option<Said>, AllocError> {
    let Some(feeders) = number_of(words, 0, MOST_FEEDERS) else {
        return Ok(None);
    };
    *queue = Some(QueueEnds::open(rt, alloc, feeders)?);
    Ok(Some(Said::Count("feeders", feeders as usize)))
}

fn open_ring(
    ring: &mut Option<RingEnds>,
    alloc: Global,
    words: &[&str],
) -> Result<Option<Said>, AllocError> {
    let Some(slots) = number_of(words, 1, MOST_SLOTS) else {
        return Ok(None);
    };
    *ring = Some(RingEnds::open(alloc, slots as usize)?);
    Ok(Some(Said::Count("slots", slots as usize)))
}

fn take_from<R: Wait>(queue: &mut Option<QueueEnds>, rt: &R) -> Said {
    match queue {
        Some(ends) => said_of_taken(ends.take(rt)),
        None => Said::Line(NO_QUEUE),
    }
}

/// `ring take` and `ring flush`. Without a ring every other call is told that there is none.
fn use_ring(ring: &mut Option<RingEnds>, name: &str) -> Option<Said> {
    match ring {
        Some(ends) => use_ends(ends, name),
        None => Some(Said::Line(NO_RING)),
    }
}

fn use_ends(ends: &mut RingEnds, name: &str) -> Option<Said> {
    match name {
        "take" => Some(said_of_taken(ends.take())),
        "flush" => Some(said_of_flush(ends.flush())),
        _ => None,
    }
}

/// The item of the origin that the words give, and else the one that follows.
fn item_of(next: &mut u64, words: &[&str]) -> Option<Item> {
    match words {
        [] => {
            let number = *next;
            *next = number.saturating_add(1);
            Some(item_from(Origin { worker: 0, number }))
        }
        [word] => Some(item_from(origin_of(word)?)),
        _ => None,
    }
}

fn feeder_and_item_of(next: &mut u64, words: &[&str]) -> Option<(u32, Item)> {
    let [feeder, words @ ..] = words else {
        return None;
    };
    let feeder = feeder.parse::<u32>().ok()?;
    Some((feeder, item_of(next, words)?))
}

/// Puts the item. A refused put hands it back, so it is put once more.
fn put_with_retry(queue: &mut SerialQueue, item: Item) -> Result<(), AllocError> {
    match queue.put(item) {
        Ok(()) => Ok(()),
        Err((item, _)) => match queue.put(item) {
            Ok(()) => Ok(()),
            Err((_, error)) => Err(error),
        },
    }
}

/// What a call is on.
#[derive(Clone, Copy)]
enum Kind {
    Serial,
    Queue,
    Ring,
    Rest,
}

fn kind_of(word: &str) -> Option<Kind> {
    match word {
        "serial" => Some(Kind::Serial),
        "queue" => Some(Kind::Queue),
        "ring" => Some(Kind::Ring),
        "rest" => Some(Kind::Rest),
        _ => None,
    }
}

fn meant_by(kind: Kind) -> &'static str {
    match kind {
        Kind::Serial => SERIAL,
        Kind::Queue => QUEUE,
        Kind::Ring => RING,
        Kind::Rest => REST,
    }
}

/// The number that is the only word, within these bounds.
fn number_of(words: &[&str], least: u32, most: u32) -> Option<u32>
    ensures { IfSome result (λ n. (least ≤ n) × (n ≤ most)) }
{
    let [word] = words else {
        return None;
    };
    let number = word.parse::<u32>().ok()?;
    if number < least || number > most {
        return None;
    }
    Some(number)
}

/// What is left, in a queue of one thread.
fn serial_of<R: Wait>(rt: &R, rest: Rest) -> Result<SerialQueue, AllocError> {
    match rest {
        Rest::Serial(queue) => Ok(queue),
        Rest::Ruled(queue) => queue.into_serial(rt).map_err(|(_, error)| error),
        Rest::Ring(ring) => ring.into_serial().map_err(|(_, error)| error),
    }
}

fn said_of_taken(item: Option<Item>) -> Said {
    match item {
        Some(item) => Said::Took(item.origin),
        None => Said::Line("none"),
    }
}

fn said_of_put(is_put: bool) -> Said {
    Said::Line(if is_put { "put" } else { "no such feeder" })
}

fn said_of_flush(is_empty: bool) -> Said {
    Said::Line(if is_empty {
        "nothing waits for room"
    } else {
        "items wait for room"
    })
}

fn said_of_rest(rest: &Option<Rest>) -> Said {
    match rest {
        Some(rest) => Said::Count("len", rest.len()),
        None => Said::Line(NO_REST),
    }
}

fn write_count<W: Write>(answers: &mut Answers<W>, what: &str, count: usize) {
    answers.text(what);
    answers.text(" ");
    answers.number_line(count as u64);
}

fn write_taken<W: Write>(answers: &mut Answers<W>, origin: Origin) {
    answers.text("took ");
    write_origin(answers, origin);
    answers.line("");
}

fn write_left<W: Write>(answers: &mut Answers<W>, queue: &SerialQueue) {
    answers.text("left");
    for item in queue.left() {
        answers.text(" ");
        write_origin(answers, item.origin);
    }
    answers.line("");
}
