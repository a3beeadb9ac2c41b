//! The ends of a ring, each of which its thread owns, and the ring once both are in one thread again.
ghost use Rattle.std.specs.Prelude.{◌≡◌, ◌+◌, ◌≤◌, ◌↔◌, [], ◌∷◌, ◌++◌, length, IsTrue, None, MatchResult, MatchOption, IfOk};
ghost use Rattle.std.specs.VecDeque.{deque_len, deque_capacity};
ghost use Rattle.rtrb.specs.Ring.{known_items};
ghost use Rattle.sdl_queue_ring.specs.RingEnds.{WaitsForRoom, IsPutFrom, IsBacklogFrom};
ghost use Rattle.sdl_queue_ring.specs.Batches.{items_of};

use crate::SerialQueue;
use rtrb::{Consumer, Producer, RingBuffer};
use sdl_signal::Item;
use std::alloc::{AllocError, Global};
use std::collections::VecDeque;
use std::marker::Model;
use std::mem;

/// For how many items room is taken at a time in a backlog that has none.
const BACKLOG_ROOM: usize = 128;

/// What stands in a slot of a ring: an item, and those that were behind it in a backlog.
#[derive(Drop)]
struct Batch {
    first: Item,
    rest: VecDeque<Item>,
}

/// The end of a ring at which its thread puts items. What the ring has no room for stands in a backlog. Contracts see which
/// opening it is of, what it has put, its backlog, and how many free slots of the ring it knows of.
#[derive(Drop)]
pub struct RingFeed {
    producer: Producer<Batch>,
    backlog: VecDeque<Item>,
    /// How many items were put.
    count: usize,
    alloc: Global,
}

impl Model for RingFeed {
    ghost use Rattle.std.specs.Prelude.{◌≡◌, ◌<◌, ◌^◌, ◌++◌, length};
    ghost use Rattle.rtrb.specs.Ring.{sent, known_free};
    ghost use Rattle.sdl_queue_ring.specs.RingEnds.{RingFeedEnd, WaitsForRoom, opening_of};
    ghost use Rattle.sdl_queue_ring.specs.Batches.{items_of};

    ghost Value = { RingFeedEnd };

    ghost view = { λ f. record { opening = opening_of f.producer.end; put = items_of (sent f.producer) ++ f.backlog.items; backlog = f.backlog.items; room = known_free f.producer } };

    ghost invariant = { λ f. WaitsForRoom f.backlog.items (known_free f.producer) × (f.count ≡ length (items_of (sent f.producer) ++ f.backlog.items)) × (f.count < 2 ^ 64) };
}

impl RingFeed {
    /// Puts the item of the slot, where it has one, and leaves the slot empty. The item goes into the ring, or into the backlog
    /// where the ring is full or the backlog is not empty. Where memory is refused, the item stays in the slot and nothing is
    /// put. So no answer with room for an item is made and moved.
    #[inline(always)]
    pub fn put_from(&mut self, slot: &mut Option<Item>)
        ensures same { self.new.opening ≡ self.old.opening }
        ensures put { IsPutFrom slot.old slot.new self.old.put self.new.put }
        ensures backlog { IsBacklogFrom slot.old slot.new self.old.backlog self.new.backlog }
        ensures full { WaitsForRoom self.new.backlog self.new.room }
    {
        // (no run puts as many)
        if self.count == usize::MAX {
            return;
        }
        let Some(item) = slot.take() else {
            return;
        };
        if self.backlog.is_empty() && !self.producer.is_full() {
            let rest = VecDeque::new(self.alloc);
            self.producer.push_reserved(Batch { first: item, rest });
            self.count += 1;
            return;
        }
        // room for many is taken at once, and where there is room, no answer with an item in it is made and moved
        if self.backlog.len() == self.backlog.capacity()
            && self.backlog.reserve(BACKLOG_ROOM).is_err()
        {
            *slot = Some(item);
            return;
        }
        self.backlog.push_back_reserved(item);
        self.count += 1;
    }

    /// Moves the backlog into the ring, as a whole, where a slot is free, and says whether the backlog is empty. Takes no
    /// memory. The room of a backlog of one item stays, so that a feeder which is a little ahead takes none again and again.
    #[inline(always)]
    pub fn flush(&mut self) -> bool
        ensures same { self.new.opening ≡ self.old.opening }
        ensures put { self.new.put ≡ self.old.put }
        ensures empty { IsTrue result ↔ (self.new.backlog ≡ []) }
        ensures full { WaitsForRoom self.new.backlog self.new.room }
    {
        if self.backlog.is_empty() {
            return true;
        }
        if self.producer.is_full() {
            return false;
        }
        if self.backlog.len() == 1 {
            let Some(one) = self.backlog.pop_front() else {
                unreachable!()
            };
            let rest = VecDeque::new(self.alloc);
            self.producer.push_reserved(Batch { first: one, rest });
            return true;
        }
        let mut rest = mem::replace(&mut self.backlog, VecDeque::new(self.alloc));
        let Some(first) = rest.pop_front() else {
            unreachable!()
        };
        self.producer.push_reserved(Batch { first, rest });
        true
    }
}

/// The end of a ring at which its thread takes items. Contracts see which opening it is of, what was taken, and what it has
/// seen in the ring and not taken yet.
#[derive(Drop)]
pub struct RingTap {
    consumer: Consumer<Batch>,
    /// What is left of the slot that was taken from the ring last.
    rest: VecDeque<Item>,
    /// How many items were taken.
    count: usize,
    alloc: Global,
}

impl Model for RingTap {
    ghost use Rattle.std.specs.Prelude.{◌≡◌, ◌++◌, length};
    ghost use Rattle.rtrb.specs.Ring.{received, known_items};
    ghost use Rattle.sdl_queue_ring.specs.RingEnds.{RingTapEnd, opening_of};
    ghost use Rattle.sdl_queue_ring.specs.Batches.{items_of, without, IsCount};

    ghost Value = { RingTapEnd };

    ghost view = { λ t. record { opening = opening_of t.consumer.end; taken = without (items_of (received t.consumer)) t.rest.items; seen = t.rest.items ++ items_of (known_items t.consumer) } };

    ghost invariant = { λ t. (without (items_of (received t.consumer)) t.rest.items ++ t.rest.items ≡ items_of (received t.consumer)) × IsCount t.count (length (without (items_of (received t.consumer)) t.rest.items)) };
}

impl RingTap {
    /// Takes the item at the front of the ring into the slot, which is empty. It stays empty only where the ring was empty at
    /// some moment of the call. Takes no memory.
    #[inline(always)]
    pub fn take_into(&mut self, slot: &mut Option<Item>)
        requires none { slot.old ≡ None }
        ensures same { self.new.opening ≡ self.old.opening }
        ensures taken { MatchOption slot.new ((self.new.taken ≡ self.old.taken) × (self.new.seen ≡ [])) (λ item. self.new.taken ≡ self.old.taken ++ item ∷ []) }
    {
        if let Some(item) = self.rest.pop_front() {
            self.count = self.count.saturating_add(1);
            *slot = Some(item);
            return;
        }
        if let Ok(Batch { first, rest }) = self.consumer.pop() {
            self.rest = rest;
            self.count = self.count.saturating_add(1);
            *slot = Some(first);
        }
    }
}

/// Opens a ring of this many slots, 1 to 64. Where memory is refused there is none.
pub fn ring_open(alloc: Global, size: usize) -> Result<(RingFeed, RingTap), AllocError>
    requires { (1 ≤ size) × (size ≤ 64) }
    ensures feed { IfOk result (λ ends. (ends.0.put ≡ []) × (ends.0.backlog ≡ []) × (ends.0.room ≡ size)) }
    ensures tap { IfOk result (λ ends. (ends.1.taken ≡ []) × (ends.1.seen ≡ [])) }
    ensures pair { IfOk result (λ ends. ends.0.opening ≡ ends.1.opening) }
{
    let (producer, consumer) = RingBuffer::new(alloc, size)?;
    let feed = RingFeed {
        producer,
        backlog: VecDeque::new(alloc),
        count: 0,
        alloc,
    };
    let tap = RingTap {
        consumer,
        rest: VecDeque::new(alloc),
        count: 0,
        alloc,
    };
    Ok((feed, tap))
}

/// A ring both of whose ends have come back. Contracts see what was put, what was taken and what is left.
#[derive(Drop)]
pub struct RingRejoined {
    producer: Producer<Batch>,
    consumer: Consumer<Batch>,
    rest: VecDeque<Item>,
    backlog: VecDeque<Item>,
    /// How many items are left.
    count: usize,
    alloc: Global,
}

impl Model for RingRejoined {
    ghost use Rattle.std.specs.Prelude.{◌≡◌, ◌++◌, length};
    ghost use Rattle.rtrb.specs.Ring.{sent, received, known_items};
    ghost use Rattle.sdl_queue_ring.specs.RingEnds.{RingAccount};
    ghost use Rattle.sdl_queue_ring.specs.Batches.{items_of, without};

    ghost Value = { RingAccount };

    ghost view = { λ r. record { put = items_of (sent r.producer) ++ r.backlog.items; taken = without (items_of (received r.consumer)) r.rest.items; left = r.rest.items ++ items_of (known_items r.consumer) ++ r.backlog.items } };

    ghost invariant = { λ r. (received r.consumer ++ known_items r.consumer ≡ sent r.producer) × (r.count ≡ length (r.rest.items ++ items_of (known_items r.consumer) ++ r.backlog.items)) };
}

/// Puts both ends of one opening together again. The backlog is among what is left, after the ring. Takes no memory.
pub fn ring_rejoin(feed: RingFeed, tap: RingTap) -> RingRejoined
    requires { feed.opening ≡ tap.opening }
    ensures ends { (result.put ≡ feed.put) × (result.taken ≡ tap.taken) }
    ensures delay_line { result.put ≡ result.taken ++ result.left }
{
    let RingFeed {
        mut producer,
        backlog,
        count: put,
        alloc,
    } = feed;
    let RingTap {
        mut consumer,
        rest,
        count: taken,
        alloc: _,
    } = tap;
    consumer.slots_beside(&mut producer);
    RingRejoined {
        producer,
        consumer,
        rest,
        backlog,
        count: put - taken,
        alloc,
    }
}

impl RingRejoined {
    /// How many items are left: those of the ring and those of the backlog. Takes no memory.
    pub fn len(&self) -> usize
        ensures { result ≡ length self.now.left }
    {
        self.count
    }

    /// What is left, in a queue of one thread. `Err` hands back the same where memory was refused.
    pub fn into_serial(self) -> Result<SerialQueue, (RingRejoined, AllocError)>
        ensures { MatchResult result (λ q. q ≡ self.left) (λ back. back.0 ≡ self) }
    {
        let Ok(mut items) = VecDeque::with_capacity(self.alloc, self.count) else {
            return Err((self, AllocError));
        };
        let RingRejoined {
            producer: _,
            mut consumer,
            mut rest,
            mut backlog,
            count: _,
            alloc: _,
        } = self;
        move_queue(&mut rest, &mut items);
        move_ring(&mut consumer, &mut items);
        move_queue(&mut backlog, &mut items);
        Ok(SerialQueue::of(items))
    }
}

// Moves all items that are known to be in the ring to the back of a queue that has room for them.
fn move_ring(consumer: &mut Consumer<Batch>, items: &mut VecDeque<Item>)
    requires { deque_len items.old + length (items_of (known_items consumer.old)) ≤ deque_capacity items.old }
    ensures items { items.new.items ≡ items.old.items ++ items_of (known_items consumer.old) }
    ensures room { deque_capacity items.new ≡ deque_capacity items.old }
    ensures len { deque_len items.new ≡ deque_len items.old + length (items_of (known_items consumer.old)) }
{
    for _ in 0..consumer.cached_slots() {
        let Batch { first, mut rest } = consumer.pop_known();
        items.push_back_reserved(first);
        move_queue(&mut rest, items);
    }
}

// Moves all items of the first queue to the back of the second, which has room for them.
fn move_queue(from: &mut VecDeque<Item>, items: &mut VecDeque<Item>)
    requires { deque_len items.old + deque_len from.old ≤ deque_capacity items.old }
    ensures items { items.new.items ≡ items.old.items ++ from.old.items }
    ensures room { deque_capacity items.new ≡ deque_capacity items.old }
    ensures len { deque_len items.new ≡ deque_len items.old + deque_len from.old }
{
    for _ in 0..from.len() {
        let Some(item) = from.pop_front() else {
            unreachable!()
        };
        items.push_back_reserved(item);
    }
}
