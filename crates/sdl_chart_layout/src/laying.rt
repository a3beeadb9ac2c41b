//! Events are laid in the order of the page, each in a new row or in one above. The heights of a list's events follow its order.
use crate::labels::{PidText, SignalText};
use crate::lines::{Line, NOWHERE, find, shape_of};
use crate::scene::{Key, Scene, Told};
use crate::texts::{BESIDE, STUB, arrow_text, end_of, end_texts, point, width_of};
use sdl_chart_drawing::{Arrival, Drawing, Event, Message, Point, Shape, Text, Tip};
use sdl_chart_page::ByOrigin;
use sdl_chart_text::write_reason;
use sdl_signal::{Item, Origin, Pid, Signal};
use std::alloc::{AllocError, Global};

/// From where rows are counted: below the heads.
const BEGIN: usize = 100;

/// From one row to the next.
pub(crate) const ROW: usize = 24;

/// From a row to states or names below it.
const STATE_ROW: usize = 30;

/// Where lines begin that come from above the part.
const FRAME: usize = 12;

/// After so much height the names of the lifelines stand once more.
const REMIND: usize = 720;

/// From the last row to the ends of lifelines, and from there to the lower border.
const FOOT: usize = 26;

const LEGEND: usize = 60;

/// From the last lifeline to the right border at least, and from the last text.
const RIGHT: usize = 170;

const MARGIN: usize = 20;

/// The least width.
const LEAST_WIDTH: usize = 620;

/// A chart while its events are laid.
#[derive(Drop)]
pub(crate) struct Laying<'a> {
    pub alloc: Global,
    pub scene: Scene<'a>,
    pub lines: Vec<Line>,
    /// The lowest row.
    pub y: usize,
    /// The last row of states, and the last row of names.
    states_row: usize,
    names_row: usize,
    /// The right end of all texts that stand behind a line.
    right: usize,
    /// For each list of the page the height of its last event.
    tops: Vec<usize>,
    /// For each output the row of its arrival.
    rows: ByOrigin<usize>,
    /// For each output the place of its message.
    places: ByOrigin<usize>,
    pub drawing: Drawing,
}

/// A drawing without a shape.
fn blank(alloc: Global) -> Drawing {
    Drawing {
        width: 0,
        height: 0,
        lifelines: Vec::new(alloc),
        states: Vec::new(alloc),
        events: Vec::new(alloc),
        messages: Vec::new(alloc),
        incoming: Vec::new(alloc),
        names: Vec::new(alloc),
    }
}

impl<'a> Laying<'a> {
    /// A chart without events, of so many lists, with the arrivals of the page.
    pub(crate) fn new(
        alloc: Global,
        scene: Scene<'a>,
        lists: usize,
        arrivals: &[Arrival],
        lines: Vec<Line>,
    ) -> Result<Laying<'a>, AllocError> {
        let mut rows = scene.page.by_output(alloc, NOWHERE)?;
        for arrival in arrivals {
            rows.put(arrival.origin, arrival.row);
        }
        Ok(Laying {
            alloc,
            scene,
            lines,
            y: BEGIN,
            states_row: 0,
            names_row: BEGIN,
            right: 0,
            tops: vec![in alloc; 0; lists]?,
            rows,
            places: scene.page.by_output(alloc, NOWHERE)?,
            drawing: blank(alloc),
        })
    }

    /// The next row, so far below the last.
    pub(crate) fn next_row(&mut self, fall: usize) -> usize {
        self.y = self.y.saturating_add(fall);
        self.y
    }

    /// The next row for an item, where it is drawn.
    pub(crate) fn item_row(&mut self, item: &Item) -> usize {
        if self.scene.concerns(item) {
            self.next_row(ROW)
        } else {
            self.y
        }
    }

    /// The place of the lifeline on which an event stands.
    pub(crate) fn place_of(&self, told: &Told) -> usize {
        find(self.lines.as_slice(), self.scene.key_at(told))
    }

    /// Where a lifeline stands.
    pub(crate) fn x_of(&self, place: usize) -> usize {
        match self.lines.get(place) {
            Some(line) => line.x,
            None => 0,
        }
    }

    /// Makes room for a text.
    pub(crate) fn reach(&mut self, text: &Text) {
        self.right = self.right.max(end_of(text));
    }

    /// Whether a lifeline is that of a single instance.
    pub(crate) fn is_single(&self, place: usize) -> bool {
        match self.lines.get(place) {
            Some(line) => matches!(line.key, Key::Instance(_, _)),
            None => false,
        }
    }

    /// Whether nothing of a lifeline stands at this height or below it.
    fn is_free(&self, place: usize, y: usize) -> bool {
        match self.lines.get(place) {
            Some(line) => line.last < y,
            None => true,
        }
    }

    /// Whether no event of a list stands below this height.
    pub(crate) fn is_open(&self, list: usize, y: usize) -> bool {
        match self.tops.get(list) {
            Some(top) => *top <= y,
            None => true,
        }
    }

    /// Takes a lifeline down to this height. What arrived there is this item.
    pub(crate) fn take_line(&mut self, place: usize, y: usize, arrived: Option<Origin>) {
        if let Some(line) = self.lines.get_mut(place) {
            line.last = line.last.max(y);
            line.arrived = arrived;
        }
    }

    /// Notes that one more signal waits at an instance, or one less.
    pub(crate) fn count_waiting(&mut self, place: usize, more: bool) {
        if let Some(line) = self.lines.get_mut(place) {
            line.waiting = if more {
                line.waiting.saturating_add(1)
            } else {
                line.waiting.saturating_sub(1)
            };
        }
    }

    /// Adds an event of a list without shapes.
    pub(crate) fn add_event(
        &mut self,
        row: usize,
        list: usize,
        at: Point,
    ) -> Result<(), AllocError> {
        let shapes = Vec::new(self.alloc);
        self.add_event_with(row, list, at, shapes)
    }

    /// Adds an event of a list.
    pub(crate) fn add_event_with(
        &mut self,
        row: usize,
        list: usize,
        at: Point,
        shapes: Vec<Shape>,
    ) -> Result<(), AllocError> {
        if let Some(top) = self.tops.get_mut(list) {
            *top = at.y;
        }
        self.drawing.events.push(Event { row, at, shapes })?;
        Ok(())
    }

    /// The text of a signal.
    pub(crate) fn label(&self, signal: &Signal) -> Result<String, AllocError> {
        let structure = self.scene.structure;
        SignalText { structure, signal }.to_string(self.alloc)
    }

    /// Words and a Pid.
    pub(crate) fn pid_words(&self, words: &str, pid: Pid) -> Result<String, AllocError> {
        let structure = self.scene.structure;
        let pid = PidText { structure, pid };
        format!(in self.alloc; "{words}{pid}")
    }

    /// Adds the names of the lifelines, where the last ones stand far above.
    pub(crate) fn remind(&mut self) -> Result<(), AllocError> {
        if self.y.saturating_sub(self.names_row) >= REMIND {
            let y = self.next_row(STATE_ROW);
            self.names_row = y;
            self.drawing.names.push(y)?;
        }
        Ok(())
    }

    /// The shape of a state on a lifeline, in a row of states.
    pub(crate) fn state_shape(&mut self, place: usize, name: String) -> Shape {
        let y = if self.states_row == self.y && self.is_free(place, self.y) {
            self.y
        } else {
            self.next_row(STATE_ROW)
        };
        self.states_row = y;
        self.take_line(place, y, None);
        Shape::State {
            at: point(self.x_of(place), y),
            half: name.len().saturating_mul(3).saturating_add(BESIDE),
            name,
        }
    }

    /// Lays the mark of a signal without a route, and answers its height.
    pub(crate) fn lay_no_route(
        &mut self,
        place: usize,
        label: String,
        shapes: &mut Vec<Shape>,
    ) -> Result<usize, AllocError> {
        let tail = point(self.x_of(place), self.next_row(ROW));
        let head = point(tail.x.saturating_add(STUB), tail.y);
        shapes.push(Shape::NoRoute { tail, head })?;
        let remark = String::from_str(self.alloc, "no route")?;
        let (label, remark) = end_texts(head, label, remark);
        self.reach(&remark);
        shapes.push(Shape::Text(label))?;
        shapes.push(Shape::Text(remark))?;
        Ok(tail.y)
    }

    /// Lays an output of an item. Its message ends at once where the item does not arrive in the part.
    pub(crate) fn lay_output(
        &mut self,
        row: usize,
        item: &Item,
        tail: Point,
    ) -> Result<(), AllocError> {
        let arrival = self.rows.at(item.origin).unwrap_or(NOWHERE);
        let mut message = Message {
            origin: item.origin,
            from: row,
            to: None,
            tail,
            head: tail,
            tip: Tip::Hidden,
            texts: Vec::new(self.alloc),
        };
        if self.scene.concerns(item) {
            message.tip = Tip::Lost;
            if arrival >= self.scene.wanted.past {
                self.end_at_once(&mut message, item, arrival)?;
            }
        }
        let place = self.drawing.messages.len();
        self.places.put(item.origin, place);
        self.drawing.messages.push(message)?;
        Ok(())
    }

    /// Ends a message whose item arrives in this row below the part, or nowhere.
    fn end_at_once(
        &mut self,
        message: &mut Message,
        item: &Item,
        arrival: usize,
    ) -> Result<(), AllocError> {
        message.head.x = message.tail.x.saturating_add(STUB);
        let label = self.label(&item.signal)?;
        if arrival == NOWHERE {
            return self.end_left(message, label);
        }
        message.tip = Tip::Later;
        let number = arrival as u128 + 1;
        let remark = format!(in self.alloc; "arrives at {number}")?;
        let (label, remark) = end_texts(message.head, label, remark);
        self.reach(&remark);
        message.texts.push(label)?;
        message.texts.push(remark)?;
        Ok(())
    }

    /// Ends a message whose item never arrives. Its label stands over its line, since behind its end is written where the item was left.
    fn end_left(&mut self, message: &mut Message, label: String) -> Result<(), AllocError> {
        let label = arrow_text(Some(message.tail), message.tail, label);
        self.reach(&label);
        let reason = width_of(self.reason_letters(message.origin)?);
        let end = message.head.x.saturating_add(BESIDE);
        self.right = self.right.max(end.saturating_add(reason));
        message.texts.push(label)?;
        Ok(())
    }

    /// How many letters tell where an item was left.
    fn reason_letters(&self, origin: Origin) -> Result<usize, AllocError> {
        let mut words: Vec<u8> = Vec::new(self.alloc);
        match write_reason(&mut words, self.scene.structure, self.scene.left, origin) {
            Ok(()) => Ok(words.len()),
            Err(_) => Err(AllocError),
        }
    }

    /// Where the message of an output begins, where it is one of this part.
    fn tail_of(&self, origin: Origin) -> Option<Point> {
        let place = self.places.at(origin)?;
        match self.drawing.messages.get(place) {
            Some(message) => Some(message.tail),
            None => None,
        }
    }

    /// Where an item arrives: in the row of its output, where that is free, and else in a new one.
    fn head_of(&mut self, list: usize, item: &Item, place: usize, tail: Option<Point>) -> Point {
        let x = if place < self.lines.len() {
            self.x_of(place)
        } else {
            tail.unwrap_or(point(FRAME, 0)).x.saturating_add(STUB)
        };
        match tail {
            Some(tail)
                if tail.x != x
                    && self.scene.concerns(item)
                    && self.is_free(place, tail.y)
                    && self.is_open(list, tail.y) => { point(x, tail.y) }
            _ => point(x, self.item_row(item)),
        }
    }

    /// Lays an arrival of an item at the lifeline of this place, or a discard. Its message has this label.
    pub(crate) fn lay_arrival(
        &mut self,
        row: usize,
        list: usize,
        item: &Item,
        place: usize,
        tip: Tip,
        label: String,
    ) -> Result<(), AllocError> {
        let tail = self.tail_of(item.origin);
        let head = self.head_of(list, item, place, tail);
        self.add_event(row, list, head)?;
        self.take_line(place, head.y, Some(item.origin));
        if tip == Tip::Arrow {
            self.count_waiting(place, true);
        }
        let of = self.places.at(item.origin).unwrap_or(NOWHERE);
        match self.drawing.messages.get_mut(of) {
            Some(message) => {
                message.to = Some(row);
                message.head = head;
                if message.tip != Tip::Hidden {
                    message.tip = tip;
                }
                message.texts.push(arrow_text(tail, head, label))?;
                Ok(())
            }
            None => self.come_in(row, item, head, tip, label),
        }
    }

    /// Adds the message of an item that comes in from above the part.
    fn come_in(
        &mut self,
        row: usize,
        item: &Item,
        head: Point,
        tip: Tip,
        label: String,
    ) -> Result<(), AllocError> {
        let from = match self.scene.page.spot(item.origin) {
            Some(spot) => spot.row,
            None => 0,
        };
        let number = from as u128 + 1;
        let text = format!(in self.alloc; "{label} @{number}")?;
        let mut texts = Vec::new(self.alloc);
        texts.push(arrow_text(None, head, text))?;
        let shown = self.scene.concerns(item);
        self.drawing.incoming.push(Message {
            origin: item.origin,
            from,
            to: Some(row),
            tail: point(FRAME, head.y),
            head,
            tip: if shown { tip } else { Tip::Hidden },
            texts,
        })?;
        Ok(())
    }

    /// The label of a signal, with words behind it.
    pub(crate) fn label_with(&self, signal: &Signal, words: String) -> Result<String, AllocError> {
        let structure = self.scene.structure;
        let signal = SignalText { structure, signal };
        format!(in self.alloc; "{signal}{words}")
    }

    /// The words about an instance behind the label of a signal, where the lifeline is not its own.
    pub(crate) fn words_at(
        &self,
        place: usize,
        words: &str,
        pid: Pid,
    ) -> Result<String, AllocError> {
        if self.is_single(place) {
            Ok(String::new(self.alloc))
        } else {
            self.pid_words(words, pid)
        }
    }

    /// Ends all lifelines.
    pub(crate) fn finish(self) -> Result<Drawing, AllocError> {
        let mut laying = self;
        let bottom = laying.next_row(FOOT);
        let Laying {
            alloc,
            scene,
            lines,
            y: _,
            states_row: _,
            names_row: _,
            right,
            tops: _,
            rows: _,
            places: _,
            mut drawing,
        } = laying;
        let last = match lines.as_slice().last() {
            Some(line) => line.x.saturating_add(RIGHT),
            None => 0,
        };
        drawing.width = last.max(right.saturating_add(MARGIN)).max(LEAST_WIDTH);
        drawing.height = bottom.saturating_add(LEGEND);
        for line in lines.as_slice() {
            let shape = shape_of(alloc, scene.structure, line, bottom)?;
            drawing.lifelines.push(shape)?;
        }
        Ok(drawing)
    }
}
