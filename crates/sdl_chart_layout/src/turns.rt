//! Turns of instances, which are laid.
use crate::laying::{Laying, ROW};
use crate::lines::find;
use crate::scene::{Key, Told};
use crate::texts::{point, text_behind};
use sdl_app_file_commands::names::signal_name;
use sdl_chart_drawing::{Shape, Style};
use sdl_instances_log::{Done, Trigger};
use sdl_instances_packed_log::{Shown, ShownStep};
use sdl_signal::{Pid, StateId};
use sdl_transition_behaviour::{Frame, Next};
use std::alloc::AllocError;

/// From the last row to a bar whose signal waited in the port, to a stop, and to a remark.
const BAR_ROW: usize = 20;

/// From the last row to a create, and from there to the begin of the new lifeline.
const CREATE_ROW: usize = 26;

const HALF_HEAD: usize = 10;

/// The height of a bar at least, and from a lifeline to a text beside it.
const LEAST_BAR: usize = 10;

/// A turn that is laid.
#[derive(Clone, Copy)]
struct Turning {
    row: usize,
    list: usize,
    pid: Pid,
    /// The place of the lifeline, and where it stands.
    place: usize,
    x: usize,
    /// Whether the instance's set is kept.
    shown: bool,
}

impl Laying<'_> {
    /// Lays a turn.
    pub(crate) fn lay_turn(
        &mut self,
        row: usize,
        list: usize,
        place: usize,
        event: &Shown,
    ) -> Result<(), AllocError> {
        let Shown::Turn {
            pid,
            trigger,
            frame,
            step,
            done,
            stopped,
        } = event
        else {
            return Ok(());
        };
        let turn = Turning {
            row,
            list,
            pid: *pid,
            place,
            x: self.x_of(place),
            shown: self.scene.key_of(*pid) != Some(Key::Others),
        };
        let mut shapes = Vec::new(self.alloc);
        let top = self.begin_turn(turn, trigger, &mut shapes)?;
        let begin = self.y;
        for one in *done {
            self.lay_done(turn, one, &mut shapes)?;
        }
        if turn.shown {
            if is_stop(step) {
                self.lay_stop(turn, (*stopped).unwrap_or(0), &mut shapes)?;
            }
            let last = if begin < self.y { self.y } else { top };
            let starts = matches!(trigger, Trigger::Start);
            if begin < self.y || !starts {
                self.take_line(place, last, None);
            }
            if !starts {
                shapes.push(Shape::Bar {
                    x: turn.x,
                    top,
                    bottom: last.max(top.saturating_add(LEAST_BAR)),
                })?;
            }
            self.lay_next(turn, frame, step, &mut shapes)?;
        }
        self.add_event_with(row, list, point(turn.x, top), shapes)
    }

    /// Adds a text beside the lifeline of a turn.
    fn add_text(
        &mut self,
        shapes: &mut Vec<Shape>,
        turn: Turning,
        y: usize,
        style: Style,
        text: String,
    ) -> Result<(), AllocError> {
        let text = text_behind(point(turn.x, y), LEAST_BAR, style, text);
        self.reach(&text);
        shapes.push(Shape::Text(text))?;
        Ok(())
    }

    /// Begins a turn: where its bar begins. That is at the arrival of the signal, where the consumption follows it at once. Else the
    /// signal waited, and the bar has a row of its own.
    fn begin_turn(
        &mut self,
        turn: Turning,
        trigger: &Trigger,
        shapes: &mut Vec<Shape>,
    ) -> Result<usize, AllocError> {
        let item = match trigger {
            Trigger::Start => return Ok(self.y),
            Trigger::Fire(item) => item,
            Trigger::Implicit(item) => item,
        };
        self.count_waiting(turn.place, false);
        if !turn.shown {
            return Ok(self.y);
        }
        if let Some(line) = self.lines.get(turn.place) {
            if line.arrived == Some(item.origin) && self.is_open(turn.list, line.last) {
                return Ok(line.last);
            }
        }
        let y = self.next_row(BAR_ROW);
        let words = self.words_at(turn.place, " at ", turn.pid)?;
        let text = self.label_with(&item.signal, words)?;
        self.add_text(shapes, turn, y, Style::Waited, text)?;
        Ok(y)
    }

    /// Lays what an action did.
    fn lay_done(
        &mut self,
        turn: Turning,
        done: &Done,
        shapes: &mut Vec<Shape>,
    ) -> Result<(), AllocError> {
        match done {
            Done::Sent(item) => {
                let y = self.item_row(item);
                self.lay_output(turn.row, item, point(turn.x, y))
            }
            Done::NoRoute(_, signal) => {
                if turn.shown {
                    let name = signal_name(self.scene.structure, *signal);
                    let label = String::from_str(self.alloc, name)?;
                    let _ = self.lay_no_route(turn.place, label, shapes)?;
                }
                Ok(())
            }
            Done::Made(pid) => self.lay_made(turn, *pid, shapes),
        }
    }

    /// Lays a create: an arrow to the head of a new lifeline, and else words.
    fn lay_made(
        &mut self,
        turn: Turning,
        pid: Pid,
        shapes: &mut Vec<Shape>,
    ) -> Result<(), AllocError> {
        let made = find(self.lines.as_slice(), self.scene.key_of(pid));
        if self.is_single(made) {
            return self.lay_create(turn, made, shapes);
        }
        if !turn.shown {
            return Ok(());
        }
        let y = self.next_row(ROW);
        let text = self.pid_words("creates ", pid)?;
        self.add_text(shapes, turn, y, Style::Remark, text)
    }

    /// Lays the arrow to the head of a new lifeline.
    fn lay_create(
        &mut self,
        turn: Turning,
        made: usize,
        shapes: &mut Vec<Shape>,
    ) -> Result<(), AllocError> {
        let tail = point(turn.x, self.next_row(CREATE_ROW));
        let bottom = self.next_row(HALF_HEAD);
        let edge = match self.lines.get(made) {
            Some(line) if turn.x < line.x => line.x.saturating_sub(line.half),
            Some(line) => line.x.saturating_add(line.half),
            None => turn.x,
        };
        shapes.push(Shape::Create {
            tail,
            head: point(edge, tail.y),
        })?;
        if let Some(line) = self.lines.get_mut(made) {
            line.top = tail.y;
            line.last = bottom;
        }
        Ok(())
    }

    /// Lays a stop, and how many signals were dropped with it.
    fn lay_stop(
        &mut self,
        turn: Turning,
        dropped: u64,
        shapes: &mut Vec<Shape>,
    ) -> Result<(), AllocError> {
        let y = self.next_row(BAR_ROW);
        let is_single = self.is_single(turn.place);
        if !is_single {
            let text = self.pid_words("stop of ", turn.pid)?;
            self.add_text(shapes, turn, y, Style::Remark, text)?;
        }
        if dropped > 0 {
            let y = self.next_row(BAR_ROW);
            let text = format!(in self.alloc; "{dropped} dropped")?;
            self.add_text(shapes, turn, y, Style::Remark, text)?;
        }
        let bottom = self.y;
        if let Some(line) = self.lines.get_mut(turn.place) {
            line.waiting = 0;
            if is_single {
                line.stop = Some(bottom);
            }
        }
        Ok(())
    }

    /// Lays what follows a turn: the state, where it is another one than before, or that there was no transition.
    fn lay_next(
        &mut self,
        turn: Turning,
        frame: &Frame,
        step: &Option<ShownStep>,
        shapes: &mut Vec<Shape>,
    ) -> Result<(), AllocError> {
        let Some(step) = step else {
            let y = self.next_row(BAR_ROW);
            self.take_line(turn.place, y, None);
            let text = String::from_str(self.alloc, "no transition")?;
            return self.add_text(shapes, turn, y, Style::Remark, text);
        };
        match step.next {
            Next::State(state) if frame.state != Some(state) => {
                let shape = self.lay_state(turn.place, turn.pid, state)?;
                shapes.push(shape)?;
            }
            _ => {}
        }
        Ok(())
    }

    /// Lays a state of an instance, with the instance's name where the lifeline is not its own.
    pub(crate) fn lay_state(
        &mut self,
        place: usize,
        pid: Pid,
        state: StateId,
    ) -> Result<Shape, AllocError> {
        let name = match pid {
            Pid::Inst(set, _) => self.scene.states.name(set, state),
            _ => "",
        };
        let words = self.words_at(place, " of ", pid)?;
        let name = format!(in self.alloc; "{name}{words}")?;
        Ok(self.state_shape(place, name))
    }

    /// Notes what an event above the part says of an instance: how many signals wait at it, and its state.
    pub(crate) fn look_at(&mut self, told: &Told) {
        let place = self.place_of(told);
        match told {
            Told::Logged(Shown::Entered(_, _)) => self.count_waiting(place, true),
            Told::Logged(Shown::Turn { trigger, step, .. }) => {
                if !matches!(trigger, Trigger::Start) {
                    self.count_waiting(place, false);
                }
                self.note_state(place, step);
            }
            _ => {}
        }
    }

    /// Notes the state of an instance.
    fn note_state(&mut self, place: usize, step: &Option<ShownStep>) {
        let Some(step) = step else {
            return;
        };
        if let Some(line) = self.lines.get_mut(place) {
            line.state = match step.next {
                Next::State(state) => Some(state),
                Next::Stop => None,
            };
        }
    }
}

/// Whether a turn ends in a stop.
fn is_stop(step: &Option<ShownStep>) -> bool {
    match step {
        Some(step) => matches!(step.next, Next::Stop),
        None => false,
    }
}
