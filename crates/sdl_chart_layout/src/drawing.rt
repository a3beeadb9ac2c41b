//! The chart of a part of a run.
ghost use Rattle.std.specs.Prelude.{◌≤◌, IfOk, length};
ghost use Rattle.sdl_chart_page.specs.Entries.{AreStored};
ghost use Rattle.sdl_chart_drawing.specs.Charts.{IsChartOf, part_of};

use crate::laying::Laying;
use crate::lines::lines_of;
use crate::scene::{Key, Scene, Told, told_of};
use crate::texts::point;
use sdl_chart_drawing::{Arrival, Drawing, Tip, Wanted, arrivals_of, is_whole};
use sdl_chart_page::Row;
use sdl_chart_text::Chart;
use sdl_instances_log::Cause;
use sdl_instances_packed_log::{Shown, Shows};
use sdl_run_outcome::EnvOut;
use sdl_signal::{EnvLine, Pid};
use std::alloc::{AllocError, Global};
use thiserror::Error;

/// How many lifelines a chart has at most. (This project's own.)
pub const MOST_LIFELINES: usize = 64;

/// Why there is no chart.
#[derive(Clone, Copy, Debug, Error)]
pub enum DrawFault {
    /// A growth was refused.
    #[error("memory")]
    Memory,
    /// There would be over 64 lifelines.
    #[error("over 64 lifelines")]
    Lifelines,
    /// Something would be missing or in a wrong place. No run is known with which that happens.
    #[error("not whole")]
    NotWhole,
}

/// The chart of a part of a run.
pub fn draw<K: Shows>(
    alloc: Global,
    chart: &Chart<K>,
    wanted: &Wanted,
) -> Result<Drawing, DrawFault>
    requires stored { AreStored K.stores chart.now.lists.now.logs.now }
    requires from { wanted.now.first ≤ wanted.now.past }
    requires to { wanted.now.past ≤ length chart.now.page.now.rows }
    ensures whole { IfOk result (λ drawing. IsChartOf (part_of K.events chart.now.lists.now chart.now.page.now wanted.now) drawing) }
    ensures few { IfOk result (λ drawing. length drawing.lifelines.items ≤ 64) }
{
    let rows = chart.page.rows();
    let Ok(arrivals) = arrivals_of(alloc, chart.lists, rows) else {
        return Err(DrawFault::Memory);
    };
    let Ok(drawing) = laid_out(alloc, chart, wanted, arrivals.as_slice()) else {
        return Err(DrawFault::Memory);
    };
    if drawing.lifelines.len() > MOST_LIFELINES {
        return Err(DrawFault::Lifelines);
    }
    match is_whole(
        alloc,
        chart.lists,
        chart.page,
        wanted,
        arrivals.as_slice(),
        &drawing,
    ) {
        Ok(true) => Ok(drawing),
        Ok(false) => Err(DrawFault::NotWhole),
        Err(_) => Err(DrawFault::Memory),
    }
}

/// The events of rows.
fn all_told<'a, K: Shows>(
    alloc: Global,
    chart: &Chart<'a, K>,
    rows: &[Row],
) -> Result<Vec<Option<Told<'a>>>, AllocError> {
    let mut events = Vec::new(alloc);
    for row in rows {
        events.push(told_of(chart.lists, *row))?;
    }
    Ok(events)
}

/// All shapes of the part.
fn laid_out<K: Shows>(
    alloc: Global,
    chart: &Chart<K>,
    wanted: &Wanted,
    arrivals: &[Arrival],
) -> Result<Drawing, AllocError>
    requires from { wanted.now.first ≤ wanted.now.past }
    requires to { wanted.now.past ≤ length chart.now.page.now.rows }
{
    let rows = chart.page.rows();
    let events = all_told(alloc, chart, &rows[wanted.first..wanted.past])?;
    let scene = Scene::of(chart, wanted);
    let lines = lines_of(alloc, &scene, events.as_slice())?;
    let lists = chart.lists.logs.len().saturating_add(2);
    let mut laying = Laying::new(alloc, scene, lists, arrivals, lines)?;
    for row in &rows[..wanted.first] {
        if let Some(told) = told_of(chart.lists, *row) {
            laying.look_at(&told);
        }
    }
    laying.open_states()?;
    for (index, told) in events.as_slice().iter().enumerate() {
        let number = wanted.first.saturating_add(index);
        let list = match rows.get(number) {
            Some(row) => row.list,
            None => 0,
        };
        laying.lay(number, list, told)?;
    }
    laying.finish()
}

/// Why an item was discarded, in words.
fn cause_words(cause: Cause) -> &'static str {
    match cause {
        Cause::NoInstance => " (no instance)",
        Cause::Gone => " (gone)",
    }
}

impl<'a> Laying<'a> {
    /// Lays the states that instances have above the first event.
    fn open_states(&mut self) -> Result<(), AllocError> {
        for place in 0..self.lines.len() {
            let (key, state) = match self.lines.get(place) {
                Some(line) => (line.key, line.state),
                None => (Key::Others, None),
            };
            match (key, state) {
                (Key::Instance(set, serial), Some(state)) => {
                    let shape = self.lay_state(place, Pid::Inst(set, serial), state)?;
                    self.drawing.states.push(shape)?;
                }
                _ => {}
            }
        }
        Ok(())
    }

    /// Lays the event of a row of a list.
    fn lay(&mut self, row: usize, list: usize, told: &Option<Told>) -> Result<(), AllocError> {
        self.remind()?;
        let Some(told) = told else {
            let at = point(0, self.y);
            return self.add_event(row, list, at);
        };
        let place = self.place_of(told);
        match told {
            Told::Logged(event) => self.lay_logged(row, list, place, event),
            Told::Received(item) => {
                let label = self.label(&item.signal)?;
                self.lay_arrival(row, list, item, place, Tip::Arrow, label)
            }
            Told::Put(EnvOut::Sent(item)) => {
                let at = point(self.x_of(place), self.item_row(item));
                self.take_line(place, at.y, None);
                self.add_event(row, list, at)?;
                self.lay_output(row, item, at)
            }
            Told::Put(EnvOut::NoRoute(_, line)) => self.lay_refused(row, list, place, line),
        }
    }

    /// Lays an output of the environment without a route.
    fn lay_refused(
        &mut self,
        row: usize,
        list: usize,
        place: usize,
        line: &EnvLine,
    ) -> Result<(), AllocError> {
        let mut shapes = Vec::new(self.alloc);
        let y = if self.scene.keeps_all() {
            let label = self.label(&line.signal)?;
            self.lay_no_route(place, label, &mut shapes)?
        } else {
            self.y
        };
        self.take_line(place, y, None);
        self.add_event_with(row, list, point(self.x_of(place), y), shapes)
    }

    /// Lays an event of a block.
    fn lay_logged(
        &mut self,
        row: usize,
        list: usize,
        place: usize,
        event: &Shown,
    ) -> Result<(), AllocError> {
        match event {
            Shown::Entered(item, pid) => {
                let words = self.words_at(place, " to ", *pid)?;
                let label = self.label_with(&item.signal, words)?;
                self.lay_arrival(row, list, item, place, Tip::Arrow, label)
            }
            Shown::Discarded(item, cause) => {
                let words = String::from_str(self.alloc, cause_words(*cause))?;
                let label = self.label_with(&item.signal, words)?;
                self.lay_arrival(row, list, item, place, Tip::Lost, label)
            }
            Shown::Turn { .. } => self.lay_turn(row, list, place, event),
        }
    }
}
