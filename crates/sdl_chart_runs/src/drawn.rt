//! The chart of what a run left.
ghost use Rattle.std.specs.Prelude.{◌≡◌, ◌≤◌, ℕ, List, None, Some, length, map, min, IfOk, IfErr, IfSome, IfNone, IsErr, IsOk};
ghost use Rattle.std.specs.Io.KnownBytes.{Appends};
ghost use Rattle.sdl_transition.specs.Bound.{structure_of, routes_of};
ghost use Rattle.sdl_run_driver.specs.Closings.{outcome_in};
ghost use Rattle.sdl_chart_page.specs.Entries.{AreStored, entries_of};
ghost use Rattle.sdl_chart_page.specs.Pages.{IsPageOf, AreWhole, AreOrderly};
ghost use Rattle.sdl_chart_runs.specs.Charts.{IsChartOf, IsTextOf, IsHeadingOf, IsWhyNone, IsWhyNoText, IsOver, drawn_of, entries_left, first_of, last_of, before_of, past_of};
ghost use Rattle.sdl_chart_text.specs.Legends.{reason_of};
ghost use Rattle.sdl_chart_svg.specs.Svg.{chart_svg};
ghost use Rattle.sdl_chart_svg.specs.declared.svg.Heading.{Heading as AHeading};

use sdl_app_command::errors::write_error;
use sdl_chart_drawing::{Drawing, Wanted};
use sdl_chart_layout::{DrawFault, draw};
use sdl_chart_msc::{MscFault, write_msc};
use sdl_chart_page::{Lists, Page, PageFault};
use sdl_chart_svg::{Heading, write_chart_svg};
use sdl_chart_text::{Chart, States, lefts_of, write_chart};
use sdl_chart_words::{ChartForm, Charting, Request};
use sdl_instances_log::LogStore;
use sdl_instances_packed_log::Shows;
use sdl_run::Closing;
use sdl_signal::OutputEnd;
use std::alloc::Global;
use std::io::{Result as IoResult, Write};

/// The most events of a drawing for which no last one is asked. Many viewers stop at a height of 32767 pixels.
const MOST_DRAWN: usize = 500;

/// What is asked for of a chart, and the names of the states that it is written with.
#[derive(Drop)]
pub struct ToChart {
    pub charting: Charting,
    pub states: States,
}

/// Why no chart is written of a run.
#[derive(Clone, Copy)]
pub enum ChartFault {
    /// A growth was refused.
    Memory,
    /// A drawing would not show its part as it has to. No run is known of which there is such a drawing.
    NotWhole,
    /// There is no such event: there are so many.
    Over(usize),
    /// A drawing would have more than 64 lifelines.
    Lifelines,
}

/// Says why no chart is written.
pub(crate) fn write_chart_fault<E: Write>(errors: &mut E, fault: ChartFault) {
    match fault {
        ChartFault::Memory => write_error(errors, "chart: memory"),
        ChartFault::NotWhole => write_error(errors, "chart: not whole"),
        ChartFault::Over(last) => write_error(errors, format_args!("chart: over at {last}")),
        ChartFault::Lifelines => write_error(errors, "chart: over 64 lifelines"),
    }
}

/// Before which row a chart of so many ends where no last event is asked for.
fn last_of(form: Option<ChartForm>, first: usize, rows: usize) -> usize
    ensures { min rows result ≡ min rows (last_of form first rows) }
{
    match form {
        Some(ChartForm::Svg) => first.saturating_add(MOST_DRAWN),
        Some(ChartForm::Text) => rows,
        Some(ChartForm::Msc) => rows,
        None => rows,
    }
}

/// Before which row a chart of so many ends that begins with this one.
fn last_before(request: Request, first: usize, rows: usize) -> usize
    ensures { result ≡ before_of request first rows }
{
    let last = match request.to {
        Some(number) => number as usize,
        None => last_of(request.form, first, rows),
    };
    rows.min(last).max(first)
}

/// The rows that are to be written, of so many: from this one on, and to before that one.
fn part_of(request: Request, rows: usize) -> Option<(usize, usize)>
    ensures first { IfSome result (λ part. part.0 ≡ first_of request.from) }
    ensures past { IfSome result (λ part. part.1 ≡ past_of request rows) }
    ensures order { IfSome result (λ part. part.0 ≤ part.1) }
    ensures within { IfSome result (λ part. part.1 ≤ rows) }
    ensures over { IfNone result (IsOver request.from rows) }
{
    match request.from {
        Some(number) => {
            let first = (number as usize).saturating_sub(1);
            if rows <= first {
                None
            } else {
                Some((first, last_before(request, first, rows)))
            }
        }
        None => Some((0, last_before(request, 0, rows))),
    }
}

/// The lists that a closing shows.
fn lists_in<S, K: LogStore>(closing: &Closing<S, K>) -> Lists<'_, K>
    ensures logs { result.logs.now ≡ closing.now.logs.items }
    ensures received { result.received.now ≡ closing.now.env_received.items }
    ensures put { result.put.now ≡ closing.now.env_put.items }
{
    Lists {
        logs: closing.logs.as_slice(),
        received: closing.env_received.as_slice(),
        put: closing.env_put.as_slice(),
    }
}

/// Why there is no page of lists that are orderly.
fn fault_of(fault: PageFault) -> ChartFault
    requires { fault ≡ PageFault.NotWhole → ⊥ }
    ensures { result ≡ ChartFault.Memory }
{
    match fault {
        PageFault::Memory => ChartFault::Memory,
        PageFault::NotWhole => unreachable!(),
    }
}

/// The page of the lists, which a run left that has ended: it has all events.
fn page_of<K: Shows>(alloc: Global, lists: &Lists<K>) -> Result<Page, ChartFault>
    requires stored { AreStored K.stores lists.now.logs.now }
    requires orderly { AreOrderly (entries_of K.events lists.now) }
    ensures page { IfOk result (IsPageOf (entries_of K.events lists.now)) }
    ensures whole { IfOk result (λ page. AreWhole (entries_of K.events lists.now) page.rows) }
    ensures why { IfErr result (IsWhyNoText None) }
{
    match Page::of(alloc, lists) {
        Ok(page) => Ok(page),
        Err(fault) => Err(fault_of(fault)),
    }
}

/// How the writing of a chart ended.
fn end_of(written: IoResult<()>) -> OutputEnd
    ensures { (result ≡ OutputEnd.Whole) → IsOk written }
{
    match written {
        Ok(()) => OutputEnd::Whole,
        Err(_) => OutputEnd::WriteFault,
    }
}

/// Writes the part of the chart as a drawing. Where there is none, nothing is written.
fn write_drawing<K: Shows, W: Write>(
    alloc: Global,
    output: &mut W,
    chart: &Chart<K>,
    charting: &Charting,
    first: usize,
    past: usize,
) -> Result<OutputEnd, ChartFault>
    requires stored { AreStored K.stores chart.now.lists.now.logs.now }
    requires order { first ≤ past }
    requires within { past ≤ length chart.now.page.now.rows }
    ensures text { IfOk result (λ end. end ≡ OutputEnd.Whole → (text : List ℕ)
        × IsTextOf K.events (Some ChartForm.Svg) charting.now chart.now first past text × Appends (W.contents output.old) (W.contents output.new) text) }
    ensures fault { IsErr result → output.new ≡ output.old }
    ensures why { IfErr result (IsWhyNoText (Some ChartForm.Svg)) }
{
    let wanted = Wanted {
        first,
        past,
        only: charting.only.as_slice(),
        by_set: charting.request.by_set,
    };
    match draw(alloc, chart, &wanted) {
        Ok(drawing) => Ok(write_drawn(output, chart, &drawing, first, past)),
        Err(DrawFault::Memory) => Err(ChartFault::Memory),
        Err(DrawFault::Lifelines) => Err(ChartFault::Lifelines),
        Err(DrawFault::NotWhole) => Err(ChartFault::NotWhole),
    }
}

/// Writes a drawing of this part of the chart.
fn write_drawn<K, W: Write>(
    output: &mut W,
    chart: &Chart<K>,
    drawing: &Drawing,
    first: usize,
    past: usize,
) -> OutputEnd
    ensures { result ≡ OutputEnd.Whole → (h : AHeading)
        × IsHeadingOf chart.now.structure.now (drawn_of chart.now first past) h × Appends (W.contents output.old) (W.contents output.new) (chart_svg h (reason_of chart.now.structure.now chart.now.left.now) drawing.now) }
{
    let heading = Heading {
        system: chart.structure.system(),
        events: chart.page.rows().len(),
        first,
        past,
    };
    let written = write_chart_svg(output, &heading, chart.structure, chart.left, drawing);
    end_of(written)
}

/// Writes the whole chart in the textual form of Z.120. Where memory is refused, nothing is written.
fn write_z120<K: Shows, W: Write>(
    alloc: Global,
    output: &mut W,
    chart: &Chart<K>,
) -> Result<OutputEnd, ChartFault>
    requires stored { AreStored K.stores chart.now.lists.now.logs.now }
    ensures text { (charting : _) (first past : ℕ) → IfOk result (λ end. end ≡ OutputEnd.Whole → (text : List ℕ)
        × IsTextOf K.events (Some ChartForm.Msc) charting chart.now first past text × Appends (W.contents output.old) (W.contents output.new) text) }
    ensures fault { IsErr result → output.new ≡ output.old }
    ensures why { IfErr result (IsWhyNoText (Some ChartForm.Msc)) }
{
    match write_msc(alloc, output, chart) {
        Ok(()) => Ok(OutputEnd::Whole),
        Err(MscFault::Write) => Ok(OutputEnd::WriteFault),
        Err(MscFault::Memory) => Err(ChartFault::Memory),
    }
}

/// Writes the part of the chart as lines.
fn write_lines<K: Shows, W: Write>(
    output: &mut W,
    chart: &Chart<K>,
    first: usize,
    past: usize,
) -> OutputEnd
    requires stored { AreStored K.stores chart.now.lists.now.logs.now }
    requires order { first ≤ past }
    requires within { past ≤ length chart.now.page.now.rows }
    ensures text { (charting : _) → result ≡ OutputEnd.Whole → (text : List ℕ)
        × IsTextOf K.events None charting chart.now first past text × Appends (W.contents output.old) (W.contents output.new) text }
{
    let written = write_chart(output, chart, first, past);
    end_of(written)
}

/// Writes the part of the chart in this form. Where there is no text, nothing is written.
fn write_as<K: Shows, W: Write>(
    form: ChartForm,
    alloc: Global,
    output: &mut W,
    chart: &Chart<K>,
    charting: &Charting,
    first: usize,
    past: usize,
) -> Result<OutputEnd, ChartFault>
    requires stored { AreStored K.stores chart.now.lists.now.logs.now }
    requires order { first ≤ past }
    requires within { past ≤ length chart.now.page.now.rows }
    ensures text { IfOk result (λ end. end ≡ OutputEnd.Whole → (text : List ℕ)
        × IsTextOf K.events (Some form) charting.now chart.now first past text × Appends (W.contents output.old) (W.contents output.new) text) }
    ensures fault { IsErr result → output.new ≡ output.old }
    ensures why { IfErr result (IsWhyNoText (Some form)) }
{
    match form {
        ChartForm::Svg => write_drawing(alloc, output, chart, charting, first, past),
        ChartForm::Msc => write_z120(alloc, output, chart),
        ChartForm::Text => Ok(write_lines(output, chart, first, past)),
    }
}

/// Writes the part of the chart in the form that is asked for, and else as lines. Where there is no text, nothing is written.
fn write_in_form<K: Shows, W: Write>(
    alloc: Global,
    output: &mut W,
    chart: &Chart<K>,
    charting: &Charting,
    first: usize,
    past: usize,
) -> Result<OutputEnd, ChartFault>
    requires stored { AreStored K.stores chart.now.lists.now.logs.now }
    requires order { first ≤ past }
    requires within { past ≤ length chart.now.page.now.rows }
    ensures text { IfOk result (λ end. end ≡ OutputEnd.Whole → (text : List ℕ)
        × IsTextOf K.events charting.now.request.form charting.now chart.now first past text × Appends (W.contents output.old) (W.contents output.new) text) }
    ensures fault { IsErr result → output.new ≡ output.old }
    ensures why { IfErr result (IsWhyNoText charting.now.request.form) }
{
    match charting.request.form {
        Some(form) => write_as(form, alloc, output, chart, charting, first, past),
        None => Ok(write_lines(output, chart, first, past)),
    }
}

/// Writes the chart of what a closing shows. Where there is none, nothing is written.
pub(crate) fn chart_closing<S, K: Shows, W: Write>(
    alloc: Global,
    closing: &Closing<S, K>,
    to_chart: &ToChart,
    output: &mut W,
) -> Result<OutputEnd, ChartFault>
    requires stored { AreStored K.stores closing.now.logs.items }
    requires orderly { AreOrderly (entries_left (outcome_in K.events closing.now)) }
    ensures chart { IfOk result (λ end. end ≡ OutputEnd.Whole → (text : List ℕ)
        × IsChartOf (structure_of closing.now.bound) (routes_of closing.now.bound) to_chart.now.states to_chart.now.charting (outcome_in K.events closing.now) text
        × Appends (W.contents output.old) (W.contents output.new) text) }
    ensures fault { IsErr result → output.new ≡ output.old }
    ensures why { IfErr result (IsWhyNone to_chart.now.charting (outcome_in K.events closing.now)) }
{
    let structure = closing.bound.checked().structure();
    let lists = lists_in(closing);
    let page = page_of(alloc, &lists)?;
    let rows = page.rows().len();
    let Some((first, past)) = part_of(to_chart.charting.request, rows) else {
        return Err(ChartFault::Over(rows));
    };
    let hands = closing.hands.as_slice();
    let Ok(left) = lefts_of(alloc, structure, &page, hands, closing.rests.as_slice()) else {
        return Err(ChartFault::Memory);
    };
    let chart = Chart {
        structure,
        routes: closing.bound.routes(),
        states: &to_chart.states,
        lists: &lists,
        page: &page,
        left: &left,
    };
    write_in_form(alloc, output, &chart, &to_chart.charting, first, past)
}
