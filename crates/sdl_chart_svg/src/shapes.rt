//! The events of a chart, and their shapes.
ghost use Rattle.std.specs.Prelude.{◌≡◌, ◌-◌, ◌++◌, OnOk, codes, string_bytes};
ghost use Rattle.std.specs.Io.KnownBytes.{Appends};
ghost use Rattle.sdl_chart_svg.specs.Shapes.{bar_text, state_text, disc_text, line_text, no_route_text, shape_text, shapes_text, event_front, event_text, events_text};

use crate::texts::write_one;
use sdl_chart_drawing::{Event, Point, Shape};
use sdl_svg::write_text;
use std::io::{Result, Write};

/// Writes these events.
pub(crate) fn write_events<W: Write>(output: &mut W, events: &[Event]) -> Result<()>
    ensures { OnOk result (Appends (W.contents output.old) (W.contents output.new) (events_text events.now)) }
{
    for event in events {
        write_event(output, event)?;
    }
    Ok(())
}

/// Writes an event as a group with the number of its row, which counts from 1.
fn write_event<W: Write>(output: &mut W, event: &Event) -> Result<()>
    ensures { OnOk result (Appends (W.contents output.old) (W.contents output.new) (event_text event.now)) }
{
    open_event(output, event.row)?;
    write_shapes(output, event.shapes.as_slice())?;
    write_text(output, "</g>\n")
}

fn open_event<W: Write>(output: &mut W, row: usize) -> Result<()>
    ensures { OnOk result (Appends (W.contents output.old) (W.contents output.new) (event_front row)) }
{
    let number = row as u128 + 1;
    write!(output, "<g class=\"event\" data-row=\"{number}\">")
}

/// Writes these shapes.
pub(crate) fn write_shapes<W: Write>(output: &mut W, shapes: &[Shape]) -> Result<()>
    ensures { OnOk result (Appends (W.contents output.old) (W.contents output.new) (shapes_text shapes.now)) }
{
    for shape in shapes {
        write_shape(output, shape)?;
    }
    Ok(())
}

fn write_shape<W: Write>(output: &mut W, shape: &Shape) -> Result<()>
    ensures { OnOk result (Appends (W.contents output.old) (W.contents output.new) (shape_text shape.now)) }
{
    match shape {
        Shape::Bar { x, top, bottom } => write_bar(output, *x, *top, *bottom),
        Shape::State { at, half, name } => write_state(output, *at, *half, name.as_str()),
        Shape::Create { tail, head } => write_line(
            output,
            *tail,
            *head,
            " stroke-dasharray=\"5 3\" marker-end=\"url(#arrow-head)\"",
        ),
        Shape::NoRoute { tail, head } => write_no_route(output, *tail, *head),
        Shape::Text(text) => write_one(output, text),
    }
}

/// Writes a transition.
fn write_bar<W: Write>(output: &mut W, x: usize, top: usize, bottom: usize) -> Result<()>
    ensures { OnOk result (Appends (W.contents output.old) (W.contents output.new) (bar_text x top bottom)) }
{
    write!(
        output,
        "<path d=\"M{x},{top}m-4,0h8V{bottom}h-8z\" fill=\"#ddd\" stroke=\"#000\"/>"
    )
}

/// Writes a state: a hexagon, and its name.
fn write_state<W: Write>(output: &mut W, at: Point, half: usize, name: &str) -> Result<()>
    ensures { OnOk result (Appends (W.contents output.old) (W.contents output.new) (state_text at half name.now)) }
{
    let (x, y, level) = (at.x, at.y, half.saturating_sub(7));
    write!(
        output,
        "<g transform=\"translate({x},{y})\"><path class=\"state\" d=\"M-{half},0l7,-10h{level}h{level}l7,10l-7,10h-{level}h-{level}z\" fill=\"#eef3fb\" stroke=\"#000\"/><text y=\"4\" text-anchor=\"middle\" font-size=\"10.5\">{name}</text></g>"
    )
}

/// Writes an output without a route.
fn write_no_route<W: Write>(output: &mut W, tail: Point, head: Point) -> Result<()>
    ensures { OnOk result (Appends (W.contents output.old) (W.contents output.new) (no_route_text tail head)) }
{
    write_line(output, tail, head, "")?;
    write_disc(output, head, "")
}

/// Writes a line that looks so.
pub(crate) fn write_line<W: Write>(
    output: &mut W,
    tail: Point,
    head: Point,
    look: &str,
) -> Result<()>
    ensures { OnOk result (Appends (W.contents output.old) (W.contents output.new) (line_text tail head look.now)) }
{
    let (x, y, to_x, to_y) = (tail.x, tail.y, head.x, head.y);
    write!(
        output,
        "<path d=\"M{x},{y}L{to_x},{to_y}\" fill=\"none\" stroke=\"#000\"{look}/>"
    )
}

/// Writes a disc that looks so, where a signal goes no further.
pub(crate) fn write_disc<W: Write>(output: &mut W, at: Point, look: &str) -> Result<()>
    ensures { OnOk result (Appends (W.contents output.old) (W.contents output.new) (disc_text at look.now)) }
{
    let (x, y) = (at.x, at.y);
    write!(output, "<circle cx=\"{x}\" cy=\"{y}\" r=\"4\"{look}/>")
}
