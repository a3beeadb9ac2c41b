//! The SVG of a chart.
ghost use Rattle.std.specs.Prelude.{◌-◌, OnOk};
ghost use Rattle.std.specs.Io.KnownBytes.{Appends};
ghost use Rattle.sdl_chart_text.specs.Legends.{reason_of};
ghost use Rattle.sdl_chart_svg.specs.Svg.{frame_text, chart_front, title_text, part_text, range_text, heading_text, shapes_text, legend_text, chart_svg};

use crate::lifelines::{write_lifelines, write_names};
use crate::messages::write_messages;
use crate::shapes::{write_events, write_shapes};
use sdl_chart_drawing::Drawing;
use sdl_chart_page::ByOrigin;
use sdl_chart_text::Left;
use sdl_structure_parts::Structure;
use sdl_svg::{write_front, write_text};
use std::io::{Result, Write};

/// What stands at the head of a chart: the name of the system, how many events the run has, and from which one on and to before which
/// one they are drawn, counted from 0.
#[derive(Clone, Copy)]
pub struct Heading<'a> {
    pub system: &'a str,
    pub events: usize,
    pub first: usize,
    pub past: usize,
}

/// Writes the drawing as SVG: lifelines, states, events, messages, and names. A message whose item never arrives says where it was left,
/// by the names of the structure. Signs that are special in XML are written by their names.
pub fn write_chart_svg<W: Write>(
    output: &mut W,
    heading: &Heading,
    structure: &Structure,
    left: &ByOrigin<Left>,
    drawing: &Drawing,
) -> Result<()>
    ensures { OnOk result (Appends (W.contents output.old) (W.contents output.new) (chart_svg heading.now (reason_of structure.now left.now) drawing.now)) }
{
    write_begin(output, drawing.width, drawing.height)?;
    write_heading(output, heading)?;
    write_drawn(output, structure, left, drawing)?;
    write_legend(output, drawing.height)
}

/// Writes the front, the head of all arrows, and the frame.
fn write_begin<W: Write>(output: &mut W, width: usize, height: usize) -> Result<()>
    ensures { OnOk result (Appends (W.contents output.old) (W.contents output.new) (chart_front width height)) }
{
    write_front(output, width, height)?;
    write_frame(output, width.saturating_sub(16), height.saturating_sub(16))
}

fn write_frame<W: Write>(output: &mut W, width: usize, height: usize) -> Result<()>
    ensures { OnOk result (Appends (W.contents output.old) (W.contents output.new) (frame_text width height)) }
{
    write!(
        output,
        "<defs><marker id=\"arrow-head\" viewBox=\"0 0 9 7\" refX=\"9\" refY=\"3.5\" markerWidth=\"9\" markerHeight=\"7\" markerUnits=\"userSpaceOnUse\" orient=\"auto\"><path d=\"M0,0L9,3.5L0,7z\"/></marker></defs>\n<rect x=\"8\" y=\"8\" width=\"{width}\" height=\"{height}\" fill=\"none\" stroke=\"#000\"/>\n"
    )
}

/// Writes the name of the system, and which events are drawn. A name has letters, digits and underscores alone.
fn write_heading<W: Write>(output: &mut W, heading: &Heading) -> Result<()>
    ensures { OnOk result (Appends (W.contents output.old) (W.contents output.new) (heading_text heading.now)) }
{
    write_title(output, heading.system, heading.events)?;
    write_part(output, heading)?;
    write_text(output, "</text>\n")
}

fn write_title<W: Write>(output: &mut W, system: &str, events: usize) -> Result<()>
    ensures { OnOk result (Appends (W.contents output.old) (W.contents output.new) (title_text system.now events)) }
{
    write!(
        output,
        "<text x=\"18\" y=\"28\" font-size=\"14\" font-weight=\"bold\">msc {system}</text>\n<text x=\"18\" y=\"44\" font-size=\"10\" fill=\"#666\">{events} events"
    )
}

/// Writes which events are drawn, where these are not all.
fn write_part<W: Write>(output: &mut W, heading: &Heading) -> Result<()>
    ensures { OnOk result (Appends (W.contents output.old) (W.contents output.new) (part_text heading.now)) }
{
    if heading.first == 0 && heading.past == heading.events {
        Ok(())
    } else {
        write_range(output, heading.first, heading.past)
    }
}

fn write_range<W: Write>(output: &mut W, first: usize, past: usize) -> Result<()>
    ensures { OnOk result (Appends (W.contents output.old) (W.contents output.new) (range_text first past)) }
{
    let number = first as u128 + 1;
    write!(output, ", events {number} to {past}")
}

/// Writes all that is drawn.
fn write_drawn<W: Write>(
    output: &mut W,
    structure: &Structure,
    left: &ByOrigin<Left>,
    drawing: &Drawing,
) -> Result<()>
    ensures { OnOk result (Appends (W.contents output.old) (W.contents output.new) (shapes_text (reason_of structure.now left.now) drawing.now)) }
{
    write_lifelines(output, drawing.lifelines.as_slice())?;
    write_shapes(output, drawing.states.as_slice())?;
    write_events(output, drawing.events.as_slice())?;
    write_messages(output, structure, left, drawing.messages.as_slice())?;
    write_messages(output, structure, left, drawing.incoming.as_slice())?;
    write_names(
        output,
        drawing.lifelines.as_slice(),
        drawing.names.as_slice(),
    )
}

/// Writes what the signs mean, and the end.
fn write_legend<W: Write>(output: &mut W, height: usize) -> Result<()>
    ensures { OnOk result (Appends (W.contents output.old) (W.contents output.new) (legend_text height)) }
{
    let y = height.saturating_sub(18);
    write!(
        output,
        "<text x=\"18\" y=\"{y}\" font-size=\"9\" fill=\"#888\">arrow head: the signal enters the port &#183; bar: a transition &#183; &#9657; consumed later than it came &#183; &#9679; never arrives or discarded</text>\n</svg>\n"
    )
}
