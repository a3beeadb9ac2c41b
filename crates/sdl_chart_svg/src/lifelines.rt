//! The lifelines of a chart, and their names.
ghost use Rattle.std.specs.Prelude.{◌≡◌, OnOk};
ghost use Rattle.std.specs.Io.KnownBytes.{Appends};
ghost use Rattle.sdl_chart_svg.specs.Lifelines.{dash_text, end_text, stem_text, waiting_text, lifeline_text, lifelines_text, again_text, reminder_text, reminders_text, names_text};

use sdl_chart_drawing::Lifeline;
use std::io::{Result, Write};

/// Writes these lifelines.
pub(crate) fn write_lifelines<W: Write>(output: &mut W, lines: &[Lifeline]) -> Result<()>
    ensures { OnOk result (Appends (W.contents output.old) (W.contents output.new) (lifelines_text lines.now)) }
{
    for line in lines {
        write_lifeline(output, line)?;
    }
    Ok(())
}

/// Writes a lifeline, and how many signals wait at its end.
fn write_lifeline<W: Write>(output: &mut W, line: &Lifeline) -> Result<()>
    ensures { OnOk result (Appends (W.contents output.old) (W.contents output.new) (lifeline_text line.now)) }
{
    write_stem(output, line)?;
    write_waiting(output, line.waiting, line.x, line.bottom)
}

/// Writes a lifeline: its line, the sign at its end, and a box with its name and what stands over it. Names have letters, digits,
/// underscores and colons alone.
fn write_stem<W: Write>(output: &mut W, line: &Lifeline) -> Result<()>
    ensures { OnOk result (Appends (W.contents output.old) (W.contents output.new) (stem_text line.now)) }
{
    let (x, top, half, width) = (line.x, line.top, line.half, line.half as u128 * 2);
    let (height, over, name) = (
        line.bottom.saturating_sub(top),
        line.over.as_str(),
        line.name.as_str(),
    );
    let (dash, end) = (dash_of(line.dotted), end_of(line.dotted, line.stopped));
    write!(
        output,
        "<g transform=\"translate({x},{top})\"><path d=\"M0,0V{height}\" stroke=\"#000\"{dash}/><path d=\"M0,{height}{end}/><rect x=\"-{half}\" y=\"-10\" width=\"{width}\" height=\"20\" fill=\"#fff\" stroke=\"#000\"/><text y=\"-14\" text-anchor=\"middle\" font-size=\"9\" fill=\"#666\">{over}</text><text y=\"4\" text-anchor=\"middle\" font-size=\"11\" font-weight=\"bold\">{name}</text></g>\n"
    )
}

fn dash_of(dotted: bool) -> &'static str
    ensures { result.now ≡ dash_text dotted }
{
    if dotted {
        " stroke-dasharray=\"2 3\""
    } else {
        ""
    }
}

/// The sign at the end of a lifeline: of an instance a cross where it stopped, and else a bar.
fn end_of(dotted: bool, stopped: bool) -> &'static str
    ensures { result.now ≡ end_text dotted stopped }
{
    if dotted {
        "\""
    } else if stopped {
        "m-7,-7l14,14m0,-14l-14,14\" stroke=\"#000\" stroke-width=\"1.6\""
    } else {
        "m-24,0h48v6h-48z\""
    }
}

/// Writes how many signals wait in the port at the end, where some do.
fn write_waiting<W: Write>(output: &mut W, waiting: usize, x: usize, y: usize) -> Result<()>
    ensures { OnOk result (Appends (W.contents output.old) (W.contents output.new) (waiting_text waiting x y)) }
{
    if waiting == 0 {
        Ok(())
    } else {
        write!(
            output,
            "<text x=\"{x}\" y=\"{y}\" dy=\"18\" text-anchor=\"middle\" font-size=\"9.5\" fill=\"#666\" font-style=\"italic\">{waiting} waiting</text>\n"
        )
    }
}

/// Writes the names of the lifelines once more at each of these heights.
pub(crate) fn write_names<W: Write>(
    output: &mut W,
    lines: &[Lifeline],
    heights: &[usize],
) -> Result<()>
    ensures { OnOk result (Appends (W.contents output.old) (W.contents output.new) (names_text lines.now heights.now)) }
{
    for y in heights {
        write_reminders(output, lines, *y)?;
    }
    Ok(())
}

fn write_reminders<W: Write>(output: &mut W, lines: &[Lifeline], y: usize) -> Result<()>
    ensures { OnOk result (Appends (W.contents output.old) (W.contents output.new) (reminders_text y lines.now)) }
{
    for line in lines {
        write_reminder(output, line, y)?;
    }
    Ok(())
}

/// Writes the name of a lifeline at this height, where the lifeline is there.
fn write_reminder<W: Write>(output: &mut W, line: &Lifeline, y: usize) -> Result<()>
    ensures { OnOk result (Appends (W.contents output.old) (W.contents output.new) (reminder_text y line.now)) }
{
    if line.top < y && y < line.bottom {
        write_again(output, line.x, y, line.name.as_str())
    } else {
        Ok(())
    }
}

fn write_again<W: Write>(output: &mut W, x: usize, y: usize, name: &str) -> Result<()>
    ensures { OnOk result (Appends (W.contents output.old) (W.contents output.new) (again_text x y name.now)) }
{
    write!(
        output,
        "<text x=\"{x}\" y=\"{y}\" text-anchor=\"middle\" font-size=\"10\" fill=\"#2a5db0\" font-style=\"italic\">{name}</text>\n"
    )
}
