//! The messages of a chart.
ghost use Rattle.std.specs.Prelude.{◌≡◌, OnOk};
ghost use Rattle.std.specs.Io.KnownBytes.{Appends};
ghost use Rattle.sdl_chart_text.specs.Legends.{reason_of};
ghost use Rattle.sdl_chart_svg.specs.Messages.{class_text, item_text, to_text, around_text, way_text, look_text, tip_text, arrow_text, drawn_text, is_lost, is_left, reason_front, note_text, left_note, message_text, messages_text};

use crate::shapes::{write_disc, write_line};
use crate::texts::write_texts;
use sdl_chart_drawing::{Message, Point, Tip};
use sdl_chart_page::ByOrigin;
use sdl_chart_text::{Left, write_reason};
use sdl_signal::Origin;
use sdl_structure_parts::Structure;
use sdl_svg::{close_text, open_text, write_text};
use std::io::{Result, Write};

/// Writes these messages, with the places where signals were left that did not arrive.
pub(crate) fn write_messages<W: Write>(
    output: &mut W,
    structure: &Structure,
    left: &ByOrigin<Left>,
    messages: &[Message],
) -> Result<()>
    ensures { OnOk result (Appends (W.contents output.old) (W.contents output.new) (messages_text (reason_of structure.now left.now) messages.now)) }
{
    for message in messages {
        write_message(output, structure, left, message)?;
    }
    Ok(())
}

/// Writes a message as a group with its item and with the numbers of its events, which count from 1. One that is hidden shows nothing.
fn write_message<W: Write>(
    output: &mut W,
    structure: &Structure,
    left: &ByOrigin<Left>,
    message: &Message,
) -> Result<()>
    ensures { OnOk result (Appends (W.contents output.old) (W.contents output.new) (message_text (reason_of structure.now left.now) message.now)) }
{
    write_item(output, message.tip, message.origin, message.from)?;
    write_to(output, message.to)?;
    write_drawn(output, message)?;
    write_left(output, structure, left, message)?;
    write_text(output, "</g>\n")
}

/// Writes the front of a message's group.
fn write_item<W: Write>(output: &mut W, tip: Tip, origin: Origin, from: usize) -> Result<()>
    ensures { OnOk result (Appends (W.contents output.old) (W.contents output.new) (item_text tip origin from)) }
{
    let class = class_of(tip);
    let (worker, number, row) = (origin.worker, origin.number, from as u128 + 1);
    write!(
        output,
        "<g class=\"{class}\" data-item=\"{worker}.{number}\" data-from=\"{row}\""
    )
}

fn class_of(tip: Tip) -> &'static str
    ensures { result.now ≡ class_text tip }
{
    match tip {
        Tip::Arrow => "message",
        Tip::Lost => "lost",
        Tip::Later => "later",
        Tip::Hidden => "hidden",
    }
}

/// Writes the end of the front of a message's group, with the event where it arrives.
fn write_to<W: Write>(output: &mut W, to: Option<usize>) -> Result<()>
    ensures { OnOk result (Appends (W.contents output.old) (W.contents output.new) (to_text to)) }
{
    match to {
        Some(row) => {
            let number = row as u128 + 1;
            write!(output, " data-to=\"{number}\">")
        }
        None => write_text(output, ">"),
    }
}

/// Writes what is drawn of a message: its line, and its texts.
fn write_drawn<W: Write>(output: &mut W, message: &Message) -> Result<()>
    ensures { OnOk result (Appends (W.contents output.old) (W.contents output.new) (drawn_text message.now)) }
{
    match message.tip {
        Tip::Arrow => write_shown(output, message),
        Tip::Lost => write_shown(output, message),
        Tip::Later => write_shown(output, message),
        Tip::Hidden => Ok(()),
    }
}

fn write_shown<W: Write>(output: &mut W, message: &Message) -> Result<()>
    ensures { OnOk result (Appends (W.contents output.old) (W.contents output.new) (arrow_text message.now)) }
{
    write_way(output, message.tail, message.head, look_of(message.tip))?;
    write_tip(output, message.tip, message.head)?;
    write_texts(output, message.texts.as_slice())
}

/// Writes the line of a message. Where both ends are on one lifeline, it goes around at the right.
fn write_way<W: Write>(output: &mut W, tail: Point, head: Point, look: &str) -> Result<()>
    ensures { OnOk result (Appends (W.contents output.old) (W.contents output.new) (way_text tail head look.now)) }
{
    if tail.x == head.x {
        write_around(output, tail, head, look)
    } else {
        write_line(output, tail, head, look)
    }
}

fn write_around<W: Write>(output: &mut W, tail: Point, head: Point, look: &str) -> Result<()>
    ensures { OnOk result (Appends (W.contents output.old) (W.contents output.new) (around_text tail head look.now)) }
{
    let (x, y, to_x, to_y) = (tail.x, tail.y, head.x, head.y);
    write!(
        output,
        "<path d=\"M{x},{y}h28V{to_y}H{to_x}\" fill=\"none\" stroke=\"#000\"{look}/>"
    )
}

/// How the line of a message looks.
fn look_of(tip: Tip) -> &'static str
    ensures { result.now ≡ look_text tip }
{
    match tip {
        Tip::Arrow => " marker-end=\"url(#arrow-head)\"",
        Tip::Lost => "",
        Tip::Later => "",
        Tip::Hidden => "",
    }
}

/// Writes what stands at the end of a line without an arrow head.
fn write_tip<W: Write>(output: &mut W, tip: Tip, at: Point) -> Result<()>
    ensures { OnOk result (Appends (W.contents output.old) (W.contents output.new) (tip_text tip at)) }
{
    match tip {
        Tip::Lost => write_disc(output, at, ""),
        Tip::Later => write_disc(output, at, " fill=\"#fff\" stroke=\"#000\""),
        Tip::Arrow => Ok(()),
        Tip::Hidden => Ok(()),
    }
}

/// Writes where the item of a message was left, if it never arrives.
fn write_left<W: Write>(
    output: &mut W,
    structure: &Structure,
    left: &ByOrigin<Left>,
    message: &Message,
) -> Result<()>
    ensures { OnOk result (Appends (W.contents output.old) (W.contents output.new) (left_note (reason_of structure.now left.now) message.now)) }
{
    if is_left(message.tip, message.to) {
        write_note(output, structure, left, message.origin, message.head)
    } else {
        Ok(())
    }
}

/// Whether the item of a message never arrives, and the message is drawn.
fn is_left(tip: Tip, to: Option<usize>) -> bool
    ensures { result ≡ is_left tip to }
{
    match to {
        Some(_) => false,
        None => is_lost(tip),
    }
}

fn is_lost(tip: Tip) -> bool
    ensures { result ≡ is_lost tip }
{
    match tip {
        Tip::Lost => true,
        Tip::Arrow => false,
        Tip::Later => false,
        Tip::Hidden => false,
    }
}

/// Writes where the item of an output was left, behind the end of its line. Names have letters, digits and underscores alone.
fn write_note<W: Write>(
    output: &mut W,
    structure: &Structure,
    left: &ByOrigin<Left>,
    origin: Origin,
    at: Point,
) -> Result<()>
    ensures { OnOk result (Appends (W.contents output.old) (W.contents output.new) (note_text at (reason_of structure.now left.now origin))) }
{
    open_reason(output, at)?;
    write_reason(output, structure, left, origin)?;
    close_text(output)
}

fn open_reason<W: Write>(output: &mut W, at: Point) -> Result<()>
    ensures { OnOk result (Appends (W.contents output.old) (W.contents output.new) (reason_front at)) }
{
    open_text(
        output,
        at.x,
        at.y,
        "dx=\"10\" dy=\"8\" font-size=\"9.5\" fill=\"#666\" font-style=\"italic\"",
    )
}
