//! The frames of agents, and their titles.
ghost use Rattle.std.specs.Prelude.{◌≡◌, ◌++◌, OnOk, codes, flat_map};
ghost use Rattle.std.specs.Io.KnownBytes.{Appends};
ghost use Rattle.sdl_app_file_commands.specs.Texts.{owner_text};
ghost use Rattle.sdl_drawing_text.specs.Frames.{frame_front, agent_text, frame_end, frame_text, frames_text, scope_words, set_title, title_words, title_style, title_text, titles_text};
ghost use Rattle.sdl_svg.specs.Elements.{text_front};

use crate::elements::{write_rect, write_set_words};
use sdl_app_file_commands::names::{block_name, set_name};
use sdl_drawing::{Drawing, Frame, Point};
use sdl_signal::SetId;
use sdl_structure_parts::{Owner, Structure};
use sdl_svg::{close_text, open_text, write_attribute, write_text};
use std::io::{Result, Write};

/// Writes the frames of all agents.
pub(crate) fn write_frames<W: Write>(
    output: &mut W,
    structure: &Structure,
    drawing: &Drawing,
) -> Result<()>
    ensures { OnOk result (Appends (W.contents output.old) (W.contents output.new) (frames_text structure.now drawing.now.frames.items)) }
{
    for frame in drawing.frames.as_slice() {
        write_frame(output, structure, frame)?;
    }
    Ok(())
}

/// Writes a frame.
fn write_frame<W: Write>(output: &mut W, structure: &Structure, frame: &Frame) -> Result<()>
    ensures { OnOk result (Appends (W.contents output.old) (W.contents output.new) (frame_text structure.now frame.now)) }
{
    open_frame(output, frame.agent)?;
    write_agent(output, structure, frame.agent)?;
    write_rect(output, frame.rect)?;
    close_frame(output, frame.agent)
}

/// Writes the front of a frame: the kind of its agent.
fn open_frame<W: Write>(output: &mut W, agent: Owner) -> Result<()>
    ensures { OnOk result (Appends (W.contents output.old) (W.contents output.new) (frame_front agent)) }
{
    match agent {
        Owner::System => write_text(output, "<rect class=\"system\""),
        Owner::Block(_) => write_text(output, "<rect class=\"block\""),
        Owner::Set(_) => write_text(output, "<rect class=\"set\""),
    }
}

/// Writes the name of an agent.
fn write_agent<W: Write>(output: &mut W, structure: &Structure, agent: Owner) -> Result<()>
    ensures { OnOk result (Appends (W.contents output.old) (W.contents output.new) (agent_text structure.now agent)) }
{
    write_attribute(output, "data-agent", agent_name(structure, agent))
}

/// The name of an agent; the system is `env`.
fn agent_name(structure: &Structure, agent: Owner) -> &str
    ensures { result.now ≡ owner_text structure.now agent }
{
    match agent {
        Owner::System => "env",
        Owner::Block(block) => block_name(structure, block),
        Owner::Set(set) => set_name(structure, set),
    }
}

/// Writes how a frame looks, and its end. A set's has round corners.
fn close_frame<W: Write>(output: &mut W, agent: Owner) -> Result<()>
    ensures { OnOk result (Appends (W.contents output.old) (W.contents output.new) (frame_end agent)) }
{
    match agent {
        Owner::System => write_text(
            output,
            " fill=\"#fff\" stroke=\"#000\" stroke-width=\"2\"/>\n",
        ),
        Owner::Block(_) => write_text(
            output,
            " fill=\"#fff\" stroke=\"#000\" stroke-width=\"1.3\"/>\n",
        ),
        Owner::Set(_) => write_text(
            output,
            " rx=\"12\" fill=\"#f6f8fc\" stroke=\"#000\" stroke-width=\"1.3\"/>\n",
        ),
    }
}

/// Writes the titles of all frames.
pub(crate) fn write_titles<W: Write>(
    output: &mut W,
    structure: &Structure,
    drawing: &Drawing,
) -> Result<()>
    ensures { OnOk result (Appends (W.contents output.old) (W.contents output.new) (titles_text structure.now drawing.now.frames.items)) }
{
    for frame in drawing.frames.as_slice() {
        write_title(output, structure, frame)?;
    }
    Ok(())
}

/// Writes the title of a frame.
fn write_title<W: Write>(output: &mut W, structure: &Structure, frame: &Frame) -> Result<()>
    ensures { OnOk result (Appends (W.contents output.old) (W.contents output.new) (title_text structure.now frame.now)) }
{
    open_title(output, frame.name, frame.agent)?;
    write_words(output, structure, frame.agent)?;
    close_text(output)
}

/// Writes the front of a title: where it stands, and how it looks.
fn open_title<W: Write>(output: &mut W, at: Point, agent: Owner) -> Result<()>
    ensures { OnOk result (Appends (W.contents output.old) (W.contents output.new) (text_front at.x at.y (title_style agent))) }
{
    open_text(output, at.x, at.y, style_of(agent))
}

/// How a title looks. A set's has its middle at its place, and each other ends there.
fn style_of(agent: Owner) -> &'static str
    ensures { result.now ≡ title_style agent }
{
    match agent {
        Owner::System => "text-anchor=\"end\" font-size=\"11\" font-weight=\"bold\"",
        Owner::Block(_) => "text-anchor=\"end\" font-size=\"11\" font-weight=\"bold\"",
        Owner::Set(_) => "text-anchor=\"middle\" font-size=\"11\" font-weight=\"bold\"",
    }
}

/// Writes the words of a title: the kind and the name of the agent. Those of a set are its name and its numbers of instances.
fn write_words<W: Write>(output: &mut W, structure: &Structure, agent: Owner) -> Result<()>
    ensures { OnOk result (Appends (W.contents output.old) (W.contents output.new) (title_words structure.now agent)) }
{
    match agent {
        Owner::System => write_scope(output, "system", structure.system()),
        Owner::Block(block) => write_scope(output, "block", block_name(structure, block)),
        Owner::Set(set) => write_set(output, structure, set),
    }
}

fn write_scope<W: Write>(output: &mut W, kind: &str, name: &str) -> Result<()>
    ensures { OnOk result (Appends (W.contents output.old) (W.contents output.new) (scope_words kind.now name.now)) }
{
    write!(output, "{kind} {name}")
}

fn write_set<W: Write>(output: &mut W, structure: &Structure, set: SetId) -> Result<()>
    ensures { OnOk result (Appends (W.contents output.old) (W.contents output.new) (set_title structure.now set)) }
{
    match structure.sets().get(set.0 as usize) {
        Some(set) => write_set_words(output, set),
        None => Ok(()),
    }
}
