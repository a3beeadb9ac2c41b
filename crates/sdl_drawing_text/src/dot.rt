//! A structure in Graphviz' language, for who wants to move things: frames are clusters, gates are small boxes in them, and
//! channels are edges.
ghost use Rattle.std.specs.Prelude.{OnOk};
ghost use Rattle.std.specs.Io.KnownBytes.{Appends};
ghost use Rattle.sdl_drawing_text.specs.Written.{Adds};
ghost use Rattle.sdl_drawing_text.specs.Dot.{IsDot, dot_head, dot_front, look_text};

use crate::clusters::write_system;
use crate::edges::write_edges;
use sdl_structure_parts::Structure;
use sdl_svg::write_text;
use std::io::{Result, Write};

/// Writes the structure in Graphviz' language. All names stand in quotes.
pub fn write_dot<W: Write>(output: &mut W, structure: &Structure) -> Result<()>
    ensures { OnOk result (Adds (IsDot structure.now) (W.contents output.old) (W.contents output.new)) }
{
    write_front(output, structure)?;
    write_system(output, structure)?;
    write_edges(output, structure, structure.channels())?;
    write_text(output, "}\n")
}

fn write_front<W: Write>(output: &mut W, structure: &Structure) -> Result<()>
    ensures { OnOk result (Appends (W.contents output.old) (W.contents output.new) (dot_front structure.now)) }
{
    write_head(output, structure)?;
    write_look(output)
}

fn write_head<W: Write>(output: &mut W, structure: &Structure) -> Result<()>
    ensures { OnOk result (Appends (W.contents output.old) (W.contents output.new) (dot_head structure.now)) }
{
    let system = structure.system();
    writeln!(output, "digraph \"{system}\" {{")
}

/// Writes the lines before the clusters.
fn write_look<W: Write>(output: &mut W) -> Result<()>
    ensures { OnOk result (Appends (W.contents output.old) (W.contents output.new) look_text) }
{
    write_text(
        output,
        "  graph [rankdir=LR, compound=true, fontname=\"DejaVu Sans\", fontsize=12, nodesep=0.35, ranksep=0.9, labeljust=l];\n",
    )?;
    write_text(
        output,
        "  node [fontname=\"DejaVu Sans\", fontsize=10, shape=box, margin=\"0.08,0.04\"];\n",
    )?;
    write_text(
        output,
        "  edge [fontname=\"DejaVu Sans\", fontsize=9, arrowsize=0.7];\n",
    )
}
