//! The command `structure` of programs: the block diagram of a structure.
ghost use Rattle.std.specs.Prelude.{◌≡◌, ◌⊎◌, ℕ, List};
ghost use Rattle.std.specs.Io.KnownBytes.{Keeps};
ghost use Rattle.sdl_drawing_text.specs.Commands.{HasDrawn, HasPrintedDot, HasShown, IsShown};

use crate::dot::write_dot;
use crate::svg::write_svg;
use sdl_app_command::errors::write_error;
use sdl_app_command::status::REFUSED;
use sdl_app_file_commands::commands::{checked_file, written};
use sdl_app_file_commands::files::{FileRead, read_file};
use sdl_drawing::draw;
use sdl_explaining::explain;
use sdl_structure::FileFault;
use sdl_structure_parts::Structure;
use std::alloc::Global;
use std::io::Write;
use std::rt::Files;

/// The form of a block diagram.
#[derive(Clone, Copy, Debug, PartialEq, Eq)]
pub enum Form {
    /// A drawing, for a browser.
    Svg,
    /// Graphviz' language.
    Dot,
}

/// Shows the structure that the file of this path declares, in this form, and answers the exit status. A file that can't be read, or
/// breaks a rule, is refused: then nothing but a line on standard error is written.
pub fn structure_at<H: Files, W: Write, E: Write>(
    rt: &H,
    alloc: Global,
    path: &str,
    form: Form,
    output: &mut W,
    errors: &mut E,
) -> u8
    ensures shown { (file : List ℕ) × IsShown form file (W.contents output.old) (W.contents output.new) result }
    ensures refused { result ≡ 1 → output.new ≡ output.old }
    ensures silent { result ≡ 0 → Keeps (E.contents errors.old) (E.contents errors.new) }
{
    match read_file(rt, alloc, path) {
        FileRead::Bytes(file) => structure_command(alloc, file.as_slice(), form, output, errors),
        FileRead::CannotRead => {
            write_error(errors, "file: cannot read");
            REFUSED
        }
        FileRead::Memory => {
            write_error(errors, FileFault::Memory);
            REFUSED
        }
    }
}

/// Shows the structure that these bytes of a file declare.
fn structure_command<W: Write, E: Write>(
    alloc: Global,
    file: &[u8],
    form: Form,
    output: &mut W,
    errors: &mut E,
) -> u8
    ensures done { IsShown form file.now (W.contents output.old) (W.contents output.new) result }
    ensures refused { result ≡ 1 → output.new ≡ output.old }
    ensures silent { result ≡ 0 → Keeps (E.contents errors.old) (E.contents errors.new) }
{
    let Some(checked) = checked_file(alloc, file, &mut *errors) else {
        explain(alloc, file, errors);
        return REFUSED;
    };
    show(alloc, checked.structure(), form, output, errors)
}

/// Shows the structure in this form, and answers the exit status.
fn show<W: Write, E: Write>(
    alloc: Global,
    structure: &Structure,
    form: Form,
    output: &mut W,
    errors: &mut E,
) -> u8
    ensures done { (result ≡ 1) ⊎ HasShown form structure.now (W.contents output.old) (W.contents output.new) result }
    ensures refused { result ≡ 1 → output.new ≡ output.old }
    ensures silent { result ≡ 0 → Keeps (E.contents errors.old) (E.contents errors.new) }
{
    match form {
        Form::Svg => draw_structure(alloc, structure, output, errors),
        Form::Dot => print_dot(structure, output, errors),
    }
}

/// Draws the structure, writes the drawing as SVG, and answers the exit status. Where there is no drawing, nothing but a line on
/// standard error is written.
fn draw_structure<W: Write, E: Write>(
    alloc: Global,
    structure: &Structure,
    output: &mut W,
    errors: &mut E,
) -> u8
    ensures done { (result ≡ 1) ⊎ HasDrawn structure.now (W.contents output.old) (W.contents output.new) result }
    ensures refused { result ≡ 1 → output.new ≡ output.old }
    ensures silent { result ≡ 0 → Keeps (E.contents errors.old) (E.contents errors.new) }
{
    match draw(alloc, structure) {
        Ok(drawing) => {
            let text = write_svg(output, structure, &drawing);
            written(text, output, errors)
        }
        Err(fault) => {
            write_error(errors, fault);
            REFUSED
        }
    }
}

/// Writes the structure in Graphviz' language, and answers the exit status.
fn print_dot<W: Write, E: Write>(structure: &Structure, output: &mut W, errors: &mut E) -> u8
    ensures done { HasPrintedDot structure.now (W.contents output.old) (W.contents output.new) result }
    ensures status { (result ≡ 0) ⊎ (result ≡ 3) }
    ensures silent { result ≡ 0 → Keeps (E.contents errors.old) (E.contents errors.new) }
{
    let text = write_dot(output, structure);
    written(text, output, errors)
}
