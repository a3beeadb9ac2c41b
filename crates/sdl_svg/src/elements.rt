//! Attributes, and the elements of texts.
ghost use Rattle.std.specs.Prelude.{◌≡◌, ◌∷◌, [], OnOk, codes};
ghost use Rattle.std.specs.Io.KnownBytes.{Appends};
ghost use Rattle.sdl_svg.specs.Elements.{attribute_text, length_text, place_text, size_text, corner_text, style_end, text_front, label_text, letter_text, letters_text};

use std::io::{Result, Write};

/// Writes a text.
pub fn write_text<W: Write>(output: &mut W, text: &str) -> Result<()>
    ensures { OnOk result (Appends (W.contents output.old) (W.contents output.new) text.now) }
{
    write!(output, "{text}")
}

/// Writes an attribute.
pub fn write_attribute<W: Write>(output: &mut W, name: &str, value: &str) -> Result<()>
    ensures { OnOk result (Appends (W.contents output.old) (W.contents output.new) (attribute_text name.now value.now)) }
{
    write!(output, " {name}=\"{value}\"")
}

/// Writes an attribute that is a number of pixels.
fn write_length<W: Write>(output: &mut W, name: &str, value: usize) -> Result<()>
    ensures { OnOk result (Appends (W.contents output.old) (W.contents output.new) (length_text name.now value)) }
{
    write!(output, " {name}=\"{value}\"")
}

/// Writes where an element stands.
pub fn write_place<W: Write>(output: &mut W, x: usize, y: usize) -> Result<()>
    ensures { OnOk result (Appends (W.contents output.old) (W.contents output.new) (place_text x y)) }
{
    write_length(output, "x", x)?;
    write_length(output, "y", y)
}

/// Writes how large an element is.
pub fn write_size<W: Write>(output: &mut W, width: usize, height: usize) -> Result<()>
    ensures { OnOk result (Appends (W.contents output.old) (W.contents output.new) (size_text width height)) }
{
    write_length(output, "width", width)?;
    write_length(output, "height", height)
}

/// Writes a corner of a line or of an arrow head, behind this text.
pub fn write_corner<W: Write>(output: &mut W, before: &str, x: usize, y: usize) -> Result<()>
    ensures { OnOk result (Appends (W.contents output.old) (W.contents output.new) (corner_text before.now x y)) }
{
    write!(output, "{before}{x},{y}")
}

/// Writes the front of a text that stands here in this style.
pub fn open_text<W: Write>(output: &mut W, x: usize, y: usize, style: &str) -> Result<()>
    ensures { OnOk result (Appends (W.contents output.old) (W.contents output.new) (text_front x y style.now)) }
{
    write_text(output, "<text")?;
    write_place(output, x, y)?;
    write_style(output, style)
}

fn write_style<W: Write>(output: &mut W, style: &str) -> Result<()>
    ensures { OnOk result (Appends (W.contents output.old) (W.contents output.new) (style_end style.now)) }
{
    write!(output, " {style}>")
}

/// Writes a text that stands here in this style, and has no sign that is special in XML.
pub fn write_label<W: Write>(
    output: &mut W,
    x: usize,
    y: usize,
    style: &str,
    words: &str,
) -> Result<()>
    ensures { OnOk result (Appends (W.contents output.old) (W.contents output.new) (label_text x y style.now words.now)) }
{
    open_text(output, x, y, style)?;
    write_text(output, words)?;
    close_text(output)
}

/// Writes the end of a text.
pub fn close_text<W: Write>(output: &mut W) -> Result<()>
    ensures { OnOk result (Appends (W.contents output.old) (W.contents output.new) (codes "</text>\n")) }
{
    write_text(output, "</text>\n")
}

/// Writes the letters of a text, with the names of those that are special in XML.
pub fn write_letters<W: Write>(output: &mut W, letters: &[u8]) -> Result<()>
    ensures { OnOk result (Appends (W.contents output.old) (W.contents output.new) (letters_text letters.now)) }
{
    for letter in letters {
        write_letter(output, *letter)?;
    }
    Ok(())
}

fn write_letter<W: Write>(output: &mut W, letter: u8) -> Result<()>
    ensures { OnOk result (Appends (W.contents output.old) (W.contents output.new) (letter_text letter)) }
{
    if letter == b'<' {
        write_text(output, "&lt;")
    } else if letter == b'>' {
        write_text(output, "&gt;")
    } else if letter == b'&' {
        write_text(output, "&amp;")
    } else {
        write_byte(output, letter)
    }
}

fn write_byte<W: Write>(output: &mut W, byte: u8) -> Result<()>
    ensures { OnOk result (Appends (W.contents output.old) (W.contents output.new) (byte ∷ [])) }
{
    output.write_all(&[byte])
}
