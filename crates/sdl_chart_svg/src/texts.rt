//! The texts of signals and remarks.
ghost use Rattle.std.specs.Prelude.{◌≡◌, ◌<◌, OnOk, length, nat_lt};
ghost use Rattle.std.specs.Io.KnownBytes.{Appends};
ghost use Rattle.sdl_chart_svg.specs.Texts.{style_text, sign_text, is_cut, cut_text, shown_text, words_text, text_text, texts_text};

use sdl_chart_drawing::{SIGNAL_LETTERS, Style, Text};
use sdl_svg::{close_text, open_text, write_letters, write_text};
use std::io::{Result, Write};

/// Writes these texts.
pub(crate) fn write_texts<W: Write>(output: &mut W, texts: &[Text]) -> Result<()>
    ensures { OnOk result (Appends (W.contents output.old) (W.contents output.new) (texts_text texts.now)) }
{
    for text in texts {
        write_one(output, text)?;
    }
    Ok(())
}

/// Writes a text of the drawing. A signal that is too long is cut, and stands whole in a title, which a viewer shows at the text.
pub(crate) fn write_one<W: Write>(output: &mut W, text: &Text) -> Result<()>
    ensures { OnOk result (Appends (W.contents output.old) (W.contents output.new) (text_text text.now)) }
{
    open_text(output, text.at.x, text.at.y, style_of(text.style))?;
    write_words(output, text.style, text.text.as_str())?;
    close_text(output)
}

/// Writes the words of a text. A triangle stands before a signal that waited.
fn write_words<W: Write>(output: &mut W, style: Style, words: &str) -> Result<()>
    ensures { OnOk result (Appends (W.contents output.old) (W.contents output.new) (words_text style words.now)) }
{
    write_text(output, sign_of(style))?;
    write_shown(output, style, words)
}

fn write_shown<W: Write>(output: &mut W, style: Style, words: &str) -> Result<()>
    ensures { OnOk result (Appends (W.contents output.old) (W.contents output.new) (shown_text style words.now)) }
{
    if is_cut(style, words) {
        write_cut(output, words.as_bytes())
    } else {
        write_letters(output, words.as_bytes())
    }
}

/// Whether the text is a signal that has no room.
fn is_cut(style: Style, words: &str) -> bool
    ensures { result ≡ is_cut style words.now }
{
    match style {
        Style::Begin => is_long(words),
        Style::Middle => is_long(words),
        Style::End => is_long(words),
        Style::Waited => is_long(words),
        Style::Remark => false,
    }
}

fn is_long(words: &str) -> bool
    ensures { result ≡ nat_lt 20 (length words.now) }
{
    words.len() > SIGNAL_LETTERS
}

/// Writes the beginning of a text, dots, and all of it as a title.
fn write_cut<W: Write>(output: &mut W, words: &[u8]) -> Result<()>
    requires { 20 < length words.now }
    ensures { OnOk result (Appends (W.contents output.old) (W.contents output.new) (cut_text words.now)) }
{
    write_letters(output, &words[..SIGNAL_LETTERS])?;
    write_text(output, "&#8230;<title>")?;
    write_letters(output, words)?;
    write_text(output, "</title>")
}

/// What stands before a text.
fn sign_of(style: Style) -> &'static str
    ensures { result.now ≡ sign_text style }
{
    match style {
        Style::Begin => "",
        Style::Middle => "",
        Style::End => "",
        Style::Waited => "&#9657; ",
        Style::Remark => "",
    }
}

/// How a text looks.
fn style_of(style: Style) -> &'static str
    ensures { result.now ≡ style_text style }
{
    match style {
        Style::Begin => "text-anchor=\"start\" font-size=\"10.5\"",
        Style::Middle => "text-anchor=\"middle\" font-size=\"10.5\"",
        Style::End => "text-anchor=\"end\" font-size=\"10.5\"",
        Style::Waited => "text-anchor=\"start\" font-size=\"10\" fill=\"#a04000\"",
        Style::Remark => {
            "text-anchor=\"start\" font-size=\"9.5\" fill=\"#666\" font-style=\"italic\""
        }
    }
}
