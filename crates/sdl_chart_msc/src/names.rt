//! Names in the textual form of Z.120. A keyword gets an underscore behind it.
ghost use Rattle.std.specs.Prelude.{◌≡◌, ◌++◌, ◌==◌, OnOk};
ghost use Rattle.std.specs.Io.KnownBytes.{Appends};
ghost use Rattle.std.specs.List.{list_any, slice_split};
ghost use Rattle.sdl_chart_msc.specs.Names.{space, are_underscores, is_word, is_keyword, sign_text, name_text};

use std::io::{Result, Write};

/// The keywords of the textual form of Z.120, those of its earlier editions too.
pub const KEYWORDS: &str =
    "action after all alt and any as before begin block bottom by call channel comment \
    concurrent condition connect create data dcl decomposed def empty end endafter endbefore endcall endconcurrent \
    endexpr endinstance endmethod endmsc endreceive endsubmsc endsuspension env equalpar escape exc expr external \
    finalized found from gate in inf inherits initial inline inst instance int_boundary label language loop lost \
    method msc mscdocument mscexpr msg nestable nonnestable not offset opt or order origin otherwise out par \
    parenthesis process provided receive redefined reference related remove replyin replyout reset seq service set \
    setting shared signal space starttimer stop stoptimer submsc subst substructure suspension system text time \
    timeout timer to top undef using utilities value variable variables via virtual when wildcards with";

/// Whether there is nothing but underscores.
fn are_underscores(text: &[u8]) -> bool
    ensures { result ≡ are_underscores text.now }
{
    match text {
        [] => true,
        [first, rest @ ..] => *first == b'_' && are_underscores(rest),
    }
}

/// Whether the name is the word in any case, with or without underscores behind it.
fn is_word(word: &[u8], name: &[u8]) -> bool
    ensures { result ≡ is_word word.now name.now }
{
    match word {
        [] => are_underscores(name),
        [letter, letters @ ..] => match name {
            [] => false,
            [first, rest @ ..] => *letter == first.to_ascii_lowercase() && is_word(letters, rest),
        },
    }
}

/// Whether the name is one of the words, between which stand spaces.
fn is_among(words: &[u8], name: &[u8]) -> bool
    ensures { result ≡ list_any (λ word. is_word word name.now) (slice_split (λ b. b == space) words.now) }
{
    words
        .split(|byte| *byte == b' ')
        .any(|word| is_word(word, name))
}

/// Whether the name is a keyword.
fn is_keyword(name: &str) -> bool
    ensures { result ≡ is_keyword name.now }
{
    is_among(KEYWORDS.as_bytes(), name.as_bytes())
}

/// What stands behind a name.
fn sign_of(name: &str) -> &'static str
    ensures { result.now ≡ sign_text name.now }
{
    if is_keyword(name) { "_" } else { "" }
}

/// Writes a name behind a text.
pub(crate) fn write_name<W: Write>(output: &mut W, before: &str, name: &str) -> Result<()>
    ensures { OnOk result (Appends (W.contents output.old) (W.contents output.new) (before.now ++ name_text name.now)) }
{
    let sign = sign_of(name);
    write!(output, "{before}{name}{sign}")
}

/// Writes a name between two texts.
pub(crate) fn write_between<W: Write>(
    output: &mut W,
    before: &str,
    name: &str,
    end: &str,
) -> Result<()>
    ensures { OnOk result (Appends (W.contents output.old) (W.contents output.new) (before.now ++ name_text name.now ++ end.now)) }
{
    write_name(output, before, name)?;
    write!(output, "{end}")
}
