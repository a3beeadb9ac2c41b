//! The words that a program was started with.
ghost use Rattle.std.specs.Prelude.{◌≡◌, IfOk, map, drop, string_bytes};

use std::alloc::{AllocError, Global};
use std::env;
use std::io::ErrorKind;
use std::rt::Env;

/// The words after the first.
pub fn words_behind_the_name(alloc: Global, words: &[String]) -> Result<Vec<&str>, AllocError>
    ensures { IfOk result (λ shown. map (λ w. w.now) shown.items ≡ drop 1 (map string_bytes words.now)) }
{
    match words {
        [] => Ok(Vec::new(alloc)),
        [_, rest @ ..] => shown_words(alloc, rest),
    }
}

/// The words as texts.
fn shown_words(alloc: Global, words: &[String]) -> Result<Vec<&str>, AllocError>
    ensures { IfOk result (λ shown. map (λ w. w.now) shown.items ≡ map string_bytes words.now) }
{
    let mut shown = Vec::new(alloc);
    for word in words {
        shown.push(word.as_str())?;
    }
    Ok(shown)
}

/// The program's name and the words after it, and None where one of them is not UTF-8.
pub fn words_of<H: Env + AllocGlobal>(
    rt: &H,
    alloc: Global,
) -> Result<Option<Vec<String>>, AllocError> {
    match env::args(rt) {
        Ok(words) => Ok(Some(words.collect(alloc)?)),
        Err(e) if e.kind() == ErrorKind::OutOfMemory => Err(AllocError),
        Err(_) => Ok(None),
    }
}
