//! The words after the program's name, and the option `--audit` apart from them.
ghost use Rattle.std.specs.Prelude.{◌≡◌, ◌++◌, map, codes, IfOk, OnOk};
ghost use Rattle.sdl_app_command.specs.Arguments.{has, words_before};
ghost use Rattle.sdl_graph_program.specs.Words.{options_without, without_audit, plain_words_of, asks_for_audit};

use std::alloc::{AllocError, Global};

/// The words without the option `--audit`, and whether it stood among them.
#[derive(Drop)]
pub(crate) struct PlainWords<'a> {
    pub words: Vec<&'a str>,
    pub audit: bool,
}

/// Takes the option `--audit` out of the words. It stands behind the first word, the command, and before the last, the file.
pub(crate) fn plain_words<'a>(
    alloc: Global,
    words: &[&'a str],
) -> Result<PlainWords<'a>, AllocError>
    ensures words { IfOk result (λ p. map (λ w. w.now) p.words.items ≡ plain_words_of (map (λ w. w.now) words.now)) }
    ensures audit { IfOk result (λ p. p.audit ≡ asks_for_audit (map (λ w. w.now) words.now)) }
{
    let mut plain = Vec::new(alloc);
    match words {
        [] => Ok(PlainWords {
            words: plain,
            audit: false,
        }),
        [command, rest @ ..] => {
            plain.push(*command)?;
            let audit = add_behind(&mut plain, rest)?;
            Ok(PlainWords {
                words: plain,
                audit,
            })
        }
    }
}

/// Adds the words behind a command but the option, and says whether it was among them. What a refusal leaves is not said.
fn add_behind<'a>(plain: &mut Vec<&'a str>, words: &[&'a str]) -> Result<bool, AllocError>
    ensures words { OnOk result (map (λ w. w.now) plain.new.items ≡ map (λ w. w.now) plain.old.items ++ without_audit (map (λ w. w.now) words.now)) }
    ensures audit { IfOk result (λ audit. audit ≡ has (codes "--audit") (words_before (map (λ w. w.now) words.now))) }
{
    match words.split_last() {
        Some((file, options)) => {
            let audit = add_options(plain, options)?;
            plain.push(*file)?;
            Ok(audit)
        }
        None => Ok(false),
    }
}

/// Adds the options but that one, and says whether it was among them.
fn add_options<'a>(plain: &mut Vec<&'a str>, options: &[&'a str]) -> Result<bool, AllocError>
    ensures words { OnOk result (map (λ w. w.now) plain.new.items ≡ map (λ w. w.now) plain.old.items ++ options_without (map (λ w. w.now) options.now)) }
    ensures audit { IfOk result (λ audit. audit ≡ has (codes "--audit") (map (λ w. w.now) options.now)) }
{
    match options {
        [] => Ok(false),
        [option, rest @ ..] => {
            if *option == "--audit" {
                add_options(plain, rest)?;
                return Ok(true);
            }
            plain.push(*option)?;
            add_options(plain, rest)
        }
    }
}
