//! What the words after the program's name ask for.
ghost use Rattle.std.specs.Prelude.{◌≡◌, map};
ghost use Rattle.std.specs.List.{list_all};
ghost use Rattle.sdl_app_command.specs.Arguments.{has};
ghost use Rattle.sdl_simulator.specs.Words as rule;
ghost use Rattle.sdl_simulator.specs.Words.{is_choice};

use sdl_app_command::arguments::{Command, Options};
use sdl_chart_words::{Request, request_of};
use sdl_drawing_text::{Form, form_of};

/// What the program is to do.
#[derive(Clone, Copy)]
pub enum Asked {
    /// A command on a structure file alone.
    File(Command),
    /// The block diagram of a structure file, in this form.
    Structure(Form),
    /// Says whether a structure file and an agents file keep all rules.
    Check,
    /// Runs the system of both files, and audits what the run leaves where that is asked for.
    Run(Options, bool),
    /// Runs the system of both files, and writes the chart of the run.
    Chart(Request),
}

/// What the words ask for, and None where they are wrong arguments.
pub fn asked_of(words: &[&str]) -> Option<Asked>
    ensures { result ≡ rule.asked_of (map (λ w. w.now) words.now) }
{
    match words {
        [] => None,
        [word, rest @ ..] => {
            if *word == "check" {
                check_of(rest)
            } else if *word == "routes" {
                routes_of(rest)
            } else if *word == "structure" {
                structure_of(rest)
            } else if *word == "run" {
                run_of(rest)
            } else if *word == "chart" {
                chart_of(rest)
            } else {
                None
            }
        }
    }
}

/// A command on a structure file alone.
fn alone(command: Command, file: &str) -> Option<Asked>
    ensures { result ≡ rule.alone command file.now }
{
    if file.starts_with("--") {
        None
    } else {
        Some(Asked::File(command))
    }
}

/// The command `check` on a structure file and an agents file.
fn both(file: &str, agents: &str) -> Option<Asked>
    ensures { result ≡ rule.both file.now agents.now }
{
    if file.starts_with("--") || agents.starts_with("--") {
        None
    } else {
        Some(Asked::Check)
    }
}

/// The words after `check`: a structure file, or that and an agents file.
fn check_of(words: &[&str]) -> Option<Asked>
    ensures { result ≡ rule.check_of (map (λ w. w.now) words.now) }
{
    match words {
        [file] => alone(Command::Check, file),
        [file, agents] => both(file, agents),
        _ => None,
    }
}

/// The word after `routes`: a structure file.
fn routes_of(words: &[&str]) -> Option<Asked>
    ensures { result ≡ rule.routes_of (map (λ w. w.now) words.now) }
{
    match words {
        [file] => alone(Command::Routes, file),
        _ => None,
    }
}

/// The words after `structure`: a structure file, with or without an option.
fn structure_of(words: &[&str]) -> Option<Asked>
    ensures { result ≡ rule.structure_of (map (λ w. w.now) words.now) }
{
    match form_of(words) {
        Some(form) => Some(Asked::Structure(form)),
        None => None,
    }
}

/// The words after `run`: its options, and last the structure file and the agents file.
fn run_of(words: &[&str]) -> Option<Asked>
    ensures { result ≡ rule.run_of (map (λ w. w.now) words.now) }
{
    let (agents, front) = words.split_last()?;
    let (file, chosen) = front.split_last()?;
    chosen_of(chosen, file, agents)
}

/// The options and the files of `run`.
fn chosen_of(chosen: &[&str], file: &str, agents: &str) -> Option<Asked>
    ensures { result ≡ rule.chosen_of (map (λ w. w.now) chosen.now) file.now agents.now }
{
    if file.starts_with("--") || agents.starts_with("--") || !are_choices(chosen) {
        return None;
    }
    let options = Options {
        command: Command::Run,
        serial: has_word(chosen, "--serial"),
        ledger: has_word(chosen, "--ledger"),
        trace: has_word(chosen, "--trace"),
    };
    Some(Asked::Run(options, has_word(chosen, "--audit")))
}

/// The words after `chart`: its options, and last the structure file and the agents file.
fn chart_of(words: &[&str]) -> Option<Asked>
    ensures { result ≡ rule.chart_of (map (λ w. w.now) words.now) }
{
    let (agents, front) = words.split_last()?;
    let (file, chosen) = front.split_last()?;
    charted(chosen, file, agents)
}

/// The options and the files of `chart`.
fn charted(chosen: &[&str], file: &str, agents: &str) -> Option<Asked>
    ensures { result ≡ rule.charted (map (λ w. w.now) chosen.now) file.now agents.now }
{
    if file.starts_with("--") || agents.starts_with("--") {
        return None;
    }
    match request_of(chosen) {
        Some(request) => Some(Asked::Chart(request)),
        None => None,
    }
}

/// Whether each word is an option of `run`.
fn are_choices(words: &[&str]) -> bool
    ensures { result ≡ list_all is_choice (map (λ w. w.now) words.now) }
{
    match words {
        [] => true,
        [word, rest @ ..] => {
            (*word == "--serial" || *word == "--ledger" || *word == "--trace" || *word == "--audit")
                && are_choices(rest)
        }
    }
}

/// Whether the word is among the words.
fn has_word(words: &[&str], wanted: &str) -> bool
    ensures { result ≡ has wanted.now (map (λ w. w.now) words.now) }
{
    match words {
        [] => false,
        [word, rest @ ..] => *word == wanted || has_word(rest, wanted),
    }
}
