//! The program's arguments.
ghost use Rattle.std.specs.Prelude.{◌≡◌, map};
ghost use Rattle.std.specs.List.{list_all};
ghost use Rattle.sdl_app_command.specs.Arguments.{arguments_of, file_arguments_of, run_arguments_of, chosen_arguments_of, is_run_option, has};

/// What is done with a structure file.
#[derive(Clone, Copy, Debug, PartialEq, Eq)]
pub enum Command {
    /// Says whether it is well formed.
    Check,
    /// Lists its routes.
    Routes,
    /// Runs the system.
    Run,
}

/// A command on a structure file, with its options.
#[derive(Clone, Copy, Debug, PartialEq, Eq)]
pub struct Options {
    pub command: Command,
    /// Runs on one thread.
    pub serial: bool,
    /// Prints the ledger after a run.
    pub ledger: bool,
    /// Prints the blocks' logs after a run.
    pub trace: bool,
}

/// What the program is to do.
#[derive(Clone, Copy, Debug, PartialEq, Eq)]
pub enum Arguments {
    /// Lines through one queue.
    Pipe,
    /// A command on the structure file that the word of this number names.
    File(Options, usize),
}

/// What the words after the program's name ask for, and None where they are wrong arguments.
pub fn read_arguments(words: &[&str]) -> Option<Arguments>
    ensures { result ≡ arguments_of (map (λ w. w.now) words.now) }
{
    match words {
        [] => None,
        [word] => {
            if *word == "pipe" {
                Some(Arguments::Pipe)
            } else {
                None
            }
        }
        [word, rest @ ..] => {
            if *word == "run" {
                run_arguments(rest)
            } else {
                file_arguments(word, rest)
            }
        }
    }
}

/// A command that takes a file alone, by its name and the words after it.
fn file_arguments(word: &str, rest: &[&str]) -> Option<Arguments>
    ensures { result ≡ file_arguments_of word.now (map (λ w. w.now) rest.now) }
{
    let [file] = rest else {
        return None;
    };
    if file.starts_with("--") {
        return None;
    }
    let command = if word == "check" {
        Command::Check
    } else if word == "routes" {
        Command::Routes
    } else {
        return None;
    };
    let options = Options {
        command,
        serial: false,
        ledger: false,
        trace: false,
    };
    Some(Arguments::File(options, 1))
}

/// The words after `run`: its options, and last the file.
fn run_arguments(words: &[&str]) -> Option<Arguments>
    ensures { result ≡ run_arguments_of (map (λ w. w.now) words.now) }
{
    let (file, chosen) = words.split_last()?;
    chosen_arguments(chosen, file, words.len())
}

/// The options and the file of `run`, which is the word of this number.
fn chosen_arguments(chosen: &[&str], file: &str, place: usize) -> Option<Arguments>
    ensures { result ≡ chosen_arguments_of (map (λ w. w.now) chosen.now) file.now place }
{
    if file.starts_with("--") || !are_run_options(chosen) {
        return None;
    }
    let options = Options {
        command: Command::Run,
        serial: has_word(chosen, "--serial"),
        ledger: has_word(chosen, "--ledger"),
        trace: has_word(chosen, "--trace"),
    };
    Some(Arguments::File(options, place))
}

/// Whether each word is an option of `run`.
fn are_run_options(words: &[&str]) -> bool
    ensures { result ≡ list_all is_run_option (map (λ w. w.now) words.now) }
{
    match words {
        [] => true,
        [word, rest @ ..] => {
            (*word == "--serial" || *word == "--ledger" || *word == "--trace")
                && are_run_options(rest)
        }
    }
}

/// Whether the word is among the words.
fn has_word(words: &[&str], wanted: &str) -> bool
    ensures { result ≡ has wanted.now (map (λ w. w.now) words.now) }
{
    match words {
        [] => false,
        [word, rest @ ..] => *word == wanted || has_word(rest, wanted),
    }
}
