//! The text of the file of a set: its states, its variables, its start, and a case for each signal that the set may receive.
use crate::lists::{has_many_creates, is_received};
use crate::names::Names;
use crate::texts::{write_lines, write_texts};
use sdl_structure_parts::Structure;
use std::io::{Result, Write};

/// Writes the text of the file of the set of this number.
pub fn write_set<W: Write>(
    output: &mut W,
    structure: &Structure,
    names: &Names,
    set: usize,
) -> Result<()> {
    let name = match structure.sets().get(set) {
        Some(set) => set.name.as_str(),
        None => return Ok(()),
    };
    write_texts(output, &["//! The agents of the set ", name, ".\n"])?;
    write_lines(output, IMPORTS)?;
    write_texts(output, &["/// The states of ", name, ".\n"])?;
    write_lines(output, STATES)?;
    write_texts(output, &["/// An agent of ", name, ".\n"])?;
    write_lines(output, AGENT)?;
    write_lists_of(output, structure, names.set(set), set)?;
    write_lines(output, FUNCTIONS)?;
    write_cases(output, structure, names, set)?;
    write_lines(output, END)
}

/// Writes a case for each signal that a gate of the set lets in.
fn write_cases<W: Write>(
    output: &mut W,
    structure: &Structure,
    names: &Names,
    set: usize,
) -> Result<()> {
    for number in 0..structure.signals().len() {
        if is_received(structure, set, number) {
            write_texts(output, &[CASE_HEAD, names.signal(number), CASE_END])?;
        }
    }
    Ok(())
}

/// Writes what the set may do: its lists. Where its block has more sets than an offer has room for, it may create none of them.
fn write_lists_of<W: Write>(
    output: &mut W,
    structure: &Structure,
    constant: &str,
    set: usize,
) -> Result<()> {
    if has_many_creates(structure, set) {
        write_lines(output, NARROWED)?;
        write_texts(output, &["        ..lists::", constant, "\n    };\n"])
    } else {
        write_texts(
            output,
            &["    const LISTS: SetLists = lists::", constant, ";\n"],
        )
    }
}

const IMPORTS: &[&str] = &[
    "use crate::numbers::{lists, signals};",
    "use sdl_graph_program::{",
    "    Agent, Answer, Frame, NoStep, SetLists, SignalId, States, Step, Value, next_state,",
    "};",
    "",
];

const STATES: &[&str] = &[
    "#[derive(Clone, Copy, PartialEq, Eq)]",
    "pub enum State {",
    "    Idle,",
    "}",
    "",
    "impl States for State {",
    "    /// Each state once, with its name.",
    "    const STATES: &'static [(State, &'static str)] = &[(State::Idle, \"idle\")];",
    "}",
    "",
];

const AGENT: &[&str] = &[
    "pub struct Process;",
    "",
    "impl Agent for Process {",
    "    type State = State;",
    "",
];

const NARROWED: &[&str] = &[
    "    /// Its block has over 8 sets: those that it creates are to be named here.",
    "    const LISTS: SetLists = SetLists {",
    "        creates: &[],",
];

const FUNCTIONS: &[&str] = &[
    "",
    "    /// The variables as they are at first.",
    "    const VARIABLES: &'static [Value] = &[];",
    "",
    "    fn start(frame: &Frame) -> Step {",
    "        next_state(frame, State::Idle).build()",
    "    }",
    "",
    "    fn step(state: State, signal: SignalId, frame: &Frame) -> Answer {",
    "        match (state, signal) {",
];

const CASE_HEAD: &str = "            (State::Idle, signals::";

const CASE_END: &str = ") => Err(NoStep::Implicit),\n";

const END: &[&str] = &[
    "            _ => Err(NoStep::Implicit),",
    "        }",
    "    }",
    "}",
];
