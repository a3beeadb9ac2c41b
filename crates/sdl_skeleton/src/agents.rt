//! The text of `agents.rt`: the list of the sets, and of `main.rt`, which has their files.
use crate::fixed::{MAIN_BODY, MAIN_HEAD};
use crate::names::Names;
use crate::texts::{write_lines, write_texts};
use sdl_structure_parts::Structure;
use std::io::{Result, Write};

/// Writes the text of `main.rt`.
pub fn write_main<W: Write>(output: &mut W, names: &Names) -> Result<()> {
    write_lines(output, MAIN_HEAD)?;
    write_for_each(output, names, "mod ", ";\n")?;
    write_lines(output, MAIN_BODY)
}

/// Writes the text of `agents.rt`.
pub fn write_agents<W: Write>(output: &mut W, structure: &Structure, names: &Names) -> Result<()> {
    write_texts(output, &["//! The agents of ", structure.system()])?;
    write_lines(output, HEAD)?;
    write_for_each(output, names, "use crate::", ";\n")?;
    write_lines(output, OFFER)?;
    write_for_each(output, names, OFFER_HEAD, OFFER_END)?;
    write_lines(output, STEP)?;
    for number in 0..structure.sets().len() {
        let (constant, file) = (names.set(number), names.file(number));
        write_texts(output, &[STEP_HEAD, constant, STEP_MIDDLE, file, STEP_END])?;
    }
    write_lines(output, SETS)?;
    write_for_each(output, names, "    sets.add::<", "::Process>();\n")?;
    write_lines(output, END)
}

/// Writes the name of the file of each set between two texts.
fn write_for_each<W: Write>(
    output: &mut W,
    names: &Names,
    before: &str,
    behind: &str,
) -> Result<()> {
    for file in names.files() {
        write_texts(output, &[before, file.as_str(), behind])?;
    }
    Ok(())
}

const HEAD: &[&str] = &[
    ": the list of its sets. Each has a file of its own. Where the structure file has other sets, this file and",
    "//! `main.rt` are written anew.",
    "use crate::numbers::sets;",
];

const OFFER: &[&str] = &[
    "use sdl_graph_program::{",
    "    AgentSets, Frame, Graph, Offer, Pid, Step, answer_of, no_offer, no_step, offer_in,",
    "};",
    "use std::alloc::Global;",
    "",
    "/// The agents of the system.",
    "pub struct Agents;",
    "",
    "impl Graph for Agents {",
    "    fn offer(number: u32) -> Offer {",
    "        let mut left = number as usize;",
];

const OFFER_HEAD: &str = "        if let Some(offer) = offer_in::<";

const OFFER_END: &str = "::Process>(&mut left) {\n            return offer;\n        }\n";

const STEP: &[&str] = &[
    "        no_offer()",
    "    }",
    "",
    "    fn step(number: u32, frame: &Frame) -> Step {",
    "        let _ = number;",
    "        match frame.self_pid {",
];

const STEP_HEAD: &str = "            Pid::Inst(sets::";

const STEP_MIDDLE: &str = ", _) => answer_of::<";

const STEP_END: &str = "::Process>(frame),\n";

const SETS: &[&str] = &[
    "            _ => no_step(),",
    "        }",
    "    }",
    "}",
    "",
    "/// The sets of the system, in the order of their numbers.",
    "pub fn agent_sets(alloc: Global) -> AgentSets {",
    "    let mut sets = AgentSets::new(alloc);",
];

const END: &[&str] = &["    sets", "}"];
