//! The texts of the faults of a graph.
use crate::misfitting::MisfitPart;
use crate::numbering::Numbered;
use sdl_app_command::errors::{without_memory, write_error};
use sdl_app_file_commands::faults::write_bind_fault;
use sdl_graph_binding::{Design, GraphFault};
use sdl_signal::SetId;
use sdl_transition::BindFault;
use std::io::Write;

/// Writes why a graph does not run, as one line, and for a fault of binding the part that has it as a second. A line that is not
/// taken is dropped.
pub fn write_graph_fault<E: Write>(errors: &mut E, design: &Design, fault: GraphFault) {
    match fault {
        GraphFault::NoOffer(number) => {
            let transition = Numbered { design, number };
            write_error(errors, format_args!("G1 NoOffer transition {transition}"))
        }
        GraphFault::NoEnd(number) => {
            let transition = Numbered { design, number };
            write_error(errors, format_args!("G2 NoEnd transition {transition}"))
        }
        GraphFault::NoTrigger(number) => {
            let transition = Numbered { design, number };
            write_error(errors, format_args!("G3 NoTrigger transition {transition}"))
        }
        GraphFault::NoSet(place) => write_error(
            errors,
            format_args!("G4 NoSet {}", set_name(design, place)),
        ),
        GraphFault::BadStates(place) => write_error(
            errors,
            format_args!("G5 BadStates {}", set_name(design, place)),
        ),
        GraphFault::ManyVariables(place) => write_error(
            errors,
            format_args!("G6 ManyVariables {}", set_name(design, place)),
        ),
        GraphFault::BadUses => write_error(errors, "G7 BadUses"),
        GraphFault::FewTransitions(set) => {
            write_error(errors, format_args!("G8 FewTransitions set {}", set.0))
        }
        GraphFault::ManyRows(set) => {
            write_error(errors, format_args!("G9 ManyRows set {}", set.0))
        }
        GraphFault::ManySaves(set) => {
            write_error(errors, format_args!("G11 ManySaves set {}", set.0))
        }
        GraphFault::ManyTransitions => write_error(errors, "G10 ManyTransitions"),
        GraphFault::Bind(fault, misfit) => {
            write_bind_fault(errors, fault);
            if let (Some(set), Some(misfit)) = (set_of(fault), misfit) {
                let part = MisfitPart {
                    design,
                    set,
                    misfit,
                };
                write_error(errors, format_args!("{part}"));
            }
        }
        GraphFault::Memory => without_memory(errors),
    }
}

/// The set that a fault of binding names.
fn set_of(fault: BindFault) -> Option<SetId> {
    match fault {
        BindFault::NoBehaviour(set)
        | BindFault::TwoBehaviours(set)
        | BindFault::WrongName(set)
        | BindFault::UndeclaredOutput(set)
        | BindFault::UndeclaredGate(set)
        | BindFault::UnknownState(set)
        | BindFault::WrongSorts(set)
        | BindFault::CreateElsewhere(set)
        | BindFault::TwoRows(set) => Some(set),
        BindFault::Memory => None,
    }
}

/// The name that the design says at the place.
pub fn set_name<'a>(design: &Design<'a>, place: usize) -> &'a str {
    match design.sets.get(place) {
        Some(set) => set.name,
        None => "",
    }
}
