//! The names of the transitions of a listing, as they are told.
ghost use Rattle.std.specs.Prelude.{◌≡◌, ◌++◌, map, option_map, IfOk};
ghost use Rattle.sdl_app_file_commands.specs.Texts.{signal_text, set_text};
ghost use Rattle.sdl_listing_runs.specs.Labels.{names_of, trigger_names, state_text, listed_trigger, set_names, listed_names};

use sdl_listing_body::{ListedSet, Row};
use sdl_signal::{Name, SetId, SignalId, StateId};
use sdl_structure_parts::Structure;
use std::alloc::{AllocError, Global};
use std::fmt;
use std::fmt::{Display, Formatter};

/// For which state and signal a transition is, by name.
#[derive(Clone, Copy)]
struct Trigger {
    state: Name,
    signal: Name,
}

/// A transition by name: its set, and its trigger where it is no start. It is printed as `Lamp start` and `Lamp idle press`.
#[derive(Clone, Copy)]
pub struct Label {
    set: Name,
    trigger: Option<Trigger>,
}

impl Display for Label {
    fn fmt<W: fmt::Write>(&self, f: &mut Formatter<W>) -> fmt::Result {
        let set = self.set.as_str();
        match &self.trigger {
            Some(Trigger { state, signal }) => {
                write!(f, "{set} {} {}", state.as_str(), signal.as_str())
            }
            None => write!(f, "{set} start"),
        }
    }
}

/// The names of all transitions of the listing, by number. What the structure has no name for has none.
pub fn labels_of(
    alloc: Global,
    structure: &Structure,
    listing: &[ListedSet],
) -> Result<Vec<Label>, AllocError>
    ensures { IfOk result (λ labels. map names_of labels.items ≡ listed_names structure.now listing.now) }
{
    let mut labels = Vec::new(alloc);
    for listed in listing {
        add_labels(structure, listed, &mut labels)?;
    }
    Ok(labels)
}

/// Puts the names of a set's transitions behind the others: of its start, and then of its rows.
fn add_labels(
    structure: &Structure,
    listed: &ListedSet,
    labels: &mut Vec<Label>,
) -> Result<(), AllocError>
    ensures { IfOk result (λ _. map names_of labels.new.items ≡ map names_of labels.old.items ++ set_names structure.now listed.now) }
{
    let set = name_of_set(structure, listed.set);
    labels.push(Label { set, trigger: None })?;
    for row in listed.rows.as_slice() {
        let trigger = trigger_of(structure, listed, row);
        labels.push(Label { set, trigger })?;
    }
    Ok(())
}

/// The names of the state and the signal that a row of the set is for.
fn trigger_of(structure: &Structure, listed: &ListedSet, row: &Row) -> Option<Trigger>
    ensures { option_map trigger_names result ≡ listed_trigger structure.now listed.now row.now.state row.now.signal }
{
    match (row.state, &row.signal) {
        (Some(state), Some(sorts)) => Some(Trigger {
            state: name_of_state(listed, state),
            signal: name_of_signal(structure, sorts.id),
        }),
        _ => None,
    }
}

fn name_of_set(structure: &Structure, set: SetId) -> Name
    ensures { result.bytes ≡ set_text structure.now set }
{
    match structure.sets().get(set.0 as usize) {
        Some(set) => set.name,
        None => Name::new(),
    }
}

fn name_of_state(listed: &ListedSet, state: StateId) -> Name
    ensures { result.bytes ≡ state_text listed.now state }
{
    match listed.states.as_slice().get(state.0 as usize) {
        Some(name) => *name,
        None => Name::new(),
    }
}

fn name_of_signal(structure: &Structure, signal: SignalId) -> Name
    ensures { result.bytes ≡ signal_text structure.now signal }
{
    match structure.signals().get(signal.0 as usize) {
        Some(signal) => signal.name,
        None => Name::new(),
    }
}
