//! What of a graph's behaviours does not fit the structure, where they were not bound.
use sdl_signal::{GateId, Pid, SetId, SignalId, StateId, Value};
use sdl_structure_parts::{Gate, Owner, Structure};
use sdl_transition::BindFault;
use sdl_transition_behaviour::{Behaviour, Kind, Offer, Row, SignalSorts, Transition, Via};

/// The first part of a behaviour that has a fault of binding. A transition is named by its number. No clause says which it is.
/// (This project's own.)
#[derive(Clone, Copy, Debug, PartialEq, Eq)]
pub enum Misfit {
    /// B3: the number of a use has another name in the structure.
    Named(Kind, u32),
    /// B3: the structure does not have the number of a use.
    Absent(Kind, u32),
    /// B3: the number is in no use, and is that of the set, or of a signal that it saves.
    Unmeant(Kind, u32),
    /// B3: the transition's offer has a number that is in no use.
    Unused(u32, Kind, u32),
    /// B3: the transition's offer says so many sets.
    Sets(u32, u32),
    /// B4: no gate of the set has the signal outward that the transition outputs.
    Output(u32, SignalId),
    /// B5: the transition outputs the signal by a gate that is not the set's.
    OtherGate(u32, SignalId, GateId),
    /// B5: the transition outputs the signal by a gate that does not have it outward.
    Gate(u32, SignalId, GateId),
    /// B6: the transition's offer leads to a state, or is for one, that is past the list.
    State(u32, StateId),
    /// B6: a state past the list saves a signal.
    SavingState(StateId),
    /// B7: the signal has other sorts than in the transition's offer.
    Signal(u32, SignalId),
    /// B7: the variables have other sorts than in the transition's offer.
    Variables(u32),
    /// B7: the variable at this place is a Pid other than Null at first.
    InitialPid(usize),
    /// B8: the transition creates an instance of a set of another block.
    Create(u32, SetId),
    /// B9: two rows are for the state and the signal.
    TwoRows(StateId, SignalId),
    /// B9: the state saves the signal, and has a row for it or saves it once more.
    SavedTwice(StateId, SignalId),
}

/// The first part of the behaviours that has the fault, where it is one of a part.
pub fn misfit_of<S>(
    structure: &Structure,
    behaviours: &[Behaviour<S>],
    fault: BindFault,
) -> Option<Misfit> {
    let set = match fault {
        BindFault::WrongName(set)
        | BindFault::UndeclaredOutput(set)
        | BindFault::UndeclaredGate(set)
        | BindFault::UnknownState(set)
        | BindFault::WrongSorts(set)
        | BindFault::CreateElsewhere(set)
        | BindFault::TwoRows(set) => set,
        BindFault::NoBehaviour(_) | BindFault::TwoBehaviours(_) | BindFault::Memory => return None,
    };
    for behaviour in behaviours {
        if behaviour.set == set {
            return match misfit_outside(structure, behaviour, fault) {
                Some(misfit) => Some(misfit),
                None => misfit_of_transitions(structure, behaviour, fault),
            };
        }
    }
    None
}

/// The first part outside the transitions.
fn misfit_outside<S>(
    structure: &Structure,
    behaviour: &Behaviour<S>,
    fault: BindFault,
) -> Option<Misfit> {
    match fault {
        BindFault::WrongName(_) => misnamed(structure, behaviour),
        BindFault::UnknownState(_) => saving_state(behaviour),
        BindFault::WrongSorts(_) => initial_pid(behaviour),
        BindFault::TwoRows(_) => said_twice(behaviour),
        _ => None,
    }
}

/// The first part of the transitions: the start comes first, and then the rows.
fn misfit_of_transitions<S>(
    structure: &Structure,
    behaviour: &Behaviour<S>,
    fault: BindFault,
) -> Option<Misfit> {
    let found = misfit_in(structure, behaviour, &behaviour.start, fault);
    if found.is_some() {
        return found;
    }
    for row in behaviour.rows.as_slice() {
        let found = misfit_in(structure, behaviour, &row.transition, fault);
        if found.is_some() {
            return found;
        }
    }
    None
}

fn misfit_in<S>(
    structure: &Structure,
    behaviour: &Behaviour<S>,
    transition: &Transition<S>,
    fault: BindFault,
) -> Option<Misfit> {
    let (number, offer) = (transition.number, &transition.offer);
    match fault {
        BindFault::WrongName(_) => unused(structure, behaviour, number, offer),
        BindFault::UndeclaredOutput(set) => undeclared_output(structure, set, number, offer),
        BindFault::UndeclaredGate(set) => undeclared_gate(structure, set, number, offer),
        BindFault::UnknownState(_) => unknown_state(behaviour.states.len(), number, offer),
        BindFault::WrongSorts(_) => wrong_sorts(structure, behaviour, number, offer),
        BindFault::CreateElsewhere(set) => create_elsewhere(structure, set, number, offer),
        _ => None,
    }
}

/// The name of the number in the structure.
fn name_at<'a>(structure: &'a Structure, kind: Kind, number: u32) -> Option<&'a str> {
    let place = number as usize;
    let name = match kind {
        Kind::Signal => &structure.signals().get(place)?.name,
        Kind::Set => &structure.sets().get(place)?.name,
        Kind::Gate => &structure.gates().get(place)?.name,
        Kind::Channel => &structure.channels().get(place)?.name,
    };
    Some(name.as_str())
}

fn misnamed<S>(structure: &Structure, behaviour: &Behaviour<S>) -> Option<Misfit> {
    for named in behaviour.uses.as_slice() {
        match name_at(structure, named.kind, named.number) {
            Some(name) if name == named.name.as_str() => {}
            Some(_) => return Some(Misfit::Named(named.kind, named.number)),
            None => return Some(Misfit::Absent(named.kind, named.number)),
        }
    }
    let set = behaviour.set.0;
    if !is_used(behaviour, Kind::Set, set) {
        return Some(Misfit::Unmeant(Kind::Set, set));
    }
    for save in behaviour.saves.as_slice() {
        let signal = save.signal.0;
        if !is_used(behaviour, Kind::Signal, signal) {
            return Some(Misfit::Unmeant(Kind::Signal, signal));
        }
    }
    None
}

fn is_used<S>(behaviour: &Behaviour<S>, kind: Kind, number: u32) -> bool {
    behaviour
        .uses
        .as_slice()
        .iter()
        .any(|named| named.kind == kind && named.number == number)
}

/// The first number of the offer that is in no use, or its number of sets.
fn unused<S>(
    structure: &Structure,
    behaviour: &Behaviour<S>,
    number: u32,
    offer: &Offer,
) -> Option<Misfit> {
    if offer.sets as usize != structure.sets().len() {
        return Some(Misfit::Sets(number, offer.sets));
    }
    if let Some(signal) = &offer.signal
        && !is_used(behaviour, Kind::Signal, signal.id.0)
    {
        return Some(Misfit::Unused(number, Kind::Signal, signal.id.0));
    }
    for output in offer.outputs.as_slice() {
        let signal = output.signal.id.0;
        if !is_used(behaviour, Kind::Signal, signal) {
            return Some(Misfit::Unused(number, Kind::Signal, signal));
        }
        if let Some((kind, place)) = way_of(output.via)
            && !is_used(behaviour, kind, place)
        {
            return Some(Misfit::Unused(number, kind, place));
        }
    }
    for set in offer.creates.as_slice() {
        if !is_used(behaviour, Kind::Set, set.0) {
            return Some(Misfit::Unused(number, Kind::Set, set.0));
        }
    }
    None
}

/// The number that a VIA names.
fn way_of(via: Via) -> Option<(Kind, u32)> {
    match via {
        Via::Any => None,
        Via::Gate(gate) => Some((Kind::Gate, gate.0)),
        Via::Channel(channel) => Some((Kind::Channel, channel.0)),
    }
}

fn has_outward(gate: &Gate, signal: SignalId) -> bool {
    gate.outward.as_slice().contains(&signal)
}

fn undeclared_output(
    structure: &Structure,
    set: SetId,
    number: u32,
    offer: &Offer,
) -> Option<Misfit> {
    for output in offer.outputs.as_slice() {
        let signal = output.signal.id;
        let is_let_out = structure.gates().iter().any(|gate| gate.owner == Owner::Set(set)
            && has_outward(gate, signal));
        if !is_let_out {
            return Some(Misfit::Output(number, signal));
        }
    }
    None
}

fn undeclared_gate(
    structure: &Structure,
    set: SetId,
    number: u32,
    offer: &Offer,
) -> Option<Misfit> {
    for output in offer.outputs.as_slice() {
        if let Via::Gate(id) = output.via {
            let signal = output.signal.id;
            match structure.gates().get(id.0 as usize) {
                Some(gate) if gate.owner == Owner::Set(set) => {
                    if !has_outward(gate, signal) {
                        return Some(Misfit::Gate(number, signal, id));
                    }
                }
                _ => return Some(Misfit::OtherGate(number, signal, id)),
            }
        }
    }
    None
}

fn saving_state<S>(behaviour: &Behaviour<S>) -> Option<Misfit> {
    for save in behaviour.saves.as_slice() {
        if behaviour.states.len() <= save.state.0 as usize {
            return Some(Misfit::SavingState(save.state));
        }
    }
    None
}

fn unknown_state(states: usize, number: u32, offer: &Offer) -> Option<Misfit> {
    if let Some(state) = offer.state
        && states <= state.0 as usize
    {
        return Some(Misfit::State(number, state));
    }
    for state in offer.nexts.as_slice() {
        if states <= state.0 as usize {
            return Some(Misfit::State(number, *state));
        }
    }
    None
}

fn initial_pid<S>(behaviour: &Behaviour<S>) -> Option<Misfit> {
    for (place, value) in behaviour.vars.as_slice().iter().enumerate() {
        if let Value::Pid(pid) = value
            && *pid != Pid::Null
        {
            return Some(Misfit::InitialPid(place));
        }
    }
    None
}

/// Whether the signal has the same sorts in the structure.
fn has_its_sorts(structure: &Structure, signal: &SignalSorts) -> bool {
    match structure.signals().get(signal.id.0 as usize) {
        Some(declared) => declared.sorts.as_slice() == signal.sorts.as_slice(),
        None => false,
    }
}

fn wrong_sorts<S>(
    structure: &Structure,
    behaviour: &Behaviour<S>,
    number: u32,
    offer: &Offer,
) -> Option<Misfit> {
    if !Value::are_of_sorts(behaviour.vars.as_slice(), offer.vars.as_slice()) {
        return Some(Misfit::Variables(number));
    }
    if let Some(signal) = &offer.signal
        && !has_its_sorts(structure, signal)
    {
        return Some(Misfit::Signal(number, signal.id));
    }
    for output in offer.outputs.as_slice() {
        if !has_its_sorts(structure, &output.signal) {
            return Some(Misfit::Signal(number, output.signal.id));
        }
    }
    None
}

fn create_elsewhere(
    structure: &Structure,
    set: SetId,
    number: u32,
    offer: &Offer,
) -> Option<Misfit> {
    let block = structure.sets().get(set.0 as usize)?.block;
    for created in offer.creates.as_slice() {
        let lies_there = match structure.sets().get(created.0 as usize) {
            Some(other) => other.block == block,
            None => false,
        };
        if !lies_there {
            return Some(Misfit::Create(number, *created));
        }
    }
    None
}

/// How many of the rows are for the state and the signal.
fn rows_for<S>(rows: &[Row<S>], state: StateId, signal: SignalId) -> usize {
    rows.iter()
        .filter(|row| row.state == state && row.signal == signal)
        .count()
}

fn said_twice<S>(behaviour: &Behaviour<S>) -> Option<Misfit> {
    let rows = behaviour.rows.as_slice();
    for row in rows {
        if rows_for(rows, row.state, row.signal) > 1 {
            return Some(Misfit::TwoRows(row.state, row.signal));
        }
    }
    let saves = behaviour.saves.as_slice();
    for save in saves {
        let (state, signal) = (save.state, save.signal);
        let times = saves
            .iter()
            .filter(|other| other.state == state && other.signal == signal)
            .count();
        if times > 1 || rows_for(rows, state, signal) > 0 {
            return Some(Misfit::SavedTwice(state, signal));
        }
    }
    None
}
