//! The stored transitions of a graph, bound to a structure.
ghost use Rattle.std.specs.Prelude.{◌≡◌, ◌+◌, ◌^◌, ◌<◌, [], ◌∷◌, ◌++◌, All, length, map, IfOk};
ghost use Rattle.sdl_structure_parts.specs.Structure.{IsStructure};
ghost use Rattle.sdl_routes.specs.Routes.{AreRoutesOf};
ghost use Rattle.sdl_transition_behaviour.specs.Transitions.{IsAllowedBehaviour};
ghost use Rattle.sdl_transition.specs.Blocks.{AreDistributed};
ghost use Rattle.sdl_transition.specs.Bound.{IsBound, structure_of, routes_of, blocks_of};
ghost use Rattle.sdl_graph_binding.specs.Transitions.{transitions_in, all_transitions, meant, made_as};

use crate::agents::GraphAgents;
use crate::faults::GraphFault;
use crate::misfits::misfit_of;
use crate::set_behaviour::{set_named, with_rows, with_saves, with_states, with_uses};
use crate::sets::{Design, SetDesign, Use};
use arrayvec::ArrayVec;
use sdl_graph::Graph;
use sdl_routes::Routes;
use sdl_signal::lists::take_first;
use sdl_signal::{Name, SetId, Value};
use sdl_structure_parts::{Checked, Structure};
use sdl_transition::{Bound, bind};
use sdl_transition_behaviour::{Behaviour, Transition};
use std::alloc::Global;

/// The variables and the names of the states of the set at a place of the design.
fn set_parts(
    set: &SetDesign,
    place: usize,
) -> Result<(ArrayVec<Value, 8>, ArrayVec<Name, 16>), GraphFault>
    ensures variables { IfOk result (λ r. r.0.items ≡ set.now.variables.now) }
    ensures states { IfOk result (λ r. map (λ n. n.bytes) r.1.items ≡ map (λ t. t.now) set.now.states.now) }
{
    let mut variables = ArrayVec::new();
    if variables.try_extend_from_slice(set.variables).is_err() {
        return Err(GraphFault::ManyVariables(place));
    }
    match with_states(ArrayVec::new(), set.states) {
        Some(states) => Ok((variables, states)),
        None => Err(GraphFault::BadStates(place)),
    }
}

/// The behaviour of the set at a place of the design, of the first of the transitions that are left.
fn behaviour_of<G: Graph>(
    alloc: Global,
    structure: &Structure,
    uses: &[Use],
    set: &SetDesign,
    place: usize,
    left: &mut Vec<Transition<GraphAgents<G>>>,
) -> Result<Behaviour<GraphAgents<G>>, GraphFault>
    requires { IsStructure structure.now }
    ensures allowed { IfOk result (IsAllowedBehaviour (λ _ _ _. Unit {0})) }
    ensures set { IfOk result (λ b. made_as structure.now b ≡ meant uses.now set.now) }
    ensures taken { IfOk result (λ b. transitions_in b ++ left.new.items ≡ left.old.items) }
{
    let Some(number) = set_named(structure.sets(), set.name) else {
        return Err(GraphFault::NoSet(place));
    };
    let id = SetId(number as u32);
    let (variables, states) = set_parts(set, place)?;
    if set.transitions == 0 || left.len() == 0 {
        return Err(GraphFault::FewTransitions(id));
    }
    let start = take_first(left);
    let behaviour = Behaviour::new(alloc, id, variables, states, start);
    let behaviour = with_saves(with_uses(behaviour, uses)?, set.saves)?;
    with_rows(behaviour, left, set.transitions - 1)
}

/// The behaviours with one more.
fn with_one<G: Graph>(
    made: Vec<Behaviour<GraphAgents<G>>>,
    behaviour: Behaviour<GraphAgents<G>>,
) -> Result<Vec<Behaviour<GraphAgents<G>>>, GraphFault>
    ensures { IfOk result (λ list. list.items ≡ made.items ++ behaviour ∷ []) }
{
    let mut made = made;
    match made.push(behaviour) {
        Ok(()) => Ok(made),
        Err(_) => Err(GraphFault::Memory),
    }
}

/// The behaviours with that of the set at a place of the design, of the first of the transitions that are left.
fn with_next<G: Graph>(
    alloc: Global,
    structure: &Structure,
    uses: &[Use],
    set: &SetDesign,
    place: usize,
    made: Vec<Behaviour<GraphAgents<G>>>,
    left: &mut Vec<Transition<GraphAgents<G>>>,
) -> Result<Vec<Behaviour<GraphAgents<G>>>, GraphFault>
    requires structure { IsStructure structure.now }
    requires allowed { All (IsAllowedBehaviour (λ _ _ _. Unit {0})) made.items }
    ensures allowed { IfOk result (λ list. All (IsAllowedBehaviour (λ _ _ _. Unit {0})) list.items) }
    ensures sets { IfOk result (λ list. map (made_as structure.now) list.items ≡ map (made_as structure.now) made.items ++ meant uses.now set.now ∷ []) }
    ensures taken { IfOk result (λ list. all_transitions list.items ++ left.new.items ≡ all_transitions made.items ++ left.old.items) }
{
    let behaviour = behaviour_of(alloc, structure, uses, set, place, left)?;
    with_one(made, behaviour)
}

/// The behaviours of these sets, of which the first is at `place` of the design, behind those that are made.
fn with_behaviours<G: Graph>(
    alloc: Global,
    structure: &Structure,
    uses: &[Use],
    sets: &[SetDesign],
    place: usize,
    made: Vec<Behaviour<GraphAgents<G>>>,
    left: &mut Vec<Transition<GraphAgents<G>>>,
) -> Result<Vec<Behaviour<GraphAgents<G>>>, GraphFault>
    requires structure { IsStructure structure.now }
    requires allowed { All (IsAllowedBehaviour (λ _ _ _. Unit {0})) made.items }
    requires few { place + length sets.now < 2 ^ 64 }
    ensures allowed { IfOk result (λ list. All (IsAllowedBehaviour (λ _ _ _. Unit {0})) list.items) }
    ensures sets { IfOk result (λ list. map (made_as structure.now) list.items ≡ map (made_as structure.now) made.items ++ map (meant uses.now) sets.now) }
    ensures taken { IfOk result (λ list. all_transitions list.items ++ left.new.items ≡ all_transitions made.items ++ left.old.items) }
{
    match sets {
        [] => Ok(made),
        [set, rest @ ..] => {
            let more = with_next(alloc, structure, uses, set, place, made, left)?;
            with_behaviours(alloc, structure, uses, rest, place + 1, more, left)
        }
    }
}

/// The behaviours of the sets of the design, of all the transitions of a graph in their order.
fn behaviours_of<G: Graph>(
    alloc: Global,
    structure: &Structure,
    design: &Design,
    transitions: Vec<Transition<GraphAgents<G>>>,
) -> Result<Vec<Behaviour<GraphAgents<G>>>, GraphFault>
    requires { IsStructure structure.now }
    ensures allowed { IfOk result (λ list. All (IsAllowedBehaviour (λ _ _ _. Unit {0})) list.items) }
    ensures sets { IfOk result (λ list. map (made_as structure.now) list.items ≡ map (meant design.now.uses.now) design.now.sets.now) }
    ensures taken { IfOk result (λ list. all_transitions list.items ≡ transitions.items) }
{
    let mut left = transitions;
    let none = Vec::new(alloc);
    let made = with_behaviours(
        alloc,
        structure,
        design.uses,
        design.sets,
        0,
        none,
        &mut left,
    )?;
    if left.len() > 0 {
        return Err(GraphFault::ManyTransitions);
    }
    Ok(made)
}

/// The behaviours bound to the structure. A fault is given back alone.
fn bound_of<G: Graph>(
    alloc: Global,
    checked: Checked,
    routes: Routes,
    behaviours: Vec<Behaviour<GraphAgents<G>>>,
) -> Result<Bound<GraphAgents<G>>, GraphFault>
    requires routes { AreRoutesOf checked routes }
    requires allowed { All (IsAllowedBehaviour (λ _ _ _. Unit {0})) behaviours.items }
    ensures bound { IfOk result (IsBound (λ _ _ _. Unit {0})) }
    ensures structure { IfOk result (λ bound. structure_of bound ≡ checked) }
    ensures routes { IfOk result (λ bound. routes_of bound ≡ routes) }
    ensures behaviours { IfOk result (λ bound. AreDistributed checked behaviours.items (blocks_of bound)) }
{
    match bind(alloc, checked, routes, behaviours) {
        Ok(bound) => Ok(bound),
        Err(unbound) => {
            let structure = unbound.checked.structure();
            let misfit = misfit_of(structure, unbound.behaviours.as_slice(), unbound.fault);
            Err(GraphFault::Bind(unbound.fault, misfit))
        }
    }
}

/// Makes the behaviours of the sets of the design of the transitions of a graph, in their order, and binds them to the
/// structure.
pub fn bind_graph<G: Graph>(
    alloc: Global,
    checked: Checked,
    routes: Routes,
    design: &Design,
    transitions: Vec<Transition<GraphAgents<G>>>,
) -> Result<Bound<GraphAgents<G>>, GraphFault>
    requires { AreRoutesOf checked routes }
    ensures bound { IfOk result (IsBound (λ _ _ _. Unit {0})) }
    ensures structure { IfOk result (λ bound. structure_of bound ≡ checked) }
    ensures routes { IfOk result (λ bound. routes_of bound ≡ routes) }
    ensures behaviours { IfOk result (λ bound. ∥ ((behaviours : _) × (map (made_as checked) behaviours ≡ map (meant design.now.uses.now) design.now.sets.now) × (all_transitions behaviours ≡ transitions.items) × AreDistributed checked behaviours (blocks_of bound)) ∥₁) }
{
    let structure = checked.structure();
    structure.parts_agree();
    let behaviours = behaviours_of(alloc, structure, design, transitions)?;
    bound_of(alloc, checked, routes, behaviours)
}
