//! What a designer says of the sets of a graph.
use sdl_signal::{SignalId, StateId, Value};
use sdl_transition_behaviour::Kind;

/// A number that the graph uses, with the name that it means by it.
pub type Use<'a> = (Kind, u32, &'a str);

/// A set of process instances: its name in the structure, the names of its states by number, and its initial variables;
/// which signals its states save; how many transitions it has, the start and then its rows.
#[derive(Clone, Copy)]
pub struct SetDesign<'a> {
    pub name: &'a str,
    pub states: &'a [&'a str],
    pub variables: &'a [Value],
    pub saves: &'a [(StateId, SignalId)],
    pub transitions: usize,
}

/// The sets of a graph in the order of the numbers of their transitions, and what the graph means by the numbers that it
/// uses.
#[derive(Clone, Copy)]
pub struct Design<'a> {
    pub uses: &'a [Use<'a>],
    pub sets: &'a [SetDesign<'a>],
}
