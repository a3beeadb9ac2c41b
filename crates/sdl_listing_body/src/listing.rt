//! What a file says of the sets of a structure. (This project's own.)
use crate::syntax::Row;
use arrayvec::ArrayVec;
use sdl_signal::{Name, SetId, Value};
use sdl_transition_behaviour::{Named, Save};

/// What a file says of the instances of one set. The uses are the numbers that it uses, with the names that it means by them. The
/// variables have their first values. The start is for no state and no signal. Each row is for a state and a signal; what has no
/// row is left to the implicit transition.
#[derive(Drop)]
pub struct ListedSet {
    pub set: SetId,
    pub uses: Vec<Named>,
    pub vars: ArrayVec<Value, 8>,
    pub states: ArrayVec<Name, 16>,
    pub saves: Vec<Save>,
    pub start: Row,
    pub rows: Vec<Row>,
}
