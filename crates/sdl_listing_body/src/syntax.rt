//! What a transition of a behaviour's text is, once its names are looked up. (This project's own.)
use arrayvec::ArrayVec;
use sdl_listing_expression::{Expr, Word};
use sdl_signal::{SetId, SignalId, Sort, StateId};
use sdl_transition_behaviour::{Next, SignalSorts, Via};

/// The actual parameters of an output, from the first on. There are at most four.
#[derive(Drop)]
pub enum Params {
    Nothing,
    First { value: Expr, rest: Box<Params> },
}

/// To whom an output goes. `Own` is looked up when the action is carried out, so that OFFSPRING after a create is the new
/// instance. A Pid expression has its value at the output.
#[derive(Drop)]
pub enum Goal {
    Anywhere,
    Own(Word),
    Set(SetId),
    Pid(Expr),
}

/// What a transition does: a statement, and the rest after it.
#[derive(Drop)]
pub enum Body {
    Nothing,
    Output {
        signal: SignalId,
        params: Params,
        to: Goal,
        via: Via,
        rest: Box<Body>,
    },
    Create {
        set: SetId,
        rest: Box<Body>,
    },
    /// The variable at the place, from 0, takes the value.
    Assign {
        place: usize,
        value: Expr,
        rest: Box<Body>,
    },
    /// Each side that does not end goes on with the rest.
    If {
        condition: Expr,
        yes: Box<Body>,
        no: Box<Body>,
        rest: Box<Body>,
    },
    End(Next),
}

/// A transition: for which state and signal it is (neither for a start), and what it does. It has the sorts of that signal's
/// parameters and of the instance's variables.
#[derive(Drop)]
pub struct Row {
    /// The number of sets of the structure.
    pub sets: u32,
    pub state: Option<StateId>,
    pub signal: Option<SignalSorts>,
    pub vars: ArrayVec<Sort, 8>,
    pub body: Body,
}
