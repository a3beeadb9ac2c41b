//! Hold: H keeps `data(n)` until it runs, and then answers it with `out(n)`.
ghost use Rattle.std.specs.Prelude.{◌≡◌, [], ◌∷◌, Some, None, IfOk, map};
ghost use Rattle.std.specs.List.{AllByRecursion};
ghost use Rattle.sdl_signal.specs.declared.values.Sort.TheVariants as sort;
ghost use Rattle.sdl_transition_behaviour.specs.Transitions.{IsAllowed, IsAllowedBehaviour};
ghost use Rattle.sdl_agents.specs.Handed.{handled, handled_by_hold};
ghost use Rattle.sdl_agents.specs.Tables.{HoldMay, LeadsTo, forwarded};
ghost use Rattle.sdl_agents.specs.Offered.{IsOfferTo, OffersTo, offered, sorted};

use crate::behaviours::{Use, behaviour_in, with_row_in, with_save};
use crate::offers::{no_sorts, on, one_integer, one_output};
use crate::runner::Runner;
use crate::steps::{add_forwarded, values};
use arrayvec::ArrayVec;
use sdl_signal::{SetId, SignalId, StateId};
use sdl_transition_behaviour::{
    Agents, Behaviour, Frame, Kind, Next, Offer, OfferedOutput, Run, SignalSorts, Step, Transition,
};
use std::alloc::{AllocError, Global};

/// The agents of Hold.
#[derive(Drop)]
pub struct Hold;

impl Agents for Hold {
    ghost may = { HoldMay };
}

const H: SetId = SetId(0);

/// The state in which `data` is saved.
pub const WAIT: StateId = StateId(0);

/// The state in which `data` is answered.
pub const RUN: StateId = StateId(1);

pub const DATA: SignalId = SignalId(0);

pub const GO: SignalId = SignalId(1);

pub const HALT: SignalId = SignalId(2);

pub const OUT: SignalId = SignalId(3);

/// What the behaviour of H means by its numbers.
const USES_OF_H: [Use; 5] = [
    (Kind::Set, 0, "H"),
    (Kind::Signal, 0, "data"),
    (Kind::Signal, 1, "go"),
    (Kind::Signal, 2, "halt"),
    (Kind::Signal, 3, "out"),
];

/// The names of the states, by number.
const STATES_OF_H: [&'static str; 2] = ["wait", "run"];

/// The transitions of H.
#[derive(Drop)]
pub struct OfH {
    pub start: Transition<Hold>,
    pub go: Transition<Hold>,
    pub answer: Transition<Hold>,
    pub halt: Transition<Hold>,
}

/// Goes to the state, without an action.
pub fn go_to(state: StateId) -> Step
    ensures step { LeadsTo state.0 [] result }
{
    Step {
        actions: ArrayVec::new(),
        vars: ArrayVec::new(),
        next: Next::State(state),
    }
}

/// Answers `data` with `out`, and stays in run.
pub fn answer(frame: &Frame) -> Step
    ensures step { LeadsTo 1 (forwarded 3 frame.now.signal) result }
{
    let mut step = go_to(RUN);
    add_forwarded(&mut step.actions, values(frame), OUT);
    step
}

/// The offer of a transition for the state and the signal, neither for the start, with these outputs, that leads to a state.
pub fn offer(
    sets: u32,
    state: Option<StateId>,
    signal: Option<SignalSorts>,
    outputs: ArrayVec<OfferedOutput, 16>,
    next: StateId,
) -> Offer
    ensures { IsOfferTo sets state signal outputs.items next result }
{
    let mut nexts = ArrayVec::new();
    nexts.push(next);
    Offer {
        state,
        signal,
        vars: ArrayVec::new(),
        outputs,
        creates: ArrayVec::new(),
        nexts,
        may_stop: false,
        sets,
    }
}

/// The offer of the start.
pub fn start_offer(sets: u32) -> Offer
    ensures offer { IsOfferTo sets None None [] (record { 0 = 0 }) result }
    ensures outputs { OffersTo (record { 0 = 0 }) [] result }
{
    offer(sets, None, None, ArrayVec::new(), WAIT)
}

/// The offer of `go` in wait.
pub fn go_offer(sets: u32) -> Offer
    ensures offer { IsOfferTo sets (Some (record { 0 = 0 })) (Some (sorted 1 [])) [] (record { 0 = 1 }) result }
    ensures outputs { OffersTo (record { 0 = 1 }) [] result }
{
    offer(sets, Some(WAIT), on(GO, no_sorts()), ArrayVec::new(), RUN)
}

/// The offer of `data` in run.
pub fn data_offer(sets: u32) -> Offer
    ensures offer { IsOfferTo sets (Some (record { 0 = 1 })) (Some (sorted 0 (sort.Integer ∷ []))) (offered 3 (sort.Integer ∷ []) ∷ []) (record { 0 = 1 }) result }
    ensures outputs { OffersTo (record { 0 = 1 }) (offered 3 (sort.Integer ∷ []) ∷ []) result }
{
    let outputs = one_output(OUT, one_integer());
    offer(sets, Some(RUN), on(DATA, one_integer()), outputs, RUN)
}

/// The offer of `halt` in run.
pub fn halt_offer(sets: u32) -> Offer
    ensures offer { IsOfferTo sets (Some (record { 0 = 1 })) (Some (sorted 2 [])) [] (record { 0 = 0 }) result }
    ensures outputs { OffersTo (record { 0 = 0 }) [] result }
{
    offer(sets, Some(RUN), on(HALT, no_sorts()), ArrayVec::new(), WAIT)
}

/// The start.
pub fn stored_start(sets: u32, run: Run) -> Transition<Hold>
    requires callable { (f : _) → Run.pre run f }
    requires allowed { (f : _) (step : _) → Run.post run f step → HoldMay 0 f.now step }
    ensures { IsAllowed HoldMay result }
{
    Transition::store(0, start_offer(sets), run)
}

/// Wait's row for `go`.
pub fn stored_go(sets: u32, run: Run) -> Transition<Hold>
    requires callable { (f : _) → Run.pre run f }
    requires allowed { (f : _) (step : _) → Run.post run f step → HoldMay 1 f.now step }
    ensures { IsAllowed HoldMay result }
{
    Transition::store(1, go_offer(sets), run)
}

/// Run's row for `data`.
pub fn stored_answer(sets: u32, run: Run) -> Transition<Hold>
    requires callable { (f : _) → Run.pre run f }
    requires allowed { (f : _) (step : _) → Run.post run f step → HoldMay 2 f.now step }
    ensures { IsAllowed HoldMay result }
{
    Transition::store(2, data_offer(sets), run)
}

/// Run's row for `halt`.
pub fn stored_halt(sets: u32, run: Run) -> Transition<Hold>
    requires callable { (f : _) → Run.pre run f }
    requires allowed { (f : _) (step : _) → Run.post run f step → HoldMay 3 f.now step }
    ensures { IsAllowed HoldMay result }
{
    Transition::store(3, halt_offer(sets), run)
}

/// The behaviours of Hold, for a structure of so many sets, in a function whose result may be an `AllocError`. A function that
/// makes closures can't hand them out, so that they are made where they are used.
#[macro_export]
macro_rules! hold_behaviours {
    ($alloc:expr, $sets:expr) => {{
        let alloc = $alloc;
        let sets = $sets;
        let start: $crate::Run = Box::new(alloc, |_frame: &$crate::Frame| {
            $crate::hold::go_to($crate::hold::WAIT)
        })?;
        let go: $crate::Run = Box::new(alloc, |_frame: &$crate::Frame| {
            $crate::hold::go_to($crate::hold::RUN)
        })?;
        let data: $crate::Run =
            Box::new(alloc, |frame: &$crate::Frame| $crate::hold::answer(frame))?;
        let halt: $crate::Run = Box::new(alloc, |_frame: &$crate::Frame| {
            $crate::hold::go_to($crate::hold::WAIT)
        })?;
        let of_h = $crate::hold::OfH {
            start: $crate::hold::stored_start(sets, start),
            go: $crate::hold::stored_go(sets, go),
            answer: $crate::hold::stored_answer(sets, data),
            halt: $crate::hold::stored_halt(sets, halt),
        };
        $crate::hold::behaviours(alloc, of_h)?
    }};
}

/// Makes the behaviour of H, and hands it to the runner.
pub fn run<R: Runner + Drop>(alloc: Global, sets: u32, runner: R) -> Result<R::Answer, AllocError>
    requires { R.can_run runner }
    ensures { IfOk result (R.answers runner handled_by_hold) }
{
    let behaviours = hold_behaviours!(alloc, sets);
    Ok(runner.run(behaviours))
}

/// The behaviour of H: wait saves `data` and has a row for `go`, run has rows for `data` and `halt`.
pub fn behaviours(alloc: Global, of_h: OfH) -> Result<Vec<Behaviour<Hold>>, AllocError>
    requires start { IsAllowed HoldMay of_h.start }
    requires go { IsAllowed HoldMay of_h.go }
    requires answer { IsAllowed HoldMay of_h.answer }
    requires halt { IsAllowed HoldMay of_h.halt }
    ensures allowed { IfOk result (λ b. AllByRecursion (IsAllowedBehaviour HoldMay) b.items) }
    ensures handled { IfOk result (λ b. map handled b.items ≡ handled_by_hold) }
{
    let OfH {
        start,
        go,
        answer,
        halt,
    } = of_h;
    let states = STATES_OF_H.as_slice();
    let uses = USES_OF_H.as_slice();
    let h = behaviour_in(alloc, H, states, uses, start)?;
    let h = with_row_in(h, WAIT, GO, go)?;
    let h = with_row_in(h, RUN, DATA, answer)?;
    let h = with_row_in(h, RUN, HALT, halt)?;
    let h = with_save(h, WAIT, DATA)?;
    let behaviours = Vec::from_array(alloc, [h])?;
    Ok(behaviours)
}
