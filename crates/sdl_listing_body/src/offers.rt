//! The offer of a row, found in its body.
ghost use Rattle.std.specs.Prelude.{◌≡◌, ◌+◌, ◌≤◌, ◌↔◌, ◌++◌, IsTrue, length};
ghost use Rattle.arrayvec.specs.ArrayVec.{array_vec_len};
ghost use Rattle.std.specs.List.{list_any};
ghost use Rattle.sdl_listing_body.specs.Offering.{sorts_of, output_of, same_sorts, same_output, same_set, same_state, with_new, with_next, with_body, offer_before};
ghost use Rattle.sdl_listing_body.specs.Offering as rule;
ghost use Rattle.sdl_listing_body.specs.Sound.{most_params, HasRoom};

use crate::syntax::{Body, Params, Row};
use arrayvec::ArrayVec;
use sdl_listing_expression::sort_of;
use sdl_signal::{SetId, SignalId, Sort, StateId};
use sdl_transition_behaviour::{Next, Offer, OfferedOutput, SignalSorts, Via};

fn add_sorts(params: &Params, sorts: &mut ArrayVec<Sort, 4>)
    requires { array_vec_len sorts.old + length (sorts_of params.now) ≤ 4 }
    ensures { sorts.new.items ≡ sorts.old.items ++ sorts_of params.now }
{
    match params {
        Params::Nothing => {}
        Params::First { value, rest } => {
            sorts.push(sort_of(value));
            add_sorts(rest, sorts);
        }
    }
}

fn offered(id: SignalId, params: &Params, via: Via) -> OfferedOutput
    requires { length (sorts_of params.now) ≤ 4 }
    ensures { result ≡ output_of id params.now via }
{
    let mut sorts = ArrayVec::new();
    add_sorts(params, &mut sorts);
    OfferedOutput {
        signal: SignalSorts { id, sorts },
        via,
    }
}

fn are_same(a: &[Sort], b: &[Sort]) -> bool
    ensures { result ≡ same_sorts a.now b.now }
{
    match a {
        [] => match b {
            [] => true,
            [_, _rest @ ..] => false,
        },
        [sort, rest @ ..] => match b {
            [] => false,
            [other, others @ ..] => *sort == *other && are_same(rest, others),
        },
    }
}

fn is_output(a: &OfferedOutput, b: &OfferedOutput) -> bool
    ensures { result ≡ same_output a.now b.now }
{
    a.signal.id.0 == b.signal.id.0
        && a.via == b.via
        && are_same(a.signal.sorts.as_slice(), b.signal.sorts.as_slice())
}

fn has_output(outputs: &[OfferedOutput], output: &OfferedOutput) -> bool
    ensures { result ≡ list_any (λ other. same_output other output.now) outputs.now }
{
    outputs.iter().any(|other| is_output(other, output))
}

fn has_create(creates: &[SetId], set: SetId) -> bool
    ensures { result ≡ list_any (λ other. same_set other set) creates.now }
{
    creates.iter().any(|other| other.0 == set.0)
}

fn has_next(nexts: &[StateId], state: StateId) -> bool
    ensures { result ≡ list_any (λ other. same_state other state) nexts.now }
{
    nexts.iter().any(|other| other.0 == state.0)
}

/// Adds the output, unless it is there, and says whether there was room for it.
fn add_output(outputs: &mut ArrayVec<OfferedOutput, 16>, output: OfferedOutput) -> bool
    ensures room { IsTrue result ↔ (length (with_new same_output outputs.old.items output) ≤ 16) }
    ensures added { IsTrue result → outputs.new.items ≡ with_new same_output outputs.old.items output }
{
    has_output(outputs.as_slice(), &output) || outputs.try_push(output).is_ok()
}

/// Adds the set, unless it is there, and says whether there was room for it.
fn add_create(creates: &mut ArrayVec<SetId, 8>, set: SetId) -> bool
    ensures room { IsTrue result ↔ (length (with_new same_set creates.old.items set) ≤ 8) }
    ensures added { IsTrue result → creates.new.items ≡ with_new same_set creates.old.items set }
{
    has_create(creates.as_slice(), set) || creates.try_push(set).is_ok()
}

/// Adds the state, unless it is there, and says whether there was room for it.
fn add_state(nexts: &mut ArrayVec<StateId, 16>, state: StateId) -> bool
    ensures room { IsTrue result ↔ (length (with_new same_state nexts.old.items state) ≤ 16) }
    ensures added { IsTrue result → nexts.new.items ≡ with_new same_state nexts.old.items state }
{
    has_next(nexts.as_slice(), state) || nexts.try_push(state).is_ok()
}

fn add_next(offer: &mut Offer, next: Next) -> bool
    requires { HasRoom offer.old }
    ensures room { IsTrue result ↔ HasRoom (with_next offer.old next) }
    ensures added { IsTrue result → offer.new ≡ with_next offer.old next }
{
    match next {
        Next::State(state) => add_state(&mut offer.nexts, state),
        Next::Stop => {
            offer.may_stop = true;
            true
        }
    }
}

/// Adds what the body may do to the offer, and says whether there was room for all of it.
pub(crate) fn collect(body: &Body, offer: &mut Offer) -> bool
    requires params { most_params body.now ≤ 4 }
    requires before { HasRoom offer.old }
    ensures room { IsTrue result ↔ HasRoom (with_body body.now offer.old) }
    ensures added { IsTrue result → offer.new ≡ with_body body.now offer.old }
{
    match body {
        Body::Nothing => true,
        Body::Output {
            signal,
            params,
            via,
            rest,
            ..
        } => add_output(&mut offer.outputs, offered(*signal, params, *via)) && collect(rest, offer),
        Body::Create { set, rest } => add_create(&mut offer.creates, *set) && collect(rest, offer),
        Body::Assign { rest, .. } => collect(rest, offer),
        Body::If { yes, no, rest, .. } => {
            collect(yes, offer) && collect(no, offer) && collect(rest, offer)
        }
        Body::End(next) => add_next(offer, *next),
    }
}

fn copied_sorts<const N: usize>(sorts: &ArrayVec<Sort, N>) -> ArrayVec<Sort, N>
    ensures { result ≡ sorts.now }
{
    let mut copy = ArrayVec::new();
    match copy.try_extend_from_slice(sorts.as_slice()) {
        Ok(()) => copy,
        Err(_) => unreachable!(),
    }
}

fn copied_trigger(signal: &Option<SignalSorts>) -> Option<SignalSorts>
    ensures { result ≡ signal.now }
{
    match signal {
        Some(signal) => Some(SignalSorts {
            id: signal.id,
            sorts: copied_sorts(&signal.sorts),
        }),
        None => None,
    }
}

/// An offer for the row's state and signal, and nothing yet that it may do.
pub(crate) fn blank_offer(row: &Row) -> Offer
    ensures { result ≡ offer_before row.now }
{
    Offer {
        state: row.state,
        signal: copied_trigger(&row.signal),
        vars: copied_sorts(&row.vars),
        outputs: ArrayVec::new(),
        creates: ArrayVec::new(),
        nexts: ArrayVec::new(),
        may_stop: false,
        sets: row.sets,
    }
}

/// What the row offers: all that a step of it may be, and nothing twice. No memory is taken.
pub fn offer_of(row: &Row) -> Offer
    requires params { most_params row.now.body ≤ 4 }
    requires room { HasRoom (rule.offer_of row.now) }
    ensures { result ≡ rule.offer_of row.now }
{
    let mut offer = blank_offer(row);
    let _fits = collect(&row.body, &mut offer);
    offer
}
