//! Copies of offers, which take no memory.
ghost use Rattle.std.specs.Prelude.{◌≡◌, ◌≤◌, ◌+◌, ◌++◌, length};
ghost use Rattle.arrayvec.specs.ArrayVec.{array_vec_len};

use arrayvec::ArrayVec;
use sdl_signal::{SetId, Sort, StateId};
use sdl_transition_behaviour::{Offer, OfferedOutput, SignalSorts};

fn copied_sorts<const N: usize>(sorts: &ArrayVec<Sort, N>) -> ArrayVec<Sort, N>
    ensures { result ≡ sorts.now }
{
    let mut copy = ArrayVec::new();
    match copy.try_extend_from_slice(sorts.as_slice()) {
        Ok(()) => copy,
        Err(_) => unreachable!(),
    }
}

fn copied_states(states: &ArrayVec<StateId, 16>) -> ArrayVec<StateId, 16>
    ensures { result ≡ states.now }
{
    let mut copy = ArrayVec::new();
    match copy.try_extend_from_slice(states.as_slice()) {
        Ok(()) => copy,
        Err(_) => unreachable!(),
    }
}

fn copied_sets(sets: &ArrayVec<SetId, 8>) -> ArrayVec<SetId, 8>
    ensures { result ≡ sets.now }
{
    let mut copy = ArrayVec::new();
    match copy.try_extend_from_slice(sets.as_slice()) {
        Ok(()) => copy,
        Err(_) => unreachable!(),
    }
}

fn copied_signal(signal: &SignalSorts) -> SignalSorts
    ensures { result ≡ signal.now }
{
    SignalSorts {
        id: signal.id,
        sorts: copied_sorts(&signal.sorts),
    }
}

fn copied_trigger(signal: &Option<SignalSorts>) -> Option<SignalSorts>
    ensures { result ≡ signal.now }
{
    match signal {
        Some(signal) => Some(copied_signal(signal)),
        None => None,
    }
}

fn copied_output(output: &OfferedOutput) -> OfferedOutput
    ensures { result ≡ output.now }
{
    OfferedOutput {
        signal: copied_signal(&output.signal),
        via: output.via,
    }
}

fn with_outputs(
    copy: ArrayVec<OfferedOutput, 16>,
    outputs: &[OfferedOutput],
) -> ArrayVec<OfferedOutput, 16>
    requires { array_vec_len copy + length outputs.now ≤ 16 }
    ensures { result.items ≡ copy.items ++ outputs.now }
{
    match outputs {
        [] => copy,
        [output, rest @ ..] => {
            let mut copy = copy;
            copy.push(copied_output(output));
            with_outputs(copy, rest)
        }
    }
}

/// The same offer.
pub fn copied_offer(offer: &Offer) -> Offer
    ensures { result ≡ offer.now }
{
    Offer {
        state: offer.state,
        signal: copied_trigger(&offer.signal),
        vars: copied_sorts(&offer.vars),
        outputs: with_outputs(ArrayVec::new(), offer.outputs.as_slice()),
        creates: copied_sets(&offer.creates),
        nexts: copied_states(&offer.nexts),
        may_stop: offer.may_stop,
        sets: offer.sets,
    }
}
