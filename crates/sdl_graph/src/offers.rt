//! Offers, put together.
ghost use Rattle.std.specs.Prelude.{◌≡◌, ◌<◌, ◌≤◌, [], ◌∷◌, ◌++◌, ◌↔◌, true, false, Some, None, IsTrue, length, map};
ghost use Rattle.arrayvec.specs.ArrayVec.{array_vec_len};
ghost use Rattle.sdl_transition_conformance.specs.Stay.{CanEnd};
ghost use Rattle.sdl_signal.specs.Sorts.{sort_of};
ghost use Rattle.sdl_graph.specs.Drafts.{sorted};
ghost use Rattle.sdl_graph.specs.Lists.{offered_as, states_below};

use crate::limits::fitting_sorts;
use crate::lists::{SetLists, listed_outputs, listed_sets, sorts_of, states_to};
use arrayvec::ArrayVec;
use sdl_signal::{SetId, SignalId, Sort, StateId, Value};
use sdl_transition_behaviour::{Offer, OfferedOutput, SignalSorts, Via};
use std::marker::Model;

/// An offer that is being put together. What finds no room is remembered: then `build` gives an offer that cannot end.
#[derive(Drop)]
pub struct OfferBuilder {
    offer: Offer,
    fits: bool,
}

impl Model for OfferBuilder {
    ghost use Rattle.sdl_graph.specs.Drafts.{OfferDraft};

    ghost Value = { OfferDraft };

    ghost view = { λ b. record { offer = b.offer; fits = b.fits } };
}

/// An offer that cannot end, for a number without a transition: it has no next state and may not stop, so that no step
/// conforms to it.
pub fn no_offer() -> Offer
    ensures { ¬ CanEnd result }
{
    Offer {
        state: None,
        signal: None,
        vars: ArrayVec::new(),
        outputs: ArrayVec::new(),
        creates: ArrayVec::new(),
        nexts: ArrayVec::new(),
        may_stop: false,
        sets: 0,
    }
}

impl OfferBuilder {
    /// The offer of a start, for a structure of so many sets, of an agent with variables of these sorts, at most 8.
    pub fn start(sets: u32, vars: &[Sort]) -> OfferBuilder
        ensures fits { IsTrue result.fits ↔ (length vars.now ≤ 8) }
        ensures offer { IsTrue result.fits → result.offer ≡ record {
          state = None;
          signal = None;
          vars = record { items = vars.now };
          outputs = record { items = [] };
          creates = record { items = [] };
          nexts = record { items = [] };
          may_stop = false;
          sets = sets;
        } }
    {
        match fitting_sorts(vars) {
            Some(vars) => {
                let offer = Offer {
                    state: None,
                    signal: None,
                    vars,
                    outputs: ArrayVec::new(),
                    creates: ArrayVec::new(),
                    nexts: ArrayVec::new(),
                    may_stop: false,
                    sets,
                };
                OfferBuilder { offer, fits: true }
            }
            None => OfferBuilder {
                offer: no_offer(),
                fits: false,
            },
        }
    }

    /// The offer of a start that may do all that its set may, by the structure file: each output of its lists, each create in its block,
    /// each of so many states, and a stop. Its agents have variables of the sorts of these values.
    pub fn all(lists: &SetLists, states: usize, variables: &[Value]) -> OfferBuilder
        ensures fits { IsTrue result.fits ↔ (length variables.now ≤ 8 × length lists.now.outward.now ≤ 16 × length lists.now.creates.now ≤ 8 × states ≤ 16) }
        ensures offer { IsTrue result.fits → result.offer ≡ record {
          state = None;
          signal = None;
          vars = record { items = map sort_of variables.now };
          outputs = record { items = map offered_as lists.now.outward.now };
          creates = record { items = lists.now.creates.now };
          nexts = record { items = states_below states };
          may_stop = true;
          sets = lists.now.sets;
        } }
    {
        let short = variables.len() <= 8 && lists.outward.len() <= 16;
        let fits = short && lists.creates.len() <= 8 && states <= 16;
        if !fits {
            let offer = no_offer();
            return OfferBuilder { offer, fits };
        }
        let offer = Offer {
            state: None,
            signal: None,
            vars: sorts_of(variables),
            outputs: listed_outputs(lists.outward),
            creates: listed_sets(lists.creates),
            nexts: states_to(states as u32),
            may_stop: true,
            sets: lists.sets,
        };
        OfferBuilder { offer, fits }
    }

    /// The same, of a row in the state for the signal, with parameters of these sorts, at most 4.
    pub fn row(self, state: StateId, id: SignalId, sorts: &[Sort]) -> OfferBuilder
        ensures fits { IsTrue result.fits ↔ (IsTrue self.fits × length sorts.now ≤ 4) }
        ensures offer { IsTrue result.fits → result.offer ≡ record self.offer { state = Some state; signal = Some (sorted id sorts.now) } }
    {
        let OfferBuilder { offer, fits } = self;
        let mut offer = offer;
        match fitting_sorts(sorts) {
            Some(sorts) => {
                offer.state = Some(state);
                offer.signal = Some(SignalSorts { id, sorts });
                OfferBuilder { offer, fits }
            }
            None => OfferBuilder { offer, fits: false },
        }
    }

    /// It may output the signal, with parameters of these sorts, at most 4, with this VIA. There are at most 16 outputs.
    pub fn output(self, id: SignalId, sorts: &[Sort], via: Via) -> OfferBuilder
        ensures fits { IsTrue result.fits ↔ (IsTrue self.fits × length sorts.now ≤ 4 × array_vec_len self.offer.outputs < 16) }
        ensures offer { IsTrue result.fits → result.offer ≡ record self.offer {
          outputs = record { items = self.offer.outputs.items ++ record { signal = sorted id sorts.now; via = via } ∷ [] };
        } }
    {
        let OfferBuilder { offer, fits } = self;
        let mut offer = offer;
        match fitting_sorts(sorts) {
            Some(sorts) => {
                let signal = SignalSorts { id, sorts };
                let added = offer
                    .outputs
                    .try_push(OfferedOutput { signal, via })
                    .is_ok();
                OfferBuilder {
                    offer,
                    fits: fits && added,
                }
            }
            None => OfferBuilder { offer, fits: false },
        }
    }

    /// It may create an instance of the set. There are at most 8 such sets.
    pub fn create(self, set: SetId) -> OfferBuilder
        ensures fits { IsTrue result.fits ↔ (IsTrue self.fits × array_vec_len self.offer.creates < 8) }
        ensures offer { IsTrue result.fits → result.offer ≡ record self.offer { creates = record { items = self.offer.creates.items ++ set ∷ [] } } }
    {
        let OfferBuilder { offer, fits } = self;
        let mut offer = offer;
        let added = offer.creates.try_push(set).is_ok();
        OfferBuilder {
            offer,
            fits: fits && added,
        }
    }

    /// It may lead to the state. There are at most 16 next states.
    pub fn next_state(self, state: StateId) -> OfferBuilder
        ensures fits { IsTrue result.fits ↔ (IsTrue self.fits × array_vec_len self.offer.nexts < 16) }
        ensures offer { IsTrue result.fits → result.offer ≡ record self.offer { nexts = record { items = self.offer.nexts.items ++ state ∷ [] } } }
    {
        let OfferBuilder { offer, fits } = self;
        let mut offer = offer;
        let added = offer.nexts.try_push(state).is_ok();
        OfferBuilder {
            offer,
            fits: fits && added,
        }
    }

    /// It may stop.
    pub fn may_stop(self) -> OfferBuilder
        ensures { result ≡ record self { offer = record self.offer { may_stop = true } } }
    {
        let OfferBuilder { offer, fits } = self;
        let mut offer = offer;
        offer.may_stop = true;
        OfferBuilder { offer, fits }
    }

    /// The offer where all that was said of it found room, and else one that cannot end.
    pub fn build(self) -> Offer
        ensures whole { IsTrue self.fits → result ≡ self.offer }
        ensures none { ¬ IsTrue self.fits → ¬ CanEnd result }
    {
        if self.fits { self.offer } else { no_offer() }
    }
}
