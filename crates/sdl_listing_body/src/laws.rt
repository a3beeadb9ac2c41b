//! The law of rows. The function does nothing: it carries the proof.
ghost use Rattle.sdl_transition_behaviour.specs.declared.step.Frame.{Frame};
ghost use Rattle.sdl_transition_behaviour.specs.declared.step.Step.{Step};
ghost use Rattle.sdl_transition_behaviour.specs.Offers.{IsFrameOf, Conforms};
ghost use Rattle.sdl_listing_body.specs.declared.syntax.Row.{Row};
ghost use Rattle.sdl_listing_body.specs.Doing.{IsStepOf};
ghost use Rattle.sdl_listing_body.specs.Offering.{offer_of};
ghost use Rattle.sdl_listing_body.specs.Sound.{IsSortedBody, scope_of};

/// What a row with its sorts says for a frame of its offer conforms to that offer.
pub fn steps_conform()
    ensures { (row : Row) (frame : Frame) (step : Step) → IsSortedBody (scope_of row) row.body → IsFrameOf (offer_of row) frame → IsStepOf row frame step → Conforms (offer_of row) step }
{}
