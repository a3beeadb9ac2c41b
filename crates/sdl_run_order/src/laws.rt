//! What holds of every run. These functions do nothing: they carry the proofs.
ghost use Rattle.sdl_run_outcome.specs.Stations.{Ways, AreWays};
ghost use Rattle.sdl_run_outcome.specs.Books.{Books, InOrder, outs, came, left};
ghost use Rattle.sdl_run_outcome.specs.Steps.{Steps};
ghost use Rattle.sdl_instances.specs.Machine.{State};
ghost use Rattle.std.specs.Prelude.{◌≡◌, ℕ, List, [], ◌∷◌, ◌++◌, Option, Some, true, false};
ghost use Rattle.sdl_signal.specs.declared.ends.InputEnd.TheVariants as input;
ghost use Rattle.sdl_signal.specs.declared.ends.OutputEnd.TheVariants as output;
ghost use Rattle.sdl_signal.specs.Names.{Lexicon};
ghost use Rattle.sdl_structure_parts.specs.Structure.{Structure};
ghost use Rattle.sdl_routes.specs.declared.route.TableRow.{TableRow};
ghost use Rattle.sdl_run_outcome.specs.declared.environment_output.EnvOut.TheVariants as env_out;
ghost use Rattle.sdl_run_outcome.specs.EnvironmentWork.{HasReadAll, HasWritten, AreCounted, received_text, env_origins};
ghost use Rattle.sdl_signal.specs.declared.values.Item.{Item};
ghost use Rattle.sdl_instances_log.specs.declared.event.Trigger.TheVariants as trigger;
ghost use Rattle.sdl_instances.specs.Run.{IsStamped};
ghost use Rattle.sdl_forward_opening.specs.declared.worker.Worker.TheVariants.{Block, Environment, Forwarder};
ghost use Rattle.sdl_run_outcome.specs.Ends.{IsSpentAt, IsQuiet};
ghost use Rattle.sdl_run_order.specs.Driver.{Site, IsAtWork, IsFresh};
ghost use Rattle.sdl_run_outcome.specs.Ring.{plan, block, hop, tok, leaves, no_one, stops_early, enters, sends};
ghost use Rattle.sdl_run_outcome.specs.Plan.{Plan, IsPlan, ways_of, workers_of};
ghost use Rattle.sdl_run_outcome.specs.Outcome.{Outcome, IsComplete, IsLawful, Headline, books_of};

use sdl_transition::Agents;

/// The order along each route outlasts each serial step.
pub fn outlasts_steps()
    ensures { (t : Ways) (b c : Books) → AreWays t → InOrder t b → Steps t b c → InOrder t c }
{}

/// The headline of a run that has ended, from the order along each route and the logs, which are runs.
pub fn has_headline<S: Agents>()
    ensures { (plan : Plan) (o : Outcome) (finals : List State) → IsPlan plan → IsComplete plan o → InOrder (ways_of plan) (books_of plan o) → IsLawful S.may plan o finals → Headline S.may plan o finals }
{}

/// At the start, where every queue is empty and no event has happened, the routes are in order.
pub fn starts_in_order<S: Agents>()
    ensures { (plan : Plan) (start : Site) → IsFresh S.may plan start → IsAtWork S.may plan start }
{}

/// A run of Ring in which each block makes two turns ends with the least block whose budget is used. Along each route, what
/// was output is what came and what is left.
pub fn ring_ends_spent()
    ensures workers { workers_of (plan 2) ≡ Block (block 0) ∷ Block (block 1) ∷ Environment ∷ Forwarder (hop 0 false) ∷ Forwarder (hop 0 true) ∷ Forwarder (hop 1 false) ∷ Forwarder (hop 1 true) ∷ Forwarder (hop 2 false) ∷ Forwarder (hop 2 true) ∷ [] }
    ensures there { (outs (ways_of (plan 2)) (books_of (plan 2) (leaves (tok 2 0 1 ∷ []))) 0 ≡ tok 0 0 0 ∷ tok 2 0 1 ∷ []) × (came (ways_of (plan 2)) (books_of (plan 2) (leaves (tok 2 0 1 ∷ []))) 0 ≡ tok 0 0 0 ∷ []) × (left (ways_of (plan 2)) (books_of (plan 2) (leaves (tok 2 0 1 ∷ []))) 0 ≡ tok 2 0 1 ∷ []) }
    ensures back { (outs (ways_of (plan 2)) (books_of (plan 2) (leaves (tok 2 0 1 ∷ []))) 1 ≡ tok 1 1 0 ∷ []) × (came (ways_of (plan 2)) (books_of (plan 2) (leaves (tok 2 0 1 ∷ []))) 1 ≡ tok 1 1 0 ∷ []) × (left (ways_of (plan 2)) (books_of (plan 2) (leaves (tok 2 0 1 ∷ []))) 1 ≡ []) }
    ensures ends { IsSpentAt (plan 2) (leaves (tok 2 0 1 ∷ [])) (no_one ∷ no_one ∷ []) 0 }
{}

/// A lost signal breaks the order. No end names a budget that is not used, a block that is not the least, or one beside
/// which another is not settled; and no run is quiet with a signal in an inlet. No logs show signals that go round between
/// two blocks and that nobody started. No environment has read an input whole of which it read nothing, or written whole
/// what it received where it wrote nothing; and its outputs are numbered from 0.
pub fn wrong_runs_are_refused()
    ensures lost { outs (ways_of (plan 2)) (books_of (plan 2) (leaves [])) 0 ≡ came (ways_of (plan 2)) (books_of (plan 2) (leaves [])) 0 ++ left (ways_of (plan 2)) (books_of (plan 2) (leaves [])) 0 → ⊥ }
    ensures unused { (finals : List State) (b : ℕ) → IsSpentAt (plan 3) (leaves (tok 2 0 1 ∷ [])) finals b → ⊥ }
    ensures not_least { (finals : List State) → IsSpentAt (plan 2) (leaves (tok 2 0 1 ∷ [])) finals 1 → ⊥ }
    ensures unsettled { (finals : List State) → IsSpentAt (plan 2) stops_early finals 0 → ⊥ }
    ensures not_quiet { (finals : List State) → IsQuiet (plan 2) (leaves (tok 2 0 1 ∷ [])) finals → ⊥ }
    ensures unread { (s : Structure) (routes : List TableRow) (worker byte : ℕ) (bytes : List ℕ) (now : Option (List ℕ)) → HasReadAll s routes worker (Some (byte ∷ bytes)) now [] input.Whole → ⊥ }
    ensures unwritten { (names : Lexicon) (routes : List TableRow) (i : Item) (items : List Item) (start : List ℕ) → HasWritten (Some start) (Some start) (received_text names routes (i ∷ items)) output.Whole → ⊥ }
    ensures misnumbered { AreCounted 2 0 (env_origins (env_out.Sent (tok 0 2 1) ∷ [])) → ⊥ }
    ensures no_loop { (a b : Item) → IsStamped 0 (enters a ∷ sends (trigger.Fire a) (b ∷ []) ∷ []) → IsStamped 0 (enters b ∷ sends (trigger.Fire b) (a ∷ []) ∷ []) → ⊥ }
{}
