//! What the ledger of every run says. These functions do nothing: they carry the proofs.
ghost use Rattle.std.specs.Prelude.{◌≡◌, ℕ, ◌+◌, ◌≤◌, List, [], ◌∷◌, Some, length, sum_by};
ghost use Rattle.sdl_signal.specs.declared.ids.BlockId.{BlockId};
ghost use Rattle.sdl_instances_log.specs.declared.event.Event.{Event};
ghost use Rattle.sdl_instances.specs.Machine.{State, System};
ghost use Rattle.sdl_instances.specs.Run.{IsRun, waiting};
ghost use Rattle.sdl_run_ledger.specs.declared.ledger.Ledger.{Ledger};
ghost use Rattle.sdl_run_outcome.specs.Plan.{Plan};
ghost use Rattle.sdl_run_outcome.specs.Outcome.{Outcome};
ghost use Rattle.sdl_run_outcome.specs.Ring.{leaves, tok, no_one};
ghost use Rattle.sdl_run_ledger.specs.Counts.{IsTraced, IsLimited, IsLedgerOf, Balances, CountsFit, waiting_in, most_outputs, entered_in, fired_in, implicit_in, stopped_in};

use sdl_transition::Agents;

/// In a run of a block, each signal that entered a port was consumed, or was there when the instance stopped, or still waits.
pub fn ports_balance<S: Agents>()
    ensures all { (sys : System) (block : BlockId) (log : List Event) (final : State) → IsRun S.may sys block log final
        → sum_by entered_in log ≡ sum_by fired_in log + sum_by implicit_in log + sum_by stopped_in log + waiting final.living }
    ensures few { (sys : System) (block : BlockId) (log : List Event) (final : State) → IsRun S.may sys block log final → waiting final.living ≤ length log }
{}

/// The ledger of a run that has stopped balances.
pub fn balances<S: Agents>()
    ensures { (plan : Plan) (o : Outcome) (finals : List State) (l : Ledger) → IsTraced S.may plan o finals → IsLedgerOf o (waiting_in finals) l → Balances l }
{}

/// The counts of a run that kept to its limits are small.
pub fn counts_fit<S: Agents>()
    ensures { (plan : Plan) (o : Outcome) (finals : List State) → IsTraced S.may plan o finals → IsLimited o → CountsFit o }
{}

/// Few signals wait in the ports of a run that kept to its limits.
pub fn waits_few<S: Agents>()
    ensures { (plan : Plan) (o : Outcome) (finals : List State) → IsTraced S.may plan o finals → IsLimited o → waiting_in finals ≤ most_outputs }
{}

/// Of the run of Ring in which each block makes two turns: three outputs, of which two entered and were consumed, and one is
/// left. A ledger that leaves that one out is not its ledger, nor is one without the signal that a worker holds.
pub fn ring_is_counted()
    ensures counts { (l : Ledger) → IsLedgerOf (leaves (tok 2 0 1 ∷ [])) (waiting_in (no_one ∷ no_one ∷ [])) l → (l.output ≡ 3) × (l.entered ≡ 2) × (l.fired ≡ 2) × (l.left ≡ 1) × Balances l }
    ensures left_out { (l : Ledger) (waiting : ℕ) → IsLedgerOf (leaves (tok 2 0 1 ∷ [])) waiting l → l.left ≡ 0 → ⊥ }
    ensures in_hand { (l : Ledger) (waiting : ℕ) → IsLedgerOf (record (leaves []) { hands = record { kept = Some (tok 2 0 1); outgoing = [] } ∷ [] }) waiting l → l.left ≡ 0 → ⊥ }
{}
