//! What an audit says of runs. These functions do nothing: they carry the proofs.
ghost use Rattle.std.specs.Prelude.{◌≡◌, ◌⊎◌, [], ◌∷◌, Result, Ok, Err};
ghost use Rattle.sdl_run_ledger.specs.declared.ledger.Ledger.{Ledger};
ghost use Rattle.sdl_run_ledger.specs.Counts.{IsLedgerOf, Balances};
ghost use Rattle.sdl_run_outcome.specs.declared.end.RunEnd.{RunEnd};
ghost use Rattle.sdl_run_outcome.specs.Plan.{Plan};
ghost use Rattle.sdl_run_outcome.specs.Outcome.{Outcome};
ghost use Rattle.sdl_run_outcome.specs.Ring.{plan, tok, leaves};
ghost use Rattle.sdl_run_driver.specs.Ended.{HasEnded};
ghost use Rattle.sdl_run_audit.specs.declared.fault.AuditFault.{AuditFault};
ghost use Rattle.sdl_run_audit.specs.declared.fault.AuditFault.TheVariants as fault;
ghost use Rattle.sdl_run_audit.specs.Audits.{Answers};

use sdl_transition::Agents;

/// What a run leaves that has ended passes its audit, unless memory is refused to the audit.
pub fn a_run_passes<S: Agents>()
    ensures { (p : Plan) (o : Outcome) (end : RunEnd) (l : Ledger) → HasEnded S.may p o end l → (answer : Result (Unit {0}) AuditFault) → Answers p o l answer → (answer ≡ Ok tt) ⊎ (answer ≡ Err fault.Memory) }
{}

/// The run of Ring in which each block makes two turns passes with its ledger. Where the signal that is left is lost, the first
/// route is at fault, and no other; and a ledger that leaves it out is at fault.
pub fn ring_is_audited()
    ensures right { (l : Ledger) → IsLedgerOf (leaves (tok 2 0 1 ∷ [])) l.waiting l → Balances l → Answers (plan 2) (leaves (tok 2 0 1 ∷ [])) l (Ok tt) }
    ensures lost { (l : Ledger) → Answers (plan 2) (leaves []) l (Ok tt) → ⊥ }
    ensures second { (l : Ledger) → Answers (plan 2) (leaves []) l (Err (fault.Route (record { 0 = 1 }))) → ⊥ }
    ensures first { (l : Ledger) → Answers (plan 2) (leaves []) l (Err (fault.Ledger)) → ⊥ }
    ensures left_out { (l : Ledger) → l.left ≡ 0 → Answers (plan 2) (leaves (tok 2 0 1 ∷ [])) l (Ok tt) → ⊥ }
{}
