//! What holds wherever the driver stops. The function does nothing: it carries the proof.
ghost use Rattle.sdl_run_outcome.specs.declared.end.RunEnd.{RunEnd};
ghost use Rattle.sdl_run_outcome.specs.Plan.{Plan, IsPlan};
ghost use Rattle.sdl_run_outcome.specs.Ends.{EndsAs};
ghost use Rattle.sdl_run_ledger.specs.declared.ledger.Ledger.{Ledger};
ghost use Rattle.sdl_run_ledger.specs.Counts.{IsLedgerOf, waiting_in};
ghost use Rattle.sdl_run_order.specs.Driver.{Site, IsAtWork, outcome_of, finals_of};
ghost use Rattle.sdl_run_driver.specs.Ended.{HasEnded};

use sdl_transition::Agents;

/// Wherever the driver stops, all holds that holds of a run that has ended, once its end and its ledger
/// are known.
pub fn has_ended<S: Agents>()
    ensures { (plan : Plan) (site : Site) (end : RunEnd) (ledger : Ledger) → IsPlan plan → IsAtWork S.may plan site → EndsAs plan (outcome_of site) (finals_of site) end
        → IsLedgerOf (outcome_of site) (waiting_in (finals_of site)) ledger → HasEnded S.may plan (outcome_of site) end ledger }
{}
