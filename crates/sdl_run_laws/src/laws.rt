//! What the promises of a run say of a whole run of Echo. These functions do nothing: they carry the proofs.
ghost use Rattle.std.specs.Prelude.{◌≡◌, ℕ, List, [], ◌∷◌, ◌++◌, Some, slice_get, codes};
ghost use Rattle.sdl_signal.specs.declared.values.Item.{Item};
ghost use Rattle.sdl_signal.specs.declared.values.Origin.{Origin};
ghost use Rattle.sdl_signal.specs.declared.reading.LineFault.{LineFault};
ghost use Rattle.sdl_signal.specs.declared.ends.InputEnd.TheVariants as input;
ghost use Rattle.sdl_signal.specs.declared.ends.OutputEnd.TheVariants as output;
ghost use Rattle.sdl_signal_lines.specs.Bytes.{ended_line};
ghost use Rattle.sdl_structure_parts.specs.Structure.{lexicon_of};
ghost use Rattle.sdl_agents.specs.Tables.{EchoMay};
ghost use Rattle.sdl_instances.specs.Machine.{State};
ghost use Rattle.sdl_run_outcome.specs.declared.environment_output.EnvOut.TheVariants as env_out;
ghost use Rattle.sdl_run_outcome.specs.declared.end.RunEnd.{RunEnd};
ghost use Rattle.sdl_run_outcome.specs.declared.end.RunEnd.TheVariants as run_end;
ghost use Rattle.sdl_run_outcome.specs.Books.{NoOther, outs, came, left};
ghost use Rattle.sdl_run_outcome.specs.Causes.{IsCause};
ghost use Rattle.sdl_run_outcome.specs.EnvironmentWork.{HasReadAll, HasWritten, received_text};
ghost use Rattle.sdl_run_outcome.specs.Plan.{ways_of};
ghost use Rattle.sdl_run_outcome.specs.Outcome.{IsComplete, IsLawful, Headline, LeftsAreLegal, books_of, all_origins, log_at};
ghost use Rattle.sdl_run_outcome.specs.Ends.{IsQuiet, IsSpentAt, EndsAs};
ghost use Rattle.sdl_run_outcome.specs.Ring.{no_hand};
ghost use Rattle.sdl_run_ledger.specs.declared.ledger.Ledger.{Ledger};
ghost use Rattle.sdl_run_ledger.specs.Counts.{IsLedgerOf, Balances, waiting_in};
ghost use Rattle.sdl_run_driver.specs.Closings.{StopsByMemory};
ghost use Rattle.sdl_run_driver.specs.Ended.{HasEnded};
ghost use Rattle.sdl_run_laws.specs.Echo.{echo, routes, plan};
ghost use Rattle.sdl_run_laws.specs.EchoRun.{leaves, final, rests, ledger, ping, pong, starts, enters, answers, log_of, with_log, with_put, with_received, with_rests, input_text, output_text};

/// The environment of Echo reads `line ping 7` and writes `line pong 7`: its reading and its writing are those of the run.
pub fn echo_reads_and_writes()
    ensures reading { HasReadAll echo routes 1 (Some input_text) (Some []) leaves.env_put input.Whole }
    ensures writing { HasWritten (Some []) (Some output_text) (received_text (lexicon_of echo) routes leaves.env_received) output.Whole }
    ensures stopped { StopsByMemory input.Whole run_end.Quiet }
{}

/// Its ledger counts two outputs, of which one was consumed and one received, and balances.
pub fn echo_is_counted()
    ensures counts { IsLedgerOf leaves (waiting_in (final ∷ [])) ledger }
    ensures balanced { Balances ledger }
{}

/// Its log is a run of the agents of Echo, and with it the run has the headline.
pub fn echo_is_lawful()
    ensures lawful { IsLawful EchoMay plan leaves (final ∷ []) }
    ensures headline { Headline EchoMay plan leaves (final ∷ []) }
{}

/// All holds of it that holds of a run that has ended, and it is quiet.
pub fn echo_has_ended()
    ensures complete { IsComplete plan leaves }
    ensures ended { HasEnded EchoMay plan leaves run_end.Quiet ledger }
{}

/// No other reading and no other writing is that of the run: not one without the output of a line, of another agent, of
/// another value, or with a fault in the line; and what was written is the text once, whole, and no other.
pub fn changed_streams_are_refused()
    ensures unread { HasReadAll echo routes 1 (Some input_text) (Some []) [] input.Whole → ⊥ }
    ensures other_worker { HasReadAll echo routes 0 (Some input_text) (Some []) leaves.env_put input.Whole → ⊥ }
    ensures other_value { HasReadAll echo routes 1 (Some input_text) (Some []) (env_out.Sent (ping 8) ∷ []) input.Whole → ⊥ }
    ensures bad_line { (fault : LineFault) → HasReadAll echo routes 1 (Some input_text) (Some []) leaves.env_put (input.BadLine 1 fault) → ⊥ }
    ensures unwritten { HasWritten (Some []) (Some []) (received_text (lexicon_of echo) routes leaves.env_received) output.Whole → ⊥ }
    ensures written_twice { HasWritten (Some []) (Some (output_text ++ output_text)) (received_text (lexicon_of echo) routes leaves.env_received) output.Whole → ⊥ }
    ensures other_text { HasWritten (Some []) (Some (ended_line (codes "line pong 8"))) (received_text (lexicon_of echo) routes leaves.env_received) output.Whole → ⊥ }
    ensures no_fault { HasWritten (Some []) (Some output_text) (received_text (lexicon_of echo) routes leaves.env_received) output.WriteFault → ⊥ }
    ensures stopped_short { StopsByMemory (input.Stopped 1) run_end.Quiet → ⊥ }
{}

/// The run has one ledger. With a signal more left, or with none consumed, it does not balance.
pub fn changed_ledgers_are_refused()
    ensures one { (l : Ledger) → IsLedgerOf leaves (waiting_in (final ∷ [])) l
        → (l.output ≡ 2) × (l.no_route ≡ 0) × (l.entered ≡ 2) × (l.no_instance ≡ 0) × (l.gone ≡ 0) × (l.left ≡ 0) × (l.fired ≡ 1) × (l.implicit ≡ 0) × (l.stopped ≡ 0) × (l.waiting ≡ 0) × (l.environment ≡ 1) }
    ensures one_left { Balances (record ledger { left = 1 }) → ⊥ }
    ensures none_fired { Balances (record ledger { fired = 0 }) → ⊥ }
{}

/// No log of E is lawful with another stamp or another value in its answer, and no output of the environment with another
/// number. The headline fails promise by promise: a signal is lost or made up, two outputs have one origin, a signal arrives
/// where its route does not end, or causes itself.
pub fn changed_logs_are_refused()
    ensures misstamped { (finals : List State) → IsLawful EchoMay plan (with_log (log_of (pong 0 7))) finals → ⊥ }
    ensures other_answer { (finals : List State) → IsLawful EchoMay plan (with_log (log_of (pong 1 8))) finals → ⊥ }
    ensures misnumbered { (finals : List State) → IsLawful EchoMay plan (with_put (env_out.Sent (record (ping 7) { origin = record { worker = 1; number = 1 } }) ∷ [])) finals → ⊥ }
    ensures lost { outs (ways_of plan) (books_of plan (with_received [])) 1 ≡ came (ways_of plan) (books_of plan (with_received [])) 1 ++ left (ways_of plan) (books_of plan (with_received [])) 1 → ⊥ }
    ensures made_up { outs (ways_of plan) (books_of plan (with_put [])) 0 ≡ came (ways_of plan) (books_of plan (with_put [])) 0 ++ left (ways_of plan) (books_of plan (with_put [])) 0 → ⊥ }
    ensures output_twice { ((j k : ℕ) (x : Origin) → slice_get (all_origins (with_put (env_out.Sent (pong 1 7) ∷ []))) j ≡ Some x → slice_get (all_origins (with_put (env_out.Sent (pong 1 7) ∷ []))) k ≡ Some x → j ≡ k) → ⊥ }
    ensures strayed { NoOther (ways_of plan) (books_of plan (with_received (ping 7 ∷ []))) → ⊥ }
    ensures caused_itself { ((i : Item) → IsCause (log_at (with_log (starts ∷ enters (pong 1 7) ∷ answers (pong 1 7) ∷ [])).logs) i i → ⊥) → ⊥ }
{}

/// What leaves out a log, a hand or a station is not complete. The run is not quiet with a signal at the outlet, has used no
/// budget, and ends at no worker that it hasn't; its two turns are not within a budget of one; and no signal is left at a
/// station that is none of its route.
pub fn changed_ends_are_refused()
    ensures log_left_out { IsComplete plan (record leaves { logs = [] }) → ⊥ }
    ensures hand_left_out { IsComplete plan (record leaves { hands = no_hand ∷ [] }) → ⊥ }
    ensures station_left_out { IsComplete plan (with_rests []) → ⊥ }
    ensures not_quiet { IsQuiet plan (with_rests (rests (pong 1 7 ∷ []))) (final ∷ []) → ⊥ }
    ensures not_spent { IsSpentAt plan leaves (final ∷ []) 0 → ⊥ }
    ensures no_worker { EndsAs plan leaves (final ∷ []) (run_end.Memory 6) → ⊥ }
    ensures over_budget { (end : RunEnd) (l : Ledger) → HasEnded EchoMay (record plan { budget = 1 }) leaves end l → ⊥ }
    ensures misplaced { LeftsAreLegal plan (with_rests (rests (ping 7 ∷ []))) → ⊥ }
{}
