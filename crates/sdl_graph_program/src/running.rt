//! A whole run of the agents of a process graph, on one thread.
ghost use Rattle.std.specs.Prelude.{◌≡◌, ◌≤◌, IfOk, IfErr};
ghost use Rattle.sdl_transition.specs.Bound.{IsBound};
ghost use Rattle.sdl_run_driver.specs.Closings.{HasReadIn, HasWrittenIn, StopsByMemory, IsRunOf, IsSameBound, outcome_in, plan_of_bound};
ghost use Rattle.sdl_run_driver.specs.Ended.{HasEnded};
ghost use Rattle.sdl_run_serial.specs.Serial.{IsBackIn};

use sdl_graph::Graph;
use sdl_graph_binding::{Breaches, Broken, GraphAgents};
use sdl_instances_log::{Event, LogStore};
use sdl_run::{Closing, StartFault, run_keeping};
use sdl_transition::Bound;
use std::alloc::Global;
use std::io::{Read, Write};

/// What a run of a graph leaves.
#[derive(Drop)]
pub struct GraphClosing<G, K: LogStore = Vec<Event>> {
    pub closing: Closing<GraphAgents<G>, K>,
    /// The transitions that broke their offers, none where each kept to its own.
    pub broken: Option<Broken>,
}

/// Runs the agents of a graph on one thread until they end, as `run_keeping` does, with logs that are kept as their type
/// says: whole, or counted alone. Each step meets the offer of its transition. `breaches` are those that the transitions share.
/// What they say at the end is the closing's `broken`.
pub fn run_graph<G: Graph, K: LogStore, R: Read, W: Write>(
    alloc: Global,
    bound: Bound<GraphAgents<G>>,
    breaches: &Breaches,
    budget: u32,
    schedule: &[u32],
    input: &mut R,
    output: &mut W,
) -> Result<GraphClosing<G, K>, StartFault<GraphAgents<G>>>
    requires bound { IsBound (λ _ _ _. Unit {0}) bound }
    requires budget { (1 ≤ budget) × (budget ≤ 1000000) }
    ensures ended { IfOk result (λ c. HasEnded (λ _ _ _. Unit {0}) (plan_of_bound bound budget) (outcome_in K.events c.closing) c.closing.end c.closing.ledger) }
    // The steps that the schedule names are made, and then those of whole rounds; none is made after a refusal.
    ensures run { IfOk result (λ c. IsRunOf (λ _ _ _. Unit {0}) (plan_of_bound bound budget) schedule.now K.events c.closing) }
    // What was read of the input, with what became of each line, and how the reading ended.
    ensures reading { IfOk result (λ c. HasReadIn (plan_of_bound bound budget) (R.remaining input.old) (R.remaining input.new) c.closing) }
    // What was written to the output.
    ensures writing { IfOk result (λ c. HasWrittenIn (plan_of_bound bound budget) (W.contents output.old) (W.contents output.new) c.closing) }
    ensures stopped { IfOk result (λ c. StopsByMemory c.closing.input c.closing.end) }
    ensures bound { IfOk result (λ c. IsSameBound bound c.closing.bound) }
    ensures back { IfErr result (λ f. IsBackIn (λ _ _ _. Unit {0}) bound f) }
    ensures untouched { IfErr result (λ f. (input.new ≡ input.old) × (output.new ≡ output.old)) }
{
    let closing = run_keeping(alloc, bound, budget, schedule, input, output)?;
    let broken = breaches.broken();
    Ok(GraphClosing { closing, broken })
}
