//! The command `run` of a graph's program, once its transitions are stored.
ghost use Rattle.std.specs.Prelude.{◌≡◌, ◌⊎◌, MatchOption, option_map};
ghost use Rattle.std.specs.Io.KnownBytes.{Keeps};
ghost use Rattle.sdl_transition.specs.Bound.{IsBound, structure_of, routes_of};
ghost use Rattle.sdl_app_file_commands.specs.Running.{CanRun, HasBudget};
ghost use Rattle.sdl_run_driver.specs.Closings.{plan_of_bound};
ghost use Rattle.sdl_graph_program.specs.Outcomes.{HasMadeAudited, HasMadeAsked, HasRunGraphOrNot};

use crate::audited::run_audited;
use crate::breaking::BrokenPart;
use crate::charting::to_chart_of;
use crate::commands::Prepared;
use crate::faults::write_graph_fault;
use crate::numbering::Numbered;
use sdl_app_command::errors::{without_memory, write_error};
use sdl_app_command::status::REFUSED;
use sdl_app_file_runs::in_threads::run_bound_in_threads;
use sdl_app_file_runs::running::Settings;
use sdl_chart_runs::{ToChart, run_charted};
use sdl_graph::Graph;
use sdl_graph_binding::{Breaches, Broken, Design, GraphAgents, GraphFault, Stored, bind_graph};
use sdl_transition::{Agents, Bound};
use std::alloc::Global;
use std::io::{Read, Write};
use std::sync::Wait;
use std::thread::Threads;

/// What is told of a run: whether what it leaves is audited, or its chart.
#[derive(Drop)]
pub struct Telling {
    pub audit: bool,
    pub to_chart: Option<ToChart>,
}

/// The status of a run in which a transition broke its offer.
pub const BROKEN: u8 = 4;

/// Writes why a graph does not run, and answers the status of a refusal.
pub fn refused<E: Write>(errors: &mut E, design: &Design, fault: GraphFault) -> u8
    ensures { result ≡ 1 }
{
    write_graph_fault(errors, design, fault);
    REFUSED
}

/// Binds the stored transitions to the structure and runs the agents, and answers the exit status: the first refusal, also of
/// what was to be stored, or how the run ended. Where a transition broke its offer, a line of standard error names the first, with the number of
/// answers that broke theirs. A second one says what the offer of the first does not allow. The logs are stored where a trace or an audit was asked for, and else counted alone.
#[tactic(auto, unfolding(sdl_app_file_commands::specs::Running::CanRun))]
pub fn run_prepared<G: Graph + Send, T: Threads + Wait + Sync, R: Read, W: Write, E: Write>(
    rt: &T,
    prepared: Prepared,
    design: &Design,
    stored: Stored<G>,
    input: &mut R,
    output: &mut W,
    errors: &mut E,
) -> u8
    requires { CanRun prepared.checked prepared.routes }
    ensures run { HasRunGraphOrNot prepared.chart prepared.options prepared.audit (R.remaining input.old) (R.remaining input.new)
        (W.contents output.old) (W.contents output.new) prepared.checked prepared.routes result }
    // Where nothing was run, nothing was read or written.
    ensures refused { result ≡ 1 → (input.new ≡ input.old) × (output.new ≡ output.old) }
    ensures silent { result ≡ 0 → Keeps (E.contents errors.old) (E.contents errors.new) }
{
    let Prepared {
        alloc,
        options,
        audit,
        chart,
        checked,
        routes,
    } = prepared;
    let settings = Settings {
        alloc,
        options,
        schedule: &[],
    };
    let (transitions, breaches) = match stored.into_parts() {
        Ok(parts) => parts,
        Err(fault) => return refused(errors, design, fault),
    };
    let Ok(to_chart) = to_chart_of(alloc, chart, checked.structure(), design) else {
        without_memory(errors);
        return REFUSED;
    };
    let telling = Telling { audit, to_chart };
    match bind_graph(alloc, checked, routes, design, transitions) {
        Ok(bound) => run_marked(
            rt, settings, &telling, bound, design, &breaches, input, output, errors,
        ),
        Err(fault) => refused(errors, design, fault),
    }
}

/// Runs the agents of a graph that is bound, with its structure's budget, and answers the exit status.
fn run_marked<G: Graph + Send, T: Threads + Wait + Sync, R: Read, W: Write, E: Write>(
    rt: &T,
    settings: Settings,
    telling: &Telling,
    bound: Bound<GraphAgents<G>>,
    design: &Design,
    breaches: &Breaches,
    input: &mut R,
    output: &mut W,
    errors: &mut E,
) -> u8
    requires bound { IsBound (λ _ _ _. Unit {0}) bound }
    requires budget { HasBudget (structure_of bound) }
    ensures run { HasRunGraphOrNot (option_map (λ t. t.charting) telling.now.to_chart) settings.entry.options telling.now.audit (R.remaining input.old) (R.remaining input.new)
        (W.contents output.old) (W.contents output.new) (structure_of bound) (routes_of bound) result }
    ensures refused { result ≡ 1 → (input.new ≡ input.old) × (output.new ≡ output.old) }
    ensures silent { result ≡ 0 → Keeps (E.contents errors.old) (E.contents errors.new) }
{
    let status = run_as_told(rt, settings, telling, bound, input, output, &mut *errors);
    if status == REFUSED {
        return REFUSED;
    }
    report_broken::<G, E>(status, design, breaches.broken(), errors)
}

/// Runs a system that is bound, and writes its chart where one is asked for.
pub fn run_as_told<S: Agents + Send + Drop, T: Threads + Wait + Sync, R: Read, W: Write, E: Write>(
    rt: &T,
    settings: Settings,
    telling: &Telling,
    bound: Bound<S>,
    input: &mut R,
    output: &mut W,
    errors: &mut E,
) -> u8
    requires bound { IsBound S.may bound }
    requires budget { HasBudget (structure_of bound) }
    ensures made { (result ≡ 1) ⊎ HasMadeAsked S.may (plan_of_bound bound (structure_of bound).budget) (option_map (λ t. t.charting) telling.now.to_chart) settings.entry.options telling.now.audit
        (R.remaining input.old) (R.remaining input.new) (W.contents output.old) (W.contents output.new) result }
    ensures refused { result ≡ 1 → (input.new ≡ input.old) × (output.new ≡ output.old) }
    ensures silent { result ≡ 0 → Keeps (E.contents errors.old) (E.contents errors.new) }
{
    match &telling.to_chart {
        Some(to_chart) => run_charted(rt, settings, bound, to_chart, input, output, errors),
        None => run_told(rt, settings, telling.audit, bound, input, output, errors),
    }
}

/// Runs a system that is bound, with its structure's budget and with an audit of what it leaves where that is asked for, and answers
/// the exit status.
pub fn run_told<S: Agents + Send + Drop, T: Threads + Wait + Sync, R: Read, W: Write, E: Write>(
    rt: &T,
    settings: Settings,
    audit: bool,
    bound: Bound<S>,
    input: &mut R,
    output: &mut W,
    errors: &mut E,
) -> u8
    requires bound { IsBound S.may bound }
    requires budget { HasBudget (structure_of bound) }
    ensures made { (result ≡ 1) ⊎ HasMadeAudited S.may (plan_of_bound bound (structure_of bound).budget) settings.entry.options audit
        (R.remaining input.old) (R.remaining input.new) (W.contents output.old) (W.contents output.new) result }
    ensures refused { result ≡ 1 → (input.new ≡ input.old) × (output.new ≡ output.old) }
    ensures silent { result ≡ 0 → Keeps (E.contents errors.old) (E.contents errors.new) }
{
    if audit {
        run_audited(rt, settings, bound, input, output, errors)
    } else {
        run_bound_in_threads(rt, settings, bound, input, output, errors)
    }
}

/// Writes which transition broke its offer first, and how many answers did, where one did, and answers the exit status. A second
/// line says what of its step the offer does not allow.
fn report_broken<G: Graph, E: Write>(
    status: u8,
    design: &Design,
    broken: Option<Broken>,
    errors: &mut E,
) -> u8
    ensures which { MatchOption broken (result ≡ status) (λ b. result ≡ 4) }
    ensures either { (result ≡ status) ⊎ (result ≡ 4) }
    ensures silent { result ≡ 0 → errors.new ≡ errors.old }
{
    match broken {
        None => status,
        Some(broken) => {
            write_broken::<G, E>(design, broken, errors);
            BROKEN
        }
    }
}

/// Writes both lines of a broken offer.
fn write_broken<G: Graph, E: Write>(design: &Design, broken: Broken, errors: &mut E) {
    let Broken {
        first: number,
        breach,
        count,
    } = broken;
    let transition = Numbered { design, number };
    write_error(
        errors,
        format_args!("broken offer transition {transition} answers {count}"),
    );
    let offer = G::offer(number);
    let part = BrokenPart {
        design,
        number,
        offer: &offer,
        breach,
    };
    write_error(errors, format_args!("{part}"));
}
