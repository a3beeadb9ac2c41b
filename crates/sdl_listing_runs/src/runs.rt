//! The transitions of a listing are stored, bound to the structure, and run.
ghost use Rattle.std.specs.Prelude.{◌≡◌, ◌<◌, ◌^◌, ◌⊎◌, List, map, length, IfOk, IfSome, IsErr, IsSome, MatchOption};
ghost use Rattle.std.specs.List.{AllByRecursion};
ghost use Rattle.std.specs.Io.KnownBytes.{Keeps};
ghost use Rattle.sdl_transition_behaviour.specs.Offers.{IsFrameOf};
ghost use Rattle.sdl_transition_behaviour.specs.Transitions.{IsAllowed};
ghost use Rattle.sdl_listing_body.specs.Offering as rule;
ghost use Rattle.sdl_listing_body.specs.Sound.{IsSound};
ghost use Rattle.sdl_listing_binding.specs.Answers.{rows_of, IsAnswerIn};
ghost use Rattle.sdl_listing_binding.specs.Parts.{head_parts, transition_parts, listed_head, listed_transitions, count_of};
ghost use Rattle.sdl_listing_body.specs.declared.listing.ListedSet.{ListedSet as ASet};
ghost use Rattle.sdl_app_file_commands.specs.Running.{CanRun};
ghost use Rattle.sdl_listing_runs.specs.Outcomes.{HasRunPrepared, HasRunMarked};

use crate::faults::write_listing_fault;
use crate::labels::{Label, labels_of};
use crate::states::{states_of, to_chart_with};
use sdl_app_command::errors::write_error;
use sdl_app_command::status::REFUSED;
use sdl_app_file_runs::running::Settings;
use sdl_chart_text::States;
use sdl_graph_program::Prepared;
use sdl_graph_program::runs::{Telling, run_as_told};
use sdl_listing_binding::{
    Answering, Bent, BentValues, FileAgents, Head, ListedSet, Listing, ListingFault, bind_listing,
    keep, lay_out,
};
use sdl_listing_body::{Row, offer_of};
use sdl_structure_parts::Structure;
use sdl_transition_behaviour::{Agents, Frame, Run, Transition};
use std::alloc::Global;
use std::collections::VecDeque;
use std::io::{Read, Write};
use std::marker::Brand;
use std::sync::Wait;
use std::thread::Threads;

/// The status of a run in which a value was bent.
pub const BENT: u8 = 4;

/// The rows of a listing, of which transitions are stored, and the bent values that these share.
#[derive(Drop)]
struct ToStore {
    alloc: Global,
    rows: Vec<Row>,
    bent: BentValues,
}

/// All of a listing but its rows: the rest of each set, and what tells of its transitions.
#[derive(Drop)]
struct Others {
    heads: Vec<Head>,
    labels: Vec<Label>,
    /// The names of states, where a chart is asked for.
    states: States,
    bent: BentValues,
}

/// A run that is to be made, which waits while transitions are stored.
#[derive(Drop)]
struct Job {
    prepared: Prepared,
    others: Others,
}

/// Runs the agents that the listing says in the structure that is prepared, in threads unless one was asked for, and answers the
/// exit status: the first refusal, or how the run ended. The blocks have the rules that the listing says of their sets, and each
/// answer is what the row of the transition's number says for the frame. Where a value was bent, a line of standard error names the
/// first transition that bent one, with the number of such answers. Where a chart of the run is asked for, it is written in place of
/// the environment's lines. May wait for other threads.
pub fn run_listing<T: Threads + Wait + Sync, R: Read, W: Write, E: Write>(
    rt: &T,
    prepared: Prepared,
    listing: Vec<ListedSet>,
    input: &mut R,
    output: &mut W,
    errors: &mut E,
) -> u8
    requires runs { CanRun prepared.checked prepared.routes }
    requires sound { AllByRecursion IsSound (rows_of listing.items) }
    ensures made { HasRunMarked (IsAnswerIn (rows_of listing.items)) listing.items (R.remaining input.old) (R.remaining input.new)
        (W.contents output.old) (W.contents output.new) prepared result }
    // Where nothing was run, nothing was read or written.
    ensures refused { result ≡ 1 → (input.new ≡ input.old) × (output.new ≡ output.old) }
    ensures silent { result ≡ 0 → Keeps (E.contents errors.old) (E.contents errors.new) }
{
    match try_listing(rt, prepared, listing, input, output, &mut *errors) {
        Ok(status) => status,
        Err(fault) => {
            write_listing_fault(errors, fault);
            REFUSED
        }
    }
}

/// The same, where all transitions can be stored.
fn try_listing<T: Threads + Wait + Sync, R: Read, W: Write, E: Write>(
    rt: &T,
    prepared: Prepared,
    listing: Vec<ListedSet>,
    input: &mut R,
    output: &mut W,
    errors: &mut E,
) -> Result<u8, ListingFault>
    requires runs { CanRun prepared.checked prepared.routes }
    requires sound { AllByRecursion IsSound (rows_of listing.items) }
    ensures made { IfOk result (HasRunMarked (IsAnswerIn (rows_of listing.items)) listing.items (R.remaining input.old) (R.remaining input.new)
        (W.contents output.old) (W.contents output.new) prepared) }
    ensures refused { IfOk result (λ status. status ≡ 1 → (input.new ≡ input.old) × (output.new ≡ output.old)) }
    ensures fault { IsErr result → (input.new ≡ input.old) × (output.new ≡ output.old) }
    ensures silent { IfOk result (λ status. status ≡ 0 → Keeps (E.contents errors.old) (E.contents errors.new)) }
{
    let structure = prepared.checked.structure();
    let charted = prepared.chart.is_some();
    let (to_store, others) = taken_apart(prepared.alloc, structure, listing, charted)?;
    let mut waiting = Some(Job { prepared, others });
    run_rows::<Brand, T, R, W, E>(rt, to_store, &mut waiting, input, output, errors)
}

/// The rows of a listing, and all of it but them.
fn taken_apart(
    alloc: Global,
    structure: &Structure,
    listing: Vec<ListedSet>,
    charted: bool,
) -> Result<(ToStore, Others), ListingFault>
    ensures rows { IfOk result (λ both. both.0.rows.items ≡ rows_of listing.items) }
    ensures few { IfOk result (λ both. length both.0.rows.items < 2 ^ 32) }
    ensures count { IfOk result (λ both. length both.0.rows.items ≡ count_of (map head_parts both.1.heads.items)) }
    ensures heads { IfOk result (λ both. map head_parts both.1.heads.items ≡ map listed_head listing.items) }
{
    let labels = labels_of(alloc, structure, listing.as_slice())?;
    let states = states_of(alloc, structure, listing.as_slice(), charted)?;
    let bent = BentValues::new(alloc)?;
    let shared = bent.share()?;
    let (heads, rows) = lay_out(alloc, listing)?;
    if rows.len() > u32::MAX as usize {
        return Err(ListingFault::ManyTransitions);
    }
    let to_store = ToStore {
        alloc,
        rows,
        bent: shared,
    };
    let others = Others {
        heads,
        labels,
        states,
        bent,
    };
    Ok((to_store, others))
}

/// Stores a transition for each of the rows, which are known by `K`, and makes the run that waits. It waits behind a reference
/// while the closures are made, since whoever owns it would drop it wherever memory is refused.
fn run_rows<K: Listing + Send, T: Threads + Wait + Sync, R: Read, W: Write, E: Write>(
    rt: &T,
    to_store: ToStore,
    waiting: &mut Option<Job>,
    input: &mut R,
    output: &mut W,
    errors: &mut E,
) -> Result<u8, ListingFault>
    requires listed { to_store.rows.items ≡ K.rows }
    requires few { length to_store.rows.items < 2 ^ 32 }
    requires sound { AllByRecursion IsSound to_store.rows.items }
    requires waits { IsSome waiting.old }
    requires runs { IfSome waiting.old (λ job. CanRun job.prepared.checked job.prepared.routes) }
    requires count { IfSome waiting.old (λ job. length to_store.rows.items ≡ count_of (map head_parts job.others.heads.items)) }
    ensures made { (sets : List ASet) → K.rows ≡ rows_of sets → IfSome waiting.old (λ job. map head_parts job.others.heads.items ≡ map listed_head sets)
        → IfOk result (λ status. IfSome waiting.old (λ job.
        HasRunMarked (IsAnswerIn K.rows) sets (R.remaining input.old) (R.remaining input.new) (W.contents output.old) (W.contents output.new) job.prepared status)) }
    ensures refused { IfOk result (λ status. status ≡ 1 → (input.new ≡ input.old) × (output.new ≡ output.old)) }
    ensures fault { IsErr result → (input.new ≡ input.old) × (output.new ≡ output.old) }
    ensures silent { IfOk result (λ status. status ≡ 0 → Keeps (E.contents errors.old) (E.contents errors.new)) }
{
    let ToStore { alloc, rows, bent } = to_store;
    let mut stored: VecDeque<Transition<FileAgents<K>>> = VecDeque::new(alloc);
    let mut number: u32 = 0;
    for row in rows {
        let offer = offer_of(&row);
        let own = Answering {
            number,
            row,
            bent: bent.share()?,
        };
        let run: Run = Box::new(
            alloc,
            move |frame: &Frame|
                requires { IsSound own.row × IsFrameOf (rule.offer_of own.row) frame.now }
            { own.answer(frame) },
        )?;
        keep(&mut stored, Transition::store(number, offer, run))?;
        number += 1;
    }
    Ok(run_waiting(rt, waiting, stored, input, output, errors))
}

/// Makes the run that waits, with the stored transitions, and answers the exit status.
fn run_waiting<S: Agents + Send + Drop, T: Threads + Wait + Sync, R: Read, W: Write, E: Write>(
    rt: &T,
    waiting: &mut Option<Job>,
    stored: VecDeque<Transition<S>>,
    input: &mut R,
    output: &mut W,
    errors: &mut E,
) -> u8
    requires waits { IsSome waiting.old }
    requires runs { IfSome waiting.old (λ job. CanRun job.prepared.checked job.prepared.routes) }
    requires count { IfSome waiting.old (λ job. length stored.items ≡ count_of (map head_parts job.others.heads.items)) }
    requires allowed { AllByRecursion (IsAllowed S.may) stored.items }
    ensures made { (sets : List ASet) → map transition_parts stored.items ≡ listed_transitions 0 (rows_of sets)
        → IfSome waiting.old (λ job. map head_parts job.others.heads.items ≡ map listed_head sets)
        → IfSome waiting.old (λ job.
        HasRunMarked S.may sets (R.remaining input.old) (R.remaining input.new) (W.contents output.old) (W.contents output.new) job.prepared result) }
    ensures refused { result ≡ 1 → (input.new ≡ input.old) × (output.new ≡ output.old) }
    ensures silent { result ≡ 0 → Keeps (E.contents errors.old) (E.contents errors.new) }
{
    match waiting.take() {
        Some(job) => run_job(rt, job, stored, input, output, errors),
        None => unreachable!(),
    }
}

/// Makes the run, and tells of bent values, where there were any.
fn run_job<S: Agents + Send + Drop, T: Threads + Wait + Sync, R: Read, W: Write, E: Write>(
    rt: &T,
    job: Job,
    stored: VecDeque<Transition<S>>,
    input: &mut R,
    output: &mut W,
    errors: &mut E,
) -> u8
    requires runs { CanRun job.prepared.checked job.prepared.routes }
    requires count { length stored.items ≡ count_of (map head_parts job.others.heads.items) }
    requires allowed { AllByRecursion (IsAllowed S.may) stored.items }
    ensures made { (sets : List ASet) → map transition_parts stored.items ≡ listed_transitions 0 (rows_of sets)
        → map head_parts job.others.heads.items ≡ map listed_head sets
        → HasRunMarked S.may sets (R.remaining input.old) (R.remaining input.new) (W.contents output.old) (W.contents output.new) job.prepared result }
    ensures refused { result ≡ 1 → (input.new ≡ input.old) × (output.new ≡ output.old) }
    ensures silent { result ≡ 0 → Keeps (E.contents errors.old) (E.contents errors.new) }
{
    let Job { prepared, others } = job;
    let Others {
        heads,
        labels,
        states,
        bent,
    } = others;
    let status = run_prepared(
        rt,
        prepared,
        heads,
        states,
        stored,
        input,
        output,
        &mut *errors,
    );
    if status == REFUSED {
        return REFUSED;
    }
    report_bent(status, labels.as_slice(), bent.bent(), errors)
}

/// Binds the stored transitions to the structure and runs the agents, and answers the exit status.
#[tactic(auto, unfolding(sdl_app_file_commands::specs::Running::CanRun))]
fn run_prepared<S: Agents + Send + Drop, T: Threads + Wait + Sync, R: Read, W: Write, E: Write>(
    rt: &T,
    prepared: Prepared,
    heads: Vec<Head>,
    states: States,
    stored: VecDeque<Transition<S>>,
    input: &mut R,
    output: &mut W,
    errors: &mut E,
) -> u8
    requires runs { CanRun prepared.checked prepared.routes }
    requires count { length stored.items ≡ count_of (map head_parts heads.items) }
    requires allowed { AllByRecursion (IsAllowed S.may) stored.items }
    ensures made { (sets : List ASet) → map transition_parts stored.items ≡ listed_transitions 0 (rows_of sets)
        → map head_parts heads.items ≡ map listed_head sets
        → HasRunPrepared S.may sets (R.remaining input.old) (R.remaining input.new) (W.contents output.old) (W.contents output.new) prepared result }
    ensures refused { result ≡ 1 → (input.new ≡ input.old) × (output.new ≡ output.old) }
    ensures silent { result ≡ 0 → Keeps (E.contents errors.old) (E.contents errors.new) }
{
    let Prepared {
        alloc,
        options,
        audit,
        chart,
        checked,
        routes,
    } = prepared;
    let settings = Settings {
        alloc,
        options,
        schedule: &[],
    };
    let to_chart = to_chart_with(chart, states);
    let telling = Telling { audit, to_chart };
    match bind_listing(alloc, checked, routes, heads, stored) {
        Ok(bound) => run_as_told(rt, settings, &telling, bound, input, output, errors),
        Err(fault) => {
            write_listing_fault(errors, fault);
            REFUSED
        }
    }
}

/// Writes which transition bent a value first, and in how many answers one was bent, where one was, and answers the exit status.
fn report_bent<E: Write>(status: u8, labels: &[Label], bent: Option<Bent>, errors: &mut E) -> u8
    ensures which { MatchOption bent (result ≡ status) (λ b. result ≡ 4) }
    ensures either { (result ≡ status) ⊎ (result ≡ 4) }
    ensures silent { result ≡ 0 → errors.new ≡ errors.old }
{
    match bent {
        None => status,
        Some(Bent { first, answers }) => {
            write_bent(labels, first, answers, errors);
            BENT
        }
    }
}

/// Writes that the transition of the number was the first to bend a value.
fn write_bent<E: Write>(labels: &[Label], first: u32, answers: u64, errors: &mut E) {
    match labels.get(first as usize) {
        Some(label) => write_error(
            errors,
            format_args!("out of range transition {first} ({label}) answers {answers}"),
        ),
        None => write_error(
            errors,
            format_args!("out of range transition {first} answers {answers}"),
        ),
    }
}
