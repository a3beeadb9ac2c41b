//! Binds the behaviours of a built-in system to its structure, and answers the calls.
ghost use Rattle.std.specs.List.{AllByRecursion};
ghost use Rattle.std.specs.Prelude.{All};
ghost use Rattle.sdl_forward.specs.Boards.{IsBoardOf};
ghost use Rattle.sdl_routes.specs.Routes.{AreRoutesOf};
ghost use Rattle.sdl_transition.specs.Bound.{AreOneSystem, IsBound};
ghost use Rattle.sdl_transition.specs.Transitions.{IsAllowedBehaviour};
ghost use Rattle.sdl_stepper_block_calls.specs.Stored.{IsStored};

use crate::at_rest::use_blocks;
use crate::rows::keep_rows;
use crate::session::{Session, Site};
use sdl_agents::Runner;
use sdl_instances::bounds::parts_are_bound;
use sdl_routes::Routes;
use sdl_signal::{InputEnd, SignalId};
use sdl_stepper_calls::common::{Desk, Place};
use sdl_structure_parts::Checked;
use sdl_transition::{Agents, Behaviour, BindFault, BlockParts, Bound, bind};
use std::alloc::{AllocError, Global};
use std::io::{Read, Write};
use std::sync::Wait;

/// How the calls ended.
#[derive(Drop)]
pub enum Ended {
    /// With the input.
    Input(InputEnd),
    /// An answer could not be written.
    Output,
    /// Memory was refused.
    Memory,
    /// Before the first: the agents do not fit the structure.
    Unbound(BindFault),
}

/// The system that is to be tried, and where its calls come from and its answers go. Where signals are named, its agents have
/// the rows for these alone.
#[derive(Drop)]
pub struct Trial<'a, T, R, W> {
    pub rt: &'a T,
    pub alloc: Global,
    pub checked: Checked,
    pub routes: Routes,
    pub signals: &'a [SignalId],
    pub input: &'a mut R,
    pub output: &'a mut W,
}

impl<'a, T: Wait, R: Read, W: Write> Runner for Trial<'a, T, R, W> {
    type Answer = Ended;

    ghost can_run = { λ t. AreRoutesOf t.checked t.routes };

    fn run<S: Agents + Drop>(self, behaviours: Vec<Behaviour<S>>) -> Ended {
        let Trial {
            rt,
            alloc,
            checked,
            routes,
            signals,
            input,
            output,
        } = self;
        let mut behaviours = behaviours;
        keep_rows(&mut behaviours, signals);
        let mut session = Session::new(input, output);
        try_behaviours(rt, alloc, checked, routes, behaviours, &mut session)
    }
}

/// Binds the behaviours to the structure, and answers the calls.
fn try_behaviours<S: Agents + Drop, T: Wait, R: Read, W: Write>(
    rt: &T,
    alloc: Global,
    checked: Checked,
    routes: Routes,
    behaviours: Vec<Behaviour<S>>,
    session: &mut Session<R, W>,
) -> Ended
    requires routes { AreRoutesOf checked routes }
    requires allowed { AllByRecursion (IsAllowedBehaviour S.may) behaviours.items }
{
    match bind(alloc, checked, routes, behaviours) {
        Ok(bound) => try_bound(rt, alloc, bound, session),
        Err(unbound) => Ended::Unbound(unbound.fault),
    }
}

/// Answers the calls on the system.
fn try_bound<S: Agents + Drop, T: Wait, R: Read, W: Write>(
    rt: &T,
    alloc: Global,
    bound: Bound<S>,
    session: &mut Session<R, W>,
) -> Ended
    requires { IsBound S.may bound }
{
    let (checked, routes, blocks) = bound.into_blocks();
    are_stored(&checked, &routes, &blocks);
    answer_calls(rt, alloc, &checked, &routes, blocks, session)
}

/// Answers the calls on a system of which these blocks have agents.
pub fn try_blocks<S: Agents + Drop, T: Wait, R: Read, W: Write>(
    rt: &T,
    alloc: Global,
    checked: &Checked,
    routes: &Routes,
    blocks: Vec<BlockParts<S>>,
    input: &mut R,
    output: &mut W,
) -> Ended
    requires { All (IsStored S.may checked.now) blocks.items }
{
    let mut session = Session::new(input, output);
    answer_calls(rt, alloc, checked, routes, blocks, &mut session)
}

/// The same, in a session.
fn answer_calls<S: Agents + Drop, T: Wait, R: Read, W: Write>(
    rt: &T,
    alloc: Global,
    checked: &Checked,
    routes: &Routes,
    blocks: Vec<BlockParts<S>>,
    session: &mut Session<R, W>,
) -> Ended
    requires { All (IsStored S.may checked.now) blocks.items }
{
    let mut blocks = blocks;
    let structure = checked.structure();
    let site = Site {
        rt,
        checked,
        place: Place {
            alloc,
            routes,
            structure,
        },
    };
    match Desk::new(alloc, routes) {
        Ok(desk) => answer_at(&site, desk, &mut blocks, session),
        Err(_) => Ended::Memory,
    }
}

/// The same, at this desk.
fn answer_at<S: Agents + Drop, T: Wait, R: Read, W: Write>(
    site: &Site<T>,
    desk: Desk,
    blocks: &mut Vec<BlockParts<S>>,
    session: &mut Session<R, W>,
) -> Ended
    requires board { IsBoardOf site.now.place.routes.now desk.board }
    requires stored { All (IsStored S.may site.now.checked.now) blocks.old.items }
{
    let mut desk = desk;
    let end = use_blocks(site, &mut desk, blocks, session);
    ended_by(end, session.answers.have_failed())
}

/// How the calls ended, by how their reading did, and whether a write failed.
fn ended_by(end: Result<InputEnd, AllocError>, has_failed: bool) -> Ended {
    match end {
        Ok(_) if has_failed => Ended::Output,
        Ok(end) => Ended::Input(end),
        Err(_) => Ended::Memory,
    }
}

/// The parts of each block of one system are as they are kept.
fn are_stored<S: Agents>(checked: &Checked, routes: &Routes, blocks: &Vec<BlockParts<S>>)
    requires { AreOneSystem S.may checked.now routes.now blocks.now.items }
    ensures { All (IsStored S.may checked.now) blocks.now.items }
{
    parts_are_bound(checked, routes, blocks.as_slice());
}
