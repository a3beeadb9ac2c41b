//! The blocks of a system, and the calls that begin to use one: `core BLOCK BUDGET` and `work BLOCK BUDGET`.
ghost use Rattle.std.specs.Prelude.{◌≡◌, ◌≤◌, ◌<◌, length, All, IfOk, IfSome};
ghost use Rattle.sdl_forward.specs.Boards.{IsBoardOf};
ghost use Rattle.sdl_instances.specs.Core.{IsSound};
ghost use Rattle.sdl_instances.specs.CoreOf.{CanFire, core_of, parts_of, system_in};
ghost use Rattle.sdl_block.specs.Workers.{behaviours_of};
ghost use Rattle.sdl_stepper_block_calls.specs.Stored.{CanGoOn, IsStored};

use crate::cores::use_core;
use crate::lines::text_of;
use crate::session::{Session, Site, other_call};
use crate::workers::{use_worker, write_hand};
use sdl_block::{BlockWorker, Hand};
use sdl_instances::BlockCore;
use sdl_signal::{BlockId, InputEnd};
use sdl_stepper_calls::answers::Answers;
use sdl_stepper_calls::calls::{Call, words_of, write_meant};
use sdl_stepper_calls::common::{Desk, Place, name_of};
use sdl_stepper_calls::naming::{block_name, block_of};
use sdl_structure_parts::Checked;
use sdl_transition::{Agents, BlockParts};
use std::alloc::{AllocError, Global};
use std::io::{Read, Write};
use std::sync::Wait;

const BEGIN: &str = "core BLOCK BUDGET | work BLOCK BUDGET, with a budget from 1 to 1000000";

const CALLS: &str =
    "no block is in use: core, work, or a call that needs no block; help tells them all";

/// How a block is used.
#[derive(Clone, Copy)]
enum Use {
    /// By calls of its core.
    Core,
    /// By steps over the board.
    Work,
}

/// A block that is to be used.
#[derive(Clone, Copy)]
struct Begin {
    block: BlockId,
    budget: u32,
    using: Use,
    ghost budgeted: { (1 ≤ budget) × (budget ≤ 1000000) },
}

/// The same, with the place of the block's parts.
#[derive(Clone, Copy)]
struct Chosen {
    at: usize,
    begin: Begin,
}

/// What the words of `core` and `work` say.
fn begin_of(place: &Place, using: Use, words: &[&str]) -> Option<Begin> {
    let [_, block, budget] = words else {
        return None;
    };
    let block = block_of(place.structure, block)?;
    let budget = budget.parse::<u32>().ok()?;
    if budget < 1 || budget > 1_000_000 {
        return None;
    }
    Some(Begin {
        block,
        budget,
        using,
    })
}

/// The place of the block's parts.
fn place_of<S: Agents>(blocks: &[BlockParts<S>], block: BlockId) -> Option<usize>
    ensures { IfSome result (λ place. place < length blocks.now) }
{
    for (place, parts) in blocks.iter().enumerate() {
        if parts.block == block {
            return Some(place);
        }
    }
    None
}

/// Uses the block of these parts by its calls. Hands the parts back, with how the input ended, where it did.
fn use_parts<S: Agents, T: Wait, R: Read, W: Write>(
    site: &Site<T>,
    desk: &mut Desk,
    parts: BlockParts<S>,
    begin: Begin,
    session: &mut Session<R, W>,
) -> (BlockParts<S>, Result<Option<InputEnd>, AllocError>)
    requires stored { IsStored S.may site.now.checked.now parts }
    requires board { IsBoardOf site.now.place.routes.now desk.old.board }
    ensures parts { result.0 ≡ parts }
    ensures board { IfOk result.1 (λ _. IsBoardOf site.now.place.routes.now desk.new.board) }
{
    match BlockCore::new(site.place.alloc, parts, site.checked, begin.budget) {
        Ok(core) => match begin.using {
            Use::Core => use_as_core(site, desk, core, begin, session),
            Use::Work => use_as_worker(site, desk, core, begin, session),
        },
        Err((parts, error)) => (parts, Err(error)),
    }
}

/// Uses the core by its calls: the same.
fn use_as_core<S: Agents, T: Wait, R: Read, W: Write>(
    site: &Site<T>,
    desk: &mut Desk,
    core: BlockCore<S>,
    begin: Begin,
    session: &mut Session<R, W>,
) -> (BlockParts<S>, Result<Option<InputEnd>, AllocError>)
    requires board { IsBoardOf site.now.place.routes.now desk.old.board }
    requires sound { IsSound S.may (system_in core site.now.place.routes.now) (core_of core) }
    requires parts { CanFire S.may (parts_of core) }
    ensures parts { result.0 ≡ parts_of core }
    ensures board { IfOk result.1 (λ _. IsBoardOf site.now.place.routes.now desk.new.board) }
{
    let mut core = core;
    let end = begin_core(site, desk, &mut core, begin, session);
    let (parts, log, left) = core.into_parts();
    let rest = LeftInBlock {
        block: begin.block,
        events: log.len(),
        left,
    };
    finish(&mut session.answers, &site.place, &end, rest);
    (parts, end)
}

/// Writes that the core begins to be used, and answers its calls.
fn begin_core<S: Agents, T: Wait, R: Read, W: Write>(
    site: &Site<T>,
    desk: &mut Desk,
    core: &mut BlockCore<S>,
    begin: Begin,
    session: &mut Session<R, W>,
) -> Result<Option<InputEnd>, AllocError>
    requires board { IsBoardOf site.now.place.routes.now desk.old.board }
    requires sound { IsSound S.may (system_in core.old site.now.place.routes.now) (core_of core.old) }
    requires parts { CanFire S.may (parts_of core.old) }
    ensures board { IfOk result (λ _. IsBoardOf site.now.place.routes.now desk.new.board) }
    ensures parts { parts_of core.new ≡ parts_of core.old }
{
    write_begin(&mut session.answers, &site.place, begin);
    use_core(site, desk, core, session)
}

/// Uses the block of the core over the board by its calls: the same.
fn use_as_worker<S: Agents, T: Wait, R: Read, W: Write>(
    site: &Site<T>,
    desk: &mut Desk,
    core: BlockCore<S>,
    begin: Begin,
    session: &mut Session<R, W>,
) -> (BlockParts<S>, Result<Option<InputEnd>, AllocError>)
    requires board { IsBoardOf site.now.place.routes.now desk.old.board }
    requires sound { IsSound S.may (system_in core site.now.place.routes.now) (core_of core) }
    requires parts { CanFire S.may (parts_of core) }
    ensures parts { result.0 ≡ parts_of core }
    ensures board { IfOk result.1 (λ _. IsBoardOf site.now.place.routes.now desk.new.board) }
{
    let mut worker = BlockWorker::new(core);
    let end = begin_worker(site, desk, &mut worker, begin, session);
    let (core, hand) = worker.into_parts();
    let (parts, log, left) = core.into_parts();
    finish_hand(&mut session.answers, &site.place, &end, &hand);
    let rest = LeftInBlock {
        block: begin.block,
        events: log.len(),
        left,
    };
    finish(&mut session.answers, &site.place, &end, rest);
    (parts, end)
}

/// Writes that the block begins to be used, and answers its calls.
fn begin_worker<S: Agents, T: Wait, R: Read, W: Write>(
    site: &Site<T>,
    desk: &mut Desk,
    worker: &mut BlockWorker<S>,
    begin: Begin,
    session: &mut Session<R, W>,
) -> Result<Option<InputEnd>, AllocError>
    requires worker { CanGoOn S.may worker.old site.now.place.routes.now }
    requires board { IsBoardOf site.now.place.routes.now desk.old.board }
    ensures board { IfOk result (λ _. IsBoardOf site.now.place.routes.now desk.new.board) }
    ensures parts { behaviours_of worker.new ≡ behaviours_of worker.old }
{
    write_begin(&mut session.answers, &site.place, begin);
    use_worker(site, desk, worker, session)
}

/// Writes that a block begins to be used.
fn write_begin<W: Write>(answers: &mut Answers<W>, place: &Place, begin: Begin) {
    answers.text("begin ");
    answers.text(block_name(place.structure, begin.block));
    answers.text(" budget ");
    answers.number_line(begin.budget as u64);
}

/// What a block has when its use ends: how many events, and how many signals that wait in its ports.
#[derive(Clone, Copy)]
struct LeftInBlock {
    block: BlockId,
    events: usize,
    left: u64,
}

/// How the use of a block ended: with the input, or by `end`.
type End = Result<Option<InputEnd>, AllocError>;

/// After `end`, writes what the block has.
fn finish<W: Write>(answers: &mut Answers<W>, place: &Place, end: &End, rest: LeftInBlock) {
    if let Ok(None) = end {
        answers.text("end ");
        answers.text(block_name(place.structure, rest.block));
        answers.text(" events ");
        answers.number(rest.events as u64);
        answers.text(" left ");
        answers.number_line(rest.left);
    }
}

/// After `end`, writes what the block has in hand.
fn finish_hand<W: Write>(answers: &mut Answers<W>, place: &Place, end: &End, hand: &Hand) {
    if let Ok(None) = end {
        write_hand(answers, place, hand);
    }
}

/// Takes the parts at this place.
fn take_at<S: Agents>(
    checked: &Checked,
    blocks: &mut Vec<BlockParts<S>>,
    place: usize,
) -> BlockParts<S>
    requires within { place < length blocks.old.items }
    requires stored { All (IsStored S.may checked.now) blocks.old.items }
    ensures taken { IsStored S.may checked.now result }
    ensures rest { All (IsStored S.may checked.now) blocks.new.items }
{
    let _ = checked;
    blocks.remove(place)
}

/// Puts the parts back.
fn put_back<S: Agents + Drop>(
    checked: &Checked,
    blocks: &mut Vec<BlockParts<S>>,
    parts: BlockParts<S>,
) -> Result<(), AllocError>
    requires parts { IsStored S.may checked.now parts }
    requires stored { All (IsStored S.may checked.now) blocks.old.items }
    ensures { All (IsStored S.may checked.now) blocks.new.items }
{
    let _ = checked;
    match blocks.push(parts) {
        Ok(()) => Ok(()),
        Err(_) => Err(AllocError),
    }
}

/// Uses one of the blocks, and answers how the input ended, where it did.
fn use_block<S: Agents + Drop, T: Wait, R: Read, W: Write>(
    site: &Site<T>,
    desk: &mut Desk,
    blocks: &mut Vec<BlockParts<S>>,
    chosen: Chosen,
    session: &mut Session<R, W>,
) -> Result<Option<InputEnd>, AllocError>
    requires within { chosen.at < length blocks.old.items }
    requires board { IsBoardOf site.now.place.routes.now desk.old.board }
    requires stored { All (IsStored S.may site.now.checked.now) blocks.old.items }
    ensures board { IfOk result (λ _. IsBoardOf site.now.place.routes.now desk.new.board) }
    ensures stored { All (IsStored S.may site.now.checked.now) blocks.new.items }
{
    let parts = take_at(site.checked, blocks, chosen.at);
    let (parts, end) = use_parts(site, desk, parts, chosen.begin, session);
    let kept = put_back(site.checked, blocks, parts);
    let end = end?;
    kept?;
    Ok(end)
}

/// Answers `core` and `work`.
fn begin_call<S: Agents + Drop, T: Wait, R: Read, W: Write>(
    site: &Site<T>,
    desk: &mut Desk,
    blocks: &mut Vec<BlockParts<S>>,
    using: Use,
    call: Call,
    session: &mut Session<R, W>,
) -> Result<Option<InputEnd>, AllocError>
    requires board { IsBoardOf site.now.place.routes.now desk.old.board }
    requires stored { All (IsStored S.may site.now.checked.now) blocks.old.items }
    ensures board { IfOk result (λ _. IsBoardOf site.now.place.routes.now desk.new.board) }
    ensures stored { All (IsStored S.may site.now.checked.now) blocks.new.items }
{
    let Some(begin) = begin_of(&site.place, using, call.words) else {
        write_meant(&mut session.answers, call.line, BEGIN);
        return Ok(None);
    };
    let Some(at) = place_of(blocks.as_slice(), begin.block) else {
        session.answers.line("no agents for this block");
        return Ok(None);
    };
    use_block(site, desk, blocks, Chosen { at, begin }, session)
}

/// Answers a call while no block is in use.
fn call_at_rest<S: Agents + Drop, T: Wait, R: Read, W: Write>(
    site: &Site<T>,
    desk: &mut Desk,
    blocks: &mut Vec<BlockParts<S>>,
    call: Call,
    session: &mut Session<R, W>,
) -> Result<Option<InputEnd>, AllocError>
    requires board { IsBoardOf site.now.place.routes.now desk.old.board }
    requires stored { All (IsStored S.may site.now.checked.now) blocks.old.items }
    ensures board { IfOk result (λ _. IsBoardOf site.now.place.routes.now desk.new.board) }
    ensures stored { All (IsStored S.may site.now.checked.now) blocks.new.items }
{
    match use_of(name_of(call)) {
        Some(using) => begin_call(site, desk, blocks, using, call, session),
        None => {
            other_call(site, desk, call, CALLS, &mut session.answers)?;
            Ok(None)
        }
    }
}

fn use_of(name: &str) -> Option<Use> {
    match name {
        "core" => Some(Use::Core),
        "work" => Some(Use::Work),
        _ => None,
    }
}

/// Answers the call of the next line. Answers how the input ended, where it did.
fn line_at_rest<S: Agents + Drop, T: Wait, R: Read, W: Write>(
    site: &Site<T>,
    desk: &mut Desk,
    blocks: &mut Vec<BlockParts<S>>,
    session: &mut Session<R, W>,
) -> Result<Option<InputEnd>, AllocError>
    requires board { IsBoardOf site.now.place.routes.now desk.old.board }
    requires stored { All (IsStored S.may site.now.checked.now) blocks.old.items }
    ensures board { IfOk result (λ _. IsBoardOf site.now.place.routes.now desk.new.board) }
    ensures stored { All (IsStored S.may site.now.checked.now) blocks.new.items }
{
    let line = match session.next_line() {
        Ok(line) => line,
        Err(end) => return Ok(Some(end)),
    };
    let words = words_of(site.place.alloc, text_of(&line))?;
    let call = session.call(words.as_slice());
    call_at_rest(site, desk, blocks, call, session)
}

/// Answers all calls, and answers how the input ended.
pub fn use_blocks<S: Agents + Drop, T: Wait, R: Read, W: Write>(
    site: &Site<T>,
    desk: &mut Desk,
    blocks: &mut Vec<BlockParts<S>>,
    session: &mut Session<R, W>,
) -> Result<InputEnd, AllocError>
    requires board { IsBoardOf site.now.place.routes.now desk.old.board }
    requires stored { All (IsStored S.may site.now.checked.now) blocks.old.items }
{
    'calls: for _ in 0..u64::MAX {
        if let Some(end) = line_at_rest(site, desk, blocks, session)? {
            return Ok(end);
        }
    }
    Ok(InputEnd::Whole)
}
