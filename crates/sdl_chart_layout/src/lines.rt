//! The lifelines, from the left: the gates that send, by number; one for all sets that are not kept; instances by block, set and
//! number; and the gates that only receive.
use crate::labels::PidText;
use crate::scene::{Key, Scene, Told};
use sdl_app_file_commands::names::{block_name, gate_name, set_name};
use sdl_chart_drawing::Lifeline;
use sdl_instances_log::Done;
use sdl_instances_packed_log::Shown;
use sdl_signal::{BlockId, Origin, Pid, SetId, StateId};
use sdl_structure_parts::Structure;
use std::alloc::{AllocError, Global};

/// From the left border to the first head, and from one head to the next.
const BORDER: usize = 16;

const GAP: usize = 22;

/// Half the width of a head at least.
const HALF: usize = 64;

/// From a head's names to its borders.
const BRIM: usize = 7;

/// The middle of the heads at the top.
pub(crate) const TOP: usize = 88;

/// The place of no lifeline.
pub(crate) const NOWHERE: usize = usize::MAX;

/// Where a lifeline stands among the others: the first number that differs tells.
#[derive(Clone, Copy, PartialEq, Eq, PartialOrd, Ord)]
struct Rank {
    class: u32,
    block: u32,
    part: u32,
    serial: u32,
}

/// A lifeline, and what is known of it while events are laid.
#[derive(Drop)]
pub(crate) struct Line {
    pub key: Key,
    rank: Rank,
    /// Where it stands, and half the width of its head.
    pub x: usize,
    pub half: usize,
    /// The middle of its head.
    pub top: usize,
    /// The lowest height that is taken.
    pub last: usize,
    /// The item whose arrival is the last thing on it.
    pub arrived: Option<Origin>,
    pub state: Option<StateId>,
    pub waiting: usize,
    /// Where it ends by a stop.
    pub stop: Option<usize>,
}

/// The block of a set.
fn block_of(structure: &Structure, set: SetId) -> BlockId {
    match structure.sets().get(set.0 as usize) {
        Some(found) => found.block,
        None => BlockId(0),
    }
}

/// Where a lifeline stands, by whether it is a gate's that sends.
fn rank_of(structure: &Structure, key: Key, sends: bool) -> Rank {
    let (class, block, part, serial) = match key {
        Key::Gate(gate) => (if sends { 0 } else { 3 }, 0, gate.0, 0),
        Key::Others => (1, 0, 0, 0),
        Key::Set(set) => (2, block_of(structure, set).0, set.0, 0),
        Key::Instance(set, serial) => (2, block_of(structure, set).0, set.0, serial),
    };
    Rank {
        class,
        block,
        part,
        serial,
    }
}

/// The place of a lifeline.
pub(crate) fn find(lines: &[Line], key: Option<Key>) -> usize {
    lines
        .iter()
        .position(|l| Some(l.key) == key)
        .unwrap_or(NOWHERE)
}

/// Adds a lifeline at its place, where it is not there yet.
fn add(
    lines: &mut Vec<Line>,
    structure: &Structure,
    key: Option<Key>,
    sends: bool,
) -> Result<(), AllocError> {
    let Some(key) = key else {
        return Ok(());
    };
    if find(lines.as_slice(), Some(key)) < lines.len() {
        return Ok(());
    }
    let rank = rank_of(structure, key, sends);
    let before = lines.iter().filter(|l| l.rank < rank).count();
    let line = Line {
        key,
        rank,
        x: 0,
        half: HALF,
        top: TOP,
        last: TOP,
        arrived: None,
        state: None,
        waiting: 0,
        stop: None,
    };
    lines.insert(before.min(lines.len()), line)?;
    Ok(())
}

/// Adds the lifelines of an event, where those of the gates that send are there. A discard needs none.
fn add_told(lines: &mut Vec<Line>, scene: &Scene, told: &Told) -> Result<(), AllocError> {
    if matches!(told, Told::Logged(Shown::Discarded(_, _))) {
        return Ok(());
    }
    add(lines, scene.structure, scene.key_at(told), false)?;
    if let Told::Logged(Shown::Turn { done, .. }) = told {
        for one in *done {
            if let Done::Made(pid) = one {
                add(lines, scene.structure, scene.key_of(*pid), false)?;
            }
        }
    }
    Ok(())
}

/// The lifelines of these events.
pub(crate) fn lines_of(
    alloc: Global,
    scene: &Scene,
    events: &[Option<Told>],
) -> Result<Vec<Line>, AllocError> {
    let mut lines = Vec::new(alloc);
    for event in events {
        if let Some(Told::Put(output)) = event {
            add(
                &mut lines,
                scene.structure,
                Some(scene.put_key(output)),
                true,
            )?;
        }
    }
    for event in events {
        if let Some(told) = event {
            add_told(&mut lines, scene, told)?;
        }
    }
    spread(alloc, scene.structure, &mut lines)?;
    Ok(lines)
}

/// The name of a lifeline.
fn name_of(alloc: Global, structure: &Structure, key: Key) -> Result<String, AllocError> {
    let name = match key {
        Key::Gate(gate) => gate_name(structure, gate),
        Key::Others => "others",
        Key::Set(set) => set_name(structure, set),
        Key::Instance(set, serial) => {
            let pid = Pid::Inst(set, serial);
            return PidText { structure, pid }.to_string(alloc);
        }
    };
    String::from_str(alloc, name)
}

/// What stands over the name of a lifeline.
fn over(structure: &Structure, key: Key) -> &str {
    match key {
        Key::Gate(_) => "env",
        Key::Others => "",
        Key::Set(set) => block_name(structure, block_of(structure, set)),
        Key::Instance(set, _) => block_name(structure, block_of(structure, set)),
    }
}

/// Half the width of a lifeline's head, in which its name has room. What stands over it is written smaller.
fn half_of(alloc: Global, structure: &Structure, key: Key) -> Result<usize, AllocError> {
    let name = name_of(alloc, structure, key)?;
    let names = name.len().saturating_mul(15) / 4;
    let above = over(structure, key).len().saturating_mul(3);
    Ok(names.max(above).saturating_add(BRIM).max(HALF))
}

/// Sets the lifelines side by side, farther apart where their heads need it.
fn spread(alloc: Global, structure: &Structure, lines: &mut Vec<Line>) -> Result<(), AllocError> {
    let mut left = BORDER;
    for place in 0..lines.len() {
        if let Some(line) = lines.get_mut(place) {
            line.half = half_of(alloc, structure, line.key)?;
            line.x = left.saturating_add(line.half);
            left = line.x.saturating_add(line.half).saturating_add(GAP);
        }
    }
    Ok(())
}

/// The shape of a lifeline, which ends at this height unless it stopped.
pub(crate) fn shape_of(
    alloc: Global,
    structure: &Structure,
    line: &Line,
    bottom: usize,
) -> Result<Lifeline, AllocError> {
    let is_single = matches!(line.key, Key::Instance(_, _));
    Ok(Lifeline {
        name: name_of(alloc, structure, line.key)?,
        over: String::from_str(alloc, over(structure, line.key))?,
        x: line.x,
        half: line.half,
        top: line.top,
        bottom: line.stop.unwrap_or(bottom),
        dotted: !is_single,
        stopped: line.stop.is_some(),
        waiting: if is_single { line.waiting } else { 0 },
    })
}
