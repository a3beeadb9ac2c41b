//! Whether the shapes of a drawing stand as they have to.
ghost use Rattle.std.specs.Prelude.{◌≡◌, IsTrue, ◌↔◌, All};
ghost use Rattle.sdl_drawing.specs.Shown.{agent_around, LiesIn, AreSiblings, IsGateOf, IsChannelIn};
ghost use Rattle.sdl_drawing.specs.Tidy.{IsInside, AreBeside, StandsIn, IsBeside, AreApart, IsOnBorder, StandsOn, IsAtSide, MeetsGate, JoinsGates, PointsAtGate, HasHead, HasHeads, IsPointInside, IsLineInside, StaysIn, AreLevelsApart, AreTracksApart, AreEndsApart, ShareNoStretch, CrossAtMost, AllFramesInside, AllFramesApart, AllGatesOnBorders, IsOnSheet, AllFramesOnSheet, AllGatesOnSheet, AllLinesJoin, AllLinesHaveHeads, AllLinesStayIn, AllLinesCrossAtMost, AreFramesTidy, AreLinesTidy, IsTidy};

use crate::shapes::{ChannelLine, Drawing, Frame, GateBox, Meeting, Rect};
use crate::sizes::owner_of;
use sdl_signal::ChannelId;
use sdl_structure_parts::{End, Owner, Side, Structure};

/// Whether all shapes stand as they have to.
pub(crate) fn is_tidy(structure: &Structure, drawing: &Drawing) -> bool
    ensures { IsTrue result ↔ IsTidy structure.now drawing.now }
{
    let frames = drawing.frames.as_slice();
    let gates = drawing.gates.as_slice();
    let lines = drawing.channels.as_slice();
    all_frames_on_sheet(drawing.width, drawing.height, frames)
        && all_gates_on_sheet(drawing.width, drawing.height, gates)
        && are_frames_tidy(structure, frames, gates)
        && are_lines_tidy(structure, frames, gates, lines)
}

#[tactic(auto, unfolding(crate::specs::Tidy::AllFramesOnSheet))]
fn all_frames_on_sheet(width: usize, height: usize, frames: &[Frame]) -> bool
    ensures { IsTrue result ↔ AllFramesOnSheet width height frames.now }
{
    frames.iter().all(|f| is_on_sheet(width, height, f.rect))
}

#[tactic(auto, unfolding(crate::specs::Tidy::AllGatesOnSheet))]
fn all_gates_on_sheet(width: usize, height: usize, gates: &[GateBox]) -> bool
    ensures { IsTrue result ↔ AllGatesOnSheet width height gates.now }
{
    gates.iter().all(|g| is_on_sheet(width, height, g.rect))
}

/// Whether a rectangle has an area, and is on the sheet of this size.
fn is_on_sheet(width: usize, height: usize, rect: Rect) -> bool
    ensures { IsTrue result ↔ IsOnSheet width height rect }
{
    rect.left < rect.right && rect.top < rect.bottom && rect.right <= width && rect.bottom <= height
}

fn are_frames_tidy(structure: &Structure, frames: &[Frame], gates: &[GateBox]) -> bool
    ensures { IsTrue result ↔ AreFramesTidy structure.now frames.now gates.now }
{
    all_frames_inside(structure, frames)
        && all_frames_apart(structure, frames)
        && all_gates_on_borders(structure, frames, gates)
}

fn are_lines_tidy(
    structure: &Structure,
    frames: &[Frame],
    gates: &[GateBox],
    lines: &[ChannelLine],
) -> bool
    ensures { IsTrue result ↔ AreLinesTidy structure.now frames.now gates.now lines.now }
{
    all_lines_join(structure, gates, lines)
        && all_lines_have_heads(structure, lines)
        && all_lines_stay_in(structure, frames, lines)
        && all_lines_cross_at_most(lines)
}

#[tactic(auto, unfolding(crate::specs::Tidy::AllFramesInside))]
fn all_frames_inside(structure: &Structure, frames: &[Frame]) -> bool
    ensures { IsTrue result ↔ AllFramesInside structure.now frames.now }
{
    frames.iter().all(|f| stands_in_all(structure, f, frames))
}

#[tactic(auto, unfolding(crate::specs::Tidy::AllFramesApart))]
fn all_frames_apart(structure: &Structure, frames: &[Frame]) -> bool
    ensures { IsTrue result ↔ AllFramesApart structure.now frames.now }
{
    frames
        .iter()
        .all(|f| is_apart_from_all(structure, f, frames))
}

#[tactic(auto, unfolding(crate::specs::Tidy::AllGatesOnBorders))]
fn all_gates_on_borders(structure: &Structure, frames: &[Frame], gates: &[GateBox]) -> bool
    ensures { IsTrue result ↔ AllGatesOnBorders structure.now frames.now gates.now }
{
    gates.iter().all(|g| stands_on_all(structure, g, frames))
}

#[tactic(auto, unfolding(crate::specs::Tidy::AllLinesJoin))]
fn all_lines_join(structure: &Structure, gates: &[GateBox], lines: &[ChannelLine]) -> bool
    ensures { IsTrue result ↔ AllLinesJoin structure.now gates.now lines.now }
{
    lines.iter().all(|l| joins_gates(structure, gates, l))
}

#[tactic(auto, unfolding(crate::specs::Tidy::AllLinesHaveHeads))]
fn all_lines_have_heads(structure: &Structure, lines: &[ChannelLine]) -> bool
    ensures { IsTrue result ↔ AllLinesHaveHeads structure.now lines.now }
{
    lines.iter().all(|l| has_heads(structure, l))
}

#[tactic(auto, unfolding(crate::specs::Tidy::AllLinesStayIn))]
fn all_lines_stay_in(structure: &Structure, frames: &[Frame], lines: &[ChannelLine]) -> bool
    ensures { IsTrue result ↔ AllLinesStayIn structure.now frames.now lines.now }
{
    lines.iter().all(|l| stays_in_all(structure, l, frames))
}

#[tactic(auto, unfolding(crate::specs::Tidy::AllLinesCrossAtMost))]
fn all_lines_cross_at_most(lines: &[ChannelLine]) -> bool
    ensures { IsTrue result ↔ AllLinesCrossAtMost lines.now }
{
    lines.iter().all(|l| crosses_all(l, lines))
}

/// Whether a rectangle lies inside another.
fn is_inside(inner: Rect, outer: Rect) -> bool
    ensures { IsTrue result ↔ IsInside inner outer }
{
    outer.left <= inner.left
        && outer.top <= inner.top
        && inner.right <= outer.right
        && inner.bottom <= outer.bottom
}

/// Whether two rectangles have no point within both.
fn are_beside(one: Rect, other: Rect) -> bool
    ensures { IsTrue result ↔ AreBeside one other }
{
    one.right <= other.left
        || other.right <= one.left
        || one.bottom <= other.top
        || other.bottom <= one.top
}

/// The agent in which an agent lies. None for the system.
fn agent_around(structure: &Structure, agent: Owner) -> Option<Owner>
    ensures { result ≡ agent_around structure.now agent }
{
    match agent {
        Owner::System => None,
        Owner::Block(id) => match structure.blocks().get(id.0 as usize) {
            Some(block) => Some(owner_of(block.scope)),
            None => None,
        },
        Owner::Set(id) => match structure.sets().get(id.0 as usize) {
            Some(set) => Some(Owner::Block(set.block)),
            None => None,
        },
    }
}

/// Whether an agent lies right in this one.
fn lies_in(structure: &Structure, agent: Owner, around: Owner) -> bool
    ensures { IsTrue result ↔ LiesIn structure.now agent around }
{
    match agent_around(structure, agent) {
        Some(it) => it == around,
        None => false,
    }
}

/// Whether two agents lie right in the same agent.
fn are_siblings(structure: &Structure, one: Owner, other: Owner) -> bool
    ensures { IsTrue result ↔ AreSiblings structure.now one other }
{
    match agent_around(structure, one) {
        Some(around) => lies_in(structure, other, around),
        None => false,
    }
}

/// Whether a frame is inside the other, where its agent lies in the other's.
#[tactic(auto, unfolding(crate::specs::Tidy::StandsIn))]
fn stands_in(structure: &Structure, frame: &Frame, around: &Frame) -> bool
    ensures { IsTrue result ↔ StandsIn structure.now frame.now around.now }
{
    !lies_in(structure, frame.agent, around.agent) || is_inside(frame.rect, around.rect)
}

fn stands_in_all(structure: &Structure, frame: &Frame, frames: &[Frame]) -> bool
    ensures { IsTrue result ↔ All (λ f. StandsIn structure.now frame.now f) frames.now }
{
    frames.iter().all(|f| stands_in(structure, frame, f))
}

/// Whether two frames are those of one agent, or beside each other.
fn is_beside(one: &Frame, other: &Frame) -> bool
    ensures { IsTrue result ↔ IsBeside one.now other.now }
{
    one.agent == other.agent || are_beside(one.rect, other.rect)
}

/// Whether two frames are beside each other, where their agents lie in the same agent.
#[tactic(auto, unfolding(crate::specs::Tidy::AreApart))]
fn are_apart(structure: &Structure, one: &Frame, other: &Frame) -> bool
    ensures { IsTrue result ↔ AreApart structure.now one.now other.now }
{
    !are_siblings(structure, one.agent, other.agent) || is_beside(one, other)
}

fn is_apart_from_all(structure: &Structure, frame: &Frame, frames: &[Frame]) -> bool
    ensures { IsTrue result ↔ All (λ f. AreApart structure.now frame.now f) frames.now }
{
    frames.iter().all(|f| are_apart(structure, frame, f))
}

/// Whether a box stands on the left border of a frame.
fn is_on_border(gate: Rect, frame: Rect) -> bool
    ensures { IsTrue result ↔ IsOnBorder gate frame }
{
    gate.left <= frame.left
        && frame.left <= gate.right
        && frame.top <= gate.top
        && gate.bottom <= frame.bottom
}

/// Whether the gate of a box is the agent's.
fn is_gate_of(structure: &Structure, gate: &GateBox, agent: Owner) -> bool
    ensures { IsTrue result ↔ IsGateOf structure.now gate.now.gate agent }
{
    match structure.gates().get(gate.gate.0 as usize) {
        Some(gate) => gate.owner == agent,
        None => false,
    }
}

/// Whether a box stands on the border of the frame, where its gate is that of the frame's agent.
#[tactic(auto, unfolding(crate::specs::Tidy::StandsOn))]
fn stands_on(structure: &Structure, gate: &GateBox, frame: &Frame) -> bool
    ensures { IsTrue result ↔ StandsOn structure.now gate.now frame.now }
{
    !is_gate_of(structure, gate, frame.agent) || is_on_border(gate.rect, frame.rect)
}

fn stands_on_all(structure: &Structure, gate: &GateBox, frames: &[Frame]) -> bool
    ensures { IsTrue result ↔ All (λ f. StandsOn structure.now gate.now f) frames.now }
{
    frames.iter().all(|f| stands_on(structure, gate, f))
}

/// Whether a line meets a box at this side of it.
fn is_at_side(meeting: Meeting, gate: Rect, side: Side) -> bool
    ensures { IsTrue result ↔ IsAtSide meeting gate side }
{
    let is_there = match side {
        Side::Outer => meeting.x == gate.left,
        Side::Inner => meeting.x == gate.right,
    };
    is_there && gate.top <= meeting.y && meeting.y <= gate.bottom
}

/// Whether a line meets the box of the gate at which its channel ends.
fn meets_gate(gates: &[GateBox], end: End, meeting: Meeting) -> bool
    ensures { IsTrue result ↔ MeetsGate gates.now end meeting }
{
    match gates.get(end.gate.0 as usize) {
        Some(gate) => is_at_side(meeting, gate.rect, end.side),
        None => false,
    }
}

/// Whether a line joins the gates that its channel joins.
#[tactic(auto, unfolding(crate::specs::Tidy::JoinsGates))]
fn joins_gates(structure: &Structure, gates: &[GateBox], line: &ChannelLine) -> bool
    ensures { IsTrue result ↔ JoinsGates structure.now gates.now line.now }
{
    match structure.channels().get(line.channel.0 as usize) {
        Some(channel) => {
            meets_gate(gates, channel.first, line.first)
                && meets_gate(gates, channel.second, line.second)
        }
        None => false,
    }
}

/// Whether the arrow head at an end of a line lies in the line, and points at the gate.
fn points_at_gate(meeting: Meeting, track: usize) -> bool
    ensures { IsTrue result ↔ PointsAtGate meeting track }
{
    let tip = meeting.head.tip.x;
    let foot = meeting.head.foot;
    (meeting.x <= tip && tip < foot && foot <= track)
        || (track <= foot && foot < tip && tip <= meeting.x)
}

/// Whether the arrow head is right before the gate exactly where the channel has no delay.
fn tells_delay(nodelay: bool, meeting: Meeting) -> bool
    ensures { IsTrue result ↔ (IsTrue nodelay ↔ (meeting.head.tip.x ≡ meeting.x)) }
{
    let is_before_gate = meeting.head.tip.x == meeting.x;
    if nodelay {
        is_before_gate
    } else {
        !is_before_gate
    }
}

/// Whether an end of a line has its arrow head.
fn has_head(nodelay: bool, track: usize, meeting: Meeting) -> bool
    ensures { IsTrue result ↔ HasHead nodelay track meeting }
{
    meeting.head.tip.y == meeting.y
        && points_at_gate(meeting, track)
        && tells_delay(nodelay, meeting)
}

/// Whether a line has the arrow heads of its channel's paths.
#[tactic(auto, unfolding(crate::specs::Tidy::HasHeads))]
fn has_heads(structure: &Structure, line: &ChannelLine) -> bool
    ensures { IsTrue result ↔ HasHeads structure.now line.now }
{
    match structure.channels().get(line.channel.0 as usize) {
        Some(channel) => {
            has_head(channel.nodelay, line.track, line.first)
                && has_head(channel.nodelay, line.track, line.second)
        }
        None => false,
    }
}

fn is_point_inside(x: usize, y: usize, rect: Rect) -> bool
    ensures { IsTrue result ↔ IsPointInside x y rect }
{
    rect.left <= x && x <= rect.right && rect.top <= y && y <= rect.bottom
}

fn is_line_inside(line: &ChannelLine, rect: Rect) -> bool
    ensures { IsTrue result ↔ IsLineInside line.now rect }
{
    is_point_inside(line.first.x, line.first.y, rect)
        && is_point_inside(line.track, line.first.y, rect)
        && is_point_inside(line.track, line.second.y, rect)
        && is_point_inside(line.second.x, line.second.y, rect)
}

/// Whether a channel lies in an agent.
fn is_channel_in(structure: &Structure, channel: ChannelId, agent: Owner) -> bool
    ensures { IsTrue result ↔ IsChannelIn structure.now channel agent }
{
    match structure.channels().get(channel.0 as usize) {
        Some(channel) => owner_of(channel.scope) == agent,
        None => false,
    }
}

/// Whether a line is inside a frame, where its channel lies in the frame's agent.
#[tactic(auto, unfolding(crate::specs::Tidy::StaysIn))]
fn stays_in(structure: &Structure, line: &ChannelLine, frame: &Frame) -> bool
    ensures { IsTrue result ↔ StaysIn structure.now line.now frame.now }
{
    !is_channel_in(structure, line.channel, frame.agent) || is_line_inside(line, frame.rect)
}

fn stays_in_all(structure: &Structure, line: &ChannelLine, frames: &[Frame]) -> bool
    ensures { IsTrue result ↔ All (λ f. StaysIn structure.now line.now f) frames.now }
{
    frames.iter().all(|f| stays_in(structure, line, f))
}

/// Whether two level parts, each from where a line meets a gate to the line's track, share no stretch.
#[tactic(auto, unfolding(crate::specs::Tidy::AreLevelsApart))]
fn are_levels_apart(one: Meeting, track: usize, other: Meeting, other_track: usize) -> bool
    ensures { IsTrue result ↔ AreLevelsApart one track other other_track }
{
    one.y != other.y
        || one.x.max(track) <= other.x.min(other_track)
        || other.x.max(other_track) <= one.x.min(track)
}

/// Whether the upright parts of two lines share no stretch.
#[tactic(auto, unfolding(crate::specs::Tidy::AreTracksApart))]
fn are_tracks_apart(one: &ChannelLine, other: &ChannelLine) -> bool
    ensures { IsTrue result ↔ AreTracksApart one.now other.now }
{
    one.track != other.track
        || one.first.y.max(one.second.y) <= other.first.y.min(other.second.y)
        || other.first.y.max(other.second.y) <= one.first.y.min(one.second.y)
}

/// Whether a level part is apart from both level parts of a line.
#[tactic(auto, unfolding(crate::specs::Tidy::AreEndsApart))]
fn are_ends_apart(one: Meeting, track: usize, other: &ChannelLine) -> bool
    ensures { IsTrue result ↔ AreEndsApart one track other.now }
{
    are_levels_apart(one, track, other.first, other.track)
        && are_levels_apart(one, track, other.second, other.track)
}

/// Whether two lines share no stretch.
fn share_no_stretch(one: &ChannelLine, other: &ChannelLine) -> bool
    ensures { IsTrue result ↔ ShareNoStretch one.now other.now }
{
    are_tracks_apart(one, other)
        && are_ends_apart(one.first, one.track, other)
        && are_ends_apart(one.second, one.track, other)
}

/// Whether two lines are that of one channel, or share no stretch.
#[tactic(auto, unfolding(crate::specs::Tidy::CrossAtMost))]
fn cross_at_most(one: &ChannelLine, other: &ChannelLine) -> bool
    ensures { IsTrue result ↔ CrossAtMost one.now other.now }
{
    one.channel == other.channel || share_no_stretch(one, other)
}

fn crosses_all(line: &ChannelLine, lines: &[ChannelLine]) -> bool
    ensures { IsTrue result ↔ All (λ l. CrossAtMost line.now l) lines.now }
{
    lines.iter().all(|l| cross_at_most(line, l))
}
