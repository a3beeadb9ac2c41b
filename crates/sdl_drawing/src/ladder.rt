//! The ladder of a frame: the upright tracks of its channels, between the frame's border and its agents, and the room beside
//! them for lists. Each channel that lies in the frame has a track of its own.
use crate::texts::{TEXT_GAP, first_list, second_list, text_gap};
use sdl_structure_parts::{Channel, End, Scope, Structure};

/// From one track to the next.
const TRACK: usize = 18;

/// From the room at the left to the first track.
const BEFORE_TRACK: usize = 7;

/// Half the width of a gate's box, which stands on a border.
pub(crate) const HALF_BOX: usize = 5;

/// What the room at a side has beside the list, in tenths of a pixel.
const BESIDE_LIST: usize = 241;

/// The least room for a list, in tenths of a pixel.
const LEAST_LIST: usize = 400;

/// The width of a letter of a list, in tenths of a pixel.
const LIST_LETTER: usize = 61;

/// The room at each side of the tracks, in tenths of a pixel, and how many tracks there are.
#[derive(Clone, Copy)]
pub(crate) struct Ladder {
    side: usize,
    tracks: usize,
}

impl Ladder {
    /// That of the system or of a block.
    pub(crate) fn of(structure: &Structure, scope: Scope) -> Ladder {
        let mut list = LEAST_LIST;
        let mut tracks: usize = 0;
        for channel in structure.channels() {
            if channel.scope == scope {
                list = list.max(lists_width(structure, channel));
                tracks = tracks.saturating_add(1);
            }
        }
        Ladder {
            side: list.saturating_add(BESIDE_LIST),
            tracks,
        }
    }

    /// From the frame's border to that of its agents.
    pub(crate) fn width(self) -> usize {
        let sides = self.side.saturating_mul(2).saturating_add(5) / 10;
        self.tracks
            .saturating_mul(TRACK)
            .saturating_add(sides)
            .saturating_add(2 * HALF_BOX)
    }

    /// From the frame's border to the track that has so many before it.
    pub(crate) fn track(self, before: usize) -> usize {
        before
            .saturating_mul(TRACK)
            .saturating_add(self.side.saturating_add(4) / 10)
            .saturating_add(HALF_BOX + BEFORE_TRACK)
    }
}

/// The room that the wider list of a channel takes, in tenths of a pixel.
fn lists_width(structure: &Structure, channel: &Channel) -> usize {
    let first = first_list(structure, channel).letters;
    let second = second_list(structure, channel).letters;
    list_width(structure, channel.first, first).max(list_width(structure, channel.second, second))
}

/// The room that a list of so many letters takes at an end, in tenths of a pixel.
fn list_width(structure: &Structure, end: End, letters: usize) -> usize {
    let further = text_gap(structure, end).saturating_sub(TEXT_GAP);
    letters
        .saturating_mul(LIST_LETTER)
        .saturating_add(further.saturating_mul(10))
}
