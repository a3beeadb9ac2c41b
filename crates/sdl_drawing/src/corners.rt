//! Where frames stand.
use crate::ladder::Ladder;
use crate::shapes::Rect;
use crate::sizes::{Measures, Size, TITLE_SPACE};
use crate::texts::title_width;
use sdl_structure_parts::limits::MOST_DEPTH;
use sdl_structure_parts::{Owner, Scope, Set, Structure};

/// From the edge of the picture to the system's frame.
pub(crate) const EDGE: usize = 14;

/// The least room at the left of the system's frame, for the names of its gates.
const LEAST_MARGIN: usize = 74;

/// What the name of a gate of the system has at its sides.
const BESIDE_NAME: usize = 14;

/// The left upper corner of a frame.
#[derive(Clone, Copy)]
pub(crate) struct Corner {
    left: usize,
    top: usize,
}

impl Corner {
    /// A corner further to the right and further down.
    fn moved(self, by: Corner) -> Corner {
        Corner {
            left: self.left.saturating_add(by.left),
            top: self.top.saturating_add(by.top),
        }
    }

    /// The rectangle of this size at the corner.
    fn rect(self, size: Size) -> Rect {
        Rect {
            left: self.left,
            top: self.top,
            right: self.left.saturating_add(size.width),
            bottom: self.top.saturating_add(size.height),
        }
    }
}

/// The corner of the system's frame.
fn system_corner(structure: &Structure) -> Corner {
    let mut margin = LEAST_MARGIN;
    for gate in structure.gates() {
        if gate.owner == Owner::System {
            let name = title_width(gate.name.as_str().len());
            margin = margin.max(name.saturating_add(BESIDE_NAME));
        }
    }
    Corner {
        left: margin,
        top: EDGE,
    }
}

/// The number of a block, and where it lies. None for the system.
fn block_in(structure: &Structure, scope: Scope) -> Option<(usize, Scope)> {
    match scope {
        Scope::System => None,
        Scope::Block(id) => {
            let number = id.0 as usize;
            let block = structure.blocks().get(number)?;
            Some((number, block.scope))
        }
    }
}

impl Measures {
    /// The corner of the system's frame, or of a block's.
    fn corner(&self, structure: &Structure, scope: Scope) -> Corner {
        let mut corner = system_corner(structure);
        let mut inner = scope;
        for _ in 0..MOST_DEPTH {
            match block_in(structure, inner) {
                Some((number, around)) => {
                    let offset = self.offset(structure, around, usize::MAX, number);
                    corner = corner.moved(offset);
                    inner = around;
                }
                None => break,
            }
        }
        corner
    }

    /// How far an agent stands from the corner of the frame around it, with these numbers of the next set and the next block.
    fn offset(&self, structure: &Structure, around: Scope, set: usize, block: usize) -> Corner {
        let above = self.agents_before(structure, around, set, block);
        Corner {
            left: Ladder::of(structure, around).width(),
            top: above.height.saturating_add(TITLE_SPACE),
        }
    }

    /// The rectangle of the system.
    pub(crate) fn system_rect(&self, structure: &Structure) -> Rect {
        let title = structure.system().len().saturating_add(7);
        let size = self.scope_size(structure, Scope::System, title);
        system_corner(structure).rect(size)
    }

    /// The rectangle of the block of this number.
    pub(crate) fn block_rect(&self, structure: &Structure, scope: Scope, number: usize) -> Rect {
        self.corner(structure, scope).rect(self.block_size(number))
    }

    /// The rectangle of the set of this number.
    pub(crate) fn set_rect(&self, structure: &Structure, number: usize, set: &Set) -> Rect {
        let around = Scope::Block(set.block);
        let offset = self.offset(structure, around, number, 0);
        let size = self.set_size(number);
        self.corner(structure, around).moved(offset).rect(size)
    }
}
