//! The marks of stations, by which who puts something finds who takes it there asleep.
ghost use Rattle.std.specs.Prelude.{◌≡◌, ℕ, ◌%◌, ◌<◌, ◌↔◌, ◌⊎◌, IsTrue, IfSome, IfNone};
ghost use Rattle.sdl_forward_ends.specs.Marks.{mark, HasMark, IsEmpty, IsLeast, IsWithout};

use sdl_routes::Station;

/// How many marks stations have.
pub const MARKS: usize = 193;

/// The mark of a station (this project's own): 0 to 63 for inlets, 64 for the outlet, 65 to 192 for delaying paths. In one
/// structure no two stations have one mark: it has at most 64 blocks and 64 channels, the `MOST_BLOCKS` and `MOST_CHANNELS` of
/// `sdl_structure_parts`, on which this crate does not stand.
pub fn mark_of(station: Station) -> u32
    ensures mark { result ≡ mark station }
    ensures few { result < 193 }
{
    match station {
        Station::Line(hop) => 65 + hop.channel.0 % 64 * 2 + hop.back as u32,
        Station::Inlet(block) => block.0 % 64,
        Station::Outlet => 64,
    }
}

/// A set of marks, each below 256.
#[derive(Clone, Copy, Drop)]
pub struct Marks {
    words: [u64; 4],
}

impl Marks {
    /// No mark.
    pub fn none() -> Marks
        ensures { IsEmpty result }
    {
        Marks { words: [0; 4] }
    }

    pub fn is_empty(&self) -> bool
        ensures { IsTrue result ↔ IsEmpty self.now }
    {
        self.words[0] | self.words[1] | self.words[2] | self.words[3] == 0
    }

    /// Adds a mark. One from 256 on stands for its remainder.
    pub fn add(&mut self, mark: u32)
        ensures { (m : ℕ) → HasMark self.new m ↔ (HasMark self.old m ⊎ (m ≡ mark % 256)) }
    {
        self.words[(mark / 64 % 4) as usize] |= 1 << (mark % 64);
    }

    /// Adds these marks.
    pub fn join(&mut self, others: Marks)
        ensures { (m : ℕ) → HasMark self.new m ↔ (HasMark self.old m ⊎ HasMark others m) }
    {
        for place in 0..4 {
            self.words[place] |= others.words[place];
        }
    }

    /// Takes the least mark out.
    pub fn pop(&mut self) -> Option<u32>
        ensures least { IfSome result (λ mark. IsLeast self.old mark) }
        ensures few { IfSome result (λ mark. mark < 256) }
        ensures left { IfSome result (λ mark. IsWithout self.old mark self.new) }
        ensures empty { IfNone result (IsEmpty self.old) }
        ensures same { IfNone result (self.new ≡ self.old) }
    {
        for place in 0..4 {
            let word = self.words[place];
            if word != 0 {
                let lowest = word.trailing_zeros();
                self.words[place] = word & !(1 << lowest);
                return Some(place as u32 * 64 + lowest);
            }
        }
        None
    }
}
