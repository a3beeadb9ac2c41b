//! Whether each transition of a listing is sound.
ghost use Rattle.std.specs.Prelude.{IsTrue, ◌↔◌, ◌∷◌};
ghost use Rattle.std.specs.List.{AllByRecursion};
ghost use Rattle.sdl_listing_body.specs.Sound.{IsSound};
ghost use Rattle.sdl_listing_binding.specs.Answers.{rows_of};

use sdl_listing_body::{ListedSet, Row, is_sound};

fn are_sound_rows(rows: &[Row]) -> bool
    ensures { IsTrue result ↔ AllByRecursion IsSound rows.now }
{
    match rows {
        [] => true,
        [row, rest @ ..] => is_sound(row) && are_sound_rows(rest),
    }
}

fn is_sound_set(set: &ListedSet) -> bool
    ensures { IsTrue result ↔ AllByRecursion IsSound (set.now.start ∷ set.now.rows.items) }
{
    is_sound(&set.start) && are_sound_rows(set.rows.as_slice())
}

/// Whether each transition of these sets is sound, which a run of them needs. No memory is taken.
pub fn are_sound(sets: &[ListedSet]) -> bool
    ensures { IsTrue result ↔ AllByRecursion IsSound (rows_of sets.now) }
{
    match sets {
        [] => true,
        [set, rest @ ..] => is_sound_set(set) && are_sound(rest),
    }
}
