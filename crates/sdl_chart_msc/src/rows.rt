//! The events of logs by their numbers.
ghost use Rattle.std.specs.Prelude.{◌≡◌, [], map, option_map, slice_get, slice_index_or};
ghost use Rattle.sdl_instances_packed_log.specs.Packed.{event_shown};
ghost use Rattle.sdl_chart_page.specs.Entries.{AreStored};

use sdl_instances_packed_log::{Shown, Shows};

/// The event of this number of a log, where there is one.
pub(crate) fn event_of<K: Shows>(logs: &[K], list: usize, number: usize) -> Option<Shown<'_>>
    requires { AreStored K.stores logs.now }
    ensures { option_map event_shown result ≡ slice_get (slice_index_or (map K.events logs.now) list []) number }
{
    if list < logs.len() {
        logs[list].event(number)
    } else {
        None
    }
}
