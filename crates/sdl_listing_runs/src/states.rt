//! The names of states that the chart of a listing's run is written with.
ghost use Rattle.std.specs.Prelude.{◌≡◌, option_map};

use sdl_chart_runs::ToChart;
use sdl_chart_text::States;
use sdl_chart_words::Charting;
use sdl_listing_body::ListedSet;
use sdl_structure_parts::Structure;
use std::alloc::{AllocError, Global};

/// The names of the states of each set, as the listing says them, where a chart is asked for, and else of no set.
pub fn states_of(
    alloc: Global,
    structure: &Structure,
    listing: &[ListedSet],
    charted: bool,
) -> Result<States, AllocError> {
    let sets = if charted { structure.sets().len() } else { 0 };
    let mut states = States::new(alloc, sets)?;
    for listed in listing {
        say_all(alloc, &mut states, listed)?;
    }
    Ok(states)
}

/// Says the names of the states of a set.
fn say_all(alloc: Global, states: &mut States, listed: &ListedSet) -> Result<(), AllocError> {
    for name in listed.states.as_slice() {
        states.say(alloc, listed.set, name.as_str())?;
    }
    Ok(())
}

/// What a chart is written with, where one is asked for.
pub fn to_chart_with(chart: Option<Charting>, states: States) -> Option<ToChart>
    ensures { option_map (λ t. t.charting) result ≡ chart }
{
    match chart {
        Some(charting) => Some(ToChart { charting, states }),
        None => None,
    }
}
