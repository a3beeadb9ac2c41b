//! What the chart of a graph's run is written with.
ghost use Rattle.std.specs.Prelude.{◌≡◌, IfOk, option_map};

use sdl_chart_runs::ToChart;
use sdl_chart_text::States;
use sdl_chart_words::Charting;
use sdl_graph_binding::Design;
use sdl_listing_expression_text::set_named;
use sdl_signal::SetId;
use sdl_structure_parts::Structure;
use std::alloc::{AllocError, Global};

/// What the chart is written with, where one is asked for.
pub(crate) fn to_chart_of(
    alloc: Global,
    chart: Option<Charting>,
    structure: &Structure,
    design: &Design,
) -> Result<Option<ToChart>, AllocError>
    ensures { IfOk result (λ made. option_map (λ t. t.charting) made ≡ chart) }
{
    match chart {
        Some(charting) => {
            let states = states_of(alloc, structure, design)?;
            Ok(Some(ToChart { charting, states }))
        }
        None => Ok(None),
    }
}

/// The names that the design gives to the states of each set of the structure.
fn states_of(alloc: Global, structure: &Structure, design: &Design) -> Result<States, AllocError> {
    let mut states = States::new(alloc, structure.sets().len())?;
    for set in design.sets {
        if let Some(number) = set_named(structure, set.name.as_bytes()) {
            say_all(alloc, &mut states, number, set.states)?;
        }
    }
    Ok(states)
}

/// Says the names of the states of a set.
fn say_all(
    alloc: Global,
    states: &mut States,
    set: SetId,
    names: &[&str],
) -> Result<(), AllocError> {
    for name in names {
        states.say(alloc, set, name)?;
    }
    Ok(())
}
