//! The chart: notes of the environment's outputs, and then one instance behind the other.
ghost use Rattle.std.specs.Prelude.{◌≡◌, ◌++◌, ℕ, List, map, None, OnOk, codes};
ghost use Rattle.std.specs.Io.KnownBytes.{Appends};
ghost use Rattle.sdl_chart_page.specs.Entries.{AreStored};
ghost use Rattle.sdl_chart_msc.specs.Lines.{script_of, row_text, acts_text, head_text, foot_text, joint_text, place_text, lines_after, last_of, msc_text, IsMscOf};
ghost use Rattle.sdl_app_file_commands.specs.Texts.{set_text};
ghost use Rattle.sdl_chart_msc.specs.Names.{name_text};

use crate::lines::Scene;
use crate::messages::Messages;
use crate::names::write_between;
use crate::places::{Place, is_same, places_of};
use crate::rows::event_of;
use crate::signals::write_pid;
use sdl_app_file_commands::names::set_name;
use sdl_chart_page::{Lists, Row};
use sdl_chart_text::Chart;
use sdl_instances_packed_log::Shows;
use sdl_signal::{Pid, SetId};
use sdl_structure_parts::Structure;
use std::alloc::Global;
use std::io::{Result as IoResult, Write};

/// Why a chart is not written whole.
#[derive(Clone, Copy, Debug, PartialEq, Eq)]
pub enum MscFault {
    /// A growth was refused. Nothing was written.
    Memory,
    /// The output did not take all.
    Write,
}

/// Writes a chart in the textual form of Z.120: the instances by set and number, of each its consumptions, outputs, creates and
/// states in order. An arrow's head is the consumption, so an output that nobody consumed is lost. Messages count from 1, in the
/// order of the page. Those of the environment's outputs that nobody consumed are notes before the instances.
///
/// All memory is taken before the first byte is written.
pub fn write_msc<K: Shows, W: Write>(
    alloc: Global,
    output: &mut W,
    chart: &Chart<K>,
) -> Result<(), MscFault>
    requires stored { AreStored K.stores chart.now.lists.now.logs.now }
    ensures written { OnOk result ((text : List ℕ)
        × IsMscOf chart.now.structure.now chart.now.routes.now chart.now.states.now (map K.events chart.now.lists.now.logs.now) chart.now.lists.now.received.now chart.now.lists.now.put.now chart.now.page.now text
        × Appends (W.contents output.old) (W.contents output.new) text) }
    ensures memory { result ≡ Err MscFault.Memory → output.new ≡ output.old }
{
    let rows = chart.page.rows();
    let Ok(messages) = Messages::of(alloc, chart.page, chart.lists) else {
        return Err(MscFault::Memory);
    };
    let Ok(places) = places_of(alloc, chart.lists.logs, rows) else {
        return Err(MscFault::Memory);
    };
    let scene = Scene {
        structure: chart.structure,
        routes: chart.routes,
        states: chart.states,
        page: chart.page,
        messages: &messages,
    };
    match write_whole(output, &scene, chart.lists, places.as_slice()) {
        Ok(()) => Ok(()),
        Err(_) => Err(MscFault::Write),
    }
}

/// Writes the chart, whose instances have these places.
fn write_whole<K: Shows, W: Write>(
    output: &mut W,
    scene: &Scene,
    lists: &Lists<K>,
    places: &[Place],
) -> IoResult<()>
    requires { AreStored K.stores lists.now.logs.now }
    ensures { OnOk result (Appends (W.contents output.old) (W.contents output.new) (msc_text (script_of scene.now) (map K.events lists.now.logs.now) lists.now.put.now scene.now.page.now.rows places.now)) }
{
    write_system(output, scene.structure)?;
    scene.write_notes(output, lists.put)?;
    write_instances(output, scene, lists.logs, places)?;
    write!(output, "endmsc;\n")
}

/// Writes the name of the system.
fn write_system<W: Write>(output: &mut W, structure: &Structure) -> IoResult<()>
    ensures { OnOk result (Appends (W.contents output.old) (W.contents output.new) (codes "msc " ++ name_text structure.now.system ++ codes ";\n")) }
{
    write_between(output, "msc ", structure.system(), ";\n")
}

/// Writes the instances, by their places.
fn write_instances<K: Shows, W: Write>(
    output: &mut W,
    scene: &Scene,
    logs: &[K],
    places: &[Place],
) -> IoResult<()>
    requires { AreStored K.stores logs.now }
    ensures { OnOk result (Appends (W.contents output.old) (W.contents output.new) (lines_after (place_text (script_of scene.now) (map K.events logs.now) scene.now.page.now.rows) None places.now ++ foot_text (last_of None places.now))) }
{
    let mut before = None;
    for index in 0..places.len() {
        write_place(output, scene, logs, before, places[index])?;
        before = Some(places[index]);
    }
    write_foot(output, before)
}

/// Writes a place behind another one.
fn write_place<K: Shows, W: Write>(
    output: &mut W,
    scene: &Scene,
    logs: &[K],
    before: Option<Place>,
    place: Place,
) -> IoResult<()>
    requires { AreStored K.stores logs.now }
    ensures { OnOk result (Appends (W.contents output.old) (W.contents output.new) (place_text (script_of scene.now) (map K.events logs.now) scene.now.page.now.rows before place)) }
{
    write_joint(output, scene.structure, before, place)?;
    write_acts(output, scene, logs, place)
}

/// Ends the instance before and begins the next one, where the place is not of the same.
fn write_joint<W: Write>(
    output: &mut W,
    structure: &Structure,
    before: Option<Place>,
    place: Place,
) -> IoResult<()>
    ensures { OnOk result (Appends (W.contents output.old) (W.contents output.new) (joint_text structure.now before place)) }
{
    match before {
        Some(last) => {
            if is_same(last, place) {
                Ok(())
            } else {
                write_next(output, structure, before, place)
            }
        }
        None => write_head(output, structure, place),
    }
}

/// Ends the instance before, and begins the next one.
fn write_next<W: Write>(
    output: &mut W,
    structure: &Structure,
    before: Option<Place>,
    place: Place,
) -> IoResult<()>
    ensures { OnOk result (Appends (W.contents output.old) (W.contents output.new) (foot_text before ++ head_text structure.now place)) }
{
    write_foot(output, before)?;
    write_head(output, structure, place)
}

/// Writes the name of an instance and of its set.
fn write_head<W: Write>(output: &mut W, structure: &Structure, place: Place) -> IoResult<()>
    ensures { OnOk result (Appends (W.contents output.old) (W.contents output.new) (head_text structure.now place)) }
{
    let set = SetId(place.set);
    write!(output, "  instance ")?;
    write_pid(output, structure, Pid::Inst(set, place.serial))?;
    write_process(output, structure, set)
}

/// Writes the set of an instance.
fn write_process<W: Write>(output: &mut W, structure: &Structure, set: SetId) -> IoResult<()>
    ensures { OnOk result (Appends (W.contents output.old) (W.contents output.new) (codes ": process " ++ name_text (set_text structure.now set) ++ codes ";\n")) }
{
    write_between(output, ": process ", set_name(structure, set), ";\n")
}

/// Ends the instance of the last place, where there is one.
fn write_foot<W: Write>(output: &mut W, last: Option<Place>) -> IoResult<()>
    ensures { OnOk result (Appends (W.contents output.old) (W.contents output.new) (foot_text last)) }
{
    match last {
        Some(_) => write!(output, "  endinstance;\n"),
        None => Ok(()),
    }
}

/// Writes what the instance did in the row, where it did something.
fn write_acts<K: Shows, W: Write>(
    output: &mut W,
    scene: &Scene,
    logs: &[K],
    place: Place,
) -> IoResult<()>
    requires { AreStored K.stores logs.now }
    ensures { OnOk result (Appends (W.contents output.old) (W.contents output.new) (acts_text (script_of scene.now) (map K.events logs.now) scene.now.page.now.rows place)) }
{
    if place.acts {
        match scene.page.rows().get(place.row) {
            Some(row) => write_row(output, scene, logs, *row),
            None => Ok(()),
        }
    } else {
        Ok(())
    }
}

/// Writes the turn of a row.
fn write_row<K: Shows, W: Write>(
    output: &mut W,
    scene: &Scene,
    logs: &[K],
    row: Row,
) -> IoResult<()>
    requires { AreStored K.stores logs.now }
    ensures { OnOk result (Appends (W.contents output.old) (W.contents output.new) (row_text (script_of scene.now) (map K.events logs.now) row)) }
{
    match event_of(logs, row.list, row.number) {
        Some(event) => scene.write_event(output, event),
        None => Ok(()),
    }
}
