//! The lines of a chart.
ghost use Rattle.std.specs.Prelude.{◌+◌, ◌<◌, ◌≤◌, ◌^◌, OnOk, length, map};
ghost use Rattle.std.specs.Io.KnownBytes.{Appends};
ghost use Rattle.sdl_chart_page.specs.Entries.{AreStored};
ghost use Rattle.sdl_chart_text.specs.Legends.{legend_of};
ghost use Rattle.sdl_chart_text.specs.Rows.{receipt_text, output_text, text_at, row_text, line_text, gathered_from, chart_text};

use crate::chart::Chart;
use crate::environment::{write_output, write_receipt};
use crate::events::write_event;
use sdl_chart_page::Row;
use sdl_instances_packed_log::Shows;
use std::io::{Result, Write};

/// Writes the text of a chart from the first of these rows on to before the last one: a line for each row of its page, with the row's
/// number, which counts from 1.
pub fn write_chart<K: Shows, W: Write>(
    output: &mut W,
    chart: &Chart<K>,
    first: usize,
    past: usize,
) -> Result<()>
    requires stored { AreStored K.stores chart.now.lists.now.logs.now }
    requires from { first ≤ past }
    requires to { past ≤ length chart.now.page.now.rows }
    ensures { OnOk result (Appends (W.contents output.old) (W.contents output.new) (chart_text (legend_of K.events chart.now) (map K.events chart.now.lists.now.logs.now) chart.now.lists.now.received.now chart.now.lists.now.put.now first past chart.now.page.now.rows)) }
{
    let rows = chart.page.rows();
    write_lines(output, chart, first, &rows[first..past])
}

/// Writes the lines of these rows, of which the first has this number.
fn write_lines<K: Shows, W: Write>(
    output: &mut W,
    chart: &Chart<K>,
    first: usize,
    rows: &[Row],
) -> Result<()>
    requires stored { AreStored K.stores chart.now.lists.now.logs.now }
    requires few { first + length rows.now < 2 ^ 64 }
    ensures { OnOk result (Appends (W.contents output.old) (W.contents output.new) (gathered_from (line_text (legend_of K.events chart.now) (map K.events chart.now.lists.now.logs.now) chart.now.lists.now.received.now chart.now.lists.now.put.now) first rows.now)) }
{
    for index in 0..rows.len() {
        write_line(output, chart, first + index, rows[index])?;
    }
    Ok(())
}

/// Writes a line: the number of its row, and the event.
fn write_line<K: Shows, W: Write>(
    output: &mut W,
    chart: &Chart<K>,
    number: usize,
    row: Row,
) -> Result<()>
    requires { AreStored K.stores chart.now.lists.now.logs.now }
    ensures { OnOk result (Appends (W.contents output.old) (W.contents output.new) (line_text (legend_of K.events chart.now) (map K.events chart.now.lists.now.logs.now) chart.now.lists.now.received.now chart.now.lists.now.put.now number row)) }
{
    let line = number as u128 + 1;
    write!(output, "{line} ")?;
    write_row(output, chart, row)?;
    writeln!(output)
}

/// Writes an event: one of a block, a receipt of the environment, or an output of it.
fn write_row<K: Shows, W: Write>(output: &mut W, chart: &Chart<K>, row: Row) -> Result<()>
    requires { AreStored K.stores chart.now.lists.now.logs.now }
    ensures { OnOk result (Appends (W.contents output.old) (W.contents output.new) (row_text (legend_of K.events chart.now) (map K.events chart.now.lists.now.logs.now) chart.now.lists.now.received.now chart.now.lists.now.put.now row)) }
{
    let blocks = chart.lists.logs.len();
    if row.list < blocks {
        write_logged(output, chart, row)
    } else if row.list == blocks {
        write_received(output, chart, row.number)
    } else {
        write_put(output, chart, row.number)
    }
}

/// Writes an event of a log.
fn write_logged<K: Shows, W: Write>(output: &mut W, chart: &Chart<K>, row: Row) -> Result<()>
    requires stored { AreStored K.stores chart.now.lists.now.logs.now }
    requires within { row.list < length chart.now.lists.now.logs.now }
    ensures { OnOk result (Appends (W.contents output.old) (W.contents output.new) (row_text (legend_of K.events chart.now) (map K.events chart.now.lists.now.logs.now) chart.now.lists.now.received.now chart.now.lists.now.put.now row)) }
{
    match chart.lists.logs[row.list].event(row.number) {
        Some(event) => write_event(output, chart, row.list, event),
        None => Ok(()),
    }
}

/// Writes the receipt of this number.
fn write_received<K: Shows, W: Write>(output: &mut W, chart: &Chart<K>, number: usize) -> Result<()>
    requires { AreStored K.stores chart.now.lists.now.logs.now }
    ensures { OnOk result (Appends (W.contents output.old) (W.contents output.new) (text_at (receipt_text (legend_of K.events chart.now)) chart.now.lists.now.received.now number)) }
{
    match chart.lists.received.get(number) {
        Some(item) => write_receipt(output, chart, item),
        None => Ok(()),
    }
}

/// Writes the output of the environment of this number.
fn write_put<K: Shows, W: Write>(output: &mut W, chart: &Chart<K>, number: usize) -> Result<()>
    ensures { OnOk result (Appends (W.contents output.old) (W.contents output.new) (text_at (output_text (legend_of K.events chart.now)) chart.now.lists.now.put.now number)) }
{
    match chart.lists.put.get(number) {
        Some(out) => write_output(output, chart, out),
        None => Ok(()),
    }
}
