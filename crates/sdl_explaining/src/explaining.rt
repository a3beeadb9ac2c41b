//! The second line below a fault of a structure file. Where no place is found, or memory is refused, nothing is written. A line that
//! the writer does not take is dropped.
use crate::checks::{Checker, Defect};
use crate::files::{Finder, Finding, right_names};
use crate::spots::{heads_of, line_at, spots_of, writings_of};
use crate::texts::Site;
use sdl_app_command::errors::write_error;
use sdl_app_command::stack::takes_stack;
use sdl_explaining_places::layout_of;
use sdl_listing_tokens::position_of;
use sdl_structure::{CheckFault, FileFault, Structure, check, read_structure};
use std::alloc::{AllocError, Global};
use std::io::Write;
use toml::table_from_slice;

/// The most bytes of a structure file.
const LONGEST_FILE: usize = 1_048_576;

/// Writes where a file that was refused breaks the first of the rules that it breaks, and what is wrong there. The file is read once
/// more.
pub fn explain<E: Write>(alloc: Global, file: &[u8], errors: &mut E) {
    if file.len() > LONGEST_FILE || !takes_stack(alloc, file) {
        return;
    }
    let Ok(text) = str::from_utf8(file) else {
        explain_no_toml(alloc, file, errors);
        return;
    };
    match read_structure(alloc, text) {
        Ok(structure) => {
            if let Err((structure, fault)) = check(structure) {
                let _ = explain_structure(alloc, text, &structure, fault, errors);
            }
        }
        Err(FileFault::NotToml) => explain_no_toml(alloc, file, errors),
        Err(fault) => {
            let _ = explain_file(alloc, text, fault, errors);
        }
    }
}

/// Writes where the text is not TOML, and why.
fn explain_no_toml<E: Write>(alloc: Global, file: &[u8], errors: &mut E) {
    if let Err(error) = table_from_slice(alloc, file) {
        if let Some(span) = error.span() {
            let position = position_of(file, span.start.min(file.len()));
            let (line, column) = (position.line, position.column);
            let message = error.message();
            write_error(
                errors,
                format_args!("line {line} column {column} of the file: {message}"),
            );
        }
    }
}

/// Writes where a rule of structure files is broken. Memory may be refused.
fn explain_file<E: Write>(
    alloc: Global,
    text: &str,
    fault: FileFault,
    errors: &mut E,
) -> Result<(), AllocError> {
    let file = text.as_bytes();
    let Some(layout) = layout_of(alloc, text) else {
        return Ok(());
    };
    let spots = spots_of(alloc, &layout)?;
    let heads = heads_of(alloc, &layout, spots.as_slice())?;
    let writings = writings_of(alloc, &layout, spots.as_slice())?;
    let right = right_names(alloc, writings.as_slice(), fault)?;
    let finder = Finder {
        alloc,
        file,
        heads: heads.as_slice(),
        writings: writings.as_slice(),
        right: right.as_slice(),
    };
    if let Some(finding) = finder.find(fault) {
        write_finding(file, finding, errors);
    }
    Ok(())
}

fn write_finding<'a, E: Write>(file: &[u8], finding: Finding<'a>, errors: &mut E) {
    let Finding { site, why } = finding;
    match site {
        Site::Table(at) => {
            let line = line_at(file, at);
            write_error(
                errors,
                format_args!("in the table at line {line} of the file: {why}"),
            );
        }
        Site::At(at) => {
            let position = position_of(file, at.min(file.len()));
            let (line, column) = (position.line, position.column);
            write_error(
                errors,
                format_args!("line {line} column {column} of the file: {why}"),
            );
        }
    }
}

/// Writes where the structure that the file declares is not well formed. Memory may be refused.
fn explain_structure<E: Write>(
    alloc: Global,
    text: &str,
    structure: &Structure,
    fault: CheckFault,
    errors: &mut E,
) -> Result<(), AllocError> {
    let file = text.as_bytes();
    let Some(layout) = layout_of(alloc, text) else {
        return Ok(());
    };
    let spots = spots_of(alloc, &layout)?;
    let writings = writings_of(alloc, &layout, spots.as_slice())?;
    let checker = Checker {
        file,
        writings: writings.as_slice(),
        structure,
    };
    if let Some((at, defect)) = checker.find(fault) {
        write_defect(file, at, defect, errors);
    }
    Ok(())
}

fn write_defect<'a, E: Write>(file: &[u8], at: usize, defect: Defect<'a>, errors: &mut E) {
    let position = position_of(file, at.min(file.len()));
    let (line, column) = (position.line, position.column);
    write_error(
        errors,
        format_args!("line {line} column {column} of the file: {defect}"),
    );
}
