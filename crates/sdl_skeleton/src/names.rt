//! The names of the constants of a skeleton: the name of each part in capital letters. A gate has that of its set before its own, as
//! `LAMP_BUTTON`. Names that would be one constant, as they differ in case alone, have the number of the part behind them, but the
//! first. Since a constant is in capital letters, it is no keyword.
use sdl_structure_parts::{Gate, Owner, Structure};
use std::alloc::{AllocError, Global};

/// The constants of all parts, of each kind by number.
#[derive(Drop)]
pub struct Names {
    signals: Vec<String>,
    sets: Vec<String>,
    /// The names of the files of the sets, less `.rt`.
    files: Vec<String>,
    /// Those of gates that are of no set are empty.
    gates: Vec<String>,
    channels: Vec<String>,
}

impl Names {
    /// The constants of the parts of a structure.
    pub fn of(alloc: Global, structure: &Structure) -> Result<Names, AllocError> {
        let mut signals = Vec::new(alloc);
        for signal in structure.signals() {
            signals.push(in_capitals(alloc, signal.name.as_str())?)?;
        }
        let mut sets = Vec::new(alloc);
        for set in structure.sets() {
            sets.push(in_capitals(alloc, set.name.as_str())?)?;
        }
        let mut gates = Vec::new(alloc);
        for gate in structure.gates() {
            gates.push(gate_in_capitals(alloc, structure, gate)?)?;
        }
        let mut channels = Vec::new(alloc);
        for channel in structure.channels() {
            channels.push(in_capitals(alloc, channel.name.as_str())?)?;
        }
        let sets = told_apart(alloc, sets.as_slice())?;
        Ok(Names {
            signals: told_apart(alloc, signals.as_slice())?,
            files: files_of(alloc, sets.as_slice())?,
            sets,
            gates: told_apart(alloc, gates.as_slice())?,
            channels: told_apart(alloc, channels.as_slice())?,
        })
    }

    pub fn signal(&self, number: usize) -> &str {
        name_at(self.signals.as_slice(), number)
    }

    pub fn set(&self, number: usize) -> &str {
        name_at(self.sets.as_slice(), number)
    }

    pub fn gate(&self, number: usize) -> &str {
        name_at(self.gates.as_slice(), number)
    }

    pub fn channel(&self, number: usize) -> &str {
        name_at(self.channels.as_slice(), number)
    }

    /// The name of the file of a set, less `.rt`.
    pub fn file(&self, number: usize) -> &str {
        name_at(self.files.as_slice(), number)
    }

    /// The names of the files of the sets, less `.rt`.
    pub fn files(&self) -> &[String] {
        self.files.as_slice()
    }
}

/// The name of this number, which is empty past the last.
fn name_at(names: &[String], number: usize) -> &str {
    match names.get(number) {
        Some(name) => name.as_str(),
        None => "",
    }
}

/// A name in capital letters.
fn in_capitals(alloc: Global, name: &str) -> Result<String, AllocError> {
    let mut text = String::new(alloc);
    for letter in name.chars() {
        text.push(letter.to_ascii_uppercase())?;
    }
    Ok(text)
}

/// The name of a gate of a set behind that of its set, in capital letters. It is empty for another gate.
fn gate_in_capitals(
    alloc: Global,
    structure: &Structure,
    gate: &Gate,
) -> Result<String, AllocError> {
    let Owner::Set(set) = gate.owner else {
        return Ok(String::new(alloc));
    };
    let mut text = match structure.sets().get(set.0 as usize) {
        Some(set) => in_capitals(alloc, set.name.as_str())?,
        None => String::new(alloc),
    };
    text.push('_')?;
    let own = in_capitals(alloc, gate.name.as_str())?;
    text.push_str(own.as_str())?;
    Ok(text)
}

/// The names, each with its number behind it where it could be taken for another.
fn told_apart(alloc: Global, names: &[String]) -> Result<Vec<String>, AllocError> {
    let mut apart = Vec::new(alloc);
    for (number, name) in names.iter().enumerate() {
        let text = if is_another(alloc, names, number, name.as_str())? {
            format!(in alloc; "{name}_{number}")?
        } else {
            name.clone()?
        };
        apart.push(text)?;
    }
    Ok(apart)
}

/// Whether the name of this number is an earlier one too, or another one with its number.
fn is_another(
    alloc: Global,
    names: &[String],
    number: usize,
    name: &str,
) -> Result<bool, AllocError> {
    for (other_number, other) in names.iter().enumerate() {
        if other_number < number && other.as_str() == name {
            return Ok(true);
        }
        let numbered = format!(in alloc; "{other}_{other_number}")?;
        if other_number != number && numbered.as_str() == name {
            return Ok(true);
        }
    }
    Ok(false)
}

/// The name of the file of a set: its constant in small letters behind `set_`, so that it is no keyword.
fn file_of(alloc: Global, constant: &str) -> Result<String, AllocError> {
    let mut text = String::new(alloc);
    text.push_str("set_")?;
    for letter in constant.chars() {
        text.push(letter.to_ascii_lowercase())?;
    }
    Ok(text)
}

/// The names of the files of the sets with these constants.
fn files_of(alloc: Global, constants: &[String]) -> Result<Vec<String>, AllocError> {
    let mut files = Vec::new(alloc);
    for constant in constants {
        files.push(file_of(alloc, constant.as_str())?)?;
    }
    Ok(files)
}
