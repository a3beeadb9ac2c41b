//! The names of a small system.
use arrayvec::ArrayVec;
use sdl_signal::{Names, Sort, name};
use std::alloc::Global;
use std::test::Fail;

/// The gate `line`, and the signal `ping` of an Integer.
pub fn some_names(alloc: Global) -> Result<Names, Fail> {
    let (Some(line), Some(ping)) = (name("line"), name("ping")) else {
        return Err("names".into());
    };
    let mut integer = ArrayVec::new();
    integer.push(Sort::Integer);
    let mut names = Names::new(alloc);
    names.add_gate(line)?;
    names.add_signal(ping, integer)?;
    Ok(names)
}
