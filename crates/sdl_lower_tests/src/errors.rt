//! A line on standard error that is longer than its buffer.
use crate::fakes::writer_of;
use sdl_app_command::errors::write_error;
use std::test::Fail;

/// A part of a name of a design.
const PART: &str = "a name of many letters";

/// How many such parts a name has, and how many bytes the line has then: a name of 264 bytes has no room in it.
const LONG_NAMES: [(usize, usize); 3] = [(10, 230), (11, 252), (12, 12)];

#[test]
fn a_text_that_is_too_long_ends_with_two_dots(rt: HostRuntime) -> Result<(), Fail> {
    for (parts, bytes) in LONG_NAMES {
        let mut errors = writer_of(rt.alloc());
        let name = PART.repeat(rt.alloc(), parts)?;
        write_error(&mut errors, format_args!("G4 NoSet {name}"));
        assert!(rt; errors.taken.len() == bytes);
        assert!(rt; errors.taken.as_slice().starts_with(b"G4 NoSet "));
        assert!(rt; errors.taken.as_slice().ends_with(b"..\n") == (parts == 12));
        assert!(rt; errors.calls == 1);
    }
    Ok(())
}
