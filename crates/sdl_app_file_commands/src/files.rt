//! The bytes of a structure file.
ghost use Rattle.std.specs.Prelude.{IfSome};
ghost use Rattle.sdl_app_file_commands.specs.Files.{IsFrontOf};

use std::alloc::Global;
use std::fs;
use std::io::{ErrorKind, Read};
use std::rt::Files;

/// The most bytes of a structure file. (This project's own.)
pub(crate) const LONGEST_FILE: usize = 1_048_576;

/// What the reading of a file came to.
#[derive(Drop)]
pub enum FileRead {
    /// The file's bytes. Of a file that is too long, one byte more than the limit.
    Bytes(Vec<u8>),
    CannotRead,
    Memory,
}

/// Reads the file, up to one byte more than the limit.
pub fn read_file<H: Files>(rt: &H, alloc: Global, path: &str) -> FileRead {
    let Ok(file) = fs::open(rt, path) else {
        return FileRead::CannotRead;
    };
    read_front(alloc, file)
}

/// The reader's bytes, up to one more than the limit.
fn read_front<R: Read + Drop>(alloc: Global, reader: R) -> FileRead
    ensures { IfSome (R.remaining reader) (IsFrontOf result) }
{
    let mut bytes = Vec::new(alloc);
    match reader.take(LONGEST_FILE as u64 + 1).read_to_end(&mut bytes) {
        Ok(_) => FileRead::Bytes(bytes),
        Err(e) if e.kind() == ErrorKind::OutOfMemory => FileRead::Memory,
        Err(_) => FileRead::CannotRead,
    }
}
