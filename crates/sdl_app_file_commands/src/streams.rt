//! Standard input and output: what the output holds is written out before the input is waited for.
ghost use Rattle.std.specs.Prelude.{◌≡◌, IfSome};

use sdl_app_command::errors::without_memory;
use std::alloc::Global;
use std::cell::RefCell;
use std::io::{BufWriter, Error, ErrorKind, Read, Result, Write};

/// How many interrupted writes are tried again in a run. (This project's own, as for a sink of lines.)
const RETRIES: u32 = 1_000;

/// A writer behind the buffer. Whoever writes to it tries an interrupted write again; so its interruptions are counted, and
/// the one after 1,000 is a fault. After a fault nothing more is written: it is the same for ever, whoever met it.
#[derive(Drop)]
pub struct Counting<W> {
    writer: W,
    interrupted: u32,
    failed: bool,
}

impl<W> Counting<W> {
    /// The writer's fault, or its interruption where that may be tried again.
    fn counted(&mut self, error: Error) -> Error {
        if error.kind() == ErrorKind::Interrupted && self.interrupted < RETRIES {
            self.interrupted += 1;
            return error;
        }
        self.failed = true;
        ErrorKind::Other.into()
    }

    /// A fault, where there was one.
    fn whole(&self) -> Result<()> {
        if self.failed {
            return Err(ErrorKind::Other.into());
        }
        Ok(())
    }
}

impl<W: Write> Write for Counting<W> {
    fn write(&mut self, bytes: &[u8]) -> Result<usize> {
        self.whole()?;
        match self.writer.write(bytes) {
            Ok(count) => {
                self.failed = count == 0 && !bytes.is_empty();
                Ok(count)
            }
            Err(error) => Err(self.counted(error)),
        }
    }

    fn flush(&mut self) -> Result<()> {
        self.whole()?;
        match self.writer.flush() {
            Ok(()) => Ok(()),
            Err(error) => Err(self.counted(error)),
        }
    }
}

/// A writer's buffer, which a reader and a writer share.
pub type Shared<W> = RefCell<BufWriter<Counting<W>>>;

/// A buffer in front of the writer, for a reader and a writer to share. Where it finds no memory, a line of standard error says
/// so.
pub fn shared_buffer<W: Write + Drop, E: Write>(
    alloc: Global,
    writer: W,
    errors: &mut E,
) -> Option<Shared<W>>
    ensures silent { IfSome result (λ buffer. errors.new ≡ errors.old) }
{
    let counting = Counting {
        writer,
        interrupted: 0,
        failed: false,
    };
    match BufWriter::new(alloc, counting) {
        Ok(buffer) => Some(RefCell::new(buffer)),
        Err(_) => {
            without_memory(errors);
            None
        }
    }
}

/// A reader that writes out what the buffer holds before it reads on.
#[derive(Drop)]
pub struct Input<'a, R, W: Write + Drop> {
    pub reader: R,
    pub buffer: &'a Shared<W>,
}

impl<R: Read, W: Write + Drop> Read for Input<'_, R, W> {
    fn read(&mut self, bytes: &mut [u8]) -> Result<usize> {
        if let Ok(mut buffer) = self.buffer.try_borrow_mut() {
            // A fault is remembered behind the buffer, and the next write says so.
            let _ = buffer.flush();
        }
        self.reader.read(bytes)
    }
}

/// A writer to the buffer.
#[derive(Drop)]
pub struct Output<'a, W: Write + Drop> {
    pub buffer: &'a Shared<W>,
}

impl<W: Write + Drop> Write for Output<'_, W> {
    fn write(&mut self, bytes: &[u8]) -> Result<usize> {
        match self.buffer.try_borrow_mut() {
            Ok(mut buffer) => {
                buffer.get_ref().whole()?;
                buffer.write(bytes)
            }
            Err(_) => Err(ErrorKind::ResourceBusy.into()),
        }
    }

    fn flush(&mut self) -> Result<()> {
        match self.buffer.try_borrow_mut() {
            Ok(mut buffer) => buffer.flush(),
            Err(_) => Err(ErrorKind::ResourceBusy.into()),
        }
    }
}
