//! The bytes that were read from an input and not yet handed out.
ghost use Rattle.std.specs.Prelude.{◌≡◌, ◌+◌, ◌-◌, ◌<◌, ◌≤◌, [], ◌++◌, length, take, drop, slice_range};
ghost use Rattle.std.specs.Io.KnownBytes.{ReadConsumes};
ghost use Rattle.sdl_signal_lines.specs.Source.{IsBlockRead, IsFilled};

use std::io::{ErrorKind, Read};
use std::marker::Model;

/// How many interrupted reads, and how many interrupted writes, are tried again.
pub const RETRIES: u32 = 1_000;

/// How many bytes are asked of a reader at once, at most.
const BLOCK: usize = 131_072;

/// What a read of a block came to.
#[derive(Clone, Copy, Debug, PartialEq, Eq)]
pub enum BlockRead {
    /// This many bytes came.
    Bytes(usize),
    End,
    Fault,
}

/// Reads a block. An interrupted read is tried again while `interrupted` is below the limit.
fn read_block<R: Read>(input: &mut R, block: &mut [u8], interrupted: &mut u32) -> BlockRead
    requires { 0 < length block.old }
    ensures { IsBlockRead (R.remaining input.old) (R.remaining input.new) block.new result }
{
    let mut tries = *interrupted;
    loop {
        match input.read(block) {
            Ok(0) => return BlockRead::End,
            Ok(n) => return BlockRead::Bytes(n),
            Err(e) => {
                if e.kind() != ErrorKind::Interrupted || tries >= RETRIES {
                    return BlockRead::Fault;
                }
                tries += 1;
                *interrupted = tries;
            }
        }
    }
}

/// The bytes of an input that were read and not handed out, and how many reads were interrupted so far.
/// Contracts see the bytes.
#[derive(Drop)]
pub struct Ahead {
    block: [u8; BLOCK],
    start: usize,
    end: usize,
    interrupted: u32,
}

impl Model for Ahead {
    ghost use Rattle.std.specs.Prelude.{ℕ, ◌≤◌, List, slice_range};

    ghost Value = { List ℕ };

    ghost view = { λ a. slice_range a.block a.start a.end };

    ghost invariant = { λ a. (a.start ≤ a.end) × (a.end ≤ 131072) };
}

impl Ahead {
    pub fn new() -> Self
        ensures { result ≡ [] }
    {
        Ahead {
            block: [0; BLOCK],
            start: 0,
            end: 0,
            interrupted: 0,
        }
    }

    pub fn as_slice(&self) -> &[u8]
        ensures { result.now ≡ self.now }
    {
        &self.block[self.start..self.end]
    }

    /// Hands out the first bytes.
    pub fn consume(&mut self, count: usize)
        requires { count ≤ length self.old }
        ensures { self.new ≡ drop count self.old }
    {
        self.start += count;
    }

    /// Reads a block behind the bytes that wait, which move to the front first.
    pub fn fill<R: Read>(&mut self, input: &mut R) -> BlockRead
        requires { length self.old < 16384 }
        ensures { IsFilled (R.remaining input.old) (R.remaining input.new) self.old self.new result }
    {
        let waiting = self.end - self.start;
        move_to_front(&mut self.block, self.start, self.end);
        self.start = 0;
        self.end = waiting;
        match read_behind(input, &mut self.block, waiting, &mut self.interrupted) {
            BlockRead::Bytes(count) => {
                self.end = waiting + count;
                BlockRead::Bytes(count)
            }
            BlockRead::End => BlockRead::End,
            BlockRead::Fault => BlockRead::Fault,
        }
    }
}

/// Moves a part of the block to its front.
fn move_to_front(block: &mut [u8], start: usize, end: usize)
    requires ordered { start ≤ end }
    requires within { end ≤ length block.old }
    ensures { take (end - start) block.new ≡ slice_range block.old start end }
{
    block.copy_within(start..end, 0);
}

/// Reads a block behind the first bytes of a block, which stay.
fn read_behind<R: Read>(
    input: &mut R,
    block: &mut [u8],
    kept: usize,
    interrupted: &mut u32,
) -> BlockRead
    requires { kept < length block.old }
    ensures kept { take kept block.new ≡ take kept block.old }
    ensures read { IsBlockRead (R.remaining input.old) (R.remaining input.new) (drop kept block.new) result }
{
    read_block(input, &mut block[kept..], interrupted)
}
