//! The system that is tried, and where its calls come from and its answers go.
ghost use Rattle.std.specs.Prelude.{IfOk};
ghost use Rattle.sdl_forward.specs.Boards.{IsBoardOf};

use crate::lines::Lines;
use arrayvec::ArrayVec;
use sdl_signal::InputEnd;
use sdl_stepper_calls::answers::Answers;
use sdl_stepper_calls::calls::{Call, write_meant};
use sdl_stepper_calls::common::{Desk, Place, common_call};
use sdl_structure_parts::Checked;
use std::alloc::AllocError;
use std::io::{Read, Write};
use std::sync::Wait;

/// The system, and what its calls are made with.
#[derive(Drop)]
pub struct Site<'a, T> {
    pub rt: &'a T,
    pub checked: &'a Checked,
    pub place: Place<'a>,
}

/// Where the calls come from, and where the answers go.
#[derive(Drop)]
pub struct Session<'a, R, W> {
    pub lines: Lines,
    pub input: &'a mut R,
    pub answers: Answers<'a, W>,
}

impl<'a, R: Read, W: Write> Session<'a, R, W> {
    pub fn new(input: &'a mut R, output: &'a mut W) -> Session<'a, R, W> {
        Session {
            lines: Lines::new(),
            input,
            answers: Answers::new(output),
        }
    }

    /// The next line, or how the input ended. Where an answer could not be written, nothing more is read.
    pub fn next_line(&mut self) -> Result<ArrayVec<u8, 320>, InputEnd> {
        if self.answers.have_failed() {
            return Err(InputEnd::Whole);
        }
        self.lines.next(self.input)
    }

    /// The call of these words, which are those of the latest line.
    pub fn call<'b>(&self, words: &'b [&'b str]) -> Call<'b> {
        Call {
            words,
            line: self.lines.number,
        }
    }
}

/// What follows a line of calls to a block.
#[derive(Clone, Copy)]
pub enum Next {
    /// The next line.
    Line,
    /// No call to the block: it ended by `end`, or else with the input.
    Over(Option<InputEnd>),
}

/// Answers a call that needs no block. Any other is answered with the calls that there are.
pub fn other_call<T: Wait, W: Write>(
    site: &Site<T>,
    desk: &mut Desk,
    call: Call,
    calls: &str,
    answers: &mut Answers<W>,
) -> Result<(), AllocError>
    requires { IsBoardOf site.now.place.routes.now desk.old.board }
    ensures { IfOk result (λ _. IsBoardOf site.now.place.routes.now desk.new.board) }
{
    if !common_call(site.rt, &site.place, desk, call, answers)? {
        write_meant(answers, call.line, calls);
    }
    Ok(())
}
