//! What the environment's worker leaves.
ghost use Rattle.std.specs.Prelude.{◌≡◌, None};
ghost use Rattle.sdl_run_outcome.specs.EnvironmentWork.{OwnEnd, input_end};

use crate::environment::EnvWorker;
use sdl_block_hand::Hand;
use sdl_run_outcome::EnvOut;
use sdl_signal::{InputEnd, Item, OutputEnd};

/// What the environment's worker leaves.
#[derive(Drop)]
pub struct EnvParts {
    /// What became of the lines that were read, in order.
    pub put: Vec<EnvOut>,
    /// What was sent and could not be put.
    pub hand: Hand,
    /// What was received, in order.
    pub received: Vec<Item>,
    /// How the reading ended: where it did not, it stopped after so many lines.
    pub input: InputEnd,
    /// Whether all that was received could be written.
    pub output: OutputEnd,
}

impl EnvWorker {
    /// What the worker leaves. No memory is taken.
    pub fn into_parts(self) -> EnvParts
        ensures put { result.put.items ≡ self.put }
        ensures kept { result.hand.kept ≡ None }
        ensures outgoing { result.hand.outgoing.items ≡ self.outgoing }
        ensures received { result.received.items ≡ self.received }
        ensures input { result.input ≡ input_end self }
        ensures own { OwnEnd self.ended }
        ensures output { result.output ≡ self.output }
    {
        let input = match self.ended {
            Some(end) => end,
            None => InputEnd::Stopped(self.put.len() as u32),
        };
        EnvParts {
            put: self.put,
            hand: self.hand,
            received: self.received,
            input,
            output: self.output,
        }
    }
}
