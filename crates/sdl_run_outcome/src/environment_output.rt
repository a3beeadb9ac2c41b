//! What became of the lines that the environment read.
use sdl_signal::{EnvLine, Item, Origin};

/// What became of a line that was read: each gives one output. (Own to this project, as is its numbering.)
#[derive(Debug, Drop)]
pub enum EnvOut {
    /// The signal went out along a route.
    Sent(Item),
    /// No route fits, and the signal was discarded at once.
    NoRoute(Origin, EnvLine),
}
