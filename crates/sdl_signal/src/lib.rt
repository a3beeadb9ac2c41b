//! Values and signals of an SDL system, the environment's lines, and where they are read and written.
#![tactic(auto)]

pub mod ends;
pub mod environment;
pub mod ids;
pub mod laws;
pub mod lists;
pub mod naming;
pub mod reading;
pub mod values;
pub mod writing;

pub use ends::{InputEnd, OutputEnd};
pub use environment::{EnvRead, EnvReader};
pub use ids::{BlockId, ChannelId, GateId, RouteId, SetId, SignalId, StateId};
pub use naming::{Name, Names, name};
pub use reading::{LineFault, read_line};
pub use sdl_signal_lines::{LineRead, LineSink, LineSource, Written, write_line};
pub use values::{EnvLine, Item, Origin, Pid, Signal, Sort, Value};
pub use writing::line_of;
