//! The program of a process graph over any reader and writers: its commands, the run of its agents, and its texts. What a
//! graph is written in is passed on.
#![tactic(auto)]

pub mod audited;
mod breaking;
mod charting;
pub mod commands;
mod faults;
mod misfitting;
mod naming;
pub mod numbering;
pub mod running;
pub mod runs;
mod words;

pub use commands::{Prepared, prepare, prepare_file};
pub use running::{GraphClosing, run_graph};
pub use runs::{BROKEN, refused, run_prepared};
pub use sdl_app_command::status::REFUSED;
pub use sdl_app_file_commands::streams::{Input, Output, shared_buffer};
pub use sdl_graph::{
    Agent, Answer, Graph, Inward, NoStep, OfferBuilder, Outward, SetLists, States, StepBuilder,
    answer_of, boolean_parameter, boolean_variable, in_place, integer_parameter, integer_variable,
    next_state, no_offer, no_step, offer_in, parameter, pid_parameter, pid_variable, variable,
};
pub use sdl_graph_binding::{AgentSets, Answering, Design, GraphFault, SetDesign, Stored, Use};
pub use sdl_signal::{ChannelId, GateId, Pid, SetId, SignalId, Sort, StateId, Value};
pub use sdl_transition_behaviour::{Dest, Frame, Kind, Offer, Run, Step, Via};
