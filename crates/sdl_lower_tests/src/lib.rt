//! Tests of the layers below a run: where lines are read and written, how texts are cut into tokens, what a packed log shows, the
//! lines on standard error, a queue whose ends are in threads, a pile of saved signals, and how workers in threads come to rest.
#![tactic(auto)]

#[cfg(test)]
mod cuts;
#[cfg(test)]
mod errors;
#[cfg(test)]
mod fakes;
#[cfg(test)]
mod jobs;
#[cfg(test)]
mod names;
#[cfg(test)]
mod notes;
#[cfg(test)]
mod packed;
#[cfg(test)]
mod piles;
#[cfg(test)]
mod queue;
#[cfg(test)]
mod resting;
#[cfg(test)]
mod same;
#[cfg(test)]
mod sinks;
#[cfg(test)]
mod sources;
#[cfg(test)]
mod words;
