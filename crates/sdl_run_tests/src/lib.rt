//! Whole runs. On one thread: Ring, Echo and Relay where a schedule chooses, and a wheel of states. In threads: Relay where steps wait for
//! one another at a gate, and a chain of sixteen blocks. In both forms: Echo where a stream fails or is interrupted. What it leaves is
//! audited, whole and with a part changed. Also in both forms: runs of graphs as a designer's program makes them, with what it writes.
#![tactic(auto)]

#[cfg(test)]
mod audited;
#[cfg(test)]
mod chain;
#[cfg(test)]
mod changes;
#[cfg(test)]
mod choices;
#[cfg(test)]
mod counted;
#[cfg(test)]
mod echo;
#[cfg(test)]
mod echo_graph;
#[cfg(test)]
mod gates;
#[cfg(test)]
mod graphs;
#[cfg(test)]
mod held;
#[cfg(test)]
mod office;
#[cfg(test)]
mod one_item;
#[cfg(test)]
mod plan;
#[cfg(test)]
mod programs;
#[cfg(test)]
mod ring;
#[cfg(test)]
mod ring_left;
#[cfg(test)]
mod running;
#[cfg(test)]
mod runs;
#[cfg(test)]
mod saving;
#[cfg(test)]
mod scheduled;
#[cfg(test)]
mod streams;
#[cfg(test)]
mod texts;
#[cfg(test)]
mod threaded;
#[cfg(test)]
mod wheel;
#[cfg(test)]
mod wheel_runs;
#[cfg(test)]
mod wheels;
