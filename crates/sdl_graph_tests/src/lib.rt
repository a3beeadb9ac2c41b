//! Tests of behaviours and their binding, and of offers, steps and frames as a designer writes them. Tests of graphs: binding by names,
//! and the breaches of broken answers.
#![tactic(auto)]

#[cfg(test)]
mod agents;
#[cfg(test)]
mod answers;
pub mod anything;
#[cfg(test)]
mod binding;
#[cfg(test)]
mod breaking;
#[cfg(test)]
mod conformity;
#[cfg(test)]
mod designs;
#[cfg(test)]
mod drafts;
#[cfg(test)]
mod filling;
#[cfg(test)]
mod full;
#[cfg(test)]
mod graphs;
#[cfg(test)]
mod holding;
#[cfg(test)]
mod light;
#[cfg(test)]
mod outcomes;
#[cfg(test)]
mod pair;
#[cfg(test)]
mod reading;
#[cfg(test)]
mod sample;
#[cfg(test)]
mod storing;
