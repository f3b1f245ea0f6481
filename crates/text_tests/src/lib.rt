//! Tests of the reading of circuit texts, worked from the rules of the format.

#![tactic(auto)]

#[cfg(test)]
mod accepted;
#[cfg(test)]
mod refused;
#[cfg(test)]
mod reports;
#[cfg(test)]
mod room;
#[cfg(test)]
mod tools;
