//! Tests of the replies of the program `check`, and of the lines of steps, worked from the rules.

#![tactic(auto)]

#[cfg(test)]
mod replies;
#[cfg(test)]
mod steps;
#[cfg(test)]
mod stops;
#[cfg(test)]
mod tools;
