//! Tests of the machines and of layers over them, against values worked by hand from the rules.

#![tactic(auto)]

#[cfg(test)]
mod bits_tests;
#[cfg(test)]
mod cone_tests;
#[cfg(test)]
mod depth_tests;
#[cfg(test)]
mod layer_tests;
#[cfg(test)]
mod pauli_tests;
#[cfg(test)]
mod reading;
