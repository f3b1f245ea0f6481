//! Tests of the book: which layouts and steps are refused, by which number and at which place, what is kept, and what
//! the book shows. All expected values are worked out by hand from the rules.

#![tactic(auto)]

#[cfg(test)]
mod full;
#[cfg(test)]
mod layouts;
#[cfg(test)]
mod many;
#[cfg(test)]
mod offers;
#[cfg(test)]
mod scripts;
#[cfg(test)]
mod sheets;
#[cfg(test)]
mod tools;
#[cfg(test)]
mod views;
