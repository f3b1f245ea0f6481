#![tactic(auto)]

// Chips against values worked out from the rules by a program of another language.
#[cfg(test)]
mod tables;
#[cfg(test)]
mod tests;
