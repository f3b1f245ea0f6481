//! Two laws of sheets, for every lawful machine: the kept steps do what the circuit does, and steps clear a plan if and only
//! if no lawful machine can tell them from the circuit. This crate has definitions and proofs alone.

#![tactic(auto)]
