//! Which step routing makes next, and what a whole routing makes of a plan. This crate has definitions and laws alone.

#![tactic(auto)]
