// What the book answers.
use rows::{Action, Wire};

/// What a step that is kept does to the plan: a gate of the circuit, by its number, or an exchange of two wires.
#[derive(Clone, Copy)]
pub enum Turn {
    Gate(usize),
    Exchange(Wire, Wire),
}

/// What keeping a step does: the step, its end, and its turn.
#[derive(Clone, Copy)]
pub struct Verdict {
    pub action: Action,
    pub end: u32,
    pub turn: Turn,
}

/// What is counted of a plan without open gates: its gates, kept steps, exchanges among them, and the last end.
#[derive(Clone, Copy)]
pub struct Counts {
    pub gates: u32,
    pub kept: u32,
    pub exchanges: u32,
    pub last: u32,
}
