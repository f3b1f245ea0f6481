// A step that is offered, and the answer.
use rows::{Fault, Step};

// None is both "kept" and "not offered yet": the answers are read after all steps were offered.
/// A step that is offered to a book, and why it was refused; none if it was kept, or is not offered yet.
#[derive(Clone, Copy)]
pub struct Trial {
    pub step: Step,
    pub answer: Option<Fault>,
}
