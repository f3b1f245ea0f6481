// Why a call is refused, and where.
ghost use Rattle.std.specs.Prelude.{◌≡◌, Some};
ghost use Rattle.rows.specs.Numbers.{number, layer_number, layer_of, rank};
ghost use Rattle.rows.specs.Printed.{refusal_text};

use std::fmt;

/// Why a call is refused: one case for each number.
#[derive(Clone, Copy, Debug, PartialEq, Eq)]
pub enum Refusal {
    NoCircuit = 1,
    Unreadable = 2,
    OffCircuit = 3,
    Twice = 4,
    NoRow = 5,
    LaidAlready = 6,
    RaggedChip = 7,
    BadRecord = 8,
    NoDuration = 9,
    Parted = 10,
    BadPlaces = 11,
    BadGate = 12,
    Narrow = 13,
    UnknownKind = 14,
    Unlaid = 15,
    BadStep = 16,
    Uncoupled = 17,
    Busy = 18,
    Late = 19,
    NotNext = 20,
    Full = 21,
    RowsOut = 22,
    Open = 23,
    NoQubit = 24,
}

/// What refuses.
#[derive(Clone, Copy, Debug, PartialEq, Eq)]
pub enum Layer {
    Text = 1,
    Chip = 2,
    Bench = 3,
    Route = 4,
}

impl Layer {
    /// The number by which the layer is known.
    pub fn number(self) -> u8
        ensures { result ≡ layer_number self }
    {
        self as u8
    }
}

impl Refusal {
    /// The number by which the refusal is known.
    pub fn number(self) -> u8
        ensures { result ≡ number self }
    {
        // Its discriminant: each refusal has a number of its own.
        self as u8
    }

    /// The layer that refuses.
    pub fn layer(self) -> Layer
        ensures { result ≡ layer_of self }
    {
        match self {
            Refusal::NoCircuit
            | Refusal::Unreadable
            | Refusal::OffCircuit
            | Refusal::Twice
            | Refusal::NoRow => Layer::Text,
            Refusal::RaggedChip | Refusal::BadRecord | Refusal::NoDuration | Refusal::Parted =>
                Layer::Chip,
            Refusal::RowsOut => Layer::Route,
            Refusal::LaidAlready
            | Refusal::BadPlaces
            | Refusal::BadGate
            | Refusal::Narrow
            | Refusal::UnknownKind
            | Refusal::Unlaid
            | Refusal::BadStep
            | Refusal::Uncoupled
            | Refusal::Busy
            | Refusal::Late
            | Refusal::NotNext
            | Refusal::Full
            | Refusal::Open
            | Refusal::NoQubit => Layer::Bench,
        }
    }

    /// The place of the refusal in the order of judgement: of all conditions that hold, the lowest rank is answered.
    pub fn rank(self) -> u8
        ensures { result ≡ rank self }
    {
        self.number()
    }

    /// The refusal at a place.
    pub fn at(self, place: usize) -> Fault
        ensures { result ≡ record { refusal = self; place = place } }
    {
        Fault {
            refusal: self,
            place,
        }
    }
}

/// A refusal and its place: a line, a record, a gate, a qubit, a kind or a count, by the refusal.
#[derive(Clone, Copy, Debug, PartialEq, Eq)]
pub struct Fault {
    pub refusal: Refusal,
    pub place: usize,
}

impl Fault {
    /// The number of the refusal.
    pub fn number(self) -> u8
        ensures { result ≡ number self.refusal }
    {
        self.refusal.number()
    }

    /// The layer of the refusal.
    pub fn layer(self) -> Layer
        ensures { result ≡ layer_of self.refusal }
    {
        self.refusal.layer()
    }
}

impl fmt::Display for Fault {
    ghost output = { λ f. Some (refusal_text f) };

    fn fmt<W: fmt::Write>(&self, f: &mut fmt::Formatter<W>) -> fmt::Result {
        write!(f, "refused {} {}", self.number(), self.place)
    }
}
