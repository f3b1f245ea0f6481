// The kinds of steps.
ghost use Rattle.std.specs.Prelude.{◌≡◌, map};
ghost use Rattle.std.specs.List.{range_with_len};
ghost use Rattle.rows.specs.StepKinds.{step_code, step_name, on_two, has_k, StepCoded};

use crate::kind::{Kind, NoKind};

/// What a step does: a gate of a kind, or the exchange of two wires.
// Not an Option of a kind: an exchange is a kind of step, not the lack of one.
#[derive(Clone, Copy, Debug, PartialEq, Eq)]
pub enum StepKind {
    Gate(Kind),
    Exchange,
}

impl TryFrom<u8> for StepKind {
    type Error = NoKind;

    ghost try_from_gives = { StepCoded };

    /// The kind with this code, or the number if it is no kind's code.
    fn try_from(number: u8) -> Result<StepKind, NoKind> {
        if number == 12 {
            return Ok(StepKind::Exchange);
        }
        let kind = Kind::try_from(number)?;
        Ok(StepKind::Gate(kind))
    }
}

impl StepKind {
    /// All kinds, in the order of their codes.
    pub fn all() -> [StepKind; 12]
        ensures { map step_code result ≡ range_with_len 1 12 }
    {
        [
            StepKind::Gate(Kind::X),
            StepKind::Gate(Kind::Y),
            StepKind::Gate(Kind::Z),
            StepKind::Gate(Kind::H),
            StepKind::Gate(Kind::S),
            StepKind::Gate(Kind::Sdag),
            StepKind::Gate(Kind::T),
            StepKind::Gate(Kind::Tdag),
            StepKind::Gate(Kind::Cnot),
            StepKind::Gate(Kind::Cz),
            StepKind::Gate(Kind::Crk),
            StepKind::Exchange,
        ]
    }

    /// The code of the kind in step rows and chip records.
    pub fn code(self) -> u8
        ensures { result ≡ step_code self }
    {
        match self {
            StepKind::Gate(kind) => kind.code(),
            StepKind::Exchange => 12,
        }
    }

    /// The name of the kind in a step's line.
    pub fn name(self) -> &'static str
        ensures { result.now ≡ step_name (step_code self) }
    {
        match self {
            StepKind::Gate(kind) => kind.name(),
            StepKind::Exchange => "swap",
        }
    }

    /// Whether a step of this kind stands on two wires.
    pub fn is_double(self) -> bool
        ensures { result ≡ on_two (step_code self) }
    {
        match self {
            StepKind::Gate(kind) => kind.is_double(),
            StepKind::Exchange => true,
        }
    }

    /// Whether a step of this kind has a k.
    pub fn has_k(self) -> bool
        ensures { result ≡ has_k (step_code self) }
    {
        matches!(self, StepKind::Gate(Kind::Crk))
    }
}
