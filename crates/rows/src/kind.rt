// The kinds of gates.
ghost use Rattle.std.specs.Prelude.{◌≡◌, Some};
ghost use Rattle.rows.specs.Kinds.{code, double, name};
ghost use Rattle.rows.specs.Coding.{KindCoded, no_kind_text};

use std::error::Error;
use std::fmt;

/// The eleven kinds of gates, each with its code. The exchange of two wires, code 12 in a step row, is no gate.
#[derive(Clone, Copy, Debug, PartialEq, Eq)]
pub enum Kind {
    X = 1,
    Y = 2,
    Z = 3,
    H = 4,
    S = 5,
    Sdag = 6,
    T = 7,
    Tdag = 8,
    Cnot = 9,
    Cz = 10,
    Crk = 11,
}

/// A number that is no kind's code.
#[derive(Clone, Copy, Debug, PartialEq, Eq)]
pub struct NoKind(pub u8);

impl TryFrom<u8> for Kind {
    type Error = NoKind;

    ghost try_from_gives = { KindCoded };

    /// The kind with this code, or the number if it is no kind's code.
    fn try_from(number: u8) -> Result<Kind, NoKind> {
        match number {
            1 => Ok(Kind::X),
            2 => Ok(Kind::Y),
            3 => Ok(Kind::Z),
            4 => Ok(Kind::H),
            5 => Ok(Kind::S),
            6 => Ok(Kind::Sdag),
            7 => Ok(Kind::T),
            8 => Ok(Kind::Tdag),
            9 => Ok(Kind::Cnot),
            10 => Ok(Kind::Cz),
            11 => Ok(Kind::Crk),
            _ => Err(NoKind(number)),
        }
    }
}

impl fmt::Display for NoKind {
    ghost output = { λ e. Some (no_kind_text e) };

    fn fmt<W: fmt::Write>(&self, f: &mut fmt::Formatter<W>) -> fmt::Result {
        write!(f, "no kind has code {}", self.0)
    }
}

impl Error for NoKind {}

impl Kind {
    /// The code of the kind in rows and chip records.
    pub fn code(self) -> u8
        ensures { result ≡ code self }
    {
        self as u8
    }

    /// The name of the kind in a circuit's text.
    pub fn name(self) -> &'static str
        ensures { result.now ≡ name self }
    {
        match self {
            Kind::X => "x",
            Kind::Y => "y",
            Kind::Z => "z",
            Kind::H => "h",
            Kind::S => "s",
            Kind::Sdag => "sdag",
            Kind::T => "t",
            Kind::Tdag => "tdag",
            Kind::Cnot => "cnot",
            Kind::Cz => "cz",
            Kind::Crk => "crk",
        }
    }

    /// Whether a gate of this kind stands on two qubits.
    pub fn is_double(self) -> bool
        ensures { result ≡ double self }
    {
        matches!(self, Kind::Cnot | Kind::Cz | Kind::Crk)
    }
}

impl fmt::Display for Kind {
    ghost output = { λ κ. Some (name κ) };

    fn fmt<W: fmt::Write>(&self, f: &mut fmt::Formatter<W>) -> fmt::Result {
        f.write_str(self.name())
    }
}
