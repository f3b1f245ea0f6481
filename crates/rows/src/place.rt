// Where a gate stands: at qubits of a circuit, or at wires of a chip. No call takes one for the other.
ghost use Rattle.std.specs.Prelude.{◌≡◌, ℕ};

/// A place of a gate, by its number.
pub trait Place: Copy {
    // the number of a place
    ghost number: { Self → ℕ };

    /// The number of the place.
    fn number(self) -> u8
        ensures { result ≡ number self };
}

/// A qubit of the circuit, by its logical number.
#[derive(Clone, Copy, Debug, Default, PartialEq, Eq)]
pub struct Logical(pub u8);

impl Place for Logical {
    ghost number = { λ qubit. qubit.0 };

    fn number(self) -> u8 {
        let Logical(number) = self;
        number
    }
}

// Two wires stay two parameters, as in the calls of machines and chips, which a rule of the project names.
/// A wire of the chip.
#[derive(Clone, Copy, Debug, Default, PartialEq, Eq)]
pub struct Wire(pub u8);

impl Place for Wire {
    ghost number = { λ wire. wire.0 };

    fn number(self) -> u8 {
        let Wire(number) = self;
        number
    }
}
