//! Pauli: a product of Pauli operators, one letter a wire, and its sign. A gate U takes the product P to U P U†.

#![tactic(auto)]

ghost use Rattle.std.specs.Prelude.{◌≡◌, true, false, refl, ⊤};
ghost use Rattle.std.proofs.lemmas.Bool.{true≢false};
ghost use Rattle.rows.specs.declared.kind.Kind.{Kind};
ghost use Rattle.pauli.specs.declared.Letter.{Letter};
ghost use Rattle.pauli.specs.Conjugation.{PauliPromise};
ghost use Rattle.pauli.specs.Letters.{pauli_rule, on_two, letter, letter_of, identity};

use cells::{Local, Signed, Table, Tabled, TrueLocal, Width};
use machine::{Double, Single};
use rows::{Kind, Wire};

/// A Pauli operator on one wire by its two bits: x alone is X, z alone is Z, both are Y, none is the identity.
#[derive(Clone, Copy)]
pub struct Letter {
    pub x: bool,
    pub z: bool,
}

/// The rule of Pauli products: a gate U takes the product P to U P U†.
pub struct PauliRule;

/// A letter a wire and the sign of their product; a fresh one has no letter, and plus.
/// The letter of a number is its two low bits, x and then z.
pub type Pauli = Table<PauliRule, Letter>;

impl Local for PauliRule {
    type Cell = Letter;

    ghost rule = { pauli_rule };

    ghost made = { λ _. letter_of };

    ghost blank = { letter false false };

    ghost zero = { λ _. refl };

    fn make(_width: u8, number: u64) -> Letter {
        Letter {
            x: number % 2 == 1,
            z: number / 2 % 2 == 1,
        }
    }

    fn shown(cell: Letter) -> u64 {
        u64::from(cell.x) + 2 * u64::from(cell.z)
    }

    fn known(kind: Kind) -> bool {
        !matches!(kind, Kind::T | Kind::Tdag | Kind::Crk)
    }

    fn single(kind: Kind, _k: u8, cell: Letter) -> Single<Letter> {
        let Letter { x, z } = cell;
        let (x, z, flips) = match kind {
            Kind::X => (x, z, z),
            Kind::Y => (x, z, x != z),
            Kind::Z => (x, z, x),
            Kind::H => (z, x, x && z),
            Kind::S => (x, z != x, x && z),
            Kind::Sdag => (x, z != x, x && !z),
            _ => (x, z, false),
        };
        Single {
            cell: Letter { x, z },
            flips,
        }
    }

    fn double(kind: Kind, _k: u8, first: Letter, second: Letter) -> Double<Letter> {
        match kind {
            Kind::Cnot => cnot(first, second),
            Kind::Cz => cz(first, second),
            _ => Double {
                first,
                second,
                flips: false,
            },
        }
    }
}

impl Tabled for PauliRule {
    ghost signed = { true };

    ghost fresh = { identity };

    ghost Promise = { PauliPromise };

    ghost FreshPromise = { λ _ _. ⊤ };

    ghost begun = { λ _. record { wide = refl; plus = refl; past = λ _ _. refl } };

    ghost plain = { λ e. absurd (true≢false e) };

    fn begin(_width: Width, _wire: Wire) -> Letter {
        Letter { x: false, z: false }
    }

    fn promise(_width: Width) {}
}

/// The control's x is added to the target's, and the target's z to the control's.
fn cnot(control: Letter, target: Letter) -> Double<Letter>
    ensures { result ≡ on_two Kind.Cnot control target }
{
    Double {
        first: Letter {
            x: control.x,
            z: control.z != target.z,
        },
        second: Letter {
            x: target.x != control.x,
            z: target.z,
        },
        flips: control.x && target.z && target.x == control.z,
    }
}

/// Each x is added to the other's z.
fn cz(first: Letter, second: Letter) -> Double<Letter>
    ensures { result ≡ on_two Kind.Cz first second }
{
    Double {
        first: Letter {
            x: first.x,
            z: first.z != second.x,
        },
        second: Letter {
            x: second.x,
            z: second.z != first.x,
        },
        flips: first.x && second.x && first.z != second.z,
    }
}

impl Signed for PauliRule {
    ghost is = { refl };
}

impl TrueLocal for PauliRule {
    fn cross() {}
}
