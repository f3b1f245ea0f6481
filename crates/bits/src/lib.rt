//! Bits: a classical bit a wire.

#![tactic(auto)]

ghost use Rattle.std.specs.Prelude.{◌≡◌, false, refl, ⊤};
ghost use Rattle.machine.specs.Local.{local};
ghost use Rattle.machine.specs.Machines.{HasTrueCnot};
ghost use Rattle.bits.specs.Flips.{bits_rule, bit_of, all_clear};

use cells::{Local, Table, Tabled, TrueLocal, Width};
use machine::{Double, Single};
use rows::{Kind, Wire};

/// The rule of bits: x flips its bit, and cnot adds the first to the second.
pub struct BitsRule;

/// A bit a wire.
pub type Bits = Table<BitsRule, bool>;

impl Local for BitsRule {
    type Cell = bool;

    ghost rule = { bits_rule };

    ghost made = { λ _. bit_of };

    ghost blank = { false };

    ghost zero = { λ _. refl };

    fn make(_width: u8, number: u64) -> bool {
        number % 2 == 1
    }

    fn shown(cell: bool) -> u64 {
        u64::from(cell)
    }

    fn known(kind: Kind) -> bool {
        matches!(kind, Kind::X | Kind::Cnot)
    }

    fn single(_kind: Kind, _k: u8, cell: bool) -> Single<bool> {
        Single {
            cell: !cell,
            flips: false,
        }
    }

    fn double(_kind: Kind, _k: u8, first: bool, second: bool) -> Double<bool> {
        Double {
            first,
            second: second != first,
            flips: false,
        }
    }
}

impl Tabled for BitsRule {
    ghost signed = { false };

    ghost fresh = { all_clear };

    ghost Promise = { HasTrueCnot (local bits_rule) };

    ghost FreshPromise = { λ _ _. ⊤ };

    ghost begun = { λ _. record { wide = refl; plus = refl; past = λ _ _. refl } };

    ghost plain = { λ _. record { single = λ _ _ _. refl; double = λ _ _ _ _. refl } };

    fn begin(_width: Width, _wire: Wire) -> bool {
        false
    }

    fn promise(_width: Width) {}
}

impl TrueLocal for BitsRule {
    fn cross() {}
}
