//! Cone: the wires that each wire's result can depend on.

#![tactic(auto)]

ghost use Rattle.std.specs.Prelude.{◌≡◌, ◌^◌, nat_lt, refl, false, ⊤};
ghost use Rattle.std.proofs.Math.Nat.{zero-mod};
ghost use Rattle.std.proofs.lemmas.Bool.{cond-false, le-ltb};
ghost use Rattle.cone.specs.Causal.{Causal};
ghost use Rattle.cone.specs.Sets.{cone_rule, set_of, own_wires};

use cells::{Local, Table, Tabled, Width};
use machine::{Double, Single};
use rows::{Kind, Wire};

/// The rule of cones: a gate on two wires gives both the union of their sets.
pub struct ConeRule;

/// A set of wires a wire, wire i as the bit 2^i. In a fresh one each wire has itself alone:
/// after any gates the set of a wire is then the wires from which a chain of gates leads there.
pub type Cone = Table<ConeRule, u64>;

impl Local for ConeRule {
    type Cell = u64;

    ghost rule = { cone_rule };

    ghost made = { set_of };

    ghost blank = { 0 };

    ghost zero = { λ n. zero-mod (2 ^ n) };

    fn make(width: u8, number: u64) -> u64 {
        if width < 64 {
            number % (1u64 << width)
        } else {
            number
        }
    }

    fn shown(cell: u64) -> u64 {
        cell
    }

    fn known(_kind: Kind) -> bool {
        true
    }

    fn single(_kind: Kind, _k: u8, cell: u64) -> Single<u64> {
        Single { cell, flips: false }
    }

    fn double(_kind: Kind, _k: u8, first: u64, second: u64) -> Double<u64> {
        Double {
            first: first | second,
            second: first | second,
            flips: false,
        }
    }
}

impl Tabled for ConeRule {
    ghost signed = { false };

    ghost fresh = { own_wires };

    ghost Promise = { ⊤ };

    ghost FreshPromise = { Causal };

    ghost begun = { λ n. record { wide = refl; plus = refl; past = λ w h. cond-false (nat_lt w n) (2 ^ w) 0 (le-ltb w n h) } };

    ghost plain = { λ _. record { single = λ _ _ _. refl; double = λ _ _ _ _. refl } };

    fn begin(width: Width, wire: Wire) -> u64 {
        if width.has(wire) { 1 << wire.0 } else { 0 }
    }

    fn promise(_width: Width) {}
}
