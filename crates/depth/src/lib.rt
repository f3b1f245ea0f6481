//! Depth: how many gates stand one after the other on the way to each wire.

#![tactic(auto)]

ghost use Rattle.std.specs.Prelude.{◌≡◌, refl, false, ⊤};
ghost use Rattle.depth.specs.Counts.{depth_rule, count_of, zeros};
ghost use Rattle.depth.specs.Longest.{CountsChains};

use cells::{Local, Table, Tabled, Width};
use machine::{Double, Single};
use rows::{Kind, Wire};

/// The rule of depths: a gate counts one more than the larger count of its wires.
pub struct DepthRule;

/// A count a wire, 0 on each wire of a fresh one: a wire then reads the length of the longest chain of gates that ends there.
pub type Depth = Table<DepthRule, u32>;

impl Local for DepthRule {
    type Cell = u32;

    ghost rule = { depth_rule };

    ghost made = { λ _. count_of };

    ghost blank = { 0 };

    ghost zero = { λ _. refl };

    fn make(_width: u8, number: u64) -> u32 {
        (number % 0x1_0000_0000) as u32
    }

    fn shown(cell: u32) -> u64 {
        u64::from(cell)
    }

    fn known(_kind: Kind) -> bool {
        true
    }

    fn single(_kind: Kind, _k: u8, cell: u32) -> Single<u32> {
        Single {
            cell: cell.saturating_add(1),
            flips: false,
        }
    }

    fn double(_kind: Kind, _k: u8, first: u32, second: u32) -> Double<u32> {
        let deeper = first.max(second).saturating_add(1);
        Double {
            first: deeper,
            second: deeper,
            flips: false,
        }
    }
}

impl Tabled for DepthRule {
    ghost signed = { false };

    ghost fresh = { zeros };

    ghost Promise = { ⊤ };

    ghost FreshPromise = { CountsChains };

    ghost begun = { λ _. record { wide = refl; plus = refl; past = λ _ _. refl } };

    ghost plain = { λ _. record { single = λ _ _ _. refl; double = λ _ _ _ _. refl } };

    fn begin(_width: Width, _wire: Wire) -> u32 {
        0
    }

    fn promise(_width: Width) {}
}
