// The shipped chip of a name.
ghost use Rattle.std.specs.Option.{MatchOption};
ghost use Rattle.shipped.specs.Shipping.{Ships, Unshipped};

use crate::tables::{GRID20, SQUARE, SURFACE17};
use chip::ChipRecords;

/// The chip of this name: `square`, `surface17` or `grid20`; none for any other name.
pub fn chip_named(name: &str) -> Option<ChipRecords<'static>>
    ensures { MatchOption result (Unshipped name.now) (λ s. Ships name.now s.wires s.bytes.now) }
{
    match name {
        "square" => Some(SQUARE),
        "surface17" => Some(SURFACE17),
        "grid20" => Some(GRID20),
        _ => None,
    }
}
