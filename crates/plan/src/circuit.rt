// A circuit, decoded from its rows.
ghost use Rattle.std.specs.Prelude.{◌≡◌, ◌≤◌, length};

mod make;
mod search;

use rows::Operation;

/// At most 1,024 gates, in their order.
// An array and a count, not a Vec: no call of this layer may allocate, as it is turned away only by the listed refusals.
// Not an ArrayVec either, since that is not Copy. Clauses say `gates_in`, and there is no model, as the gates do not give the entries past
// the count back.
#[derive(Clone, Copy)]
pub struct Circuit {
    gates: [Operation; 1024],
    count: usize,
    ghost few: { count ≤ 1024 },
    ghost long: { length gates ≡ 1024 },
}
