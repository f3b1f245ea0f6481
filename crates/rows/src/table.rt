// Tables: the numbers in order, and trading two entries.
ghost use Rattle.std.specs.Prelude.{◌≡◌, ◌<◌, ◌≤◌, ◌⊎◌, length};
ghost use Rattle.std.specs.List.{range_with_len, swap};

use std::array;

/// The numbers from 0 to 63, each at its own index.
pub fn counted() -> [u8; 64]
    ensures { result ≡ range_with_len 0 64 }
{
    array::from_fn(
        |entry| -> u8
            requires { entry < 64 }
            ensures { result ≡ entry }
        { entry as u8 },
    )
}

// One function for all tables, though `swap` would serve where the indices are tested: a rule of the project names it.
/// Trades the entries `i` and `j` of a lent table; where one is past the end, nothing changes.
pub fn trade<T>(table: &mut [T], i: usize, j: usize)
    ensures traded { i < length table.old → j < length table.old → table.new ≡ swap table.old i j }
    ensures untouched { (length table.old ≤ i) ⊎ (length table.old ≤ j) → table.new ≡ table.old }
{
    if i < table.len() && j < table.len() {
        table.swap(i, j);
    }
}
