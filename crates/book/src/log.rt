// What changes in a book.
ghost use Rattle.std.specs.Prelude.{◌≡◌, ◌≤◌, length};

mod write;

use places::Places;

/// The present places, which gates are done, the cycle from which each wire is free, and what is counted.
// Arrays for all gates and wires, not Vecs: no call of this layer may allocate, as it is turned away only by the listed
// refusals.
#[derive(Clone, Copy)]
pub(crate) struct Log {
    pub(crate) places: Places,
    pub(crate) done: [bool; 1024],
    pub(crate) free: [u32; 64],
    pub(crate) kept: u32,
    pub(crate) exchanges: u32,
    pub(crate) last: u32,
    ghost flags: { length done ≡ 1024 },
    ghost cycles: { length free ≡ 64 },
    ghost room: { kept ≤ 262144 },
    ghost some: { exchanges ≤ kept },
}
