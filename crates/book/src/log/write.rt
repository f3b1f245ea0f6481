// What a kept step writes into the log.
ghost use Rattle.std.specs.Prelude.{◌≡◌, ℕ, ◌+◌, ◌<◌, ◌≤◌, max, true, false, length, replicate, slice_index, slice_set};
ghost use Rattle.places.specs.Placing.{places_of, SameSize};
ghost use Rattle.sheet.specs.Sheets.{places_traded};

use crate::log::Log;
use places::Places;
use rows::Wire;

impl Log {
    /// Nothing is done or kept yet.
    pub(crate) fn fresh(places: Places) -> Log
        ensures places { result.places ≡ places }
        ensures tables { (result.done ≡ replicate 1024 false) × (result.free ≡ replicate 64 0) }
        ensures counts { (result.kept ≡ 0) × (result.exchanges ≡ 0) × (result.last ≡ 0) }
    {
        Log {
            places,
            done: [false; 1024],
            free: [0; 64],
            kept: 0,
            exchanges: 0,
            last: 0,
        }
    }

    /// The larger free cycle of two wires.
    pub(crate) fn free_from(&self, a: Wire, b: Wire) -> u32
        requires wires { (a.0 < 64) × (b.0 < 64) }
        ensures { result ≡ max (slice_index self.now.free a.0) (slice_index self.now.free b.0) }
    {
        self.free[a.0 as usize].max(self.free[b.0 as usize])
    }

    /// The two wires are free from this end, and one step more is kept.
    pub(crate) fn lock(&mut self, a: Wire, b: Wire, end: u32)
        requires wires { (a.0 < 64) × (b.0 < 64) }
        requires room { self.old.kept < 262144 }
        ensures free { self.new.free ≡ slice_set (slice_set self.old.free a.0 end) b.0 end }
        ensures counts { (self.new.kept ≡ self.old.kept + 1) × (self.new.last ≡ max self.old.last end) }
        ensures rest { (self.new.places ≡ self.old.places) × (self.new.done ≡ self.old.done) × (self.new.exchanges ≡ self.old.exchanges) }
    {
        self.free[a.0 as usize] = end;
        self.free[b.0 as usize] = end;
        self.kept += 1;
        self.last = self.last.max(end);
    }

    /// Gate i is done.
    pub(crate) fn mark(&mut self, i: usize)
        requires gate { i < 1024 }
        ensures done { self.new.done ≡ slice_set self.old.done i true }
        ensures rest { (self.new.places ≡ self.old.places) × (self.new.free ≡ self.old.free) }
        ensures counts { (self.new.kept ≡ self.old.kept) × (self.new.exchanges ≡ self.old.exchanges) × (self.new.last ≡ self.old.last) }
    {
        self.done[i] = true;
    }

    /// Two wires trade their qubits, and one exchange more is kept.
    pub(crate) fn trade(&mut self, a: Wire, b: Wire)
        requires wires { (a.0 < self.old.places.wires) × (b.0 < self.old.places.wires) }
        requires room { self.old.exchanges < self.old.kept }
        ensures places { places_of self.new.places ≡ places_traded a.0 b.0 (places_of self.old.places) }
        ensures size { SameSize self.old.places self.new.places }
        ensures rest { (self.new.done ≡ self.old.done) × (self.new.free ≡ self.old.free) }
        ensures counts { (self.new.kept ≡ self.old.kept) × (self.new.exchanges ≡ self.old.exchanges + 1) × (self.new.last ≡ self.old.last) }
    {
        self.places.exchange(a, b);
        self.exchanges += 1;
    }
}
