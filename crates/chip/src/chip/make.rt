// The chip that records give.
ghost use Rattle.std.specs.Prelude.{◌≡◌, ℕ, ◌<◌, ◌≤◌, Some, None, Err, length, MatchResult, slice_index, slice_index_or};
ghost use Rattle.chip.specs.Chips.{ChipAnswer, MadeChip};
ghost use Rattle.chip.specs.Tables.{AllGiven, FirstMissing};

use crate::chip::Chip;
use crate::reach::{Reach, distances};
use crate::records::{ChipRecords, EvenRecords};
use rows::{Fault, Refusal};

/// The cycles of each kind at its code, or the refusal at the lowest kind that has no duration.
fn all_given(durations: &[Option<u16>; 13]) -> Result<[u16; 13], Fault>
    requires { length durations.now ≡ 13 }
    ensures { MatchResult result
        (λ cycles. AllGiven durations.now cycles)
        (λ f. FirstMissing durations.now f) }
{
    // A loop over the kinds' codes, not over the entries: entry 0 is no kind's.
    let mut cycles = [0; 13];
    for kind in 1..13 {
        cycles[kind] = durations[kind].ok_or(Refusal::NoDuration.at(kind))?;
    }
    Ok(cycles)
}

impl<'a> ChipRecords<'a> {
    /// The records, with a number of wires that is 1 to 64 and bytes that are by four, or the refusal.
    fn even(self) -> Result<EvenRecords<'a>, Fault>
        ensures { MatchResult result
            (λ even. even.records ≡ self.entry)
            (λ f. MadeChip self.entry.wires self.entry.bytes.now (Err f)) }
    {
        if !(1..=64).contains(&self.wires) || self.bytes.len() % 4 != 0 {
            return Err(Refusal::RaggedChip.at(0));
        }
        Ok(EvenRecords { records: self })
    }
}

impl EvenRecords<'_> {
    /// The chip that the records give, or the first refusal.
    fn build(self) -> Result<Chip, Fault>
        ensures { ChipAnswer self.entry.records.wires self.entry.records.bytes.now result }
    {
        let draft = self.read()?;
        let durations = all_given(&draft.durations)?;
        let wires = self.records.wires as usize;
        if let Some(place) = Reach::from(&draft.couplings, 0).missing(wires) {
            return Err(Refusal::Parted.at(place));
        }
        let distances = distances(&draft.couplings, wires);
        Ok(Chip {
            wires: self.records.wires,
            couplings: draft.couplings,
            durations,
            distances,
        })
    }

    /// The same, with what holds of every answer.
    fn chip(self) -> Result<Chip, Fault>
        ensures { MadeChip self.entry.records.wires self.entry.records.bytes.now result }
    {
        self.build()
    }
}

impl Chip {
    /// The chip that the records give, or the refusal of lowest rank at its first place.
    pub fn new(records: ChipRecords) -> Result<Chip, Fault>
        ensures { MadeChip records.entry.wires records.entry.bytes.now result }
    {
        records.even()?.chip()
    }
}
