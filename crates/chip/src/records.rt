// Couplings and durations from the bytes of the records.
ghost use Rattle.std.specs.Prelude.{◌≡◌, ℕ, ◌+◌, ◌<◌, ◌≤◌, List, length, MatchOption, MatchResult};
ghost use Rattle.rows.specs.Refusals.{Turned};
ghost use Rattle.chip.specs.Charts.{records, record_number, GoodRecord, Even, ChipFits};
ghost use Rattle.chip.specs.Tables.{Read};
ghost use Rattle.chip.specs.Entries.{four_in, Gives, GivesNone};

use crate::couplings::Couplings;
use rows::{Fault, Refusal, StepKind, Wire};

/// A chip as it is written: the number of its wires, and the bytes of its records, four each.
#[derive(Clone, Copy)]
pub struct ChipRecords<'a> {
    pub wires: u8,
    pub bytes: &'a [u8],
}

/// A chip as it is written, with 1 to 64 wires, and bytes by four.
#[derive(Clone, Copy)]
pub(crate) struct EvenRecords<'a> {
    pub records: ChipRecords<'a>,
    ghost even: { Even records.wires records.bytes.now },
}

/// What a good record gives: a coupling of two wires, or the duration of a kind of steps.
#[derive(Clone, Copy)]
pub enum Entry {
    Coupling(Wire, Wire),
    Duration(StepKind, u16),
}

impl Entry {
    /// What a record gives on a chip of so many wires; none where it is neither form.
    fn of(wires: u8, quad: &[u8; 4]) -> Option<Entry>
        ensures { MatchOption result (GivesNone wires (four_in quad.now)) (λ e. Gives wires (four_in quad.now) e) }
    {
        match *quad {
            [1, a, b, 0] if a < wires && b < wires && a != b => {
                Some(Entry::Coupling(Wire(a), Wire(b)))
            }
            [2, code, low, high] => {
                let kind = StepKind::try_from(code).ok()?;
                let cycles = u16::from_le_bytes([low, high]);
                (1..=4095)
                    .contains(&cycles)
                    .then_some(Entry::Duration(kind, cycles))
            }
            _ => None,
        }
    }
}

/// The tables, as far as the records are read.
#[derive(Clone, Copy)]
pub(crate) struct Draft {
    pub couplings: Couplings,
    /// The cycles of a kind at its code, if a record gave them; no kind has code 0.
    pub durations: [Option<u16>; 13],
}

impl Draft {
    /// No record is read yet.
    fn blank() -> Draft
        ensures { (n : ℕ) → (bs : List ℕ) → Read n bs 0 result.couplings.rows result.durations }
    {
        let couplings = Couplings::none();
        Draft {
            couplings,
            durations: [None; 13],
        }
    }

    /// Reads one record more; none where it is bad.
    fn read(&mut self, wires: u8, quad: &[u8; 4]) -> Option<()>
        requires { wires ≤ 64 }
        ensures { (bs : List ℕ) (i : ℕ) → i < length (records bs) → record_number bs i ≡ four_in quad.now →
            Read wires bs i self.old.couplings.rows self.old.durations →
            MatchOption result (GoodRecord wires bs i → ⊥) (λ _. Read wires bs (i + 1) self.new.couplings.rows self.new.durations) }
    {
        match Entry::of(wires, quad)? {
            Entry::Coupling(a, b) => self.couplings.couple(a, b),
            Entry::Duration(kind, cycles) => {
                let index = usize::from(kind.code());
                if self.durations[index].is_some() {
                    return None;
                }
                self.durations[index] = Some(cycles);
            }
        }
        Some(())
    }
}

impl EvenRecords<'_> {
    /// Reads the records, up to the first bad one.
    pub(crate) fn read(self) -> Result<Draft, Fault>
        ensures { MatchResult result
            (λ d. Read self.entry.records.wires self.entry.records.bytes.now (length (records self.entry.records.bytes.now)) d.couplings.rows d.durations)
            (λ f. Turned (ChipFits self.entry.records.wires self.entry.records.bytes.now) f) }
    {
        let ChipRecords { wires, bytes } = self.records;
        let mut draft = Draft::blank();
        for (i, quad) in bytes.as_chunks::<4>().0.iter().enumerate() {
            draft.read(wires, quad).ok_or(Refusal::BadRecord.at(i))?;
        }
        Ok(draft)
    }
}
