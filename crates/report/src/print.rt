// The lines of the report. Each clause says which bytes are added, in the library's words: a name for that would hide what is added.
ghost use Rattle.std.specs.Prelude.{◌≡◌, ℕ, ◌<◌, ◌≤◌, List, ◌++◌, length, IfOk, string_bytes, OnOk};
ghost use Rattle.std.specs.List.{flat_map};
ghost use Rattle.rows.specs.Steps.{Gate};
ghost use Rattle.chains.specs.Chained.{Decodes, Deep, Source, Counts};
ghost use Rattle.chains.specs.Sourced.{Sourced};
ghost use Rattle.report.specs.Report.{entry, kinds, kind_line, qubit_line, QubitLines, counts_report, Shows};

use crate::count::Listed;
use chains::{Sources, depth_of};
use rows::{Kind, Logical};
use std::alloc::{AllocError, Global};

// Adds a line of a word and a number.
fn add_entry(out: &mut String, word: &str, n: usize) -> Result<(), AllocError>
    ensures { OnOk result (string_bytes out.new ≡ string_bytes out.old ++ entry word.now n) }
{
    writeln!(out, "{word} {n}")
}

// All kinds, in the order of their codes. Listed here: `rows` lists the kinds of steps, of which one, the exchange, is no gate.
fn all_kinds() -> [Kind; 11]
    ensures { result ≡ kinds }
{
    [
        Kind::X,
        Kind::Y,
        Kind::Z,
        Kind::H,
        Kind::S,
        Kind::Sdag,
        Kind::T,
        Kind::Tdag,
        Kind::Cnot,
        Kind::Cz,
        Kind::Crk,
    ]
}

impl Listed<'_> {
    // Adds a line for each of these kinds: how many gates are of it.
    fn add_kinds(&self, out: &mut String, wanted: &[Kind]) -> Result<(), AllocError>
        ensures { OnOk result ((gs : List Gate) → Decodes self.now.qubits self.now.rows.now gs →
            string_bytes out.new ≡ string_bytes out.old ++ flat_map (kind_line gs) wanted.now) }
    {
        for kind in wanted {
            let n = self.count(|gate| gate.kind() == *kind);
            add_entry(out, kind.name(), n)?;
        }
        Ok(())
    }

    // Adds the line of a qubit.
    fn add_qubit(&self, out: &mut String, sources: &Sources, q: u8) -> Result<(), AllocError>
        ensures { OnOk result ((gs : List Gate) → Decodes self.now.qubits self.now.rows.now gs → Sourced sources.now self.now.qubits gs →
            self.now.qubits ≤ 64 → q < self.now.qubits →
            (m : ℕ) × Counts (Source self.now.qubits gs q) self.now.qubits m × (string_bytes out.new ≡ string_bytes out.old ++ qubit_line gs q m)) }
    {
        let gates = self.count(|gate| gate.takes(Logical(q)));
        let from = sources.count(self.qubits, Logical(q));
        writeln!(out, "q{q} {gates} {from}")
    }

    // Adds a line for each qubit: how many gates it takes, and how many qubits its result can depend on.
    fn add_qubits(&self, out: &mut String, sources: &Sources) -> Result<(), AllocError>
        ensures { OnOk result ((gs : List Gate) → Decodes self.now.qubits self.now.rows.now gs → Sourced sources.now self.now.qubits gs →
            self.now.qubits ≤ 64 →
            (lines : List ℕ) × QubitLines self.now.qubits gs self.now.qubits lines × (string_bytes out.new ≡ string_bytes out.old ++ lines)) }
    {
        // A loop over the qubits, not a chain: each line is written with `?`.
        for q in 0..self.qubits {
            self.add_qubit(out, sources, q)?;
        }
        Ok(())
    }

    // Adds the counts of the circuit and its depth.
    fn add_counts(&self, out: &mut String) -> Result<(), AllocError>
        ensures { OnOk result ((gs : List Gate) → Decodes self.now.qubits self.now.rows.now gs → 1 ≤ self.now.qubits → self.now.qubits ≤ 64 → length gs ≤ 4294967295 →
            (d : ℕ) × Deep self.now.qubits gs d × (string_bytes out.new ≡ string_bytes out.old ++ counts_report self.now.qubits gs d)) }
    {
        add_entry(out, "qubits", self.qubits as usize)?;
        add_entry(out, "gates", self.rows.len())?;
        self.add_kinds(out, &all_kinds())?;
        let on_two = self.count(|gate| gate.kind().is_double());
        add_entry(out, "two-qubit", on_two)?;
        let deep = depth_of(self.rows, self.qubits);
        add_entry(out, "depth", deep as usize)?;
        Ok(())
    }

    // The report on the circuit.
    pub(crate) fn show(&self, heap: Global) -> Result<String, AllocError>
        ensures { IfOk result (λ s. (gs : List Gate) → Decodes self.now.qubits self.now.rows.now gs → 1 ≤ self.now.qubits → self.now.qubits ≤ 64 → length gs ≤ 4294967295 →
            Shows self.now.qubits gs (string_bytes s)) }
    {
        let mut out = String::new(heap);
        self.add_counts(&mut out)?;
        let sources = Sources::of(self.rows, self.qubits);
        self.add_qubits(&mut out, &sources)?;
        Ok(out)
    }
}
