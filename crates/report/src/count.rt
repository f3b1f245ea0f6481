// The gates of a circuit, and how many pass a test.
ghost use Rattle.std.specs.Prelude.{◌≡◌, Bool, List};
ghost use Rattle.rows.specs.Steps.{Gate, gate_at, gate_of};
ghost use Rattle.chains.specs.Chained.{Decodes};
ghost use Rattle.report.specs.Features.{marked, counted};

use rows::{Gate as GateRow, Operation};

// The rows of a circuit, and the number of its qubits. What clauses say of its gates is no invariant, since nothing tests it here: the
// report is made of rows that `read` wrote, and `read` says so.
#[derive(Clone, Copy)]
pub(crate) struct Listed<'a> {
    pub(crate) rows: &'a [GateRow],
    pub(crate) qubits: u8,
}

// Whether the row, in a circuit of so many qubits, writes a gate that passes the test.
fn is_marked<F: Fn(Operation) -> bool>(row: GateRow, qubits: u8, test: &F) -> bool
    requires { F.IsAlwaysCallable test.now }
    ensures { (p : Gate → Bool) → ((g : _) (b : Bool) → F.post test.now g b → b ≡ p (gate_at g)) → result ≡ marked p (gate_of qubits row) }
{
    row.decode(qubits).is_some_and(test)
}

impl Listed<'_> {
    // How many of its gates pass the test.
    pub(crate) fn count<F: Fn(Operation) -> bool>(&self, test: F) -> usize
        requires { F.IsAlwaysCallable test }
        ensures { (p : Gate → Bool) → ((g : _) (b : Bool) → F.post test g b → b ≡ p (gate_at g)) →
            (gs : List Gate) → Decodes self.now.qubits self.now.rows.now gs → result ≡ counted p gs }
    {
        self.rows
            .iter()
            .filter(|row| is_marked(**row, self.qubits, &test))
            .count()
    }
}
