// The reading of a whole text.
ghost use Rattle.std.specs.Prelude.{◌≡◌, ℕ, ◌+◌, ◌<◌, ◌≤◌, min, List, [], ◌∷◌, ◌++◌, map, length, take, drop, Err, MatchResult};
ghost use Rattle.rows.specs.declared.row.Gate.{Gate};
ghost use Rattle.text.specs.Reading.{statements_of, FirstRefused};
ghost use Rattle.text.specs.Lexing.{left};
ghost use Rattle.text.specs.Writing.{ReadAs};
ghost use Rattle.text.specs.Steps.{Headed, NotHeaded, Filled, Found};

use crate::circuit::Circuit;
use crate::lexer::Lexer;
use lines::{gate_of, qubits_of};
use rows::{Fault, Gate, Refusal};

// A circuit holds at most so many gates.
const MOST: usize = 1024;

// How many gates are taken where so many rows are lent.
fn room_for(lent: usize) -> usize
    ensures { result ≡ min 1024 lent }
{
    lent.min(MOST)
}

// The number of qubits, by the first statement.
fn read_heading(lexer: &mut Lexer) -> Result<u8, Fault>
    ensures { MatchResult result
        (λ n. Headed (left lexer.old) n (left lexer.new))
        (λ f. NotHeaded (left lexer.old) f) }
{
    let word = lexer.next().ok_or(Refusal::NoCircuit.at(0))?;
    qubits_of(word.bytes).ok_or(Refusal::NoCircuit.at(word.line))
}

// Writes the gates of the statements that are left into the front of a table, at most `room`, and answers how many.
fn read_gates(lexer: Lexer, qubits: u8, room: usize, table: &mut [Gate]) -> Result<usize, Fault>
    requires { room ≤ length table.old }
    ensures { MatchResult result
        (λ count. Filled qubits room (left lexer.entry) count table.old table.new)
        (λ f. FirstRefused qubits room (left lexer.entry) f) }
{
    // Counted by hand, not by enumerate: the number of gates is the answer.
    let mut count = 0;
    for word in lexer {
        table[count] = gate_of(word.bytes, word.line, qubits, room - count)?;
        count += 1;
    }
    Ok(count)
}

// Reads a circuit's text into the front of a table, for rows of which so many are lent.
fn read_circuit(text: &[u8], lent: usize, table: &mut [Gate]) -> Result<Circuit, Fault>
    requires { 1024 ≤ length table.old }
    ensures { MatchResult result
        (λ c. Found (min 1024 lent) (statements_of text.now) c table.new)
        (λ f. (old : List Gate) → length old ≡ lent → ReadAs text.now old old (Err f)) }
{
    let mut lexer = Lexer::new(text);
    let qubits = read_heading(&mut lexer)?;
    let gates = read_gates(lexer, qubits, room_for(lent), table)?;
    Ok(Circuit { qubits, gates })
}

// Hands the rows of the circuit of a text over from the table.
fn deliver(
    circuit: Circuit,
    text: &[u8],
    table: &[Gate],
    rows: &mut [Gate],
) -> Result<Circuit, Fault>
    requires found { Found (min 1024 (length rows.old)) (statements_of text.now) circuit table.now }
    requires tabled { 1024 ≤ length table.now }
    ensures { ReadAs text.now rows.old rows.new result }
{
    let count = circuit.gates;
    rows[..count].copy_from_slice(&table[..count]);
    Ok(circuit)
}

/// Reads a circuit's text: writes the row of each gate, from the front of `rows`, and answers the number of qubits and of gates.
/// A text that is refused leaves all rows as they were: all of it is read into a table first.
pub fn read(text: &[u8], rows: &mut [Gate]) -> Result<Circuit, Fault>
    ensures { ReadAs text.now rows.old rows.new result }
{
    // An array, and the count in the circuit, not a Vec: no call of this layer may allocate, as it is turned away only by the listed
    // refusals. Rows are lent for the same reason.
    let mut table = [Gate::default(); MOST];
    let circuit = read_circuit(text, rows.len(), &mut table)?;
    deliver(circuit, text, &table, rows)
}
