// How many gates a circuit may have.
use crate::tools::{MARK, check_marked, gate};
use rows::Gate;
use std::test::Fail;
use text::read;

// `qubits 1` and so many lines `x q0`.
fn many(rt: &HostRuntime, gates: usize) -> Result<Vec<u8>, Fail> {
    let mut text = Vec::new(rt.alloc());
    text.extend_from_slice(b"qubits 1\n")?;
    for _ in 0..gates {
        text.extend_from_slice(b"x q0\n")?;
    }
    Ok(text)
}

#[test]
fn the_last_gate_that_fits(rt: HostRuntime) -> Result<(), Fail> {
    let text = many(&rt, 1024)?;
    let mut rows = [MARK; 1026];
    match read(&text, &mut rows) {
        Err(_) => Err(Fail::new("1,024 gates are refused")),
        Ok(circuit) => {
            assert_eq!(rt; circuit.gates, 1024);
            for row in rows.iter().take(1024) {
                assert_eq!(rt; *row, gate(1, 0, 0, 0));
            }
            check_marked(&rt, &rows, 1024)
        }
    }
}

#[test]
fn one_gate_too_many(rt: HostRuntime) -> Result<(), Fail> {
    let text = many(&rt, 1025)?;
    let mut rows = [MARK; 1026];
    match read(&text, &mut rows) {
        Ok(_) => Err(Fail::new("1,025 gates are read")),
        Err(fault) => {
            assert_eq!(rt; fault.number(), 5);
            assert_eq!(rt; fault.place, 1026);
            check_marked(&rt, &rows, 0)
        }
    }
}

#[test]
fn rows_used_up(rt: HostRuntime) -> Result<(), Fail> {
    let mut rows = [MARK; 2];
    match read(b"qubits 1\nx q0\n# c\ny q0\nz q0\n", &mut rows) {
        Ok(_) => Err(Fail::new("three gates are read into two rows")),
        Err(fault) => {
            assert_eq!(rt; fault.number(), 5);
            assert_eq!(rt; fault.place, 5);
            check_marked(&rt, &rows, 0)
        }
    }
}

#[test]
fn a_smaller_number_on_the_line_without_a_row(rt: HostRuntime) -> Result<(), Fail> {
    let mut rows = [MARK; 1];
    match read(b"qubits 1\nx q0\ny q1\n", &mut rows) {
        Ok(_) => Err(Fail::new("two gates are read into one row")),
        Err(fault) => {
            assert_eq!(rt; fault.number(), 3);
            assert_eq!(rt; fault.place, 3);
            Ok(())
        }
    }
}

#[test]
fn no_rows_at_all(rt: HostRuntime) -> Result<(), Fail> {
    let mut rows = [MARK; 0];
    match read(b"qubits 7\n# no gates\n", &mut rows) {
        Ok(circuit) => assert_eq!(rt; circuit.qubits, 7),
        Err(_) => return Err(Fail::new("a circuit without gates is refused")),
    }
    match read(b"qubits 7\nx q0\n", &mut rows) {
        Ok(_) => Err(Fail::new("a gate is read into no row")),
        Err(fault) => {
            assert_eq!(rt; fault.number(), 5);
            assert_eq!(rt; fault.place, 2);
            Ok(())
        }
    }
}
