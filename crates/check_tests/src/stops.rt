// Inputs with an unreadable step line.
use crate::tools::check_stops;
use std::test::*;

#[test]
fn unreadable_lines(rt: HostRuntime) -> Result<(), Fail> {
    check_stops(&rt, b"qubits 4\nsteps\n0 t 2\n\n# a comment\n0  t 2\n", 6)?;
    check_stops(&rt, b"# a comment\nqubits 4\nsteps\nx 0\n0 y\n", 4)?;
    // the second line `steps` is no step
    check_stops(&rt, b"qubits 4\nsteps\nsteps\n", 3)?;
    check_stops(&rt, b"qubits 4\nsteps\n0 t 02", 3)
}
