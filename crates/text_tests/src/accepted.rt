// Texts that are read.
use crate::tools::{check_read, gate};
use std::test::Fail;

#[test]
fn every_kind(rt: HostRuntime) -> Result<(), Fail> {
    check_read(
        &rt,
        b"qubits 3\nx q0\ny q1\nz q2\nh q0\ns q1\nsdag q2\nt q0\ntdag q1\ncnot q2,q0\ncz q0,q1\ncrk q1,q2,4\n",
        3,
        &[
            gate(1, 0, 0, 0),
            gate(2, 1, 0, 0),
            gate(3, 2, 0, 0),
            gate(4, 0, 0, 0),
            gate(5, 1, 0, 0),
            gate(6, 2, 0, 0),
            gate(7, 0, 0, 0),
            gate(8, 1, 0, 0),
            gate(9, 2, 0, 0),
            gate(10, 0, 1, 0),
            gate(11, 1, 2, 4),
        ],
    )
}

#[test]
fn comments_and_empty_lines(rt: HostRuntime) -> Result<(), Fail> {
    check_read(
        &rt,
        b"\n# a circuit\n\nqubits 2\n#\n# \xff\x00 any bytes\nh q1\n\n\ncnot q1,q0\n# end",
        2,
        &[gate(4, 1, 0, 0), gate(9, 1, 0, 0)],
    )
}

#[test]
fn edges(rt: HostRuntime) -> Result<(), Fail> {
    check_read(&rt, b"qubits 64", 64, &[])?;
    check_read(&rt, b"qubits 64\n", 64, &[])?;
    check_read(&rt, b"qubits 1\nh q0", 1, &[gate(4, 0, 0, 0)])?;
    check_read(&rt, b"qubits 64\nh q63\n", 64, &[gate(4, 63, 0, 0)])?;
    check_read(&rt, b"qubits 2\ncrk q0,q1,1\n", 2, &[gate(11, 0, 1, 1)])?;
    check_read(&rt, b"qubits 2\ncrk q1,q0,31", 2, &[gate(11, 1, 0, 31)])
}
