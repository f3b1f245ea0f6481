// Inputs that are answered by lines.
use crate::tools::check_lines;
use shipped::chip_named;
use std::test::*;

#[test]
fn refused_texts(rt: HostRuntime) -> Result<(), Fail> {
    check_lines(&rt, "square", b"", "refused 1 0\n")?;
    check_lines(&rt, "square", b"steps\n0 t 2\n", "refused 1 0\n")?;
    check_lines(
        &rt,
        "square",
        b"qubits 4\nt q2\ncnot q1,q1\nsteps\nno step\n",
        "refused 4 3\n",
    )?;
    // not the line `steps`
    check_lines(&rt, "square", b"qubits 2\nsteps \n", "refused 2 2\n")
}

#[test]
fn refused_layouts(rt: HostRuntime) -> Result<(), Fail> {
    // there is no wire 4 for qubit 4
    check_lines(
        &rt,
        "square",
        b"qubits 5\nsteps\nno step\n",
        "refused 11 4\n",
    )
}

#[test]
fn answers(rt: HostRuntime) -> Result<(), Fail> {
    // without the line `steps` there are no steps
    check_lines(&rt, "square", b"qubits 2\nh q1\n", "open 0\n")?;
    check_lines(
        &rt,
        "square",
        b"qubits 2\nsteps",
        "gates 0 steps 0 exchanges 0 end 0\n",
    )?;
    // the last line lacks its byte 10
    check_lines(
        &rt,
        "grid20",
        b"qubits 2\nh q1\nsteps\n\n# a comment\n7 h 1",
        "kept\ngates 1 steps 1 exchanges 0 end 8\n",
    )
}

#[test]
fn names_of_chips(rt: HostRuntime) -> Result<(), Fail> {
    assert!(rt; chip_named("cube").is_none());
    assert!(rt; chip_named("").is_none());
    assert!(rt; chip_named("grid20").is_some());
    Ok(())
}
