// What is printed of a text.
use report::report;
use std::process::Abort;
use std::test::Fail;

fn check_report(rt: &(impl Abort + AllocGlobal), text: &[u8], expected: &str) -> Result<(), Fail> {
    let shown = report(rt.alloc(), text)?;
    assert!(rt; shown.as_str() == expected);
    Ok(())
}

#[test]
fn a_circuit_with_a_few_gates(rt: HostRuntime) -> Result<(), Fail> {
    check_report(
        &rt,
        b"qubits 3\nh q0\ncrk q0,q2,5\ncnot q2,q0\nh q2",
        "qubits 3\ngates 4\nx 0\ny 0\nz 0\nh 2\ns 0\nsdag 0\nt 0\ntdag 0\ncnot 1\ncz 0\ncrk 1\ntwo-qubit 2\ndepth 4\nq0 3 2\nq1 0 1\nq2 3 2\n",
    )
}

#[test]
fn refusals(rt: HostRuntime) -> Result<(), Fail> {
    check_report(&rt, b"", "refused 1 0\n")?;
    check_report(&rt, b"qubits 65\n", "refused 1 1\n")?;
    check_report(&rt, b"qubits 2\n\ncnot q1,q1\n", "refused 4 3\n")
}

#[test]
fn the_longest_text(rt: HostRuntime) -> Result<(), Fail> {
    let mut text = vec![in rt.alloc(); b'\n'; 65536]?;
    check_report(&rt, &text, "refused 1 0\n")?;
    text.push(b'\n')?;
    check_report(&rt, &text, "too long\n")
}
