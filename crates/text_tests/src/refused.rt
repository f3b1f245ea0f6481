// Texts that are refused.
use crate::tools::check_refused;
use std::process::Abort;
use std::test::Fail;

// Each text with the number and the place of its refusal.
fn check_refusals(rt: &impl Abort, table: &[(&[u8], u8, usize)]) -> Result<(), Fail> {
    for (text, number, place) in table {
        check_refused(rt, text, *number, *place)?;
    }
    Ok(())
}

#[test]
fn without_a_number_of_qubits(rt: HostRuntime) -> Result<(), Fail> {
    check_refusals(
        &rt,
        &[
            (b"", 1, 0),
            (b"\n\n\n", 1, 0),
            (b"# only\n# comments", 1, 0),
            (b"h q0\n", 1, 1),
            (b"# first\n\nh q0\nqubits 2\n", 1, 3),
            (b"qubits 0\n", 1, 1),
            (b"qubits 65\n", 1, 1),
            (b"qubits 064\n", 1, 1),
            (b"qubits 10000\n", 1, 1),
            (b"qubits\n", 1, 1),
            (b"qubits \n", 1, 1),
            (b"qubits  4\n", 1, 1),
            (b"qubits 4 \n", 1, 1),
            (b"Qubits 4\n", 1, 1),
            (b" qubits 4\n", 1, 1),
            (b"qubits 4\r\n", 1, 1),
            (b"qubits -4\n", 1, 1),
            (b"\n# a\nqubits four\n", 1, 3),
        ],
    )
}

#[test]
fn unreadable_names_and_forms(rt: HostRuntime) -> Result<(), Fail> {
    check_refusals(
        &rt,
        &[
            (b"qubits 4\nqubits 4\n", 2, 2),
            (b"qubits 4\nswap q0,q1\n", 2, 2),
            (b"qubits 4\nH q0\n", 2, 2),
            (b"qubits 4\nhh q0\n", 2, 2),
            (b"qubits 4\nh\n", 2, 2),
            (b"qubits 4\nh q\n", 2, 2),
            (b"qubits 4\nh 0\n", 2, 2),
            (b"qubits 4\nh q0,q1\n", 2, 2),
            (b"qubits 4\ncnot q0\n", 2, 2),
            (b"qubits 4\ncnot q0 q1\n", 2, 2),
            (b"qubits 4\ncnot q0,1\n", 2, 2),
            (b"qubits 4\ncnot q0,q1,3\n", 2, 2),
            (b"qubits 4\ncz q0,q1,\n", 2, 2),
            (b"qubits 4\nx q0\n\n# c\nnot q1\n", 2, 5),
            (b"qubits 4\nx q0\ny q1 \nz q2\n", 2, 3),
            (b"qubits 4\nx  q0", 2, 2),
            (b"qubits 4\n x q0", 2, 2),
            (b"qubits 4\nx\tq0", 2, 2),
            (b"qubits 4\nx q0\r\n", 2, 2),
            (b"qubits 4\nx q0 # comment\n", 2, 2),
        ],
    )
}

#[test]
fn unreadable_bytes_and_numbers(rt: HostRuntime) -> Result<(), Fail> {
    check_refusals(
        &rt,
        &[
            (b"qubits 4\n\x00\n", 2, 2),
            (b"qubits 4\nx q0\x00\n", 2, 2),
            (b"qubits 4\n\xff\xfe\n", 2, 2),
            (b"qubits 4\nx q\xb9\n", 2, 2),
            (b"qubits 4\nx q00\n", 2, 2),
            (b"qubits 4\nx q01\n", 2, 2),
            (b"qubits 4\nx q10000\n", 2, 2),
            (b"qubits 4\ncnot q00000,q1\n", 2, 2),
            (b"qubits 4\ncrk q0,q1\n", 2, 2),
            (b"qubits 4\ncrk q0,q1,\n", 2, 2),
            (b"qubits 4\ncrk q0,q1,0\n", 2, 2),
            (b"qubits 4\ncrk q0,q1,32\n", 2, 2),
            (b"qubits 4\ncrk q0,q1,01\n", 2, 2),
            (b"qubits 4\ncrk q0,q1,1,1\n", 2, 2),
            (b"qubits 4\ncrk q0,1\n", 2, 2),
        ],
    )
}

#[test]
fn off_the_circuit_or_twice(rt: HostRuntime) -> Result<(), Fail> {
    check_refusals(
        &rt,
        &[
            (b"qubits 2\nh q2\n", 3, 2),
            (b"qubits 64\nh q64\n", 3, 2),
            (b"qubits 2\nh q9999\n", 3, 2),
            (b"qubits 2\ncnot q0,q2\n", 3, 2),
            (b"qubits 2\ncnot q2,q0\n", 3, 2),
            (b"qubits 2\ncnot q2,q2\n", 3, 2),
            (b"qubits 2\ncnot q1,q1\n", 4, 2),
            (b"qubits 2\ncz q0,q0\n", 4, 2),
            (b"qubits 2\ncrk q1,q1,4\n", 4, 2),
            (b"qubits 2\ncrk q1,q1,0\n", 2, 2),
            (b"qubits 2\ncrk q2,q2,32\n", 2, 2),
            (b"qubits 2\nh q0\nh q1\nh q2\nh qq\n", 3, 4),
            (b"qubits 2\nh q0\nh q1\nh qq\nh q2\n", 2, 4),
        ],
    )
}
