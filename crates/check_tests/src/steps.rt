// Lines of steps, written and read.
use rows::{Step, Wire};
use std::test::*;
use step_text::{WriteError, step_of, write_step};

#[test]
fn a_step_is_written_and_read(rt: HostRuntime) -> Result<(), Fail> {
    let step = Step {
        kind: 11,
        first: Wire(1),
        second: Wire(3),
        k: 4,
        start: 6,
    };
    let mut out = String::new(rt.alloc());
    write_step(&mut out, step)?;
    assert!(rt; out.as_str() == "6 crk 1,3,4\n");
    assert_eq!(rt; step_of(b"6 crk 1,3,4"), Some(step));
    Ok(())
}

#[test]
fn a_row_without_a_line(rt: HostRuntime) -> Result<(), Fail> {
    let step = Step {
        kind: 13,
        first: Wire(1),
        second: Wire(0),
        k: 0,
        start: 0,
    };
    let mut out = String::new(rt.alloc());
    assert_eq!(rt; write_step(&mut out, step), Err(WriteError::NoLine));
    assert_eq!(rt; out.len(), 0);
    Ok(())
}
