// What the tests share.
use check_text::{CheckError, reply};
use shipped::chip_named;
use std::process::Abort;
use std::test::Fail;

// The reply to an input on the chip of this name.
fn reply_on(
    rt: &impl AllocGlobal,
    chip: &str,
    input: &[u8],
) -> Result<Result<String, CheckError>, Fail> {
    let Some(chip) = chip_named(chip) else {
        return Err(Fail::new("no such chip"));
    };
    Ok(reply(rt.alloc(), chip, input))
}

// The reply on the chip of this name is these lines.
pub(crate) fn check_lines(
    rt: &(impl Abort + AllocGlobal),
    chip: &str,
    input: &[u8],
    expected: &str,
) -> Result<(), Fail> {
    let lines = reply_on(rt, chip, input)??;
    assert!(rt; lines.as_str() == expected);
    Ok(())
}

// The first unreadable line of an input, on the square chip, is this one.
pub(crate) fn check_stops(
    rt: &(impl Abort + AllocGlobal),
    input: &[u8],
    expected: usize,
) -> Result<(), Fail> {
    match reply_on(rt, "square", input)? {
        Err(CheckError::Unreadable(line)) => {
            assert_eq!(rt; line, expected);
            Ok(())
        },
        Err(CheckError::OutOfMemory) => Err(Fail::new("memory ran out")),
        Ok(_) => Err(Fail::new("no line is unreadable")),
    }
}
