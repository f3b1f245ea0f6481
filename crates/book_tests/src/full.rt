// As many steps as are kept.
use crate::sheets::Answer::{Clear, Exchange, Refused};
use crate::sheets::*;
use crate::tools::{check_offers, cleared, lay, step_of};
use book::Book;
use std::test::Fail;

/// The square without gates.
pub static NO_GATES: Layout = Layout {
    gates: &[],
    ..SQUARE
};

/// Offers when one step more fits.
pub static LAST: [(Row, Answer); 3] = [
    (Row(1572857, SWAP, 0, 1, 0), Refused(18, 262143)),
    (Row(0, X, 2, 0, 0), Refused(20, 262143)),
    (Row(1572858, SWAP, 1, 0, 0), Exchange(1, 0, 1572864)),
];

/// Offers when no step more fits: good steps, and then each other number that fits.
pub static FULL: [(Row, Answer); 9] = [
    (Row(1572864, SWAP, 0, 1, 0), Refused(21, 262144)),
    (Row(0, SWAP, 2, 3, 0), Refused(21, 262144)),
    (Row(0, T, 2, 0, 0), Refused(21, 262144)),
    (Row(0, 13, 0, 0, 0), Refused(16, 262144)),
    (Row(1572864, SWAP, 0, 3, 0), Refused(17, 262144)),
    (Row(1572863, SWAP, 0, 1, 0), Refused(18, 262144)),
    (Row(4294967290, SWAP, 2, 3, 0), Refused(19, 262144)),
    (Row(0, X, 2, 0, 0), Refused(20, 262144)),
    (Row(4294967289, SWAP, 2, 3, 0), Refused(21, 262144)),
];

/// Keeps 262,143 exchanges of the wires 0 and 1, one after the other.
fn exchange_often(book: &mut Book) -> Result<(), Fail> {
    for i in 0..262143u32 {
        let _ = book.keep(step_of(Row(6 * i, SWAP, 0, 1, 0)))?;
    }
    Ok(())
}

#[test]
fn no_step_more(rt: HostRuntime) -> Result<(), Fail> {
    let mut book = lay(rt.alloc(), &SQUARE)?;
    exchange_often(&mut book)?;
    check_offers(&rt, rt.alloc(), &mut book, &LAST)?;
    check_offers(&rt, rt.alloc(), &mut book, &FULL)?;
    assert_eq!(rt; cleared(&book), Refused(23, 0));
    Ok(())
}

#[test]
fn all_counted(rt: HostRuntime) -> Result<(), Fail> {
    let mut book = lay(rt.alloc(), &NO_GATES)?;
    exchange_often(&mut book)?;
    assert_eq!(rt; cleared(&book), Clear(0, 262143, 262143, 1572858));
    check_offers(&rt, rt.alloc(), &mut book, &LAST)?;
    assert_eq!(rt; cleared(&book), Clear(0, 262144, 262144, 1572864));
    Ok(())
}
