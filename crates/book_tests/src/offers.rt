// The scripts, played.
use crate::scripts::{SCRIPTS, Script};
use crate::tools::{check_offers, cleared, lay};
use book::Book;
use rows::{Logical, Wire};
use std::alloc::Global;
use std::process::Abort;
use std::test::Fail;

/// The first wires are still those of the layout.
fn check_first(rt: &impl Abort, n: usize, book: &Book, places: &[Wire]) {
    for (q, wire) in (0..=255).zip(places) {
        assert_eq!(rt; book.first_wire_of(Logical(q)), Some(*wire), "script {n}");
    }
    let past = Logical(u8::try_from(places.len()).unwrap_or(255));
    assert_eq!(rt; book.first_wire_of(past), None, "script {n}");
}

fn check_script(rt: &impl Abort, heap: Global, n: usize, script: &Script) -> Result<(), Fail> {
    let mut book = lay(heap, &script.layout)?;
    check_offers(rt, heap, &mut book, script.offers)?;
    check_first(rt, n, &book, script.layout.places);
    assert_eq!(rt; cleared(&book), script.end, "script {n}");
    Ok(())
}

#[test]
fn scripts(rt: HostRuntime) -> Result<(), Fail> {
    for (n, script) in SCRIPTS.iter().enumerate() {
        check_script(&rt, rt.alloc(), n, script)?;
    }
    Ok(())
}
