// The tests: each goes through a table, or through what a loop makes.
use crate::tables::{CASES, Case, MAPS, Map, TIMES};
use chip::{Chip, ChipRecords};
use rows::{Kind, Wire};
use std::alloc::{AllocError, Global};
use std::process::Abort;
use std::test::Fail;

/// The records `rest`, after those of `TIMES` if `timed`.
fn bytes_of(heap: Global, timed: bool, rest: &[u8]) -> Result<Vec<u8>, AllocError> {
    let mut bytes = Vec::new(heap);
    if timed {
        bytes.extend_from_slice(TIMES)?;
    }
    bytes.extend_from_slice(rest)?;
    Ok(bytes)
}

/// The number and the place of the refusal; none for a chip.
fn refusal(records: ChipRecords) -> Option<(u8, usize)> {
    let fault = Chip::new(records).err()?;
    Some((fault.number(), fault.place))
}

fn check_case(rt: &impl Abort, heap: Global, case: &Case) -> Result<(), Fail> {
    let bytes = bytes_of(heap, case.timed, case.records)?;
    let records = ChipRecords {
        wires: case.wires,
        bytes: &bytes,
    };
    assert_eq!(rt; refusal(records), case.refused);
    Ok(())
}

#[test]
fn cases(rt: HostRuntime) -> Result<(), Fail> {
    for case in CASES.iter() {
        check_case(&rt, rt.alloc(), case)?;
    }
    Ok(())
}

/// Durations of all kinds but one.
fn without(heap: Global, missing: u8) -> Result<Vec<u8>, AllocError> {
    let mut bytes = Vec::new(heap);
    for kind in 1..13 {
        if kind != missing {
            bytes.extend_from_slice(&[2, kind, 1, 0])?;
        }
    }
    Ok(bytes)
}

#[test]
fn each_kind_missing(rt: HostRuntime) -> Result<(), Fail> {
    for kind in 1..13 {
        let bytes = without(rt.alloc(), kind)?;
        let records = ChipRecords {
            wires: 1,
            bytes: &bytes,
        };
        assert_eq!(rt; refusal(records), Some((9, kind as usize)));
    }
    Ok(())
}

/// The records of a map: `TIMES`, and its couplings.
fn map_bytes(heap: Global, couplings: &[u8]) -> Result<Vec<u8>, AllocError> {
    let mut bytes = bytes_of(heap, true, b"")?;
    for [a, b] in couplings.as_chunks::<2>().0 {
        let a = a.wrapping_sub(b'A');
        let b = b.wrapping_sub(b'A');
        bytes.extend_from_slice(&[1, a, b, 0])?;
    }
    Ok(bytes)
}

/// The distance as the table writes it; `-` for none.
fn digit(distance: Option<u8>) -> u8 {
    distance.map_or(b'-', |d| d.wrapping_add(b'0'))
}

/// The wire as the table writes it.
fn letter(wire: Option<Wire>) -> u8 {
    wire.map_or(b'.', |w| w.0.wrapping_add(b'A'))
}

/// The distances from wire `a`, and its neighbours one nearer, as the tables write them.
fn write_row(
    distances: &mut Vec<u8>,
    nearer: &mut Vec<u8>,
    chip: &Chip,
    a: u8,
) -> Result<(), AllocError> {
    for b in 0..chip.wires() {
        distances.push(digit(chip.distance(Wire(a), Wire(b))))?;
        nearer.push(letter(chip.nearer(Wire(a), Wire(b))))?;
    }
    Ok(())
}

fn same_tables(rt: &impl Abort, heap: Global, chip: &Chip, map: &Map) -> Result<(), Fail> {
    let mut distances = Vec::new(heap);
    let mut nearer = Vec::new(heap);
    for a in 0..chip.wires() {
        write_row(&mut distances, &mut nearer, chip, a)?;
    }
    assert!(rt; distances.as_slice() == map.distances);
    assert!(rt; nearer.as_slice() == map.nearer);
    Ok(())
}

#[test]
fn maps(rt: HostRuntime) -> Result<(), Fail> {
    for map in MAPS.iter() {
        let bytes = map_bytes(rt.alloc(), map.couplings)?;
        let chip = Chip::new(ChipRecords {
            wires: map.wires,
            bytes: &bytes,
        })?;
        assert_eq!(rt; chip.wires(), map.wires);
        same_tables(&rt, rt.alloc(), &chip, map)?;
    }
    Ok(())
}

/// A line of 64 wires.
#[test]
fn long_line(rt: HostRuntime) -> Result<(), Fail> {
    let mut bytes = bytes_of(rt.alloc(), true, b"")?;
    for i in 0..63 {
        bytes.extend_from_slice(&[1, i, i + 1, 0])?;
    }
    let chip = Chip::new(ChipRecords {
        wires: 64,
        bytes: &bytes,
    })?;
    assert_eq!(rt; chip.distance(Wire(0), Wire(63)), Some(63));
    assert_eq!(rt; chip.distance(Wire(63), Wire(0)), Some(63));
    assert_eq!(rt; chip.distance(Wire(40), Wire(9)), Some(31));
    assert_eq!(rt; chip.nearer(Wire(63), Wire(5)), Some(Wire(62)));
    assert_eq!(rt; chip.nearer(Wire(0), Wire(63)), Some(Wire(1)));
    Ok(())
}

/// Durations are read low byte first, and 4095 is the most.
#[test]
fn low_byte_first(rt: HostRuntime) -> Result<(), Fail> {
    let mut bytes = without(rt.alloc(), 1)?;
    bytes.extend_from_slice(&[2, 1, 1, 2])?;
    let chip = Chip::new(ChipRecords {
        wires: 1,
        bytes: &bytes,
    })?;
    assert_eq!(rt; chip.duration(Kind::X), 513);
    assert_eq!(rt; chip.duration(Kind::Crk), 1);
    let mut most = without(rt.alloc(), 12)?;
    most.extend_from_slice(&[2, 12, 255, 15])?;
    assert_eq!(rt;
        Chip::new(ChipRecords {
            wires: 1,
            bytes: &most
        })?
        .exchange_duration(),
        4095
    );
    Ok(())
}

/// Wires that are not of the chip, and a wire with itself.
#[test]
fn other_wires(rt: HostRuntime) -> Result<(), Fail> {
    let bytes = map_bytes(rt.alloc(), b"ABACBDCD")?;
    let chip = Chip::new(ChipRecords {
        wires: 4,
        bytes: &bytes,
    })?;
    assert!(rt; chip.coupled(Wire(3), Wire(1)) && chip.coupled(Wire(1), Wire(3)));
    assert!(rt; !chip.coupled(Wire(0), Wire(3)) && !chip.coupled(Wire(2), Wire(2)));
    assert!(rt; !chip.coupled(Wire(0), Wire(4)) && !chip.coupled(Wire(255), Wire(255)));
    assert_eq!(rt; chip.distance(Wire(4), Wire(0)), None);
    assert_eq!(rt; chip.distance(Wire(9), Wire(9)), None);
    assert_eq!(rt; chip.nearer(Wire(0), Wire(4)), None);
    assert_eq!(rt; chip.nearer(Wire(2), Wire(2)), None);
    Ok(())
}
