//! Which files are opened, and where the others break the layout.

use super::{file_of, open, station};
use crate::Open;
use std::alloc::{AllocError, Global};
use std::test::Fail;

/// Opens a register with these octets, and tells how many records it has.
fn opened(alloc: Global, octets: Vec<u8>) -> Result<Result<u32, Open>, AllocError> {
    let station = station(alloc, octets, Vec::new(alloc))?;
    match open(alloc, station)? {
        Ok(register) => Ok(Ok(register.len())),
        Err(refusal) => Ok(Err(refusal)),
    }
}

/// What stands behind a head, and how many records it is, or the place at which it is none.
#[rattlefmt::skip]
const ROWS: [(&[u8], Result<u32, Open>); 10] = [
    (&[], Err(Open::NotRegister { place: 0 })),
    (&[0x00], Ok(0)),
    (&[0x7F], Ok(0)),
    (&[0xA5], Err(Open::NotRegister { place: 76 })),
    (&[0xA5, 0x02, 0x00], Err(Open::NotRegister { place: 76 })),
    (&[0xA5, 0x03], Err(Open::NotRegister { place: 77 })),
    (&[0xA5, 0x02, 0x00, 0x10, 0x00, 0x01, 0x00], Err(Open::NotRegister { place: 78 })),
    (&[0xA5, 0x02, 0x00, 0x00, 0x00, 0x03, 0x61, 0x62, 0x63], Err(Open::NotRegister { place: 76 })),
    (&[0xA5, 0x02, 0x00, 0x00, 0x00, 0x03, 0x61, 0x62, 0x63, 0x00, 0x99], Ok(1)),
    (&[0xA5, 0x02, 0x00, 0x00, 0x00, 0x03, 0x61, 0x62, 0x63, 0xA5], Err(Open::NotRegister { place: 85 })),
];

#[test]
fn by_what_stands_behind_the_head(rt: HostRuntime) -> Result<(), Fail> {
    let alloc = rt.alloc();
    for (behind, wanted) in ROWS {
        let octets = file_of(alloc, behind)?;
        assert_eq!(rt; opened(alloc, octets)?, wanted, "{behind:?}");
    }
    Ok(())
}

/// A place in the head of an empty register, an octet that is put there, and what is opened then.
const HEADS: [(usize, u8, Result<u32, Open>); 5] = [
    (7, b'2', Err(Open::NotRegister { place: 0 })),
    (8, 1, Err(Open::OtherKey)),
    (75, 0, Err(Open::NotRegister { place: 68 })),
    (68, 0x40, Err(Open::NotRegister { place: 68 })),
    (75, 9, Ok(0)),
];

#[test]
fn by_its_head(rt: HostRuntime) -> Result<(), Fail> {
    let alloc = rt.alloc();
    for (place, octet, wanted) in HEADS {
        let mut octets = file_of(alloc, &[0])?;
        if place < octets.len() {
            octets[place] = octet;
        }
        assert_eq!(rt; opened(alloc, octets)?, wanted, "{place}");
    }
    Ok(())
}

/// The octets of a register with so many records without contents, and one octet for the last gate.
fn records(alloc: Global, count: u32) -> Result<Vec<u8>, AllocError> {
    let mut behind = Vec::new(alloc);
    for _ in 0..count {
        behind.extend_from_slice(&[0xA5, 1, 0, 0, 0, 0])?;
    }
    behind.push(0).map_err(|_| AllocError)?;
    file_of(alloc, &behind)
}

#[test]
fn one_record_too_many(rt: HostRuntime) -> Result<(), Fail> {
    let alloc = rt.alloc();
    for (count, wanted) in [(32, Ok(32)), (33, Err(Open::NotRegister { place: 268 }))] {
        let octets = records(alloc, count)?;
        assert_eq!(rt; opened(alloc, octets)?, wanted, "{count}");
    }
    Ok(())
}

/// The file of a register after it was opened, where it could be.
fn file_after(alloc: Global, behind: &[u8]) -> Result<Option<Vec<u8>>, AllocError> {
    let station = station(alloc, file_of(alloc, behind)?, Vec::new(alloc))?;
    match open(alloc, station)? {
        Ok(register) => {
            let station = register.into_station();
            Ok(Some(station.file().to_vec(alloc)?))
        }
        Err(_) => Ok(None),
    }
}

#[test]
fn an_unclear_gate_is_closed(rt: HostRuntime) -> Result<(), Fail> {
    let alloc = rt.alloc();
    let file = file_after(alloc, &[0x7F, 0x55])?.expect(&rt, "it opens");
    let wanted = file_of(alloc, &[0x00, 0x55])?;
    assert_eq!(rt; file.as_slice(), wanted.as_slice());
    Ok(())
}

#[test]
fn each_fault(rt: HostRuntime) -> Result<(), Fail> {
    let alloc = rt.alloc();
    for call in 0..7 {
        let octets = file_of(alloc, &[0x7F])?;
        let station = station(alloc, octets, vec![in alloc; call]?)?;
        let refusal = open(alloc, station)?.err();
        let wanted = if call < 6 { Some(Open::Fault) } else { None };
        assert_eq!(rt; refusal, wanted, "call {call}");
    }
    Ok(())
}
