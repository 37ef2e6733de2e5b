//! What a crash in a reservation may leave.

use super::{add, create, open, record, station};
use dv_outside_mem::{MemStation, Pick};
use std::alloc::{AllocError, Global};
use std::test::Fail;

/// The station of a register that made one record, kind 2 and contents `abc`, its calls 3 to 8.
fn with_record(alloc: Global) -> Result<Option<MemStation>, AllocError> {
    let station = station(alloc, Vec::new(alloc), Vec::new(alloc))?;
    match create(alloc, station)? {
        Ok(register) => {
            let mut register = register;
            match add(&mut register, 2, b"abc")? {
                Ok(_) => Ok(Some(register.into_station())),
                Err(_) => Ok(None),
            }
        }
        Err(_) => Ok(None),
    }
}

/// What a crash during a call of that number may leave.
fn image(
    alloc: Global,
    station: &MemStation,
    call: u64,
    pick: Pick,
) -> Result<Vec<u8>, AllocError> {
    if call <= station.calls() {
        station.image(alloc, call, pick)
    } else {
        Ok(Vec::new(alloc))
    }
}

/// How many records stand in these octets, all of them that record; 99 where they are no register with such records.
fn records_in(alloc: Global, octets: Vec<u8>) -> Result<u32, AllocError> {
    let station = station(alloc, octets, Vec::new(alloc))?;
    match open(alloc, station)? {
        Ok(register) => {
            let mut register = register;
            match record(alloc, &mut register, 0) {
                Some(Ok((2, contents))) if contents.as_slice() == b"abc".as_slice() => Ok(
                    register.len(),
                ),
                None => Ok(0),
                _ => Ok(99),
            }
        }
        Err(_) => Ok(99),
    }
}

const PICKS: [Pick; 5] = [
    Pick::Old,
    Pick::New,
    Pick::Torn(0),
    Pick::Torn(0xA5),
    Pick::Torn(0x7F),
];

/// The number of a call, and how many records a crash in it leaves by each of those picks. Before the gate's write, call 7,
/// there is none; with it there is one where it left an open gate; and after its sync there is one.
const ROWS: [(u64, [u32; 5]); 7] = [
    (3, [0, 0, 0, 0, 0]),
    (4, [0, 0, 0, 0, 0]),
    (5, [0, 0, 0, 0, 0]),
    (6, [0, 0, 0, 0, 0]),
    (7, [0, 1, 0, 1, 0]),
    (8, [0, 1, 0, 1, 0]),
    (9, [1, 1, 1, 1, 1]),
];

#[test]
fn each_call_of_a_reservation(rt: HostRuntime) -> Result<(), Fail> {
    let alloc = rt.alloc();
    let station = with_record(alloc)?.expect(&rt, "it is made");
    for (call, counts) in ROWS {
        for (pick, wanted) in PICKS.iter().zip(counts) {
            let octets = image(alloc, &station, call, *pick)?;
            assert_eq!(rt; records_in(alloc, octets)?, wanted, "{pick:?} at {call}");
        }
    }
    Ok(())
}
