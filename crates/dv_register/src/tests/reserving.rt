//! What a reservation writes, and when it is refused.

ghost use Rattle.std.specs.Prelude.{◌<◌};

use super::{Silent, add, create, file_of, key, station};
use crate::{Create, Register, Reserve};
use dv_outside::{Failed, Releases};
use dv_outside_mem::MemStation;
use std::alloc::{AllocError, Global};
use std::test::Fail;

/// An empty register, where it could be made, of whose calls those of these numbers fail.
fn made(alloc: Global, failing: Vec<u64>) -> Result<Option<Silent>, AllocError> {
    let station = station(alloc, Vec::new(alloc), failing)?;
    Ok(create(alloc, station)?.ok())
}

#[test]
fn the_octets_of_two_records(rt: HostRuntime) -> Result<(), Fail> {
    let alloc = rt.alloc();
    let mut register = made(alloc, Vec::new(alloc))?.expect(&rt, "it is made");
    assert_eq!(rt; add(&mut register, 2, b"abc")?, Ok(1));
    assert_eq!(rt; add(&mut register, 1, b"")?, Ok(2));
    let station = register.into_station();
    let behind = [
        0xA5, 2, 0, 0, 0, 3, 0x61, 0x62, 0x63, 0xA5, 1, 0, 0, 0, 0, 0,
    ];
    let wanted = file_of(alloc, &behind)?;
    assert_eq!(rt; station.file(), wanted.as_slice());
    assert_eq!(rt; station.calls(), 15);
    Ok(())
}

#[test]
fn a_full_register(rt: HostRuntime) -> Result<(), Fail> {
    let alloc = rt.alloc();
    let mut register = made(alloc, Vec::new(alloc))?.expect(&rt, "it is made");
    for number in 0u64..34 {
        let wanted = if number < 32 {
            Ok(number + 1)
        } else {
            Err(Reserve::Full)
        };
        assert_eq!(rt; add(&mut register, 2, b"x")?, wanted);
    }
    assert_eq!(rt; (register.len(), register.is_shut()), (32, false));
    Ok(())
}

/// Adds records until the one of this number, counted from 0, whose second sync fails, and one more.
fn fault_at(alloc: Global, number: u64) -> Result<[Option<Reserve>; 3], AllocError>
    requires { number < 32 }
{
    let mut answers = [None; 3];
    if let Some(register) = made(alloc, vec![in alloc; 3 + 6 * number + 5]?)? {
        let mut register = register;
        for _ in 0..number {
            answers[0] = add(&mut register, 2, b"x")?.err();
        }
        answers[1] = add(&mut register, 2, b"x")?.err();
        answers[2] = add(&mut register, 2, b"x")?.err();
    }
    Ok(answers)
}

#[test]
fn a_fault_shuts_the_register(rt: HostRuntime) -> Result<(), Fail> {
    for number in [0, 31] {
        let wanted = [None, Some(Reserve::Fault), Some(Reserve::Shut)];
        assert_eq!(rt; fault_at(rt.alloc(), number)?, wanted, "{number}");
    }
    Ok(())
}

#[test]
fn only_an_empty_file_becomes_a_register(rt: HostRuntime) -> Result<(), Fail> {
    let alloc = rt.alloc();
    let rows = [
        (1, 9, Create::NotEmpty),
        (0, 0, Create::Fault),
        (0, 1, Create::Fault),
        (0, 2, Create::Fault),
    ];
    for (len, failing, wanted) in rows {
        let station = station(alloc, vec![in alloc; 0; len]?, vec![in alloc; failing]?)?;
        assert_eq!(rt;
            create(alloc, station)?.err(),
            Some(wanted),
            "{len} {failing}"
        );
    }
    Ok(())
}

/// The front of a signature with the leaf of the first record.
fn signed(alloc: Global) -> Result<Option<Vec<u8>>, AllocError> {
    let key = key(alloc)?;
    let station = station(
        alloc,
        file_of(alloc, &[0xA5, 1, 0, 0, 0, 0, 0])?,
        Vec::new(alloc),
    )?;
    match Register::<MemStation, super::Nothing>::open(alloc, station, &key) {
        Ok(register) => {
            if register.len() == 0 {
                return Ok(None);
            }
            let leaf = register.slot(0).into_leaf();
            Ok(Some(key.sign(leaf, b"message").as_slice().to_vec(alloc)?))
        }
        Err((_station, _refusal)) => Ok(None),
    }
}

#[test]
fn the_leaf_of_a_record_signs(rt: HostRuntime) -> Result<(), Fail> {
    let signature = signed(rt.alloc())?.expect(&rt, "it opens");
    assert_eq!(rt; signature.len(), 1296);
    assert!(rt; signature.starts_with(&[0, 0, 0, 0, 0, 0, 0, 0]));
    Ok(())
}

/// A rule under which anything may be put.
struct Anything;

impl Releases for Anything {
    ghost allows = { λ key first list octets. Unit {0} };

    ghost grows = { λ key first list more octets any. any };
}

/// Sends two pieces, the second of which fails, and tells what was sent.
fn sent(alloc: Global) -> Result<Option<Vec<u8>>, AllocError> {
    let key = key(alloc)?;
    let station = station(alloc, Vec::new(alloc), vec![in alloc; 4]?)?;
    match Register::<MemStation, Anything>::create(alloc, station, &key, 1) {
        Ok(register) => {
            let mut register = register;
            let answers = (register.emit(b"abc"), register.emit(b"defg"));
            if answers != (Ok(()), Err(Failed)) || register.is_shut() {
                return Ok(None);
            }
            Ok(Some(register.into_station().sent().to_vec(alloc)?))
        }
        Err(_) => Ok(None),
    }
}

#[test]
fn what_is_allowed_is_sent(rt: HostRuntime) -> Result<(), Fail> {
    let sent = sent(rt.alloc())?.expect(&rt, "it is sent");
    assert_eq!(rt; sent.as_slice(), b"abcde".as_slice());
    Ok(())
}
