//! What making a register leaves in the file and sends.

use crate::refusals::Init;
use crate::tests::{FILE, Left, OWN, OWN_LEN, key, year};
use dv_outside_mem::MemStation;
use dv_register::Create;
use dv_x509::OwnParts;
use sha2::{Digest, Sha256};
use std::alloc::{AllocError, Global};
use std::test::Fail;

/// Makes a register in a file with these octets, where the calls of these numbers fail.
fn init(alloc: Global, octets: &[u8], failing: Vec<u64>) -> Result<Left<Init>, AllocError> {
    let key = key(alloc)?;
    let Some((from, until)) = year() else {
        return Err(AllocError);
    };
    let parts = OwnParts {
        name: b"notary",
        from,
        until,
    };
    let station = MemStation::new(alloc, octets.to_vec(alloc)?, failing, 1000, 100_000)?;
    let (answer, station) = super::init(alloc, station, &key, &parts, 1);
    let file = station.file().to_vec(alloc)?;
    let sent = station.sent().to_vec(alloc)?;
    Ok(Left { answer, file, sent })
}

#[test]
fn puts_the_own_certificate(rt: HostRuntime) -> Result<(), Fail> {
    let left = init(rt.alloc(), &[], Vec::new(rt.alloc()))?;
    assert_eq!(rt; left.answer, Ok(()));
    assert_eq!(rt; left.file.as_slice(), FILE.as_slice());
    assert_eq!(rt; left.sent.len(), OWN_LEN);
    assert_eq!(rt; Sha256::digest(left.sent.as_slice()), OWN);
    Ok(())
}

#[test]
fn only_an_empty_file_becomes_a_register(rt: HostRuntime) -> Result<(), Fail> {
    let rows: [&[u8]; 3] = [&FILE, &[0], b"a file"];
    for octets in rows {
        let left = init(rt.alloc(), octets, Vec::new(rt.alloc()))?;
        assert_eq!(rt; left.answer, Err(Init::Create(Create::NotEmpty)));
        assert_eq!(rt; left.file.as_slice(), octets);
        assert_eq!(rt; left.sent.len(), 0);
    }
    Ok(())
}

/// What is answered where the call of a number fails: the length, the head and its sync; two writes and a sync of the record, an
/// octet that opens the gate and a sync, each before the next; the put.
fn wanted(call: u64) -> Result<(), Init> {
    match call {
        0..=2 => Err(Init::Create(Create::Fault)),
        3..=8 => Err(Init::Fault),
        9 => Err(Init::Put),
        _ => Ok(()),
    }
}

#[test]
fn each_fault(rt: HostRuntime) -> Result<(), Fail> {
    for call in 0..11 {
        let left = init(rt.alloc(), &[], vec![in rt.alloc(); call]?)?;
        assert_eq!(rt; left.answer, wanted(call), "call {call}");
        // A put that fails sends the first half of its octets.
        let sent = match call {
            0..=8 => 0,
            9 => OWN_LEN / 2,
            _ => OWN_LEN,
        };
        assert_eq!(rt; left.sent.len(), sent, "call {call}");
    }
    Ok(())
}
