//! What is sent of a register that is opened again.

use crate::refusals::Reissue;
use crate::tests::{FILE, Left, OWN, OWN_LEN, key, other_key};
use dv_asn1::{Der, Why};
use dv_outside_mem::MemStation;
use dv_register::{Open, SigningKey};
use sha2::{Digest, Sha256};
use std::alloc::{AllocError, Global};
use std::test::Fail;

/// Puts the certificate of a serial number again, where the calls of these numbers fail.
fn reissue_with(
    alloc: Global,
    key: &SigningKey,
    octets: &[u8],
    failing: Vec<u64>,
    serial: u64,
) -> Result<Left<Reissue>, AllocError> {
    let station = MemStation::new(alloc, octets.to_vec(alloc)?, failing, 1000, 100_000)?;
    let (answer, station) = super::reissue(alloc, station, key, serial);
    let file = station.file().to_vec(alloc)?;
    let sent = station.sent().to_vec(alloc)?;
    Ok(Left { answer, file, sent })
}

/// The same with the key of the register, where no call fails.
fn reissue(alloc: Global, octets: &[u8], serial: u64) -> Result<Left<Reissue>, AllocError> {
    let key = key(alloc)?;
    reissue_with(alloc, &key, octets, Vec::new(alloc), serial)
}

#[test]
fn puts_the_own_certificate_again(rt: HostRuntime) -> Result<(), Fail> {
    let left = reissue(rt.alloc(), &FILE, 1)?;
    assert_eq!(rt; left.answer, Ok(()));
    assert_eq!(rt; left.file.as_slice(), FILE.as_slice());
    assert_eq!(rt; left.sent.len(), OWN_LEN);
    assert_eq!(rt; Sha256::digest(left.sent.as_slice()), OWN);
    Ok(())
}

#[test]
fn no_record_of_the_serial_number(rt: HostRuntime) -> Result<(), Fail> {
    for serial in [0, 2, 33, u64::MAX] {
        let left = reissue(rt.alloc(), &FILE, serial)?;
        assert_eq!(rt; left.answer, Err(Reissue::Absent), "{serial}");
        assert_eq!(rt; left.sent.len(), 0);
    }
    Ok(())
}

#[test]
fn registers_that_are_not_opened(rt: HostRuntime) -> Result<(), Fail> {
    let alloc = rt.alloc();
    let none = reissue(alloc, &[], 1)?;
    let place = Open::NotRegister { place: 0 };
    assert_eq!(rt; none.answer, Err(Reissue::Open(place)));
    let key = other_key(alloc)?;
    let other = reissue_with(alloc, &key, &FILE, Vec::new(alloc), 1)?;
    assert_eq!(rt; other.answer, Err(Reissue::Open(Open::OtherKey)));
    Ok(())
}

#[test]
fn contents_that_do_not_decode(rt: HostRuntime) -> Result<(), Fail> {
    // The tag of the name, and its first octet.
    for (place, octet, refusal) in [
        (84, 0x13, Der::new(2, Why::Tag)),
        (86, 0xFF, Der::new(2, Why::Value)),
    ] {
        let mut octets = FILE;
        octets[place] = octet;
        let left = reissue(rt.alloc(), &octets, 1)?;
        assert_eq!(rt; left.answer, Err(Reissue::Record(refusal)));
        assert_eq!(rt; left.sent.len(), 0);
    }
    Ok(())
}

#[test]
fn each_fault(rt: HostRuntime) -> Result<(), Fail> {
    let alloc = rt.alloc();
    let key = key(alloc)?;
    // A sync, the length, the head, a gate, the record's head, its contents, the next gate; and the put.
    for call in 0..9 {
        let left = reissue_with(alloc, &key, &FILE, vec![in alloc; call]?, 1)?;
        let (wanted, sent) = match call {
            0..=6 => (Err(Reissue::Open(Open::Fault)), 0),
            7 => (Err(Reissue::Put), OWN_LEN / 2),
            _ => (Ok(()), OWN_LEN),
        };
        assert_eq!(rt; left.answer, wanted, "call {call}");
        assert_eq!(rt; left.sent.len(), sent, "call {call}");
    }
    Ok(())
}

/// The draft of the SHA-256 digest of abc at 2025-01-01T00:00:00Z, for possession of data (docs/formats.md).
const DRAFT: [u8; 73] = [
    0x30, 0x47, 0x30, 0x03, 0x0A, 0x01, 0x01, 0x30, 0x2F, 0x30, 0x0B, 0x06, 0x09, 0x60, 0x86, 0x48,
    0x01, 0x65, 0x03, 0x04, 0x02, 0x01, 0x04, 0x20, 0xBA, 0x78, 0x16, 0xBF, 0x8F, 0x01, 0xCF, 0xEA,
    0x41, 0x41, 0x40, 0xDE, 0x5D, 0xAE, 0x22, 0x23, 0xB0, 0x03, 0x61, 0xA3, 0x96, 0x17, 0x7A, 0x9C,
    0xB4, 0x10, 0xFF, 0x61, 0xF2, 0x00, 0x15, 0xAD, 0x18, 0x0F, 0x32, 0x30, 0x32, 0x35, 0x30, 0x31,
    0x30, 0x31, 0x30, 0x30, 0x30, 0x30, 0x30, 0x30, 0x5A,
];

/// The SHA-256 digest of the certificate of service of that draft, docs/examples/sealed.pem.
const SEALED: [u8; 32] = [
    0xCE, 0x0D, 0xBE, 0x56, 0xB7, 0xEA, 0x63, 0x79, 0x7A, 0x47, 0x47, 0x3B, 0xF7, 0xFF, 0x98, 0x05,
    0xF6, 0x51, 0x2D, 0x39, 0x21, 0x78, 0xAF, 0xED, 0x86, 0xD3, 0xF7, 0xB2, 0x98, 0x89, 0x9A, 0x4A,
];

/// The register with a second record, for that draft: 1,571 octets of a certificate, under a header of 4, and 73 of the draft.
fn with_service(alloc: Global, own: &[u8]) -> Result<Vec<u8>, AllocError> {
    let mut octets = FILE[..126].to_vec(alloc)?;
    octets.extend_from_slice(&[0xA5, 2, 0x00, 0x00, 0x06, 0x70, 0x30, 0x82, 0x06, 0x23])?;
    octets.extend_from_slice(own)?;
    octets.extend_from_slice(&DRAFT)?;
    octets.extend_from_slice(&[0])?;
    Ok(octets)
}

#[test]
fn puts_a_certificate_of_service_again(rt: HostRuntime) -> Result<(), Fail> {
    let alloc = rt.alloc();
    let own = reissue(alloc, &FILE, 1)?;
    let octets = with_service(alloc, &own.sent)?;
    let left = reissue(alloc, &octets, 2)?;
    assert_eq!(rt; left.answer, Ok(()));
    assert_eq!(rt; left.file.as_slice(), octets.as_slice());
    assert_eq!(rt; Sha256::digest(left.sent.as_slice()), SEALED);
    Ok(())
}
