//! Files whose octets were written by hand from their layouts, around the second tree of the standard's second test case
//! (RFC 8554 appendix F) and the own certificate of docs/examples.

use crate::{CertificateFile, SeedFile, is_key_of, read_certificates, read_seed};
use dv_lms::{Height, Key};
use dv_register::SigningKey;
use std::alloc::{AllocError, Global};
use std::test::Fail;

/// The seed file of the tree.
const SEED_FILE: [u8; 60] = [
    0x44, 0x56, 0x53, 0x45, 0x45, 0x44, 0x30, 0x31, 0x00, 0x00, 0x00, 0x05, 0x21, 0x5F, 0x83, 0xB7,
    0xCC, 0xB9, 0xAC, 0xBC, 0xD0, 0x8D, 0xB9, 0x7B, 0x0D, 0x04, 0xDC, 0x2B, 0xA1, 0xC4, 0x69, 0x6E,
    0x26, 0x08, 0x03, 0x5A, 0x88, 0x61, 0x00, 0xD0, 0x5C, 0xD9, 0x99, 0x45, 0xEB, 0x33, 0x70, 0x73,
    0x18, 0x84, 0xA8, 0x23, 0x5E, 0x2F, 0xB3, 0xD4, 0xD7, 0x1F, 0x25, 0x47,
];

/// The tree's public key, as the standard prints it.
const PUBLIC: [u8; 60] = [
    0x00, 0x00, 0x00, 0x01, 0x00, 0x00, 0x00, 0x05, 0x00, 0x00, 0x00, 0x04, 0x21, 0x5F, 0x83, 0xB7,
    0xCC, 0xB9, 0xAC, 0xBC, 0xD0, 0x8D, 0xB9, 0x7B, 0x0D, 0x04, 0xDC, 0x2B, 0xA1, 0xCD, 0x03, 0x58,
    0x33, 0xE0, 0xE9, 0x00, 0x59, 0x60, 0x3F, 0x26, 0xE0, 0x7A, 0xD2, 0xAA, 0xD1, 0x52, 0x33, 0x8E,
    0x7A, 0x5E, 0x59, 0x84, 0xBC, 0xD5, 0xF7, 0xBB, 0x4E, 0xBA, 0x40, 0xB7,
];

/// The octets of docs/examples/own.pem up to those of its signature.
const OWN_START: [u8; 275] = [
    0x30, 0x82, 0x06, 0x1F, 0x30, 0x81, 0xF8, 0xA0, 0x03, 0x02, 0x01, 0x02, 0x02, 0x01, 0x01, 0x30,
    0x0D, 0x06, 0x0B, 0x2A, 0x86, 0x48, 0x86, 0xF7, 0x0D, 0x01, 0x09, 0x10, 0x03, 0x11, 0x30, 0x11,
    0x31, 0x0F, 0x30, 0x0D, 0x06, 0x03, 0x55, 0x04, 0x03, 0x0C, 0x06, 0x6E, 0x6F, 0x74, 0x61, 0x72,
    0x79, 0x30, 0x1E, 0x17, 0x0D, 0x32, 0x35, 0x30, 0x31, 0x30, 0x31, 0x30, 0x30, 0x30, 0x30, 0x30,
    0x30, 0x5A, 0x17, 0x0D, 0x32, 0x36, 0x30, 0x31, 0x30, 0x31, 0x30, 0x30, 0x30, 0x30, 0x30, 0x30,
    0x5A, 0x30, 0x11, 0x31, 0x0F, 0x30, 0x0D, 0x06, 0x03, 0x55, 0x04, 0x03, 0x0C, 0x06, 0x6E, 0x6F,
    0x74, 0x61, 0x72, 0x79, 0x30, 0x4E, 0x30, 0x0D, 0x06, 0x0B, 0x2A, 0x86, 0x48, 0x86, 0xF7, 0x0D,
    0x01, 0x09, 0x10, 0x03, 0x11, 0x03, 0x3D, 0x00, 0x00, 0x00, 0x00, 0x01, 0x00, 0x00, 0x00, 0x05,
    0x00, 0x00, 0x00, 0x04, 0x21, 0x5F, 0x83, 0xB7, 0xCC, 0xB9, 0xAC, 0xBC, 0xD0, 0x8D, 0xB9, 0x7B,
    0x0D, 0x04, 0xDC, 0x2B, 0xA1, 0xCD, 0x03, 0x58, 0x33, 0xE0, 0xE9, 0x00, 0x59, 0x60, 0x3F, 0x26,
    0xE0, 0x7A, 0xD2, 0xAA, 0xD1, 0x52, 0x33, 0x8E, 0x7A, 0x5E, 0x59, 0x84, 0xBC, 0xD5, 0xF7, 0xBB,
    0x4E, 0xBA, 0x40, 0xB7, 0xA3, 0x49, 0x30, 0x47, 0x30, 0x0E, 0x06, 0x03, 0x55, 0x1D, 0x0F, 0x01,
    0x01, 0xFF, 0x04, 0x04, 0x03, 0x02, 0x06, 0xC0, 0x30, 0x16, 0x06, 0x03, 0x55, 0x1D, 0x25, 0x01,
    0x01, 0xFF, 0x04, 0x0C, 0x30, 0x0A, 0x06, 0x08, 0x2B, 0x06, 0x01, 0x05, 0x05, 0x07, 0x03, 0x0A,
    0x30, 0x1D, 0x06, 0x03, 0x55, 0x1D, 0x0E, 0x04, 0x16, 0x04, 0x14, 0x89, 0x50, 0x27, 0xCE, 0x29,
    0xFD, 0xFA, 0x73, 0xFA, 0x45, 0xAF, 0x10, 0xD3, 0x2A, 0x20, 0x88, 0xCA, 0x59, 0x30, 0x87, 0x30,
    0x0D, 0x06, 0x0B, 0x2A, 0x86, 0x48, 0x86, 0xF7, 0x0D, 0x01, 0x09, 0x10, 0x03, 0x11, 0x03, 0x82,
    0x05, 0x11, 0x00,
];

/// How many octets the certificate has.
const OWN_LEN: usize = 1571;

/// The place of the version in a second certificate.
const SECOND_VERSION: usize = 1582;

/// Why the octets are no seed file.
fn seed_fault(alloc: Global, octets: &[u8]) -> Option<SeedFile> {
    match read_seed(alloc, octets) {
        Ok(_) => None,
        Err(fault) => Some(fault),
    }
}

/// The same, of the seed file with one octet changed.
fn seed_fault_with(alloc: Global, place: usize, octet: u8) -> Option<SeedFile> {
    let mut octets = SEED_FILE;
    if place < octets.len() {
        octets[place] = octet;
    }
    seed_fault(alloc, &octets)
}

/// A refusal of a seed file at this place.
fn seed_refused(place: u64) -> Option<SeedFile> {
    Some(SeedFile::Refused { place })
}

/// The certificate, with zeros for the octets of its signature, into which no decoding looks.
fn own(alloc: Global) -> Result<Vec<u8>, AllocError> {
    let mut octets = Vec::from_array(alloc, OWN_START)?;
    octets.resize(OWN_LEN, 0)?;
    Ok(octets)
}

/// The certificate so many times, one after another.
fn owns(alloc: Global, count: usize) -> Result<Vec<u8>, AllocError> {
    let own = own(alloc)?;
    let mut octets = Vec::new(alloc);
    for _ in 0..count {
        octets.extend_from_slice(&own)?;
    }
    Ok(octets)
}

/// The certificate twice, with another version number in the second one.
fn two_with_version(alloc: Global, version: u8) -> Result<Vec<u8>, AllocError> {
    let mut octets = owns(alloc, 2)?;
    if let Some(changed) = octets.get_mut(SECOND_VERSION) {
        *changed = version;
    }
    Ok(octets)
}

/// How many certificates the octets are, or why they are no certificate file.
fn count(alloc: Global, octets: &[u8]) -> Result<usize, CertificateFile> {
    match read_certificates(alloc, octets) {
        Ok(certificates) => Ok(certificates.len()),
        Err(fault) => Err(fault),
    }
}

/// A refusal of a certificate file at this place.
fn refused(place: u64) -> Result<usize, CertificateFile> {
    Err(CertificateFile::Refused { place })
}

#[test]
fn seed_file(rt: HostRuntime) -> Result<(), Fail> {
    match read_seed(rt.alloc(), &SEED_FILE) {
        Err(_) => assert!(rt; false),
        Ok(key) => assert_eq!(rt; key.public(), PUBLIC),
    }
    Ok(())
}

#[test]
fn seed_files_of_another_length(rt: HostRuntime) -> Result<(), Fail> {
    let mut longer = Vec::from_array(rt.alloc(), SEED_FILE)?;
    longer.push(0)?;
    assert_eq!(rt; seed_fault(rt.alloc(), &longer), seed_refused(60));
    assert_eq!(rt; seed_fault(rt.alloc(), &SEED_FILE[..59]), seed_refused(59));
    assert_eq!(rt; seed_fault(rt.alloc(), &SEED_FILE[..5]), seed_refused(5));
    assert_eq!(rt; seed_fault(rt.alloc(), &[]), seed_refused(0));
    Ok(())
}

#[test]
fn seed_files_with_another_start(rt: HostRuntime) -> Result<(), Fail> {
    assert_eq!(rt; seed_fault_with(rt.alloc(), 0, b'd'), seed_refused(0));
    assert_eq!(rt; seed_fault_with(rt.alloc(), 7, b'2'), seed_refused(7));
    assert_eq!(rt; seed_fault_with(rt.alloc(), 8, 1), seed_refused(8));
    assert_eq!(rt; seed_fault_with(rt.alloc(), 11, 6), seed_refused(11));
    assert_eq!(rt; seed_fault_with(rt.alloc(), 11, 0), seed_refused(11));
    assert_eq!(rt; seed_fault_with(rt.alloc(), 12, 0), None);
    Ok(())
}

#[test]
fn one_to_six_certificates(rt: HostRuntime) -> Result<(), Fail> {
    assert_eq!(rt; count(rt.alloc(), &owns(rt.alloc(), 1)?), Ok(1));
    assert_eq!(rt; count(rt.alloc(), &owns(rt.alloc(), 6)?), Ok(6));
    assert_eq!(rt; count(rt.alloc(), &owns(rt.alloc(), 7)?), refused(9426));
    assert_eq!(rt; count(rt.alloc(), &[]), refused(0));
    Ok(())
}

#[test]
fn certificates_with_octets_behind_or_missing(rt: HostRuntime) -> Result<(), Fail> {
    let mut longer = own(rt.alloc())?;
    longer.push(0x30)?;
    assert_eq!(rt; count(rt.alloc(), &longer), refused(1571));
    let mut shorter = own(rt.alloc())?;
    shorter.truncate(1570);
    assert_eq!(rt; count(rt.alloc(), &shorter), refused(0));
    Ok(())
}

#[test]
fn second_certificate_with_another_version(rt: HostRuntime) -> Result<(), Fail> {
    // version 4 is none that is known, and version 1 is the default
    assert_eq!(rt;
        count(rt.alloc(), &two_with_version(rt.alloc(), 3)?),
        refused(1571)
    );
    assert_eq!(rt;
        count(rt.alloc(), &two_with_version(rt.alloc(), 0)?),
        refused(1580)
    );
    assert_eq!(rt; count(rt.alloc(), &two_with_version(rt.alloc(), 1)?), Ok(2));
    Ok(())
}

#[test]
fn keys_of_certificates(rt: HostRuntime) -> Result<(), Fail> {
    let own = own(rt.alloc())?;
    match read_seed(rt.alloc(), &SEED_FILE) {
        Err(_) => assert!(rt; false),
        Ok(key) => {
            assert!(rt; is_key_of(&own, &key));
            assert!(rt; !is_key_of(&OWN_START, &key));
        }
    }
    let other = SigningKey::new(Key::from_seed(rt.alloc(), Height::H5, [7; 16], [9; 32])?);
    assert!(rt; !is_key_of(&own, &other));
    Ok(())
}
