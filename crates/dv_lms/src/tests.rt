// The identifier, the seed and the message are those of the second tree in the standard's second test
// case (RFC 8554, Appendix F), whose public key and whose signature with the leaf 4 are printed there.
// The digests of whole signatures are those of a program over another implementation of SHA-256
// (bench/rfc8554.py).

ghost use Rattle.std.specs.Prelude.{◌≡◌, ◌<◌, IfOk};

use crate::{Height, Key, Steps, verify, verify_joined};
use sha2::{Digest, Sha256};
use std::alloc::{AllocError, Global};
use std::marker::Brand;
use std::sync::ledger::{Blank, Ledger};
use std::test::Fail;

const ID: [u8; 16] = [
    0x21, 0x5f, 0x83, 0xb7, 0xcc, 0xb9, 0xac, 0xbc, 0xd0, 0x8d, 0xb9, 0x7b, 0x0d, 0x04, 0xdc, 0x2b,
];

const SEED: [u8; 32] = [
    0xa1, 0xc4, 0x69, 0x6e, 0x26, 0x08, 0x03, 0x5a, 0x88, 0x61, 0x00, 0xd0, 0x5c, 0xd9, 0x99, 0x45,
    0xeb, 0x33, 0x70, 0x73, 0x18, 0x84, 0xa8, 0x23, 0x5e, 0x2f, 0xb3, 0xd4, 0xd7, 0x1f, 0x25, 0x47,
];

const MESSAGE: &[u8] =
    b"The enumeration in the Constitution, of certain rights, shall not be construed to deny or disparage others retained by the people.\n";

const PUBLIC: [u8; 60] = [
    0x00, 0x00, 0x00, 0x01, 0x00, 0x00, 0x00, 0x05, 0x00, 0x00, 0x00, 0x04, 0x21, 0x5f, 0x83, 0xb7,
    0xcc, 0xb9, 0xac, 0xbc, 0xd0, 0x8d, 0xb9, 0x7b, 0x0d, 0x04, 0xdc, 0x2b, 0xa1, 0xcd, 0x03, 0x58,
    0x33, 0xe0, 0xe9, 0x00, 0x59, 0x60, 0x3f, 0x26, 0xe0, 0x7a, 0xd2, 0xaa, 0xd1, 0x52, 0x33, 0x8e,
    0x7a, 0x5e, 0x59, 0x84, 0xbc, 0xd5, 0xf7, 0xbb, 0x4e, 0xba, 0x40, 0xb7,
];

// The standard's signature with the leaf 4: q, the LM-OTS type, C and y[0], and the LMS type and
// path[0].
const STANDARD_START: [u8; 72] = [
    0x00, 0x00, 0x00, 0x04, 0x00, 0x00, 0x00, 0x04, 0x0e, 0xb1, 0xed, 0x54, 0xa2, 0x46, 0x0d, 0x51,
    0x23, 0x88, 0xca, 0xd5, 0x33, 0x13, 0x8d, 0x24, 0x05, 0x34, 0xe9, 0x7b, 0x1e, 0x82, 0xd3, 0x3b,
    0xd9, 0x27, 0xd2, 0x01, 0xdf, 0xc2, 0x4e, 0xbb, 0x11, 0xb3, 0x64, 0x90, 0x23, 0x69, 0x6f, 0x85,
    0x15, 0x0b, 0x18, 0x9e, 0x50, 0xc0, 0x0e, 0x98, 0x85, 0x0a, 0xc3, 0x43, 0xa7, 0x7b, 0x36, 0x38,
    0x31, 0x9c, 0x34, 0x7d, 0x73, 0x10, 0x26, 0x9d,
];

const STANDARD_PATH: [u8; 36] = [
    0x00, 0x00, 0x00, 0x05, 0x4d, 0xe1, 0xf6, 0x96, 0x5b, 0xda, 0xbc, 0x67, 0x6c, 0x5a, 0x4d, 0xc7,
    0xc3, 0x5f, 0x97, 0xf8, 0x2c, 0xb0, 0xe3, 0x1c, 0x68, 0xd0, 0x4f, 0x1d, 0xad, 0x96, 0x31, 0x4f,
    0xf0, 0x9e, 0x6b, 0x3d,
];

const HASH_AT_LEAF_4: [u8; 32] = [
    0xa5, 0x8c, 0xcf, 0x1f, 0x4d, 0x52, 0x9a, 0x72, 0xbf, 0x1d, 0x0b, 0x2a, 0x5b, 0x19, 0xb3, 0xa1,
    0x3b, 0xbf, 0x6c, 0x4a, 0x1d, 0x7b, 0x00, 0xfa, 0x58, 0x44, 0x28, 0x08, 0x53, 0xfa, 0x74, 0xbc,
];

const HASH_AT_LEAF_31: [u8; 32] = [
    0x46, 0x2f, 0xd7, 0x80, 0x28, 0x1d, 0x7f, 0x73, 0x55, 0x63, 0x30, 0x5c, 0xad, 0xa7, 0x73, 0x8e,
    0xf4, 0xb4, 0x86, 0xbc, 0xac, 0xdb, 0x9c, 0x92, 0x16, 0x86, 0x53, 0xa5, 0xce, 0xed, 0xdd, 0x82,
];

fn key(alloc: Global) -> Result<Key, AllocError>
    ensures { IfOk result (λ key. key.height ≡ Height.H5) }
{
    Key::from_seed(alloc, Height::H5, ID, SEED)
}

fn counted<L: Ledger>(public: &[u8], message: &[u8], signature: &[u8], blank: Blank) -> bool
    requires name { blank.name ≡ L.name }
    requires parts { blank.parts ≡ L.parts }
    requires some { 0 < blank.parts }
{
    verify(public, message, signature, &mut Steps::<L>::new(blank))
}

fn verifies(public: &[u8], message: &[u8], signature: &[u8]) -> bool {
    counted::<Brand>(public, message, signature, Blank::new(1))
}

fn counted_in_parts<L: Ledger>(front: &[u8], rest: &[u8], signature: &[u8], blank: Blank) -> bool
    requires name { blank.name ≡ L.name }
    requires parts { blank.parts ≡ L.parts }
    requires some { 0 < blank.parts }
{
    let mut checks = Steps::<L>::new(blank);
    verify_joined(&PUBLIC, front, rest, signature, &mut checks)
}

fn verifies_in_parts(front: &[u8], rest: &[u8], signature: &[u8]) -> bool {
    counted_in_parts::<Brand>(front, rest, signature, Blank::new(1))
}

fn lend<T: Sync>(_value: &T) {}

fn give<T: Send + Drop>(_value: T) {}

#[test]
fn key_and_signature_are_those_of_the_standard(rt: HostRuntime) -> Result<(), Fail> {
    let key = key(rt.alloc())?;
    assert_eq!(rt; key.public(), PUBLIC);
    let signature = key.sign(4, MESSAGE);
    let octets = signature.as_slice();
    assert!(rt; octets[4..].starts_with(&STANDARD_START));
    assert!(rt; octets[1132..].starts_with(&STANDARD_PATH));
    assert_eq!(rt; Sha256::digest(octets), HASH_AT_LEAF_4);
    assert!(rt; verifies(&PUBLIC, MESSAGE, octets));
    Ok(())
}

#[test]
fn last_leaf_signs(rt: HostRuntime) -> Result<(), Fail> {
    let key = key(rt.alloc())?;
    let leaf = key.height().leaves() - 1;
    assert_eq!(rt; leaf, 31);
    let signature = key.sign(leaf, MESSAGE);
    let octets = signature.as_slice();
    assert_eq!(rt; octets.len(), 1296);
    assert!(rt; octets.starts_with(&[0, 0, 0, 0, 0, 0, 0, 0x1f, 0, 0, 0, 4]));
    assert!(rt; octets[1132..].starts_with(&[0, 0, 0, 5]));
    assert_eq!(rt; Sha256::digest(octets), HASH_AT_LEAF_31);
    assert!(rt; verifies(&PUBLIC, MESSAGE, octets));
    assert!(rt; !verifies(&PUBLIC, b"another message", octets));
    Ok(())
}

#[test]
fn message_in_two_parts(rt: HostRuntime) -> Result<(), Fail> {
    let signature = key(rt.alloc())?.sign(4, MESSAGE);
    let octets = signature.as_slice();
    for cut in [0, 1, 64, MESSAGE.len()] {
        let cut = cut.min(MESSAGE.len());
        assert!(rt;
            verifies_in_parts(&MESSAGE[..cut], &MESSAGE[cut..], octets),
            "cut at {cut}"
        );
    }
    assert!(rt; !verifies_in_parts(MESSAGE, b"more", octets));
    Ok(())
}

#[test]
fn no_signature_verifies_with_a_bit_changed(rt: HostRuntime) -> Result<(), Fail> {
    let mut octets = [0; 1296];
    octets.copy_from_slice(key(rt.alloc())?.sign(31, MESSAGE).as_slice());
    for i in 0..1296 {
        octets[i] ^= 1 << (i % 8);
        assert!(rt; !verifies(&PUBLIC, MESSAGE, &octets), "octet {i}");
        octets[i] ^= 1 << (i % 8);
    }
    assert!(rt; verifies(&PUBLIC, MESSAGE, &octets));
    Ok(())
}

#[test]
fn no_other_length_or_type_verifies(rt: HostRuntime) -> Result<(), Fail> {
    let mut octets = [0; 1297];
    octets[..1296].copy_from_slice(key(rt.alloc())?.sign(31, MESSAGE).as_slice());
    let signature = &octets[..1296];
    assert!(rt; !verifies(&PUBLIC, MESSAGE, &octets));
    assert!(rt; !verifies(&PUBLIC, MESSAGE, &octets[..1295]));
    let mut longer = [0; 61];
    longer[..60].copy_from_slice(&PUBLIC);
    assert!(rt; !verifies(&longer, MESSAGE, signature));
    assert!(rt; !verifies(&PUBLIC[..59], MESSAGE, signature));
    let mut other = PUBLIC;
    for i in 0..12 {
        other[i] ^= 1;
        assert!(rt; !verifies(&other, MESSAGE, signature), "octet {i}");
        other[i] ^= 1;
    }
    assert!(rt; verifies(&other, MESSAGE, signature));
    Ok(())
}

#[test]
fn keys_and_signatures_cross_threads(rt: HostRuntime) -> Result<(), Fail> {
    let key = key(rt.alloc())?;
    lend(&key);
    give(key.sign(0, MESSAGE));
    give(key);
    Ok(())
}
