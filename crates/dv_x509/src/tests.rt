//! Certificates whose octets were worked out by hand from RFC 5280 4.1, X.690 and FIPS 180-4.

use crate::{Ca, Certificate, OwnParts, X509, own_certificate, own_tbs};
use dv_asn1::{Der, Why};
use dv_names::identifiers::{ANY_POLICY, ID_KP_DVCS};
use dv_time::Moment;
use std::alloc::{AllocError, Global};
use std::test::Fail;

/// The own certificate of the name notary with serial 1, for the year 2025, whose signature is the octets 01 02 03.
const OWN: [u8; 276] = [
    0x30, 0x82, 0x01, 0x10, 0x30, 0x81, 0xF8, 0xA0, 0x03, 0x02, 0x01, 0x02, 0x02, 0x01, 0x01, 0x30,
    0x0D, 0x06, 0x0B, 0x2A, 0x86, 0x48, 0x86, 0xF7, 0x0D, 0x01, 0x09, 0x10, 0x03, 0x11, 0x30, 0x11,
    0x31, 0x0F, 0x30, 0x0D, 0x06, 0x03, 0x55, 0x04, 0x03, 0x0C, 0x06, 0x6E, 0x6F, 0x74, 0x61, 0x72,
    0x79, 0x30, 0x1E, 0x17, 0x0D, 0x32, 0x35, 0x30, 0x31, 0x30, 0x31, 0x30, 0x30, 0x30, 0x30, 0x30,
    0x30, 0x5A, 0x17, 0x0D, 0x32, 0x36, 0x30, 0x31, 0x30, 0x31, 0x30, 0x30, 0x30, 0x30, 0x30, 0x30,
    0x5A, 0x30, 0x11, 0x31, 0x0F, 0x30, 0x0D, 0x06, 0x03, 0x55, 0x04, 0x03, 0x0C, 0x06, 0x6E, 0x6F,
    0x74, 0x61, 0x72, 0x79, 0x30, 0x4E, 0x30, 0x0D, 0x06, 0x0B, 0x2A, 0x86, 0x48, 0x86, 0xF7, 0x0D,
    0x01, 0x09, 0x10, 0x03, 0x11, 0x03, 0x3D, 0x00, 0x00, 0x00, 0x00, 0x01, 0x00, 0x00, 0x00, 0x05,
    0x00, 0x00, 0x00, 0x04, 0x11, 0x11, 0x11, 0x11, 0x11, 0x11, 0x11, 0x11, 0x11, 0x11, 0x11, 0x11,
    0x11, 0x11, 0x11, 0x11, 0x22, 0x22, 0x22, 0x22, 0x22, 0x22, 0x22, 0x22, 0x22, 0x22, 0x22, 0x22,
    0x22, 0x22, 0x22, 0x22, 0x22, 0x22, 0x22, 0x22, 0x22, 0x22, 0x22, 0x22, 0x22, 0x22, 0x22, 0x22,
    0x22, 0x22, 0x22, 0x22, 0xA3, 0x49, 0x30, 0x47, 0x30, 0x0E, 0x06, 0x03, 0x55, 0x1D, 0x0F, 0x01,
    0x01, 0xFF, 0x04, 0x04, 0x03, 0x02, 0x06, 0xC0, 0x30, 0x16, 0x06, 0x03, 0x55, 0x1D, 0x25, 0x01,
    0x01, 0xFF, 0x04, 0x0C, 0x30, 0x0A, 0x06, 0x08, 0x2B, 0x06, 0x01, 0x05, 0x05, 0x07, 0x03, 0x0A,
    0x30, 0x1D, 0x06, 0x03, 0x55, 0x1D, 0x0E, 0x04, 0x16, 0x04, 0x14, 0x82, 0x54, 0x7D, 0x46, 0x3A,
    0xDB, 0x5F, 0x88, 0x16, 0x92, 0xF4, 0x01, 0x91, 0x06, 0x21, 0xE6, 0x01, 0xD0, 0xB1, 0x28, 0x30,
    0x0D, 0x06, 0x0B, 0x2A, 0x86, 0x48, 0x86, 0xF7, 0x0D, 0x01, 0x09, 0x10, 0x03, 0x11, 0x03, 0x04,
    0x00, 0x01, 0x02, 0x03,
];

/// Its SHA-256 digest.
const DIGEST: [u8; 32] = [
    0xA7, 0x6C, 0x5D, 0xD2, 0xA1, 0xED, 0x00, 0xA9, 0x37, 0x60, 0x4A, 0xC0, 0x80, 0xB4, 0xE6, 0x43,
    0x4D, 0xA1, 0xF3, 0x97, 0xB6, 0x0B, 0x67, 0x9D, 0x33, 0x29, 0x7F, 0x8D, 0x4C, 0x8C, 0x12, 0xF7,
];

/// Why the octets are no certificate under the tag of a SEQUENCE.
fn cause(octets: &[u8]) -> Option<X509> {
    match Certificate::decode(octets, 0x30) {
        Ok(_) => None,
        Err(cause) => Some(cause),
    }
}

/// The same, of the certificate with one octet changed.
fn cause_with(place: usize, octet: u8) -> Option<X509> {
    let mut octets = OWN;
    if place < octets.len() {
        octets[place] = octet;
    }
    cause(&octets)
}

fn key() -> [u8; 60] {
    let mut key = [0x22; 60];
    key[..12].copy_from_slice(&[0, 0, 0, 1, 0, 0, 0, 5, 0, 0, 0, 4]);
    key[12..28].copy_from_slice(&[0x11; 16]);
    key
}

#[test]
fn own_octets(rt: HostRuntime) -> Result<(), Fail> {
    let Some(from) = Moment::from_unix(1_735_689_600) else {
        return Ok(());
    };
    let Some(until) = Moment::from_unix(1_767_225_600) else {
        return Ok(());
    };
    let parts = OwnParts {
        name: "notary".as_bytes(),
        from,
        until,
    };
    let tbs = own_tbs(rt.alloc(), &parts, &key(), 1)?;
    let whole = own_certificate(rt.alloc(), &tbs, &[1, 2, 3])?;
    assert_eq!(rt; whole.as_slice(), OWN.as_slice());
    Ok(())
}

#[test]
fn own_key_and_uses(rt: HostRuntime) -> Result<(), Fail> {
    let key = key();
    match Certificate::decode(&OWN, 0x30) {
        Err(_) => assert!(rt; false),
        Ok(own) => {
            assert_eq!(rt; own.serial, [1u8].as_slice());
            assert_eq!(rt; own.key(), Some(key.as_slice()));
            assert_eq!(rt; own.usage(), Some(3));
            assert_eq!(rt; own.ca(), Ca::No);
            assert!(rt; own.has_purpose(&ID_KP_DVCS));
            assert!(rt; !own.asserts(&ANY_POLICY));
            assert!(rt; !own.unknown_critical());
        }
    }
    Ok(())
}

#[test]
fn own_digests(rt: HostRuntime) -> Result<(), Fail> {
    match Certificate::decode(&OWN, 0x30) {
        Err(_) => assert!(rt; false),
        Ok(own) => {
            assert_eq!(rt; own.hash(), DIGEST);
            match own.key_id() {
                None => assert!(rt; false),
                Some(id) => assert!(rt; id.starts_with(&[0x82, 0x54])),
            }
        }
    }
    Ok(())
}

#[test]
fn versions(rt: HostRuntime) -> Result<(), Fail> {
    assert_eq!(rt; cause_with(11, 0), Some(X509::Der(Der::new(9, Why::Value))));
    assert_eq!(rt; cause_with(11, 1), None);
    assert_eq!(rt; cause_with(11, 2), None);
    assert_eq!(rt; cause_with(11, 3), Some(X509::Version));
    assert_eq!(rt; cause_with(11, 0x80), Some(X509::Version));
    Ok(())
}

#[test]
fn other_causes(rt: HostRuntime) -> Result<(), Fail> {
    // the last arc of the signature's algorithm
    assert_eq!(rt; cause_with(269, 0x12), Some(X509::Algorithm));
    // an unused bit of keyUsage that isn't zero
    assert_eq!(rt;
        cause_with(199, 0xC1),
        Some(X509::Der(Der::new(196, Why::Value)))
    );
    assert_eq!(rt; cause(&[0x30; 8193]), Some(X509::TooLong));
    assert_eq!(rt;
        cause(&[0x30; 8192]),
        Some(X509::Der(Der::new(2, Why::End)))
    );
    Ok(())
}

/// What stands in the place of the last extension of the own certificate: the last octet of its identifier, and how its value of
/// 22 octets begins, the rest being 11; and the place and the reason of the refusal, where there is one.
struct Row {
    identifier: u8,
    value: &'static [u8],
    refusal: Option<(u64, Why)>,
}

const GOOD: [Row; 6] = [
    Row {
        identifier: 0x0F,
        value: &[0x03, 20, 0],
        refusal: None,
    },
    Row {
        identifier: 0x25,
        value: &[0x30, 20, 0x06, 18],
        refusal: None,
    },
    Row {
        identifier: 0x13,
        value: &[0x30, 20, 0x01, 1, 0xFF, 0x02, 15],
        refusal: None,
    },
    Row {
        identifier: 0x0E,
        value: &[0x04, 20],
        refusal: None,
    },
    Row {
        identifier: 0x23,
        value: &[0x30, 20, 0x04, 18],
        refusal: None,
    },
    Row {
        identifier: 0x20,
        value: &[0x30, 20, 0x30, 18, 0x06, 16],
        refusal: None,
    },
];

const BAD: [Row; 9] = [
    // keyUsage with eight unused bits, and as an OCTET STRING
    Row {
        identifier: 0x0F,
        value: &[0x03, 20, 8],
        refusal: Some((233, Why::Value)),
    },
    Row {
        identifier: 0x0F,
        value: &[0x04, 20],
        refusal: Some((233, Why::Tag)),
    },
    // extKeyUsage with an OCTET STRING
    Row {
        identifier: 0x25,
        value: &[0x30, 20, 0x04, 18],
        refusal: Some((235, Why::Tag)),
    },
    // basicConstraints with a FALSE that is spelled out, and with a negative bound
    Row {
        identifier: 0x13,
        value: &[0x30, 20, 0x01, 1, 0, 0x02, 15],
        refusal: Some((235, Why::Value)),
    },
    Row {
        identifier: 0x13,
        value: &[0x30, 20, 0x01, 1, 0xFF, 0x02, 15, 0x80],
        refusal: Some((238, Why::Value)),
    },
    // subjectKeyIdentifier as a BIT STRING
    Row {
        identifier: 0x0E,
        value: &[0x03, 20, 0],
        refusal: Some((233, Why::Tag)),
    },
    // authorityKeyIdentifier as a SET, and with a value that goes past it
    Row {
        identifier: 0x23,
        value: &[0x31, 20, 0x04, 18],
        refusal: Some((233, Why::Tag)),
    },
    Row {
        identifier: 0x23,
        value: &[0x30, 20, 0x04, 19],
        refusal: Some((235, Why::End)),
    },
    // certificatePolicies with an identifier that goes past its policy
    Row {
        identifier: 0x20,
        value: &[0x30, 20, 0x30, 18, 0x06, 17],
        refusal: Some((237, Why::End)),
    },
];

/// Why the own certificate with this extension in the place of its last one is none. The first two are other extensions.
fn cause_of(row: &Row) -> Option<X509> {
    let mut octets = OWN;
    octets[190] = 0x12;
    octets[206] = 0x11;
    octets[230] = row.identifier;
    octets[233..255].copy_from_slice(&[0x11; 22]);
    for (octet, value) in octets[233..255].iter_mut().zip(row.value) {
        *octet = *value;
    }
    cause(&octets)
}

fn expected(row: &Row) -> Option<X509> {
    match row.refusal {
        None => None,
        Some((place, why)) => Some(X509::Der(Der::new(place, why))),
    }
}

#[test]
fn good_extensions(rt: HostRuntime) -> Result<(), Fail> {
    for row in &GOOD {
        assert_eq!(rt; cause_of(row), expected(row), "{:02X}", row.identifier);
    }
    Ok(())
}

#[test]
fn bad_extensions(rt: HostRuntime) -> Result<(), Fail> {
    for row in &BAD {
        assert_eq!(rt; cause_of(row), expected(row), "{:02X}", row.identifier);
    }
    Ok(())
}

#[test]
fn repeated_extension(rt: HostRuntime) -> Result<(), Fail> {
    // subjectKeyIdentifier becomes a second keyUsage
    assert_eq!(rt;
        cause_with(230, 0x0F),
        Some(X509::Der(Der::new(224, Why::Value)))
    );
    Ok(())
}

/// Why the own certificate with a signature of so many octets is none.
fn cause_of_signed(alloc: Global, octets: usize) -> Result<Option<X509>, AllocError> {
    let signature = vec![in alloc; 0u8; octets]?;
    let whole = own_certificate(alloc, &OWN[4..255], &signature)?;
    Ok(cause(&whole))
}

#[test]
fn longest(rt: HostRuntime) -> Result<(), Fail> {
    // 275 octets stand beside the signature
    assert_eq!(rt; cause_of_signed(rt.alloc(), 7917)?, None);
    assert_eq!(rt; cause_of_signed(rt.alloc(), 7918)?, Some(X509::TooLong));
    Ok(())
}
