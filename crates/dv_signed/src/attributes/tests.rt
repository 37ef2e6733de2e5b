//! Signed attributes, put together by hand from RFC 5652 5.3 and 11 and X.690; the digests are those of FIPS 180-4 for `abc`.

use super::*;
use dv_names::identifiers::{ID_DATA, SIGNING_TIME};
use std::alloc::{AllocError, Global};
use std::test::Fail;

/// The content.
const CONTENT: [u8; 3] = [0x61, 0x62, 0x63];

/// What stands for a certificate: a SEQUENCE of the number 5.
const CERTIFICATE: [u8; 5] = [0x30, 0x03, 0x02, 0x01, 0x05];

/// The identifiers id-data and id-ct-DVCSRequestData.
const DATA: [u8; 11] = [
    0x06, 0x09, 0x2A, 0x86, 0x48, 0x86, 0xF7, 0x0D, 0x01, 0x07, 0x01,
];

const REQUEST: [u8; 13] = [
    0x06, 0x0B, 0x2A, 0x86, 0x48, 0x86, 0xF7, 0x0D, 0x01, 0x09, 0x10, 0x01, 0x07,
];

/// The digest by SHA-256, in an OCTET STRING.
const BY_SHA_256: [u8; 34] = [
    0x04, 0x20, 0xBA, 0x78, 0x16, 0xBF, 0x8F, 0x01, 0xCF, 0xEA, 0x41, 0x41, 0x40, 0xDE, 0x5D, 0xAE,
    0x22, 0x23, 0xB0, 0x03, 0x61, 0xA3, 0x96, 0x17, 0x7A, 0x9C, 0xB4, 0x10, 0xFF, 0x61, 0xF2, 0x00,
    0x15, 0xAD,
];

/// The digest by SHA-384.
const BY_SHA_384: [u8; 50] = [
    0x04, 0x30, 0xCB, 0x00, 0x75, 0x3F, 0x45, 0xA3, 0x5E, 0x8B, 0xB5, 0xA0, 0x3D, 0x69, 0x9A, 0xC6,
    0x50, 0x07, 0x27, 0x2C, 0x32, 0xAB, 0x0E, 0xDE, 0xD1, 0x63, 0x1A, 0x8B, 0x60, 0x5A, 0x43, 0xFF,
    0x5B, 0xED, 0x80, 0x86, 0x07, 0x2B, 0xA1, 0xE7, 0xCC, 0x23, 0x58, 0xBA, 0xEC, 0xA1, 0x34, 0xC8,
    0x25, 0xA7,
];

/// The digest by SHA-512.
const BY_SHA_512: [u8; 66] = [
    0x04, 0x40, 0xDD, 0xAF, 0x35, 0xA1, 0x93, 0x61, 0x7A, 0xBA, 0xCC, 0x41, 0x73, 0x49, 0xAE, 0x20,
    0x41, 0x31, 0x12, 0xE6, 0xFA, 0x4E, 0x89, 0xA9, 0x7E, 0xA2, 0x0A, 0x9E, 0xEE, 0xE6, 0x4B, 0x55,
    0xD3, 0x9A, 0x21, 0x92, 0x99, 0x2A, 0x27, 0x4F, 0xC1, 0xA8, 0x36, 0xBA, 0x3C, 0x23, 0xA3, 0xFE,
    0xEB, 0xBD, 0x45, 0x4D, 0x44, 0x23, 0x64, 0x3C, 0xE8, 0x0E, 0x2A, 0x9A, 0xC9, 0x4F, 0xA5, 0x4C,
    0xA4, 0x9F,
];

/// A SigningCertificateV2 of the SHA-256 digest of the certificate.
const NAMED: [u8; 40] = [
    0x30, 0x26, 0x30, 0x24, 0x30, 0x22, 0x04, 0x20, 0x41, 0x7C, 0x77, 0x63, 0xC4, 0xE3, 0x20, 0xA6,
    0xB7, 0x47, 0xB3, 0xCB, 0x0C, 0x6D, 0x22, 0xF9, 0x37, 0x41, 0xB2, 0x9A, 0x32, 0xB4, 0x85, 0x94,
    0xB8, 0xEB, 0x4C, 0x14, 0x4F, 0xE6, 0xD7, 0x29,
];

/// The same of other octets.
const OTHER: [u8; 40] = [
    0x30, 0x26, 0x30, 0x24, 0x30, 0x22, 0x04, 0x20, 0x40, 0x32, 0x70, 0x49, 0x24, 0x0A, 0xD8, 0x45,
    0xD6, 0x79, 0x40, 0xFE, 0xF4, 0x55, 0xFE, 0x54, 0x30, 0x4B, 0x8D, 0xEA, 0x2E, 0x22, 0xFE, 0x97,
    0x49, 0xC5, 0xA8, 0xC9, 0x99, 0xAF, 0x29, 0xD5,
];

/// A value with contents of at most 127 octets.
fn value(alloc: Global, tag: u8, contents: &[u8]) -> Result<Vec<u8>, AllocError> {
    let mut octets = [tag, contents.len().min(127) as u8].to_vec(alloc)?;
    octets.extend_from_slice(contents)?;
    Ok(octets)
}

/// An attribute with this type and the values in these contents octets.
fn made(alloc: Global, oid: &[u8], values: &[u8]) -> Result<Vec<u8>, AllocError> {
    let mut fields = value(alloc, 0x06, oid)?;
    fields.extend_from_slice(&value(alloc, 0x31, values)?)?;
    value(alloc, 0x30, &fields)
}

/// The contents of a set of attributes.
fn set_of(alloc: Global, attributes: &[(&[u8], &[u8])]) -> Result<Vec<u8>, AllocError> {
    let mut octets = Vec::new(alloc);
    for (oid, values) in attributes {
        octets.extend_from_slice(&made(alloc, oid, values)?)?;
    }
    Ok(octets)
}

#[test]
fn right_attributes(rt: HostRuntime) -> Result<(), Fail> {
    let rows: [&[(&[u8], &[u8])]; 4] = [
        &[(&CONTENT_TYPE, &DATA), (&MESSAGE_DIGEST, &BY_SHA_256)],
        // A messageDigest that is no OCTET STRING.
        &[(&CONTENT_TYPE, &DATA), (&MESSAGE_DIGEST, &[0x05, 0x00])],
        // Other attributes, whatever their values are.
        &[
            (&SIGNING_TIME, &[]),
            (&MESSAGE_DIGEST, &BY_SHA_256),
            (&[0x2A], &[0x05, 0x00, 0x05, 0x00]),
            (&CONTENT_TYPE, &DATA),
        ],
        &[
            (&CONTENT_TYPE, &DATA),
            (&MESSAGE_DIGEST, &BY_SHA_256),
            (&SIGNING_CERTIFICATE_V2, &NAMED),
        ],
    ];
    for attributes in rows {
        let octets = set_of(rt.alloc(), attributes)?;
        assert!(rt;
            are_right(&Cursor::new(&octets), &ID_DATA, &CERTIFICATE),
            "{octets:?}"
        );
    }
    Ok(())
}

#[test]
fn wrong_attributes(rt: HostRuntime) -> Result<(), Fail> {
    let mut two_types = DATA.to_vec(rt.alloc())?;
    two_types.extend_from_slice(&DATA)?;
    let mut two_digests = BY_SHA_256.to_vec(rt.alloc())?;
    two_digests.extend_from_slice(&BY_SHA_256)?;
    let mut two_named = NAMED.to_vec(rt.alloc())?;
    two_named.extend_from_slice(&OTHER)?;
    let content_type: (&[u8], &[u8]) = (&CONTENT_TYPE, &DATA);
    let digest: (&[u8], &[u8]) = (&MESSAGE_DIGEST, &BY_SHA_256);
    let rows: [&[(&[u8], &[u8])]; 14] = [
        // contentType is absent, has no value or two, is another, or is none.
        &[digest],
        &[(&CONTENT_TYPE, &[]), digest],
        &[(&CONTENT_TYPE, two_types.as_slice()), digest],
        &[(&CONTENT_TYPE, &REQUEST), digest],
        &[(&CONTENT_TYPE, &[0x05, 0x00]), digest],
        // messageDigest is absent, or has no value or two.
        &[content_type],
        &[content_type, (&MESSAGE_DIGEST, &[])],
        &[content_type, (&MESSAGE_DIGEST, two_digests.as_slice())],
        // signingCertificateV2 names another certificate, or has no value or two.
        &[content_type, digest, (&SIGNING_CERTIFICATE_V2, &OTHER)],
        &[content_type, digest, (&SIGNING_CERTIFICATE_V2, &[])],
        &[
            content_type,
            digest,
            (&SIGNING_CERTIFICATE_V2, two_named.as_slice()),
        ],
        // A type stands twice: a known one, and others with and without another between them.
        &[content_type, digest, content_type],
        &[
            content_type,
            (&SIGNING_TIME, &[]),
            digest,
            (&SIGNING_TIME, &DATA),
        ],
        &[content_type, digest, (&[0x2A], &[]), (&[0x2A], &[])],
    ];
    for attributes in rows {
        let octets = set_of(rt.alloc(), attributes)?;
        assert!(rt;
            !are_right(&Cursor::new(&octets), &ID_DATA, &CERTIFICATE),
            "{octets:?}"
        );
    }
    Ok(())
}

#[test]
fn digests(rt: HostRuntime) -> Result<(), Fail> {
    let rows: [(&[u8], DigestKind, bool); 9] = [
        (&BY_SHA_256, DigestKind::Sha256, true),
        (&BY_SHA_384, DigestKind::Sha384, true),
        (&BY_SHA_512, DigestKind::Sha512, true),
        (&BY_SHA_256, DigestKind::Sha384, false),
        (&BY_SHA_384, DigestKind::Sha512, false),
        (&BY_SHA_512, DigestKind::Sha256, false),
        // No OCTET STRING, one of no octets, and the digest without its header.
        (&[0x05, 0x00], DigestKind::Sha256, false),
        (&[0x04, 0x00], DigestKind::Sha256, false),
        (&BY_SHA_256[2..], DigestKind::Sha256, false),
    ];
    for (value, kind, holds) in rows {
        let octets = set_of(rt.alloc(), &[(&MESSAGE_DIGEST, value)])?;
        let attributes = Cursor::new(&octets);
        assert_eq!(rt; has_digest(&attributes, kind, &CONTENT), holds, "{value:?}");
        assert!(rt; !has_digest(&attributes, kind, &CERTIFICATE), "{value:?}");
    }
    Ok(())
}
