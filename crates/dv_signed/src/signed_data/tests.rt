//! Signed data put together by hand from RFC 5652 5 and 10.2.2 and X.690, with the places counted by hand.

use super::*;
use crate::sid::Sid;
use dv_asn1::same;
use std::alloc::{AllocError, Global};
use std::test::Fail;

/// The version 3.
const VERSION: [u8; 3] = [0x02, 0x01, 0x03];

/// No digest algorithms, or no signers.
const EMPTY: [u8; 2] = [0x31, 0x00];

/// Two digest algorithms, of which the second is less than the first.
const ALGORITHMS: [u8; 12] = [
    0x31, 0x0A, 0x30, 0x03, 0x06, 0x01, 0x2B, 0x30, 0x03, 0x06, 0x01, 0x2A,
];

/// The encapContentInfo of the type 1.2, without content and with `abc`.
const ABSENT: [u8; 5] = [0x30, 0x03, 0x06, 0x01, 0x2A];

const ABC: [u8; 12] = [
    0x30, 0x0A, 0x06, 0x01, 0x2A, 0xA0, 0x05, 0x04, 0x03, 0x61, 0x62, 0x63,
];

/// Two signers: the first is named by the key identifier 09, the second, which is less, by 07.
const SIGNERS: [u8; 44] = [
    0x31, 0x2A, 0x30, 0x13, 0x02, 0x01, 0x03, 0x80, 0x01, 0x09, 0x30, 0x03, 0x06, 0x01, 0x2A, 0x30,
    0x03, 0x06, 0x01, 0x2B, 0x04, 0x01, 0xAA, 0x30, 0x13, 0x02, 0x01, 0x03, 0x80, 0x01, 0x07, 0x30,
    0x03, 0x06, 0x01, 0x2A, 0x30, 0x03, 0x06, 0x01, 0x2B, 0x04, 0x01, 0xAA,
];

/// The fields of a signer before its signed attributes, 11 octets, and those behind them.
const FRONT: [u8; 11] = [
    0x02, 0x01, 0x03, 0x80, 0x01, 0x07, 0x30, 0x03, 0x06, 0x01, 0x2A,
];

const SIGNATURE: [u8; 8] = [0x30, 0x03, 0x06, 0x01, 0x2B, 0x04, 0x01, 0xAA];

/// The place of the one signer of `with_signer`.
const SIGNER: u64 = 14;

/// Attributes of the types 1.2 and 1.3 without values, 7 octets each.
const FIRST: [u8; 7] = [0x30, 0x05, 0x06, 0x01, 0x2A, 0x31, 0x00];

const SECOND: [u8; 7] = [0x30, 0x05, 0x06, 0x01, 0x2B, 0x31, 0x00];

fn joined(alloc: Global, parts: &[&[u8]]) -> Result<Vec<u8>, AllocError> {
    let mut octets = Vec::new(alloc);
    for part in parts {
        octets.extend_from_slice(part)?;
    }
    Ok(octets)
}

/// A value with this tag and these contents, of at most 127 octets.
fn value(alloc: Global, tag: u8, fields: &[&[u8]]) -> Result<Vec<u8>, AllocError> {
    let contents = joined(alloc, fields)?;
    joined(alloc, &[&[tag, contents.len().min(127) as u8], &contents])
}

/// The SignedData of one signer, with these fields.
fn with_signer(alloc: Global, fields: &[&[u8]]) -> Result<Vec<u8>, AllocError> {
    let signer = value(alloc, 0x30, fields)?;
    let signers = value(alloc, 0x31, &[&signer])?;
    value(alloc, 0x30, &[&VERSION, &EMPTY, &ABSENT, &signers])
}

fn decode(octets: &[u8]) -> Option<Result<SignedData<'_>, Der>> {
    if octets.len() > 1000 {
        return None;
    }
    Some(SignedData::decode(octets))
}

/// Whether the octets are refused so, or decode where there is no refusal.
fn is_answer(octets: &[u8], refusal: Option<(u64, Why)>) -> bool {
    match (decode(octets), refusal) {
        (Some(Ok(_)), None) => true,
        (Some(Err(found)), Some((place, why))) => found == Der::new(place, why),
        _ => false,
    }
}

/// Whether these are the certificates, at most 4 of them, and no other is there.
fn has_certificates(octets: &[u8], certificates: &[&[u8]]) -> bool {
    let Some(Ok(signed)) = decode(octets) else {
        return false;
    };
    for i in 0..5 {
        if signed.certificate(i) != certificates.get(i as usize).copied() {
            return false;
        }
    }
    signed.certificates as usize == certificates.len() && signed.certificate(u32::MAX).is_none()
}

/// The key identifier of a signer, where it is there and has one octet.
fn key_id(signed: &SignedData<'_>, i: u32) -> Option<u8> {
    match signed.signer(i)?.sid {
        Sid::KeyId([id]) => Some(*id),
        _ => None,
    }
}

/// Whether the signers have these key identifiers, at most 4 of them, and no other is there.
fn has_signers(octets: &[u8], key_ids: &[u8]) -> bool {
    let Some(Ok(signed)) = decode(octets) else {
        return false;
    };
    for i in 0..5 {
        if key_id(&signed, i) != key_ids.get(i as usize).copied() {
            return false;
        }
    }
    signed.signers as usize == key_ids.len() && signed.signer(u32::MAX).is_none()
}

/// Whether the content is this one, and its places are these: of the encapContentInfo, of its type 1.2 and of the content.
fn has_content(octets: &[u8], content: Option<&[u8]>, places: (u64, u64, Option<u64>)) -> bool {
    match decode(octets) {
        Some(Ok(signed)) => {
            same(signed.content_type, &[0x2A])
                && signed.content == content
                && (signed.encap_place, signed.type_place, signed.content_place) == places
        }
        _ => false,
    }
}

#[test]
fn certificates_and_signers(rt: HostRuntime) -> Result<(), Fail> {
    let rows: [(&[u8], &[&[u8]]); 4] = [
        (&[], &[]),
        (&[0xA0, 0x00], &[]),
        // Other forms alone.
        (
            &[
                0xA0, 0x0A, 0xA0, 0x00, 0xA1, 0x02, 0x05, 0x00, 0xA2, 0x00, 0xA3, 0x00,
            ],
            &[],
        ),
        // Three certificates out of order, with other forms before, between and behind them.
        (
            &[
                0xA0, 0x14, 0xA0, 0x00, 0x30, 0x03, 0x02, 0x01, 0x07, 0xA1, 0x00, 0xA2, 0x00, 0x30,
                0x03, 0x02, 0x01, 0x05, 0x30, 0x00, 0xA3, 0x00,
            ],
            &[
                &[0x30, 0x03, 0x02, 0x01, 0x07],
                &[0x30, 0x03, 0x02, 0x01, 0x05],
                &[0x30, 0x00],
            ],
        ),
    ];
    for (set, certificates) in rows {
        let octets = value(
            rt.alloc(),
            0x30,
            &[&VERSION, &ALGORITHMS, &ABSENT, set, &SIGNERS],
        )?;
        assert!(rt; has_certificates(&octets, certificates), "{octets:?}");
        assert!(rt; has_signers(&octets, &[0x09, 0x07]), "{octets:?}");
    }
    Ok(())
}

#[test]
fn contents(rt: HostRuntime) -> Result<(), Fail> {
    let (version, algorithms, signers) = (&VERSION, &ALGORITHMS, &EMPTY);
    let absent = value(rt.alloc(), 0x30, &[version, algorithms, &ABSENT, signers])?;
    assert!(rt; has_content(&absent, None, (17, 19, None)));
    assert!(rt; has_signers(&absent, &[]));
    let abc = value(rt.alloc(), 0x30, &[version, algorithms, &ABC, signers])?;
    assert!(rt; has_content(&abc, Some(b"abc"), (17, 19, Some(26))));
    // A content of 128 octets: each length before it has two octets.
    let long = joined(
        rt.alloc(),
        &[
            &[0x30, 0x81, 0x93, 0x02, 0x01, 0x03, 0x31, 0x00],
            &[0x30, 0x81, 0x89, 0x06, 0x01, 0x2A, 0xA0, 0x81, 0x83],
            &[0x04, 0x81, 0x80],
            &[0x61; 128],
            signers,
        ],
    )?;
    assert!(rt; has_content(&long, Some(&[0x61; 128]), (8, 11, Some(20))));
    Ok(())
}

#[test]
fn fields(rt: HostRuntime) -> Result<(), Fail> {
    let rows: [(&[&[u8]], Option<(u64, Why)>); 6] = [
        (&[&VERSION, &EMPTY, &ABSENT, &EMPTY], None),
        // The versions 0 and 6.
        (
            &[&[0x02, 0x01, 0x00], &EMPTY, &ABSENT, &EMPTY],
            Some((2, Why::Value)),
        ),
        (
            &[&[0x02, 0x01, 0x06], &EMPTY, &ABSENT, &EMPTY],
            Some((2, Why::Value)),
        ),
        // A form of certificates that there isn't.
        (
            &[
                &VERSION,
                &EMPTY,
                &ABSENT,
                &[0xA0, 0x04, 0x30, 0x00, 0xA4, 0x00],
                &EMPTY,
            ],
            Some((16, Why::Tag)),
        ),
        // No signers, and another value behind them.
        (&[&VERSION, &EMPTY, &ABSENT], Some((12, Why::End))),
        (
            &[&VERSION, &EMPTY, &ABSENT, &EMPTY, &EMPTY],
            Some((14, Why::Trailing)),
        ),
    ];
    for (fields, refusal) in rows {
        let mut octets = value(rt.alloc(), 0x30, fields)?;
        assert!(rt; is_answer(&octets, refusal), "{octets:?}");
        // An octet behind the whole value comes last.
        let trailing = (octets.len() as u64, Why::Trailing);
        octets.push(0)?;
        assert!(rt;
            is_answer(&octets, refusal.or(Some(trailing))),
            "{octets:?}"
        );
    }
    Ok(())
}

#[test]
fn signers(rt: HostRuntime) -> Result<(), Fail> {
    let rows: [(&[&[u8]], Option<(u64, Why)>); 8] = [
        // Attributes that ascend, of which two are alike, and no unsigned ones; and unsigned ones alone.
        (
            &[
                &FRONT,
                &[0xA0, 0x15],
                &FIRST,
                &SECOND,
                &SECOND,
                &SIGNATURE,
                &[0xA1, 0x00],
            ],
            None,
        ),
        (&[&FRONT, &SIGNATURE, &[0xA1, 0x0E], &FIRST, &SECOND], None),
        // Attributes of which the third is less than the second; none; and unsigned ones that descend.
        (
            &[&FRONT, &[0xA0, 0x15], &FIRST, &SECOND, &FIRST, &SIGNATURE],
            Some((SIGNER + 29, Why::Order)),
        ),
        (
            &[&FRONT, &[0xA0, 0x00], &SIGNATURE],
            Some((SIGNER + 13, Why::Value)),
        ),
        (
            &[&FRONT, &SIGNATURE, &[0xA1, 0x0E], &SECOND, &FIRST],
            Some((SIGNER + 30, Why::Order)),
        ),
        // The version 2.
        (
            &[&[0x02, 0x01, 0x02], &FRONT[3..], &SIGNATURE],
            Some((SIGNER + 2, Why::Value)),
        ),
        // Serial numbers of 20 and 21 octets.
        (
            &[
                &[0x02, 0x01, 0x01, 0x30, 0x18, 0x30, 0x00, 0x02, 0x14],
                &[0x01; 20],
                &FRONT[6..],
                &SIGNATURE,
            ],
            None,
        ),
        (
            &[
                &[0x02, 0x01, 0x01, 0x30, 0x19, 0x30, 0x00, 0x02, 0x15],
                &[0x01; 21],
                &FRONT[6..],
                &SIGNATURE,
            ],
            Some((SIGNER + 9, Why::Value)),
        ),
    ];
    for (fields, refusal) in rows {
        let octets = with_signer(rt.alloc(), fields)?;
        assert!(rt; is_answer(&octets, refusal), "{octets:?}");
    }
    Ok(())
}
