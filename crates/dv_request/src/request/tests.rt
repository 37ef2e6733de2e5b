//! Good and bad requests, worked out by hand from RFC 3029 and X.690.

use super::*;
use dv_asn1::Why;
use std::test::Fail;

/// The refusal of the octets, of which there are few; none where they are a request.
fn refusal(octets: &[u8]) -> Option<Der> {
    if octets.len() > 1000 {
        return None;
    }
    match Request::decode(octets) {
        Ok(_) => None,
        Err(refusal) => Some(refusal),
    }
}

/// How long the transactionIdentifier is, where the octets are a request with one.
fn transaction_len(octets: &[u8]) -> Option<usize> {
    if octets.len() > 1000 {
        return None;
    }
    match Request::decode(octets) {
        Ok(request) => match request.transaction {
            None => None,
            Some(octets) => Some(octets.len()),
        },
        Err(_) => None,
    }
}

#[test]
fn refusals(rt: HostRuntime) {
    let rows: [(&[u8], u64, Why); 6] = [
        (&[], 0, Why::End),
        (
            &[
                0x30, 0x0A, 0x30, 0x03, 0x0A, 0x01, 0x05, 0x04, 0x03, 0x61, 0x62, 0x63,
            ],
            4,
            Why::Value,
        ),
        (
            &[
                0x30, 0x0A, 0x30, 0x03, 0x0A, 0x01, 0x01, 0x04, 0x04, 0x61, 0x62, 0x63,
            ],
            7,
            Why::End,
        ),
        (
            &[
                0x30, 0x81, 0x0A, 0x30, 0x03, 0x0A, 0x01, 0x01, 0x04, 0x03, 0x61, 0x62, 0x63,
            ],
            0,
            Why::Length,
        ),
        (&[0x30, 0x05, 0x30, 0x03, 0x0A, 0x01, 0x01], 7, Why::End),
        (
            &[
                0x30, 0x0C, 0x30, 0x03, 0x0A, 0x01, 0x01, 0x04, 0x03, 0x61, 0x62, 0x63, 0x05, 0x00,
            ],
            12,
            Why::Trailing,
        ),
    ];
    for (octets, place, why) in rows {
        assert_eq!(rt;
            refusal(octets),
            Some(Der::new(place, why)),
            "at {octets:?}"
        );
    }
}

#[test]
fn refusals_of_the_rest(rt: HostRuntime) {
    let rows: [(&[u8], u64, Why); 5] = [
        // Another tag.
        (
            &[
                0x31, 0x0A, 0x30, 0x03, 0x0A, 0x01, 0x01, 0x04, 0x03, 0x61, 0x62, 0x63,
            ],
            0,
            Why::Tag,
        ),
        // An octet after the value.
        (
            &[
                0x30, 0x0A, 0x30, 0x03, 0x0A, 0x01, 0x01, 0x04, 0x03, 0x61, 0x62, 0x63, 0x00,
            ],
            12,
            Why::Trailing,
        ),
        // Data of no form.
        (
            &[0x30, 0x07, 0x30, 0x03, 0x0A, 0x01, 0x01, 0x05, 0x00],
            7,
            Why::Tag,
        ),
        // A digest without its algorithm.
        (
            &[
                0x30, 0x09, 0x30, 0x03, 0x0A, 0x01, 0x04, 0x30, 0x02, 0x04, 0x00,
            ],
            9,
            Why::Tag,
        ),
        // A directoryName that is no Name.
        (
            &[
                0x30, 0x0B, 0x30, 0x03, 0x0A, 0x01, 0x01, 0x04, 0x00, 0xA4, 0x02, 0x05, 0x00,
            ],
            11,
            Why::Tag,
        ),
    ];
    for (octets, place, why) in rows {
        assert_eq!(rt;
            refusal(octets),
            Some(Der::new(place, why)),
            "at {octets:?}"
        );
    }
}

#[test]
fn transactions_of_each_tag(rt: HostRuntime) {
    let rows: [(&[u8], usize); 9] = [
        (
            &[
                0x30, 0x09, 0x30, 0x03, 0x0A, 0x01, 0x01, 0x04, 0x00, 0xA0, 0x00,
            ],
            2,
        ),
        (
            &[
                0x30, 0x0A, 0x30, 0x03, 0x0A, 0x01, 0x01, 0x04, 0x00, 0x81, 0x01, 0x61,
            ],
            3,
        ),
        (
            &[
                0x30, 0x0A, 0x30, 0x03, 0x0A, 0x01, 0x01, 0x04, 0x00, 0x82, 0x01, 0x61,
            ],
            3,
        ),
        (
            &[
                0x30, 0x0B, 0x30, 0x03, 0x0A, 0x01, 0x01, 0x04, 0x00, 0xA3, 0x02, 0x05, 0x00,
            ],
            4,
        ),
        (
            &[
                0x30, 0x0B, 0x30, 0x03, 0x0A, 0x01, 0x01, 0x04, 0x00, 0xA4, 0x02, 0x30, 0x00,
            ],
            4,
        ),
        (
            &[
                0x30, 0x09, 0x30, 0x03, 0x0A, 0x01, 0x01, 0x04, 0x00, 0xA5, 0x00,
            ],
            2,
        ),
        (
            &[
                0x30, 0x0A, 0x30, 0x03, 0x0A, 0x01, 0x01, 0x04, 0x00, 0x86, 0x01, 0x61,
            ],
            3,
        ),
        (
            &[
                0x30, 0x09, 0x30, 0x03, 0x0A, 0x01, 0x01, 0x04, 0x00, 0x87, 0x00,
            ],
            2,
        ),
        (
            &[
                0x30, 0x0A, 0x30, 0x03, 0x0A, 0x01, 0x01, 0x04, 0x00, 0x88, 0x01, 0x2A,
            ],
            3,
        ),
    ];
    for (octets, len) in rows {
        assert_eq!(rt; transaction_len(octets), Some(len), "at {octets:?}");
    }
}

/// Each field of the information once, a message and a transactionIdentifier.
const WHOLE: [u8; 67] = [
    0x30, 0x41, 0x30, 0x39, 0x02, 0x01, 0x00, 0x0A, 0x01, 0x02, 0x02, 0x01, 0x05, 0x18, 0x0F, 0x32,
    0x30, 0x32, 0x35, 0x30, 0x31, 0x30, 0x31, 0x30, 0x30, 0x30, 0x30, 0x30, 0x30, 0x5A, 0xA0, 0x03,
    0x82, 0x01, 0x61, 0xA1, 0x03, 0x06, 0x01, 0x2A, 0xA2, 0x03, 0x82, 0x01, 0x62, 0xA3, 0x03, 0x86,
    0x01, 0x63, 0xA4, 0x09, 0x30, 0x07, 0x06, 0x03, 0x55, 0x1D, 0x0E, 0x04, 0x00, 0x04, 0x01, 0x61,
    0x82, 0x01, 0x64,
];

fn encoded(alloc: Global, octets: &[u8]) -> Result<Option<Vec<u8>>, AllocError> {
    if octets.len() > 1000 {
        return Ok(None);
    }
    match Request::decode(octets) {
        Ok(request) => Ok(Some(request.encode(alloc)?)),
        Err(_) => Ok(None),
    }
}

#[test]
fn written_again(rt: HostRuntime) -> Result<(), Fail> {
    match encoded(rt.alloc(), &WHOLE)? {
        None => assert!(rt; false, "it isn't read"),
        Some(octets) => assert_eq!(rt; octets.as_slice(), &WHOLE[..]),
    }
    Ok(())
}

/// Three targets: a certificate with one link and a path input, a status, and a revocation list.
const TARGETS: [u8; 43] = [
    0x30, 0x29, 0x30, 0x03, 0x0A, 0x01, 0x03, 0xA0, 0x22, 0x30, 0x13, 0xA0, 0x02, 0x05, 0x00, 0x30,
    0x04, 0xA0, 0x02, 0x05, 0x00, 0xA0, 0x07, 0x30, 0x05, 0x30, 0x03, 0x06, 0x01, 0x2A, 0x30, 0x05,
    0xA2, 0x03, 0x02, 0x01, 0x00, 0x30, 0x04, 0xA4, 0x02, 0x05, 0x00,
];

/// How many links the target at an index has, where there is one.
fn links_at(octets: &[u8], index: u32) -> Option<u32> {
    if octets.len() > 1000 {
        return None;
    }
    match Request::decode(octets) {
        Ok(request) => match request.target(index) {
            Some(target) => Some(target.chain),
            None => None,
        },
        Err(_) => None,
    }
}

#[test]
fn targets_by_index(rt: HostRuntime) {
    for (index, links) in [(0, Some(1)), (1, Some(0)), (2, Some(0)), (3, None)] {
        assert_eq!(rt; links_at(&TARGETS, index), links, "at {index}");
    }
    assert_eq!(rt; links_at(&WHOLE, 0), None);
}
