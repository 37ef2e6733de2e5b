//! Good and bad values, worked out by hand from RFC 4210 5.2.3 and X.690.

use super::*;
use crate::failure;
use std::test::Fail;

/// The status at the front of the octets, how long its texts are, and whether it has the failure bit.
fn decoded(octets: &[u8], bit: u8) -> Result<(u8, Option<usize>, bool), Der> {
    let mut cursor = Cursor::new(octets);
    match StatusInfo::decode(&mut cursor) {
        Ok(read) => Ok((read.status, text_len(&read), has_bit(&read, bit))),
        Err(refusal) => Err(refusal),
    }
}

fn text_len(read: &StatusInfo<'_>) -> Option<usize> {
    match read.text {
        None => None,
        Some(text) => Some(text.len()),
    }
}

fn has_bit(read: &StatusInfo<'_>, bit: u8) -> bool {
    match read.fail {
        None => false,
        Some(fail) => fail.has(bit),
    }
}

fn put_status(info: &StatusInfo<'_>, octets: &mut [u8]) -> usize {
    let mut out = Writer::new(octets);
    if info.encoded_len() <= out.room() {
        info.write(&mut out);
    }
    out.written()
}

#[test]
fn failure_bits(rt: HostRuntime) -> Result<(), Fail> {
    let bits: [(u8, &[u8]); 13] = [
        (failure::BAD_ALG, &[0x03, 0x02, 0x07, 0x80]),
        (failure::BAD_MESSAGE_CHECK, &[0x03, 0x02, 0x06, 0x40]),
        (failure::BAD_REQUEST, &[0x03, 0x02, 0x05, 0x20]),
        (failure::BAD_TIME, &[0x03, 0x02, 0x04, 0x10]),
        (failure::BAD_DATA_FORMAT, &[0x03, 0x02, 0x02, 0x04]),
        (failure::WRONG_AUTHORITY, &[0x03, 0x02, 0x01, 0x02]),
        (failure::CERT_REVOKED, &[0x03, 0x03, 0x05, 0x00, 0x20]),
        (failure::TIME_NOT_AVAILABLE, &[0x03, 0x03, 0x01, 0x00, 0x02]),
        (failure::UNACCEPTED_POLICY, &[0x03, 0x03, 0x00, 0x00, 0x01]),
        (
            failure::UNACCEPTED_EXTENSION,
            &[0x03, 0x04, 0x07, 0x00, 0x00, 0x80],
        ),
        (
            failure::SIGNER_NOT_TRUSTED,
            &[0x03, 0x04, 0x03, 0x00, 0x00, 0x08],
        ),
        (
            failure::SYSTEM_UNAVAIL,
            &[0x03, 0x05, 0x07, 0x00, 0x00, 0x00, 0x80],
        ),
        (
            failure::SYSTEM_FAILURE,
            &[0x03, 0x05, 0x06, 0x00, 0x00, 0x00, 0x40],
        ),
    ];
    for (bit, octets) in bits {
        if bit <= 26 {
            let mut into = [0; 12];
            let written = put_status(&StatusInfo::new(2, Some(bit)), &mut into);
            assert_eq!(rt; written, 5 + octets.len(), "at {bit}");
            assert!(rt; written <= 12);
            assert_eq!(rt; &into[5..written], octets, "at {bit}");
            assert_eq!(rt; decoded(&into, bit)?, (2, None, true), "at {bit}");
            assert_eq!(rt; decoded(&into, bit + 1)?, (2, None, false), "at {bit}");
        }
    }
    Ok(())
}

#[test]
fn spellings(rt: HostRuntime) {
    let good: [(&[u8], u8, Option<usize>); 3] = [
        (&[0x30, 0x03, 0x02, 0x01, 0x00], 0, None),
        (&[0x30, 0x03, 0x02, 0x01, 0x06], 6, None),
        (
            &[0x30, 0x08, 0x02, 0x01, 0x01, 0x30, 0x03, 0x0C, 0x01, 0xFF],
            1,
            Some(3),
        ),
    ];
    for (octets, status, text) in good {
        assert_eq!(rt;
            decoded(octets, 0),
            Ok((status, text, false)),
            "at {octets:?}"
        );
    }
    let refused: [(&[u8], u64, Why); 11] = [
        (&[0x30, 0x00], 2, Why::End),
        (&[0x30, 0x03, 0x02, 0x01, 0x07], 2, Why::Value),
        (&[0x30, 0x03, 0x02, 0x01, 0xFF], 2, Why::Value),
        (&[0x30, 0x03, 0x0A, 0x01, 0x00], 2, Why::Tag),
        (&[0x30, 0x05, 0x02, 0x01, 0x00, 0x30, 0x00], 5, Why::Value),
        (
            &[0x30, 0x08, 0x02, 0x01, 0x00, 0x30, 0x03, 0x0D, 0x01, 0x61],
            7,
            Why::Tag,
        ),
        (
            &[0x30, 0x06, 0x02, 0x01, 0x02, 0x03, 0x01, 0x00],
            5,
            Why::Value,
        ),
        (
            &[0x30, 0x07, 0x02, 0x01, 0x02, 0x03, 0x02, 0x00, 0x20],
            5,
            Why::Value,
        ),
        (
            &[0x30, 0x08, 0x02, 0x01, 0x02, 0x03, 0x03, 0x05, 0x20, 0x00],
            5,
            Why::Value,
        ),
        (
            &[
                0x30, 0x0A, 0x02, 0x01, 0x02, 0x03, 0x05, 0x04, 0x00, 0x00, 0x00, 0x10,
            ],
            5,
            Why::Value,
        ),
        (
            &[0x30, 0x05, 0x02, 0x01, 0x00, 0x05, 0x00],
            5,
            Why::Trailing,
        ),
    ];
    for (octets, place, why) in refused {
        assert_eq!(rt;
            decoded(octets, 0),
            Err(Der::new(place, why)),
            "at {octets:?}"
        );
    }
}
