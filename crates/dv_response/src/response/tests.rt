//! Good and bad responses, worked out by hand from RFC 3029 and X.690.

use super::*;
use dv_asn1::Why;

/// The refusal of the octets; none where they are a response.
fn refusal(octets: &[u8]) -> Option<Der> {
    match Response::decode(octets) {
        Ok(_) => None,
        Err(refusal) => Some(refusal),
    }
}

#[test]
fn refusals(rt: HostRuntime) {
    let rows: [(&[u8], u64, Why); 5] = [
        (&[], 0, Why::End),
        (&[0xA1, 0x00], 0, Why::Tag),
        // No status.
        (&[0xA0, 0x00], 2, Why::End),
        // Another value than a transactionIdentifier behind the status, and one behind the notice.
        (
            &[0xA0, 0x07, 0x30, 0x03, 0x02, 0x01, 0x02, 0x05, 0x00],
            7,
            Why::Trailing,
        ),
        (
            &[0xA0, 0x05, 0x30, 0x03, 0x02, 0x01, 0x02, 0x05, 0x00],
            7,
            Why::Trailing,
        ),
    ];
    for (octets, place, why) in rows {
        assert_eq!(rt;
            refusal(octets),
            Some(Der::new(place, why)),
            "at {octets:?}"
        );
    }
}

/// A rejection for badRequest whose request had the transactionIdentifier of the host `a`.
const NOTICE_OCTETS: [u8; 14] = [
    0xA0, 0x0C, 0x30, 0x07, 0x02, 0x01, 0x02, 0x03, 0x02, 0x05, 0x20, 0x82, 0x01, 0x61,
];

#[test]
fn a_notice(rt: HostRuntime) {
    match Response::decode(&NOTICE_OCTETS) {
        Ok(Response::Refused(notice)) => {
            assert_eq!(rt; notice.status.status, 2);
            match notice.transaction {
                None => assert!(rt; false, "no transactionIdentifier"),
                Some(octets) => assert_eq!(rt; octets, [0x82, 0x01, 0x61].as_slice()),
            }
        }
        _ => assert!(rt; false, "no notice"),
    }
}
