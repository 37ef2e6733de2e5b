//! Good and bad information of requests, worked out by hand from RFC 3029 and X.690.

use super::*;

/// The refusal of the octets; none where they are the information of a request.
fn refusal(octets: &[u8]) -> Option<Der> {
    let mut cursor = Cursor::new(octets);
    match RequestInfo::read(&mut cursor) {
        Ok(_) => None,
        Err(refusal) => Some(refusal),
    }
}

/// How long a value is, where it is there.
fn len(octets: Option<&[u8]>) -> Option<usize> {
    match octets {
        None => None,
        Some(octets) => Some(octets.len()),
    }
}

#[test]
fn refusals(rt: HostRuntime) {
    let rows: [(&[u8], u64, Why); 6] = [
        // The version 1 spelled out, and one of 256.
        (
            &[0x30, 0x06, 0x02, 0x01, 0x01, 0x0A, 0x01, 0x01],
            2,
            Why::Value,
        ),
        (
            &[0x30, 0x07, 0x02, 0x02, 0x01, 0x00, 0x0A, 0x01, 0x01],
            2,
            Why::Value,
        ),
        // No service, and the services 0 and 5.
        (&[0x30, 0x00], 2, Why::End),
        (&[0x30, 0x03, 0x0A, 0x01, 0x00], 2, Why::Value),
        (&[0x30, 0x03, 0x0A, 0x01, 0x05], 2, Why::Value),
        // A nonce that isn't in its shortest form.
        (
            &[0x30, 0x07, 0x0A, 0x01, 0x01, 0x02, 0x02, 0x00, 0x05],
            5,
            Why::Value,
        ),
    ];
    for (octets, place, why) in rows {
        assert_eq!(rt;
            refusal(octets),
            Some(Der::new(place, why)),
            "at {octets:?}"
        );
    }
}

#[test]
fn refusals_of_tagged_fields(rt: HostRuntime) {
    let rows: [(&[u8], u64, Why); 6] = [
        // A requester without a name.
        (&[0x30, 0x05, 0x0A, 0x01, 0x01, 0xA0, 0x00], 5, Why::Value),
        // Names under the policy's tag, and a policy under the requester's.
        (
            &[0x30, 0x08, 0x0A, 0x01, 0x01, 0xA1, 0x03, 0x82, 0x01, 0x61],
            7,
            Why::Tag,
        ),
        (
            &[0x30, 0x08, 0x0A, 0x01, 0x01, 0xA0, 0x03, 0x06, 0x01, 0x2A],
            7,
            Why::Tag,
        ),
        // Data locations before the server's names.
        (
            &[
                0x30, 0x0D, 0x0A, 0x01, 0x01, 0xA3, 0x03, 0x86, 0x01, 0x63, 0xA2, 0x03, 0x82, 0x01,
                0x62,
            ],
            10,
            Why::Trailing,
        ),
        // No such day.
        (
            &[
                0x30, 0x14, 0x0A, 0x01, 0x01, 0x18, 0x0F, 0x32, 0x30, 0x32, 0x35, 0x30, 0x32, 0x32,
                0x39, 0x30, 0x30, 0x30, 0x30, 0x30, 0x30, 0x5A,
            ],
            5,
            Why::Value,
        ),
        // A second extension with one identifier.
        (
            &[
                0x30, 0x17, 0x0A, 0x01, 0x01, 0xA4, 0x12, 0x30, 0x07, 0x06, 0x03, 0x55, 0x1D, 0x0E,
                0x04, 0x00, 0x30, 0x07, 0x06, 0x03, 0x55, 0x1D, 0x0E, 0x04, 0x00,
            ],
            16,
            Why::Value,
        ),
    ];
    for (octets, place, why) in rows {
        assert_eq!(rt;
            refusal(octets),
            Some(Der::new(place, why)),
            "at {octets:?}"
        );
    }
}

#[test]
fn nonces_of_64_and_65_octets(rt: HostRuntime) {
    let mut octets = [0x01; 71];
    octets[0] = 0x30;
    octets[1] = 0x45;
    octets[2] = 0x0A;
    octets[5] = 0x02;
    octets[6] = 0x40;
    assert_eq!(rt; refusal(&octets), None);
    let mut longer = [0x01; 72];
    longer[0] = 0x30;
    longer[1] = 0x46;
    longer[2] = 0x0A;
    longer[5] = 0x02;
    longer[6] = 0x41;
    assert_eq!(rt; refusal(&longer), Some(Der::new(5, Why::Value)));
}

/// Each field once.
const WHOLE: [u8; 59] = [
    0x30, 0x39, 0x02, 0x01, 0x00, 0x0A, 0x01, 0x02, 0x02, 0x01, 0x05, 0x18, 0x0F, 0x32, 0x30, 0x32,
    0x35, 0x30, 0x31, 0x30, 0x31, 0x30, 0x30, 0x30, 0x30, 0x30, 0x30, 0x5A, 0xA0, 0x03, 0x82, 0x01,
    0x61, 0xA1, 0x03, 0x06, 0x01, 0x2A, 0xA2, 0x03, 0x82, 0x01, 0x62, 0xA3, 0x04, 0x86, 0x02, 0x63,
    0x64, 0xA4, 0x08, 0x30, 0x06, 0x06, 0x02, 0x2A, 0x03, 0x04, 0x00,
];

#[test]
fn each_field_once(rt: HostRuntime) {
    let mut cursor = Cursor::new(&WHOLE);
    match RequestInfo::read(&mut cursor) {
        Err(refusal) => assert!(rt; false, "{refusal}"),
        Ok(info) => {
            assert_eq!(rt; info.raw.len(), 59);
            assert_eq!(rt; info.version, 0);
            assert_eq!(rt; info.service, Service::Vsd);
            assert_eq!(rt; len(info.nonce), Some(1));
            assert_eq!(rt; len(info.requester), Some(3));
            assert!(rt; info.policy.is_some());
            assert_eq!(rt; len(info.dvcs), Some(3));
            assert_eq!(rt; len(info.locations), Some(4));
            assert_eq!(rt; len(info.extensions), Some(8));
        }
    }
}
