//! Good and bad certificates of service, worked out by hand from RFC 3029 and X.690.

ghost use Rattle.std.specs.Prelude.{◌≤◌, length};

use super::*;

/// The refusal of the octets; none where they are a certificate of service.
fn refusal(octets: &[u8]) -> Option<Der> {
    match CertInfo::decode(octets) {
        Ok(_) => None,
        Err(refusal) => Some(refusal),
    }
}

/// Serial number 2, and a digest of two octets.
#[rattlefmt::skip]
const SHORT: [u8; 38] = [
    0x30, 0x24, 0x30, 0x03, 0x0A, 0x01, 0x01,
    0x30, 0x09, 0x30, 0x03, 0x06, 0x01, 0x2A, 0x04, 0x02, 0xAA, 0xBB,
    0x02, 0x01, 0x02,
    0x18, 0x0F, 0x32, 0x30, 0x32, 0x35, 0x30, 0x31, 0x30, 0x31, 0x30, 0x30, 0x30, 0x30, 0x30, 0x30, 0x5A,
];

/// The same with these octets behind the time.
fn refusal_with(tail: &[u8]) -> Option<Der>
    requires { length tail.now ≤ 26 }
{
    let mut octets = [0; 64];
    octets[..38].copy_from_slice(&SHORT);
    octets[1] = 36 + tail.len() as u8;
    let end = 38 + tail.len();
    octets[38..end].copy_from_slice(tail);
    refusal(&octets[..end])
}

#[test]
fn refusals_in_front(rt: HostRuntime) {
    let rows: [(&[u8], u64, Why); 5] = [
        // The version 1 spelled out, another one, and one that isn't whole.
        (&[0x30, 0x03, 0x02, 0x01, 0x01], 2, Why::Value),
        (&[0x30, 0x03, 0x02, 0x01, 0x02], 2, Why::Value),
        (&[0x30, 0x03, 0x02, 0x02, 0x01], 2, Why::End),
        // No information, and another type in its place.
        (&[0x30, 0x00], 2, Why::End),
        (&[0x30, 0x02, 0x04, 0x00], 2, Why::Tag),
    ];
    for (octets, place, why) in rows {
        assert_eq!(rt;
            refusal(octets),
            Some(Der::new(place, why)),
            "at {octets:?}"
        );
    }
}

#[test]
fn refusals_of_one_octet(rt: HostRuntime) {
    assert_eq!(rt; refusal(&SHORT), None);
    let rows: [(usize, u8, u64, Why); 4] = [
        // The serial number under another tag, and a token in place of the time.
        (18, 0x03, 18, Why::Tag),
        (21, 0x30, 21, Why::Tag),
        // A month 91, and a length that goes past the whole.
        (27, 0x39, 21, Why::Value),
        (22, 0x10, 21, Why::End),
    ];
    for (at, octet, place, why) in rows {
        let mut octets = SHORT;
        if at < 38 {
            octets[at] = octet;
        }
        assert_eq!(rt; refusal(&octets), Some(Der::new(place, why)), "at {at}");
    }
}

#[test]
fn refusals_behind_the_time(rt: HostRuntime) {
    let rows: [(&[u8], u64, Why); 6] = [
        // A status 7, a policy without an identifier, and a signer that is none.
        (&[0xA0, 0x03, 0x02, 0x01, 0x07], 40, Why::Value),
        (&[0xA1, 0x00], 40, Why::End),
        (&[0xA2, 0x02, 0x05, 0x00], 40, Why::Tag),
        // No target, and no extension.
        (&[0xA3, 0x00], 38, Why::Value),
        (&[0x30, 0x00], 38, Why::Value),
        // A status behind the policy.
        (
            &[0xA1, 0x03, 0x06, 0x01, 0x2A, 0xA0, 0x03, 0x02, 0x01, 0x00],
            43,
            Why::Trailing,
        ),
    ];
    for (octets, place, why) in rows {
        if octets.len() <= 26 {
            assert_eq!(rt;
                refusal_with(octets),
                Some(Der::new(place, why)),
                "at {octets:?}"
            );
        }
    }
}

/// A signer of version 3 that is named by a key identifier.
const SIGNER: [u8; 23] = [
    0xA2, 0x15, 0x30, 0x13, 0x02, 0x01, 0x03, 0x80, 0x01, 0x07, 0x30, 0x03, 0x06, 0x01, 0x2A, 0x30,
    0x03, 0x06, 0x01, 0x2A, 0x04, 0x01, 0x55,
];

#[test]
fn signers(rt: HostRuntime) {
    assert_eq!(rt; refusal_with(&[0xA2, 0x00]), None);
    assert_eq!(rt; refusal_with(&SIGNER), None);
    let mut octets = SIGNER;
    octets[6] = 0x02;
    assert_eq!(rt; refusal_with(&octets), Some(Der::new(42, Why::Value)));
    octets[6] = 0x01;
    assert_eq!(rt; refusal_with(&octets), None);
    octets[7] = 0x81;
    assert_eq!(rt; refusal_with(&octets), Some(Der::new(45, Why::Tag)));
}

/// Serial number 2, at 2025-01-01T00:00:00Z, for the SHA-256 digest of `abc`.
#[rattlefmt::skip]
const WORKED: [u8; 76] = [
    0x30, 0x4A, 0x30, 0x03, 0x0A, 0x01, 0x01,
    0x30, 0x2F, 0x30, 0x0B, 0x06, 0x09, 0x60, 0x86, 0x48, 0x01, 0x65, 0x03, 0x04, 0x02, 0x01,
    0x04, 0x20, 0xBA, 0x78, 0x16, 0xBF, 0x8F, 0x01, 0xCF, 0xEA, 0x41, 0x41, 0x40, 0xDE, 0x5D, 0xAE, 0x22, 0x23,
    0xB0, 0x03, 0x61, 0xA3, 0x96, 0x17, 0x7A, 0x9C, 0xB4, 0x10, 0xFF, 0x61, 0xF2, 0x00, 0x15, 0xAD,
    0x02, 0x01, 0x02,
    0x18, 0x0F, 0x32, 0x30, 0x32, 0x35, 0x30, 0x31, 0x30, 0x31, 0x30, 0x30, 0x30, 0x30, 0x30, 0x30, 0x5A,
];

#[test]
fn worked_certificate(rt: HostRuntime) {
    match CertInfo::decode(&WORKED) {
        Err(refusal) => assert!(rt; false, "{refusal}"),
        Ok(info) => {
            assert_eq!(rt; info.info.raw.len(), 5);
            assert_eq!(rt; info.imprint.digest.len(), 32);
            assert_eq!(rt; info.serial, [0x02].as_slice());
            // 75 years, 19 of them with a leap day.
            assert_eq!(rt; info.time.seconds(), (75 * 365 + 19) * 86_400);
            assert!(rt; info.status.is_none());
            assert!(rt; info.policy.is_none());
            assert!(rt; info.certs.is_none());
        }
    }
}
