//! Good and bad targets, worked out by hand from RFC 3029 and X.690.

use super::*;
use dv_asn1::Why;

/// The refusal of the octets; none where they are a target.
fn refusal(octets: &[u8]) -> Option<Der> {
    let mut cursor = Cursor::new(octets);
    match TargetChain::read(&mut cursor) {
        Ok(_) => None,
        Err(refusal) => Some(refusal),
    }
}

#[test]
fn refusals(rt: HostRuntime) {
    let rows: [(&[u8], u64, Why); 6] = [
        // No target, one of no known tag, and a certificate that holds no values.
        (&[0x30, 0x00], 2, Why::End),
        (&[0x30, 0x03, 0x82, 0x01, 0x61], 2, Why::Tag),
        (&[0x30, 0x04, 0xA0, 0x02, 0x05, 0x01], 4, Why::End),
        // A chain without a link.
        (
            &[0x30, 0x06, 0xA0, 0x02, 0x05, 0x00, 0x30, 0x00],
            6,
            Why::Value,
        ),
        // A path input before the chain.
        (
            &[
                0x30, 0x13, 0xA0, 0x02, 0x05, 0x00, 0xA0, 0x07, 0x30, 0x05, 0x30, 0x03, 0x06, 0x01,
                0x2A, 0x30, 0x04, 0xA0, 0x02, 0x05, 0x00,
            ],
            15,
            Why::Trailing,
        ),
        // A flag that is spelled out as FALSE.
        (
            &[
                0x30, 0x10, 0xA0, 0x02, 0x05, 0x00, 0xA0, 0x0A, 0x30, 0x05, 0x30, 0x03, 0x06, 0x01,
                0x2A, 0x80, 0x01, 0x00,
            ],
            15,
            Why::Value,
        ),
    ];
    for (octets, place, why) in rows {
        assert_eq!(rt;
            refusal(octets),
            Some(Der::new(place, why)),
            "at {octets:?}"
        );
    }
}

#[test]
fn tokens_of_each_form(rt: HostRuntime) {
    let rows: [&[u8]; 5] = [
        &[0x30, 0x04, 0xA0, 0x02, 0x05, 0x00],
        &[0x30, 0x05, 0xA2, 0x03, 0x02, 0x01, 0x00],
        &[0x30, 0x02, 0xA4, 0x00],
        &[0x30, 0x02, 0x30, 0x00],
        &[0x30, 0x03, 0x81, 0x01, 0x61],
    ];
    for octets in rows {
        assert_eq!(rt; refusal(octets), None, "at {octets:?}");
    }
}

/// A target with two links and a path input with two flags.
const WHOLE: [u8; 31] = [
    0x30, 0x1D, 0xA0, 0x02, 0x05, 0x00, 0x30, 0x08, 0xA0, 0x02, 0x05, 0x00, 0x81, 0x02, 0x61, 0x62,
    0xA0, 0x0D, 0x30, 0x05, 0x30, 0x03, 0x06, 0x01, 0x2A, 0x80, 0x01, 0xFF, 0x81, 0x01, 0xFF,
];

#[test]
fn each_field_once(rt: HostRuntime) {
    let mut cursor = Cursor::new(&WHOLE);
    match TargetChain::read(&mut cursor) {
        Err(refusal) => assert!(rt; false, "{refusal}"),
        Ok(target) => {
            assert_eq!(rt; target.chain, 2);
            assert!(rt;
                matches!(
                    target.link(0),
                    Some(Token::Certificate([0xA0, 0x02, 0x05, 0x00]))
                )
            );
            assert!(rt; matches!(target.link(1), Some(Token::Other([0x81, 0x02, 0x61, 0x62]))));
            assert!(rt; target.link(2).is_none());
        }
    }
}

#[test]
fn flags_of_a_path_input(rt: HostRuntime) {
    let mut cursor = Cursor::new(&WHOLE[16..]);
    match PathInput::read(&mut cursor) {
        Err(refusal) => assert!(rt; false, "{refusal}"),
        Ok(input) => {
            assert_eq!(rt; input.policies.len(), 5);
            assert!(rt; !input.inhibit_mapping);
            assert!(rt; input.explicit);
            assert!(rt; input.inhibit_any);
        }
    }
}
