//! Texts of identifiers, their octets worked out by hand from X.690 8.19.

use super::*;

/// Whether the text gives these octets.
fn gives(alloc: Global, text: &str, expected: &[u8]) -> bool {
    match oid_from_text(alloc, text) {
        Ok(octets) => octets.as_slice() == expected,
        Err(_) => false,
    }
}

#[test]
fn good_texts(rt: HostRuntime) {
    let good: [(&str, &[u8]); 7] = [
        (
            "1.3.6.1.5.5.7.3.10",
            &[0x2B, 0x06, 0x01, 0x05, 0x05, 0x07, 0x03, 0x0A],
        ),
        ("0.0", &[0x00]),
        ("0.39", &[0x27]),
        ("1.39", &[0x4F]),
        ("2.40", &[0x78]),
        ("2.999", &[0x88, 0x37]),
        (
            "2.18446744073709551535",
            &[0x81, 0xFF, 0xFF, 0xFF, 0xFF, 0xFF, 0xFF, 0xFF, 0xFF, 0x7F],
        ),
    ];
    for (text, octets) in good {
        assert!(rt; gives(rt.alloc(), text, octets), "at {text}");
    }
}

/// The place at which a text is no good one.
fn place_of(alloc: Global, text: &str) -> Option<usize> {
    match oid_from_text(alloc, text) {
        Err(OidText::Text { place }) => Some(place),
        _ => None,
    }
}

#[test]
fn bad_texts(rt: HostRuntime) {
    let bad: [(&str, usize); 17] = [
        ("", 0),
        (".", 0),
        (" 1.2", 0),
        ("3.1", 0),
        ("-1.2", 0),
        ("1", 1),
        ("01.2", 1),
        ("12.1", 1),
        ("1.", 2),
        ("1..2", 2),
        ("1.40", 3),
        ("1.02", 3),
        ("1.2x", 3),
        ("1.2.", 4),
        ("1.2.00", 5),
        ("2.18446744073709551536", 21),
        ("1.2.18446744073709551536", 23),
    ];
    for (text, place) in bad {
        assert_eq!(rt; place_of(rt.alloc(), text), Some(place), "at {text}");
    }
}
