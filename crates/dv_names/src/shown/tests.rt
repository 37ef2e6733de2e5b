//! Identifiers as texts, worked out by hand from X.690 8.19.

ghost use Rattle.std.specs.Prelude.{IsTrue};
ghost use Rattle.dv_schema.specs.Rules.{is_oid};

use super::*;

/// Whether these octets are shown as the text.
fn shows(alloc: Global, oid: &[u8], expected: &str) -> bool
    requires { IsTrue (is_oid oid.now) }
{
    match display(alloc, oid) {
        Ok(text) => text.as_str() == expected,
        Err(_) => false,
    }
}

#[test]
fn texts(rt: HostRuntime) {
    let dvcs = [0x2B, 0x06, 0x01, 0x05, 0x05, 0x07, 0x03, 0x0A];
    assert!(rt; shows(rt.alloc(), &dvcs, "1.3.6.1.5.5.7.3.10"));
    assert!(rt; shows(rt.alloc(), &[0x00], "0.0"));
    assert!(rt; shows(rt.alloc(), &[0x27, 0x00], "0.39.0"));
    assert!(rt; shows(rt.alloc(), &[0x28], "1.0"));
    assert!(rt; shows(rt.alloc(), &[0x88, 0x37], "2.999"));
}

#[test]
fn widest_arcs(rt: HostRuntime) {
    // 2^64 - 1 as the second arc, with 80 added, and as the third one.
    let second = [0x82, 0x80, 0x80, 0x80, 0x80, 0x80, 0x80, 0x80, 0x80, 0x4F];
    assert!(rt; shows(rt.alloc(), &second, "2.18446744073709551615"));
    let third = [
        0x2A, 0x81, 0xFF, 0xFF, 0xFF, 0xFF, 0xFF, 0xFF, 0xFF, 0xFF, 0x7F,
    ];
    assert!(rt; shows(rt.alloc(), &third, "1.2.18446744073709551615"));
}

#[test]
fn arcs_past_64_bits(rt: HostRuntime) {
    let second = [0x82, 0x80, 0x80, 0x80, 0x80, 0x80, 0x80, 0x80, 0x80, 0x50];
    match display(rt.alloc(), &second) {
        Err(error) => assert_eq!(rt; error, DisplayError::Wide),
        Ok(_) => assert!(rt; false),
    }
    let third = [
        0x2A, 0x82, 0x80, 0x80, 0x80, 0x80, 0x80, 0x80, 0x80, 0x80, 0x00, 0x01,
    ];
    match display(rt.alloc(), &third) {
        Err(error) => assert_eq!(rt; error, DisplayError::Wide),
        Ok(_) => assert!(rt; false),
    }
}
