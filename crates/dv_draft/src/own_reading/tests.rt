//! The record of an own certificate, worked out by hand from X.690.

use super::*;

/// The name `a`, from 2025-01-01T00:00:00Z until 2026-01-01T00:00:00Z.
#[rattlefmt::skip]
const OWN: [u8; 39] = [
    0x30, 0x25, 0x0C, 0x01, 0x61,
    0x18, 0x0F, 0x32, 0x30, 0x32, 0x35, 0x30, 0x31, 0x30, 0x31, 0x30, 0x30, 0x30, 0x30, 0x30, 0x30, 0x5A,
    0x18, 0x0F, 0x32, 0x30, 0x32, 0x36, 0x30, 0x31, 0x30, 0x31, 0x30, 0x30, 0x30, 0x30, 0x30, 0x30, 0x5A,
];

#[test]
fn worked_own_record(rt: HostRuntime) {
    match read_own_record(&OWN) {
        Err(refusal) => assert!(rt; false, "{refusal}"),
        Ok(parts) => {
            assert_eq!(rt; parts.name, [0x61].as_slice());
            // 75 and 76 years, 19 of them with a leap day.
            assert_eq!(rt; parts.from.seconds(), (75 * 365 + 19) * 86_400);
            assert_eq!(rt; parts.until.seconds(), (76 * 365 + 19) * 86_400);
        }
    }
}

#[test]
fn name_that_is_not_utf8(rt: HostRuntime) {
    let mut octets = OWN;
    octets[4] = 0xFF;
    match read_own_record(&octets) {
        Err(refusal) => assert_eq!(rt; refusal, Der::new(2, Why::Value)),
        Ok(_) => assert!(rt; false),
    }
}
