//! Which certificates signers name, put together by hand from RFC 5652 5.3, RFC 5280 4.1.2.4 and X.690.

use super::*;
use std::test::Fail;

/// The Names of the commonName `a` and `b`, and that of no parts.
const NAME: [u8; 14] = [
    0x30, 0x0C, 0x31, 0x0A, 0x30, 0x08, 0x06, 0x03, 0x55, 0x04, 0x03, 0x0C, 0x01, 0x61,
];

const OTHER: [u8; 14] = [
    0x30, 0x0C, 0x31, 0x0A, 0x30, 0x08, 0x06, 0x03, 0x55, 0x04, 0x03, 0x0C, 0x01, 0x62,
];

const EMPTY: [u8; 2] = [0x30, 0x00];

/// A signer that is named by the issuer `a` and the serial number 7.
const BY_ISSUER: [u8; 37] = [
    0x30, 0x23, 0x02, 0x01, 0x01, 0x30, 0x11, 0x30, 0x0C, 0x31, 0x0A, 0x30, 0x08, 0x06, 0x03, 0x55,
    0x04, 0x03, 0x0C, 0x01, 0x61, 0x02, 0x01, 0x07, 0x30, 0x03, 0x06, 0x01, 0x2A, 0x30, 0x03, 0x06,
    0x01, 0x2B, 0x04, 0x01, 0xAA,
];

/// One that is named by the key identifier 07.
const BY_KEY: [u8; 21] = [
    0x30, 0x13, 0x02, 0x01, 0x03, 0x80, 0x01, 0x07, 0x30, 0x03, 0x06, 0x01, 0x2A, 0x30, 0x03, 0x06,
    0x01, 0x2B, 0x04, 0x01, 0xAA,
];

/// Whether the signer names the certificate with this issuer, serial number and key identifier; None where these aren't values.
fn is_named(signer: &[u8], issuer: &[u8], serial: &[u8], key_id: Option<&[u8]>) -> Option<bool> {
    let signer = SignerInfo::read(&mut Cursor::new(signer)).ok()?;
    let issuer = Name::read(&mut Cursor::new(issuer)).ok()?;
    Some(signer.names(&issuer, serial, key_id))
}

#[test]
fn named_certificates(rt: HostRuntime) -> Result<(), Fail> {
    // The issuer, the serial number and the key identifier of a certificate, and which of the two signers name it.
    let rows: [(&[u8], &[u8], Option<&[u8]>, bool, bool); 9] = [
        (&NAME, &[0x07], None, true, false),
        (&NAME, &[0x07], Some(&[0x09]), true, false),
        (&NAME, &[0x07], Some(&[0x07]), true, true),
        // Another issuer, which is as long, and one that is shorter.
        (&OTHER, &[0x07], None, false, false),
        (&EMPTY, &[0x07], Some(&[0x07]), false, true),
        // Another serial number, and the same number in two octets.
        (&NAME, &[0x09], Some(&[0x07]), false, true),
        (&NAME, &[0x00, 0x07], None, false, false),
        // A key identifier that begins so, and none.
        (&NAME, &[0x07], Some(&[0x07, 0x00]), true, false),
        (&NAME, &[0x07], Some(&[]), true, false),
    ];
    for (issuer, serial, key_id, by_issuer, by_key) in rows {
        assert_eq!(rt;
            is_named(&BY_ISSUER, issuer, serial, key_id),
            Some(by_issuer),
            "{issuer:?} {serial:?} {key_id:?}"
        );
        assert_eq!(rt;
            is_named(&BY_KEY, issuer, serial, key_id),
            Some(by_key),
            "{issuer:?} {serial:?} {key_id:?}"
        );
    }
    Ok(())
}
