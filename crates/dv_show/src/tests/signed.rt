//! Messages that are signed data, without certificates and without signers.

use super::*;

/// The place of the SignedData in its message.
const DATA_PLACE: u64 = 15;

/// The place of the encapContentInfo, that of its eContentType, and that of the content's first octet.
const ENCAPSULATED: u64 = 22;

const CONTENT_TYPE: u64 = 24;

const OCTETS: u64 = 41;

/// A certificate of service for possession of `abc`, with the serial 2, at 20250101000000Z.
const POSSESSED: [u8; 76] = [
    0x30, 0x4A, 0x30, 0x03, 0x0A, 0x01, 0x01, 0x30, 0x2F, 0x30, 0x0B, 0x06, 0x09, 0x60, 0x86, 0x48,
    0x01, 0x65, 0x03, 0x04, 0x02, 0x01, 0x04, 0x20, 0xBA, 0x78, 0x16, 0xBF, 0x8F, 0x01, 0xCF, 0xEA,
    0x41, 0x41, 0x40, 0xDE, 0x5D, 0xAE, 0x22, 0x23, 0xB0, 0x03, 0x61, 0xA3, 0x96, 0x17, 0x7A, 0x9C,
    0xB4, 0x10, 0xFF, 0x61, 0xF2, 0x00, 0x15, 0xAD, 0x02, 0x01, 0x02, 0x18, 0x0F, 0x32, 0x30, 0x32,
    0x35, 0x30, 0x31, 0x30, 0x31, 0x30, 0x30, 0x30, 0x30, 0x30, 0x30, 0x5A,
];

/// A message of type id-signedData, around a content of this type, of at most 86 octets.
fn signed(alloc: Global, kind: u8, content: &[u8]) -> Result<Vec<u8>, AllocError> {
    let length = content.len().min(86) as u8;
    let mut octets = [
        0x30,
        41 + length,
        0x06,
        0x09,
        0x2A,
        0x86,
        0x48,
        0x86,
        0xF7,
        0x0D,
        0x01,
        0x07,
        0x02,
        0xA0,
        28 + length,
        0x30,
        26 + length,
        0x02,
        0x01,
        0x03,
        0x31,
        0x00,
        0x30,
        17 + length,
        0x06,
        0x0B,
        0x2A,
        0x86,
        0x48,
        0x86,
        0xF7,
        0x0D,
        0x01,
        0x09,
        0x10,
        0x01,
        kind,
        0xA0,
        2 + length,
        0x04,
        length,
    ]
    .to_vec(alloc)?;
    octets.extend_from_slice(content)?;
    octets.extend_from_slice(&[0x31, 0x00])?;
    Ok(octets)
}

/// A certificate of service at 20250101000000Z: the number of its service, its imprint, the serial number as a whole value, and
/// what follows the moment. It has at most 86 octets.
fn certificate(
    alloc: Global,
    service: u8,
    imprint: &[u8],
    serial: &[u8],
    more: &[u8],
) -> Result<Vec<u8>, AllocError> {
    let mut fields = [0x30, 0x03, 0x0A, 0x01, service].to_vec(alloc)?;
    fields.extend_from_slice(imprint)?;
    fields.extend_from_slice(serial)?;
    fields.extend_from_slice(&[0x18, 0x0F])?;
    fields.extend_from_slice(b"20250101000000Z")?;
    fields.extend_from_slice(more)?;
    let length = fields.len().min(84) as u8;
    let mut octets = [0x30, length].to_vec(alloc)?;
    octets.extend_from_slice(&fields)?;
    signed(alloc, RESPONSE, &octets)
}

/// A message of type id-signedData of this version, without content of this type.
fn absent(version: u8, kind: u8) -> [u8; 39] {
    [
        0x30, 0x25, 0x06, 0x09, 0x2A, 0x86, 0x48, 0x86, 0xF7, 0x0D, 0x01, 0x07, 0x02, 0xA0, 0x18,
        0x30, 0x16, 0x02, 0x01, version, 0x31, 0x00, 0x30, 0x0D, 0x06, 0x0B, 0x2A, 0x86, 0x48,
        0x86, 0xF7, 0x0D, 0x01, 0x09, 0x10, 0x01, kind, 0x31, 0x00,
    ]
}

/// An imprint AA BB by the algorithm 1.2, and a serial number.
const IMPRINT: [u8; 11] = [
    0x30, 0x09, 0x30, 0x03, 0x06, 0x01, 0x2A, 0x04, 0x02, 0xAA, 0xBB,
];

const SERIAL: [u8; 3] = [0x02, 0x01, 0x02];

#[test]
fn signed_contents(rt: HostRuntime) -> Result<(), Fail> {
    let rows: [(u8, &[u8], &str); 7] = [
        (REQUEST, &POSSESSION, "request cpd signed\n"),
        (REQUEST, &VALIDATION, "request vsd signed\n"),
        (REQUEST, &CERTIFICATES, "request cpkc signed\n"),
        (REQUEST, &CLAIM, "request ccpd signed\n"),
        (
            RESPONSE,
            &[0xA0, 0x05, 0x30, 0x03, 0x02, 0x01, 0x02],
            "notice none\n",
        ),
        (
            RESPONSE,
            &[
                0xA0, 0x09, 0x30, 0x07, 0x02, 0x01, 0x02, 0x03, 0x02, 0x02, 0x04,
            ],
            "notice badDataFormat\n",
        ),
        (
            RESPONSE,
            &POSSESSED,
            "certificate cpd serial 02 time 20250101000000Z imprint sha256 ba7816bf8f01cfea414140de5dae2223b00361a396177a9cb410ff61f20015ad status none\n",
        ),
    ];
    for (kind, content, text) in rows {
        let file = signed(rt.alloc(), kind, content)?;
        assert!(rt; gets(&rt, &file, text), "{text}");
    }
    Ok(())
}

#[test]
fn services_serials_and_statuses(rt: HostRuntime) -> Result<(), Fail> {
    let rows: [(u8, &[u8], &[u8], &str); 9] = [
        (
            2,
            &SERIAL,
            &[0xA0, 0x03, 0x02, 0x01, 0x00],
            "certificate vsd serial 02 time 20250101000000Z imprint 1.2 aabb status granted\n",
        ),
        (
            3,
            &SERIAL,
            &[0xA0, 0x03, 0x02, 0x01, 0x01],
            "certificate cpkc serial 02 time 20250101000000Z imprint 1.2 aabb status grantedWithMods\n",
        ),
        (
            4,
            &SERIAL,
            &[0xA0, 0x03, 0x02, 0x01, 0x02],
            "certificate ccpd serial 02 time 20250101000000Z imprint 1.2 aabb status rejection\n",
        ),
        (
            1,
            &SERIAL,
            &[0xA0, 0x03, 0x02, 0x01, 0x03],
            "certificate cpd serial 02 time 20250101000000Z imprint 1.2 aabb status other 3\n",
        ),
        (
            1,
            &SERIAL,
            &[0xA0, 0x03, 0x02, 0x01, 0x06],
            "certificate cpd serial 02 time 20250101000000Z imprint 1.2 aabb status other 6\n",
        ),
        // A rejection with a failure bit, and a policy without a status.
        (
            2,
            &SERIAL,
            &[0xA0, 0x07, 0x02, 0x01, 0x02, 0x03, 0x02, 0x06, 0x40],
            "certificate vsd serial 02 time 20250101000000Z imprint 1.2 aabb status rejection\n",
        ),
        (
            1,
            &SERIAL,
            &[0xA1, 0x03, 0x06, 0x01, 0x2A],
            "certificate cpd serial 02 time 20250101000000Z imprint 1.2 aabb status none\n",
        ),
        // Serial numbers as they stand, also a negative one.
        (
            1,
            &[0x02, 0x01, 0x80],
            &[],
            "certificate cpd serial 80 time 20250101000000Z imprint 1.2 aabb status none\n",
        ),
        (
            1,
            &[0x02, 0x03, 0x00, 0xFF, 0x0A],
            &[],
            "certificate cpd serial 00ff0a time 20250101000000Z imprint 1.2 aabb status none\n",
        ),
    ];
    for (service, serial, more, text) in rows {
        let file = certificate(rt.alloc(), service, &IMPRINT, serial, more)?;
        assert!(rt; gets(&rt, &file, text), "{text}");
    }
    Ok(())
}

#[test]
fn algorithms(rt: HostRuntime) -> Result<(), Fail> {
    let rows: [(&[u8], &str); 7] = [
        // SHA-256 with NULL, SHA-384 and SHA-512 without parameters.
        (
            &[
                0x30, 0x11, 0x30, 0x0D, 0x06, 0x09, 0x60, 0x86, 0x48, 0x01, 0x65, 0x03, 0x04, 0x02,
                0x01, 0x05, 0x00, 0x04, 0x00,
            ],
            "certificate cpd serial 02 time 20250101000000Z imprint sha256  status none\n",
        ),
        (
            &[
                0x30, 0x10, 0x30, 0x0B, 0x06, 0x09, 0x60, 0x86, 0x48, 0x01, 0x65, 0x03, 0x04, 0x02,
                0x02, 0x04, 0x01, 0x0F,
            ],
            "certificate cpd serial 02 time 20250101000000Z imprint sha384 0f status none\n",
        ),
        (
            &[
                0x30, 0x10, 0x30, 0x0B, 0x06, 0x09, 0x60, 0x86, 0x48, 0x01, 0x65, 0x03, 0x04, 0x02,
                0x03, 0x04, 0x01, 0xF0,
            ],
            "certificate cpd serial 02 time 20250101000000Z imprint sha512 f0 status none\n",
        ),
        // SHA-256 with other parameters.
        (
            &[
                0x30, 0x12, 0x30, 0x0D, 0x06, 0x09, 0x60, 0x86, 0x48, 0x01, 0x65, 0x03, 0x04, 0x02,
                0x01, 0x04, 0x00, 0x04, 0x01, 0xAA,
            ],
            "certificate cpd serial 02 time 20250101000000Z imprint 2.16.840.1.101.3.4.2.1 aa status none\n",
        ),
        // SHA-1, and arcs of 2^64 - 1 and 2^64.
        (
            &[
                0x30, 0x0C, 0x30, 0x07, 0x06, 0x05, 0x2B, 0x0E, 0x03, 0x02, 0x1A, 0x04, 0x01, 0xAA,
            ],
            "certificate cpd serial 02 time 20250101000000Z imprint 1.3.14.3.2.26 aa status none\n",
        ),
        (
            &[
                0x30, 0x12, 0x30, 0x0D, 0x06, 0x0B, 0x2A, 0x81, 0xFF, 0xFF, 0xFF, 0xFF, 0xFF, 0xFF,
                0xFF, 0xFF, 0x7F, 0x04, 0x01, 0xAA,
            ],
            "certificate cpd serial 02 time 20250101000000Z imprint 1.2.18446744073709551615 aa status none\n",
        ),
        (
            &[
                0x30, 0x12, 0x30, 0x0D, 0x06, 0x0B, 0x2A, 0x82, 0x80, 0x80, 0x80, 0x80, 0x80, 0x80,
                0x80, 0x80, 0x00, 0x04, 0x01, 0xAA,
            ],
            "certificate cpd serial 02 time 20250101000000Z imprint wide aa status none\n",
        ),
    ];
    for (imprint, text) in rows {
        let file = certificate(rt.alloc(), 1, imprint, &SERIAL, &[])?;
        assert!(rt; gets(&rt, &file, text), "{text}");
    }
    Ok(())
}

#[test]
fn refused_contents(rt: HostRuntime) -> Result<(), Fail> {
    let rows: [(u8, &[u8], u64, Why); 7] = [
        // Another content type, also around a request.
        (9, &POSSESSION, CONTENT_TYPE, Why::Value),
        (4, &[0xFF], CONTENT_TYPE, Why::Value),
        // A notice under the type of a request, and the other way round.
        (REQUEST, &BAD_DATA_FORMAT[17..], OCTETS, Why::Tag),
        (RESPONSE, &[0x05, 0x00], OCTETS, Why::Tag),
        // A service that there isn't, an octet behind a request, and no octets.
        (REQUEST, &UNKNOWN_SERVICE, OCTETS + 4, Why::Value),
        (
            REQUEST,
            &[0x30, 0x07, 0x30, 0x03, 0x0A, 0x01, 0x02, 0x04, 0x00, 0x00],
            OCTETS + 9,
            Why::Trailing,
        ),
        (RESPONSE, &[], OCTETS, Why::End),
    ];
    for (kind, content, place, why) in rows {
        let file = signed(rt.alloc(), kind, content)?;
        assert!(rt; is_refused(&rt, &file, place, why), "{content:?}");
        // Behind a notice of 28 octets.
        let mut longer = BAD_DATA_FORMAT.to_vec(rt.alloc())?;
        longer.extend_from_slice(&file)?;
        assert!(rt; is_refused(&rt, &longer, 28 + place, why), "{content:?}");
    }
    Ok(())
}

#[test]
fn refused_signed_data(rt: HostRuntime) {
    // No content of either type, another type without content, and a version that there isn't.
    assert!(rt; is_refused(&rt, &absent(3, REQUEST), ENCAPSULATED, Why::Value));
    assert!(rt; is_refused(&rt, &absent(3, RESPONSE), ENCAPSULATED, Why::Value));
    assert!(rt; is_refused(&rt, &absent(3, 9), CONTENT_TYPE, Why::Value));
    assert!(rt; is_refused(&rt, &absent(6, 9), DATA_PLACE + 2, Why::Value));
    // No SignedData at all, and one with an octet behind it, which the ContentInfo refuses.
    let none = [
        0x30, 0x0F, 0x06, 0x09, 0x2A, 0x86, 0x48, 0x86, 0xF7, 0x0D, 0x01, 0x07, 0x02, 0xA0, 0x02,
        0x05, 0x00,
    ];
    assert!(rt; is_refused(&rt, &none, DATA_PLACE, Why::Tag));
    let more = [
        0x30, 0x10, 0x06, 0x09, 0x2A, 0x86, 0x48, 0x86, 0xF7, 0x0D, 0x01, 0x07, 0x02, 0xA0, 0x03,
        0x30, 0x00, 0x00,
    ];
    assert!(rt; is_refused(&rt, &more, DATA_PLACE + 2, Why::Trailing));
}
