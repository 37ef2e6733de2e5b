//! Files and their lines, worked out by hand from RFC 3029, RFC 4210 5.2.3 and X.690.

mod signed;

use super::*;
use dv_asn1::{Der, Why};
use std::alloc::{AllocError, Global};
use std::test::Fail;

/// The last octet of id-ct-DVCSRequestData, 1.2.840.113549.1.9.16.1.7.
const REQUEST: u8 = 7;

/// The last octet of id-ct-DVCSResponseData, 1.2.840.113549.1.9.16.1.8.
const RESPONSE: u8 = 8;

/// The place of the content in a message.
const CONTENT: u64 = 17;

/// The place of the failInfo in a notice's message.
const FAIL_INFO: u64 = 24;

/// The request for possession of `abc`.
const POSSESSION: [u8; 12] = [
    0x30, 0x0A, 0x30, 0x03, 0x0A, 0x01, 0x01, 0x04, 0x03, 0x61, 0x62, 0x63,
];

/// The request for the validation of a document that is no octets.
const VALIDATION: [u8; 9] = [0x30, 0x07, 0x30, 0x03, 0x0A, 0x01, 0x02, 0x04, 0x00];

/// The request for the validation of a certificate whose contents are NULL.
const CERTIFICATES: [u8; 15] = [
    0x30, 0x0D, 0x30, 0x03, 0x0A, 0x01, 0x03, 0xA0, 0x06, 0x30, 0x04, 0xA0, 0x02, 0x05, 0x00,
];

/// The request for the claim of possession of `abc`.
const CLAIM: [u8; 56] = [
    0x30, 0x36, 0x30, 0x03, 0x0A, 0x01, 0x04, 0x30, 0x2F, 0x30, 0x0B, 0x06, 0x09, 0x60, 0x86, 0x48,
    0x01, 0x65, 0x03, 0x04, 0x02, 0x01, 0x04, 0x20, 0xBA, 0x78, 0x16, 0xBF, 0x8F, 0x01, 0xCF, 0xEA,
    0x41, 0x41, 0x40, 0xDE, 0x5D, 0xAE, 0x22, 0x23, 0xB0, 0x03, 0x61, 0xA3, 0x96, 0x17, 0x7A, 0x9C,
    0xB4, 0x10, 0xFF, 0x61, 0xF2, 0x00, 0x15, 0xAD,
];

/// A request for the service of number 5, which there isn't.
const UNKNOWN_SERVICE: [u8; 12] = [
    0x30, 0x0A, 0x30, 0x03, 0x0A, 0x01, 0x05, 0x04, 0x03, 0x61, 0x62, 0x63,
];

/// A certificate of service: a DVCSCertInfo for possession, with the serial 2 and the digest AA BB.
#[rattlefmt::skip]
const CERTIFICATE: [u8; 38] = [
    0x30, 0x24, 0x30, 0x03, 0x0A, 0x01, 0x01,
    0x30, 0x09, 0x30, 0x03, 0x06, 0x01, 0x2A, 0x04, 0x02, 0xAA, 0xBB,
    0x02, 0x01, 0x02,
    0x18, 0x0F, 0x32, 0x30, 0x32, 0x35, 0x30, 0x31, 0x30, 0x31, 0x30, 0x30, 0x30, 0x30, 0x30, 0x30, 0x5A,
];

/// A ContentInfo of type id-data whose content is an empty SEQUENCE.
const DATA: [u8; 17] = [
    0x30, 0x0F, 0x06, 0x09, 0x2A, 0x86, 0x48, 0x86, 0xF7, 0x0D, 0x01, 0x07, 0x01, 0xA0, 0x02, 0x30,
    0x00,
];

/// The notice of badDataFormat.
const BAD_DATA_FORMAT: [u8; 28] = [
    0x30, 0x1A, 0x06, 0x0B, 0x2A, 0x86, 0x48, 0x86, 0xF7, 0x0D, 0x01, 0x09, 0x10, 0x01, 0x08, 0xA0,
    0x0B, 0xA0, 0x09, 0x30, 0x07, 0x02, 0x01, 0x02, 0x03, 0x02, 0x02, 0x04,
];

/// The notice of badRequest for a request whose transactionIdentifier is the host `a`.
const WITH_TRANSACTION: [u8; 31] = [
    0x30, 0x1D, 0x06, 0x0B, 0x2A, 0x86, 0x48, 0x86, 0xF7, 0x0D, 0x01, 0x09, 0x10, 0x01, 0x08, 0xA0,
    0x0E, 0xA0, 0x0C, 0x30, 0x07, 0x02, 0x01, 0x02, 0x03, 0x02, 0x05, 0x20, 0x82, 0x01, 0x61,
];

/// The ContentInfo of the type with this last octet, around a content of at most 100 octets.
fn message(alloc: Global, kind: u8, content: &[u8]) -> Result<Vec<u8>, AllocError> {
    let length = content.len().min(100) as u8;
    let mut octets = [
        0x30,
        15 + length,
        0x06,
        0x0B,
        0x2A,
        0x86,
        0x48,
        0x86,
        0xF7,
        0x0D,
        0x01,
        0x09,
        0x10,
        0x01,
        kind,
        0xA0,
        length,
    ]
    .to_vec(alloc)?;
    octets.extend_from_slice(content)?;
    Ok(octets)
}

/// The message with a rejection that has this failInfo, of at most 80 octets.
fn notice(alloc: Global, fail: &[u8]) -> Result<Vec<u8>, AllocError> {
    let length = fail.len().min(80) as u8;
    let mut content = [0xA0, 5 + length, 0x30, 3 + length, 0x02, 0x01, 0x02].to_vec(alloc)?;
    content.extend_from_slice(fail)?;
    message(alloc, RESPONSE, &content)
}

/// What a file of at most 1000 octets gets.
fn show(rt: &HostRuntime, file: &[u8]) -> Result<String, ShowFault> {
    if file.len() > 1000 {
        return Err(ShowFault::Memory);
    }
    show_values(rt.alloc(), file)
}

/// Whether a file gets this text.
fn gets(rt: &HostRuntime, file: &[u8], text: &str) -> bool {
    match show(rt, file) {
        Ok(found) => found.as_str() == text,
        Err(_) => false,
    }
}

/// Whether a file is refused so.
fn is_refused(rt: &HostRuntime, file: &[u8], place: u64, why: Why) -> bool {
    match show(rt, file) {
        Err(ShowFault::Refused(refusal)) => refusal == Der::new(place, why),
        _ => false,
    }
}

#[test]
fn a_request_of_each_service(rt: HostRuntime) -> Result<(), Fail> {
    let rows: [(&[u8], &str); 4] = [
        (&POSSESSION, "request cpd\n"),
        (&VALIDATION, "request vsd\n"),
        (&CERTIFICATES, "request cpkc\n"),
        (&CLAIM, "request ccpd\n"),
    ];
    for (content, text) in rows {
        let file = message(rt.alloc(), REQUEST, content)?;
        assert!(rt; gets(&rt, &file, text), "{text}");
    }
    Ok(())
}

#[test]
fn notices(rt: HostRuntime) -> Result<(), Fail> {
    let rows: [(&[u8], &str); 19] = [
        (&[0x03, 0x02, 0x07, 0x80], "notice badAlg\n"),
        (&[0x03, 0x02, 0x06, 0x40], "notice badMessageCheck\n"),
        (&[0x03, 0x02, 0x05, 0x20], "notice badRequest\n"),
        (&[0x03, 0x02, 0x04, 0x10], "notice badTime\n"),
        (&[0x03, 0x02, 0x03, 0x08], "notice bit 4\n"),
        (&[0x03, 0x02, 0x02, 0x04], "notice badDataFormat\n"),
        (&[0x03, 0x02, 0x01, 0x02], "notice wrongAuthority\n"),
        (&[0x03, 0x03, 0x05, 0x00, 0x20], "notice certRevoked\n"),
        (&[0x03, 0x03, 0x01, 0x00, 0x02], "notice timeNotAvailable\n"),
        (&[0x03, 0x03, 0x00, 0x00, 0x01], "notice unacceptedPolicy\n"),
        (
            &[0x03, 0x04, 0x07, 0x00, 0x00, 0x80],
            "notice unacceptedExtension\n",
        ),
        (
            &[0x03, 0x04, 0x03, 0x00, 0x00, 0x08],
            "notice signerNotTrusted\n",
        ),
        (
            &[0x03, 0x05, 0x07, 0x00, 0x00, 0x00, 0x80],
            "notice systemUnavail\n",
        ),
        (
            &[0x03, 0x05, 0x06, 0x00, 0x00, 0x00, 0x40],
            "notice systemFailure\n",
        ),
        (
            &[0x03, 0x05, 0x05, 0x00, 0x00, 0x00, 0x20],
            "notice bit 26\n",
        ),
        // Several bits: the least one is named.
        (&[0x03, 0x02, 0x04, 0x30], "notice badRequest\n"),
        (
            &[0x03, 0x05, 0x06, 0x00, 0x20, 0x00, 0x40],
            "notice certRevoked\n",
        ),
        (&[0x03, 0x02, 0x02, 0x0C], "notice bit 4\n"),
        // No failInfo.
        (&[], "notice none\n"),
    ];
    for (fail, text) in rows {
        let file = notice(rt.alloc(), fail)?;
        assert!(rt; gets(&rt, &file, text), "{text}");
    }
    Ok(())
}

#[test]
fn whole_files(rt: HostRuntime) -> Result<(), Fail> {
    assert!(rt; gets(&rt, &BAD_DATA_FORMAT, "notice badDataFormat\n"));
    assert!(rt; gets(&rt, &WITH_TRANSACTION, "notice badRequest\n"));
    let mut file = message(rt.alloc(), REQUEST, &CLAIM)?;
    file.extend_from_slice(&BAD_DATA_FORMAT)?;
    assert!(rt; gets(&rt, &file, "request ccpd\nnotice badDataFormat\n"));
    file.extend_from_slice(&message(rt.alloc(), REQUEST, &POSSESSION)?)?;
    assert!(rt;
        gets(
            &rt,
            &file,
            "request ccpd\nnotice badDataFormat\nrequest cpd\n"
        )
    );
    Ok(())
}

#[test]
fn refused_messages(rt: HostRuntime) -> Result<(), Fail> {
    let rows: [(u8, &[u8], u64, Why); 7] = [
        (REQUEST, &UNKNOWN_SERVICE, CONTENT + 4, Why::Value),
        // A notice under the type of a request, and the other way round.
        (
            REQUEST,
            &[0xA0, 0x05, 0x30, 0x03, 0x02, 0x01, 0x02],
            CONTENT,
            Why::Tag,
        ),
        (
            RESPONSE,
            &[0xA1, 0x05, 0x30, 0x03, 0x02, 0x01, 0x02],
            CONTENT,
            Why::Tag,
        ),
        // An unsigned certificate of service.
        (RESPONSE, &CERTIFICATE, CONTENT, Why::Tag),
        // No status, and another value than a transactionIdentifier behind it.
        (RESPONSE, &[0xA0, 0x00], CONTENT + 2, Why::End),
        (
            RESPONSE,
            &[0xA0, 0x07, 0x30, 0x03, 0x02, 0x01, 0x02, 0x05, 0x00],
            CONTENT + 7,
            Why::Trailing,
        ),
        // Another content type.
        (9, &POSSESSION, 2, Why::Value),
    ];
    for (kind, content, place, why) in rows {
        let file = message(rt.alloc(), kind, content)?;
        assert!(rt; is_refused(&rt, &file, place, why), "{content:?}");
    }
    Ok(())
}

#[test]
fn refused_fail_infos(rt: HostRuntime) -> Result<(), Fail> {
    let rows: [&[u8]; 4] = [
        // No bit that is set, a trailing zero bit, and bit 27.
        &[0x03, 0x01, 0x00],
        &[0x03, 0x02, 0x00, 0x00],
        &[0x03, 0x02, 0x04, 0x20],
        &[0x03, 0x05, 0x04, 0x00, 0x00, 0x00, 0x10],
    ];
    for fail in rows {
        let bad = notice(rt.alloc(), fail)?;
        assert!(rt; is_refused(&rt, &bad, FAIL_INFO, Why::Value), "{fail:?}");
        // Behind a notice of 28 octets.
        let mut file = BAD_DATA_FORMAT.to_vec(rt.alloc())?;
        file.extend_from_slice(&bad)?;
        assert!(rt;
            is_refused(&rt, &file, 28 + FAIL_INFO, Why::Value),
            "{fail:?}"
        );
    }
    Ok(())
}

#[test]
fn refused_files(rt: HostRuntime) -> Result<(), Fail> {
    assert!(rt; is_refused(&rt, &[], 0, Why::End));
    assert!(rt; is_refused(&rt, b"abc", 0, Why::Tag));
    // Behind a notice: a message of another type, another value, and half a notice.
    let rows: [(&[u8], u64, Why); 3] = [
        (&DATA, 28 + 2, Why::Value),
        (&[0x04, 0x00], 28, Why::Tag),
        (&BAD_DATA_FORMAT[..14], 28, Why::End),
    ];
    for (octets, place, why) in rows {
        let mut file = BAD_DATA_FORMAT.to_vec(rt.alloc())?;
        file.extend_from_slice(octets)?;
        assert!(rt; is_refused(&rt, &file, place, why), "{octets:?}");
    }
    Ok(())
}
