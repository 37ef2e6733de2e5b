//! Good and bad contents of records, worked out by hand from RFC 3029 and X.690.

use super::*;
use dv_asn1::Why;
use dv_names::DigestKind;
use dv_time::Moment;
use dv_x509::{OwnParts, own_certificate, own_tbs};
use std::test::Fail;

/// The place of a draft behind one certificate of 1,571 octets.
const DRAFT_PLACE: u64 = 1575;

/// At 2025-01-01T00:00:00Z, for the SHA-256 digest of `abc`.
#[rattlefmt::skip]
const DRAFT: [u8; 73] = [
    0x30, 0x47, 0x30, 0x03, 0x0A, 0x01, 0x01,
    0x30, 0x2F, 0x30, 0x0B, 0x06, 0x09, 0x60, 0x86, 0x48, 0x01, 0x65, 0x03, 0x04, 0x02, 0x01,
    0x04, 0x20, 0xBA, 0x78, 0x16, 0xBF, 0x8F, 0x01, 0xCF, 0xEA, 0x41, 0x41, 0x40, 0xDE, 0x5D, 0xAE, 0x22, 0x23,
    0xB0, 0x03, 0x61, 0xA3, 0x96, 0x17, 0x7A, 0x9C, 0xB4, 0x10, 0xFF, 0x61, 0xF2, 0x00, 0x15, 0xAD,
    0x18, 0x0F, 0x32, 0x30, 0x32, 0x35, 0x30, 0x31, 0x30, 0x31, 0x30, 0x30, 0x30, 0x30, 0x30, 0x30, 0x5A,
];

/// The same with the serial number 2.
#[rattlefmt::skip]
const WITH_SERIAL: [u8; 76] = [
    0x30, 0x4A, 0x30, 0x03, 0x0A, 0x01, 0x01,
    0x30, 0x2F, 0x30, 0x0B, 0x06, 0x09, 0x60, 0x86, 0x48, 0x01, 0x65, 0x03, 0x04, 0x02, 0x01,
    0x04, 0x20, 0xBA, 0x78, 0x16, 0xBF, 0x8F, 0x01, 0xCF, 0xEA, 0x41, 0x41, 0x40, 0xDE, 0x5D, 0xAE, 0x22, 0x23,
    0xB0, 0x03, 0x61, 0xA3, 0x96, 0x17, 0x7A, 0x9C, 0xB4, 0x10, 0xFF, 0x61, 0xF2, 0x00, 0x15, 0xAD,
    0x02, 0x01, 0x02,
    0x18, 0x0F, 0x32, 0x30, 0x32, 0x35, 0x30, 0x31, 0x30, 0x31, 0x30, 0x30, 0x30, 0x30, 0x30, 0x30, 0x5A,
];

/// The same with a digest of 31 octets.
#[rattlefmt::skip]
const SHORT_DIGEST: [u8; 72] = [
    0x30, 0x46, 0x30, 0x03, 0x0A, 0x01, 0x01,
    0x30, 0x2E, 0x30, 0x0B, 0x06, 0x09, 0x60, 0x86, 0x48, 0x01, 0x65, 0x03, 0x04, 0x02, 0x01,
    0x04, 0x1F, 0xBA, 0x78, 0x16, 0xBF, 0x8F, 0x01, 0xCF, 0xEA, 0x41, 0x41, 0x40, 0xDE, 0x5D, 0xAE, 0x22, 0x23,
    0xB0, 0x03, 0x61, 0xA3, 0x96, 0x17, 0x7A, 0x9C, 0xB4, 0x10, 0xFF, 0x61, 0xF2, 0x00, 0x15,
    0x18, 0x0F, 0x32, 0x30, 0x32, 0x35, 0x30, 0x31, 0x30, 0x31, 0x30, 0x30, 0x30, 0x30, 0x30, 0x30, 0x5A,
];

/// The same with the status 2 and the failure bits 1 and 2.
#[rattlefmt::skip]
const TWO_BITS: [u8; 82] = [
    0x30, 0x50, 0x30, 0x03, 0x0A, 0x01, 0x01,
    0x30, 0x2F, 0x30, 0x0B, 0x06, 0x09, 0x60, 0x86, 0x48, 0x01, 0x65, 0x03, 0x04, 0x02, 0x01,
    0x04, 0x20, 0xBA, 0x78, 0x16, 0xBF, 0x8F, 0x01, 0xCF, 0xEA, 0x41, 0x41, 0x40, 0xDE, 0x5D, 0xAE, 0x22, 0x23,
    0xB0, 0x03, 0x61, 0xA3, 0x96, 0x17, 0x7A, 0x9C, 0xB4, 0x10, 0xFF, 0x61, 0xF2, 0x00, 0x15, 0xAD,
    0x18, 0x0F, 0x32, 0x30, 0x32, 0x35, 0x30, 0x31, 0x30, 0x31, 0x30, 0x30, 0x30, 0x30, 0x30, 0x30, 0x5A,
    0xA0, 0x07, 0x02, 0x01, 0x02, 0x03, 0x02, 0x05, 0x60,
];

/// An own certificate for the year 2025, with a made-up key and a made-up signature.
fn certificate(alloc: Global) -> Result<Vec<u8>, AllocError> {
    let Some(from) = Moment::from_unix(1_735_689_600) else {
        return Err(AllocError);
    };
    let Some(until) = Moment::from_unix(1_767_225_600) else {
        return Err(AllocError);
    };
    let parts = OwnParts {
        name: "notary".as_bytes(),
        from,
        until,
    };
    let tbs = own_tbs(alloc, &parts, &[0x22; 60], 1)?;
    let signature = vec![in alloc; 0x33u8; 1296]?;
    own_certificate(alloc, &tbs, &signature)
}

/// So many certificates, up to 41, and the draft.
fn contents(alloc: Global, count: usize, draft: &[u8]) -> Result<Vec<u8>, AllocError> {
    let certificate = certificate(alloc)?;
    let mut certificates = Vec::new(alloc);
    for _ in 0..count {
        certificates.extend_from_slice(&certificate)?;
    }
    let Ok(length) = u16::try_from(certificates.len()) else {
        return Err(AllocError);
    };
    let [high, low] = length.to_be_bytes();
    let mut octets = Vec::new(alloc);
    octets.extend_from_slice(&[0x30, 0x82, high, low])?;
    octets.extend_from_slice(&certificates)?;
    octets.extend_from_slice(draft)?;
    Ok(octets)
}

/// The refusal of the contents; none where they are a record.
fn refusal(alloc: Global, contents: &[u8]) -> Option<ReadRecord> {
    match read_record(alloc, contents) {
        Ok(_) => None,
        Err(cause) => Some(cause),
    }
}

/// The refusal of one certificate and this draft.
fn draft_refusal(alloc: Global, draft: &[u8]) -> Result<Option<ReadRecord>, AllocError> {
    let octets = contents(alloc, 1, draft)?;
    Ok(refusal(alloc, &octets))
}

#[test]
fn worked_record(rt: HostRuntime) -> Result<(), Fail> {
    let octets = contents(rt.alloc(), 1, &DRAFT)?;
    match read_record(rt.alloc(), &octets) {
        Err(cause) => assert!(rt; false, "{cause}"),
        Ok((draft, certificates)) => {
            assert_eq!(rt; certificates.len(), 1);
            assert_eq!(rt;
                draft.info.as_slice(),
                [0x30, 0x03, 0x0A, 0x01, 0x01].as_slice()
            );
            assert_eq!(rt; draft.imprint.kind, DigestKind::Sha256);
            assert!(rt; !draft.imprint.with_null);
            assert_eq!(rt; draft.imprint.digest.as_slice().len(), 32);
            // 75 years, 19 of them with a leap day.
            assert_eq!(rt; draft.time.seconds(), (75 * 365 + 19) * 86_400);
            assert!(rt; draft.status.is_none());
            assert!(rt; draft.policy.is_none());
            assert!(rt; draft.req_signature.is_none());
            assert!(rt; draft.certs.is_none());
        }
    }
    Ok(())
}

#[test]
fn serial_in_a_draft(rt: HostRuntime) -> Result<(), Fail> {
    let refused = draft_refusal(rt.alloc(), &WITH_SERIAL)?;
    let tag = Der::new(DRAFT_PLACE + 56, Why::Tag);
    assert_eq!(rt; refused, Some(ReadRecord::Der(tag)));
    Ok(())
}

#[test]
fn digest_of_31_octets(rt: HostRuntime) -> Result<(), Fail> {
    let refused = draft_refusal(rt.alloc(), &SHORT_DIGEST)?;
    let value = Der::new(DRAFT_PLACE + 7, Why::Value);
    assert_eq!(rt; refused, Some(ReadRecord::Der(value)));
    Ok(())
}

#[test]
fn unknown_algorithm(rt: HostRuntime) -> Result<(), Fail> {
    let mut draft = DRAFT;
    // SHA-224.
    draft[21] = 0x04;
    let refused = draft_refusal(rt.alloc(), &draft)?;
    let value = Der::new(DRAFT_PLACE + 7, Why::Value);
    assert_eq!(rt; refused, Some(ReadRecord::Der(value)));
    Ok(())
}

#[test]
fn two_failure_bits(rt: HostRuntime) -> Result<(), Fail> {
    let refused = draft_refusal(rt.alloc(), &TWO_BITS)?;
    let value = Der::new(DRAFT_PLACE + 73, Why::Value);
    assert_eq!(rt; refused, Some(ReadRecord::Der(value)));
    Ok(())
}

#[test]
fn numbers_of_certificates(rt: HostRuntime) -> Result<(), Fail> {
    let six = contents(rt.alloc(), 6, &DRAFT)?;
    assert_eq!(rt; refusal(rt.alloc(), &six), None);
    let seven = contents(rt.alloc(), 7, &DRAFT)?;
    let value = ReadRecord::Der(Der::new(0, Why::Value));
    assert_eq!(rt; refusal(rt.alloc(), &seven), Some(value));
    assert_eq!(rt; refusal(rt.alloc(), &[0x30, 0x00]), Some(value));
    Ok(())
}
