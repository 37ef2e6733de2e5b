//! A signer put together by hand from RFC 5652 5.3 and X.690. Its signatures are those of another program (bench/rfc8554.py) for
//! the key of the standard's second test case (RFC 8554, Appendix F), by their digests.

ghost use Rattle.std.specs.Prelude.{◌≡◌, ◌<◌, IfOk};
ghost use Rattle.dv_lms.specs.declared.height.Height.{Height};

use super::*;
use dv_lms::{Height, Key};
use sha2::{Digest, Sha256};
use std::alloc::{AllocError, Global};
use std::marker::Brand;
use std::sync::ledger::Blank;
use std::test::Fail;

const ID: [u8; 16] = [
    0x21, 0x5F, 0x83, 0xB7, 0xCC, 0xB9, 0xAC, 0xBC, 0xD0, 0x8D, 0xB9, 0x7B, 0x0D, 0x04, 0xDC, 0x2B,
];

const SEED: [u8; 32] = [
    0xA1, 0xC4, 0x69, 0x6E, 0x26, 0x08, 0x03, 0x5A, 0x88, 0x61, 0x00, 0xD0, 0x5C, 0xD9, 0x99, 0x45,
    0xEB, 0x33, 0x70, 0x73, 0x18, 0x84, 0xA8, 0x23, 0x5E, 0x2F, 0xB3, 0xD4, 0xD7, 0x1F, 0x25, 0x47,
];

/// What stands for a certificate: a SEQUENCE of the number 5.
const CERTIFICATE: [u8; 5] = [0x30, 0x03, 0x02, 0x01, 0x05];

/// The attributes contentType of id-data, messageDigest of `abc`, and signingCertificateV2 of the certificate.
const ATTRIBUTES: [u8; 132] = [
    0x30, 0x18, 0x06, 0x09, 0x2A, 0x86, 0x48, 0x86, 0xF7, 0x0D, 0x01, 0x09, 0x03, 0x31, 0x0B, 0x06,
    0x09, 0x2A, 0x86, 0x48, 0x86, 0xF7, 0x0D, 0x01, 0x07, 0x01, 0x30, 0x2F, 0x06, 0x09, 0x2A, 0x86,
    0x48, 0x86, 0xF7, 0x0D, 0x01, 0x09, 0x04, 0x31, 0x22, 0x04, 0x20, 0xBA, 0x78, 0x16, 0xBF, 0x8F,
    0x01, 0xCF, 0xEA, 0x41, 0x41, 0x40, 0xDE, 0x5D, 0xAE, 0x22, 0x23, 0xB0, 0x03, 0x61, 0xA3, 0x96,
    0x17, 0x7A, 0x9C, 0xB4, 0x10, 0xFF, 0x61, 0xF2, 0x00, 0x15, 0xAD, 0x30, 0x37, 0x06, 0x0B, 0x2A,
    0x86, 0x48, 0x86, 0xF7, 0x0D, 0x01, 0x09, 0x10, 0x02, 0x2F, 0x31, 0x28, 0x30, 0x26, 0x30, 0x24,
    0x30, 0x22, 0x04, 0x20, 0x41, 0x7C, 0x77, 0x63, 0xC4, 0xE3, 0x20, 0xA6, 0xB7, 0x47, 0xB3, 0xCB,
    0x0C, 0x6D, 0x22, 0xF9, 0x37, 0x41, 0xB2, 0x9A, 0x32, 0xB4, 0x85, 0x94, 0xB8, 0xEB, 0x4C, 0x14,
    0x4F, 0xE6, 0xD7, 0x29,
];

/// The SHA-256 digest of the signature with the leaf 0 of these attributes under the tag 31.
const ATTRIBUTES_SIGNED: [u8; 32] = [
    0xBB, 0x32, 0x91, 0x70, 0x5B, 0x23, 0xEA, 0x27, 0xD9, 0x08, 0x7C, 0x1F, 0xB2, 0xE7, 0x57, 0xD7,
    0x8E, 0x8A, 0xA7, 0xEB, 0xE1, 0x2D, 0x0D, 0xEA, 0x13, 0x5C, 0xD8, 0x26, 0xC2, 0xCF, 0x29, 0x06,
];

/// That of the signature with the leaf 1 of `abc`.
const CONTENT_SIGNED: [u8; 32] = [
    0xF6, 0xFD, 0x80, 0x03, 0x17, 0x87, 0x5C, 0xAB, 0x4B, 0x0B, 0x79, 0x66, 0x3E, 0x4F, 0xE9, 0x08,
    0x18, 0x86, 0x30, 0x23, 0xA0, 0x49, 0x39, 0xD9, 0x23, 0xA4, 0xF3, 0x22, 0xF8, 0xDC, 0x4F, 0x8D,
];

/// id-data and id-ct-DVCSRequestData, as whole values.
const DATA: [u8; 11] = [
    0x06, 0x09, 0x2A, 0x86, 0x48, 0x86, 0xF7, 0x0D, 0x01, 0x07, 0x01,
];

const REQUEST: [u8; 13] = [
    0x06, 0x0B, 0x2A, 0x86, 0x48, 0x86, 0xF7, 0x0D, 0x01, 0x09, 0x10, 0x01, 0x07,
];

/// The AlgorithmIdentifiers of SHA-256 and SHA-1.
const SHA_256: [u8; 13] = [
    0x30, 0x0B, 0x06, 0x09, 0x60, 0x86, 0x48, 0x01, 0x65, 0x03, 0x04, 0x02, 0x01,
];

const SHA_1: [u8; 9] = [0x30, 0x07, 0x06, 0x05, 0x2B, 0x0E, 0x03, 0x02, 0x1A];

/// That of HSS, without parameters and with NULL.
const HSS: [u8; 15] = [
    0x30, 0x0D, 0x06, 0x0B, 0x2A, 0x86, 0x48, 0x86, 0xF7, 0x0D, 0x01, 0x09, 0x10, 0x03, 0x11,
];

const HSS_NULL: [u8; 17] = [
    0x30, 0x0F, 0x06, 0x0B, 0x2A, 0x86, 0x48, 0x86, 0xF7, 0x0D, 0x01, 0x09, 0x10, 0x03, 0x11, 0x05,
    0x00,
];

/// What signed data with one signer are made of.
#[derive(Clone, Copy)]
struct Parts<'a> {
    content_type: &'a [u8],
    content: &'a [u8],
    digest_alg: &'a [u8],
    attributes: &'a [u8],
    signature_alg: &'a [u8],
    signature: &'a [u8],
}

/// A value with contents of at most 65,535 octets.
fn value(alloc: Global, tag: u8, contents: &[u8]) -> Result<Vec<u8>, AllocError> {
    let len = contents.len().min(0xFFFF);
    let (high, low) = ((len / 256) as u8, (len % 256) as u8);
    let mut octets = match len {
        0..128 => [tag, low].to_vec(alloc)?,
        128..256 => [tag, 0x81, low].to_vec(alloc)?,
        _ => [tag, 0x82, high, low].to_vec(alloc)?,
    };
    octets.extend_from_slice(contents)?;
    Ok(octets)
}

/// The SignerInfo of these parts, named by the key identifier 07; without attributes where there are no octets of them.
fn signer_of(alloc: Global, parts: &Parts<'_>) -> Result<Vec<u8>, AllocError> {
    let mut fields = [0x02, 0x01, 0x03, 0x80, 0x01, 0x07].to_vec(alloc)?;
    fields.extend_from_slice(parts.digest_alg)?;
    if !parts.attributes.is_empty() {
        fields.extend_from_slice(&value(alloc, 0xA0, parts.attributes)?)?;
    }
    fields.extend_from_slice(parts.signature_alg)?;
    fields.extend_from_slice(&value(alloc, 0x04, parts.signature)?)?;
    value(alloc, 0x30, &fields)
}

/// The SignedData of these parts.
fn signed_of(alloc: Global, parts: &Parts<'_>) -> Result<Vec<u8>, AllocError> {
    let mut encapsulated = parts.content_type.to_vec(alloc)?;
    encapsulated.extend_from_slice(&value(alloc, 0xA0, &value(alloc, 0x04, parts.content)?)?)?;
    let mut fields = [0x02, 0x01, 0x03, 0x31, 0x00].to_vec(alloc)?;
    fields.extend_from_slice(&value(alloc, 0x30, &encapsulated)?)?;
    fields.extend_from_slice(&value(alloc, 0x31, &signer_of(alloc, parts)?)?)?;
    value(alloc, 0x30, &fields)
}

fn checked<L: Ledger>(
    signed: &SignedData<'_>,
    certificate: &[u8],
    key: Option<&[u8]>,
    blank: Blank,
) -> Option<Result<(), SignerFault>>
    requires name { blank.name ≡ L.name }
    requires parts { blank.parts ≡ L.parts }
    requires some { 0 < blank.parts }
{
    let signer = signed.signer(0)?;
    if signed.content.is_none() {
        return None;
    }
    let mut checks = Steps::<L>::new(blank);
    Some(signer_check(&signer, signed, certificate, key, &mut checks))
}

/// What the check of the first signer answers; None where these aren't signed data.
fn check(octets: &[u8], certificate: &[u8], key: Option<&[u8]>) -> Option<Result<(), SignerFault>> {
    if octets.len() > 0xFFFF {
        return None;
    }
    match SignedData::decode(octets) {
        Err(_) => None,
        Ok(signed) => checked::<Brand>(&signed, certificate, key, Blank::new(1)),
    }
}

fn key(alloc: Global) -> Result<Key, AllocError>
    ensures { IfOk result (λ key. key.height ≡ Height.H5) }
{
    Key::from_seed(alloc, Height::H5, ID, SEED)
}

#[test]
fn with_attributes(rt: HostRuntime) -> Result<(), Fail> {
    let key = key(rt.alloc())?;
    let public = key.public();
    let signature = key.sign(0, &value(rt.alloc(), 0x31, &ATTRIBUTES)?);
    assert_eq!(rt; Sha256::digest(signature.as_slice()), ATTRIBUTES_SIGNED);
    let good = Parts {
        content_type: &DATA,
        content: b"abc",
        digest_alg: &SHA_256,
        attributes: &ATTRIBUTES,
        signature_alg: &HSS,
        signature: signature.as_slice(),
    };
    let octets = signed_of(rt.alloc(), &good)?;
    assert_eq!(rt; check(&octets, &CERTIFICATE, Some(&public)), Some(Ok(())));
    assert_eq!(rt;
        check(&octets, &CERTIFICATE, None),
        Some(Err(SignerFault::Signature))
    );
    assert_eq!(rt;
        check(&octets, &public, Some(&public)),
        Some(Err(SignerFault::Attribute))
    );
    let rows = [
        (
            Parts {
                digest_alg: &SHA_1,
                ..good
            },
            SignerFault::Algorithm,
        ),
        (
            Parts {
                signature_alg: &HSS_NULL,
                ..good
            },
            SignerFault::Algorithm,
        ),
        (
            Parts {
                content_type: &REQUEST,
                content: b"abd",
                ..good
            },
            SignerFault::Attribute,
        ),
        (
            Parts {
                content: b"abd",
                ..good
            },
            SignerFault::Digest,
        ),
        (
            Parts {
                signature: &signature.as_slice()[1..],
                ..good
            },
            SignerFault::Signature,
        ),
        // Attributes that are left out.
        (
            Parts {
                attributes: &[],
                ..good
            },
            SignerFault::Signature,
        ),
    ];
    for (parts, fault) in rows {
        let octets = signed_of(rt.alloc(), &parts)?;
        assert_eq!(rt;
            check(&octets, &CERTIFICATE, Some(&public)),
            Some(Err(fault)),
            "{octets:?}"
        );
    }
    Ok(())
}

#[test]
fn without_attributes(rt: HostRuntime) -> Result<(), Fail> {
    let key = key(rt.alloc())?;
    let public = key.public();
    let signature = key.sign(1, b"abc");
    assert_eq!(rt; Sha256::digest(signature.as_slice()), CONTENT_SIGNED);
    let good = Parts {
        content_type: &DATA,
        content: b"abc",
        digest_alg: &SHA_256,
        attributes: &[],
        signature_alg: &HSS,
        signature: signature.as_slice(),
    };
    let octets = signed_of(rt.alloc(), &good)?;
    assert_eq!(rt; check(&octets, &[], Some(&public)), Some(Ok(())));
    let other = Parts {
        content: b"abd",
        ..good
    };
    let octets = signed_of(rt.alloc(), &other)?;
    assert_eq!(rt;
        check(&octets, &[], Some(&public)),
        Some(Err(SignerFault::Signature))
    );
    let request = Parts {
        content_type: &REQUEST,
        ..good
    };
    let octets = signed_of(rt.alloc(), &request)?;
    assert_eq!(rt;
        check(&octets, &[], Some(&public)),
        Some(Err(SignerFault::Attribute))
    );
    Ok(())
}
