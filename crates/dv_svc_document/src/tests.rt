//! Documents that are written here, octet by octet (RFC 5652 3, 5; RFC 5280 4.1; RFC 3029 7.5, 7.6 and 8; X.690), and signed by
//! keys that are made here. What is expected of them was found by hand.

ghost use Rattle.std.specs.Prelude.{◌≡◌, ◌<◌, ◌^◌, length};
ghost use Rattle.dv_lms.specs.declared.height.Height.TheVariants.{H5};

use crate::{DocumentBag, answer_vsd, document_bag, judge_signer};
use dv_draft::{Draft, Server};
use dv_lms::{Height, Key, Steps};
use dv_path::Trust;
use dv_request::{Data, Request};
use dv_signed::SignedData;
use dv_time::Moment;
use std::alloc::{AllocError, Global};
use std::marker::Brand;
use std::sync::ledger::{Blank, Ledger};
use std::test::Fail;

/// 2026-01-01T00:00:00Z, when the certificates end.
const END: u64 = 1_767_225_600;

/// The information of a request without a time, with the moment when the certificates end, and with the second behind it.
const INFO: &[u8] = &[0x30, 0x03, 0x0A, 0x01, 0x02];

const INFO_AT_END: &[u8] = b"\x30\x14\x0A\x01\x02\x18\x0F20260101000000Z";

const INFO_BEHIND: &[u8] = b"\x30\x14\x0A\x01\x02\x18\x0F20260101000001Z";

/// The statuses of a signer as tokens: granted, and rejection with badAlg, badMessageCheck and signerNotTrusted.
const GRANTED: &[u8] = &[0xA2, 0x03, 0x02, 0x01, 0x00];

const BAD_ALG: &[u8] = &[0xA2, 0x07, 0x02, 0x01, 0x02, 0x03, 0x02, 0x07, 0x80];

const BAD_MESSAGE_CHECK: &[u8] = &[0xA2, 0x07, 0x02, 0x01, 0x02, 0x03, 0x02, 0x06, 0x40];

const SIGNER_NOT_TRUSTED: &[u8] = &[
    0xA2, 0x09, 0x02, 0x01, 0x02, 0x03, 0x04, 0x03, 0x00, 0x00, 0x08,
];

/// The algorithms SHA-256 and HSS, and HSS with the parameters NULL, which isn't known.
const SHA_256: &[u8] = &[
    0x30, 0x0B, 0x06, 0x09, 0x60, 0x86, 0x48, 0x01, 0x65, 0x03, 0x04, 0x02, 0x01,
];

const HSS: &[u8] = &[
    0x30, 0x0D, 0x06, 0x0B, 0x2A, 0x86, 0x48, 0x86, 0xF7, 0x0D, 0x01, 0x09, 0x10, 0x03, 0x11,
];

const HSS_WITH_NULL: &[u8] = &[
    0x30, 0x0F, 0x06, 0x0B, 0x2A, 0x86, 0x48, 0x86, 0xF7, 0x0D, 0x01, 0x09, 0x10, 0x03, 0x11, 0x05,
    0x00,
];

/// A Validity that ends in the year 2026 when it begins, and the version 3 of a certificate.
const VALIDITY: &[u8] = b"\x30\x1E\x17\x0D250101000000Z\x17\x0D260101000000Z";

const VERSION: &[u8] = &[0xA0, 0x03, 0x02, 0x01, 0x02];

/// The extensions of an authority, of a holder who may sign documents, and of one who may not.
const CA: &[u8] = &[
    0xA3, 0x13, 0x30, 0x11, 0x30, 0x0F, 0x06, 0x03, 0x55, 0x1D, 0x13, 0x01, 0x01, 0xFF, 0x04, 0x05,
    0x30, 0x03, 0x01, 0x01, 0xFF,
];

const HOLDER: &[u8] = &[
    0xA3, 0x12, 0x30, 0x10, 0x30, 0x0E, 0x06, 0x03, 0x55, 0x1D, 0x0F, 0x01, 0x01, 0xFF, 0x04, 0x04,
    0x03, 0x02, 0x07, 0x80,
];

const ENCIPHERER: &[u8] = &[
    0xA3, 0x12, 0x30, 0x10, 0x30, 0x0E, 0x06, 0x03, 0x55, 0x1D, 0x0F, 0x01, 0x01, 0xFF, 0x04, 0x04,
    0x03, 0x02, 0x05, 0x20,
];

/// The content abc, of type id-data, and the same type without content.
const CONTENT: &[u8] = b"\x30\x12\x06\x09\x2A\x86\x48\x86\xF7\x0D\x01\x07\x01\xA0\x05\x04\x03abc";

const NO_CONTENT: &[u8] = b"\x30\x0B\x06\x09\x2A\x86\x48\x86\xF7\x0D\x01\x07\x01";

/// The identifier id-signedData.
const SIGNED_DATA: &[u8] = b"\x06\x09\x2A\x86\x48\x86\xF7\x0D\x01\x07\x02";

/// A certificate that doesn't decode.
const EMPTY: &[u8] = &[0x30, 0x00];

/// A key with its public octets.
#[derive(Drop)]
struct Signer {
    key: Key,
    public: [u8; 60],
    ghost height: { key.height ≡ H5 },
}

/// The key of this number.
fn make_signer(alloc: Global, number: u8) -> Result<Signer, AllocError> {
    let key = Key::from_seed(alloc, Height::H5, [number; 16], [number; 32])?;
    let public = key.public();
    Ok(Signer { key, public })
}

/// A value with this tag.
fn tlv(alloc: Global, tag: u8, contents: &[u8]) -> Result<Vec<u8>, AllocError> {
    let len = contents.len();
    if len > 0xFFFF {
        return Err(AllocError);
    }
    let mut octets = Vec::new(alloc);
    octets.push(tag)?;
    if len < 128 {
        octets.push(len as u8)?;
    } else if len < 256 {
        octets.extend_from_slice(&[0x81, len as u8])?;
    } else {
        octets.extend_from_slice(&[0x82, (len / 256) as u8, (len % 256) as u8])?;
    }
    octets.extend_from_slice(contents)?;
    Ok(octets)
}

/// These octets one after another.
fn joined(alloc: Global, parts: &[&[u8]]) -> Result<Vec<u8>, AllocError> {
    let mut octets = Vec::new(alloc);
    for part in parts {
        octets.extend_from_slice(part)?;
    }
    Ok(octets)
}

/// A value with this tag of these octets.
fn value(alloc: Global, tag: u8, parts: &[&[u8]]) -> Result<Vec<u8>, AllocError> {
    let contents = joined(alloc, parts)?;
    tlv(alloc, tag, &contents)
}

/// A SEQUENCE of these octets.
fn sequence(alloc: Global, parts: &[&[u8]]) -> Result<Vec<u8>, AllocError> {
    value(alloc, 0x30, parts)
}

/// The Name whose common name is this letter.
fn name(letter: u8) -> [u8; 14] {
    [
        0x30, 0x0C, 0x31, 0x0A, 0x30, 0x08, 0x06, 0x03, 0x55, 0x04, 0x03, 0x0C, 0x01, letter,
    ]
}

/// The certificate with this serial number of a subject with this key, by an issuer that signs with that key.
fn certificate(
    alloc: Global,
    serial: u8,
    subject: (u8, &Signer),
    issuer: (u8, &Signer),
    extensions: &[u8],
) -> Result<Vec<u8>, AllocError> {
    let bits = value(alloc, 0x03, &[&[0], &subject.1.public])?;
    let info = sequence(alloc, &[HSS, &bits])?;
    let number = [0x02, 0x01, serial];
    let (by, of) = (name(issuer.0), name(subject.0));
    let tbs = sequence(
        alloc,
        &[VERSION, &number, HSS, &by, VALIDITY, &of, &info, extensions],
    )?;
    let signature = issuer.1.key.sign(0, &tbs);
    let bits = value(alloc, 0x03, &[&[0], signature.as_slice()])?;
    sequence(alloc, &[&tbs, HSS, &bits])
}

/// The anchor of this certificate.
fn trust_of(alloc: Global, certificate: &[u8]) -> Result<Trust, AllocError> {
    match Trust::decode(alloc, certificate) {
        Ok(trust) => Ok(trust),
        Err(_) => Err(AllocError),
    }
}

/// A signer that names the certificate with this issuer and serial number, with these octets as its signature of the content.
fn signer_info(
    alloc: Global,
    issuer: u8,
    serial: u8,
    algorithm: &[u8],
    signature: &[u8],
) -> Result<Vec<u8>, AllocError> {
    let sid = sequence(alloc, &[&name(issuer), &[0x02, 0x01, serial]])?;
    let signature = tlv(alloc, 0x04, signature)?;
    sequence(
        alloc,
        &[&[0x02, 0x01, 0x01], &sid, SHA_256, algorithm, &signature],
    )
}

/// The octets with the last bit changed.
fn changed(alloc: Global, octets: &[u8]) -> Result<Vec<u8>, AllocError> {
    match octets {
        [] => Ok(Vec::new(alloc)),
        [front @ .., last] => joined(alloc, &[front, &[*last ^ 1]]),
    }
}

/// The SignedData with these contents, certificates and signers.
fn signed_data(
    alloc: Global,
    encapsulated: &[u8],
    certificates: &[&[u8]],
    signers: &[&[u8]],
) -> Result<Vec<u8>, AllocError> {
    let digests = tlv(alloc, 0x31, SHA_256)?;
    let certificates = value(alloc, 0xA0, certificates)?;
    let signers = value(alloc, 0x31, signers)?;
    sequence(
        alloc,
        &[
            &[0x02, 0x01, 0x01],
            &digests,
            encapsulated,
            &certificates,
            &signers,
        ],
    )
}

/// The message that holds it.
fn message_of(alloc: Global, signed: &[u8]) -> Result<Vec<u8>, AllocError> {
    let content = tlv(alloc, 0xA0, signed)?;
    sequence(alloc, &[SIGNED_DATA, &content])
}

/// The SHA-256 digest of abc (FIPS 180-4).
const DIGEST: [u8; 32] = [
    0xBA, 0x78, 0x16, 0xBF, 0x8F, 0x01, 0xCF, 0xEA, 0x41, 0x41, 0x40, 0xDE, 0x5D, 0xAE, 0x22, 0x23,
    0xB0, 0x03, 0x61, 0xA3, 0x96, 0x17, 0x7A, 0x9C, 0xB4, 0x10, 0xFF, 0x61, 0xF2, 0x00, 0x15, 0xAD,
];

/// The server, whose certificate is this one.
fn server(alloc: Global, certificate: &[u8]) -> Result<Server, AllocError> {
    let certificate = certificate.to_vec(alloc)?;
    let certificates = Vec::from_array(alloc, [certificate])?;
    match Server::new(certificates, None) {
        None => Err(AllocError),
        Some(server) => Ok(server),
    }
}

/// The draft for a request at a moment of Unix time.
fn answered_in<L: Ledger>(
    alloc: Global,
    content: &[u8],
    moment: u64,
    anchor: &[u8],
    blank: Blank,
) -> Result<Draft, AllocError>
    requires short { length content.now < 2 ^ 32 }
    requires name { blank.name ≡ L.name }
    requires parts { blank.parts ≡ L.parts }
    requires some { 0 < blank.parts }
{
    let mut checks = Steps::<L>::new(blank);
    let server = server(alloc, anchor)?;
    let trust = trust_of(alloc, anchor)?;
    let Some(moment) = Moment::from_unix(moment) else {
        return Err(AllocError);
    };
    let Ok(request) = Request::decode(content) else {
        return Err(AllocError);
    };
    match request.matter {
        Data::Message(_) => {
            answer_vsd(alloc, &request, moment, &server, &trust, None, &mut checks)
        }
        _ => Err(AllocError),
    }
}

/// The same, of a request for this message with this information, where the certificate is the only anchor.
fn answered(
    alloc: Global,
    anchor: &[u8],
    moment: u64,
    info: &[u8],
    message: &[u8],
) -> Result<Draft, AllocError> {
    let octets = tlv(alloc, 0x04, message)?;
    let content = sequence(alloc, &[info, &octets])?;
    if content.len() > 0xFFFF {
        return Err(AllocError);
    }
    answered_in::<Brand>(alloc, &content, moment, anchor, Blank::new(1))
}

/// Whether the draft has this status and failure bit and these entries, of no octets where there are none.
fn is_draft(draft: &Draft, status: u8, bit: Option<u8>, certs: &[u8]) -> bool {
    let Some(own) = &draft.status else {
        return false;
    };
    let same = match &draft.certs {
        None => certs.is_empty(),
        Some(entries) => entries.as_slice() == certs,
    };
    same && own.status == status && own.bit == bit
}

/// Whether a document with this content, these certificates and these signers is rejected with the failure bit, without entries.
fn is_refused(
    alloc: Global,
    anchor: &[u8],
    encapsulated: &[u8],
    certificates: &[&[u8]],
    signers: &[&[u8]],
    bit: u8,
) -> Result<bool, AllocError> {
    let signed = signed_data(alloc, encapsulated, certificates, signers)?;
    let message = message_of(alloc, &signed)?;
    let draft = answered(alloc, anchor, END, INFO, &message)?;
    Ok(is_draft(&draft, 2, Some(bit), &[]))
}

/// The certificate as a token.
fn token(alloc: Global, certificate: &[u8]) -> Result<Vec<u8>, AllocError> {
    joined(alloc, &[&[0xA0], certificate.get(1..).unwrap_or(&[])])
}

/// The entry of a signer with this certificate, those above it, as tokens, and this status.
fn entry(
    alloc: Global,
    certificate: &[u8],
    above: &[u8],
    status: &[u8],
) -> Result<Vec<u8>, AllocError> {
    let own = token(alloc, certificate)?;
    let chain = sequence(alloc, &[above, status])?;
    sequence(alloc, &[&own, &chain])
}

/// The first octets where a signature holds, and else the others.
fn pick<'a>(holds: bool, octets: &'a [u8], others: &'a [u8]) -> &'a [u8] {
    if holds { octets } else { others }
}

/// Why a document with these certificates has no bag, or how many the bag has.
fn bag_of(alloc: Global, certificates: &[&[u8]]) -> Result<Result<usize, DocumentBag>, AllocError> {
    let octets = signed_data(alloc, CONTENT, certificates, &[])?;
    if octets.len() > 0xFFFF {
        return Err(AllocError);
    }
    let Ok(signed) = SignedData::decode(&octets) else {
        return Err(AllocError);
    };
    match document_bag(alloc, &signed) {
        Ok(bag) => Ok(Ok(bag.len())),
        Err(fault) => Ok(Err(fault)),
    }
}

/// The anchor, the certificates that documents bring along, and the signature of the content abc by their holders, which all have
/// one key: a holder whose certificate the anchor's key issued, and two below an authority, one of whom may not sign documents.
#[derive(Drop)]
struct Parties {
    anchor: Vec<u8>,
    authority: Vec<u8>,
    near: Vec<u8>,
    far: Vec<u8>,
    encipherer: Vec<u8>,
    signature: Vec<u8>,
}

fn make_parties(alloc: Global) -> Result<Parties, AllocError> {
    let (root, other) = (make_signer(alloc, 1)?, make_signer(alloc, 2)?);
    Ok(Parties {
        anchor: certificate(alloc, 1, (b'R', &root), (b'R', &root), CA)?,
        authority: certificate(alloc, 2, (b'M', &other), (b'R', &root), CA)?,
        near: certificate(alloc, 3, (b'A', &other), (b'R', &root), HOLDER)?,
        far: certificate(alloc, 4, (b'B', &other), (b'M', &other), HOLDER)?,
        encipherer: certificate(alloc, 5, (b'C', &other), (b'M', &other), ENCIPHERER)?,
        signature: other.key.sign(1, b"abc").as_slice().to_vec(alloc)?,
    })
}

/// The certificate that the holder of a key issues to itself.
fn make_anchor(alloc: Global) -> Result<Vec<u8>, AllocError> {
    let root = make_signer(alloc, 1)?;
    certificate(alloc, 1, (b'R', &root), (b'R', &root), CA)
}

/// The draft for a document with the content abc, these certificates and these signers, when the certificates end.
fn validated(
    alloc: Global,
    anchor: &[u8],
    certificates: &[&[u8]],
    signers: &[&[u8]],
) -> Result<Draft, AllocError> {
    let signed = signed_data(alloc, CONTENT, certificates, signers)?;
    let message = message_of(alloc, &signed)?;
    answered(alloc, anchor, END, INFO, &message)
}

#[test]
fn documents_with_two_signers(rt: HostRuntime) -> Result<(), Fail> {
    let alloc = rt.alloc();
    let all = make_parties(alloc)?;
    let above = token(alloc, &all.authority)?;
    let bad = changed(alloc, &all.signature)?;

    // Both signatures hold; one bit of the first, of the second, and of both is changed.
    let rows = [
        (true, true, 0, None),
        (false, true, 1, None),
        (true, false, 1, None),
        (false, false, 2, Some(1)),
    ];
    for (first, second, status, bit) in rows {
        let one = signer_info(alloc, b'R', 3, HSS, pick(first, &all.signature, &bad))?;
        let two = signer_info(alloc, b'M', 4, HSS, pick(second, &all.signature, &bad))?;
        let certificates: [&[u8]; 3] = [&all.far, &all.near, &all.authority];
        let draft = validated(alloc, &all.anchor, &certificates, &[&one, &two])?;
        let near = entry(
            alloc,
            &all.near,
            &[],
            pick(first, GRANTED, BAD_MESSAGE_CHECK),
        )?;
        let far = entry(
            alloc,
            &all.far,
            pick(second, &above, &[]),
            pick(second, GRANTED, BAD_MESSAGE_CHECK),
        )?;
        let certs = joined(alloc, &[&near, &far])?;
        assert!(rt; is_draft(&draft, status, bit, &certs));
    }
    Ok(())
}

#[test]
fn signers_that_are_not_trusted(rt: HostRuntime) -> Result<(), Fail> {
    let alloc = rt.alloc();
    let all = make_parties(alloc)?;
    let above = token(alloc, &all.authority)?;
    let certificates: [&[u8]; 3] = [&all.near, &all.encipherer, &all.authority];

    // An algorithm that isn't known, with and without a certificate; a signer that names no certificate; and one whose key may not
    // sign documents, with its path.
    let rows = [
        (
            b'R',
            3,
            HSS_WITH_NULL,
            0,
            entry(alloc, &all.near, &[], BAD_ALG)?,
        ),
        (b'R', 9, HSS_WITH_NULL, 0, sequence(alloc, &[BAD_ALG])?),
        (b'R', 9, HSS, 20, sequence(alloc, &[SIGNER_NOT_TRUSTED])?),
        (
            b'M',
            5,
            HSS,
            20,
            entry(alloc, &all.encipherer, &above, SIGNER_NOT_TRUSTED)?,
        ),
    ];
    for (issuer, serial, algorithm, bit, certs) in &rows {
        let signer = signer_info(alloc, *issuer, *serial, algorithm, &all.signature)?;
        let draft = validated(alloc, &all.anchor, &certificates, &[&signer])?;
        assert!(rt; is_draft(&draft, 2, Some(*bit), certs));
    }

    // No path leads from the certificate without the authority's.
    let signer = signer_info(alloc, b'M', 4, HSS, &all.signature)?;
    let draft = validated(alloc, &all.anchor, &[&all.far], &[&signer])?;
    let certs = entry(alloc, &all.far, &[], SIGNER_NOT_TRUSTED)?;
    assert!(rt; is_draft(&draft, 2, Some(20), &certs));
    Ok(())
}

#[test]
fn documents_without_a_result(rt: HostRuntime) -> Result<(), Fail> {
    let alloc = rt.alloc();
    let anchor = make_anchor(alloc)?;
    let own = anchor.as_slice();
    let signer = signer_info(alloc, b'R', 1, HSS, &[])?;
    let signer = signer.as_slice();

    // No signer, and nine; seventeen certificates, one that doesn't decode, and no content.
    assert!(rt; is_refused(alloc, own, CONTENT, &[own], &[], 1)?);
    assert!(rt; is_refused(alloc, own, CONTENT, &[own], &[signer; 9], 5)?);
    assert!(rt; is_refused(alloc, own, CONTENT, &[own; 17], &[signer], 5)?);
    assert!(rt; is_refused(alloc, own, CONTENT, &[own, EMPTY], &[signer], 5)?);
    assert!(rt; is_refused(alloc, own, NO_CONTENT, &[own], &[signer], 5)?);
    Ok(())
}

#[test]
fn a_message_that_is_no_document(rt: HostRuntime) -> Result<(), Fail> {
    let alloc = rt.alloc();
    let anchor = make_anchor(alloc)?;
    let draft = answered(alloc, &anchor, END, INFO, b"abc")?;
    assert!(rt; is_draft(&draft, 2, Some(5), &[]));
    assert_eq!(rt; draft.info.as_slice(), INFO);
    assert_eq!(rt; draft.imprint.digest.as_slice(), DIGEST.as_slice());
    assert!(rt; !draft.imprint.with_null);
    assert_eq!(rt; Some(draft.time), Moment::from_unix(END));
    assert!(rt; draft.policy.is_none() && draft.req_signature.is_none());
    Ok(())
}

#[test]
fn moments_of_validation(rt: HostRuntime) -> Result<(), Fail> {
    let alloc = rt.alloc();
    let all = make_parties(alloc)?;
    let signer = signer_info(alloc, b'R', 3, HSS, &all.signature)?;
    let signed = signed_data(alloc, CONTENT, &[&all.near], &[&signer])?;
    let message = message_of(alloc, &signed)?;
    let granted = entry(alloc, &all.near, &[], GRANTED)?;
    let rejected = entry(alloc, &all.near, &[], SIGNER_NOT_TRUSTED)?;

    // At the end of the certificate, and a second later: at the moment of service, and at the time of the request.
    for (moment, info) in [(END, INFO), (END + 86_400, INFO_AT_END)] {
        let draft = answered(alloc, &all.anchor, moment, info, &message)?;
        assert!(rt; is_draft(&draft, 0, None, &granted));
    }
    for (moment, info) in [(END + 1, INFO), (END + 86_400, INFO_BEHIND)] {
        let draft = answered(alloc, &all.anchor, moment, info, &message)?;
        assert!(rt; is_draft(&draft, 2, Some(20), &rejected));
    }
    Ok(())
}

#[test]
fn bags_of_documents(rt: HostRuntime) -> Result<(), Fail> {
    let alloc = rt.alloc();
    let anchor = make_anchor(alloc)?;
    let own = anchor.as_slice();
    assert_eq!(rt; bag_of(alloc, &[])?, Ok(0));
    assert_eq!(rt; bag_of(alloc, &[own; 16])?, Ok(16));
    assert_eq!(rt; bag_of(alloc, &[own; 17])?, Err(DocumentBag::TooMany));
    assert!(rt;
        matches!(
            bag_of(alloc, &[own, &[0xA1, 0x00], own, EMPTY, EMPTY])?,
            Err(DocumentBag::Bad { index: 2, .. })
        )
    );
    Ok(())
}
