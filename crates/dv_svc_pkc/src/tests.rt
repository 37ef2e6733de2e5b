//! Requests with certificates that are written here, octet by octet (RFC 3029 7.5, 7.6 and 8; RFC 5280 4.1; X.690), and signed
//! by keys that are made here where a path is wanted. The paths, and the octets that are expected, were found by hand; the
//! digest comes from another program (FIPS 180-4).

ghost use Rattle.std.specs.Prelude.{◌≡◌, ◌<◌, ◌^◌, length};
ghost use Rattle.dv_lms.specs.declared.height.Height.TheVariants.{H5};

use crate::answer_cpkc;
use dv_draft::{Answer, Server};
use dv_lms::{Height, Key, Steps};
use dv_path::Trust;
use dv_request::{Data, Request};
use dv_time::Moment;
use std::alloc::{AllocError, Global};
use std::marker::Brand;
use std::sync::ledger::{Blank, Ledger};
use std::test::Fail;

/// 2026-01-01T00:00:00Z, when the certificates end.
const END: u64 = 1_767_225_600;

/// The information of a request without a time, with the moment when the certificates end, and with the second behind it.
const INFO: &[u8] = &[0x30, 0x03, 0x0A, 0x01, 0x03];

const INFO_AT_END: &[u8] = b"\x30\x14\x0A\x01\x03\x18\x0F20260101000000Z";

const INFO_BEHIND: &[u8] = b"\x30\x14\x0A\x01\x03\x18\x0F20260101000001Z";

/// The statuses of a target as tokens: granted, and rejection with signerNotTrusted.
const GRANTED: &[u8] = &[0xA2, 0x03, 0x02, 0x01, 0x00];

const REJECTED: &[u8] = &[
    0xA2, 0x09, 0x02, 0x01, 0x02, 0x03, 0x04, 0x03, 0x00, 0x00, 0x08,
];

/// A certificate token that doesn't decode, and a target that is no more.
const EMPTY: &[u8] = &[0xA0, 0x00];

const EMPTY_TARGET: &[u8] = &[0x30, 0x02, 0xA0, 0x00];

/// A target that is a status.
const STATUS_TARGET: &[u8] = &[0x30, 0x05, 0xA2, 0x03, 0x02, 0x01, 0x00];

/// A path input with the policy 1.2.3.1 alone, and with all three flags.
const INPUT: &[u8] = &[
    0xA0, 0x09, 0x30, 0x07, 0x30, 0x05, 0x06, 0x03, 0x2A, 0x03, 0x01,
];

const INPUT_WITH_FLAGS: &[u8] = &[
    0xA0, 0x12, 0x30, 0x07, 0x30, 0x05, 0x06, 0x03, 0x2A, 0x03, 0x01, 0x01, 0x01, 0xFF, 0x80, 0x01,
    0xFF, 0x81, 0x01, 0xFF,
];

/// The policy of the server: 1.2.3.
const POLICY: [u8; 4] = [0x06, 0x02, 0x2A, 0x03];

/// The SHA-256 digest of the list of one target, the certificate below under A0 with the path input that has all flags.
const DIGEST: [u8; 32] = [
    0x80, 0x4D, 0xB7, 0xBD, 0x25, 0xEE, 0xE8, 0x94, 0x9C, 0x02, 0x67, 0x86, 0x2D, 0x96, 0x77, 0xF8,
    0x3D, 0x6F, 0x5C, 0x3E, 0x52, 0xD2, 0x59, 0x2B, 0x4B, 0x39, 0x92, 0x5A, 0x36, 0x47, 0xD7, 0x64,
];

/// The certificate that a register's holder issues to itself under the name notary, with a signature that doesn't verify.
const CERTIFICATE: [u8; 276] = [
    0x30, 0x82, 0x01, 0x10, 0x30, 0x81, 0xF8, 0xA0, 0x03, 0x02, 0x01, 0x02, 0x02, 0x01, 0x01, 0x30,
    0x0D, 0x06, 0x0B, 0x2A, 0x86, 0x48, 0x86, 0xF7, 0x0D, 0x01, 0x09, 0x10, 0x03, 0x11, 0x30, 0x11,
    0x31, 0x0F, 0x30, 0x0D, 0x06, 0x03, 0x55, 0x04, 0x03, 0x0C, 0x06, 0x6E, 0x6F, 0x74, 0x61, 0x72,
    0x79, 0x30, 0x1E, 0x17, 0x0D, 0x32, 0x35, 0x30, 0x31, 0x30, 0x31, 0x30, 0x30, 0x30, 0x30, 0x30,
    0x30, 0x5A, 0x17, 0x0D, 0x32, 0x36, 0x30, 0x31, 0x30, 0x31, 0x30, 0x30, 0x30, 0x30, 0x30, 0x30,
    0x5A, 0x30, 0x11, 0x31, 0x0F, 0x30, 0x0D, 0x06, 0x03, 0x55, 0x04, 0x03, 0x0C, 0x06, 0x6E, 0x6F,
    0x74, 0x61, 0x72, 0x79, 0x30, 0x4E, 0x30, 0x0D, 0x06, 0x0B, 0x2A, 0x86, 0x48, 0x86, 0xF7, 0x0D,
    0x01, 0x09, 0x10, 0x03, 0x11, 0x03, 0x3D, 0x00, 0x00, 0x00, 0x00, 0x01, 0x00, 0x00, 0x00, 0x05,
    0x00, 0x00, 0x00, 0x04, 0x11, 0x11, 0x11, 0x11, 0x11, 0x11, 0x11, 0x11, 0x11, 0x11, 0x11, 0x11,
    0x11, 0x11, 0x11, 0x11, 0x22, 0x22, 0x22, 0x22, 0x22, 0x22, 0x22, 0x22, 0x22, 0x22, 0x22, 0x22,
    0x22, 0x22, 0x22, 0x22, 0x22, 0x22, 0x22, 0x22, 0x22, 0x22, 0x22, 0x22, 0x22, 0x22, 0x22, 0x22,
    0x22, 0x22, 0x22, 0x22, 0xA3, 0x49, 0x30, 0x47, 0x30, 0x0E, 0x06, 0x03, 0x55, 0x1D, 0x0F, 0x01,
    0x01, 0xFF, 0x04, 0x04, 0x03, 0x02, 0x06, 0xC0, 0x30, 0x16, 0x06, 0x03, 0x55, 0x1D, 0x25, 0x01,
    0x01, 0xFF, 0x04, 0x0C, 0x30, 0x0A, 0x06, 0x08, 0x2B, 0x06, 0x01, 0x05, 0x05, 0x07, 0x03, 0x0A,
    0x30, 0x1D, 0x06, 0x03, 0x55, 0x1D, 0x0E, 0x04, 0x16, 0x04, 0x14, 0x82, 0x54, 0x7D, 0x46, 0x3A,
    0xDB, 0x5F, 0x88, 0x16, 0x92, 0xF4, 0x01, 0x91, 0x06, 0x21, 0xE6, 0x01, 0xD0, 0xB1, 0x28, 0x30,
    0x0D, 0x06, 0x0B, 0x2A, 0x86, 0x48, 0x86, 0xF7, 0x0D, 0x01, 0x09, 0x10, 0x03, 0x11, 0x03, 0x04,
    0x00, 0x01, 0x02, 0x03,
];

/// The algorithm HSS, and a Validity that ends in the year 2026 when it begins.
const ALGORITHM: &[u8] = &[
    0x30, 0x0D, 0x06, 0x0B, 0x2A, 0x86, 0x48, 0x86, 0xF7, 0x0D, 0x01, 0x09, 0x10, 0x03, 0x11,
];

const VALIDITY: &[u8] = b"\x30\x1E\x17\x0D250101000000Z\x17\x0D260101000000Z";

/// The version 3 and the serial number 1.
const START: &[u8] = &[0xA0, 0x03, 0x02, 0x01, 0x02, 0x02, 0x01, 0x01];

/// The extensions of an authority, and of another holder.
const CA: &[u8] = &[
    0xA3, 0x13, 0x30, 0x11, 0x30, 0x0F, 0x06, 0x03, 0x55, 0x1D, 0x13, 0x01, 0x01, 0xFF, 0x04, 0x05,
    0x30, 0x03, 0x01, 0x01, 0xFF,
];

const HOLDER: &[u8] = &[
    0xA3, 0x12, 0x30, 0x10, 0x30, 0x0E, 0x06, 0x03, 0x55, 0x1D, 0x0F, 0x01, 0x01, 0xFF, 0x04, 0x04,
    0x03, 0x02, 0x07, 0x80,
];

/// A key with its public octets.
#[derive(Drop)]
struct Signer {
    key: Key,
    public: [u8; 60],
    ghost height: { key.height ≡ H5 },
}

/// The key of this number.
fn make_signer(alloc: Global, number: u8) -> Result<Signer, AllocError> {
    let key = Key::from_seed(alloc, Height::H5, [number; 16], [number; 32])?;
    let public = key.public();
    Ok(Signer { key, public })
}

/// A value with this tag.
fn tlv(alloc: Global, tag: u8, contents: &[u8]) -> Result<Vec<u8>, AllocError> {
    let len = contents.len();
    if len > 0xFFFF {
        return Err(AllocError);
    }
    let mut octets = Vec::new(alloc);
    octets.push(tag)?;
    if len < 128 {
        octets.push(len as u8)?;
    } else if len < 256 {
        octets.extend_from_slice(&[0x81, len as u8])?;
    } else {
        octets.extend_from_slice(&[0x82, (len / 256) as u8, (len % 256) as u8])?;
    }
    octets.extend_from_slice(contents)?;
    Ok(octets)
}

/// These octets one after another.
fn joined(alloc: Global, parts: &[&[u8]]) -> Result<Vec<u8>, AllocError> {
    let mut octets = Vec::new(alloc);
    for part in parts {
        octets.extend_from_slice(part)?;
    }
    Ok(octets)
}

/// A SEQUENCE of these octets.
fn sequence(alloc: Global, parts: &[&[u8]]) -> Result<Vec<u8>, AllocError> {
    let contents = joined(alloc, parts)?;
    tlv(alloc, 0x30, &contents)
}

/// The Name whose common name is this letter.
fn name(letter: u8) -> [u8; 14] {
    [
        0x30, 0x0C, 0x31, 0x0A, 0x30, 0x08, 0x06, 0x03, 0x55, 0x04, 0x03, 0x0C, 0x01, letter,
    ]
}

/// The certificate of a subject with this key, by an issuer that signs with that key, under this tag.
fn certificate(
    alloc: Global,
    tag: u8,
    subject: (u8, &Signer),
    issuer: (u8, &Signer),
    extensions: &[u8],
) -> Result<Vec<u8>, AllocError> {
    let bits = joined(alloc, &[&[0], &subject.1.public])?;
    let bits = tlv(alloc, 0x03, &bits)?;
    let info = sequence(alloc, &[ALGORITHM, &bits])?;
    let (by, of) = (name(issuer.0), name(subject.0));
    let tbs = sequence(
        alloc,
        &[START, ALGORITHM, &by, VALIDITY, &of, &info, extensions],
    )?;
    let signature = issuer.1.key.sign(0, &tbs);
    let bits = joined(alloc, &[&[0], signature.as_slice()])?;
    let bits = tlv(alloc, 0x03, &bits)?;
    let whole = joined(alloc, &[&tbs, ALGORITHM, &bits])?;
    tlv(alloc, tag, &whole)
}

/// The anchor of this certificate.
fn trust_of(alloc: Global, certificate: &[u8]) -> Result<Trust, AllocError> {
    match Trust::decode(alloc, certificate) {
        Ok(trust) => Ok(trust),
        Err(_) => Err(AllocError),
    }
}

/// A request with this information for these targets.
fn request(alloc: Global, info: &[u8], targets: &[&[u8]]) -> Result<Vec<u8>, AllocError> {
    let listed = joined(alloc, targets)?;
    let certs = tlv(alloc, 0xA0, &listed)?;
    sequence(alloc, &[info, &certs])
}

/// A target with a chain and a path input, of no octets where there is none.
fn target(
    alloc: Global,
    token: &[u8],
    chain: &[&[u8]],
    input: &[u8],
) -> Result<Vec<u8>, AllocError> {
    let chain = sequence(alloc, chain)?;
    sequence(alloc, &[token, &chain, input])
}

/// The server, whose certificate is the one that is written here.
fn server(alloc: Global) -> Result<Server, AllocError> {
    let certificate = Vec::from_array(alloc, CERTIFICATE)?;
    let certificates = Vec::from_array(alloc, [certificate])?;
    let policy = Vec::from_array(alloc, POLICY)?;
    match Server::new(certificates, Some(policy)) {
        None => Err(AllocError),
        Some(server) => Ok(server),
    }
}

/// The answer to a request at a moment of Unix time.
fn answered_in<L: Ledger>(
    alloc: Global,
    content: &[u8],
    moment: u64,
    trust: &Trust,
    blank: Blank,
) -> Result<Answer, AllocError>
    requires short { length content.now < 2 ^ 32 }
    requires name { blank.name ≡ L.name }
    requires parts { blank.parts ≡ L.parts }
    requires some { 0 < blank.parts }
{
    let mut checks = Steps::<L>::new(blank);
    let server = server(alloc)?;
    let Some(moment) = Moment::from_unix(moment) else {
        return Err(AllocError);
    };
    let Ok(request) = Request::decode(content) else {
        return Err(AllocError);
    };
    match request.matter {
        Data::Certs { .. } => {
            answer_cpkc(alloc, &request, moment, &server, trust, None, &mut checks)
        }
        _ => Err(AllocError),
    }
}

/// The same, of a request for these targets with this information.
fn answered(
    alloc: Global,
    trust: &Trust,
    moment: u64,
    info: &[u8],
    targets: &[&[u8]],
) -> Result<Answer, AllocError> {
    let content = request(alloc, info, targets)?;
    if content.len() > 0xFFFF {
        return Err(AllocError);
    }
    answered_in::<Brand>(alloc, &content, moment, trust, Blank::new(1))
}

/// The failure bit of a request for these targets; None where there is a draft.
fn refusal(alloc: Global, targets: &[&[u8]]) -> Result<Option<u8>, AllocError> {
    let trust = trust_of(alloc, &CERTIFICATE)?;
    match answered(alloc, &trust, END, INFO, targets)? {
        Answer::Draft(_) => Ok(None),
        Answer::Notice { bit } => Ok(Some(bit)),
    }
}

/// Whether the answer is a draft with this status and failure bit and these entries.
fn is_draft(answer: &Answer, status: u8, bit: Option<u8>, certs: &[u8]) -> bool {
    match answer {
        Answer::Notice { .. } => false,
        Answer::Draft(draft) => match (&draft.status, &draft.certs) {
            (Some(own), Some(entries)) => {
                own.status == status && own.bit == bit && entries.as_slice() == certs
            }
            _ => false,
        },
    }
}

#[test]
fn a_target_without_a_path(rt: HostRuntime) -> Result<(), Fail> {
    let alloc = rt.alloc();
    let mut token = CERTIFICATE;
    token[0] = 0xA0;
    let target = sequence(alloc, &[&token, INPUT_WITH_FLAGS])?;
    let trust = trust_of(alloc, &CERTIFICATE)?;
    let answer = answered(alloc, &trust, END, INFO, &[&target])?;
    let entry = joined(
        alloc,
        &[
            &[0x30, 0x82, 0x01, 0x35],
            &token,
            &[0x30, 0x0B],
            REJECTED,
            INPUT_WITH_FLAGS,
        ],
    )?;
    assert!(rt; is_draft(&answer, 2, Some(20), &entry));
    let Answer::Draft(draft) = answer else {
        return Err(Fail::new("no draft"));
    };
    assert_eq!(rt; draft.info.as_slice(), INFO);
    assert_eq!(rt; draft.imprint.digest.as_slice(), DIGEST.as_slice());
    assert!(rt; !draft.imprint.with_null);
    assert_eq!(rt; Some(draft.time), Moment::from_unix(END));
    let policy = match &draft.policy {
        None => return Err(Fail::new("no policy")),
        Some(policy) => policy.as_slice(),
    };
    assert_eq!(rt; policy, POLICY.as_slice());
    assert!(rt; draft.req_signature.is_none());
    Ok(())
}

#[test]
fn targets_with_paths(rt: HostRuntime) -> Result<(), Fail> {
    let alloc = rt.alloc();
    let (root, other) = (make_signer(alloc, 1)?, make_signer(alloc, 2)?);
    let anchor = certificate(alloc, 0x30, (b'R', &root), (b'R', &root), CA)?;
    let trust = trust_of(alloc, &anchor)?;
    let token = certificate(alloc, 0xA0, (b'T', &other), (b'A', &other), HOLDER)?;
    let lost = certificate(alloc, 0xA0, (b'A', &other), (b'X', &other), CA)?;
    let near = certificate(alloc, 0xA0, (b'A', &other), (b'R', &root), CA)?;

    // Of two authorities of one name only the second was issued by the anchor: the path has the positions 0 and 2. A status in
    // the chain isn't looked at.
    let chained = target(alloc, &token, &[&lost, GRANTED, &near], INPUT)?;
    let answer = answered(alloc, &trust, END, INFO, &[&chained])?;
    let chain = sequence(alloc, &[&near, GRANTED])?;
    let granted = sequence(alloc, &[&token, &chain, INPUT])?;
    assert!(rt; is_draft(&answer, 0, None, &granted));

    // One target without a path: the whole isn't granted, and the other target is.
    let lonely = target(alloc, &token, &[&lost], &[])?;
    let answer = answered(alloc, &trust, END, INFO, &[&chained, &lonely])?;
    let chain = sequence(alloc, &[REJECTED])?;
    let rejected = sequence(alloc, &[&token, &chain])?;
    let entries = joined(alloc, &[&granted, &rejected])?;
    assert!(rt; is_draft(&answer, 2, Some(20), &entries));
    Ok(())
}

#[test]
fn moments_of_validation(rt: HostRuntime) -> Result<(), Fail> {
    let alloc = rt.alloc();
    let root = make_signer(alloc, 1)?;
    let anchor = certificate(alloc, 0x30, (b'R', &root), (b'R', &root), CA)?;
    let trust = trust_of(alloc, &anchor)?;
    let token = certificate(alloc, 0xA0, (b'T', &root), (b'R', &root), HOLDER)?;
    let target = sequence(alloc, &[&token])?;
    let chain = sequence(alloc, &[GRANTED])?;
    let granted = sequence(alloc, &[&token, &chain])?;
    let chain = sequence(alloc, &[REJECTED])?;
    let rejected = sequence(alloc, &[&token, &chain])?;

    // At the end of the certificate, and a second later: at the moment of service, and at the time of the request.
    for (moment, info) in [(END, INFO), (END + 86_400, INFO_AT_END)] {
        let answer = answered(alloc, &trust, moment, info, &[&target])?;
        assert!(rt; is_draft(&answer, 0, None, &granted));
    }
    for (moment, info) in [(END + 1, INFO), (END + 86_400, INFO_BEHIND)] {
        let answer = answered(alloc, &trust, moment, info, &[&target])?;
        assert!(rt; is_draft(&answer, 2, Some(20), &rejected));
    }
    Ok(())
}

#[test]
fn requests_that_are_refused(rt: HostRuntime) -> Result<(), Fail> {
    let alloc = rt.alloc();

    // Nine targets, and eight, which are looked at.
    assert_eq!(rt; refusal(alloc, &[EMPTY_TARGET; 9])?, Some(2));
    assert_eq!(rt; refusal(alloc, &[EMPTY_TARGET; 8])?, Some(5));
    assert_eq!(rt; refusal(alloc, &[STATUS_TARGET])?, Some(2));

    // Sixteen certificates in a chain, and fifteen, with a status beside them.
    let many = target(alloc, EMPTY, &[EMPTY; 16], &[])?;
    assert_eq!(rt; refusal(alloc, &[&many])?, Some(2));
    let mut chain = [EMPTY; 16];
    chain[7] = GRANTED;
    let most = target(alloc, EMPTY, &chain, &[])?;
    assert_eq!(rt; refusal(alloc, &[&most])?, Some(5));

    // The first target that isn't checked decides.
    assert_eq!(rt; refusal(alloc, &[EMPTY_TARGET, STATUS_TARGET])?, Some(5));
    assert_eq!(rt; refusal(alloc, &[STATUS_TARGET, EMPTY_TARGET])?, Some(2));
    let mut token = CERTIFICATE;
    token[0] = 0xA0;
    let good = sequence(alloc, &[&token])?;
    assert_eq!(rt;
        refusal(alloc, &[&good, STATUS_TARGET, EMPTY_TARGET])?,
        Some(2)
    );
    let bad = target(alloc, &token, &[EMPTY], &[])?;
    assert_eq!(rt; refusal(alloc, &[&good, &bad])?, Some(5));
    assert_eq!(rt; refusal(alloc, &[&good])?, None);
    Ok(())
}
