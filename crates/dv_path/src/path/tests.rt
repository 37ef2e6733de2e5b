//! Searches among certificates that are made here, octet by octet (RFC 5280 4.1), and signed by keys that are made here too. The
//! paths were found by hand.

ghost use Rattle.std.specs.Prelude.{◌≡◌, ◌<◌, IfOk, length};
ghost use Rattle.dv_lms.specs.declared.height.Height.TheVariants.{H5};

use crate::{Bag, Trust, find_path};
use dv_asn1::{Cursor, Decode};
use dv_lms::{Height, Key, Steps};
use dv_request::PathInput;
use dv_time::Moment;
use std::alloc::{AllocError, Global};
use std::marker::Brand;
use std::sync::ledger::{Blank, Ledger};
use std::test::Fail;

mod drawn;

/// 2025-01-01T00:00:00Z, when the certificates begin to be valid, and 2026-01-01T00:00:00Z, when they end.
const BEGIN: u64 = 1_735_689_600;

const END: u64 = 1_767_225_600;

/// The algorithm HSS, and a Validity between these moments.
const ALGORITHM: &[u8] = &[
    0x30, 0x0D, 0x06, 0x0B, 0x2A, 0x86, 0x48, 0x86, 0xF7, 0x0D, 0x01, 0x09, 0x10, 0x03, 0x11,
];

const VALIDITY: &[u8] = b"\x30\x1E\x17\x0D250101000000Z\x17\x0D260101000000Z";

/// The version 3 and the serial number 1.
const START: &[u8] = &[0xA0, 0x03, 0x02, 0x01, 0x02, 0x02, 0x01, 0x01];

/// basicConstraints of an authority without a path length bound, and with the bounds 0 and 1.
const CA: &[u8] = &[
    0x30, 0x0F, 0x06, 0x03, 0x55, 0x1D, 0x13, 0x01, 0x01, 0xFF, 0x04, 0x05, 0x30, 0x03, 0x01, 0x01,
    0xFF,
];

const CA_0: &[u8] = &[
    0x30, 0x12, 0x06, 0x03, 0x55, 0x1D, 0x13, 0x01, 0x01, 0xFF, 0x04, 0x08, 0x30, 0x06, 0x01, 0x01,
    0xFF, 0x02, 0x01, 0x00,
];

const CA_1: &[u8] = &[
    0x30, 0x12, 0x06, 0x03, 0x55, 0x1D, 0x13, 0x01, 0x01, 0xFF, 0x04, 0x08, 0x30, 0x06, 0x01, 0x01,
    0xFF, 0x02, 0x01, 0x01,
];

/// keyUsage with keyCertSign alone, and with digitalSignature alone.
const CERT_SIGN: &[u8] = &[
    0x30, 0x0E, 0x06, 0x03, 0x55, 0x1D, 0x0F, 0x01, 0x01, 0xFF, 0x04, 0x04, 0x03, 0x02, 0x02, 0x04,
];

const SIGN: &[u8] = &[
    0x30, 0x0E, 0x06, 0x03, 0x55, 0x1D, 0x0F, 0x01, 0x01, 0xFF, 0x04, 0x04, 0x03, 0x02, 0x07, 0x80,
];

/// certificatePolicies with 1.2.3.1, with 1.2.3.2, and with anyPolicy.
const POLICY_1: &[u8] = &[
    0x30, 0x10, 0x06, 0x03, 0x55, 0x1D, 0x20, 0x04, 0x09, 0x30, 0x07, 0x30, 0x05, 0x06, 0x03, 0x2A,
    0x03, 0x01,
];

const POLICY_2: &[u8] = &[
    0x30, 0x10, 0x06, 0x03, 0x55, 0x1D, 0x20, 0x04, 0x09, 0x30, 0x07, 0x30, 0x05, 0x06, 0x03, 0x2A,
    0x03, 0x02,
];

const POLICY_ANY: &[u8] = &[
    0x30, 0x11, 0x06, 0x03, 0x55, 0x1D, 0x20, 0x04, 0x0A, 0x30, 0x08, 0x30, 0x06, 0x06, 0x04, 0x55,
    0x1D, 0x20, 0x00,
];

/// A critical extension that isn't known.
const UNKNOWN: &[u8] = &[
    0x30, 0x0A, 0x06, 0x03, 0x2A, 0x03, 0x04, 0x01, 0x01, 0xFF, 0x04, 0x00,
];

/// Path inputs with explicitPolicyReqd: the policy 1.2.3.1; the same, where anyPolicy is inhibited; 1.2.3.1 and 1.2.3.2; anyPolicy.
const ONE: &[u8] = &[
    0xA0, 0x0C, 0x30, 0x07, 0x30, 0x05, 0x06, 0x03, 0x2A, 0x03, 0x01, 0x80, 0x01, 0xFF,
];

const ONE_INHIBITED: &[u8] = &[
    0xA0, 0x0F, 0x30, 0x07, 0x30, 0x05, 0x06, 0x03, 0x2A, 0x03, 0x01, 0x80, 0x01, 0xFF, 0x81, 0x01,
    0xFF,
];

const BOTH: &[u8] = &[
    0xA0, 0x13, 0x30, 0x0E, 0x30, 0x05, 0x06, 0x03, 0x2A, 0x03, 0x01, 0x30, 0x05, 0x06, 0x03, 0x2A,
    0x03, 0x02, 0x80, 0x01, 0xFF,
];

const ANY: &[u8] = &[
    0xA0, 0x0D, 0x30, 0x08, 0x30, 0x06, 0x06, 0x04, 0x55, 0x1D, 0x20, 0x00, 0x80, 0x01, 0xFF,
];

/// A key with its public octets.
#[derive(Drop)]
struct Signer {
    key: Key,
    public: [u8; 60],
    ghost height: { key.height ≡ H5 },
}

/// The key of this number.
fn make_signer(alloc: Global, number: u8) -> Result<Signer, AllocError> {
    let key = Key::from_seed(alloc, Height::H5, [number; 16], [number; 32])?;
    let public = key.public();
    Ok(Signer { key, public })
}

/// A value with this tag.
fn tlv(alloc: Global, tag: u8, contents: &[u8]) -> Result<Vec<u8>, AllocError> {
    let len = contents.len();
    if len > 0xFFFF {
        return Err(AllocError);
    }
    let mut octets = Vec::new(alloc);
    octets.push(tag)?;
    if len < 128 {
        octets.push(len as u8)?;
    } else if len < 256 {
        octets.extend_from_slice(&[0x81, len as u8])?;
    } else {
        octets.extend_from_slice(&[0x82, (len / 256) as u8, (len % 256) as u8])?;
    }
    octets.extend_from_slice(contents)?;
    Ok(octets)
}

/// These octets one after another.
fn joined(alloc: Global, parts: &[&[u8]]) -> Result<Vec<u8>, AllocError> {
    let mut octets = Vec::new(alloc);
    for part in parts {
        octets.extend_from_slice(part)?;
    }
    Ok(octets)
}

/// The Name whose common name is this letter.
fn name(letter: u8) -> [u8; 14] {
    [
        0x30, 0x0C, 0x31, 0x0A, 0x30, 0x08, 0x06, 0x03, 0x55, 0x04, 0x03, 0x0C, 0x01, letter,
    ]
}

/// The certificate of a subject with this key, by an issuer that signs with that key.
fn certificate(
    alloc: Global,
    subject: (u8, &Signer),
    issuer: (u8, &Signer),
    extensions: &[&[u8]],
) -> Result<Vec<u8>, AllocError> {
    let bits = joined(alloc, &[&[0], &subject.1.public])?;
    let bits = tlv(alloc, 0x03, &bits)?;
    let info = joined(alloc, &[ALGORITHM, &bits])?;
    let info = tlv(alloc, 0x30, &info)?;
    let extensions = joined(alloc, extensions)?;
    let extensions = tlv(alloc, 0x30, &extensions)?;
    let extensions = tlv(alloc, 0xA3, &extensions)?;
    let (by, of) = (name(issuer.0), name(subject.0));
    let tbs = joined(
        alloc,
        &[START, ALGORITHM, &by, VALIDITY, &of, &info, &extensions],
    )?;
    let tbs = tlv(alloc, 0x30, &tbs)?;
    signed(alloc, &tbs, issuer.1)
}

/// The certificate of this signed part.
fn signed(alloc: Global, tbs: &[u8], signer: &Signer) -> Result<Vec<u8>, AllocError> {
    let signature = signer.key.sign(0, tbs);
    let bits = joined(alloc, &[&[0], signature.as_slice()])?;
    let bits = tlv(alloc, 0x03, &bits)?;
    let whole = joined(alloc, &[tbs, ALGORITHM, &bits])?;
    tlv(alloc, 0x30, &whole)
}

/// A bag of these certificates.
fn bag_of(alloc: Global, certificates: &[&[u8]]) -> Result<Bag, AllocError> {
    let mut bag = Bag::new(alloc);
    for certificate in certificates {
        if bag.add(certificate, 0x30).is_err() {
            return Err(AllocError);
        }
    }
    Ok(bag)
}

/// The anchors of these certificates.
fn trust_of(alloc: Global, certificates: &[&[u8]]) -> Result<Trust, AllocError> {
    let octets = joined(alloc, certificates)?;
    match Trust::decode(alloc, &octets) {
        Ok(trust) => Ok(trust),
        Err(_) => Err(AllocError),
    }
}

/// The path from the first certificate, at a moment of Unix time: its positions and behind them the place of its anchor; nothing
/// where there is no path.
fn searched<L: Ledger>(
    alloc: Global,
    trust: &Trust,
    bag: &Bag,
    when: u64,
    input: Option<&PathInput<'_>>,
    blank: Blank,
) -> Result<Vec<u32>, AllocError>
    requires name { blank.name ≡ L.name }
    requires parts { blank.parts ≡ L.parts }
    requires some { 0 < blank.parts }
{
    let mut checks = Steps::<L>::new(blank);
    let Some(when) = Moment::from_unix(when) else {
        return Err(AllocError);
    };
    if bag.is_empty() {
        return Err(AllocError);
    }
    match find_path(alloc, trust, bag, 0, when, input, &mut checks)? {
        None => Ok(Vec::new(alloc)),
        Some(path) => {
            let mut found = path.positions.into_vec();
            found.push(path.anchor)?;
            Ok(found)
        }
    }
}

/// The same without an input.
fn found(alloc: Global, trust: &Trust, bag: &Bag, when: u64) -> Result<Vec<u32>, AllocError> {
    searched::<Brand>(alloc, trust, bag, when, None, Blank::new(1))
}

/// The same with the octets of an input.
fn found_by(alloc: Global, trust: &Trust, bag: &Bag, input: &[u8]) -> Result<Vec<u32>, AllocError> {
    match PathInput::read(&mut Cursor::new(input)) {
        Err(_) => Err(AllocError),
        Ok(input) => searched::<Brand>(alloc, trust, bag, END, Some(&input), Blank::new(1)),
    }
}

#[test]
fn ways_to_an_anchor(rt: HostRuntime) -> Result<(), Fail> {
    let alloc = rt.alloc();
    let (root, other) = (make_signer(alloc, 1)?, make_signer(alloc, 2)?);
    let anchor = certificate(alloc, (b'R', &root), (b'R', &root), &[CA])?;
    let stranger = certificate(alloc, (b'R', &other), (b'R', &other), &[CA])?;
    let trust = trust_of(alloc, &[&stranger, &anchor, &anchor])?;
    let target = certificate(alloc, (b'T', &other), (b'A', &other), &[SIGN])?;
    let lost = certificate(alloc, (b'A', &other), (b'X', &other), &[CA])?;
    let near = certificate(alloc, (b'A', &other), (b'R', &root), &[CA, CERT_SIGN])?;
    let over = certificate(alloc, (b'A', &other), (b'B', &other), &[CA])?;
    let far = certificate(alloc, (b'B', &other), (b'R', &root), &[CA])?;

    // Of two authorities of one name only the second was issued by an anchor, the second and the third.
    let bag = bag_of(alloc, &[&target, &lost, &near])?;
    assert_eq!(rt;
        found(alloc, &trust, &bag, END)?.as_slice(),
        [0, 2, 1].as_slice()
    );

    // A shorter path comes before a lower one, and a lower one before others.
    let bag = bag_of(alloc, &[&target, &over, &far, &near, &near])?;
    assert_eq!(rt;
        found(alloc, &trust, &bag, END)?.as_slice(),
        [0, 3, 1].as_slice()
    );
    let bag = bag_of(alloc, &[&target, &over, &far])?;
    assert_eq!(rt;
        found(alloc, &trust, &bag, END)?.as_slice(),
        [0, 1, 2, 1].as_slice()
    );
    let bag = bag_of(alloc, &[&near])?;
    assert_eq!(rt;
        found(alloc, &trust, &bag, END)?.as_slice(),
        [0, 1].as_slice()
    );
    let bag = bag_of(alloc, &[&target, &lost, &over])?;
    assert_eq!(rt; found(alloc, &trust, &bag, END)?.len(), 0);
    Ok(())
}

#[test]
fn moments_of_a_path(rt: HostRuntime) -> Result<(), Fail> {
    let alloc = rt.alloc();
    let root = make_signer(alloc, 1)?;
    let anchor = certificate(alloc, (b'R', &root), (b'R', &root), &[CA])?;
    let trust = trust_of(alloc, &[&anchor])?;
    let target = certificate(alloc, (b'T', &root), (b'R', &root), &[SIGN])?;
    let bag = bag_of(alloc, &[&target])?;
    for (when, len) in [(BEGIN, 2), (BEGIN - 1, 0), (END, 2), (END + 1, 0)] {
        assert_eq!(rt; found(alloc, &trust, &bag, when)?.len(), len, "at {when}");
    }

    // A signature that another key made, and one over other octets.
    let other = make_signer(alloc, 2)?;
    let forged = certificate(alloc, (b'T', &root), (b'R', &other), &[SIGN])?;
    let bag = bag_of(alloc, &[&forged])?;
    assert_eq!(rt; found(alloc, &trust, &bag, END)?.len(), 0);
    let mut changed = target;
    if let Some(last) = changed.last_mut() {
        *last ^= 1;
    }
    let bag = bag_of(alloc, &[&changed])?;
    assert_eq!(rt; found(alloc, &trust, &bag, END)?.len(), 0);
    Ok(())
}

#[test]
fn authorities_of_a_path(rt: HostRuntime) -> Result<(), Fail> {
    let alloc = rt.alloc();
    let (root, other) = (make_signer(alloc, 1)?, make_signer(alloc, 2)?);
    let anchor = certificate(alloc, (b'R', &root), (b'R', &root), &[SIGN])?;
    let trust = trust_of(alloc, &[&anchor])?;
    let target = certificate(alloc, (b'T', &other), (b'A', &other), &[CA_0])?;
    let rows: [(&[&[u8]], usize); 6] = [
        (&[CA], 3),
        (&[CA_0, CERT_SIGN], 3),
        (&[CA, SIGN], 0),
        (&[SIGN], 0),
        (&[CERT_SIGN], 0),
        (&[CA, UNKNOWN], 0),
    ];
    for (extensions, len) in rows {
        let authority = certificate(alloc, (b'A', &other), (b'R', &root), extensions)?;
        let bag = bag_of(alloc, &[&target, &authority])?;
        assert_eq!(rt; found(alloc, &trust, &bag, END)?.len(), len);
    }

    // One authority stands between the target and the one with the bound.
    let between = certificate(alloc, (b'A', &other), (b'B', &other), &[CA_0])?;
    for (bound, len) in [(CA_0, 0), (CA_1, 4)] {
        let authority = certificate(alloc, (b'B', &other), (b'R', &root), &[bound])?;
        let bag = bag_of(alloc, &[&target, &between, &authority])?;
        assert_eq!(rt; found(alloc, &trust, &bag, END)?.len(), len);
    }
    Ok(())
}

#[test]
fn policies_of_a_path(rt: HostRuntime) -> Result<(), Fail> {
    let alloc = rt.alloc();
    let (root, other) = (make_signer(alloc, 1)?, make_signer(alloc, 2)?);
    let anchor = certificate(alloc, (b'R', &root), (b'R', &root), &[CA])?;
    let trust = trust_of(alloc, &[&anchor])?;
    let target = certificate(alloc, (b'T', &other), (b'A', &other), &[POLICY_1])?;
    let rows: [(&[&[u8]], [usize; 4]); 4] = [
        (&[CA, POLICY_ANY], [3, 0, 3, 3]),
        (&[CA, POLICY_1], [3, 3, 3, 3]),
        (&[CA, POLICY_2], [0, 0, 0, 3]),
        (&[CA], [0, 0, 0, 3]),
    ];
    for (extensions, lens) in rows {
        let authority = certificate(alloc, (b'A', &other), (b'R', &root), extensions)?;
        let bag = bag_of(alloc, &[&target, &authority])?;
        let inputs = [ONE, ONE_INHIBITED, BOTH, ANY];
        for i in 0..4usize {
            assert_eq!(rt;
                found_by(alloc, &trust, &bag, inputs[i])?.len(),
                lens[i],
                "input {i}"
            );
        }
        assert_eq!(rt; found(alloc, &trust, &bag, END)?.len(), 3);
    }

    // Each member asserts anyPolicy alone.
    let target = certificate(alloc, (b'T', &other), (b'A', &other), &[POLICY_ANY])?;
    let authority = certificate(alloc, (b'A', &other), (b'R', &root), &[CA, POLICY_ANY])?;
    let bag = bag_of(alloc, &[&target, &authority])?;
    assert_eq!(rt; found_by(alloc, &trust, &bag, ONE)?.len(), 3);
    assert_eq!(rt; found_by(alloc, &trust, &bag, ONE_INHIBITED)?.len(), 0);
    Ok(())
}
