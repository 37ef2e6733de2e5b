//! Requests for certificates, worked out by hand, and what is said of files that are none.

use crate::tests::trial::{Faults, NO_FAULTS, new_register, run_command};
use dv_outside_mem::MemDiag;
use std::test::Fail;

/// How many octets the own certificate of a trial has: 2 fewer than the one of docs/formats.md, by its shorter name.
const OWN_LEN: usize = 1_569;

/// What stands before the one certificate of a request: the headers of the ContentInfo (1,603 octets), of its content (1,586), of the
/// DVCSRequest (1,582), its information, the headers of the list of targets (1,573) and of the target (1,569).
const BEFORE_ONE: [u8; 38] = [
    0x30, 0x82, 0x06, 0x43, 0x06, 0x0B, 0x2A, 0x86, 0x48, 0x86, 0xF7, 0x0D, 0x01, 0x09, 0x10, 0x01,
    0x07, 0xA0, 0x82, 0x06, 0x32, 0x30, 0x82, 0x06, 0x2E, 0x30, 0x03, 0x0A, 0x01, 0x03, 0xA0, 0x82,
    0x06, 0x25, 0x30, 0x82, 0x06, 0x21,
];

/// The same of two: 3,176, 3,159, 3,155, 3,146 and 3,142 octets.
const BEFORE_TWO: [u8; 38] = [
    0x30, 0x82, 0x0C, 0x68, 0x06, 0x0B, 0x2A, 0x86, 0x48, 0x86, 0xF7, 0x0D, 0x01, 0x09, 0x10, 0x01,
    0x07, 0xA0, 0x82, 0x0C, 0x57, 0x30, 0x82, 0x0C, 0x53, 0x30, 0x03, 0x0A, 0x01, 0x03, 0xA0, 0x82,
    0x0C, 0x4A, 0x30, 0x82, 0x0C, 0x46,
];

/// The header of a chain of one certificate.
const CHAIN: [u8; 4] = [0x30, 0x82, 0x06, 0x21];

/// Adds a certificate as a token: under A0.
fn add_token(request: &mut Vec<u8>, certificate: &[u8]) -> Result<(), Fail> {
    if let Some((_, rest)) = certificate.split_first() {
        request.push(0xA0)?;
        request.extend_from_slice(rest)?;
    }
    Ok(())
}

#[test]
fn requests(rt: HostRuntime) -> Result<(), Fail> {
    let own = new_register(&rt)?.sent;
    assert_eq!(rt; own.len(), OWN_LEN);
    let mut one = BEFORE_ONE.to_vec(rt.alloc())?;
    add_token(&mut one, &own)?;
    let left = run_command(&rt, &["request", "cpkc", "own"], &[], &own, NO_FAULTS)?;
    assert_eq!(rt; left.status, 0);
    assert_eq!(rt; left.sent.as_slice(), one.as_slice());

    let mut two = BEFORE_TWO.to_vec(rt.alloc())?;
    add_token(&mut two, &own)?;
    two.extend_from_slice(&CHAIN)?;
    add_token(&mut two, &own)?;
    let words = ["request", "cpkc", "own", "trust"];
    let left = run_command(&rt, &words, &[], &own, NO_FAULTS)?;
    assert_eq!(rt; left.status, 0);
    assert_eq!(rt; left.sent.as_slice(), two.as_slice());
    Ok(())
}

/// Whether one line was said, and it is this one.
fn says(said: &MemDiag, line: &str) -> bool {
    match said.lines() {
        [first] => first.as_str() == line,
        _ => false,
    }
}

/// Whether the words, while the file `own` has these octets, end with this status and this line, and put nothing.
fn is_refused(
    rt: &HostRuntime,
    words: &[&str],
    own: &[u8],
    faults: Faults,
    wanted: (u8, &str),
) -> Result<bool, Fail> {
    let (status, line) = wanted;
    let left = run_command(rt, words, &[], own, faults)?;
    Ok(left.status == status && left.sent.is_empty() && says(&left.said, line))
}

/// Words, and how the command ends: the files before the first bad one are good, and those behind it aren't read.
#[rattlefmt::skip]
const REFUSED: [(&[&str], (u8, &str)); 5] = [
    (&["request", "cpkc", "seed"], (3, "seed: refused at 0")),
    (&["request", "cpkc", "long"], (3, "long: the file is longer than 8192 octets")),
    (&["request", "cpkc", "own", "short", "missing"], (3, "short: refused at 0")),
    (&["request", "cpkc", "own", "missing", "short"], (10, "missing: the file can't be read")),
    (&["request", "cpkc", "own", "trust", "own", "long"], (3, "long: the file is longer than 8192 octets")),
];

#[test]
fn refused_files(rt: HostRuntime) -> Result<(), Fail> {
    let own = new_register(&rt)?.sent;
    for (words, wanted) in REFUSED {
        assert!(rt;
            is_refused(&rt, words, &own, NO_FAULTS, wanted)?,
            "{words:?}"
        );
    }
    let second = Faults {
        shelf: Some(1),
        ..NO_FAULTS
    };
    let words = ["request", "cpkc", "own", "trust"];
    let wanted = (10, "trust: the file can't be read");
    assert!(rt; is_refused(&rt, &words, &own, second, wanted)?);
    Ok(())
}

/// The octets with this one in place of the one at an index.
fn with_octet(octets: &[u8], index: usize, octet: u8, rt: &HostRuntime) -> Result<Vec<u8>, Fail> {
    let mut changed = octets.to_vec(rt.alloc())?;
    if let Some(place) = changed.get_mut(index) {
        *place = octet;
    }
    Ok(changed)
}

// The version of the own certificate is octet 11, and its signature's algorithm ends with octet 267.
#[test]
fn no_certificates(rt: HostRuntime) -> Result<(), Fail> {
    let own = new_register(&rt)?.sent;
    let mut more = own.to_vec(rt.alloc())?;
    more.push(0x00)?;
    let rows = [
        (more, "own: refused at 1569"),
        (
            with_octet(&own, 11, 0x03, &rt)?,
            "own: the certificate has an unknown version",
        ),
        (
            with_octet(&own, 267, 0x12, &rt)?,
            "own: the two signature algorithms of the certificate differ",
        ),
        (vec![in rt.alloc(); 0u8; 8_192]?, "own: refused at 0"),
        (
            vec![in rt.alloc(); 0u8; 8_193]?,
            "own: the file is longer than 8192 octets",
        ),
    ];
    for (octets, line) in &rows {
        assert!(rt;
            is_refused(
                &rt,
                &["request", "cpkc", "own"],
                octets,
                NO_FAULTS,
                (3, line)
            )?,
            "{line}"
        );
    }
    Ok(())
}
