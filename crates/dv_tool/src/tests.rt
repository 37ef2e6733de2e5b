//! The commands over the outside in memory: what they put, how they end, and what they say.

use super::*;
use dv_outside_mem::{MemClock, MemDiag, MemShelf, MemSource, MemStation};
use std::alloc::Global;
use std::collections::BTreeMap;
use std::test::Fail;

/// The request for possession of `abc`.
const REQUEST_FOR_ABC: [u8; 29] = [
    0x30, 0x1B, 0x06, 0x0B, 0x2A, 0x86, 0x48, 0x86, 0xF7, 0x0D, 0x01, 0x09, 0x10, 0x01, 0x07, 0xA0,
    0x0C, 0x30, 0x0A, 0x30, 0x03, 0x0A, 0x01, 0x01, 0x04, 0x03, 0x61, 0x62, 0x63,
];

/// The request for possession of no octets.
const REQUEST_FOR_NOTHING: [u8; 26] = [
    0x30, 0x18, 0x06, 0x0B, 0x2A, 0x86, 0x48, 0x86, 0xF7, 0x0D, 0x01, 0x09, 0x10, 0x01, 0x07, 0xA0,
    0x09, 0x30, 0x07, 0x30, 0x03, 0x0A, 0x01, 0x01, 0x04, 0x00,
];

/// That with the nonce 5.
const REQUEST_WITH_NONCE: [u8; 32] = [
    0x30, 0x1E, 0x06, 0x0B, 0x2A, 0x86, 0x48, 0x86, 0xF7, 0x0D, 0x01, 0x09, 0x10, 0x01, 0x07, 0xA0,
    0x0F, 0x30, 0x0D, 0x30, 0x06, 0x0A, 0x01, 0x01, 0x02, 0x01, 0x05, 0x04, 0x03, 0x61, 0x62, 0x63,
];

/// That with the time 20250101000000Z.
const REQUEST_WITH_TIME: [u8; 46] = [
    0x30, 0x2C, 0x06, 0x0B, 0x2A, 0x86, 0x48, 0x86, 0xF7, 0x0D, 0x01, 0x09, 0x10, 0x01, 0x07, 0xA0,
    0x1D, 0x30, 0x1B, 0x30, 0x14, 0x0A, 0x01, 0x01, 0x18, 0x0F, 0x32, 0x30, 0x32, 0x35, 0x30, 0x31,
    0x30, 0x31, 0x30, 0x30, 0x30, 0x30, 0x30, 0x30, 0x5A, 0x04, 0x03, 0x61, 0x62, 0x63,
];

/// The request for the claim of possession of `abc`.
const CLAIM_FOR_ABC: [u8; 73] = [
    0x30, 0x47, 0x06, 0x0B, 0x2A, 0x86, 0x48, 0x86, 0xF7, 0x0D, 0x01, 0x09, 0x10, 0x01, 0x07, 0xA0,
    0x38, 0x30, 0x36, 0x30, 0x03, 0x0A, 0x01, 0x04, 0x30, 0x2F, 0x30, 0x0B, 0x06, 0x09, 0x60, 0x86,
    0x48, 0x01, 0x65, 0x03, 0x04, 0x02, 0x01, 0x04, 0x20, 0xBA, 0x78, 0x16, 0xBF, 0x8F, 0x01, 0xCF,
    0xEA, 0x41, 0x41, 0x40, 0xDE, 0x5D, 0xAE, 0x22, 0x23, 0xB0, 0x03, 0x61, 0xA3, 0x96, 0x17, 0x7A,
    0x9C, 0xB4, 0x10, 0xFF, 0x61, 0xF2, 0x00, 0x15, 0xAD,
];

/// A request for the service of number 5, which there isn't.
const UNKNOWN_SERVICE: [u8; 29] = [
    0x30, 0x1B, 0x06, 0x0B, 0x2A, 0x86, 0x48, 0x86, 0xF7, 0x0D, 0x01, 0x09, 0x10, 0x01, 0x07, 0xA0,
    0x0C, 0x30, 0x0A, 0x30, 0x03, 0x0A, 0x01, 0x05, 0x04, 0x03, 0x61, 0x62, 0x63,
];

/// A ContentInfo of type id-signedData whose content is an empty SEQUENCE.
const SIGNED: [u8; 17] = [
    0x30, 0x0F, 0x06, 0x09, 0x2A, 0x86, 0x48, 0x86, 0xF7, 0x0D, 0x01, 0x07, 0x02, 0xA0, 0x02, 0x30,
    0x00,
];

/// How many lines the usage has.
const USAGE_LINES: usize = 7;

/// Which call of an object fails.
#[derive(Clone, Copy)]
enum Fault {
    None,
    Read,
    Put,
}

/// Puts files that are requests, or are none, on a shelf.
fn add_requests(alloc: Global, files: &mut BTreeMap<String, Vec<u8>>) -> Result<(), Fail> {
    files.insert("one".to_string(alloc)?, REQUEST_FOR_ABC.to_vec(alloc)?)?;
    let mut several = CLAIM_FOR_ABC.to_vec(alloc)?;
    several.extend_from_slice(&REQUEST_WITH_TIME)?;
    files.insert("two".to_string(alloc)?, several)?;
    files.insert("unknown".to_string(alloc)?, UNKNOWN_SERVICE.to_vec(alloc)?)?;
    let mut mixed = REQUEST_FOR_ABC.to_vec(alloc)?;
    mixed.extend_from_slice(&SIGNED)?;
    files.insert("mixed".to_string(alloc)?, mixed)?;
    Ok(())
}

/// A shelf with the files `abc`, `empty`, `most` (262,000 octets), `long` (262,001 octets), and those of `add_requests`.
fn shelf(alloc: Global, fault: Fault) -> Result<MemShelf, Fail> {
    let mut files = BTreeMap::new(alloc);
    files.insert("abc".to_string(alloc)?, b"abc".to_vec(alloc)?)?;
    files.insert("empty".to_string(alloc)?, Vec::new(alloc))?;
    files.insert("most".to_string(alloc)?, vec![in alloc; 7u8; 262_000]?)?;
    files.insert("long".to_string(alloc)?, vec![in alloc; 7u8; 262_001]?)?;
    add_requests(alloc, &mut files)?;
    let failing = match fault {
        Fault::Read => vec![in alloc; 0u64]?,
        _ => Vec::new(alloc),
    };
    Ok(MemShelf::new(files, failing))
}

/// Runs the words, and gives the status, the station after it, and what was said.
fn run(rt: &HostRuntime, words: &[&str], fault: Fault) -> Result<(u8, MemStation, MemDiag), Fail> {
    let alloc = rt.alloc();
    let mut owned = Vec::new(alloc);
    for word in words {
        owned.push(word.to_string(alloc)?)?;
    }
    let failing = match fault {
        Fault::Put => vec![in alloc; 0u64]?,
        _ => Vec::new(alloc),
    };
    let station = MemStation::new(alloc, Vec::new(alloc), failing, 10, 1_000_000)?;
    let mut diag = MemDiag::new(alloc);
    let (status, station) = run_tool(
        rt,
        owned.as_slice(),
        &mut shelf(alloc, fault)?,
        &mut MemSource::new(Vec::new(alloc), Vec::new(alloc), Vec::new(alloc)),
        &mut MemClock::new(vec![in alloc; 0u64]?, Vec::new(alloc)),
        &mut diag,
        station,
    );
    Ok((status, station, diag))
}

/// The octets that a command is to put.
fn check_put(rt: &HostRuntime, words: &[&str], wanted: &[u8]) -> Result<bool, Fail> {
    let (status, station, diag) = run(rt, words, Fault::None)?;
    Ok(status == 0 && station.sent() == wanted && station.calls() == 1 && diag.lines().is_empty())
}

#[test]
fn requests(rt: HostRuntime) -> Result<(), Fail> {
    let rows: [(&[&str], &[u8]); 6] = [
        (&["request", "cpd", "abc"], &REQUEST_FOR_ABC),
        (&["request", "cpd", "empty"], &REQUEST_FOR_NOTHING),
        (
            &["request", "cpd", "abc", "--nonce", "05"],
            &REQUEST_WITH_NONCE,
        ),
        (
            &["request", "cpd", "abc", "--at", "20250101000000Z"],
            &REQUEST_WITH_TIME,
        ),
        (&["request", "ccpd", "abc"], &CLAIM_FOR_ABC),
        (
            &["request", "--nonce=05", "--", "cpd", "abc"],
            &REQUEST_WITH_NONCE,
        ),
    ];
    for (words, request) in rows {
        assert!(rt; check_put(&rt, words, request)?, "{words:?}");
    }
    Ok(())
}

#[test]
fn the_longest_files(rt: HostRuntime) -> Result<(), Fail> {
    let (status, station, _diag) = run(&rt, &["request", "vsd", "most"], Fault::None)?;
    assert_eq!(rt; status, 0);
    assert_eq!(rt; station.sent().len(), 262_038);
    let (status, station, _diag) = run(&rt, &["request", "ccpd", "long"], Fault::None)?;
    assert_eq!(rt; status, 0);
    assert_eq!(rt; station.sent().len(), 73);
    Ok(())
}

#[test]
fn shows(rt: HostRuntime) -> Result<(), Fail> {
    let rows: [(&str, &[u8]); 2] = [
        ("one", b"request cpd\n"),
        ("two", b"request ccpd\nrequest cpd\n"),
    ];
    for (file, text) in rows {
        assert!(rt; check_put(&rt, &["show", file], text)?, "{file}");
    }
    Ok(())
}

/// What a command that puts nothing says, and its status.
fn check_refused(
    rt: &HostRuntime,
    words: &[&str],
    fault: Fault,
    wanted: u8,
    line: &str,
) -> Result<bool, Fail> {
    let (status, station, diag) = run(rt, words, fault)?;
    let lines = diag.lines();
    let count = if wanted == 2 { 1 + USAGE_LINES } else { 1 };
    match lines {
        [first, ..] => Ok(
            status == wanted
                && station.calls() == 0
                && lines.len() == count
                && first.as_str() == line,
        ),
        [] => Ok(false),
    }
}

#[test]
fn refused_files(rt: HostRuntime) -> Result<(), Fail> {
    let rows: [(&[&str], Fault, u8, &str); 5] = [
        (
            &["request", "cpd", "long"],
            Fault::None,
            3,
            "long: the file is longer than 262000 octets",
        ),
        (
            &["request", "vsd", "long"],
            Fault::None,
            3,
            "long: the file is longer than 262000 octets",
        ),
        (
            &["request", "cpd", "missing"],
            Fault::None,
            10,
            "missing: the file can't be read",
        ),
        (
            &["request", "cpd", "abc"],
            Fault::Read,
            10,
            "abc: the file can't be read",
        ),
        (
            &["show", "missing"],
            Fault::None,
            10,
            "missing: the file can't be read",
        ),
    ];
    for (words, fault, wanted, line) in rows {
        assert!(rt; check_refused(&rt, words, fault, wanted, line)?, "{line}");
    }
    Ok(())
}

// Signed data without a version are refused at their end, and what a request's content is at its place in the file.
#[test]
fn files_that_are_not_shown(rt: HostRuntime) -> Result<(), Fail> {
    let rows = [
        ("empty", "empty: refused at 0"),
        ("abc", "abc: refused at 0"),
        ("unknown", "unknown: refused at 21"),
        ("mixed", "mixed: refused at 46"),
    ];
    for (file, line) in rows {
        assert!(rt;
            check_refused(&rt, &["show", file], Fault::None, 3, line)?,
            "{line}"
        );
    }
    Ok(())
}

#[test]
fn faulty_lines(rt: HostRuntime) -> Result<(), Fail> {
    let rows: [(&[&str], &str); 6] = [
        (
            &["request", "cpd", "abc", "abc"],
            "unexpected argument 'abc' found",
        ),
        (&["request", "cpd"], "FILE is missing"),
        (&["request", "cpkc"], "FILE is missing"),
        (
            &["request", "cpd", "abc", "--nonce", "0005"],
            "'0005' is no nonce: a shorter HEX spells the same number",
        ),
        (&["show"], "FILE is missing"),
        (
            &[],
            "there is no command: request, init, serve, reissue or show",
        ),
    ];
    for (words, line) in rows {
        assert!(rt; check_refused(&rt, words, Fault::None, 2, line)?, "{line}");
    }
    Ok(())
}

#[test]
fn other_lines(rt: HostRuntime) -> Result<(), Fail> {
    let words = ["serve", "register", "seed", "own", "trust"];
    let (status, station, diag) = run(&rt, &words, Fault::None)?;
    assert_eq!(rt; status, 2);
    assert_eq!(rt; station.calls(), 0);
    assert_eq!(rt; diag.lines().len(), 1);
    let (status, _station, diag) = run(&rt, &["request", "--help"], Fault::None)?;
    assert_eq!(rt; status, 2);
    assert!(rt; diag.lines().len() > 10);
    Ok(())
}

// Of a put that fails, the station in memory sends the first half.
#[test]
fn a_put_that_fails(rt: HostRuntime) -> Result<(), Fail> {
    let (status, station, diag) = run(&rt, &["request", "cpd", "abc"], Fault::Put)?;
    assert_eq!(rt; status, 5);
    assert_eq!(rt; station.sent(), &REQUEST_FOR_ABC[..14]);
    assert_eq!(rt; diag.lines().len(), 1);
    assert_eq!(rt;
        diag.lines()[0].as_str(),
        "the request can't be written to the output"
    );
    Ok(())
}
