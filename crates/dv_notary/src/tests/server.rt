//! Runs of the server over the outside in memory: what is put for which input, and how a run ends.

ghost use Rattle.std.specs.Prelude.{◌≡◌};

use crate::tests::trial::{
    Faults, Given, Left, NEW_YEAR, NO_FAULTS, SERVE, holds, new_register, run_command, run_server,
};
use std::alloc::Global;
use std::test::Fail;

/// The request for possession of `abc`, and then that of no octets.
const TWO_REQUESTS: [u8; 55] = [
    0x30, 0x1B, 0x06, 0x0B, 0x2A, 0x86, 0x48, 0x86, 0xF7, 0x0D, 0x01, 0x09, 0x10, 0x01, 0x07, 0xA0,
    0x0C, 0x30, 0x0A, 0x30, 0x03, 0x0A, 0x01, 0x01, 0x04, 0x03, 0x61, 0x62, 0x63, 0x30, 0x18, 0x06,
    0x0B, 0x2A, 0x86, 0x48, 0x86, 0xF7, 0x0D, 0x01, 0x09, 0x10, 0x01, 0x07, 0xA0, 0x09, 0x30, 0x07,
    0x30, 0x03, 0x0A, 0x01, 0x01, 0x04, 0x00,
];

/// The DVCSCertInfo of the certificate for `abc` with serial number 2, at the beginning of 2025.
const INFO: [u8; 76] = [
    0x30, 0x4A, 0x30, 0x03, 0x0A, 0x01, 0x01, 0x30, 0x2F, 0x30, 0x0B, 0x06, 0x09, 0x60, 0x86, 0x48,
    0x01, 0x65, 0x03, 0x04, 0x02, 0x01, 0x04, 0x20, 0xBA, 0x78, 0x16, 0xBF, 0x8F, 0x01, 0xCF, 0xEA,
    0x41, 0x41, 0x40, 0xDE, 0x5D, 0xAE, 0x22, 0x23, 0xB0, 0x03, 0x61, 0xA3, 0x96, 0x17, 0x7A, 0x9C,
    0xB4, 0x10, 0xFF, 0x61, 0xF2, 0x00, 0x15, 0xAD, 0x02, 0x01, 0x02, 0x18, 0x0F, 0x32, 0x30, 0x32,
    0x35, 0x30, 0x31, 0x30, 0x31, 0x30, 0x30, 0x30, 0x30, 0x30, 0x30, 0x5A,
];

/// The notice systemUnavail.
const SYSTEM_UNAVAIL: [u8; 31] = [
    0x30, 0x1D, 0x06, 0x0B, 0x2A, 0x86, 0x48, 0x86, 0xF7, 0x0D, 0x01, 0x09, 0x10, 0x01, 0x08, 0xA0,
    0x0E, 0xA0, 0x0C, 0x30, 0x0A, 0x02, 0x01, 0x02, 0x03, 0x05, 0x07, 0x00, 0x00, 0x00, 0x80,
];

/// The notice systemFailure.
const SYSTEM_FAILURE: [u8; 31] = [
    0x30, 0x1D, 0x06, 0x0B, 0x2A, 0x86, 0x48, 0x86, 0xF7, 0x0D, 0x01, 0x09, 0x10, 0x01, 0x08, 0xA0,
    0x0E, 0xA0, 0x0C, 0x30, 0x0A, 0x02, 0x01, 0x02, 0x03, 0x05, 0x06, 0x00, 0x00, 0x00, 0x40,
];

/// The notice badDataFormat.
const BAD_DATA_FORMAT: [u8; 28] = [
    0x30, 0x1A, 0x06, 0x0B, 0x2A, 0x86, 0x48, 0x86, 0xF7, 0x0D, 0x01, 0x09, 0x10, 0x01, 0x08, 0xA0,
    0x0B, 0xA0, 0x09, 0x30, 0x07, 0x02, 0x01, 0x02, 0x03, 0x02, 0x02, 0x04,
];

/// A claim of possession whose SHA-256 digest has 31 octets.
const SHORT_CLAIM: [u8; 72] = [
    0x30, 0x46, 0x06, 0x0B, 0x2A, 0x86, 0x48, 0x86, 0xF7, 0x0D, 0x01, 0x09, 0x10, 0x01, 0x07, 0xA0,
    0x37, 0x30, 0x35, 0x30, 0x03, 0x0A, 0x01, 0x04, 0x30, 0x2E, 0x30, 0x0B, 0x06, 0x09, 0x60, 0x86,
    0x48, 0x01, 0x65, 0x03, 0x04, 0x02, 0x01, 0x04, 0x1F, 0xBA, 0x78, 0x16, 0xBF, 0x8F, 0x01, 0xCF,
    0xEA, 0x41, 0x41, 0x40, 0xDE, 0x5D, 0xAE, 0x22, 0x23, 0xB0, 0x03, 0x61, 0xA3, 0x96, 0x17, 0x7A,
    0x9C, 0xB4, 0x10, 0xFF, 0x61, 0xF2, 0x00, 0x15,
];

/// The server over a new register, at the beginning of 2025.
fn given<'a>(input: &'a [u8], cut: usize) -> Given<'a>
    ensures { result.cut ≡ cut }
{
    Given {
        words: &SERVE,
        input,
        cut,
        clock: NEW_YEAR,
    }
}

/// Whether `reissue` on a register, with these words behind it, ends with this status, puts these octets, and leaves the register as it is.
fn is_again(
    rt: &HostRuntime,
    register: &Left,
    words: [&str; 2],
    status: u8,
    sent: &[u8],
) -> Result<bool, Fail> {
    let [seed, serial] = words;
    let words = ["reissue", "register", seed, serial];
    let again = run_command(rt, &words, &register.file, &[], NO_FAULTS)?;
    Ok(
        again.status == status
            && again.sent.as_slice() == sent
            && again.file.as_slice() == register.file.as_slice(),
    )
}

#[test]
fn a_certificate(rt: HostRuntime) -> Result<(), Fail> {
    let made = new_register(&rt)?;
    assert_eq!(rt; made.status, 0);
    let left = run_server(
        &rt,
        &given(&TWO_REQUESTS[..29], 65_536),
        &made.file,
        &made.sent,
        NO_FAULTS,
    )?;
    assert_eq!(rt; left.status, 0);
    assert!(rt; holds(&left.sent, &INFO));

    // It is given again, and so is the own certificate; there is no third one, and none under another key.
    assert!(rt; is_again(&rt, &left, ["seed", "2"], 0, &left.sent)?);
    assert!(rt; is_again(&rt, &left, ["seed", "1"], 0, &made.sent)?);
    assert!(rt; is_again(&rt, &left, ["seed", "3"], 12, &[])?);
    assert!(rt; is_again(&rt, &left, ["other", "2"], 3, &[])?);

    // A register isn't made over one that is there.
    let words = [
        "init",
        "register",
        "seed",
        "Trial",
        "--from",
        "20200101000000Z",
        "--days",
        "1",
    ];
    let again = run_command(&rt, &words, &left.file, &[], NO_FAULTS)?;
    assert_eq!(rt; again.status, 12);
    assert_eq!(rt; again.sent.len(), 0);
    assert_eq!(rt; again.file.as_slice(), left.file.as_slice());
    Ok(())
}

#[test]
fn any_cut(rt: HostRuntime) -> Result<(), Fail> {
    let made = new_register(&rt)?;
    let whole = run_server(
        &rt,
        &given(&TWO_REQUESTS, 65_536),
        &made.file,
        &made.sent,
        NO_FAULTS,
    )?;
    assert_eq!(rt; whole.status, 0);
    for cut in 1usize..55 {
        let left = run_server(
            &rt,
            &given(&TWO_REQUESTS, cut),
            &made.file,
            &made.sent,
            NO_FAULTS,
        )?;
        assert_eq!(rt; left.status, 0, "cut after {cut}");
        assert_eq!(rt;
            left.sent.as_slice(),
            whole.sent.as_slice(),
            "cut after {cut}"
        );
        assert_eq!(rt;
            left.file.as_slice(),
            whole.file.as_slice(),
            "cut after {cut}"
        );
    }
    Ok(())
}

// Each of the 31 leaves behind the own certificate's gives a certificate, and then the requests for one get systemUnavail.
#[test]
fn a_full_register(rt: HostRuntime) -> Result<(), Fail> {
    let alloc = rt.alloc();
    let made = new_register(&rt)?;
    let mut input = Vec::new(alloc);
    for _ in 0..32 {
        input.extend_from_slice(&TWO_REQUESTS[..29])?;
    }
    input.extend_from_slice(&SHORT_CLAIM)?;
    let left = run_server(
        &rt,
        &given(&input, 65_536),
        &made.file,
        &made.sent,
        NO_FAULTS,
    )?;
    assert_eq!(rt; left.status, 0);
    let last = run_command(
        &rt,
        &["reissue", "register", "seed", "32"],
        &left.file,
        &[],
        NO_FAULTS,
    )?;
    assert_eq!(rt; last.status, 0);
    let mut end = last.sent.to_vec(alloc)?;
    end.extend_from_slice(&SYSTEM_UNAVAIL)?;
    end.extend_from_slice(&BAD_DATA_FORMAT)?;
    assert!(rt; left.sent.ends_with(&end));
    Ok(())
}

/// The faults with this call of the station failing.
fn station_fault(call: u64) -> Faults {
    Faults {
        station: Some(call),
        ..NO_FAULTS
    }
}

// At a fault of the register's file no certificate goes out; the one put is the last call.
#[test]
fn faults_of_the_station(rt: HostRuntime) -> Result<(), Fail> {
    let made = new_register(&rt)?;
    let request = &TWO_REQUESTS[..29];
    let mut put = None;
    let mut last = 6;
    for call in 0u64..40 {
        let left = run_server(
            &rt,
            &given(request, 65_536),
            &made.file,
            &made.sent,
            station_fault(call),
        )?;
        last = left.status;
        match left.status {
            0 => break,
            5 => {
                assert_eq!(rt; put, None);
                put = Some(call);
            }
            6 => assert!(rt;
                left.sent.is_empty() || left.sent.as_slice() == SYSTEM_FAILURE.as_slice(),
                "call {call}"
            ),
            status => assert_eq!(rt; status, 6, "call {call}"),
        }
    }
    assert!(rt; put.is_some());
    assert_eq!(rt; last, 0);
    Ok(())
}

/// The faults, and the input with its first cut, that give a status; and how many octets were put.
#[test]
fn faults_of_the_others(rt: HostRuntime) -> Result<(), Fail> {
    let made = new_register(&rt)?;
    let rows = [
        (
            Faults {
                source: Some(1),
                ..NO_FAULTS
            },
            40,
            4,
        ),
        (
            Faults {
                clock: Some(1),
                ..NO_FAULTS
            },
            55,
            7,
        ),
    ];
    let first = run_server(
        &rt,
        &given(&TWO_REQUESTS[..29], 65_536),
        &made.file,
        &made.sent,
        NO_FAULTS,
    )?;
    for (faults, cut, status) in rows {
        let left = run_server(
            &rt,
            &given(&TWO_REQUESTS, cut),
            &made.file,
            &made.sent,
            faults,
        )?;
        assert_eq!(rt; left.status, status);
        assert_eq!(rt;
            left.sent.as_slice(),
            first.sent.as_slice(),
            "status {status}"
        );
    }
    for call in 0u64..3 {
        let faults = Faults {
            shelf: Some(call),
            ..NO_FAULTS
        };
        let left = run_server(
            &rt,
            &given(&TWO_REQUESTS, 65_536),
            &made.file,
            &made.sent,
            faults,
        )?;
        assert_eq!(rt; left.status, 10, "call {call}");
        assert_eq!(rt; left.sent.len(), 0, "call {call}");
    }
    Ok(())
}

/// Words that are refused with a status: files that aren't there or aren't what they should be.
#[rattlefmt::skip]
const REFUSED: [(&[&str], u8); 10] = [
    (&["serve", "register", "short", "own", "trust"], 3),
    (&["serve", "register", "other", "own", "trust"], 3),
    (&["serve", "register", "seed", "seed", "trust"], 3),
    (&["serve", "register", "seed", "own", "long"], 3),
    (&["serve", "register", "seed", "own", "seed"], 3),
    (&["serve", "register", "missing", "own", "trust"], 10),
    (&["serve", "register", "seed", "missing", "trust"], 10),
    (&["serve", "register", "seed", "own", "missing"], 10),
    (&["serve"], 2),
    (&["reissue", "register", "seed", "1"], 2),
];

#[test]
fn refused_files(rt: HostRuntime) -> Result<(), Fail> {
    let made = new_register(&rt)?;
    for (words, status) in REFUSED {
        let refused = Given {
            words,
            input: &TWO_REQUESTS,
            cut: 65_536,
            clock: NEW_YEAR,
        };
        let left = run_server(&rt, &refused, &made.file, &made.sent, NO_FAULTS)?;
        assert_eq!(rt; left.status, status, "{words:?}");
        assert_eq!(rt; left.sent.len(), 0, "{words:?}");
        assert_eq!(rt; left.file.as_slice(), made.file.as_slice(), "{words:?}");
    }

    // A register that isn't there, and one without its first record.
    for register in [&[], &made.file[..77.min(made.file.len())]] {
        let left = run_server(
            &rt,
            &given(&TWO_REQUESTS, 65_536),
            register,
            &made.sent,
            NO_FAULTS,
        )?;
        assert_eq!(rt; left.status, 3);
        assert_eq!(rt; left.sent.len(), 0);
    }
    Ok(())
}

/// A notice's octets with this failure: the first 26 of a notice with one octet of failures.
#[test]
fn moments(rt: HostRuntime) -> Result<(), Fail> {
    let time_not_available = [
        0x30, 0x1B, 0x06, 0x0B, 0x2A, 0x86, 0x48, 0x86, 0xF7, 0x0D, 0x01, 0x09, 0x10, 0x01, 0x08,
        0xA0, 0x0C, 0xA0, 0x0A, 0x30, 0x08, 0x02, 0x01, 0x02, 0x03, 0x03, 0x01, 0x00, 0x02,
    ];
    let made = new_register(&rt)?;
    // One second before the certificate's first one; one behind its last; and a year past 9999.
    let rows: [(u64, u8, &[u8]); 3] = [
        (1_577_836_799, 0, &time_not_available),
        (1_893_456_001, 0, &time_not_available),
        (253_402_300_800, 11, &[]),
    ];
    for (clock, status, sent) in rows {
        let late = Given {
            words: &SERVE,
            input: &TWO_REQUESTS[..29],
            cut: 65_536,
            clock,
        };
        let left = run_server(&rt, &late, &made.file, &made.sent, NO_FAULTS)?;
        assert_eq!(rt; left.status, status, "{clock}");
        assert_eq!(rt; left.sent.as_slice(), sent, "{clock}");
        assert_eq!(rt; left.file.as_slice(), made.file.as_slice(), "{clock}");
    }
    Ok(())
}

/// Inputs, with the status and the notices that they get.
#[rattlefmt::skip]
const ENDS: [(&[u8], u8, &[u8]); 7] = [
    (&[], 0, &[]),
    (&[0x30, 0x00], 0, &BAD_DATA_FORMAT),
    (&[0x30, 0x01], 9, &[]),
    (&[0x30], 9, &[]),
    (&[0x31, 0x00], 9, &[]),
    (&[0x30, 0x00, 0x30, 0x83, 0x03, 0xFF, 0xFC, 0x30, 0x00], 9, &BAD_DATA_FORMAT),
    (&[0x30, 0x00, 0x30, 0x81, 0x7F], 9, &BAD_DATA_FORMAT),
];

#[test]
fn ends(rt: HostRuntime) -> Result<(), Fail> {
    let made = new_register(&rt)?;
    for (octets, wanted, notices) in ENDS {
        let left = run_server(
            &rt,
            &given(octets, 65_536),
            &made.file,
            &made.sent,
            NO_FAULTS,
        )?;
        assert_eq!(rt; left.status, wanted, "{octets:?}");
        assert_eq!(rt; left.sent.as_slice(), notices, "{octets:?}");
    }
    Ok(())
}

// A value of 262,144 octets is the longest request.
#[test]
fn the_longest_request(rt: HostRuntime) -> Result<(), Fail> {
    let alloc = rt.alloc();
    let made = new_register(&rt)?;
    let mut octets = [0x30, 0x83, 0x03, 0xFF, 0xFB].to_vec(alloc)?;
    octets.resize(262_144, 0)?;
    let left = run_server(
        &rt,
        &given(&octets, 65_536),
        &made.file,
        &made.sent,
        NO_FAULTS,
    )?;
    assert_eq!(rt; left.status, 0);
    assert_eq!(rt; left.sent.as_slice(), BAD_DATA_FORMAT.as_slice());
    Ok(())
}
