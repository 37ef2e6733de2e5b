//! Seconds as `date -u` counts them, and texts and octets worked out by hand from X.680 46, 47 and RFC 5280 4.1.2.5.

use crate::{
    Moment, add_days, parse, read_generalized, read_time, text, time_len, write_generalized,
    write_time,
};
use dv_asn1::{Cursor, Der, Why, Writer};

/// Texts, and the seconds from 1970-01-01T00:00:00Z that they say.
const TEXTS: [(&[u8], u64); 8] = [
    (b"19700101000000Z", 0),
    (b"20000229000000Z", 951_782_400),
    (b"20250101000000Z", 1_735_689_600),
    (b"20491231235959Z", 2_524_607_999),
    (b"20500101000000Z", 2_524_608_000),
    (b"21000228235959Z", 4_107_542_399),
    (b"21000301000000Z", 4_107_542_400),
    (b"99991231235959Z", 253_402_300_799),
];

#[test]
fn texts_of_unix_seconds(rt: HostRuntime) {
    for (expected, seconds) in TEXTS {
        match Moment::from_unix(seconds) {
            None => assert!(rt; false, "at {seconds}"),
            Some(moment) => assert_eq!(rt; &text(moment)[..], expected, "at {seconds}"),
        }
    }
}

#[test]
fn unix_seconds_of_texts(rt: HostRuntime) {
    for (given, seconds) in TEXTS {
        assert_eq!(rt; parse(given), Moment::from_unix(seconds), "at {seconds}");
    }
}

/// The seconds from 1950-01-01T00:00:00Z that a text says.
fn seconds_of(given: &[u8]) -> Option<u64> {
    match parse(given) {
        None => None,
        Some(moment) => Some(moment.seconds()),
    }
}

#[test]
fn texts_before_1970(rt: HostRuntime) {
    assert_eq!(rt; seconds_of(b"19500101000000Z"), Some(0));
    assert_eq!(rt; seconds_of(b"19691231235959Z"), Some(631_151_999));
    assert_eq!(rt; seconds_of(b"19700101000000Z"), Some(631_152_000));
    assert_eq!(rt; seconds_of(b"99991231235959Z"), Some(254_033_452_799));
}

#[test]
fn no_dates(rt: HostRuntime) {
    let texts: [&[u8]; 11] = [
        b"19000101000000Z",
        b"19491231235959Z",
        b"00000101000000Z",
        b"20250230000000Z",
        b"20250229000000Z",
        b"21000229000000Z",
        b"20250431000000Z",
        b"20251301000000Z",
        b"20250001000000Z",
        b"20250100000000Z",
        b"20250132000000Z",
    ];
    for given in texts {
        assert_eq!(rt; parse(given), None, "at {given:?}");
    }
}

#[test]
fn no_times_and_no_forms(rt: HostRuntime) {
    let texts: [&[u8]; 13] = [
        b"20250101240000Z",
        b"20250101006000Z",
        b"20250101000060Z",
        b"20161231235960Z",
        b"20250101000000z",
        b"20250101000000",
        b"20250101000000.5Z",
        b"20250101000000+0000",
        b"202501010000Z",
        b"250101000000Z",
        b"2025010100000 Z",
        b"+0250101000000Z",
        b"",
    ];
    for given in texts {
        assert_eq!(rt; parse(given), None, "at {given:?}");
    }
}

#[test]
fn ends_of_the_range(rt: HostRuntime) {
    assert!(rt; Moment::from_unix(253_402_300_799).is_some());
    assert!(rt; Moment::from_unix(253_402_300_800).is_none());
    assert!(rt; Moment::from_unix(u64::MAX).is_none());
}

/// The text of the moment so many days after that of a text.
fn days_after(given: &[u8], days: u32) -> Option<[u8; 15]> {
    match parse(given) {
        None => None,
        Some(moment) => match add_days(moment, days) {
            None => None,
            Some(later) => Some(text(later)),
        },
    }
}

#[test]
fn days_later(rt: HostRuntime) {
    assert_eq!(rt;
        days_after(b"21000228120000Z", 1),
        Some(*b"21000301120000Z")
    );
    assert_eq!(rt;
        days_after(b"20000228120000Z", 1),
        Some(*b"20000229120000Z")
    );
    assert_eq!(rt;
        days_after(b"20250101000000Z", 365),
        Some(*b"20260101000000Z")
    );
    assert_eq!(rt;
        days_after(b"99991230235959Z", 1),
        Some(*b"99991231235959Z")
    );
    assert_eq!(rt; days_after(b"99991231000000Z", 1), None);
    assert_eq!(rt;
        days_after(b"99991231000000Z", 0),
        Some(*b"99991231000000Z")
    );
    assert_eq!(rt; days_after(b"19500101000000Z", u32::MAX), None);
}

/// The text of the GeneralizedTime at the front of the octets.
fn generalized(octets: &[u8]) -> Result<[u8; 15], Der> {
    let mut cursor = Cursor::new(octets);
    match read_generalized(&mut cursor) {
        Ok(moment) => Ok(text(moment)),
        Err(refusal) => Err(refusal),
    }
}

#[test]
fn generalized_times(rt: HostRuntime) {
    assert_eq!(rt;
        generalized(b"\x18\x0F20250101000000Z"),
        Ok(*b"20250101000000Z")
    );
    let refused: [(&[u8], u64, Why); 7] = [
        (b"", 0, Why::End),
        (b"\x17\x0D250101000000Z", 0, Why::Tag),
        (b"\x18\x0F20250101000000", 0, Why::End),
        (b"\x18\x81\x0F20250101000000Z", 0, Why::Length),
        (b"\x18\x1120250101000000.5Z", 0, Why::Value),
        (b"\x18\x0F20250230000000Z", 0, Why::Value),
        (b"\x18\x0F19491231235959Z", 0, Why::Value),
    ];
    for (octets, place, why) in refused {
        assert_eq!(rt;
            generalized(octets),
            Err(Der::new(place, why)),
            "at {octets:?}"
        );
    }
}

/// The text of the Time at the front of the octets.
fn time(octets: &[u8]) -> Result<[u8; 15], Der> {
    let mut cursor = Cursor::new(octets);
    match read_time(&mut cursor) {
        Ok(moment) => Ok(text(moment)),
        Err(refusal) => Err(refusal),
    }
}

#[test]
fn times(rt: HostRuntime) {
    let good: [(&[u8], [u8; 15]); 6] = [
        (b"\x17\x0D500101000000Z", *b"19500101000000Z"),
        (b"\x17\x0D991231235959Z", *b"19991231235959Z"),
        (b"\x17\x0D000229000000Z", *b"20000229000000Z"),
        (b"\x17\x0D491231235959Z", *b"20491231235959Z"),
        (b"\x18\x0F20500101000000Z", *b"20500101000000Z"),
        (b"\x18\x0F99991231235959Z", *b"99991231235959Z"),
    ];
    for (octets, expected) in good {
        assert_eq!(rt; time(octets), Ok(expected), "at {octets:?}");
    }
}

#[test]
fn no_times(rt: HostRuntime) {
    let refused: [(&[u8], Why); 9] = [
        (b"", Why::End),
        (b"\x16\x0D250101000000Z", Why::Tag),
        (b"\x18\x0F20491231235959Z", Why::Value),
        (b"\x17\x0F20250101000000Z", Why::Value),
        (b"\x17\x0B2501010000Z", Why::Value),
        (b"\x17\x0D250229000000Z", Why::Value),
        (b"\x17\x0D250101000060Z", Why::Value),
        (b"\x17\x11250101000000+0000", Why::Value),
        (b"\x17\x0D25010100000", Why::End),
    ];
    for (octets, why) in refused {
        assert_eq!(rt; time(octets), Err(Der::new(0, why)), "at {octets:?}");
    }
}

#[test]
fn written_generalized(rt: HostRuntime) {
    for (expected, seconds) in TEXTS {
        match Moment::from_unix(seconds) {
            None => assert!(rt; false, "at {seconds}"),
            Some(moment) => {
                let value = write_generalized(moment);
                assert_eq!(rt; &value[..2], b"\x18\x0F".as_slice(), "at {seconds}");
                assert_eq!(rt; &value[2..], expected, "at {seconds}");
            }
        }
    }
}

/// Writes the Time of a text, and gives how many octets it has.
fn put_time(given: &[u8], octets: &mut [u8]) -> usize {
    let mut out = Writer::new(octets);
    if let Some(moment) = parse(given) {
        if time_len(moment) <= out.room() {
            write_time(moment, &mut out);
        }
    }
    out.written()
}

#[test]
fn written_times(rt: HostRuntime) {
    let mut into = [0; 20];
    assert_eq!(rt; put_time(b"20491231235959Z", &mut into), 15);
    assert_eq!(rt; &into[..15], b"\x17\x0D491231235959Z".as_slice());
    assert_eq!(rt; put_time(b"19500101000000Z", &mut into), 15);
    assert_eq!(rt; &into[..15], b"\x17\x0D500101000000Z".as_slice());
    assert_eq!(rt; put_time(b"20500101000000Z", &mut into), 17);
    assert_eq!(rt; &into[..17], b"\x18\x0F20500101000000Z".as_slice());
}
