//! Moments.

use super::*;

#[rattlefmt::skip]
const TIMES: [Row; 12] = [
    (&["request", "cpd", "abc", "--at="], "'' is no TIME: YYYYMMDDHHMMSSZ, from 1950 to 9999"),
    (&["request", "cpd", "abc", "--at", "20250101000000"], "'20250101000000' is no TIME: YYYYMMDDHHMMSSZ, from 1950 to 9999"),
    (&["request", "cpd", "abc", "--at", "20250229000000Z"], "'20250229000000Z' is no TIME: YYYYMMDDHHMMSSZ, from 1950 to 9999"),
    (&["request", "cpd", "abc", "--at", "20251301000000Z"], "'20251301000000Z' is no TIME: YYYYMMDDHHMMSSZ, from 1950 to 9999"),
    (&["request", "cpd", "abc", "--at", "20250101240000Z"], "'20250101240000Z' is no TIME: YYYYMMDDHHMMSSZ, from 1950 to 9999"),
    (&["request", "cpd", "abc", "--at", "20250101000060Z"], "'20250101000060Z' is no TIME: YYYYMMDDHHMMSSZ, from 1950 to 9999"),
    (&["request", "cpd", "abc", "--at", "19491231235959Z"], "'19491231235959Z' is no TIME: YYYYMMDDHHMMSSZ, from 1950 to 9999"),
    (&["request", "cpd", "abc", "--at", "100000101000000Z"], "'100000101000000Z' is no TIME: YYYYMMDDHHMMSSZ, from 1950 to 9999"),
    (&["request", "cpd", "abc", "--at", "20250101000000z"], "'20250101000000z' is no TIME: YYYYMMDDHHMMSSZ, from 1950 to 9999"),
    (&["request", "cpd", "abc", "--at", "20250101T000000"], "'20250101T000000' is no TIME: YYYYMMDDHHMMSSZ, from 1950 to 9999"),
    (&["request", "cpd", "abc", "--at=99991231235959Z"], "Request { service: Cpd, file: \"abc\", nonce: None, at: Some(Moment(254033452799)) }"),
    (&["request", "cpd", "abc", "--at=20240229235959Z"], "Request { service: Cpd, file: \"abc\", nonce: None, at: Some(Moment(2340403199)) }"),
];

#[test]
fn moments(rt: HostRuntime) -> Result<(), Fail> {
    compare(&rt, &TIMES)
}
