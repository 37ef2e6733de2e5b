//! Lines of `request` and `show`.

use super::*;

#[rattlefmt::skip]
const LINES: [Row; 10] = [
    (&["request", "cpd", "abc"], "Request { service: Cpd, file: \"abc\", nonce: None, at: None }"),
    (&["request", "vsd", "abc"], "Request { service: Vsd, file: \"abc\", nonce: None, at: None }"),
    (&["request", "ccpd", "abc"], "Request { service: Ccpd, file: \"abc\", nonce: None, at: None }"),
    (&["request", "--nonce", "05", "cpd", "abc"], "Request { service: Cpd, file: \"abc\", nonce: Some(Nonce { octets: [5] }), at: None }"),
    (&["request", "cpd", "--nonce=05", "abc"], "Request { service: Cpd, file: \"abc\", nonce: Some(Nonce { octets: [5] }), at: None }"),
    (&["request", "cpd", "abc", "--nonce", "7fFF"], "Request { service: Cpd, file: \"abc\", nonce: Some(Nonce { octets: [127, 255] }), at: None }"),
    (&["request", "cpd", "abc", "--at", "20250101000000Z"], "Request { service: Cpd, file: \"abc\", nonce: None, at: Some(Moment(2366841600)) }"),
    (&["request", "--at=19500101000000Z", "cpd", "--nonce=00", "abc"], "Request { service: Cpd, file: \"abc\", nonce: Some(Nonce { octets: [0] }), at: Some(Moment(0)) }"),
    (&["request", "cpd", "ä/ö"], "Request { service: Cpd, file: \"ä/ö\", nonce: None, at: None }"),
    (&["request", "cpd", ""], "Request { service: Cpd, file: \"\", nonce: None, at: None }"),
];

#[test]
fn requests(rt: HostRuntime) -> Result<(), Fail> {
    compare(&rt, &LINES)
}

#[rattlefmt::skip]
const CHAINS: [Row; 9] = [
    (&["request", "cpkc", "abc"], "Validate { files: [\"abc\"], nonce: None, at: None }"),
    (&["request", "cpkc", "abc", "ca", "abc"], "Validate { files: [\"abc\", \"ca\", \"abc\"], nonce: None, at: None }"),
    (&["request", "cpkc", "--nonce", "05", "abc", "--at=19500101000001Z", "ca"], "Validate { files: [\"abc\", \"ca\"], nonce: Some(Nonce { octets: [5] }), at: Some(Moment(1)) }"),
    (&["request", "--", "cpkc", "-abc", "--at"], "Validate { files: [\"-abc\", \"--at\"], nonce: None, at: None }"),
    (&["request", "cpkc", "a", "b", "c", "d", "e", "f", "g", "h", "i", "j", "k", "l", "m", "n", "o", "p"], "Validate { files: [\"a\", \"b\", \"c\", \"d\", \"e\", \"f\", \"g\", \"h\", \"i\", \"j\", \"k\", \"l\", \"m\", \"n\", \"o\", \"p\"], nonce: None, at: None }"),
    (&["request", "cpkc", "a", "b", "c", "d", "e", "f", "g", "h", "i", "j", "k", "l", "m", "n", "o", "p", "q"], "unexpected argument 'q' found"),
    (&["request", "cpkc"], "FILE is missing"),
    (&["request", "cpkc", "abc", "--nonce", "0005"], "'0005' is no nonce: a shorter HEX spells the same number"),
    (&["request", "cpkc", "abc", "--at", "2025"], "'2025' is no TIME: YYYYMMDDHHMMSSZ, from 1950 to 9999"),
];

#[test]
fn chains(rt: HostRuntime) -> Result<(), Fail> {
    compare(&rt, &CHAINS)
}

#[rattlefmt::skip]
const BEHIND_TWO_DASHES: [Row; 9] = [
    (&["request", "cpd", "--", "-"], "Request { service: Cpd, file: \"-\", nonce: None, at: None }"),
    (&["request", "--", "cpd", "-abc"], "Request { service: Cpd, file: \"-abc\", nonce: None, at: None }"),
    (&["request", "cpd", "--", "--nonce"], "Request { service: Cpd, file: \"--nonce\", nonce: None, at: None }"),
    (&["request", "--nonce", "05", "--", "cpd", "--"], "Request { service: Cpd, file: \"--\", nonce: Some(Nonce { octets: [5] }), at: None }"),
    (&["request", "cpd", "a=b", "--"], "Request { service: Cpd, file: \"a=b\", nonce: None, at: None }"),
    (&["show", "abc"], "Show { file: \"abc\" }"),
    (&["show", "--", "-abc"], "Show { file: \"-abc\" }"),
    (&["show", "--", "--help"], "Show { file: \"--help\" }"),
    (&["show", "ü"], "Show { file: \"ü\" }"),
];

#[test]
fn behind_two_dashes(rt: HostRuntime) -> Result<(), Fail> {
    compare(&rt, &BEHIND_TWO_DASHES)
}
