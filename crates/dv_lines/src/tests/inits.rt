//! Lines of `init`.

use super::*;

#[rattlefmt::skip]
const LINES: [Row; 12] = [
    (&["init", "r", "s", "n", "--from", "20250101000000Z", "--days", "365"], "Init { register: \"r\", seed: \"s\", name: \"n\", from: Moment(2366841600), until: Moment(2398377600), first: 1 }"),
    (&["init", "r", "--first=7", "s", "--days", "1", "n", "--from=19500101000000Z"], "Init { register: \"r\", seed: \"s\", name: \"n\", from: Moment(0), until: Moment(86400), first: 7 }"),
    (&["init", "r", "--from=20250101000000Z", "--days=36500", "--", "-s", "-n"], "Init { register: \"r\", seed: \"-s\", name: \"-n\", from: Moment(2366841600), until: Moment(5520441600), first: 1 }"),
    (&["init", "", "s", "n", "--from=99991230235959Z", "--days=00001"], "Init { register: \"\", seed: \"s\", name: \"n\", from: Moment(254033366399), until: Moment(254033452799), first: 1 }"),
    (&["init", "r", "s", "n", "--from=99991231235959Z", "--days", "1"], "'1' is no N of --days: with --from it ends past 99991231235959Z"),
    (&["init"], "REGISTER is missing"),
    (&["init", "r"], "SEED is missing"),
    (&["init", "r", "s"], "NAME is missing"),
    (&["init", "r", "s", "n", "o", "--from", "20250101000000Z", "--days", "365"], "unexpected argument 'o' found"),
    (&["init", "r", "s", "n", "--days", "365"], "--from TIME is missing"),
    (&["init", "r", "s", "n", "--from", "20250101000000Z"], "--days N is missing"),
    (&["init", "r", "s", "n", "--days", "365", "--from", "20250230000000Z"], "'20250230000000Z' is no TIME: YYYYMMDDHHMMSSZ, from 1950 to 9999"),
];

#[test]
fn inits(rt: HostRuntime) -> Result<(), Fail> {
    compare(&rt, &LINES)
}
