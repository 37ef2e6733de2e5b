//! Names of a server.

use super::*;

#[rattlefmt::skip]
const NAMES: [Row; 5] = [
    (&["init", "r", "s", "", "--from", "20250101000000Z", "--days", "365"], "'' is no NAME: 1 to 64 octets"),
    (&["init", "r", "s", "nnnnnnnnnnnnnnnnnnnnnnnnnnnnnnnnnnnnnnnnnnnnnnnnnnnnnnnnnnnnnnnn", "--from", "20250101000000Z", "--days", "365"], "Init { register: \"r\", seed: \"s\", name: \"nnnnnnnnnnnnnnnnnnnnnnnnnnnnnnnnnnnnnnnnnnnnnnnnnnnnnnnnnnnnnnnn\", from: Moment(2366841600), until: Moment(2398377600), first: 1 }"),
    (&["init", "r", "s", "nnnnnnnnnnnnnnnnnnnnnnnnnnnnnnnnnnnnnnnnnnnnnnnnnnnnnnnnnnnnnnnnn", "--from", "20250101000000Z", "--days", "365"], "'nnnnnnnnnnnnnnnnnnnnnnnnnnnnnnnnnnnnnnnnnnnnnnnnnnnnnnnnnnnnnnnnn' is no NAME: 1 to 64 octets"),
    (&["init", "r", "s", "üüüüüüüüüüüüüüüüüüüüüüüüüüüüüüüü", "--from", "20250101000000Z", "--days", "365"], "Init { register: \"r\", seed: \"s\", name: \"üüüüüüüüüüüüüüüüüüüüüüüüüüüüüüüü\", from: Moment(2366841600), until: Moment(2398377600), first: 1 }"),
    (&["init", "r", "s", "üüüüüüüüüüüüüüüüüüüüüüüüüüüüüüüün", "--from", "20250101000000Z", "--days", "365"], "'üüüüüüüüüüüüüüüüüüüüüüüüüüüüüüüün' is no NAME: 1 to 64 octets"),
];

#[test]
fn names(rt: HostRuntime) -> Result<(), Fail> {
    compare(&rt, &NAMES)
}
