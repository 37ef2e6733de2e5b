//! Numbers of days, and serials.

use super::*;

#[rattlefmt::skip]
const DAYS: [Row; 8] = [
    (&["init", "r", "s", "n", "--from=20250101000000Z", "--days", "0"], "'0' is no N of --days: 1 to 36500"),
    (&["init", "r", "s", "n", "--from=20250101000000Z", "--days", "1"], "Init { register: \"r\", seed: \"s\", name: \"n\", from: Moment(2366841600), until: Moment(2366928000), first: 1 }"),
    (&["init", "r", "s", "n", "--from=20250101000000Z", "--days", "36500"], "Init { register: \"r\", seed: \"s\", name: \"n\", from: Moment(2366841600), until: Moment(5520441600), first: 1 }"),
    (&["init", "r", "s", "n", "--from=20250101000000Z", "--days", "36501"], "'36501' is no N of --days: 1 to 36500"),
    (&["init", "r", "s", "n", "--from=20250101000000Z", "--days", ""], "'' is no N of --days: 1 to 36500"),
    (&["init", "r", "s", "n", "--from=20250101000000Z", "--days", "1.5"], "'1.5' is no N of --days: 1 to 36500"),
    (&["init", "r", "s", "n", "--from=20250101000000Z", "--days", "18446744073709551616"], "'18446744073709551616' is no N of --days: 1 to 36500"),
    (&["init", "r", "s", "n", "--from=20250101000000Z", "--days=-1"], "'-1' is no N of --days: 1 to 36500"),
];

#[test]
fn days(rt: HostRuntime) -> Result<(), Fail> {
    compare(&rt, &DAYS)
}

#[rattlefmt::skip]
const FIRST: [Row; 5] = [
    (&["init", "r", "s", "n", "--from=20250101000000Z", "--days=365", "--first", "0"], "'0' is no N of --first: 1 to 4611686018427387904"),
    (&["init", "r", "s", "n", "--from=20250101000000Z", "--days=365", "--first", "1"], "Init { register: \"r\", seed: \"s\", name: \"n\", from: Moment(2366841600), until: Moment(2398377600), first: 1 }"),
    (&["init", "r", "s", "n", "--from=20250101000000Z", "--days=365", "--first", "4611686018427387904"], "Init { register: \"r\", seed: \"s\", name: \"n\", from: Moment(2366841600), until: Moment(2398377600), first: 4611686018427387904 }"),
    (&["init", "r", "s", "n", "--from=20250101000000Z", "--days=365", "--first", "4611686018427387905"], "'4611686018427387905' is no N of --first: 1 to 4611686018427387904"),
    (&["init", "r", "s", "n", "--from=20250101000000Z", "--days=365", "--first", "+1"], "'+1' is no N of --first: 1 to 4611686018427387904"),
];

#[test]
fn first_serials(rt: HostRuntime) -> Result<(), Fail> {
    compare(&rt, &FIRST)
}
