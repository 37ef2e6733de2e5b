//! Lines of `reissue`.

use super::*;

#[rattlefmt::skip]
const LINES: [Row; 13] = [
    (&["reissue", "r", "s", "0"], "Reissue { register: \"r\", seed: \"s\", serial: 0 }"),
    (&["reissue", "r", "s", "18446744073709551615"], "Reissue { register: \"r\", seed: \"s\", serial: 18446744073709551615 }"),
    (&["reissue", "r", "--", "-s", "00000000000000000001"], "Reissue { register: \"r\", seed: \"-s\", serial: 1 }"),
    (&["reissue", "r", "7", "1"], "Reissue { register: \"r\", seed: \"7\", serial: 1 }"),
    (&["reissue", "r", "s", "18446744073709551616"], "'18446744073709551616' is no SERIAL: 1 to 20 decimal digits, at most 18446744073709551615"),
    (&["reissue", "r", "s", "000000000000000000001"], "'000000000000000000001' is no SERIAL: 1 to 20 decimal digits, at most 18446744073709551615"),
    (&["reissue", "r", "s", ""], "'' is no SERIAL: 1 to 20 decimal digits, at most 18446744073709551615"),
    (&["reissue", "r", "s", "0x1"], "'0x1' is no SERIAL: 1 to 20 decimal digits, at most 18446744073709551615"),
    (&["reissue"], "REGISTER is missing"),
    (&["reissue", "r"], "SEED is missing"),
    (&["reissue", "r", "s"], "SERIAL is missing"),
    (&["reissue", "r", "s", "1", "2"], "unexpected argument '2' found"),
    (&["reissue", "r", "s", "1", "--first=1"], "unexpected argument '--first' found"),
];

#[test]
fn reissues(rt: HostRuntime) -> Result<(), Fail> {
    compare(&rt, &LINES)
}
