//! Where a register stands.

use super::*;

#[rattlefmt::skip]
const REGISTERS: [Row; 10] = [
    (&["init", "--first", "1", "r", "s", "n", "--from", "20250101000000Z", "--days", "365"], "'--first' is no REGISTER: it stands right behind the command, and doesn't begin with '-'"),
    (&["init", "--", "r", "s", "n", "--from", "20250101000000Z", "--days", "365"], "'--' is no REGISTER: it stands right behind the command, and doesn't begin with '-'"),
    (&["init", "-", "s", "n", "--from", "20250101000000Z", "--days", "365"], "'-' is no REGISTER: it stands right behind the command, and doesn't begin with '-'"),
    (&["serve", "--policy=1.2", "r", "s", "c", "t"], "'--policy=1.2' is no REGISTER: it stands right behind the command, and doesn't begin with '-'"),
    (&["serve", "--", "r", "s", "c", "t"], "'--' is no REGISTER: it stands right behind the command, and doesn't begin with '-'"),
    (&["reissue", "-r", "s", "1"], "'-r' is no REGISTER: it stands right behind the command, and doesn't begin with '-'"),
    (&["reissue", "--", "r", "s", "1"], "'--' is no REGISTER: it stands right behind the command, and doesn't begin with '-'"),
    (&["init", "--help"], "help was asked for"),
    (&["serve", "r", "--help"], "help was asked for"),
    (&["reissue", "r", "s", "1", "--help"], "help was asked for"),
];

#[test]
fn registers(rt: HostRuntime) -> Result<(), Fail> {
    compare(&rt, &REGISTERS)
}
