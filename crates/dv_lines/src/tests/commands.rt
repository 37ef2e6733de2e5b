//! Commands, and how many words they have.

use super::*;

#[rattlefmt::skip]
const COMMANDS: [Row; 14] = [
    (&[], "there is no command: request, init, serve, reissue or show"),
    (&[""], "'' is no command: request, init, serve, reissue or show"),
    (&["Request", "cpd", "abc"], "'Request' is no command: request, init, serve, reissue or show"),
    (&["--version"], "'--version' is no command: request, init, serve, reissue or show"),
    (&["-h"], "'-h' is no command: request, init, serve, reissue or show"),
    (&["--help"], "help was asked for"),
    (&["request"], "SERVICE is missing"),
    (&["request", "cpd"], "FILE is missing"),
    (&["request", "vpkc", "abc"], "'vpkc' is no SERVICE: cpd, vsd, cpkc or ccpd"),
    (&["request", "CPKC", "abc"], "'CPKC' is no SERVICE: cpd, vsd, cpkc or ccpd"),
    (&["request", "cpd", "abc", "abd"], "unexpected argument 'abd' found"),
    (&["request", "--help"], "help was asked for"),
    (&["show"], "FILE is missing"),
    (&["show", "a", "b"], "unexpected argument 'b' found"),
];

#[test]
fn commands(rt: HostRuntime) -> Result<(), Fail> {
    compare(&rt, &COMMANDS)
}
