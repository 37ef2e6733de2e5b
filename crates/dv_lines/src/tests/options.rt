//! Options of `request` and `show`.

use super::*;

#[rattlefmt::skip]
const OPTIONS: [Row; 13] = [
    (&["request", "cpd", "-abc"], "unexpected argument '-abc' found: options begin with '--', and other words that begin with '-' stand behind '--'"),
    (&["request", "cpd", "-"], "unexpected argument '-' found: options begin with '--', and other words that begin with '-' stand behind '--'"),
    (&["show", "-"], "unexpected argument '-' found: options begin with '--', and other words that begin with '-' stand behind '--'"),
    (&["request", "cpd", "abc", "-h"], "unexpected argument '-h' found: options begin with '--', and other words that begin with '-' stand behind '--'"),
    (&["request", "cpd", "abc", "--nonce"], "a value is required for '--nonce <HEX>' but none was supplied"),
    (&["request", "cpd", "abc", "--nonce", "--at=20250101000000Z"], "a value is required for '--nonce <HEX>' but none was supplied"),
    (&["request", "cpd", "abc", "--nonce", "05", "--nonce", "05"], "the argument '--nonce <HEX>' cannot be used multiple times"),
    (&["request", "cpd", "abc", "--at", "20250101000000Z", "--at=20250101000000Z"], "the argument '--at <TIME>' cannot be used multiple times"),
    (&["request", "cpd", "abc", "--nonc", "05"], "unexpected argument '--nonc' found"),
    (&["request", "cpd", "abc", "--NONCE=05"], "unexpected argument '--NONCE' found"),
    (&["request", "cpd", "abc", "--version"], "unexpected argument '--version' found"),
    (&["show", "--nonce", "05", "a"], "unexpected argument '--nonce' found"),
    (&["show", "--at=20250101000000Z", "a"], "unexpected argument '--at' found"),
];

#[test]
fn options(rt: HostRuntime) -> Result<(), Fail> {
    compare(&rt, &OPTIONS)
}
