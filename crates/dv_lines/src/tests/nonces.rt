//! Nonces.

use super::*;

#[rattlefmt::skip]
const NONCES: [Row; 15] = [
    (&["request", "cpd", "abc", "--nonce="], "'' is no HEX: an even number of hexadecimal digits, from 2 to 128"),
    (&["request", "cpd", "abc", "--nonce", ""], "'' is no HEX: an even number of hexadecimal digits, from 2 to 128"),
    (&["request", "cpd", "abc", "--nonce", "5"], "'5' is no HEX: an even number of hexadecimal digits, from 2 to 128"),
    (&["request", "cpd", "abc", "--nonce", "0x05"], "'0x05' is no HEX: an even number of hexadecimal digits, from 2 to 128"),
    (&["request", "cpd", "abc", "--nonce", " 5"], "' 5' is no HEX: an even number of hexadecimal digits, from 2 to 128"),
    (&["request", "cpd", "abc", "--nonce", "+5"], "'+5' is no HEX: an even number of hexadecimal digits, from 2 to 128"),
    (&["request", "cpd", "abc", "--nonce=-5"], "'-5' is no HEX: an even number of hexadecimal digits, from 2 to 128"),
    (&["request", "cpd", "abc", "--nonce", "0g"], "'0g' is no HEX: an even number of hexadecimal digits, from 2 to 128"),
    (&["request", "cpd", "abc", "--nonce", "٥"], "'٥' is no HEX: an even number of hexadecimal digits, from 2 to 128"),
    (&["request", "cpd", "abc", "--nonce", "0005"], "'0005' is no nonce: a shorter HEX spells the same number"),
    (&["request", "cpd", "abc", "--nonce", "007f"], "'007f' is no nonce: a shorter HEX spells the same number"),
    (&["request", "cpd", "abc", "--nonce", "FF80"], "'FF80' is no nonce: a shorter HEX spells the same number"),
    (&["request", "cpd", "abc", "--nonce", "0080"], "Request { service: Cpd, file: \"abc\", nonce: Some(Nonce { octets: [0, 128] }), at: None }"),
    (&["request", "cpd", "abc", "--nonce", "ff7f"], "Request { service: Cpd, file: \"abc\", nonce: Some(Nonce { octets: [255, 127] }), at: None }"),
    (&["request", "cpd", "abc", "--nonce", "7f7f7f7f7f7f7f7f7f7f7f7f7f7f7f7f7f7f7f7f7f7f7f7f7f7f7f7f7f7f7f7f7f7f7f7f7f7f7f7f7f7f7f7f7f7f7f7f7f7f7f7f7f7f7f7f7f7f7f7f7f7f7f7f7f"], "'7f7f7f7f7f7f7f7f7f7f7f7f7f7f7f7f7f7f7f7f7f7f7f7f7f7f7f7f7f7f7f7f7f7f7f7f7f7f7f7f7f7f7f7f7f7f7f7f7f7f7f7f7f7f7f7f7f7f7f7f7f7f7f7f7f' is no HEX: an even number of hexadecimal digits, from 2 to 128"),
];

#[test]
fn nonces(rt: HostRuntime) -> Result<(), Fail> {
    compare(&rt, &NONCES)
}

// 128 digits are a nonce of 64 octets.
#[test]
fn the_longest_nonce(rt: HostRuntime) -> Result<(), Fail> {
    let alloc = rt.alloc();
    let digits =
        "7f7f7f7f7f7f7f7f7f7f7f7f7f7f7f7f7f7f7f7f7f7f7f7f7f7f7f7f7f7f7f7f7f7f7f7f7f7f7f7f7f7f7f7f7f7f7f7f7f7f7f7f7f7f7f7f7f7f7f7f7f7f7f7f";
    let text = outcome(alloc, &["request", "cpd", "abc", "--nonce", digits])?;
    assert!(rt;
        text.starts_with(
            "Request { service: Cpd, file: \"abc\", nonce: Some(Nonce { octets: [127, 127, "
        )
    );
    Ok(())
}
