//! Lines of `serve`.

use super::*;

#[rattlefmt::skip]
const LINES: [Row; 11] = [
    (&["serve", "r", "s", "c", "t"], "Serve { register: \"r\", seed: \"s\", certificate: \"c\", trust: \"t\", policy: None }"),
    (&["serve", "r", "--policy", "2.999", "s", "c", "t"], "Serve { register: \"r\", seed: \"s\", certificate: \"c\", trust: \"t\", policy: Some(Policy { octets: [136, 55] }) }"),
    (&["serve", "r", "s", "--", "c", "-t"], "Serve { register: \"r\", seed: \"s\", certificate: \"c\", trust: \"-t\", policy: None }"),
    (&["serve"], "REGISTER is missing"),
    (&["serve", "r"], "SEED is missing"),
    (&["serve", "r", "s"], "CERTIFICATE is missing"),
    (&["serve", "r", "s", "c"], "TRUST is missing"),
    (&["serve", "r", "s", "c", "t", "u"], "unexpected argument 'u' found"),
    (&["serve", "r", "s", "c", "t", "--policy"], "a value is required for '--policy <OID>' but none was supplied"),
    (&["serve", "r", "s", "c", "t", "--policy=1.2", "--policy=1.2"], "the argument '--policy <OID>' cannot be used multiple times"),
    (&["serve", "r", "s", "c", "t", "--nonce=05"], "unexpected argument '--nonce' found"),
];

#[test]
fn serves(rt: HostRuntime) -> Result<(), Fail> {
    compare(&rt, &LINES)
}
