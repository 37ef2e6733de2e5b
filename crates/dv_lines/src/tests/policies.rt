//! Policies.

use super::*;

#[rattlefmt::skip]
const POLICIES: [Row; 8] = [
    (&["serve", "r", "s", "c", "t", "--policy=1.3.6.1.4.1.99999.1"], "Serve { register: \"r\", seed: \"s\", certificate: \"c\", trust: \"t\", policy: Some(Policy { octets: [43, 6, 1, 4, 1, 134, 141, 31, 1] }) }"),
    (&["serve", "r", "s", "c", "t", "--policy="], "'' is no OID: decimal arcs with dots between them, at most 1024 octets"),
    (&["serve", "r", "s", "c", "t", "--policy=1"], "'1' is no OID: decimal arcs with dots between them, at most 1024 octets"),
    (&["serve", "r", "s", "c", "t", "--policy=1.40"], "'1.40' is no OID: decimal arcs with dots between them, at most 1024 octets"),
    (&["serve", "r", "s", "c", "t", "--policy=1.03"], "'1.03' is no OID: decimal arcs with dots between them, at most 1024 octets"),
    (&["serve", "r", "s", "c", "t", "--policy=1.3."], "'1.3.' is no OID: decimal arcs with dots between them, at most 1024 octets"),
    (&["serve", "r", "s", "c", "t", "--policy=3.1"], "'3.1' is no OID: decimal arcs with dots between them, at most 1024 octets"),
    (&["serve", "r", "s", "c", "t", "--policy=id"], "'id' is no OID: decimal arcs with dots between them, at most 1024 octets"),
];

#[test]
fn policies(rt: HostRuntime) -> Result<(), Fail> {
    compare(&rt, &POLICIES)
}

/// A text of an identifier with so many arcs behind `1.2`, and this behind it.
fn outcome_of_arcs(alloc: Global, arcs: usize, behind: &str) -> Result<String, Fail> {
    let mut text = "--policy=1.2".to_string(alloc)?;
    for _ in 0..arcs {
        text.push_str(".3")?;
    }
    text.push_str(behind)?;
    outcome(alloc, &["serve", "r", "s", "c", "t", text.as_str()])
}

// 3 octets, two for each of 510 arcs, and one more; and then one too many.
#[test]
fn the_longest_policy(rt: HostRuntime) -> Result<(), Fail> {
    let found = outcome_of_arcs(rt.alloc(), 510, "3")?;
    assert!(rt; found.contains("octets: [42, 3, 3, "));
    let found = outcome_of_arcs(rt.alloc(), 510, "33")?;
    assert!(rt;
        found.ends_with("' is no OID: decimal arcs with dots between them, at most 1024 octets")
    );
    Ok(())
}
