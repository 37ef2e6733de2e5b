//! Notices whose octets were worked out by hand, one for each failure bit that the server uses.

ghost use Rattle.std.specs.Prelude.{◌≡◌, ◌^◌, ◌<◌, ◌≤◌, length};
ghost use Rattle.dv_cert.specs.Notice.{notice_of};

use super::*;
use std::alloc::{AllocError, Global};
use std::test::Fail;

// Fills a slice of the notice's size with it.
fn fill(into: &mut [u8], transaction: &[u8], bit: u8)
    requires bit { bit ≤ 26 }
    requires short { length transaction.now < 2 ^ 32 }
    requires size { length into.old ≡ length (notice_of transaction.now bit) }
{
    let mut out = Writer::new(into);
    notice_bytes(Some(transaction), bit, &mut out);
}

fn notice(alloc: Global, transaction: &[u8], bit: u8) -> Result<Vec<u8>, AllocError>
    requires bit { bit ≤ 26 }
    requires short { length transaction.now < 2 ^ 32 }
{
    let mut octets = vec![in alloc; 0u8; notice_len(Some(transaction), bit)]?;
    fill(&mut octets, transaction, bit);
    Ok(octets)
}

/// A failure bit and its failInfo.
#[rattlefmt::skip]
const FAILURES: [(u8, &[u8]); 13] = [
    (0, &[0x03, 0x02, 0x07, 0x80]),
    (1, &[0x03, 0x02, 0x06, 0x40]),
    (2, &[0x03, 0x02, 0x05, 0x20]),
    (3, &[0x03, 0x02, 0x04, 0x10]),
    (5, &[0x03, 0x02, 0x02, 0x04]),
    (6, &[0x03, 0x02, 0x01, 0x02]),
    (10, &[0x03, 0x03, 0x05, 0x00, 0x20]),
    (14, &[0x03, 0x03, 0x01, 0x00, 0x02]),
    (15, &[0x03, 0x03, 0x00, 0x00, 0x01]),
    (16, &[0x03, 0x04, 0x07, 0x00, 0x00, 0x80]),
    (20, &[0x03, 0x04, 0x03, 0x00, 0x00, 0x08]),
    (24, &[0x03, 0x05, 0x07, 0x00, 0x00, 0x00, 0x80]),
    (25, &[0x03, 0x05, 0x06, 0x00, 0x00, 0x00, 0x40]),
];

#[test]
fn each_failure(rt: HostRuntime) -> Result<(), Fail> {
    for (bit, failure) in FAILURES {
        let octets = notice(rt.alloc(), &[], bit)?;
        let before = octets.len().saturating_sub(failure.len());
        let n = failure.len().min(100) as u8;
        let front = [
            0x30,
            22 + n,
            0x06,
            0x0B,
            0x2A,
            0x86,
            0x48,
            0x86,
            0xF7,
            0x0D,
            0x01,
            0x09,
            0x10,
            0x01,
            0x08,
            0xA0,
            7 + n,
            0xA0,
            5 + n,
            0x30,
            3 + n,
            0x02,
            0x01,
            0x02,
        ];
        assert_eq!(rt; &octets[..before], front.as_slice(), "bit {bit}");
        assert_eq!(rt; &octets[before..], failure, "bit {bit}");
    }
    Ok(())
}

#[test]
fn with_a_transaction(rt: HostRuntime) -> Result<(), Fail> {
    let wanted = [
        0x30, 0x1D, 0x06, 0x0B, 0x2A, 0x86, 0x48, 0x86, 0xF7, 0x0D, 0x01, 0x09, 0x10, 0x01, 0x08,
        0xA0, 0x0E, 0xA0, 0x0C, 0x30, 0x07, 0x02, 0x01, 0x02, 0x03, 0x02, 0x05, 0x20, 0x82, 0x01,
        0x61,
    ];
    let octets = notice(rt.alloc(), &[0x82, 0x01, 0x61], 2)?;
    assert_eq!(rt; octets.as_slice(), wanted.as_slice());
    assert_eq!(rt; notice_len(None, 5), 28);
    Ok(())
}
