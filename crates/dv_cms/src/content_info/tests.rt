//! Good and bad values, worked out by hand from RFC 5652 3 and X.690.

use super::*;
use dv_asn1::Why;
use std::test::Fail;

/// The lengths of the type and the content.
fn lens(octets: &[u8]) -> Result<(usize, usize), Der> {
    let read = ContentInfo::decode(octets)?;
    Ok((read.oid.len(), read.content.len()))
}

#[test]
fn spellings(rt: HostRuntime) {
    assert_eq!(rt;
        lens(&[0x30, 0x07, 0x06, 0x01, 0x2A, 0xA0, 0x02, 0x05, 0x00]),
        Ok((1, 2))
    );
    let refused: [(&[u8], u64, Why); 9] = [
        (&[], 0, Why::End),
        (&[0x30, 0x00], 2, Why::End),
        (
            &[0x31, 0x07, 0x06, 0x01, 0x2A, 0xA0, 0x02, 0x05, 0x00],
            0,
            Why::Tag,
        ),
        (
            &[0x30, 0x81, 0x07, 0x06, 0x01, 0x2A, 0xA0, 0x02, 0x05, 0x00],
            0,
            Why::Length,
        ),
        (
            &[0x30, 0x07, 0x06, 0x01, 0x80, 0xA0, 0x02, 0x05, 0x00],
            2,
            Why::Value,
        ),
        (&[0x30, 0x05, 0x06, 0x01, 0x2A, 0xA0, 0x00], 7, Why::End),
        (
            &[
                0x30, 0x09, 0x06, 0x01, 0x2A, 0xA0, 0x04, 0x05, 0x00, 0x05, 0x00,
            ],
            9,
            Why::Trailing,
        ),
        (
            &[
                0x30, 0x09, 0x06, 0x01, 0x2A, 0xA0, 0x02, 0x05, 0x00, 0x05, 0x00,
            ],
            9,
            Why::Trailing,
        ),
        (
            &[0x30, 0x07, 0x06, 0x01, 0x2A, 0xA0, 0x02, 0x05, 0x00, 0x00],
            9,
            Why::Trailing,
        ),
    ];
    for (octets, place, why) in refused {
        assert_eq!(rt; lens(octets), Err(Der::new(place, why)), "at {octets:?}");
    }
}

#[test]
fn written_again(rt: HostRuntime) -> Result<(), Fail> {
    let octets = [0x30, 0x07, 0x06, 0x01, 0x2A, 0xA0, 0x02, 0x05, 0x00];
    let read = ContentInfo::decode(&octets)?;
    assert_eq!(rt; read.encoded_len(), 9);
    let mut into = [0; 9];
    let mut out = Writer::new(&mut into);
    assert!(rt; read.encoded_len() <= out.room());
    read.write(&mut out);
    assert_eq!(rt; into, octets);
    Ok(())
}
