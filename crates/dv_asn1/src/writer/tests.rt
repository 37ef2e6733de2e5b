//! Headers and numbers worked out by hand from X.690 8.1.3 and 8.3, and how a caller gets its octets back.

ghost use Rattle.std.specs.Prelude.{◌≡◌, ◌<◌, ◌^◌, length, IfOk};
ghost use Rattle.dv_schema.specs.Tlv.{tlv, integer_octets};

use super::*;
use std::alloc::{AllocError, Global};
use std::test::Fail;

fn put_value(octets: &mut [u8], tag: u8, contents: &[u8])
    requires { length octets.old ≡ length (tlv tag contents.now) }
    ensures { octets.new ≡ tlv tag contents.now }
{
    let mut out = Writer::new(octets);
    out.tlv(tag, contents);
}

fn one_value(alloc: Global, tag: u8, contents: &[u8]) -> Result<Vec<u8>, AllocError>
    requires { length contents.now < 2 ^ 32 }
    ensures { IfOk result (λ v. v.items ≡ tlv tag contents.now) }
{
    let mut octets = vec![in alloc; 0; header_len(contents.len()) + contents.len()]?;
    put_value(&mut octets, tag, contents);
    Ok(octets)
}

fn put_number(octets: &mut [u8], tag: u8, value: u64)
    requires { length octets.old ≡ length (tlv tag (integer_octets value)) }
    ensures { octets.new ≡ tlv tag (integer_octets value) }
{
    let mut out = Writer::new(octets);
    out.number(tag, value);
}

fn one_number(alloc: Global, tag: u8, value: u64) -> Result<Vec<u8>, AllocError>
    ensures { IfOk result (λ v. v.items ≡ tlv tag (integer_octets value)) }
{
    let contents = number_len(value);
    let mut octets = vec![in alloc; 0; header_len(contents) + contents]?;
    put_number(&mut octets, tag, value);
    Ok(octets)
}

#[test]
fn headers(rt: HostRuntime) -> Result<(), Fail> {
    let headers: [(usize, &[u8]); 7] = [
        (0, &[0x04, 0x00]),
        (127, &[0x04, 0x7F]),
        (128, &[0x04, 0x81, 0x80]),
        (255, &[0x04, 0x81, 0xFF]),
        (256, &[0x04, 0x82, 0x01, 0x00]),
        (65_535, &[0x04, 0x82, 0xFF, 0xFF]),
        (65_536, &[0x04, 0x83, 0x01, 0x00, 0x00]),
    ];
    for (contents, header) in headers {
        let value = one_value(
            rt.alloc(),
            0x04,
            vec![in rt.alloc(); 7; contents]?.as_slice(),
        )?;
        assert_eq!(rt; header_len(contents), header.len(), "at {contents}");
        assert!(rt; value.as_slice().starts_with(header), "at {contents}");
        assert_eq!(rt; value.len(), header.len() + contents, "at {contents}");
    }
    Ok(())
}

#[test]
fn numbers(rt: HostRuntime) -> Result<(), Fail> {
    let numbers: [(u64, &[u8]); 8] = [
        (0, &[0x02, 0x01, 0x00]),
        (127, &[0x02, 0x01, 0x7F]),
        (128, &[0x02, 0x02, 0x00, 0x80]),
        (255, &[0x02, 0x02, 0x00, 0xFF]),
        (256, &[0x02, 0x02, 0x01, 0x00]),
        (1 << 32, &[0x02, 0x05, 0x01, 0x00, 0x00, 0x00, 0x00]),
        (
            u64::MAX >> 1,
            &[0x02, 0x08, 0x7F, 0xFF, 0xFF, 0xFF, 0xFF, 0xFF, 0xFF, 0xFF],
        ),
        (
            u64::MAX,
            &[
                0x02, 0x09, 0x00, 0xFF, 0xFF, 0xFF, 0xFF, 0xFF, 0xFF, 0xFF, 0xFF,
            ],
        ),
    ];
    for (value, octets) in numbers {
        assert_eq!(rt;
            one_number(rt.alloc(), 0x02, value)?.as_slice(),
            octets,
            "at {value}"
        );
    }
    Ok(())
}

#[test]
fn several_values(rt: HostRuntime) {
    let mut octets = [9; 8];
    let mut out = Writer::new(&mut octets);
    out.header(0x30, 5);
    out.number(0x0A, 1);
    out.bytes(&[0x05, 0x00]);
    assert_eq!(rt; out.written(), 7);
    assert_eq!(rt; out.room(), 1);
    assert_eq!(rt; octets, [0x30, 0x05, 0x0A, 0x01, 0x01, 0x05, 0x00, 9]);
}
