//! Good and bad values, worked out by hand from X.690, with the refusal and the place of each bad one.

ghost use Rattle.std.specs.Prelude.{◌≤◌};

use super::*;
use std::test::Fail;

/// What `skip_value` answers at the front of the octets: how many it takes, or the refusal.
fn skipped(octets: &[u8]) -> Result<usize, Der> {
    Ok(Cursor::new(octets).skip_value()?.len())
}

#[test]
fn any_values(rt: HostRuntime) {
    let values: [(&[u8], usize); 8] = [
        (&[0x30, 0x00], 2),
        (&[0x05, 0x00, 0xFF], 2),
        (&[0x01, 0x01, 0xFF], 3),
        (&[0x02, 0x02, 0x00, 0x80], 4),
        (&[0x03, 0x02, 0x07, 0x80], 4),
        (&[0x06, 0x03, 0x55, 0x1D, 0x0F], 5),
        (&[0x30, 0x05, 0x0A, 0x01, 0x01, 0x05, 0x00], 7),
        (&[0x21, 0x03, 0x00, 0x01, 0x61], 5),
    ];
    for (octets, taken) in values {
        assert_eq!(rt; skipped(octets), Ok(taken), "at {octets:?}");
    }
}

#[test]
fn values_that_end_early(rt: HostRuntime) {
    let values: [(&[u8], u64, Why); 5] = [
        (&[], 0, Why::End),
        (&[0x30], 0, Why::End),
        (&[0x30, 0x82, 0x01], 0, Why::End),
        (&[0x30, 0x03, 0x05, 0x00], 0, Why::End),
        (&[0x30, 0x03, 0x02, 0x02, 0x01], 2, Why::End),
    ];
    for (octets, place, why) in values {
        assert_eq!(rt; skipped(octets), Err(Der::new(place, why)), "at {octets:?}");
    }
}

#[test]
fn refused_tags(rt: HostRuntime) {
    let values: [(&[u8], u64, Why); 3] = [
        (&[0x1F, 0x00], 0, Why::Tag),
        (&[0x10, 0x00], 0, Why::Tag),
        (&[0x11, 0x00], 0, Why::Tag),
    ];
    for (octets, place, why) in values {
        assert_eq!(rt; skipped(octets), Err(Der::new(place, why)), "at {octets:?}");
    }
}

#[test]
fn refused_lengths(rt: HostRuntime) {
    let values: [(&[u8], u64, Why); 6] = [
        (&[0x30, 0x80], 0, Why::Length),
        (&[0x30, 0x81, 0x7F], 0, Why::Length),
        (&[0x30, 0x84, 0x00, 0x00, 0x00, 0x05], 0, Why::Length),
        (&[0x30, 0x85, 0x00, 0x00, 0x00, 0x00, 0x05], 0, Why::Length),
        (&[0x30, 0x89], 0, Why::Length),
        (&[0x30, 0xFF], 0, Why::Length),
    ];
    for (octets, place, why) in values {
        assert_eq!(rt; skipped(octets), Err(Der::new(place, why)), "at {octets:?}");
    }
}

#[test]
fn refused_numbers(rt: HostRuntime) {
    let values: [(&[u8], u64, Why); 5] = [
        (&[0x01, 0x01, 0x01], 0, Why::Value),
        (&[0x01, 0x00], 0, Why::Value),
        (&[0x02, 0x00], 0, Why::Value),
        (&[0x02, 0x02, 0x00, 0x7F], 0, Why::Value),
        (&[0x0A, 0x02, 0xFF, 0x80], 0, Why::Value),
    ];
    for (octets, place, why) in values {
        assert_eq!(rt; skipped(octets), Err(Der::new(place, why)), "at {octets:?}");
    }
}

#[test]
fn refused_bits_and_nulls(rt: HostRuntime) {
    let values: [(&[u8], u64, Why); 4] = [
        (&[0x03, 0x00], 0, Why::Value),
        (&[0x03, 0x01, 0x01], 0, Why::Value),
        (&[0x03, 0x02, 0x01, 0x01], 0, Why::Value),
        (&[0x05, 0x01, 0x00], 0, Why::Value),
    ];
    for (octets, place, why) in values {
        assert_eq!(rt; skipped(octets), Err(Der::new(place, why)), "at {octets:?}");
    }
}

#[test]
fn refused_identifiers(rt: HostRuntime) {
    let values: [(&[u8], u64, Why); 3] = [
        (&[0x06, 0x00], 0, Why::Value),
        (&[0x06, 0x02, 0x80, 0x01], 0, Why::Value),
        (&[0x30, 0x05, 0x05, 0x00, 0x06, 0x01, 0x80], 4, Why::Value),
    ];
    for (octets, place, why) in values {
        assert_eq!(rt; skipped(octets), Err(Der::new(place, why)), "at {octets:?}");
    }
}

#[test]
fn nested_values(rt: HostRuntime) -> Result<(), Fail> {
    // Values around one another, the innermost one empty.
    for (levels, answer) in [(32, Ok(64)), (33, Err(Der::new(64, Why::Depth)))] {
        let mut octets = Vec::new(rt.alloc());
        for level in 0..levels {
            octets.push(0x30)?;
            octets.push(2 * (levels - 1 - level))?;
        }
        assert_eq!(rt; skipped(&octets), answer, "at {levels}");
    }
    Ok(())
}

/// The depth at which a member of the value at the front of the octets is refused.
fn member_at_depth(octets: &[u8], depth: u8) -> Result<usize, Der>
    requires outermost { 1 ≤ depth }
    requires deepest { depth ≤ 32 }
{
    let mut c = Cursor::at_depth(octets, depth);
    let mut inside = c.enter(0x30)?;
    Ok(inside.skip_value()?.len())
}

#[test]
fn depth_of_members(rt: HostRuntime) {
    let octets = [0x30, 0x02, 0x05, 0x00];
    assert_eq!(rt; member_at_depth(&octets, 31), Ok(2));
    assert_eq!(rt; member_at_depth(&octets, 32), Err(Der::new(2, Why::Depth)));
    assert_eq!(rt;
        member_at_depth(&octets[2..], 1),
        Err(Der::new(0, Why::Tag))
    );
}

fn number(octets: &[u8]) -> Result<u64, Der> {
    Cursor::new(octets).read_number(0x0A, 2)
}

fn integer(octets: &[u8]) -> Result<usize, Der> {
    Ok(Cursor::new(octets).read_integer(2)?.len())
}

fn boolean(octets: &[u8]) -> Result<bool, Der> {
    Cursor::new(octets).read_bool(0x01)
}

fn flag(octets: &[u8]) -> Result<bool, Der> {
    Cursor::new(octets).read_flag(0x81)
}

fn identifier(octets: &[u8]) -> Result<usize, Der> {
    Ok(Cursor::new(octets).read_oid()?.len())
}

fn octet_string_len(octets: &[u8]) -> Result<usize, Der> {
    Ok(Cursor::new(octets).read_octets()?.len())
}

fn unused_bits(octets: &[u8]) -> Result<u8, Der> {
    let (unused, _) = Cursor::new(octets).read_bits(0x03)?;
    Ok(unused)
}

fn optional_len(octets: &[u8]) -> Result<Option<usize>, Der> {
    match Cursor::new(octets).read_optional()? {
        None => Ok(None),
        Some(value) => Ok(Some(value.len())),
    }
}

fn finished(octets: &[u8]) -> Result<(), Der> {
    Cursor::new(octets).finish()
}

const BAD_VALUE: Der = Der {
    place: 0,
    why: Why::Value,
};

#[test]
fn numbers_and_integers(rt: HostRuntime) {
    assert_eq!(rt; number(&[0x0A, 0x01, 0x02]), Ok(2));
    assert_eq!(rt; number(&[0x0A, 0x01, 0x03]), Err(BAD_VALUE));
    assert_eq!(rt; number(&[0x0A, 0x01, 0xFF]), Err(BAD_VALUE));
    assert_eq!(rt; integer(&[0x02, 0x02, 0xFF, 0x7F]), Ok(2));
    assert_eq!(rt; integer(&[0x02, 0x03, 0x01, 0x00, 0x00]), Err(BAD_VALUE));
}

#[test]
fn booleans_and_flags(rt: HostRuntime) {
    assert_eq!(rt; boolean(&[0x01, 0x01, 0x00]), Ok(false));
    assert_eq!(rt; boolean(&[0x01, 0x01, 0x01]), Err(BAD_VALUE));
    assert_eq!(rt; flag(&[0x01, 0x01, 0xFF]), Ok(false));
    assert_eq!(rt; flag(&[0x81, 0x01, 0xFF]), Ok(true));
    assert_eq!(rt; flag(&[0x81, 0x01, 0x00]), Err(BAD_VALUE));
}

#[test]
fn strings(rt: HostRuntime) {
    assert_eq!(rt; identifier(&[0x06, 0x01, 0x2A]), Ok(1));
    assert_eq!(rt; identifier(&[0x06, 0x01, 0x80]), Err(BAD_VALUE));
    assert_eq!(rt; octet_string_len(&[0x04, 0x01, 0x61]), Ok(1));
    assert_eq!(rt; unused_bits(&[0x03, 0x02, 0x04, 0xF0]), Ok(4));
    assert_eq!(rt; unused_bits(&[0x03, 0x02, 0x04, 0xF8]), Err(BAD_VALUE));
}

#[test]
fn ends(rt: HostRuntime) {
    assert_eq!(rt; optional_len(&[]), Ok(None));
    assert_eq!(rt; optional_len(&[0x05, 0x00]), Ok(Some(2)));
    assert_eq!(rt; finished(&[]), Ok(()));
    assert_eq!(rt; finished(&[0x00]), Err(Der::new(0, Why::Trailing)));
}

#[test]
fn order_of_a_set(rt: HostRuntime) {
    let sets: [(&[u8], Result<(), Der>); 6] = [
        (&[], Ok(())),
        (&[0x02, 0x01, 0x05, 0x02, 0x01, 0x05], Ok(())),
        (
            &[0x02, 0x01, 0x05, 0x02, 0x01, 0x04],
            Err(Der::new(3, Why::Order)),
        ),
        (&[0x02, 0x01, 0x05, 0x02, 0x02, 0x00, 0x80], Ok(())),
        (
            &[0x05, 0x00, 0x02, 0x01, 0x04],
            Err(Der::new(2, Why::Order)),
        ),
        (
            &[0x05, 0x00, 0x02, 0x01, 0x04, 0x01, 0x00],
            Err(Der::new(5, Why::Value)),
        ),
    ];
    for (octets, answer) in sets {
        assert_eq!(rt; Cursor::new(octets).check_set_of(), answer, "at {octets:?}");
    }
}
