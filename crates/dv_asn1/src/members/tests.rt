//! Lists of small numbers and of any values, worked out by hand.

use super::*;
use crate::lists::{OctetLists, Octets, Places};
use std::test::Fail;

/// An INTEGER of 0 to 255.
#[derive(Clone, Copy, Debug, PartialEq, Eq)]
struct Small(u64);

impl<'a> Decode<'a> for Small {
    ghost use Rattle.dv_schema.specs.Types.{number_to};

    ghost schema = { number_to 2 255 };

    ghost view = { λ s. s.0 };

    fn read(c: &mut Cursor<'a>) -> Result<Small, Der> {
        let number = c.read_number(0x02, 255)?;
        Ok(Small(number))
    }
}

fn set_len(octets: &[u8]) -> Result<usize, Der> {
    Ok(read_set::<AnyValue>(&mut Cursor::new(octets), 0x31, true)?.len())
}

fn list_len(octets: &[u8]) -> Result<usize, Der> {
    Ok(read_list::<AnyValue>(&mut Cursor::new(octets), 0x30, true)?.len())
}

fn is_set_there(octets: &[u8]) -> Result<bool, Der> {
    Ok(read_optional_set::<AnyValue>(&mut Cursor::new(octets), 0x31, true)?.is_some())
}

fn is_list_there(octets: &[u8]) -> Result<bool, Der> {
    Ok(read_optional_list::<AnyValue>(&mut Cursor::new(octets), 0x30, true)?.is_some())
}

#[test]
fn lists_and_sets(rt: HostRuntime) {
    let list = [0x30, 0x07, 0x02, 0x02, 0x00, 0x80, 0x02, 0x01, 0x07];
    let set = [0x31, 0x07, 0x02, 0x02, 0x00, 0x80, 0x02, 0x01, 0x07];
    assert_eq!(rt; list_len(&list), Ok(7));
    assert_eq!(rt; list_len(&[0x30, 0x00]), Err(Der::new(0, Why::Value)));
    assert_eq!(rt; set_len(&set), Err(Der::new(6, Why::Order)));
    assert_eq!(rt; is_list_there(&list), Ok(true));
    assert_eq!(rt; is_list_there(&set), Ok(false));
    assert_eq!(rt; is_set_there(&list), Ok(false));
    assert_eq!(rt; is_set_there(&[0x31, 0x02, 0x05, 0x00]), Ok(true));
}

fn member(octets: &[u8], index: u64) -> Option<Small> {
    member_at(&Cursor::new(octets), index)
}

#[test]
fn members_by_index(rt: HostRuntime) {
    let members = [0x02, 0x02, 0x00, 0x80, 0x02, 0x01, 0x07];
    assert_eq!(rt;
        count_members::<AnyValue>(&Cursor::new(&members), true, 0),
        Ok(2)
    );
    assert_eq!(rt;
        check_set::<AnyValue>(&Cursor::new(&members), true, 0),
        Err(Der::new(4, Why::Order))
    );
    assert_eq!(rt; member(&members, 1), Some(Small(7)));
    assert_eq!(rt; member(&members, 2), None);
}

#[test]
fn lists_of_fields(rt: HostRuntime) -> Result<(), Fail> {
    let octets = [1, 2].to_vec(rt.alloc())?;
    let octets = Octets::new(octets);
    assert_eq!(rt; octets.as_slice(), [1, 2].as_slice());
    let mut lists = Vec::new(rt.alloc());
    lists.push(octets.into_vec())?;
    let lists = OctetLists::new(lists);
    assert_eq!(rt; lists.as_slice().len(), 1);
    assert_eq!(rt; lists.into_vec().len(), 1);
    let places = Places::new([7].to_vec(rt.alloc())?);
    assert_eq!(rt; places.as_slice(), [7].as_slice());
    assert_eq!(rt; places.into_vec().len(), 1);
    Ok(())
}
