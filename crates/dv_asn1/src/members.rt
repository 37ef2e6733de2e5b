//! Lists of values of one type: checking their members, counting them, and finding one by its index.

ghost use Rattle.std.specs.Prelude.{◌≡◌, ◌≤◌, ◌/◌, ◌%◌, List, length, MatchOption, slice_get, Ok, Some};
ghost use Rattle.std.specs.Option.{option_copied};
ghost use Rattle.dv_schema.specs.Schema.{Schema, ValueOf, sequence_of, set_of};
ghost use Rattle.dv_schema.specs.Reading.{all_at, is_tag_of, maybe_at, read, read_fields, starts_list};
ghost use Rattle.dv_schema.specs.Answers.{Gives, Passes, Reads, counted, skipped};
ghost use Rattle.dv_schema.specs.Types.{any, list_of, ordered_of};

use crate::cursor::Cursor;
use dv_schema::{Der, Why};

/// A type whose values stand in lists.
pub trait Member {
    ghost schema: { Schema };

    /// Passes one value. After a refusal the cursor is where it was.
    fn pass(c: &mut Cursor<'_>) -> Result<(), Der>
        ensures { Passes result c.old c.new (read schema c.old) };
}

/// A type that is read from a cursor.
pub trait Decode<'a>: Sized {
    ghost schema: { Schema };

    ghost view: { Self → ValueOf schema };

    /// Reads one value. After a refusal the cursor is where it was.
    fn read(c: &mut Cursor<'a>) -> Result<Self, Der>
        ensures { Reads view result c.old c.new (read schema c.old) };
}

/// Any well-formed value, as a member.
pub struct AnyValue;

impl Member for AnyValue {
    ghost schema = { any };

    #[tactic(auto, unfolding(dv_schema::specs::Reading::read))]
    fn pass(c: &mut Cursor<'_>) -> Result<(), Der> {
        c.skip_value()?;
        Ok(())
    }
}

/// How many members there are in the contents of the list at this place.
///
/// `Value` at the list where `some` member is needed and there is none, else what the first refused member answers.
pub fn count_members<T: Member>(contents: &Cursor<'_>, some: bool, place: u64) -> Result<u64, Der>
    ensures { Gives (λ n. n) result
        (counted 0 (read_fields (sequence_of some T.schema) place contents.now)) }
{
    let mut next = contents.fork();
    if some && next.at_end() {
        return Err(Der::new(place, Why::Value));
    }
    let mut count = 0;
    while !next.at_end() {
        T::pass(&mut next)?;
        count += 1;
    }
    Ok(count)
}

/// That the contents of the list at this place are members, at least one where `some` is needed.
pub fn check_members<T: Member>(contents: &Cursor<'_>, some: bool, place: u64) -> Result<(), Der>
    ensures { Gives (λ x. x) result
        (skipped (read_fields (sequence_of some T.schema) place contents.now)) }
{
    count_members::<T>(contents, some, place)?;
    Ok(())
}

/// That the contents of the set at this place are members, and then that they ascend (X.690 11.6).
pub fn check_set<T: Member>(contents: &Cursor<'_>, some: bool, place: u64) -> Result<(), Der>
    ensures { Gives (λ x. x) result
        (skipped (read_fields (set_of some T.schema) place contents.now)) }
{
    let _octets = contents.fork();
    check_members::<T>(contents, some, place)?;
    contents.check_order()
}

/// The contents octets of a list under this constructed tag, whose members are checked.
pub fn read_list<'a, T: Member>(c: &mut Cursor<'a>, tag: u8, some: bool) -> Result<&'a [u8], Der>
    requires { tag / 32 % 2 ≡ 1 }
    ensures { Reads (λ x. x.now) result c.old c.new (read (list_of tag some T.schema) c.old) }
{
    let mut next = c.fork();
    let inside = next.enter(tag)?;
    check_members::<T>(&inside, some, c.place())?;
    *c = next;
    Ok(inside.rest())
}

/// The same, where the next value has the tag; None, and nothing read, where it hasn't.
pub fn read_optional_list<'a, T: Member>(
    c: &mut Cursor<'a>,
    tag: u8,
    some: bool,
) -> Result<Option<&'a [u8]>, Der>
    requires { tag / 32 % 2 ≡ 1 }
    ensures { Reads option_copied result c.old c.new
        (maybe_at (starts_list (is_tag_of tag) c.old.rest) c.old
        (read (list_of tag some T.schema) c.old)) }
{
    if c.next_is(tag) {
        Ok(Some(read_list::<T>(c, tag, some)?))
    } else {
        Ok(None)
    }
}

/// The contents octets of a set under this constructed tag, whose members are checked, and then their order.
pub fn read_set<'a, T: Member>(c: &mut Cursor<'a>, tag: u8, some: bool) -> Result<&'a [u8], Der>
    requires { tag / 32 % 2 ≡ 1 }
    ensures { Reads (λ x. x.now) result c.old c.new (read (ordered_of tag some T.schema) c.old) }
{
    let mut next = c.fork();
    let inside = next.enter(tag)?;
    check_set::<T>(&inside, some, c.place())?;
    *c = next;
    Ok(inside.rest())
}

/// The same, where the next value has the tag; None, and nothing read, where it hasn't.
pub fn read_optional_set<'a, T: Member>(
    c: &mut Cursor<'a>,
    tag: u8,
    some: bool,
) -> Result<Option<&'a [u8]>, Der>
    requires { tag / 32 % 2 ≡ 1 }
    ensures { Reads option_copied result c.old c.new
        (maybe_at (starts_list (is_tag_of tag) c.old.rest) c.old
        (read (ordered_of tag some T.schema) c.old)) }
{
    if c.next_is(tag) {
        Ok(Some(read_set::<T>(c, tag, some)?))
    } else {
        Ok(None)
    }
}

/// The member at an index, in the contents of a list that was read; None exactly past the last one.
pub fn member_at<'a, T: Decode<'a> + Drop>(contents: &Cursor<'a>, index: u64) -> Option<T>
    ensures { (vs : List (ValueOf T.schema))
        → all_at (read T.schema) (length contents.now.rest) contents.now ≡ Ok vs
        → MatchOption result (length vs ≤ index) (λ x. slice_get vs index ≡ Some (T.view x)) }
{
    let mut next = contents.fork();
    let mut left = index;
    while !next.at_end() {
        match T::read(&mut next) {
            Err(_) => return None,
            Ok(member) => {
                if left == 0 {
                    return Some(member);
                }
                left -= 1;
            }
        }
    }
    None
}

#[cfg(test)]
mod tests;
