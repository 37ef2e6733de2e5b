//! Lists whose members are counted as they are read.

ghost use Rattle.std.specs.Prelude.{◌≡◌, ◌≤◌, ◌/◌, ◌%◌, IfOk, IsTrue, length, true};
ghost use Rattle.dv_schema.specs.Clear.{is_clear};
ghost use Rattle.dv_schema.specs.Types.{list_of};
ghost use Rattle.dv_schema.specs.Reading.{read};
ghost use Rattle.dv_schema.specs.Answers.{Reads};
ghost use Rattle.dv_members.specs.Members.{values_in};

use dv_asn1::{Cursor, Der, Member, count_members};

/// The contents octets of a list under this constructed tag, with at least one member where `some` is needed, and how many
/// members it has.
pub fn read_counted<'a, T: Member>(
    c: &mut Cursor<'a>,
    tag: u8,
    some: bool,
) -> Result<(&'a [u8], u64), Der>
    requires clear { IsTrue (is_clear T.schema) }
    requires constructed { tag / 32 % 2 ≡ 1 }
    ensures list { Reads (λ x. x.0.now) result c.old c.new (read (list_of tag some T.schema) c.old) }
    ensures count { IfOk result (λ x. x.1 ≡ length (values_in T.schema x.0.now)) }
    ensures few { IfOk result (λ x. x.1 ≤ length x.0.now) }
{
    let mut next = c.fork();
    let inside = next.enter(tag)?;
    let count = count_members::<T>(&inside, some, c.place())?;
    *c = next;
    Ok((inside.rest(), count))
}
