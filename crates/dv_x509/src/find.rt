//! Finding a value in a list by its identifier.

ghost use Rattle.std.specs.Prelude.{◌≡◌, List, ℕ, length, option_map, Ok};
ghost use Rattle.dv_schema.specs.Schema.{Schema, ValueOf};
ghost use Rattle.dv_schema.specs.Reading.{all_at, read};
ghost use Rattle.dv_schema.specs.Answers.{Reads};
ghost use Rattle.dv_schema.specs.Types.{oid as oid_type};
ghost use Rattle.dv_names.specs.Types.{extension, policy_information};
ghost use Rattle.dv_names.specs.Views.{view_extension, view_oid, view_policy};
ghost use Rattle.dv_x509.specs.Members.{front_of};
ghost use Rattle.dv_x509.specs.Uses.{first_named, name_of_extension};

use dv_asn1::{Cursor, Decode, Der, same};
use dv_names::{Extension, Oid, PolicyInfo};

/// A type whose values have an identifier.
pub(crate) trait Named<'a>: Sized {
    ghost schema: { Schema };

    ghost view: { Self → ValueOf schema };

    ghost name: { ValueOf schema → List ℕ };

    /// Reads one value. After a refusal the cursor is where it was.
    fn take(c: &mut Cursor<'a>) -> Result<Self, Der>
        ensures { Reads view result c.old c.new (read schema c.old) };

    /// The contents octets of the identifier.
    fn name(&self) -> &'a [u8]
        ensures { result.now ≡ name (view self.now) };
}

impl<'a> Named<'a> for Extension<'a> {
    ghost use Rattle.dv_names.specs.Types.{extension};
    ghost use Rattle.dv_names.specs.Views.{view_extension};
    ghost use Rattle.dv_x509.specs.Uses.{name_of_extension};

    ghost schema = { extension };

    ghost view = { view_extension };

    ghost name = { name_of_extension };

    fn take(c: &mut Cursor<'a>) -> Result<Extension<'a>, Der> {
        Extension::read(c)
    }

    fn name(&self) -> &'a [u8] {
        self.oid.octets
    }
}

impl<'a> Named<'a> for Oid<'a> {
    ghost use Rattle.dv_schema.specs.Types.{oid as oid_type};
    ghost use Rattle.dv_names.specs.Views.{view_oid};

    ghost schema = { oid_type };

    ghost view = { view_oid };

    ghost name = { λ v. v };

    fn take(c: &mut Cursor<'a>) -> Result<Oid<'a>, Der> {
        Oid::read(c)
    }

    fn name(&self) -> &'a [u8] {
        self.octets
    }
}

impl<'a> Named<'a> for PolicyInfo<'a> {
    ghost use Rattle.dv_names.specs.Types.{policy_information};
    ghost use Rattle.dv_names.specs.Views.{view_policy};

    ghost schema = { policy_information 48 };

    ghost view = { view_policy };

    ghost name = { λ v. v.0 };

    fn take(c: &mut Cursor<'a>) -> Result<PolicyInfo<'a>, Der> {
        PolicyInfo::read(c)
    }

    fn name(&self) -> &'a [u8] {
        self.oid.octets
    }
}

/// The first value with this identifier, in the contents of a list that was read.
pub(crate) fn find<'a, T: Named<'a> + Drop>(contents: &'a [u8], id: &[u8]) -> Option<T>
    ensures { (vs : List (ValueOf T.schema))
        → all_at (read T.schema) (length contents.now) (front_of contents.now) ≡ Ok vs
        → option_map T.view result ≡ first_named T.name id.now vs }
{
    let mut next = Cursor::new(contents);
    while !next.at_end() {
        match T::take(&mut next) {
            Err(_) => return None,
            Ok(member) => {
                if same(id, member.name()) {
                    return Some(member);
                }
            }
        }
    }
    None
}
