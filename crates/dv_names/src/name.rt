//! Names of subjects and issuers.

ghost use Rattle.std.specs.Prelude.{◌≡◌, ◌≤◌, length};
ghost use Rattle.dv_schema.specs.Schema.{spelling};
ghost use Rattle.dv_schema.specs.Reading.{read};
ghost use Rattle.dv_schema.specs.Decodes.{Decodes, HasSpelling};
ghost use Rattle.dv_asn1.specs.Writing.{room_of, Writes};
ghost use Rattle.dv_names.specs.Types.{name};

use crate::algorithm::Oid;
use dv_asn1::{Cursor, Decode, Der, Member, Writer, check_members, check_set};

/// A Name (RFC 5280 4.1.2.4), as its whole value.
#[derive(Clone, Copy, Debug)]
pub struct Name<'a> {
    pub raw: &'a [u8],
    ghost spelled: { ∥ HasSpelling name raw.now ∥₁ },
}

impl<'a> Decode<'a> for Name<'a> {
    ghost use Rattle.dv_names.specs.Types.{name};
    ghost use Rattle.dv_names.specs.Views.{view_name};

    ghost schema = { name };

    ghost view = { view_name };

    #[tactic(auto, unfolding(dv_schema::specs::Reading::read))]
    fn read(c: &mut Cursor<'a>) -> Result<Name<'a>, Der> {
        let mut next = c.fork();
        let inside = next.enter(0x30)?;
        check_members::<NamePart>(&inside, false, c.place())?;
        let raw = c.up_to(&next);
        *c = next;
        Ok(Name { raw })
    }
}

impl<'a> Name<'a> {
    ghost use Rattle.dv_names.specs.Views.{view_name};

    /// The name at the cursor. After a refusal the cursor is where it was.
    #[tactic(auto, using(dv_schema::proofs::Decoding::decodes))]
    pub fn decode(c: &mut Cursor<'a>) -> Result<Name<'a>, Der>
        ensures { Decodes name view_name result c.old c.new }
    {
        let _octets = c.fork();
        Name::read(c)
    }

    /// How many octets the whole value has.
    pub fn encoded_len(&self) -> usize
        ensures { result ≡ length (spelling name (view_name self.now)) }
    {
        self.raw.len()
    }

    /// Writes the whole value.
    pub fn write(&self, out: &mut Writer<'_>)
        requires { length (spelling name (view_name self.now)) ≤ room_of out.old }
        ensures { Writes out.old out.new (spelling name (view_name self.now)) }
    {
        out.bytes(self.raw);
    }
}

/// One type and value of a name.
struct NamedValue;

impl Member for NamedValue {
    ghost use Rattle.dv_names.specs.Types.{named_value};

    ghost schema = { named_value };

    #[tactic(auto, unfolding(dv_schema::specs::Reading::read))]
    fn pass(c: &mut Cursor<'_>) -> Result<(), Der> {
        let mut next = c.fork();
        let mut inside = next.enter(0x30)?;
        Oid::read(&mut inside)?;
        inside.skip_value()?;
        inside.finish()?;
        *c = next;
        Ok(())
    }
}

/// The types and values of a name that stand together.
struct NamePart;

impl Member for NamePart {
    ghost use Rattle.dv_names.specs.Types.{name_part};

    ghost schema = { name_part };

    #[tactic(auto, unfolding(dv_schema::specs::Reading::read))]
    fn pass(c: &mut Cursor<'_>) -> Result<(), Der> {
        let mut next = c.fork();
        let inside = next.enter(0x31)?;
        check_set::<NamedValue>(&inside, true, c.place())?;
        *c = next;
        Ok(())
    }
}
