//! Names of all kinds.

ghost use Rattle.std.specs.Prelude.{◌≡◌, ◌≤◌, ℕ, length};
ghost use Rattle.dv_schema.specs.Schema.{done, field, spelling};
ghost use Rattle.dv_schema.specs.Fits.{inner};
ghost use Rattle.dv_schema.specs.Reading.{read, read_fields};
ghost use Rattle.dv_schema.specs.Answers.{Gives, Passes, skipped};
ghost use Rattle.dv_schema.specs.Decodes.{Decodes, HasSpelling};
ghost use Rattle.dv_asn1.specs.Writing.{room_of, Writes};
ghost use Rattle.dv_names.specs.Types.{general_contents, general_name, name as name_type};

use crate::name::Name;
use dv_asn1::{AnyValue, Cursor, Decode, Der, Member, Writer, check_members, header_len};

/// The tags of a GeneralName.
const TAGS: [u8; 9] = [0xA0, 0x81, 0x82, 0xA3, 0xA4, 0xA5, 0x86, 0x87, 0x88];

/// The tag of a directoryName.
const DIRECTORY_NAME: u8 = 0xA4;

/// A GeneralName (RFC 5280 4.2.1.6): its tag, and its contents octets.
///
/// The tag is one of A0, 81, 82, A3, A4, A5, 86, 87 and 88. Under A4 stands one Name, under A0, A3 and A5 stand well-formed
/// values, and under the others any octets.
#[derive(Clone, Copy, Debug)]
pub struct GeneralName<'a> {
    pub tag: u8,
    pub raw: &'a [u8],
    ghost spelled: { ∥ HasSpelling general_name (tag, raw.now) ∥₁ },
}

impl<'a> Decode<'a> for GeneralName<'a> {
    ghost use Rattle.dv_names.specs.Types.{general_name};
    ghost use Rattle.dv_names.specs.Views.{view_general};

    ghost schema = { general_name };

    ghost view = { view_general };

    #[tactic(auto, unfolding(dv_schema::specs::Reading::read))]
    fn read(c: &mut Cursor<'a>) -> Result<GeneralName<'a>, Der> {
        let mut next = c.fork();
        let (tag, inside) = next.enter_one_of(&TAGS)?;
        check_contents(tag, &inside, c.place())?;
        *c = next;
        Ok(GeneralName {
            tag,
            raw: inside.rest(),
        })
    }
}

impl Member for GeneralName<'_> {
    ghost use Rattle.dv_names.specs.Types.{general_name};

    ghost schema = { general_name };

    fn pass(c: &mut Cursor<'_>) -> Result<(), Der>
        ensures { Passes result c.old c.new (read general_name c.old) }
    {
        GeneralName::read(c)?;
        Ok(())
    }
}

impl<'a> GeneralName<'a> {
    ghost use Rattle.dv_names.specs.Views.{view_general};

    /// The name at the cursor. After a refusal the cursor is where it was.
    #[tactic(auto, using(dv_schema::proofs::Decoding::decodes))]
    pub fn decode(c: &mut Cursor<'a>) -> Result<GeneralName<'a>, Der>
        ensures { Decodes general_name view_general result c.old c.new }
    {
        let _octets = c.fork();
        GeneralName::read(c)
    }

    /// How many octets the whole value has.
    pub fn encoded_len(&self) -> usize
        ensures { result ≡ length (spelling general_name (view_general self.now)) }
    {
        header_len(self.raw.len()) + self.raw.len()
    }

    /// Writes the whole value.
    pub fn write(&self, out: &mut Writer<'_>)
        requires { length (spelling general_name (view_general self.now)) ≤ room_of out.old }
        ensures { Writes out.old out.new (spelling general_name (view_general self.now)) }
    {
        out.tlv(self.tag, self.raw);
    }
}

/// That the contents of the name at this place are those of its tag.
fn check_contents(tag: u8, inside: &Cursor<'_>, place: u64) -> Result<(), Der>
    ensures { Gives (λ x. x) result (skipped (read_fields (general_contents tag) place (record {
      levels = inner tag inside.now.levels;
      place = inside.now.place;
      rest = inside.now.rest;
    }))) }
{
    if tag == DIRECTORY_NAME {
        return check_directory_name(inside);
    }
    if tag / 32 % 2 == 1 {
        return check_members::<AnyValue>(inside, false, place);
    }
    Ok(())
}

/// That there is one Name, and nothing after it.
#[tactic(auto, unfolding(dv_schema::specs::Reading::read))]
fn check_directory_name(inside: &Cursor<'_>) -> Result<(), Der>
    ensures { (place : ℕ)
        → Gives (λ x. x) result (skipped (read_fields (field name_type done) place inside.now)) }
{
    let mut next = inside.fork();
    Name::read(&mut next)?;
    next.finish()?;
    Ok(())
}
