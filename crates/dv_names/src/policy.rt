//! Certificate policies.

ghost use Rattle.std.specs.Prelude.{◌≡◌, ◌≤◌, ◌/◌, ◌%◌, length};
ghost use Rattle.std.specs.Option.{option_copied};
ghost use Rattle.dv_schema.specs.Schema.{contents as contents_of, spelling};
ghost use Rattle.dv_schema.specs.Reading.{read};
ghost use Rattle.dv_schema.specs.Answers.{Passes, Reads};
ghost use Rattle.dv_schema.specs.Decodes.{Decodes, HasSpelling};
ghost use Rattle.dv_asn1.specs.Writing.{room_of, Writes};
ghost use Rattle.dv_names.specs.Types.{policy_fields, policy_information};

use crate::algorithm::Oid;
use dv_asn1::{AnyValue, Cursor, Decode, Der, Member, Writer, header_len, read_optional_list};

/// A PolicyInformation (RFC 5280 4.2.1.4): a policy, and the contents octets of its qualifiers.
#[derive(Clone, Copy, Debug)]
pub struct PolicyInfo<'a> {
    pub oid: Oid<'a>,
    pub qualifiers: Option<&'a [u8]>,
    ghost spelled: { ∥ HasSpelling (policy_information 48) (oid.octets.now, (option_copied qualifiers, tt)) ∥₁ },
}

impl<'a> Decode<'a> for PolicyInfo<'a> {
    ghost use Rattle.dv_names.specs.Types.{policy_information};
    ghost use Rattle.dv_names.specs.Views.{view_policy};

    ghost schema = { policy_information 48 };

    ghost view = { view_policy };

    fn read(c: &mut Cursor<'a>) -> Result<PolicyInfo<'a>, Der> {
        PolicyInfo::read_under(c, 0x30)
    }
}

impl Member for PolicyInfo<'_> {
    ghost use Rattle.dv_names.specs.Types.{policy_information};

    ghost schema = { policy_information 48 };

    fn pass(c: &mut Cursor<'_>) -> Result<(), Der>
        ensures { Passes result c.old c.new (read (policy_information 48) c.old) }
    {
        PolicyInfo::read(c)?;
        Ok(())
    }
}

impl<'a> PolicyInfo<'a> {
    ghost use Rattle.dv_names.specs.Views.{view_policy};

    /// The policy at the cursor. After a refusal the cursor is where it was.
    #[tactic(auto, using(dv_schema::proofs::Decoding::decodes))]
    pub fn decode(c: &mut Cursor<'a>) -> Result<PolicyInfo<'a>, Der>
        ensures { Decodes (policy_information 48) view_policy result c.old c.new }
    {
        let _octets = c.fork();
        PolicyInfo::read(c)
    }

    /// Reads a policy under this constructed tag, in place of that of a SEQUENCE.
    #[tactic(auto, unfolding(dv_schema::specs::Reading::read))]
    pub fn read_under(c: &mut Cursor<'a>, tag: u8) -> Result<PolicyInfo<'a>, Der>
        requires { tag / 32 % 2 ≡ 1 }
        ensures { Reads view_policy result c.old c.new (read (policy_information tag) c.old) }
    {
        let mut next = c.fork();
        let mut inside = next.enter(tag)?;
        let oid = Oid::read(&mut inside)?;
        let qualifiers = read_optional_list::<AnyValue>(&mut inside, 0x30, true)?;
        inside.finish()?;
        *c = next;
        Ok(PolicyInfo { oid, qualifiers })
    }

    /// How many octets the whole value has, under whichever tag.
    pub fn encoded_len(&self) -> usize
        ensures { result ≡ length (spelling (policy_information 48) (view_policy self.now)) }
    {
        let contents = self.contents_len();
        header_len(contents) + contents
    }

    /// Writes the whole value.
    pub fn write(&self, out: &mut Writer<'_>)
        requires { length (spelling (policy_information 48) (view_policy self.now)) ≤ room_of out.old }
        ensures { Writes out.old out.new (spelling (policy_information 48) (view_policy self.now)) }
    {
        self.write_under(0x30, out);
    }

    /// Writes the whole value under this tag, in place of that of a SEQUENCE.
    pub fn write_under(&self, tag: u8, out: &mut Writer<'_>)
        requires { length (spelling (policy_information tag) (view_policy self.now)) ≤ room_of out.old }
        ensures { Writes out.old out.new (spelling (policy_information tag) (view_policy self.now)) }
    {
        out.header(tag, self.contents_len());
        self.oid.write(out);
        if let Some(qualifiers) = self.qualifiers {
            out.tlv(0x30, qualifiers);
        }
    }

    fn contents_len(&self) -> usize
        ensures { result ≡ length (contents_of policy_fields (view_policy self.now)) }
    {
        let qualifiers = match self.qualifiers {
            None => 0,
            Some(qualifiers) => header_len(qualifiers.len()) + qualifiers.len(),
        };
        self.oid.encoded_len() + qualifiers
    }
}
