//! Extensions of certificates, lists and requests.

ghost use Rattle.std.specs.Prelude.{◌≡◌, ◌≤◌, length};
ghost use Rattle.dv_schema.specs.Rules.{flag_octets};
ghost use Rattle.dv_schema.specs.Schema.{contents as contents_of, spelling};
ghost use Rattle.dv_schema.specs.Reading.{read};
ghost use Rattle.dv_schema.specs.Decodes.{Decodes, HasSpelling};
ghost use Rattle.dv_asn1.specs.Writing.{room_of, Writes};
ghost use Rattle.dv_names.specs.Types.{extension, extension_fields};

use crate::algorithm::Oid;
use dv_asn1::{Cursor, Decode, Der, Writer, header_len};

/// An Extension (RFC 5280 4.2): its identifier, whether it is critical, and the contents octets of its value.
#[derive(Clone, Copy, Debug)]
pub struct Extension<'a> {
    pub oid: Oid<'a>,
    pub critical: bool,
    pub value: &'a [u8],
    ghost spelled: { ∥ HasSpelling extension (oid.octets.now, (flag_octets critical, (value.now, tt))) ∥₁ },
}

impl<'a> Decode<'a> for Extension<'a> {
    ghost use Rattle.dv_names.specs.Types.{extension};
    ghost use Rattle.dv_names.specs.Views.{view_extension};

    ghost schema = { extension };

    ghost view = { view_extension };

    #[tactic(auto, unfolding(dv_schema::specs::Reading::read))]
    fn read(c: &mut Cursor<'a>) -> Result<Extension<'a>, Der> {
        let mut next = c.fork();
        let mut inside = next.enter(0x30)?;
        let oid = Oid::read(&mut inside)?;
        let critical = inside.read_flag(0x01)?;
        let value = inside.read_octets()?;
        inside.finish()?;
        *c = next;
        Ok(Extension {
            oid,
            critical,
            value,
        })
    }
}

impl<'a> Extension<'a> {
    ghost use Rattle.dv_names.specs.Views.{view_extension};

    /// The extension at the cursor; its value isn't looked at. After a refusal the cursor is where it was.
    #[tactic(auto, using(dv_schema::proofs::Decoding::decodes))]
    pub fn decode(c: &mut Cursor<'a>) -> Result<Extension<'a>, Der>
        ensures { Decodes extension view_extension result c.old c.new }
    {
        let _octets = c.fork();
        Extension::read(c)
    }

    /// How many octets the whole value has.
    pub fn encoded_len(&self) -> usize
        ensures { result ≡ length (spelling extension (view_extension self.now)) }
    {
        let contents = self.contents_len();
        header_len(contents) + contents
    }

    /// Writes the whole value.
    pub fn write(&self, out: &mut Writer<'_>)
        requires { length (spelling extension (view_extension self.now)) ≤ room_of out.old }
        ensures { Writes out.old out.new (spelling extension (view_extension self.now)) }
    {
        out.header(0x30, self.contents_len());
        self.oid.write(out);
        if self.critical {
            out.tlv(0x01, &[0xFF]);
        }
        out.tlv(0x04, self.value);
    }

    fn contents_len(&self) -> usize
        ensures { result ≡ length (contents_of extension_fields (view_extension self.now)) }
    {
        let critical = if self.critical { 3 } else { 0 };
        self.oid.encoded_len() + critical + header_len(self.value.len()) + self.value.len()
    }
}
