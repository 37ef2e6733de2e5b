//! What names the certificate of a signer.

ghost use Rattle.std.specs.Prelude.{◌≡◌};
ghost use Rattle.std.specs.Option.{option_copied};
ghost use Rattle.dv_schema.specs.Reading.{read};
ghost use Rattle.dv_schema.specs.Answers.{Reads};
ghost use Rattle.dv_names.specs.Views.{view_name};
ghost use Rattle.dv_cms.specs.Types.{issuer_and_serial};

use dv_asn1::{Cursor, Decode, Der, same};
use dv_cms::SERIAL_LIMIT;
use dv_names::Name;

/// The tag of an issuer with a serial number.
const ISSUER: u8 = 0x30;

/// The tag of a key identifier.
const KEY_IDENTIFIER: u8 = 0x80;

/// A SignerIdentifier (RFC 5652 5.3).
#[derive(Clone, Copy, Debug)]
pub enum Sid<'a> {
    /// The issuer of the certificate, and the contents octets of its serial number, at most 20.
    Issuer { name: Name<'a>, serial: &'a [u8] },
    /// The octets of its subjectKeyIdentifier.
    KeyId(&'a [u8]),
}

impl<'a> Decode<'a> for Sid<'a> {
    ghost use Rattle.dv_cms.specs.Types.{signer_identifier};
    ghost use Rattle.dv_signed.specs.SidView.{view_sid};

    ghost schema = { signer_identifier };

    ghost view = { view_sid };

    #[tactic(auto, unfolding(dv_schema::specs::Reading::read))]
    fn read(c: &mut Cursor<'a>) -> Result<Sid<'a>, Der> {
        if c.next_is(ISSUER) {
            let (name, serial) = read_issuer(c)?;
            return Ok(Sid::Issuer { name, serial });
        }
        let octets = c.read_tlv(KEY_IDENTIFIER)?;
        Ok(Sid::KeyId(octets))
    }
}

impl Sid<'_> {
    ghost use Rattle.dv_signed.specs.SidView.{names, view_sid};

    /// Whether it names the certificate with this issuer, serial number and subjectKeyIdentifier.
    pub(crate) fn names(&self, issuer: &Name<'_>, serial: &[u8], key_id: Option<&[u8]>) -> bool
        ensures { result
            ≡ names (view_sid self.now) issuer.now.raw.now serial.now (option_copied key_id.entry) }
    {
        match self {
            Sid::Issuer { name, serial: own } => same(name.raw, issuer.raw) && same(own, serial),
            Sid::KeyId(own) => match key_id {
                None => false,
                Some(key_id) => same(own, key_id),
            },
        }
    }
}

/// Reads an issuer and the contents octets of a serial number. `Value` where these are more than 20.
#[tactic(auto, unfolding(dv_schema::specs::Reading::read))]
fn read_issuer<'a>(c: &mut Cursor<'a>) -> Result<(Name<'a>, &'a [u8]), Der>
    ensures { Reads (λ x. (view_name x.0, (x.1.now, tt))) result c.old c.new
        (read issuer_and_serial c.old) }
{
    let mut next = c.fork();
    let mut inside = next.enter(ISSUER)?;
    let name = Name::read(&mut inside)?;
    let serial = inside.read_integer(SERIAL_LIMIT)?;
    inside.finish()?;
    *c = next;
    Ok((name, serial))
}
