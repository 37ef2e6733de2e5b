//! Signers.

ghost use Rattle.std.specs.Prelude.{◌≡◌};
ghost use Rattle.std.specs.Option.{option_copied};
ghost use Rattle.dv_schema.specs.Schema.{spelling};
ghost use Rattle.dv_schema.specs.Reading.{read};
ghost use Rattle.dv_schema.specs.Answers.{Reads};
ghost use Rattle.dv_schema.specs.Decodes.{HasSpelling};
ghost use Rattle.dv_names.specs.Views.{view_algorithm};
ghost use Rattle.dv_cms.specs.Types.{signer_info, signer_version};
ghost use Rattle.dv_signed.specs.Fields.{signer_with};
ghost use Rattle.dv_signed.specs.SidView.{names, view_sid};

use crate::sid::Sid;
use dv_asn1::{Cursor, Decode, Der, Why, read_optional_set};
use dv_cms::Attribute;
use dv_names::{AlgId, Name};

/// A SignerInfo (RFC 5652 5.3).
#[derive(Clone, Copy, Debug)]
pub struct SignerInfo<'a> {
    /// The whole value.
    pub raw: &'a [u8],
    /// 1 or 3.
    pub version: u8,
    pub sid: Sid<'a>,
    pub digest_alg: AlgId<'a>,
    /// The contents octets of the signed attributes, at least one, in ascending order.
    pub attributes: Option<&'a [u8]>,
    pub signature_alg: AlgId<'a>,
    pub signature: &'a [u8],
    /// The contents octets of the unsigned attributes, in ascending order.
    pub unsigned_attributes: Option<&'a [u8]>,
    ghost spelled: { ∥ HasSpelling signer_info (signer_with version (view_sid sid) (view_algorithm digest_alg) (option_copied attributes) (view_algorithm signature_alg) signature.now (option_copied unsigned_attributes)) ∥₁ },
    ghost whole: { raw.now ≡ spelling signer_info (signer_with version (view_sid sid) (view_algorithm digest_alg) (option_copied attributes) (view_algorithm signature_alg) signature.now (option_copied unsigned_attributes)) },
}

impl<'a> Decode<'a> for SignerInfo<'a> {
    ghost use Rattle.dv_cms.specs.Types.{signer_info};
    ghost use Rattle.dv_signed.specs.SignerView.{view_signer};

    ghost schema = { signer_info };

    ghost view = { view_signer };

    #[tactic(auto, unfolding(dv_schema::specs::Reading::read))]
    fn read(c: &mut Cursor<'a>) -> Result<SignerInfo<'a>, Der> {
        let mut next = c.fork();
        let mut inside = next.enter(0x30)?;
        let version = read_version(&mut inside)?;
        let sid = Sid::read(&mut inside)?;
        let digest_alg = AlgId::read(&mut inside)?;
        let attributes = read_optional_set::<Attribute>(&mut inside, 0xA0, true)?;
        let signature_alg = AlgId::read(&mut inside)?;
        let signature = inside.read_octets()?;
        let unsigned_attributes = read_optional_set::<Attribute>(&mut inside, 0xA1, false)?;
        inside.finish()?;
        let raw = c.up_to(&next);
        *c = next;
        Ok(SignerInfo {
            raw,
            version,
            sid,
            digest_alg,
            attributes,
            signature_alg,
            signature,
            unsigned_attributes,
        })
    }
}

impl SignerInfo<'_> {
    /// Whether it names the certificate with this issuer, serial number and subjectKeyIdentifier (RFC 5652 5.3): by the issuer,
    /// octet for octet, and the serial number, given by its contents octets; or by the subjectKeyIdentifier, where there is one.
    pub fn names(&self, issuer: &Name<'_>, serial: &[u8], key_id: Option<&[u8]>) -> bool
        ensures { result
            ≡ names (view_sid self.now.sid) issuer.now.raw.now serial.now (option_copied key_id.entry) }
    {
        self.sid.names(issuer, serial, key_id)
    }
}

/// Reads a version. `Value` where it is neither 1 nor 3.
#[tactic(auto, unfolding(dv_schema::specs::Reading::read))]
fn read_version(c: &mut Cursor<'_>) -> Result<u8, Der>
    ensures { Reads (λ n. n) result c.old c.new (read signer_version c.old) }
{
    let mut next = c.fork();
    let number = next.read_number(0x02, 3)?;
    if number != 1 && number != 3 {
        return Err(c.refusal(Why::Value));
    }
    *c = next;
    Ok(number as u8)
}

#[cfg(test)]
mod tests;
