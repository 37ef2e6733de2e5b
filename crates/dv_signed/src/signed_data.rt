//! Signed data.

ghost use Rattle.std.specs.Prelude.{◌≡◌, ◌≤◌, ◌<◌, ◌^◌, ◌↔◌, IfOk, IsNone, false, length, option_map, slice_get};
ghost use Rattle.std.specs.Option.{option_copied};
ghost use Rattle.dv_schema.specs.Schema.{spelling};
ghost use Rattle.dv_schema.specs.Types.{list_of};
ghost use Rattle.dv_schema.specs.Reading.{read, read_all};
ghost use Rattle.dv_schema.specs.Answers.{Gives, Reads};
ghost use Rattle.dv_schema.specs.Decodes.{DecodesAll, HasSpelling};
ghost use Rattle.dv_cms.specs.Types.{signed_data, signed_version, signer_info};
ghost use Rattle.dv_signed.specs.Certificates.{certificates_in, certificates_of, signers_in, signers_of};
ghost use Rattle.dv_signed.specs.Fields.{signed_with};
ghost use Rattle.dv_signed.specs.Places.{content_place_of, encap_place_of, type_place_of};
ghost use Rattle.dv_signed.specs.SignerView.{view_signer};

use crate::certificates::{certificate_at, read_certificates};
use crate::encapsulated::Encapsulated;
use crate::signer::SignerInfo;
use dv_asn1::{
    AnyValue, Cursor, Decode, Der, Member, Why, member_at, read_list, read_optional_list,
};
use dv_cms::Signer;
use dv_members::read_counted;
use dv_names::AlgId;

/// The tag of a set.
const SET: u8 = 0x31;

/// The tag of the revocation lists.
const REVOCATION_LISTS: u8 = 0xA1;

/// A SignedData (RFC 5652 5.1).
///
/// The order within its sets isn't compared; that within the attributes of a signer is.
#[derive(Clone, Copy, Debug)]
pub struct SignedData<'a> {
    /// 1 to 5.
    pub version: u8,
    /// The contents octets of the eContentType, an identifier.
    pub content_type: &'a [u8],
    /// The octets of the content, where there is content.
    pub content: Option<&'a [u8]>,
    /// How many certificates there are under tag 30. Other forms of certificates aren't counted.
    pub certificates: u32,
    /// How many signers there are.
    pub signers: u32,
    /// The contents octets of the set of signers.
    pub signer_infos: &'a [u8],
    /// The place of the encapContentInfo in the octets that were decoded.
    pub encap_place: u64,
    /// The place of the eContentType.
    pub type_place: u64,
    /// The place of the content's first octet, where there is content.
    pub content_place: Option<u64>,
    /// The contents octets of the set of digest algorithms.
    digest_algs: &'a [u8],
    /// The contents octets of the set of certificates.
    certificate_set: Option<&'a [u8]>,
    /// The contents octets of the set of revocation lists.
    crls: Option<&'a [u8]>,
    ghost spelled: { ∥ HasSpelling signed_data (signed_with version digest_algs.now content_type.now (option_copied content) (option_copied certificate_set) (option_copied crls) signer_infos.now) ∥₁ },
    ghost short: { length (spelling signed_data (signed_with version digest_algs.now content_type.now (option_copied content) (option_copied certificate_set) (option_copied crls) signer_infos.now)) < 2 ^ 32 },
    pub ghost certificates_counted: { certificates ≡ length (certificates_in (option_copied certificate_set)) },
    pub ghost signers_counted: { signers ≡ length (signers_in signer_infos.now) },
    pub ghost encap_placed: { encap_place ≡ encap_place_of (signed_with version digest_algs.now content_type.now (option_copied content) (option_copied certificate_set) (option_copied crls) signer_infos.now) },
    pub ghost type_placed: { type_place ≡ type_place_of (signed_with version digest_algs.now content_type.now (option_copied content) (option_copied certificate_set) (option_copied crls) signer_infos.now) },
    pub ghost content_placed: { content_place ≡ content_place_of (signed_with version digest_algs.now content_type.now (option_copied content) (option_copied certificate_set) (option_copied crls) signer_infos.now) },
}

impl<'a> SignedData<'a> {
    ghost use Rattle.dv_signed.specs.SignedView.{view_signed};

    /// The one SignedData that the octets are, with nothing after it.
    pub fn decode(content: &'a [u8]) -> Result<SignedData<'a>, Der>
        requires { length content.now < 2 ^ 32 }
        ensures { DecodesAll signed_data view_signed result
            (record { levels = 32; place = 0; rest = content.now }) }
    {
        let mut c = Cursor::new(content);
        let _octets = c.fork();
        SignedData::read_whole(&mut c)
    }

    /// Reads signed data, and that nothing is left behind them.
    #[tactic(auto, unfolding(dv_schema::specs::Reading::read))]
    fn read_whole(c: &mut Cursor<'a>) -> Result<SignedData<'a>, Der>
        requires short { length c.old.rest < 2 ^ 32 }
        requires front { c.old.place ≡ 0 }
        ensures { Gives view_signed result (read_all signed_data c.old) }
    {
        let signed = SignedData::read(c)?;
        c.fork().finish()?;
        Ok(signed)
    }

    /// Reads signed data.
    #[tactic(auto, unfolding(dv_schema::specs::Reading::read))]
    fn read(c: &mut Cursor<'a>) -> Result<SignedData<'a>, Der>
        requires short { length c.old.rest < 2 ^ 32 }
        requires front { c.old.place ≡ 0 }
        ensures { Reads view_signed result c.old c.new (read signed_data c.old) }
    {
        let mut next = c.fork();
        let mut inside = next.enter(0x30)?;
        let version = read_version(&mut inside)?;
        let digest_algs = read_list::<Algorithm>(&mut inside, SET, false)?;
        let encap_place = inside.place();
        let encapsulated = Encapsulated::read(&mut inside)?;
        let (certificate_set, certificates) = read_certificates(&mut inside)?;
        let crls = read_optional_list::<AnyValue>(&mut inside, REVOCATION_LISTS, false)?;
        let (signer_infos, signers) = read_signers(&mut inside)?;
        inside.finish()?;
        *c = next;
        Ok(SignedData {
            version,
            content_type: encapsulated.content_type,
            content: encapsulated.content,
            certificates,
            signers,
            signer_infos,
            encap_place,
            type_place: encapsulated.type_place,
            content_place: encapsulated.content_place,
            digest_algs,
            certificate_set,
            crls,
        })
    }

    /// The certificate at an index, counted from 0, as its whole octets; None exactly past the last one. Forms of
    /// certificates other than tag 30 aren't counted.
    pub fn certificate(&self, i: u32) -> Option<&'a [u8]>
        ensures none { IsNone result ↔ (self.now.certificates ≤ i) }
        ensures certificate { option_copied result ≡ slice_get (certificates_of (view_signed self.now)) i }
    {
        match self.certificate_set {
            None => None,
            Some(set) => certificate_at(set, i),
        }
    }

    /// The signer at an index, counted from 0; None exactly past the last one.
    pub fn signer(&self, i: u32) -> Option<SignerInfo<'a>>
        ensures none { IsNone result ↔ (self.now.signers ≤ i) }
        ensures signer { option_map view_signer result ≡ slice_get (signers_of (view_signed self.now)) i }
    {
        member_at::<SignerInfo>(&Cursor::new(self.signer_infos), i as u64)
    }
}

/// An AlgorithmIdentifier, as a member.
struct Algorithm;

impl Member for Algorithm {
    ghost use Rattle.dv_names.specs.Types.{algorithm_identifier};

    ghost schema = { algorithm_identifier };

    fn pass(c: &mut Cursor<'_>) -> Result<(), Der> {
        AlgId::read(c)?;
        Ok(())
    }
}

/// Reads a version. `Value` where it isn't 1 to 5.
#[tactic(auto, unfolding(dv_schema::specs::Reading::read))]
fn read_version(c: &mut Cursor<'_>) -> Result<u8, Der>
    ensures { Reads (λ n. n) result c.old c.new (read signed_version c.old) }
{
    let mut next = c.fork();
    let number = next.read_number(0x02, 5)?;
    if number == 0 {
        return Err(c.refusal(Why::Value));
    }
    *c = next;
    Ok(number as u8)
}

/// Reads a set of signers: its contents octets, and how many there are.
fn read_signers<'a>(c: &mut Cursor<'a>) -> Result<(&'a [u8], u32), Der>
    requires { length c.old.rest < 2 ^ 32 }
    ensures set { Reads (λ x. x.0.now) result c.old c.new (read (list_of 49 false signer_info) c.old) }
    ensures count { IfOk result (λ x. x.1 ≡ length (signers_in x.0.now)) }
{
    let _octets = c.fork();
    let (set, count) = read_counted::<Signer>(c, SET, false)?;
    Ok((set, count as u32))
}

#[cfg(test)]
mod tests;
