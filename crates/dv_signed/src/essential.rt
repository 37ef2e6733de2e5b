//! The certificate that a signer names among its signed attributes.

ghost use Rattle.std.specs.Prelude.{◌≡◌, List, length, option_map, Ok};
ghost use Rattle.dv_schema.specs.Schema.{ValueOf};
ghost use Rattle.dv_schema.specs.Reading.{all_at, is_tag_of, maybe_at, read, starts_list};
ghost use Rattle.dv_schema.specs.Answers.{Passes, Reads};
ghost use Rattle.dv_schema.specs.Types.{but};
ghost use Rattle.dv_names.specs.Types.{algorithm_identifier};
ghost use Rattle.dv_names.specs.Views.{view_algorithm};
ghost use Rattle.dv_members.specs.Members.{front_of};
ghost use Rattle.dv_signed.specs.Essential.{certificate_id, is_digest_by, kind_or_default, names_certificate, names_first, sha256_octets, signing_certificate};

use crate::digest::is_digest;
use dv_asn1::{Cursor, Decode, Der, Member, Why, read_list};
use dv_names::{AlgId, DigestKind, digest_kind};

/// The tag of a SEQUENCE.
const SEQUENCE: u8 = 0x30;

/// The AlgorithmIdentifier of SHA-256 without parameters, the default of a hashAlgorithm.
const SHA_256_ALGORITHM: [u8; 13] = [
    0x30, 0x0B, 0x06, 0x09, 0x60, 0x86, 0x48, 0x01, 0x65, 0x03, 0x04, 0x02, 0x01,
];

/// An ESSCertIDv2 (RFC 5035 4): the hash of a certificate.
#[derive(Clone, Copy)]
pub(crate) struct CertificateId<'a> {
    /// SHA-256 where it is absent.
    hash_alg: Option<AlgId<'a>>,
    hash: &'a [u8],
    /// The whole value.
    issuer_serial: Option<&'a [u8]>,
}

impl<'a> Decode<'a> for CertificateId<'a> {
    ghost use Rattle.dv_signed.specs.Essential.{certificate_id};
    ghost use Rattle.dv_signed.specs.IdView.{view_id};

    ghost schema = { certificate_id };

    ghost view = { view_id };

    #[tactic(auto, unfolding(dv_schema::specs::Reading::read))]
    fn read(c: &mut Cursor<'a>) -> Result<CertificateId<'a>, Der> {
        let mut next = c.fork();
        let mut inside = next.enter(SEQUENCE)?;
        let hash_alg = read_hash_alg(&mut inside)?;
        let hash = inside.read_octets()?;
        let issuer_serial = inside.read_optional()?;
        inside.finish()?;
        *c = next;
        Ok(CertificateId {
            hash_alg,
            hash,
            issuer_serial,
        })
    }
}

impl Member for CertificateId<'_> {
    ghost use Rattle.dv_signed.specs.Essential.{certificate_id};

    ghost schema = { certificate_id };

    fn pass(c: &mut Cursor<'_>) -> Result<(), Der>
        ensures { Passes result c.old c.new (read certificate_id c.old) }
    {
        CertificateId::read(c)?;
        Ok(())
    }
}

/// Reads a hashAlgorithm, where it is there. `Value` where the default is spelled out.
fn read_hash_alg<'a>(c: &mut Cursor<'a>) -> Result<Option<AlgId<'a>>, Der>
    ensures { Reads (option_map view_algorithm) result c.old c.new
        (maybe_at (starts_list (is_tag_of 48) c.old.rest) c.old
        (read (but sha256_octets algorithm_identifier) c.old)) }
{
    if !c.next_is(SEQUENCE) {
        return Ok(None);
    }
    let mut next = c.fork();
    let algorithm = AlgId::read(&mut next)?;
    if c.spells(&next, &SHA_256_ALGORITHM) {
        return Err(c.refusal(Why::Value));
    }
    *c = next;
    Ok(Some(algorithm))
}

/// A SigningCertificateV2 (RFC 5035 3).
#[derive(Clone, Copy)]
pub(crate) struct SigningCertificate<'a> {
    /// The contents octets of the certificates' hashes, at least one.
    certs: &'a [u8],
    /// The whole value.
    policies: Option<&'a [u8]>,
}

impl<'a> Decode<'a> for SigningCertificate<'a> {
    ghost use Rattle.dv_signed.specs.Essential.{signing_certificate};
    ghost use Rattle.dv_signed.specs.IdView.{view_signing};

    ghost schema = { signing_certificate };

    ghost view = { view_signing };

    #[tactic(auto, unfolding(dv_schema::specs::Reading::read))]
    fn read(c: &mut Cursor<'a>) -> Result<SigningCertificate<'a>, Der> {
        let mut next = c.fork();
        let mut inside = next.enter(SEQUENCE)?;
        let certs = read_list::<CertificateId>(&mut inside, SEQUENCE, true)?;
        let policies = inside.read_optional()?;
        inside.finish()?;
        *c = next;
        Ok(SigningCertificate { certs, policies })
    }
}

/// Whether the octets are a SigningCertificateV2 whose first hash is, by a known algorithm, that of the certificate.
pub(crate) fn names_certificate(value: &[u8], certificate: &[u8]) -> bool
    ensures { result ≡ names_certificate certificate.now value.now }
{
    let mut next = Cursor::new(value);
    let _octets = next.fork();
    match SigningCertificate::read(&mut next) {
        Err(_) => false,
        Ok(signing) => {
            if next.at_end() {
                names_first(signing.certs, certificate)
            } else {
                false
            }
        }
    }
}

/// Whether the first of the hashes in the contents of a list that was read is that of the certificate.
fn names_first(certs: &[u8], certificate: &[u8]) -> bool
    ensures { (vs : List (ValueOf certificate_id))
        → all_at (read certificate_id) (length certs.now) (front_of certs.now) ≡ Ok vs
        → result ≡ names_first certificate.now vs }
{
    match CertificateId::read(&mut Cursor::new(certs)) {
        Err(_) => false,
        Ok(id) => is_hash(&id, certificate),
    }
}

/// Whether the hash is by a known algorithm that of the certificate.
fn is_hash(id: &CertificateId<'_>, certificate: &[u8]) -> bool
    ensures { result ≡ is_digest_by (kind_or_default (option_map view_algorithm id.now.hash_alg)) certificate.now id.now.hash.now }
{
    match hash_kind(id) {
        None => false,
        Some(kind) => is_digest(kind, certificate, id.hash),
    }
}

/// The algorithm of the hash, where it is a known one.
fn hash_kind(id: &CertificateId<'_>) -> Option<DigestKind>
    ensures { result ≡ kind_or_default (option_map view_algorithm id.now.hash_alg) }
{
    match id.hash_alg {
        None => Some(DigestKind::Sha256),
        Some(algorithm) => digest_kind(&algorithm),
    }
}

#[cfg(test)]
mod tests;
