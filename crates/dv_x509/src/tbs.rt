//! The part of a certificate that is signed.

ghost use Rattle.std.specs.Prelude.{◌≡◌, ◌/◌, option_map};
ghost use Rattle.dv_schema.specs.Reading.{is_tag_of, maybe_at, read, starts_list};
ghost use Rattle.dv_schema.specs.Answers.{Reads};
ghost use Rattle.dv_schema.specs.Types.{bit_string, primitive};
ghost use Rattle.dv_x509.specs.Fields.{view_bits, view_extensions, view_version};
ghost use Rattle.dv_x509.specs.TbsView.{view_key, view_tbs, view_validity};
ghost use Rattle.dv_x509.specs.Types.{certificate_extensions, is_stated_version as stated_rule, public_key_info, tbs_certificate, validity as validity_type, version as version_type};

use crate::known::KnownExtensions;
use dv_asn1::{Cursor, Decode, Der, Why};
use dv_names::{AlgId, Name, read_extensions};
use dv_time::{Moment, read_time};

const SEQUENCE: u8 = 0x30;

const INTEGER: u8 = 0x02;

/// The explicit tag of the version.
const VERSION: u8 = 0xA0;

/// The tag of the issuerUniqueID.
const ISSUER_ID: u8 = 0x81;

/// The tag of the subjectUniqueID.
const SUBJECT_ID: u8 = 0x82;

/// The explicit tag of the extensions.
const EXTENSIONS: u8 = 0xA3;

/// The most contents octets of a serial number (RFC 5280 4.1.2.2).
const SERIAL_LIMIT: usize = 20;

/// The fields of a TBSCertificate (RFC 5280 4.1.2).
#[derive(Clone, Copy)]
pub(crate) struct Tbs<'a> {
    /// The contents octets of a version that is spelled out.
    pub(crate) version: Option<&'a [u8]>,
    pub(crate) serial: &'a [u8],
    pub(crate) alg: AlgId<'a>,
    pub(crate) issuer: Name<'a>,
    pub(crate) validity: Validity,
    pub(crate) subject: Name<'a>,
    pub(crate) key: PublicKeyInfo<'a>,
    /// The unused bits and the octets of the issuerUniqueID.
    pub(crate) issuer_id: Option<(u8, &'a [u8])>,
    /// The unused bits and the octets of the subjectUniqueID.
    pub(crate) subject_id: Option<(u8, &'a [u8])>,
    /// The contents octets of the Extensions.
    pub(crate) extensions: Option<&'a [u8]>,
}

/// The moments from which and up to which a certificate holds (RFC 5280 4.1.2.5).
#[derive(Clone, Copy)]
pub(crate) struct Validity {
    pub(crate) from: Moment,
    pub(crate) until: Moment,
}

/// A SubjectPublicKeyInfo (RFC 5280 4.1.2.7): its algorithm, and the unused bits and the octets of the key.
#[derive(Clone, Copy)]
pub(crate) struct PublicKeyInfo<'a> {
    pub(crate) alg: AlgId<'a>,
    pub(crate) bits: (u8, &'a [u8]),
}

impl<'a> Tbs<'a> {
    /// Reads a TBSCertificate.
    #[tactic(auto, unfolding(dv_schema::specs::Reading::read))]
    pub(crate) fn read(c: &mut Cursor<'a>) -> Result<Tbs<'a>, Der>
        ensures { Reads view_tbs result c.old c.new (read tbs_certificate c.old) }
    {
        let mut next = c.fork();
        let mut inside = next.enter(SEQUENCE)?;
        let version = read_version(&mut inside)?;
        let serial = inside.read_integer(SERIAL_LIMIT)?;
        let alg = AlgId::read(&mut inside)?;
        let issuer = Name::read(&mut inside)?;
        let validity = match read_validity(&mut inside) {
            Ok(validity) => validity,
            Err(refusal) => return Err(refusal),
        };
        let subject = Name::read(&mut inside)?;
        let key = read_key(&mut inside)?;
        let issuer_id = read_optional_bits(&mut inside, ISSUER_ID)?;
        let subject_id = read_optional_bits(&mut inside, SUBJECT_ID)?;
        let extensions = read_certificate_extensions(&mut inside)?;
        inside.finish()?;
        *c = next;
        Ok(Tbs {
            version,
            serial,
            alg,
            issuer,
            validity,
            subject,
            key,
            issuer_id,
            subject_id,
            extensions,
        })
    }
}

/// Reads a version, where its explicit tag is there. `Value` where the default 0 is spelled out.
#[tactic(auto, unfolding(dv_schema::specs::Reading::read))]
fn read_version<'a>(c: &mut Cursor<'a>) -> Result<Option<&'a [u8]>, Der>
    ensures { Reads view_version result c.old c.new
        (maybe_at (starts_list (is_tag_of 160) c.old.rest) c.old (read version_type c.old)) }
{
    if !c.next_is(VERSION) {
        return Ok(None);
    }
    let mut next = c.fork();
    let mut inside = next.enter(VERSION)?;
    let number = read_stated_version(&mut inside)?;
    inside.finish()?;
    *c = next;
    Ok(Some(number))
}

/// Reads the INTEGER of a version that is spelled out.
#[tactic(auto, unfolding(dv_schema::specs::Reading::read))]
fn read_stated_version<'a>(c: &mut Cursor<'a>) -> Result<&'a [u8], Der>
    ensures { Reads (λ x. x.now) result c.old c.new (read (primitive 2 stated_rule) c.old) }
{
    let mut next = c.fork();
    let number = next.read_tlv(INTEGER)?;
    if !is_stated_version(number) {
        return Err(c.refusal(Why::Value));
    }
    *c = next;
    Ok(number)
}

/// The contents of an INTEGER other than 0, the fewest octets that say it (X.690 8.3.2).
fn is_stated_version(octets: &[u8]) -> bool
    ensures { result ≡ stated_rule octets.now }
{
    match octets {
        [] => false,
        [only] => *only != 0x00,
        [0x00, second, ..] => *second >= 128,
        [0xFF, second, ..] => *second < 128,
        _ => true,
    }
}

/// Reads a Validity.
#[tactic(auto, unfolding(dv_schema::specs::Reading::read))]
fn read_validity(c: &mut Cursor<'_>) -> Result<Validity, Der>
    ensures { Reads view_validity result c.old c.new (read validity_type c.old) }
{
    let mut next = c.fork();
    let mut inside = next.enter(SEQUENCE)?;
    let from = read_time(&mut inside)?;
    let until = read_time(&mut inside)?;
    inside.finish()?;
    *c = next;
    Ok(Validity { from, until })
}

/// Reads a SubjectPublicKeyInfo.
#[tactic(auto, unfolding(dv_schema::specs::Reading::read))]
fn read_key<'a>(c: &mut Cursor<'a>) -> Result<PublicKeyInfo<'a>, Der>
    ensures { Reads view_key result c.old c.new (read public_key_info c.old) }
{
    let mut next = c.fork();
    let mut inside = next.enter(SEQUENCE)?;
    let alg = AlgId::read(&mut inside)?;
    let bits = inside.read_bits(0x03)?;
    inside.finish()?;
    *c = next;
    Ok(PublicKeyInfo { alg, bits })
}

/// Reads a BIT STRING, where its tag is there.
fn read_optional_bits<'a>(c: &mut Cursor<'a>, tag: u8) -> Result<Option<(u8, &'a [u8])>, Der>
    ensures { Reads (option_map view_bits) result c.old c.new
        (maybe_at (starts_list (is_tag_of tag) c.old.rest) c.old (read (bit_string tag) c.old)) }
{
    if c.next_is(tag) {
        Ok(Some(c.read_bits(tag)?))
    } else {
        Ok(None)
    }
}

/// Reads Extensions, where their explicit tag is there.
#[tactic(auto, unfolding(dv_schema::specs::Reading::read))]
fn read_certificate_extensions<'a>(c: &mut Cursor<'a>) -> Result<Option<&'a [u8]>, Der>
    ensures { Reads view_extensions result c.old c.new
        (maybe_at (starts_list (is_tag_of 163) c.old.rest) c.old (read certificate_extensions c.old)) }
{
    if !c.next_is(EXTENSIONS) {
        return Ok(None);
    }
    let mut next = c.fork();
    let mut inside = next.enter(EXTENSIONS)?;
    let extensions = read_extensions::<KnownExtensions>(&mut inside, SEQUENCE)?;
    inside.finish()?;
    *c = next;
    Ok(Some(extensions))
}
