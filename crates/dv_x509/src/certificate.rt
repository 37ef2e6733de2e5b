//! Certificates of keys.

ghost use Rattle.std.specs.Prelude.{◌≡◌, ◌≤◌, ◌<◌, ◌⊎◌, true, length};
ghost use Rattle.std.specs.Option.{option_copied};
ghost use Rattle.dv_schema.specs.Schema.{contents as contents_of, spelling};
ghost use Rattle.dv_schema.specs.Fits.{Fits};
ghost use Rattle.dv_x509.specs.Fields.{certificate_with, key_of, tbs_of, validity_of, view_version};
ghost use Rattle.dv_names.specs.Views.{view_algorithm};
ghost use Rattle.dv_x509.specs.Judged.{is_known_version, same_algorithm};
ghost use Rattle.dv_x509.specs.TbsView.{view_tbs};
ghost use Rattle.dv_x509.specs.WholeView.{view_whole};
ghost use Rattle.dv_x509.specs.Extensions.{are_read};
ghost use Rattle.dv_x509.specs.Types.{certificate, certificate_fields, tbs_certificate};

use crate::fault::X509;
use crate::whole::Whole;
use dv_asn1::Cursor;
use dv_names::{AlgId, Name};
use dv_time::Moment;

/// The most octets that a certificate has.
pub const CERTIFICATE_LIMIT: usize = 8192;

/// The depth at which a message holds a certificate.
const DEPTH: u8 = 7;

/// A Certificate (RFC 5280 4.1), under a tag of one octet: it names spans of the octets that it was decoded from.
#[derive(Clone, Copy)]
pub struct Certificate<'a> {
    /// The contents octets of the whole value.
    pub body: &'a [u8],
    /// The whole octets of the TBSCertificate, which are signed.
    pub tbs: &'a [u8],
    /// The contents octets of the serial number.
    pub serial: &'a [u8],
    pub issuer: Name<'a>,
    pub subject: Name<'a>,
    pub not_before: Moment,
    pub not_after: Moment,
    pub signature_alg: AlgId<'a>,
    /// The unused bits and the octets of the signature.
    pub signature: (u8, &'a [u8]),
    pub key_alg: AlgId<'a>,
    /// The unused bits and the octets of the key.
    pub key_bits: (u8, &'a [u8]),
    version: Option<&'a [u8]>,
    issuer_id: Option<(u8, &'a [u8])>,
    subject_id: Option<(u8, &'a [u8])>,
    /// The contents octets of the Extensions.
    pub(crate) extensions: Option<&'a [u8]>,
    ghost spelled: { ∥ Fits (certificate 48) 26 (certificate_with version serial signature_alg issuer not_before not_after subject key_alg key_bits issuer_id subject_id extensions signature) ∥₁ },
    ghost short: { length (spelling (certificate 48) (certificate_with version serial signature_alg issuer not_before not_after subject key_alg key_bits issuer_id subject_id extensions signature)) ≤ 8192 },
    ghost whole: { body.now ≡ contents_of certificate_fields (certificate_with version serial signature_alg issuer not_before not_after subject key_alg key_bits issuer_id subject_id extensions signature) },
    ghost signed: { tbs.now ≡ spelling tbs_certificate (tbs_of version serial signature_alg issuer (validity_of not_before not_after) subject (key_of key_alg key_bits) issuer_id subject_id extensions) },
    ghost stated: { is_known_version (view_version version) ≡ true },
    ghost listed: { are_read (option_copied extensions) ≡ true },
}

impl<'a> Certificate<'a> {
    ghost use Rattle.dv_x509.specs.View.{DecodesCertificate, view_certificate};

    /// The certificate that the octets are under this tag, with nothing after it. Its outermost value is at depth 7, where
    /// a message holds it.
    ///
    /// The causes come in this order: [`X509::TooLong`] exactly where there are more than [`CERTIFICATE_LIMIT`] octets;
    /// [`X509::Der`] at the first check of the grammar that fails, the contents of the known extensions among them;
    /// [`X509::Version`] exactly where a version is present that is neither 1 nor 2; [`X509::Algorithm`] exactly where the
    /// two signature algorithms differ.
    pub fn decode(bytes: &'a [u8], tag: u8) -> Result<Certificate<'a>, X509>
        requires { (tag ≡ 48) ⊎ (tag ≡ 160) }
        ensures { DecodesCertificate tag result bytes.now }
    {
        if bytes.len() > CERTIFICATE_LIMIT {
            return Err(X509::TooLong);
        }
        let mut c = Cursor::at_depth(bytes, DEPTH);
        let _octets = c.fork();
        let whole = match Whole::read_all(&mut c, tag) {
            Err(refusal) => return Err(X509::Der(refusal)),
            Ok(whole) => whole,
        };
        if !whole.has_known_version() {
            return Err(X509::Version);
        }
        if !whole.has_one_algorithm() {
            return Err(X509::Algorithm);
        }
        Ok(Certificate::of(&whole))
    }

    /// The certificate of fields that were read and judged.
    fn of(whole: &Whole<'a>) -> Certificate<'a>
        requires spelled { Fits (certificate 48) 26 (view_whole whole.now) }
        requires short { length (spelling (certificate 48) (view_whole whole.now)) ≤ 8192 }
        requires body { whole.now.body.now ≡ contents_of certificate_fields (view_whole whole.now) }
        requires signed { whole.now.signed.now ≡ spelling tbs_certificate (view_tbs whole.now.tbs) }
        requires stated { is_known_version (view_version whole.now.tbs.version) ≡ true }
        requires agreed { same_algorithm (view_algorithm whole.now.tbs.alg) (view_algorithm whole.now.alg) ≡ true }
        ensures { view_certificate result ≡ view_whole whole.now }
    {
        Certificate {
            body: whole.body,
            tbs: whole.signed,
            serial: whole.tbs.serial,
            issuer: whole.tbs.issuer,
            subject: whole.tbs.subject,
            not_before: whole.tbs.validity.from,
            not_after: whole.tbs.validity.until,
            signature_alg: whole.alg,
            signature: whole.signature,
            key_alg: whole.tbs.key.alg,
            key_bits: whole.tbs.key.bits,
            version: whole.tbs.version,
            issuer_id: whole.tbs.issuer_id,
            subject_id: whole.tbs.subject_id,
            extensions: whole.tbs.extensions,
        }
    }
}
