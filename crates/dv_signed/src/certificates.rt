//! The certificates in a set of them.

ghost use Rattle.std.specs.Prelude.{◌≡◌, ◌∷◌, ◌≤◌, ◌<◌, ◌^◌, List, [], ℕ, IfOk, IfSome, MatchOption, Some, false, length, slice_get};
ghost use Rattle.std.specs.Option.{option_copied};
ghost use Rattle.dv_schema.specs.Types.{list_of};
ghost use Rattle.dv_schema.specs.Reading.{is_tag_of, maybe_at, read, starts_list};
ghost use Rattle.dv_schema.specs.Answers.{Reads};
ghost use Rattle.dv_schema.specs.Decodes.{HasSpelling};
ghost use Rattle.dv_cms.specs.Types.{certificate_choice};
ghost use Rattle.dv_signed.specs.Certificates.{AreLeft, certificates_in, is_certificate as is_one};

use dv_asn1::{Cursor, Der, Member, read_optional_list};

/// The tag of a Certificate.
const CERTIFICATE: u8 = 0x30;

/// The tag of a set of certificates.
const CERTIFICATES: u8 = 0xA0;

/// The tags of CertificateChoices (RFC 5652 10.2.2): a Certificate, and the forms that are skipped.
const CHOICES: [u8; 5] = [CERTIFICATE, 0xA0, 0xA1, 0xA2, 0xA3];

/// A CertificateChoices, as a member.
struct CertificateChoice;

impl Member for CertificateChoice {
    ghost use Rattle.dv_cms.specs.Types.{certificate_choice};

    ghost schema = { certificate_choice };

    fn pass(c: &mut Cursor<'_>) -> Result<(), Der> {
        c.skip_one_of(&CHOICES)?;
        Ok(())
    }
}

/// Reads a set of certificates, where its tag is there: its contents octets, and how many certificates it has.
pub(crate) fn read_certificates<'a>(c: &mut Cursor<'a>) -> Result<(Option<&'a [u8]>, u32), Der>
    requires { length c.old.rest < 2 ^ 32 }
    ensures set { Reads (λ x. option_copied x.0) result c.old c.new
        (maybe_at (starts_list (is_tag_of 160) c.old.rest) c.old
        (read (list_of 160 false certificate_choice) c.old)) }
    ensures count { IfOk result (λ x. x.1 ≡ length (certificates_in (option_copied x.0))) }
{
    let _octets = c.fork();
    match read_optional_list::<CertificateChoice>(c, CERTIFICATES, false)? {
        None => Ok((None, 0)),
        Some(set) => Ok((Some(set), count_certificates(set))),
    }
}

/// How many certificates there are in the contents octets of a set.
fn count_certificates(set: &[u8]) -> u32
    requires spelled { ∥ HasSpelling (list_of 160 false certificate_choice) set.now ∥₁ }
    requires short { length set.now < 2 ^ 32 }
    ensures { result ≡ length (certificates_in (Some set.now)) }
{
    let mut next = Cursor::new(set);
    let mut count = 0;
    while next_certificate(&mut next).is_some() {
        count += 1;
    }
    count
}

/// The certificate at an index in the contents octets of a set; None exactly past the last one.
pub(crate) fn certificate_at<'a>(set: &'a [u8], i: u32) -> Option<&'a [u8]>
    requires { ∥ HasSpelling (list_of 160 false certificate_choice) set.now ∥₁ }
    ensures { MatchOption result (length (certificates_in (Some set.now)) ≤ i)
        (λ o. slice_get (certificates_in (Some set.now)) i ≡ Some o.now) }
{
    let mut next = Cursor::new(set);
    let mut left = i;
    while let Some(certificate) = next_certificate(&mut next) {
        if left == 0 {
            return Some(certificate);
        }
        left -= 1;
    }
    None
}

/// The next certificate in a set; None where none is left.
fn next_certificate<'a>(c: &mut Cursor<'a>) -> Option<&'a [u8]>
    ensures certificate { (cs : List (List ℕ)) → AreLeft cs c.old
        → MatchOption result (cs ≡ [])
        (λ o. (ds : List (List ℕ)) × (cs ≡ o.now ∷ ds) × AreLeft ds c.new) }
    ensures less { IfSome result (λ o. length c.new.rest < length c.old.rest) }
{
    while let Ok(octets) = c.skip_one_of(&CHOICES) {
        if is_certificate(octets) {
            return Some(octets);
        }
    }
    None
}

/// Whether a CertificateChoices is a Certificate.
fn is_certificate(octets: &[u8]) -> bool
    ensures { result ≡ is_one octets.now }
{
    match octets {
        [] => false,
        [tag, ..] => *tag == CERTIFICATE,
    }
}
