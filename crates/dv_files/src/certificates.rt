//! Certificate files.

ghost use Rattle.std.specs.Prelude.{◌≡◌, ◌<◌, ◌++◌, ◌∷◌, [], Err, IfErr, IfOk, Ok, OnErr, OnOk, List, ℕ};
ghost use Rattle.dv_asn1.specs.Lists.{lists_of};
ghost use Rattle.dv_x509.specs.Judged.{certificate_in};
ghost use Rattle.dv_x509.specs.View.{view_certificate};
ghost use Rattle.dv_draft.specs.Records.{certificate_at, kept_at};
ghost use Rattle.dv_files.specs.Certificates.{AreCertificates, HasNone, IsNext, IsPlaceOf};
ghost use Rattle.dv_files.specs.Causes.{IsCertificateCause};

use crate::faults::{CertificateFile, NoCertificate};
use dv_asn1::Cursor;
use dv_schema::laws;
use dv_x509::{Certificate, X509};
use std::alloc::{AllocError, Global};

/// The tag of a SEQUENCE.
const SEQUENCE: u8 = 0x30;

/// The most certificates that a file has.
const CERTIFICATE_COUNT_LIMIT: usize = 6;

/// The certificates that the octets of a certificate file are: 1 to 6 (RFC 5280 4.1), each under tag 30, one after another.
///
/// [`CertificateFile::Refused`] comes exactly where the octets are no such list. Its place is that of the first check that
/// fails, counted in the file: where `Certificate::decode` refuses a value that stands there under tag 30, the place of its
/// refusal, or the value's own where the cause is another one; the place of a seventh value; and 0 of no octets.
pub fn read_certificates(alloc: Global, octets: &[u8]) -> Result<Vec<Vec<u8>>, CertificateFile>
    ensures found { IfOk result (λ v. AreCertificates octets.now (lists_of v.items)) }
    ensures refused { IfErr result (IsCertificateCause octets.now) }
{
    let mut next = Cursor::new(octets);
    let mut certificates = Vec::new(alloc);
    while certificates.len() < CERTIFICATE_COUNT_LIMIT {
        let octets = match next_certificate(&mut next) {
            Err(NoCertificate { place }) => return Err(CertificateFile::Refused { place }),
            Ok((octets, _)) => octets,
        };
        keep(alloc, &mut certificates, octets)?;
        if next.at_end() {
            return Ok(certificates);
        }
    }
    Err(CertificateFile::Refused {
        place: next.place(),
    })
}

/// Adds a copy of octets to the certificates.
fn keep(alloc: Global, certificates: &mut Vec<Vec<u8>>, octets: &[u8]) -> Result<(), AllocError>
    ensures { OnOk result (lists_of certificates.new.items ≡ lists_of certificates.old.items ++ octets.now ∷ []) }
{
    let copy = octets.to_vec(alloc)?;
    certificates.push(copy)?;
    Ok(())
}

/// The certificate at the cursor (RFC 5280 4.1), under tag 30, with its octets; the cursor then stands behind it. No other
/// certificate begins what was left.
///
/// [`NoCertificate`] comes exactly where no certificate begins what is left, and the cursor is then where it was. Its place
/// is that of the first check that fails: where `Certificate::decode` refuses the value that stands there, the place of its
/// refusal, or the value's own where the cause is another one.
pub fn next_certificate<'a>(
    c: &mut Cursor<'a>,
) -> Result<(&'a [u8], Certificate<'a>), NoCertificate>
    requires { 0 < c.old.levels }
    ensures found { IfOk result (λ x. IsNext c.old x.0.now c.new) }
    ensures decoded { IfOk result (λ x. certificate_in 48 x.0.now ≡ Ok (view_certificate x.1)) }
    ensures refused { IfErr result (λ e. IsPlaceOf (certificate_at c.old) e.place) }
    ensures none { OnErr result (HasNone c.old) }
    ensures stays { OnErr result (c.new ≡ c.old) }
{
    // A certificate is the spelling of one value, and no spelling begins another one.
    laws::read_is_spelled();
    laws::spelled_is_read();
    laws::slice_is_read_where_spelled();
    let mut next = c.fork();
    next.enter(SEQUENCE)?;
    let octets = c.up_to(&next);
    match Certificate::decode(octets, SEQUENCE) {
        Err(cause) => {
            let place = place_of(c.place(), cause);
            Err(NoCertificate { place })
        }
        Ok(certificate) => {
            *c = next;
            Ok((octets, certificate))
        }
    }
}

/// The place in the file of the refusal of a certificate that stands at this place.
fn place_of(place: u64, cause: X509) -> u64
    ensures { (octets : List ℕ) → IsPlaceOf (kept_at place octets (Err cause)) result }
{
    match cause {
        X509::Der(refusal) => place.saturating_add(refusal.place),
        X509::Version | X509::Algorithm | X509::TooLong => place,
    }
}
