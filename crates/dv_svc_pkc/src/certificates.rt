//! The certificates that are handed in for a target, and why a target isn't checked.

ghost use Rattle.std.specs.Prelude.{◌≡◌, IfOk, MatchOption, true, false};
ghost use Rattle.std.specs.List.{list_all};
ghost use Rattle.dv_request.specs.TargetView.{view_target};
ghost use Rattle.dv_svc_pkc.specs.Certificates.{certificates_of as certificates_in, is_certificate as decodes, is_refused, target_failure as failure_of};
ghost use Rattle.dv_svc_pkc.specs.Slices.{octets_of};

use dv_asn1::{Cursor, Decode};
use dv_request::{TargetChain, Token};
use dv_status::failure::{BAD_DATA_FORMAT, BAD_REQUEST};
use dv_x509::Certificate;
use std::alloc::{AllocError, Global};

/// The tag of a certificate as a token (RFC 3029 7.5).
pub(crate) const CERTIFICATE: u8 = 0xA0;

/// The most certificates that the chain of a target has.
const CHAIN_LIMIT: usize = 15;

/// The failure bit for which a target isn't checked, where there is one: badRequest where it is no certificate, or its chain
/// has more than 15 of them, and else badDataFormat where one of its certificates doesn't decode.
pub(crate) fn target_failure(
    alloc: Global,
    target: &TargetChain<'_>,
) -> Result<Option<u8>, AllocError>
    ensures { IfOk result (λ f. f ≡ failure_of (view_target target.now)) }
{
    let Some(certificates) = certificates_of(alloc, target)? else {
        return Ok(Some(BAD_REQUEST));
    };
    if are_certificates(&certificates) {
        Ok(None)
    } else {
        Ok(Some(BAD_DATA_FORMAT))
    }
}

/// The certificates that are handed in for a target, each as its whole octets under tag A0: the target itself, and then those
/// of its chain. None exactly where the target is no certificate, or its chain has more than 15 of them.
pub(crate) fn certificates_of<'a>(
    alloc: Global,
    target: &TargetChain<'a>,
) -> Result<Option<Vec<&'a [u8]>>, AllocError>
    ensures { IfOk result (λ o. MatchOption o (is_refused (view_target target.now) ≡ true)
        (λ v. (is_refused (view_target target.now) ≡ false) × (octets_of v.items ≡ certificates_in (view_target target.now)))) }
{
    let Token::Certificate(own) = target.target else {
        return Ok(None);
    };
    let mut certificates = Vec::new(alloc);
    certificates.push(own)?;
    let mut next = Cursor::new(target.links.unwrap_or(&[]));
    while !next.at_end() {
        let token = match Token::read(&mut next) {
            Ok(token) => token,
            Err(_) => unreachable!(),
        };
        if let Token::Certificate(octets) = token {
            if certificates.len() > CHAIN_LIMIT {
                return Ok(None);
            }
            certificates.push(octets)?;
        }
    }
    Ok(Some(certificates))
}

/// Whether each of them decodes.
fn are_certificates(certificates: &[&[u8]]) -> bool
    ensures { result ≡ list_all (λ octets. decodes octets.now) certificates.now }
{
    certificates.iter().all(|octets| is_certificate(octets))
}

/// Whether the octets decode as a certificate under tag A0.
fn is_certificate(octets: &[u8]) -> bool
    ensures { result ≡ decodes octets.now }
{
    Certificate::decode(octets, CERTIFICATE).is_ok()
}
