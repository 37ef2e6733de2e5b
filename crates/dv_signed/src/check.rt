//! Whether a signer signed a content.

ghost use Rattle.std.specs.Prelude.{◌≡◌, ◌≤◌, ◌+◌, ◌↔◌, ℕ, List, Option, IsSome, IsTrue, Some};
ghost use Rattle.std.specs.Option.{option_copied};
ghost use Rattle.dv_schema.specs.Tlv.{tlv};
ghost use Rattle.dv_lms.specs.Verifies.{Verifies};
ghost use Rattle.dv_signed.specs.Check.{IsFault, Signed, Signs, early_fault, fault_in, fault_with};
ghost use Rattle.dv_signed.specs.SignerView.{view_signer};

use crate::attributes::{are_right, has_digest};
use crate::fault::SignerFault;
use crate::header::{HEADER_LIMIT, write_header};
use crate::signed_data::SignedData;
use crate::signer::SignerInfo;
use dv_asn1::{Cursor, header_len, same};
use dv_lms::{Steps, verify, verify_joined};
use dv_names::identifiers::ID_DATA;
use dv_names::{DigestKind, digest_kind};
use dv_x509::is_hss;
use std::sync::ledger::Ledger;

/// The tag under which signed attributes are signed.
const SET: u8 = 0x31;

/// Whether the signature is one of signed attributes, of which these are the contents octets: of the whole value under the
/// tag of a SET (RFC 5652 5.4). Counts one step.
fn verify_attributes<L: Ledger>(
    key: &[u8],
    attributes: &[u8],
    signature: &[u8],
    checks: &mut Steps<L>,
) -> bool
    ensures verifies { IsTrue result ↔ Verifies key.now (tlv 49 attributes.now) signature.now }
    ensures step { checks.new ≡ checks.old + 1 }
{
    let mut head = [0; HEADER_LIMIT];
    let len = header_len(attributes.len());
    write_header(&mut head[..len], SET, attributes.len());
    verify_joined(key, &head[..len], attributes, signature, checks)
}

/// The first fault that stands before the signature.
fn early_fault(
    signer: &SignerInfo<'_>,
    content_type: &[u8],
    content: &[u8],
    certificate: &[u8],
) -> Option<SignerFault>
    ensures { (key : Option (List ℕ)) → result ≡ early_fault (view_signer signer.now) (record {
      type = content_type.now;
      content = content.now;
      certificate = certificate.now;
      key = key;
    }) }
{
    if !is_hss(&signer.signature_alg) {
        return Some(SignerFault::Algorithm);
    }
    match digest_kind(&signer.digest_alg) {
        None => Some(SignerFault::Algorithm),
        Some(kind) => fault_with(kind, signer, content_type, content, certificate),
    }
}

/// The same where the algorithms are known: what the attributes say, or that there are none.
fn fault_with(
    kind: DigestKind,
    signer: &SignerInfo<'_>,
    content_type: &[u8],
    content: &[u8],
    certificate: &[u8],
) -> Option<SignerFault>
    ensures { (key : Option (List ℕ)) → result ≡ fault_with kind (view_signer signer.now) (record {
      type = content_type.now;
      content = content.now;
      certificate = certificate.now;
      key = key;
    }) }
{
    match signer.attributes {
        None => {
            if same(content_type, &ID_DATA) {
                None
            } else {
                Some(SignerFault::Attribute)
            }
        }
        Some(octets) => {
            let attributes = Cursor::new(octets);
            if !are_right(&attributes, content_type, certificate) {
                Some(SignerFault::Attribute)
            } else if !has_digest(&attributes, kind, content) {
                Some(SignerFault::Digest)
            } else {
                None
            }
        }
    }
}

/// Whether the signature is one under the key: of the signed attributes, or of the content where there are none. Counts at
/// most one step.
fn has_signed<L: Ledger>(
    signer: &SignerInfo<'_>,
    content: &[u8],
    key: Option<&[u8]>,
    checks: &mut Steps<L>,
) -> bool
    ensures signs { (x : Signed) → x.content ≡ content.now → x.key ≡ option_copied key.entry
        → (IsTrue result ↔ Signs (view_signer signer.now) x) }
    ensures steps { checks.new ≤ checks.old + 1 }
{
    match key {
        None => false,
        Some(key) => match signer.attributes {
            None => verify(key, content, signer.signature, checks),
            Some(attributes) => verify_attributes(key, attributes, signer.signature, checks),
        },
    }
}

/// Checks that a signer signed the content of signed data with an HSS key (RFC 5652 5.4 to 5.6; RFC 9708 3).
///
/// The signer is refused for the first fault, in this order:
///
/// - `Algorithm`: the digest algorithm is none of SHA-256, SHA-384 and SHA-512, its parameters absent or NULL, or the
///   signature algorithm isn't HSS without parameters;
/// - `Attribute`: there are signed attributes, and a type stands twice among them, contentType isn't there with one value that
///   is the content type, messageDigest isn't there with one value, or signingCertificateV2 is there and doesn't have one
///   value whose first hash is, by one of the three algorithms, that of the certificate; or there are none, and the content
///   type isn't id-data;
/// - `Digest`: the value of messageDigest isn't the OCTET STRING of the content's digest;
/// - `Signature`: there is no key, or the signature isn't one under it of the attributes under the tag of a SET, or of the
///   content where there are no attributes.
///
/// The certificate is that which the signer is said to have, as its whole octets under tag 30, and no octets where none is
/// named. The condition is that there is content. At most one step is counted, and no memory is taken.
pub fn signer_check<L: Ledger>(
    signer: &SignerInfo<'_>,
    signed: &SignedData<'_>,
    certificate: &[u8],
    key: Option<&[u8]>,
    checks: &mut Steps<L>,
) -> Result<(), SignerFault>
    requires { IsSome signed.now.content }
    ensures fault { (content : List ℕ) → option_copied signed.now.content ≡ Some content
        → IsFault (view_signer signer.now) (record {
          type = signed.now.content_type.now;
          content = content;
          certificate = certificate.now;
          key = option_copied key.entry;
        }) (fault_in result) }
    ensures steps { checks.new ≤ checks.old + 1 }
{
    let content = signed.content.unwrap();
    if let Some(fault) = early_fault(signer, signed.content_type, content, certificate) {
        return Err(fault);
    }
    if has_signed(signer, content, key, checks) {
        Ok(())
    } else {
        Err(SignerFault::Signature)
    }
}

#[cfg(test)]
mod tests;
