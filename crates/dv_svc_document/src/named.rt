//! The certificate that a signer names.

ghost use Rattle.std.specs.Prelude.{◌≡◌};
ghost use Rattle.dv_signed.specs.SignerView.{view_signer};
ghost use Rattle.dv_x509.specs.View.{view_certificate};
ghost use Rattle.dv_svc_document.specs.Named.{is_named_by, named_by};

use dv_path::Bag;
use dv_signed::SignerInfo;
use dv_x509::Certificate;

/// The position of the first certificate of a bag that the signer names (RFC 5652 5.3), where there is one.
pub(crate) fn named(signer: &SignerInfo<'_>, bag: &Bag) -> Option<u32>
    ensures { result ≡ named_by (view_signer signer.now) bag.now }
{
    for position in 0..bag.len() {
        let Some(certificate) = bag.get(position) else {
            unreachable!();
        };
        if names(signer, &certificate) {
            return Some(position as u32);
        }
    }
    None
}

/// Whether the signer names the certificate.
fn names(signer: &SignerInfo<'_>, certificate: &Certificate<'_>) -> bool
    ensures { result ≡ is_named_by (view_signer signer.now) (view_certificate certificate.now) }
{
    signer.names(
        &certificate.issuer,
        certificate.serial,
        certificate.key_id(),
    )
}
