//! Whose key a certificate has.

ghost use Rattle.std.specs.Prelude.{◌≡◌, ◌↔◌, IsTrue, Some};
ghost use Rattle.dv_lms.specs.Signed.{public_of};
ghost use Rattle.dv_x509.specs.Uses.{key_of};
ghost use Rattle.dv_x509.specs.View.{view_certificate};
ghost use Rattle.dv_files.specs.Keys.{HasKey};

use dv_register::SigningKey;
use dv_x509::Certificate;

/// The tag of a SEQUENCE.
const SEQUENCE: u8 = 0x30;

/// Whether the octets are a certificate (RFC 5280 4.1), under tag 30, of this key: whether its HSS public key (RFC 9708 4) is
/// the key's.
///
/// Octets that `Certificate::decode` refuses have no key.
pub fn is_key_of(certificate: &[u8], key: &SigningKey) -> bool
    ensures { IsTrue result ↔ HasKey certificate.now (public_of key.now) }
{
    match Certificate::decode(certificate, SEQUENCE) {
        Err(_) => false,
        Ok(certificate) => has_key(&certificate, &key.public()),
    }
}

/// Whether the certificate's HSS public key is there, and is this one.
fn has_key(certificate: &Certificate<'_>, public: &[u8; 60]) -> bool
    ensures { IsTrue result ↔ (key_of (view_certificate certificate.now) ≡ Some public.now) }
{
    match certificate.key() {
        None => false,
        Some(key) => key == public.as_slice(),
    }
}
