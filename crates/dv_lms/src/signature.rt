//! The octets of a signature.

ghost use Rattle.std.specs.Prelude.{◌≡◌};

use std::marker::Model;

/// The length of a signature with a tree of 32 leaves.
pub(crate) const SIGNATURE_LEN: usize = 1296;

/// A signature, seen as its octets: HSS with one level (RFC 8554 6.2).
#[derive(Clone, Debug, PartialEq, Eq, Drop)]
pub struct Signature {
    octets: [u8; SIGNATURE_LEN],
}

impl Model for Signature {
    ghost use Rattle.std.specs.Prelude.{ℕ, List};

    ghost Value = { List ℕ };

    ghost view = { λ signature. signature.octets };

    ghost inverse = { λ octets. record { octets = octets } };
}

impl Signature {
    /// The signature of these octets.
    pub(crate) fn new(octets: [u8; SIGNATURE_LEN]) -> Signature
        ensures { result ≡ octets }
    {
        Signature { octets }
    }

    /// The octets.
    pub fn as_slice(&self) -> &[u8]
        ensures { result.now ≡ self.now }
    {
        &self.octets
    }
}
