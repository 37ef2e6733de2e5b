//! The own certificate is a certificate of the grammar.

ghost use Rattle.std.specs.Prelude.{◌≡◌, ◌≤◌, ◌<◌, ◌^◌, ◌∷◌, List, ℕ, Ok, length};
ghost use Rattle.dv_schema.specs.Schema.{spelling};
ghost use Rattle.dv_time.specs.Text.{last_second};
ghost use Rattle.dv_x509.specs.Judged.{certificate_in};
ghost use Rattle.dv_x509.specs.Own.{OwnCertificate, OwnTbs, own_algorithm, own_fields};
ghost use Rattle.dv_x509.specs.Types.{certificate};

/// The own certificate is the spelling of a certificate with the fields of its parts, HSS as both algorithms, and the
/// signature as a BIT STRING without unused bits.
pub fn own_certificate_is_spelled()
    ensures { (text key signature : List ℕ) (from until serial : ℕ)
        → OwnCertificate (OwnTbs text from until key serial) signature
        ≡ spelling (certificate 48) (own_fields text from until key serial, (own_algorithm, (0 ∷ signature, tt))) }
{}

/// The own certificate decodes to its fields, where it has at most 8,192 octets.
pub fn own_certificates_are_read_again()
    ensures { (text key signature : List ℕ) (from until serial : ℕ) → length key ≡ 60 → serial < 2 ^ 64
        → from ≤ last_second → until ≤ last_second
        → length (OwnCertificate (OwnTbs text from until key serial) signature) ≤ 8192
        → certificate_in 48 (OwnCertificate (OwnTbs text from until key serial) signature)
        ≡ Ok (own_fields text from until key serial, (own_algorithm, (0 ∷ signature, tt))) }
{}
