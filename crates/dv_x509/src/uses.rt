//! What a certificate says of itself and of its key.

ghost use Rattle.std.specs.Prelude.{◌≡◌, ◌∷◌, [], true, List, length, Ok, Some};
ghost use Rattle.std.specs.List.{list_any};
ghost use Rattle.std.specs.Option.{option_copied};
ghost use Rattle.dv_schema.specs.Schema.{spelling, ValueOf};
ghost use Rattle.dv_schema.specs.Reading.{all_at, read};
ghost use Rattle.dv_schema.specs.Tlv.{length_octets};
ghost use Rattle.dv_names.specs.Types.{extension};
ghost use Rattle.dv_names.specs.Views.{view_algorithm, view_extension};
ghost use Rattle.dv_x509.specs.Members.{front_of};
ghost use Rattle.dv_x509.specs.Types.{certificate, is_bound};
ghost use Rattle.dv_x509.specs.View.{view_certificate};
ghost use Rattle.dv_x509.specs.Uses.{asserts as asserted, authority_in, bits_below, bound_of as bound_in, ca_of, has_purpose as purpose_listed, has_unknown_critical, is_hss as hss, is_unknown_critical as unknown_critical, key_id_of, key_of as key_in, lists_policy as policy_listed, lists_purpose as purpose_in, plain_key as plain, usage_number, usage_of, value_of};
ghost use Rattle.sha2.specs.Sha256.{sha256};

use crate::certificate::Certificate;
use crate::find::find;
use crate::known::{Purpose, UNKNOWN, known_place, read_constraints};
use dv_asn1::{Cursor, Decode, Writer, header_len, read_list, same};
use dv_names::identifiers::{
    BASIC_CONSTRAINTS, CERTIFICATE_POLICIES, EXTENDED_KEY_USAGE, ID_ALG_HSS_LMS_HASHSIG, KEY_USAGE,
    SUBJECT_KEY_IDENTIFIER,
};
use dv_names::{AlgId, Extension, Oid, PolicyInfo};
use sha2::{Digest, Sha256};

const SEQUENCE: u8 = 0x30;

/// How many octets an HSS public key of one level has (RFC 8554 6.1).
const KEY_LEN: usize = 60;

/// Whether the holder of a certificate may issue others (RFC 5280 4.2.1.9).
#[derive(Clone, Copy, Debug, PartialEq, Eq)]
pub enum Ca {
    No,
    /// It may; `bound` is the most certificates between it and the last one of a path, where that is bounded. A bound past
    /// 255 is read as 255.
    Yes { bound: Option<u64> },
}

impl<'a> Certificate<'a> {
    /// The 60 octets of the HSS public key (RFC 9708 4), as the bits of the key or inside an OCTET STRING there.
    ///
    /// None exactly where the algorithm isn't HSS without parameters, some bits of the BIT STRING are unused, or neither form
    /// has 60 octets.
    pub fn key(&self) -> Option<&'a [u8]>
        ensures { option_copied result ≡ key_in (view_certificate self.now) }
    {
        let (unused, octets) = self.key_bits;
        if !is_hss(&self.key_alg) || unused != 0 {
            return None;
        }
        plain_key(octets)
    }

    /// The first 16 bits of keyUsage (RFC 5280 4.2.1.3), bit i at 2^i; None exactly where that extension is absent.
    pub fn usage(&self) -> Option<u16>
        ensures { result ≡ usage_of (view_certificate self.now) }
    {
        match self.value(&KEY_USAGE) {
            None => None,
            Some(value) => Some(usage_in(value)),
        }
    }

    /// Whether extKeyUsage is present and lists the purpose, of which these are the contents octets.
    pub fn has_purpose(&self, oid: &[u8]) -> bool
        ensures { result ≡ purpose_listed (view_certificate self.now) oid.now }
    {
        match self.value(&EXTENDED_KEY_USAGE) {
            None => false,
            Some(value) => lists_purpose(value, oid),
        }
    }

    /// Whether certificatePolicies is present and lists the policy, of which these are the contents octets. The policy
    /// anyPolicy stands for itself alone.
    pub fn asserts(&self, policy: &[u8]) -> bool
        ensures { result ≡ asserted (view_certificate self.now) policy.now }
    {
        match self.value(&CERTIFICATE_POLICIES) {
            None => false,
            Some(value) => lists_policy(value, policy),
        }
    }

    /// Whether basicConstraints says that the holder may issue certificates, and how long paths below it may be.
    pub fn ca(&self) -> Ca
        ensures { result ≡ ca_of (view_certificate self.now) }
    {
        match self.value(&BASIC_CONSTRAINTS) {
            None => Ca::No,
            Some(value) => constraints_in(value),
        }
    }

    /// The octets of subjectKeyIdentifier; None exactly where that extension is absent.
    pub fn key_id(&self) -> Option<&'a [u8]>
        ensures { option_copied result ≡ key_id_of (view_certificate self.now) }
    {
        match self.value(&SUBJECT_KEY_IDENTIFIER) {
            None => None,
            Some(value) => match Cursor::new(value).read_octets() {
                Err(_) => Some(&[]),
                Ok(octets) => Some(octets),
            },
        }
    }

    /// Whether a critical extension is none of the known ones: keyUsage, extKeyUsage, basicConstraints,
    /// subjectKeyIdentifier, authorityKeyIdentifier and certificatePolicies.
    pub fn unknown_critical(&self) -> bool
        ensures { result ≡ has_unknown_critical (view_certificate self.now) }
    {
        match self.extensions {
            None => false,
            Some(octets) => any_unknown_critical(octets),
        }
    }

    /// The SHA-256 digest of the certificate under the tag of a SEQUENCE. It copies nothing but the header.
    pub fn hash(&self) -> [u8; 32]
        ensures { result ≡ sha256 (spelling (certificate 48) (view_certificate self.now)) }
    {
        let mut head = [0; 10];
        let len = header_len(self.body.len());
        write_header(&mut head[..len], self.body.len());
        let mut hasher = Sha256::new();
        hasher.update(&head[..len]);
        hasher.update(self.body);
        hasher.finalize()
    }

    /// The value of the extension with this identifier.
    fn value(&self, id: &[u8]) -> Option<&'a [u8]>
        ensures { option_copied result ≡ value_of id.now (view_certificate self.now) }
    {
        match self.extensions {
            None => None,
            Some(octets) => match find::<Extension>(octets, id) {
                None => None,
                Some(extension) => Some(extension.value),
            },
        }
    }
}

/// Fills a slice with the header of a SEQUENCE whose contents have this many octets.
fn write_header(into: &mut [u8], contents: usize)
    requires { length into.old ≡ length (48 ∷ length_octets contents) }
    ensures { into.new ≡ 48 ∷ length_octets contents }
{
    let mut out = Writer::new(into);
    out.header(SEQUENCE, contents);
}

/// Whether an algorithm, of a key or of a signature, is HSS (RFC 9708 3, 4): its identifier, and no parameters.
pub fn is_hss(alg: &AlgId<'_>) -> bool
    ensures { result ≡ hss (view_algorithm alg.now) }
{
    match alg.params {
        None => same(alg.oid.octets, &ID_ALG_HSS_LMS_HASHSIG),
        Some(_) => false,
    }
}

/// A key of 60 octets as it is, or inside an OCTET STRING.
fn plain_key(octets: &[u8]) -> Option<&[u8]>
    ensures { option_copied result ≡ plain octets.now }
{
    if octets.len() == KEY_LEN {
        return Some(octets);
    }
    match octets {
        [0x04, 60, key @ ..] => {
            if key.len() == KEY_LEN {
                Some(key)
            } else {
                None
            }
        }
        _ => None,
    }
}

/// The first 16 bits of a KeyUsage, bit i at 2^i.
fn usage_in(value: &[u8]) -> u16
    ensures { result ≡ usage_number value.now }
{
    match Cursor::new(value).read_bits(0x03) {
        Err(_) => first_bits(&[]),
        Ok((_, octets)) => first_bits(octets),
    }
}

/// The first 16 bits of octets, bit i at 2^i.
fn first_bits(octets: &[u8]) -> u16
    ensures { result ≡ bits_below 16 octets.now }
{
    let mut bits = 0;
    for i in 0..16usize {
        if i / 8 < octets.len() {
            bits += (octets[i / 8] >> (7 - i % 8) as u8) as u16 % 2 * (1 << i);
        }
    }
    bits
}

/// Whether an ExtKeyUsageSyntax lists the purpose.
fn lists_purpose(value: &[u8], purpose: &[u8]) -> bool
    ensures { result ≡ purpose_in purpose.now (Some value.now) }
{
    let mut next = Cursor::new(value);
    let _octets = next.fork();
    match read_list::<Purpose>(&mut next, SEQUENCE, true) {
        Err(_) => false,
        Ok(purposes) => find::<Oid>(purposes, purpose).is_some(),
    }
}

/// Whether CertificatePolicies list the policy.
fn lists_policy(value: &[u8], policy: &[u8]) -> bool
    ensures { result ≡ policy_listed policy.now (Some value.now) }
{
    let mut next = Cursor::new(value);
    let _octets = next.fork();
    match read_list::<PolicyInfo>(&mut next, SEQUENCE, true) {
        Err(_) => false,
        Ok(policies) => find::<PolicyInfo>(policies, policy).is_some(),
    }
}

/// What BasicConstraints say.
fn constraints_in(value: &[u8]) -> Ca
    ensures { result ≡ authority_in (Some value.now) }
{
    match read_constraints(&mut Cursor::new(value)) {
        Err(_) => Ca::No,
        Ok(constraints) => {
            if !constraints.authority {
                return Ca::No;
            }
            match constraints.bound {
                None => Ca::Yes { bound: None },
                Some(bound) => Ca::Yes {
                    bound: Some(bound_of(bound)),
                },
            }
        }
    }
}

/// The number of a bound, of which more than 255 is read as 255.
fn bound_of(octets: &[u8]) -> u64
    requires { is_bound octets.now ≡ true }
    ensures { result ≡ bound_in octets.now }
{
    match octets {
        [number] => *number as u64,
        [0x00, number] => *number as u64,
        _ => 255,
    }
}

/// Whether one of these extensions is critical and none of the known ones.
fn any_unknown_critical(octets: &[u8]) -> bool
    ensures { (vs : List (ValueOf extension))
        → all_at (read extension) (length octets.now) (front_of octets.now) ≡ Ok vs
        → result ≡ list_any unknown_critical vs }
{
    let mut next = Cursor::new(octets);
    while !next.at_end() {
        match Extension::read(&mut next) {
            Err(_) => return false,
            Ok(extension) => {
                if is_unknown_critical(&extension) {
                    return true;
                }
            }
        }
    }
    false
}

/// Whether the extension is critical and none of the known ones.
fn is_unknown_critical(extension: &Extension<'_>) -> bool
    ensures { result ≡ unknown_critical (view_extension extension.now) }
{
    extension.critical && known_place(extension.oid.octets) == UNKNOWN
}
