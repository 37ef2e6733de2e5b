//! Servers.

ghost use Rattle.std.specs.Prelude.{◌≡◌, ◌≤◌, ◌↔◌, All, IfSome, IsSome, IsTrue, length, option_map};
ghost use Rattle.std.specs.Option.{ForSome};
ghost use Rattle.dv_schema.specs.Octets.{IsBytes};
ghost use Rattle.dv_schema.specs.Reading.{read_all};
ghost use Rattle.dv_schema.specs.Types.{oid};
ghost use Rattle.dv_schema.specs.Answers.{Gives};
ghost use Rattle.dv_asn1.specs.Lists.{lists_of};
ghost use Rattle.dv_members.specs.Members.{front_of};
ghost use Rattle.dv_draft.specs.Records.{IsCertificate};
ghost use Rattle.dv_draft.specs.Servers.{IsPolicyName, IsServer};

use dv_asn1::{Cursor, Der, OctetLists, Octets};
use dv_x509::Certificate;

/// The tag of a certificate.
const SEQUENCE: u8 = 0x30;

/// The most octets that a policy has.
const POLICY_LIMIT: usize = 2048;

/// The most certificates that a server has.
const CERTIFICATE_COUNT_LIMIT: usize = 6;

/// The certificates that a server signs under, its own first, and its policy.
#[derive(Debug, Drop)]
pub struct Server {
    /// 1 to 6 certificates (RFC 5280 4.1), each under tag 30.
    pub certificates: OctetLists,
    /// The contents octets of a PolicyInformation (RFC 5280 4.2.1.4) that has an identifier alone, at most 2,048.
    pub policy: Option<Octets>,
    ghost some: { 1 ≤ length certificates },
    ghost few: { length certificates ≤ 6 },
    ghost decoded: { All IsCertificate certificates },
    ghost named: { ForSome policy IsPolicyName },
}

impl Server {
    /// A server with these certificates, its own first, and this policy, as the contents octets of a PolicyInformation.
    ///
    /// None exactly where there is no certificate or more than 6, where one of them doesn't decode under tag 30, or where
    /// the policy has more than 2,048 octets or isn't an identifier alone.
    pub fn new(certificates: Vec<Vec<u8>>, policy: Option<Vec<u8>>) -> Option<Server>
        ensures exact { IsSome result ↔ IsServer (lists_of certificates.items) (option_map (λ v. v.items) policy) }
        ensures certificates { IfSome result (λ s. s.certificates ≡ lists_of certificates.items) }
        ensures policy { IfSome result (λ s. s.policy ≡ option_map (λ v. v.items) policy) }
    {
        if certificates.is_empty() || certificates.len() > CERTIFICATE_COUNT_LIMIT {
            return None;
        }
        if !are_certificates(&certificates) {
            return None;
        }
        if !is_policy(&policy) {
            return None;
        }
        Some(Server {
            certificates: OctetLists::new(certificates),
            policy: octets_of(policy),
        })
    }
}

/// Whether each decodes under tag 30.
fn are_certificates(certificates: &[Vec<u8>]) -> bool
    ensures { IsTrue result ↔ All IsCertificate (lists_of certificates.now) }
{
    for certificate in certificates {
        if !is_certificate(certificate) {
            return false;
        }
    }
    true
}

/// Whether the octets decode under tag 30.
fn is_certificate(octets: &[u8]) -> bool
    ensures { IsTrue result ↔ IsCertificate octets.now }
{
    Certificate::decode(octets, SEQUENCE).is_ok()
}

/// Whether a policy that is there is an identifier alone.
fn is_policy(policy: &Option<Vec<u8>>) -> bool
    ensures { IsTrue result ↔ ForSome (option_map (λ v. v.items) policy.now) IsPolicyName }
{
    match policy {
        None => true,
        Some(octets) => is_policy_name(octets),
    }
}

/// The octets of a vector, where there is one.
fn octets_of(vector: Option<Vec<u8>>) -> Option<Octets>
    ensures { result ≡ option_map (λ v. v.items) vector }
{
    match vector {
        None => None,
        Some(octets) => Some(Octets::new(octets)),
    }
}

/// Whether the octets are an identifier, alone, and at most 2,048.
fn is_policy_name(octets: &[u8]) -> bool
    ensures { IsTrue result ↔ IsPolicyName octets.now }
{
    octets.len() <= POLICY_LIMIT && read_identifier(octets).is_ok()
}

/// The contents octets of the identifier that the octets are, with nothing after it.
#[tactic(auto, unfolding(dv_schema::specs::Reading::read))]
fn read_identifier(octets: &[u8]) -> Result<&[u8], Der>
    ensures octets { IsBytes octets.now }
    ensures read { Gives (λ x. x.now) result (read_all oid (front_of octets.now)) }
{
    let mut c = Cursor::new(octets);
    let _octets = c.fork();
    let identifier = c.read_oid()?;
    c.finish()?;
    Ok(identifier)
}
