//! One target, its chain, and how they are written from certificates.

ghost use Rattle.std.specs.Prelude.{◌≡◌, ◌≤◌, ◌+◌, ◌↔◌, IsTrue, length, sum_by, true};
ghost use Rattle.std.specs.List.{flat_map};
ghost use Rattle.dv_schema.specs.Schema.{contents as contents_of, sequence_of};
ghost use Rattle.dv_asn1.specs.Lists.{lists_of};
ghost use Rattle.dv_asn1.specs.Writing.{room_of, Writes};
ghost use Rattle.dv_request.specs.Made.{retagged, spelled_certs, spelled_chain, targets_from};
ghost use Rattle.dv_request.specs.Types.{target_chain};

use crate::make::REQUEST_LIMIT;
use dv_asn1::{Writer, header_len};

/// The tag of a certificate as a target or a link, and of the list of targets.
const CERTIFICATE: u8 = 0xA0;

const SEQUENCE: u8 = 0x30;

/// Whether they have no more octets than a request may have.
pub(crate) fn are_short(certificates: &[Vec<u8>]) -> bool
    ensures { IsTrue result ↔ (sum_by (λ v. length v.items) certificates.now ≤ 262144) }
{
    let mut total = 0;
    for certificate in certificates {
        if certificate.len() > REQUEST_LIMIT - total {
            return false;
        }
        total += certificate.len();
    }
    true
}

/// How many octets the list has whose one target is the first certificate, with the others as its chain.
pub(crate) fn certs_len(certificates: &[Vec<u8>]) -> usize
    requires { sum_by (λ v. length v.items) certificates.now ≤ 262144 }
    ensures octets { result ≡ length (spelled_certs (lists_of certificates.now)) }
    ensures few { result ≤ sum_by (λ v. length v.items) certificates.now + 30 }
{
    let targets = targets_len(certificates);
    header_len(targets) + targets
}

/// Writes that list.
pub(crate) fn write_certs(certificates: &[Vec<u8>], out: &mut Writer<'_>)
    requires short { sum_by (λ v. length v.items) certificates.now ≤ 262144 }
    requires room { length (spelled_certs (lists_of certificates.now)) ≤ room_of out.old }
    ensures { Writes out.old out.new (spelled_certs (lists_of certificates.now)) }
{
    out.header(CERTIFICATE, targets_len(certificates));
    write_target(certificates, out);
}

/// How many octets the contents of the list have.
fn targets_len(certificates: &[Vec<u8>]) -> usize
    requires { sum_by (λ v. length v.items) certificates.now ≤ 262144 }
    ensures octets { result ≡ length (contents_of (sequence_of true target_chain) (targets_from (lists_of certificates.now))) }
    ensures few { result ≤ sum_by (λ v. length v.items) certificates.now + 20 }
{
    match certificates {
        [] => 0,
        [target, chain @ ..] => {
            let contents = target.len() + chain_len(chain);
            header_len(contents) + contents
        }
    }
}

/// Writes the contents of the list.
fn write_target(certificates: &[Vec<u8>], out: &mut Writer<'_>)
    requires short { sum_by (λ v. length v.items) certificates.now ≤ 262144 }
    requires room { length (contents_of (sequence_of true target_chain) (targets_from (lists_of certificates.now))) ≤ room_of out.old }
    ensures { Writes out.old out.new (contents_of (sequence_of true target_chain) (targets_from (lists_of certificates.now))) }
{
    match certificates {
        [] => {}
        [target, chain @ ..] => {
            out.header(SEQUENCE, target.len() + chain_len(chain));
            write_token(target, out);
            write_chain(chain, out);
        }
    }
}

/// How many octets they have.
fn octets_len(certificates: &[Vec<u8>]) -> usize
    requires { sum_by (λ v. length v.items) certificates.now ≤ 262144 }
    ensures { result ≡ sum_by (λ v. length v.items) certificates.now }
{
    certificates
        .iter()
        .map(|certificate| certificate.len())
        .sum()
}

/// How many octets the chain has; none where there is no certificate.
fn chain_len(chain: &[Vec<u8>]) -> usize
    requires { sum_by (λ v. length v.items) chain.now ≤ 262144 }
    ensures octets { result ≡ length (spelled_chain (lists_of chain.now)) }
    ensures few { result ≤ sum_by (λ v. length v.items) chain.now + 10 }
{
    if chain.is_empty() {
        return 0;
    }
    let links = octets_len(chain);
    header_len(links) + links
}

/// Writes the chain.
fn write_chain(chain: &[Vec<u8>], out: &mut Writer<'_>)
    requires short { sum_by (λ v. length v.items) chain.now ≤ 262144 }
    requires room { length (spelled_chain (lists_of chain.now)) ≤ room_of out.old }
    ensures { Writes out.old out.new (spelled_chain (lists_of chain.now)) }
{
    if chain.is_empty() {
        return;
    }
    out.header(SEQUENCE, octets_len(chain));
    write_links(chain, out);
}

/// Writes the links of a chain.
fn write_links(chain: &[Vec<u8>], out: &mut Writer<'_>)
    requires { length (flat_map (retagged 160) (lists_of chain.now)) ≤ room_of out.old }
    ensures { Writes out.old out.new (flat_map (retagged 160) (lists_of chain.now)) }
{
    for certificate in chain {
        write_token(certificate, out);
    }
}

/// Writes a certificate as a token: under its tag, in place of that of a SEQUENCE.
fn write_token(certificate: &[u8], out: &mut Writer<'_>)
    requires { length (retagged 160 certificate.now) ≤ room_of out.old }
    ensures { Writes out.old out.new (retagged 160 certificate.now) }
{
    match certificate {
        [] => {}
        [_, contents @ ..] => {
            out.bytes(&[CERTIFICATE]);
            out.bytes(contents);
        }
    }
}
