//! The files that a command on a register reads.
ghost use Rattle.std.specs.Prelude.{◌≡◌, ◌<◌, ◌≤◌, ◌^◌, ℕ, List, IfErr, IfOk, IfSome, length, option_map};
ghost use Rattle.dv_asn1.specs.Lists.{lists_of};
ghost use Rattle.dv_outside.specs.Causes.{Rose};
ghost use Rattle.dv_schema.specs.Tlv.{tlv};
ghost use Rattle.dv_files.specs.Certificates.{AreCertificates};
ghost use Rattle.dv_exit.specs.Files.{HasCertificates, HasNoCertificates, HasNoTrust, HasTrust, IsDesk, IsFileStatus, IsNoDesk, IsNoSeed, IsSeedOf};
ghost use Rattle.dv_exit.specs.Lines.{policy_named};

use crate::messages::{refused, say, say_place};
use crate::status::Status;
use dv_asn1::{Writer, value_len};
use dv_draft::Server;
use dv_files::{CertificateFile, SeedFile, is_key_of, read_certificates, read_seed};
use dv_lines::Policy;
use dv_outside::{Diag, Shelf, ShelfRefusal};
use dv_path::{Trust, TrustFile};
use dv_register::SigningKey;
use dv_session::Desk;
use std::alloc::{AllocError, Global};

/// How many octets a seed file has.
const SEED_LEN: u64 = 60;

/// The most octets of a certificate file.
const CERTIFICATES_LIMIT: u64 = 49_152;

/// The most octets of a trust file.
const TRUST_LIMIT: u64 = 131_072;

/// The tag of an OBJECT IDENTIFIER (X.690 8.19).
const OBJECT_IDENTIFIER: u8 = 0x06;

/// The names of the files of a server.
#[derive(Clone, Copy)]
pub struct Names<'a> {
    pub seed: &'a str,
    pub certificate: &'a str,
    pub trust: &'a str,
}

/// The key of the seed in a file.
pub fn read_key<F: Shelf, E: Diag>(
    alloc: Global,
    name: &str,
    shelf: &mut F,
    diag: &mut E,
) -> Result<SigningKey, Status>
    ensures key { IfOk result (λ key. IsSeedOf (F.files shelf.old) name.now key) }
    ensures no_seed { result ≡ Err Status.File → IfSome (F.files shelf.old) (λ file. IsNoSeed (file name.now)) }
    ensures fault { result ≡ Err Status.Shelf → Rose (F.faults shelf.old) (F.faults shelf.new) }
    ensures status { IfErr result IsFileStatus }
    ensures later { F.faults shelf.old ≤ F.faults shelf.new }
    ensures files { F.files shelf.new ≡ F.files shelf.old }
{
    let octets = match shelf.read(alloc, name, SEED_LEN) {
        Ok(octets) => octets,
        Err(refusal) => return Err(refused(alloc, diag, name, SEED_LEN, refusal)),
    };
    match read_seed(alloc, &octets) {
        Ok(key) => Ok(key),
        Err(SeedFile::Refused { place }) => {
            say_place(alloc, diag, name, place);
            Err(Status::File)
        }
        Err(SeedFile::Memory) => Err(refused(alloc, diag, name, SEED_LEN, ShelfRefusal::Memory)),
    }
}

/// The certificates in a file.
fn read_chain<F: Shelf, E: Diag>(
    alloc: Global,
    name: &str,
    shelf: &mut F,
    diag: &mut E,
) -> Result<Vec<Vec<u8>>, Status>
    ensures certificates { IfOk result (λ v. HasCertificates (F.files shelf.old) name.now (lists_of v.items)) }
    ensures none { result ≡ Err Status.File → IfSome (F.files shelf.old) (λ file. HasNoCertificates (file name.now)) }
    ensures fault { result ≡ Err Status.Shelf → Rose (F.faults shelf.old) (F.faults shelf.new) }
    ensures status { IfErr result IsFileStatus }
    ensures later { F.faults shelf.old ≤ F.faults shelf.new }
    ensures files { F.files shelf.new ≡ F.files shelf.old }
{
    let octets = match shelf.read(alloc, name, CERTIFICATES_LIMIT) {
        Ok(octets) => octets,
        Err(refusal) => return Err(refused(alloc, diag, name, CERTIFICATES_LIMIT, refusal)),
    };
    match read_certificates(alloc, &octets) {
        Ok(certificates) => Ok(certificates),
        Err(CertificateFile::Refused { place }) => {
            say_place(alloc, diag, name, place);
            Err(Status::File)
        }
        Err(CertificateFile::Memory) => Err(refused(
            alloc,
            diag,
            name,
            CERTIFICATES_LIMIT,
            ShelfRefusal::Memory,
        )),
    }
}

/// The trust anchors in a file.
fn read_trust<F: Shelf, E: Diag>(
    alloc: Global,
    name: &str,
    shelf: &mut F,
    diag: &mut E,
) -> Result<Trust, Status>
    ensures trust { IfOk result (λ t. HasTrust (F.files shelf.old) name.now t) }
    ensures none { result ≡ Err Status.File → IfSome (F.files shelf.old) (λ file. HasNoTrust (file name.now)) }
    ensures fault { result ≡ Err Status.Shelf → Rose (F.faults shelf.old) (F.faults shelf.new) }
    ensures status { IfErr result IsFileStatus }
    ensures later { F.faults shelf.old ≤ F.faults shelf.new }
    ensures files { F.files shelf.new ≡ F.files shelf.old }
{
    let octets = match shelf.read(alloc, name, TRUST_LIMIT) {
        Ok(octets) => octets,
        Err(refusal) => return Err(refused(alloc, diag, name, TRUST_LIMIT, refusal)),
    };
    match Trust::decode(alloc, &octets) {
        Ok(trust) => Ok(trust),
        Err(TrustFile::Der { place }) => {
            say_place(alloc, diag, name, place);
            Err(Status::File)
        }
        Err(TrustFile::Empty) => {
            say(alloc, diag, name, "the trust file is empty");
            Err(Status::File)
        }
        Err(TrustFile::TooMany) => {
            say(
                alloc,
                diag,
                name,
                "the trust file has more than 16 certificates",
            );
            Err(Status::File)
        }
        Err(TrustFile::Memory) => {
            Err(refused(alloc, diag, name, TRUST_LIMIT, ShelfRefusal::Memory))
        }
    }
}

/// The contents octets of a PolicyInformation (RFC 5280 4.2.1.4) that has this identifier alone.
fn policy_octets(alloc: Global, id: &[u8]) -> Result<Vec<u8>, AllocError>
    requires { length id.now < 2 ^ 32 }
    ensures { IfOk result (λ v. v.items ≡ tlv 6 id.now) }
{
    let mut octets = vec![in alloc; 0u8; value_len(id.len())]?;
    fill_policy(&mut octets, id);
    Ok(octets)
}

/// Fills a slice of their size with the contents octets of a PolicyInformation that has this identifier alone.
fn fill_policy(into: &mut [u8], id: &[u8])
    requires { length into.old ≡ length (tlv 6 id.now) }
    ensures { into.new ≡ tlv 6 id.now }
{
    let mut out = Writer::new(into);
    out.tlv(OBJECT_IDENTIFIER, id);
}

/// The contents octets of the policy that a line names, where it names one.
fn policy_in(alloc: Global, policy: Option<&Policy>) -> Result<Option<Vec<u8>>, AllocError>
    ensures { IfOk result (λ p. option_map (λ v. v.items) p ≡ option_map (tlv 6) (policy_named policy.entry)) }
{
    match policy {
        None => Ok(None),
        Some(policy) => Ok(Some(policy_octets(alloc, policy.as_slice())?)),
    }
}

/// The server of these certificates, with the policy that a line names.
fn server_of(
    alloc: Global,
    certificates: Vec<Vec<u8>>,
    policy: Option<&Policy>,
) -> Result<Server, AllocError>
    requires { (octets : List ℕ) × AreCertificates octets (lists_of certificates.items) }
    ensures certificates { IfOk result (λ s. s.certificates ≡ lists_of certificates.items) }
    ensures policy { IfOk result (λ s. s.policy ≡ option_map (tlv 6) (policy_named policy.entry)) }
{
    let policy = policy_in(alloc, policy)?;
    match Server::new(certificates, policy) {
        Some(server) => Ok(server),
        None => unreachable!(),
    }
}

/// What a server answers with, by its files, which are read in their order, and the policy that the line names.
pub fn read_desk<F: Shelf, E: Diag>(
    alloc: Global,
    names: &Names<'_>,
    policy: Option<&Policy>,
    shelf: &mut F,
    diag: &mut E,
) -> Result<Desk, Status>
    ensures desk { IfOk result (λ d. IsDesk (F.files shelf.old) names.now.seed.now names.now.certificate.now names.now.trust.now (policy_named policy.entry) d.key d.server d.trust) }
    ensures none { result ≡ Err Status.File → IsNoDesk (F.files shelf.old) names.now.seed.now names.now.certificate.now names.now.trust.now }
    ensures fault { result ≡ Err Status.Shelf → Rose (F.faults shelf.old) (F.faults shelf.new) }
    ensures status { IfErr result IsFileStatus }
    ensures later { F.faults shelf.old ≤ F.faults shelf.new }
    ensures files { F.files shelf.new ≡ F.files shelf.old }
{
    let key = read_key(alloc, names.seed, shelf, diag)?;
    let certificates = read_chain(alloc, names.certificate, shelf, diag)?;
    let trust = read_trust(alloc, names.trust, shelf, diag)?;
    let Ok(server) = server_of(alloc, certificates, policy) else {
        diag.line("there is not enough memory for the server's certificates");
        return Err(Status::Memory);
    };
    if !is_key_of(server.certificates.as_slice()[0].as_slice(), &key) {
        say(
            alloc,
            diag,
            names.certificate,
            "the first certificate has another key than the seed",
        );
        return Err(Status::File);
    }
    Ok(Desk { server, trust, key })
}
