//! The command `request cpkc`.
ghost use Rattle.std.specs.Prelude.{◌≡◌, ◌≢◌, ◌⊎◌, ◌*◌, ◌≤◌, All, IfErr, IfOk, IfSome, length, map, sum_by};
ghost use Rattle.dv_asn1.specs.Lists.{lists_of};
ghost use Rattle.dv_request.specs.Materials.{IsCertificate as FitsRequest};
ghost use Rattle.dv_outside.specs.Causes.{Rose};
ghost use Rattle.dv_outside.specs.Station.{Spends};
ghost use Rattle.dv_tool.specs.Certificates.{AreFilesOf, HasBadFile, IsFileOf, IsNoCertificate};
ghost use Rattle.dv_exit.specs.Files.{IsFileStatus};
ghost use Rattle.dv_exit.specs.Status.{number_of};
ghost use Rattle.dv_tool.specs.Tool.{IsPutStatus, nonce_in, PutsValidation, validation_for};

use crate::request::octets_in;
use dv_exit::{Status, refused, say, say_place};
use dv_lines::Nonce;
use dv_outside::{Diag, Shelf, Station};
use dv_request::{Make, Material, Service, make_request};
use dv_time::Moment;
use dv_x509::{Certificate, X509};
use std::alloc::Global;

/// The tag of a SEQUENCE.
const SEQUENCE: u8 = 0x30;

/// The most octets of a certificate's file.
const CERTIFICATE_LIMIT: u64 = 8192;

/// What a request is to validate: the certificate in the first of the files, with those in the others as its chain.
#[derive(Clone, Copy)]
pub(crate) struct Validation<'a> {
    pub(crate) files: &'a [&'a str],
    pub(crate) nonce: Option<&'a Nonce>,
    pub(crate) at: Option<Moment>,
}

/// Says why a file is no certificate.
fn say_cause<E: Diag>(alloc: Global, diag: &mut E, name: &str, cause: X509) {
    match cause {
        X509::Der(refusal) => say_place(alloc, diag, name, refusal.place),
        X509::Version => say(alloc, diag, name, "the certificate has an unknown version"),
        X509::Algorithm => say(
            alloc,
            diag,
            name,
            "the two signature algorithms of the certificate differ",
        ),
        X509::TooLong => say(alloc, diag, name, "the certificate is too long"),
    }
}

/// The certificate in a file.
fn read_certificate<F: Shelf, E: Diag>(
    alloc: Global,
    name: &str,
    shelf: &mut F,
    diag: &mut E,
) -> Result<Vec<u8>, Status>
    ensures certificate { IfOk result (λ v. IsFileOf (F.files shelf.old) name.now v.items) }
    ensures fits { IfOk result (λ v. FitsRequest v.items) }
    ensures short { IfOk result (λ v. length v.items ≤ 8192) }
    ensures none { result ≡ Err Status.File → IfSome (F.files shelf.old) (λ file. IsNoCertificate (file name.now)) }
    ensures fault { result ≡ Err Status.Shelf → Rose (F.faults shelf.old) (F.faults shelf.new) }
    ensures status { IfErr result IsFileStatus }
    ensures later { F.faults shelf.old ≤ F.faults shelf.new }
    ensures files { F.files shelf.new ≡ F.files shelf.old }
{
    let octets = match shelf.read(alloc, name, CERTIFICATE_LIMIT) {
        Ok(octets) => octets,
        Err(refusal) => return Err(refused(alloc, diag, name, CERTIFICATE_LIMIT, refusal)),
    };
    match Certificate::decode(&octets, SEQUENCE) {
        Ok(_) => Ok(octets),
        Err(cause) => {
            say_cause(alloc, diag, name, cause);
            Err(Status::File)
        }
    }
}

/// The certificates in files, which are read in their order up to the first that isn't had.
fn read_chain<F: Shelf, E: Diag>(
    alloc: Global,
    names: &[&str],
    shelf: &mut F,
    diag: &mut E,
) -> Result<Vec<Vec<u8>>, Status>
    ensures certificates { IfOk result (λ v. AreFilesOf (F.files shelf.old) (map (λ n. n.now) names.now) (lists_of v.items)) }
    ensures fit { IfOk result (λ v. All FitsRequest (lists_of v.items)) }
    ensures count { IfOk result (λ v. length v.items ≡ length names.now) }
    ensures short { IfOk result (λ v. sum_by (λ c. length c.items) v.items ≤ length names.now * 8192) }
    ensures bad { result ≡ Err Status.File → HasBadFile (F.files shelf.old) (map (λ n. n.now) names.now) }
    ensures fault { result ≡ Err Status.Shelf → Rose (F.faults shelf.old) (F.faults shelf.new) }
    ensures status { IfErr result IsFileStatus }
    ensures later { F.faults shelf.old ≤ F.faults shelf.new }
    ensures files { F.files shelf.new ≡ F.files shelf.old }
{
    let mut certificates = Vec::new(alloc);
    for name in names {
        let certificate = read_certificate(alloc, name, shelf, diag)?;
        if certificates.push(certificate).is_err() {
            say(
                alloc,
                diag,
                name,
                "there is not enough memory for the certificates",
            );
            return Err(Status::Memory);
        }
    }
    Ok(certificates)
}

/// The request to validate the first of these certificates.
fn request_of_chain(
    alloc: Global,
    certificates: &[Vec<u8>],
    nonce: Option<&Nonce>,
    at: Option<Moment>,
) -> Result<Vec<u8>, Make>
    requires count { (1 ≤ length certificates.now) × (length certificates.now ≤ 16) }
    requires fit { All FitsRequest (lists_of certificates.now) }
    requires short { sum_by (λ c. length c.items) certificates.now ≤ 131072 }
    ensures request { IfOk result (λ v. v.items ≡ validation_for (lists_of certificates.now) (nonce_in nonce.entry) at) }
    ensures short { IfOk result (λ v. length v.items ≤ 262144) }
    ensures memory { IfErr result (λ fault. fault ≡ Make.Memory) }
{
    make_request(
        alloc,
        Service::Cpkc,
        &Material::Certificates(certificates),
        octets_in(nonce),
        at,
    )
}

/// Reads the certificates, and puts the request for them.
pub(crate) fn put_validation<V: Station, F: Shelf, E: Diag>(
    alloc: Global,
    asked: &Validation<'_>,
    shelf: &mut F,
    diag: &mut E,
    station: &mut V,
) -> Status
    requires { (1 ≤ length asked.now.files.now) × (length asked.now.files.now ≤ 16) }
    ensures status { IsPutStatus (number_of result) }
    ensures words { result ≢ Status.Words }
    ensures put { (result ≡ Status.Done) ⊎ (result ≡ Status.Put)
        → PutsValidation (F.files shelf.old) (map (λ n. n.now) asked.now.files.now) (nonce_in asked.now.nonce) asked.now.at (number_of result) (V.tells station.old) (V.content station.old) (V.content station.new) }
    ensures quiet { result ≢ Status.Done → result ≢ Status.Put → station.new ≡ station.old }
    ensures bad { result ≡ Status.File → HasBadFile (F.files shelf.old) (map (λ n. n.now) asked.now.files.now) }
    ensures put_fault { result ≡ Status.Put → Rose (V.counts station.old).put_faults (V.counts station.new).put_faults }
    ensures shelf_fault { result ≡ Status.Shelf → Rose (F.faults shelf.old) (F.faults shelf.new) }
    ensures shelf_later { F.faults shelf.old ≤ F.faults shelf.new }
    ensures shelf_files { F.files shelf.new ≡ F.files shelf.old }
    ensures spends { Spends 1 262144 (V.counts station.old) (V.counts station.new) }
    ensures tells { V.tells station.new ≡ V.tells station.old }
{
    let certificates = match read_chain(alloc, asked.files, shelf, diag) {
        Ok(certificates) => certificates,
        Err(status) => return status,
    };
    let Ok(request) = request_of_chain(alloc, &certificates, asked.nonce, asked.at) else {
        diag.line("there is not enough memory for the request");
        return Status::Memory;
    };
    match station.put(&request) {
        Ok(()) => Status::Done,
        Err(_) => {
            diag.line("the request can't be written to the output");
            Status::Put
        }
    }
}
