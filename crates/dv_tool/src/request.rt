//! The command `request`.
ghost use Rattle.std.specs.Prelude.{◌≡◌, ◌≢◌, ◌⊎◌, ◌≤◌, IfErr, IfOk, IfSome, length, true};
ghost use Rattle.std.specs.Option.{option_copied};
ghost use Rattle.dv_request.specs.Made.{is_good_nonce};
ghost use Rattle.dv_outside.specs.Causes.{Rose};
ghost use Rattle.dv_outside.specs.Shelf.{IsLongerThan};
ghost use Rattle.dv_outside.specs.Station.{Spends};
ghost use Rattle.dv_exit.specs.Status.{number_of};
ghost use Rattle.dv_tool.specs.Tool.{IsPutStatus, PutsRequest, file_limit as limit_of_file, nonce_in, request_for};

use dv_exit::{Status, refused};
use dv_lines::{Nonce, Service};
use dv_outside::{Diag, Shelf, ShelfRefusal, Station};
use dv_request::{Make, Material, Service as RequestService, make_request};
use dv_time::Moment;
use sha2::{Digest, Sha256};
use std::alloc::Global;

/// What a request asks for, beside its file.
#[derive(Clone, Copy)]
pub(crate) struct Terms<'a> {
    pub(crate) service: Service,
    pub(crate) nonce: Option<&'a Nonce>,
    pub(crate) at: Option<Moment>,
}

/// The most octets of a file that a service is asked for.
fn file_limit(service: Service) -> u64
    ensures { result ≡ limit_of_file service }
{
    match service {
        Service::Cpd | Service::Vsd => 262_000,
        Service::Ccpd => 16_777_216,
    }
}

/// The octets of the nonce, where there is one.
pub(crate) fn octets_in<'a>(nonce: Option<&'a Nonce>) -> Option<&'a [u8]>
    ensures octets { option_copied result ≡ nonce_in nonce.entry }
    ensures good { is_good_nonce (option_copied result) ≡ true }
{
    match nonce {
        None => None,
        Some(nonce) => Some(nonce.as_slice()),
    }
}

/// The request for a file of these octets.
fn request_of_octets(alloc: Global, terms: &Terms<'_>, octets: &[u8]) -> Result<Vec<u8>, Make>
    requires { length octets.now ≤ limit_of_file terms.now.service }
    ensures request { IfOk result (λ v. v.items ≡ request_for terms.now.service octets.now (nonce_in terms.now.nonce) terms.now.at) }
    ensures short { IfOk result (λ v. length v.items ≤ 262144) }
    ensures memory { IfErr result (λ fault. fault ≡ Make.Memory) }
{
    let nonce = octets_in(terms.nonce);
    match terms.service {
        Service::Cpd => make_request(
            alloc,
            RequestService::Cpd,
            &Material::Octets(octets),
            nonce,
            terms.at,
        ),
        Service::Vsd => make_request(
            alloc,
            RequestService::Vsd,
            &Material::Octets(octets),
            nonce,
            terms.at,
        ),
        Service::Ccpd => {
            let digest = Sha256::digest(octets);
            make_request(
                alloc,
                RequestService::Ccpd,
                &Material::Digest(&digest),
                nonce,
                terms.at,
            )
        }
    }
}

/// Reads the file, and puts the request for it.
pub(crate) fn put_request<V: Station, F: Shelf, E: Diag>(
    alloc: Global,
    terms: &Terms<'_>,
    file: &str,
    shelf: &mut F,
    diag: &mut E,
    station: &mut V,
) -> Status
    ensures status { IsPutStatus (number_of result) }
    ensures words { result ≢ Status.Words }
    ensures put { (result ≡ Status.Done) ⊎ (result ≡ Status.Put)
        → PutsRequest (F.files shelf.old) terms.now.service file.now (nonce_in terms.now.nonce) terms.now.at (number_of result) (V.tells station.old) (V.content station.old) (V.content station.new) }
    ensures quiet { result ≢ Status.Done → result ≢ Status.Put → station.new ≡ station.old }
    ensures long { result ≡ Status.File → IfSome (F.files shelf.old) (λ files. IsLongerThan (limit_of_file terms.now.service) (files file.now)) }
    ensures put_fault { result ≡ Status.Put → Rose (V.counts station.old).put_faults (V.counts station.new).put_faults }
    ensures shelf_fault { result ≡ Status.Shelf → Rose (F.faults shelf.old) (F.faults shelf.new) }
    ensures shelf_later { F.faults shelf.old ≤ F.faults shelf.new }
    ensures shelf_files { F.files shelf.new ≡ F.files shelf.old }
    ensures spends { Spends 1 262144 (V.counts station.old) (V.counts station.new) }
    ensures tells { V.tells station.new ≡ V.tells station.old }
{
    let limit = file_limit(terms.service);
    let octets = match shelf.read(alloc, file, limit) {
        Ok(octets) => octets,
        Err(refusal) => return refused(alloc, diag, file, limit, refusal),
    };
    let request = match request_of_octets(alloc, terms, &octets) {
        Ok(request) => request,
        Err(_) => return refused(alloc, diag, file, limit, ShelfRefusal::Memory),
    };
    match station.put(&request) {
        Ok(()) => Status::Done,
        Err(_) => {
            diag.line("the request can't be written to the output");
            Status::Put
        }
    }
}
