//! Drafts for the service of certificates.

ghost use Rattle.std.specs.Prelude.{◌≡◌, ◌≤◌, ◌+◌, ◌≢◌, [], ℕ, List, Some, IfOk, IfSome, length, option_map, sum_by};
ghost use Rattle.std.specs.Option.{option_copied};
ghost use Rattle.dv_request.specs.DataView.{targets_of, view_data};
ghost use Rattle.dv_request.specs.RequestView.{view_request};
ghost use Rattle.dv_request.specs.Targets.{targets_in};
ghost use Rattle.dv_draft.specs.Parts.{view_imprint, view_status};
ghost use Rattle.dv_parts.specs.Answered.{IsAnswer};
ghost use Rattle.dv_parts.specs.Drafts.{AreTargets, imprint_by_server};
ghost use Rattle.dv_svc_pkc.specs.Certificates.{certs_in, pkc_failure};
ghost use Rattle.dv_svc_pkc.specs.Drafts.{IsPkc};
ghost use Rattle.dv_svc_pkc.specs.Entries.{granted_if};
ghost use Rattle.dv_svc_pkc.specs.Outcomes.{checks_of};
ghost use Rattle.dv_draft.specs.Signers.{AreSigners};
ghost use Rattle.dv_svc_pkc.specs.Validated.{are_granted, entries_in};

use crate::entries::certs_of;
use crate::entry::Finding;
use crate::targets::failure;
use crate::validation::validated;
use dv_draft::{Answer, Server, Status};
use dv_lms::Steps;
use dv_parts::{Found, drafted, imprint_by_server, validation_moment};
use dv_path::Trust;
use dv_request::{Data, Request};
use dv_status::failure::SIGNER_NOT_TRUSTED;
use dv_time::Moment;
use std::alloc::{AllocError, Global};
use std::sync::ledger::Ledger;

/// The status granted (RFC 4210 5.2.3).
const GRANTED: u8 = 0;

/// The status rejection.
const REJECTION: u8 = 2;

/// The answer to a request for the validation of certificates, at a moment. `signers` are the contents octets of the
/// SignerInfos of a signed request.
///
/// It is the notice badRequest where the request has more than 8 targets. Else the first target decides that isn't checked:
/// badRequest where it is no certificate or its chain has more than 15 of them, and else badDataFormat where one of its
/// certificates doesn't decode. Where all targets are checked it is a draft. A target is granted exactly where a path leads
/// from it to a trust anchor through the certificates of its chain, at the time of the request or else at the moment, with its
/// path input; and the whole is granted exactly where all targets are.
pub fn answer_cpkc<L: Ledger>(
    alloc: Global,
    request: &Request<'_>,
    moment: Moment,
    server: &Server,
    trust: &Trust,
    signers: Option<&[u8]>,
    checks: &mut Steps<L>,
) -> Result<Answer, AllocError>
    requires certs { ∥ ((certs : List ℕ) × (certs_in (view_data request.now.matter) ≡ Some certs)) ∥₁ }
    requires signers { IfSome (option_copied signers) AreSigners }
    ensures answer { IfOk result (λ a. (certs : List ℕ) → certs_in (view_data request.now.matter) ≡ Some certs
        → IsAnswer a (pkc_failure (targets_in certs))
        (IsPkc (view_request request.now) certs trust.now moment server.now.policy (option_copied signers.entry))) }
    ensures steps { checks.new ≤ checks.old + sum_by (checks_of (length trust.now)) (targets_of request.now.matter) }
{
    match &request.matter {
        Data::Certs { raw, targets } => {
            if let Some(bit) = failure(alloc, request, *targets)? {
                return Ok(Answer::Notice { bit });
            }
            let when = validation_moment(&request.info, moment);
            let findings = validated(alloc, request, *targets, trust, when, checks)?;
            let found = found(alloc, raw, &findings)?;
            let draft = drafted(alloc, request, found, moment, server, signers)?;
            Ok(Answer::Draft(draft))
        }
        Data::Message(_) => unreachable!(),
        Data::Imprint(_) => unreachable!(),
    }
}

/// What validation found of a request whose data are this whole value: the imprint, the status of the whole, and the entries.
fn found(alloc: Global, certs: &[u8], findings: &[Finding<'_>]) -> Result<Found, AllocError>
    requires some { findings.now ≢ [] }
    requires few { length findings.now ≤ 8 }
    ensures imprint { IfOk result (λ f. view_imprint f.imprint ≡ imprint_by_server certs.now) }
    ensures status { IfOk result (λ f. option_map view_status f.status ≡ Some (granted_if (are_granted findings.now))) }
    ensures certs { IfOk result (λ f. f.certs ≡ Some (entries_in findings.now)) }
    ensures targets { IfOk result (λ f. IfSome f.certs AreTargets) }
{
    Ok(Found {
        imprint: imprint_by_server(alloc, certs)?,
        status: Some(status_of(findings)),
        certs: Some(certs_of(alloc, findings)?),
    })
}

/// The status of the whole: granted where all targets are, and else rejection with signerNotTrusted.
fn status_of(findings: &[Finding<'_>]) -> Status
    ensures { view_status result ≡ granted_if (are_granted findings.now) }
{
    if !all_granted(findings) {
        return Status {
            status: REJECTION,
            bit: Some(SIGNER_NOT_TRUSTED),
        };
    }
    Status {
        status: GRANTED,
        bit: None,
    }
}

/// Whether all targets are granted: each has a path.
fn all_granted(findings: &[Finding<'_>]) -> bool
    ensures { result ≡ are_granted findings.now }
{
    findings.iter().all(|finding| finding.above.is_some())
}
