//! What a request is answered: the draft of a certificate, or a notice.

ghost use Rattle.std.specs.Prelude.{◌≡◌, ◌≤◌, ◌+◌, ℕ, IfOk, IfSome, List, Option, None, Some, if◌then◌else◌, ◌∷◌, [], length};
ghost use Rattle.std.specs.Option.{option_copied};
ghost use Rattle.dv_schema.specs.Schema.{ValueOf};
ghost use Rattle.dv_request.specs.DataView.{view_data};
ghost use Rattle.dv_request.specs.Made.{message_data};
ghost use Rattle.dv_request.specs.RequestView.{view_request};
ghost use Rattle.dv_request.specs.Types.{dvcs_request};
ghost use Rattle.dv_path.specs.Anchors.{Anchored};
ghost use Rattle.dv_draft.specs.Signers.{AreSigners};
ghost use Rattle.dv_draft.specs.Types.{draft as draft_type};
ghost use Rattle.dv_draft.specs.Views.{view_draft};
ghost use Rattle.dv_svc_document.specs.Documents.{checks_of};
ghost use Rattle.dv_svc_pkc.specs.Drafts.{IsPkc};
ghost use Rattle.dv_parts.specs.Answered.{IsAnswer};
ghost use Rattle.dv_answer.specs.Checks.{IsServiceLimit};
ghost use Rattle.dv_answer.specs.Replies.{IsAnswerOf, IsAnswerWith, IsMessageDraft};
ghost use Rattle.dv_answer.specs.Offices.{view_office};
ghost use Rattle.dv_answer.specs.Signed.{document_in};
ghost use Rattle.dv_answer.specs.Steps.{data_failure, first_of, form_failure as failure_of_form, is_vsd, office_failure as failure_at_office};

use crate::office::Office;
use crate::signed::Signatures;
use crate::signers::{signers_failure, signers_of};
use crate::steps::{form_failure, office_failure};
use dv_draft::{Answer, Draft, Server};
use dv_lms::Steps;
use dv_path::Trust;
use dv_request::{Data, Request, Service};
use dv_status::failure::TIME_NOT_AVAILABLE;
use dv_svc_document::answer_vsd;
use dv_svc_pkc::answer_cpkc;
use dv_svc_possession::{answer_ccpd, answer_cpd};
use dv_time::Moment;
use std::alloc::{AllocError, Global};
use std::sync::ledger::Ledger;

/// The answer to a request, with its signatures where it is signed.
pub(crate) fn answer_to_request<L: Ledger>(
    alloc: Global,
    request: &Request<'_>,
    signatures: Option<&Signatures<'_>>,
    moment: Moment,
    server: &Server,
    trust: &Trust,
    checks: &mut Steps<L>,
) -> Result<Answer, AllocError>
    ensures answer { IfOk result (IsAnswerOf server.now trust.now moment (document_in (option_copied signatures.entry)) (view_request request.now)) }
    ensures steps { (limit : ℕ) → IsServiceLimit (is_vsd (view_request request.now)) (view_request request.now).1.0 (length trust.now) limit
        → checks.new ≤ checks.old + (checks_of (length trust.now) (document_in (option_copied signatures.entry)) + limit) }
{
    let office = Office::of(server);
    if let Some(bit) = step_failure(&office, request, moment) {
        return Ok(Answer::Notice { bit });
    }
    if let Some(bit) = signers_failure(alloc, signatures, trust, moment, checks)? {
        return Ok(Answer::Notice { bit });
    }
    let is_valid = office.is_valid_at(moment);
    let signers = signers_of(signatures);
    drafted(
        alloc, request, signers, moment, server, trust, is_valid, checks,
    )
}

/// The failure bit of the first step that refuses a request by its form or by what it asks of the server.
fn step_failure(office: &Office<'_>, request: &Request<'_>, moment: Moment) -> Option<u8>
    ensures { result
        ≡ first_of (failure_of_form moment (view_request request.now) ∷ failure_at_office (view_office office.now) (view_request request.now) ∷ []) }
{
    form_failure(request, moment).or(office_failure(office, request))
}

/// The answer to a request that isn't refused by its form, by what it asks of the server or by its signers, whose contents
/// octets are given where it is signed; `is_valid` says whether the server's own certificate holds.
fn drafted<L: Ledger>(
    alloc: Global,
    request: &Request<'_>,
    signers: Option<&[u8]>,
    moment: Moment,
    server: &Server,
    trust: &Trust,
    is_valid: bool,
    checks: &mut Steps<L>,
) -> Result<Answer, AllocError>
    requires { IfSome (option_copied signers) AreSigners }
    ensures answer { IfOk result (IsAnswerWith (first_of (data_failure (view_request request.now).1.0 ∷ (if is_valid then None else Some 14) ∷ []))
        (view_request request.now) trust.now moment server.now.policy (option_copied signers.entry)) }
    ensures steps { (limit : ℕ) → IsServiceLimit (is_vsd (view_request request.now)) (view_request request.now).1.0 (length trust.now) limit
        → checks.new ≤ checks.old + limit }
{
    match &request.matter {
        Data::Message(_) if is_valid => {
            let draft = message_draft(alloc, request, signers, moment, server, trust, checks)?;
            Ok(Answer::Draft(draft))
        }
        Data::Message(_) => Ok(Answer::Notice {
            bit: TIME_NOT_AVAILABLE,
        }),
        Data::Imprint(_) => {
            let answer = answer_ccpd(alloc, request, moment, server, signers)?;
            Ok(if_valid(answer, is_valid))
        }
        Data::Certs { .. } => {
            let answer = answer_cpkc(alloc, request, moment, server, trust, signers, checks)?;
            Ok(if_valid(answer, is_valid))
        }
    }
}

/// The draft for a message: of its validation as a signed document, where that is the service, and else of its possession.
fn message_draft<L: Ledger>(
    alloc: Global,
    request: &Request<'_>,
    signers: Option<&[u8]>,
    moment: Moment,
    server: &Server,
    trust: &Trust,
    checks: &mut Steps<L>,
) -> Result<Draft, AllocError>
    requires message { ∥ ((m : List ℕ) × (view_data request.now.matter ≡ message_data m)) ∥₁ }
    requires signers { IfSome (option_copied signers) AreSigners }
    ensures draft { IfOk result (λ d. (m : List ℕ) → view_data request.now.matter ≡ message_data m
        → IsMessageDraft (is_vsd (view_request request.now)) (view_request request.now) m trust.now moment server.now.policy (option_copied signers.entry)
        (view_draft d)) }
    ensures steps { (limit : ℕ) → IsServiceLimit (is_vsd (view_request request.now)) (view_request request.now).1.0 (length trust.now) limit
        → checks.new ≤ checks.old + limit }
{
    match request.info.service {
        Service::Vsd => answer_vsd(alloc, request, moment, server, trust, signers, checks),
        Service::Cpd | Service::Cpkc | Service::Ccpd => {
            answer_cpd(alloc, request, moment, server, signers)
        }
    }
}

/// The answer, but no draft where the server's own certificate doesn't hold.
fn if_valid(answer: Answer, is_valid: bool) -> Answer
    ensures one { (failure : Option ℕ) → (expected : ValueOf draft_type) → IsAnswer answer failure (λ d. d ≡ expected)
        → IsAnswer result (first_of (failure ∷ (if is_valid then None else Some 14) ∷ [])) (λ d. d ≡ expected) }
    ensures validated { (failure : Option ℕ) (v : ValueOf dvcs_request) (certs : List ℕ) (anchors : List Anchored) (moment : ℕ) (policy signers : Option (List ℕ))
        → IsAnswer answer failure (IsPkc v certs anchors moment policy signers)
        → IsAnswer result (first_of (failure ∷ (if is_valid then None else Some 14) ∷ [])) (IsPkc v certs anchors moment policy signers) }
{
    if is_valid {
        return answer;
    }
    match answer {
        Answer::Draft(_) => Answer::Notice {
            bit: TIME_NOT_AVAILABLE,
        },
        Answer::Notice { bit } => Answer::Notice { bit },
    }
}
