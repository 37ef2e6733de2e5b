//! Drafts for the service of signed documents.

ghost use Rattle.std.specs.Prelude.{◌≡◌, ◌≤◌, ◌<◌, ◌+◌, ◌^◌, ℕ, All, List, Option, IfOk, IfSome, length};
ghost use Rattle.std.specs.Option.{option_copied};
ghost use Rattle.dv_schema.specs.Schema.{ValueOf};
ghost use Rattle.dv_cms.specs.Types.{signed_data};
ghost use Rattle.dv_request.specs.DataView.{view_data};
ghost use Rattle.dv_request.specs.Made.{message_data};
ghost use Rattle.dv_request.specs.RequestView.{view_request};
ghost use Rattle.dv_draft.specs.Signers.{AreSigners};
ghost use Rattle.dv_draft.specs.Views.{view_draft};
ghost use Rattle.dv_parts.specs.Drafts.{AreTargets};
ghost use Rattle.dv_signed.specs.Certificates.{certificates_of};
ghost use Rattle.dv_signed.specs.SignedView.{view_signed};
ghost use Rattle.dv_svc_document.specs.Documents.{IsReadAs, checks_of};
ghost use Rattle.dv_svc_document.specs.Drafts.{IsVsd, entries_from};
ghost use Rattle.dv_svc_document.specs.Kept.{IsFit};
ghost use Rattle.dv_svc_document.specs.Validated.{IsFound};

use crate::document::Document;
use crate::entering::entries;
use crate::entries::certs_of;
use crate::result::SignerResult;
use crate::signers::judge_signers;
use crate::status::{rejection, status_of};
use dv_asn1::Octets;
use dv_draft::{Draft, Server};
use dv_lms::Steps;
use dv_parts::{Found, drafted, imprint_by_server, validation_moment};
use dv_path::Trust;
use dv_request::{Data, Request};
use dv_status::failure::BAD_DATA_FORMAT;
use dv_time::Moment;
use std::alloc::{AllocError, Global};
use std::sync::ledger::Ledger;

/// The draft for a request for the validation of a signed document, its message, at a moment. `signers` are the contents octets
/// of the SignerInfos of a signed request.
///
/// The document is read where the message is a ContentInfo of type id-signedData whose SignedData decodes and has content, at
/// most 8 signers and at most 16 certificates, each of which decodes; else the status is rejection with badDataFormat. Each of
/// its signers is judged as [`judge_signer`](crate::judge_signer) says, at the time of the request or else at the moment. The
/// status is granted where all of them have no failure bit, grantedWithMods where some have none, and else rejection with the bit
/// of the first; without a signer it is rejection with badMessageCheck.
///
/// At most `s * (n * (n + a) + 1)` signatures are verified for a document with `s` signers and `n` certificates, `a` being how
/// many anchors there are, and none where no document is read. The only error is want of memory.
pub fn answer_vsd<L: Ledger>(
    alloc: Global,
    request: &Request<'_>,
    moment: Moment,
    server: &Server,
    trust: &Trust,
    signers: Option<&[u8]>,
    checks: &mut Steps<L>,
) -> Result<Draft, AllocError>
    requires message { ∥ ((m : List ℕ) × (view_data request.now.matter ≡ message_data m)) ∥₁ }
    requires signers { IfSome (option_copied signers) AreSigners }
    ensures draft { IfOk result (λ d. (m : List ℕ) → view_data request.now.matter ≡ message_data m
        → IsVsd (view_request request.now) m trust.now moment server.now.policy (option_copied signers.entry) (view_draft d)) }
    ensures steps { (m : List ℕ) (document : Option (ValueOf signed_data)) → view_data request.now.matter ≡ message_data m → IsReadAs m document
        → checks.new ≤ checks.old + checks_of (length trust.now) document }
{
    match &request.matter {
        Data::Message(message) => {
            let when = validation_moment(&request.info, moment);
            let found = found(alloc, message, trust, when, checks)?;
            drafted(alloc, request, found, moment, server, signers)
        }
        Data::Imprint(_) => unreachable!(),
        Data::Certs { .. } => unreachable!(),
    }
}

/// What is found of a message at a moment.
fn found<L: Ledger>(
    alloc: Global,
    message: &[u8],
    trust: &Trust,
    when: Moment,
    checks: &mut Steps<L>,
) -> Result<Found, AllocError>
    requires { length message.now < 2 ^ 32 }
    ensures found { IfOk result (IsFound message.now trust.now when) }
    ensures steps { (document : Option (ValueOf signed_data)) → IsReadAs message.now document
        → checks.new ≤ checks.old + checks_of (length trust.now) document }
{
    let imprint = imprint_by_server(alloc, message)?;
    match Document::read(alloc, message)? {
        None => Ok(Found {
            imprint,
            status: Some(rejection(BAD_DATA_FORMAT)),
            certs: None,
        }),
        Some(document) => {
            let results = judge_signers(alloc, &document, trust, when, checks)?;
            let certs = listed(alloc, &document, &results)?;
            Ok(Found {
                imprint,
                status: Some(status_of(&results)),
                certs,
            })
        }
    }
}

/// The contents octets of the entries of signers with these results; none where there is no signer.
fn listed(
    alloc: Global,
    document: &Document<'_>,
    results: &[SignerResult],
) -> Result<Option<Octets>, AllocError>
    requires fit { All (IsFit (length (certificates_of (view_signed document.now.signed)))) results.now }
    requires few { length results.now ≤ 8 }
    ensures entries { IfOk result (λ o. o ≡ entries_from (certificates_of (view_signed document.now.signed)) results.now) }
    ensures targets { IfOk result (λ o. IfSome o AreTargets) }
{
    if results.is_empty() {
        return Ok(None);
    }
    let entries = entries(alloc, document, results)?;
    let certs = certs_of(alloc, &entries)?;
    Ok(Some(certs))
}
