//! Drafts for the services of possession.

ghost use Rattle.std.specs.Prelude.{◌≡◌, ◌<◌, ◌^◌, ℕ, List, None, Some, Ok, IfOk, IfSome, IsOkAnd, option_map, length, false};
ghost use Rattle.std.specs.Option.{option_copied};
ghost use Rattle.dv_names.specs.Digest.{kind_of, length_of};
ghost use Rattle.dv_names.specs.Views.{view_digest};
ghost use Rattle.dv_names.specs.declared.digest.DigestKind.TheVariants.{Sha256 as Sha256Kind};
ghost use Rattle.dv_draft.specs.Parts.{imprint_of, view_imprint};
ghost use Rattle.dv_draft.specs.Views.{view_draft};
ghost use Rattle.dv_request.specs.DataView.{view_data};
ghost use Rattle.dv_request.specs.RequestView.{view_request};
ghost use Rattle.dv_svc_possession.specs.Possession.{ccpd_of, claim_failure, claim_in, cpd_of, message_in};
ghost use Rattle.dv_draft.specs.Signers.{AreSigners};
ghost use Rattle.dv_parts.specs.Answered.{IsAnswer};

use dv_draft::{Answer, Draft, Imprint, Server};
use dv_names::{DigestInfo, DigestKind, digest_kind};
use dv_parts::{Found, copied, drafted, imprint_by_server};
use dv_request::{Data, Request};
use dv_status::failure::{BAD_ALG, BAD_DATA_FORMAT};
use dv_time::Moment;
use std::alloc::{AllocError, Global};

/// The draft for a request for possession of data at a moment: its imprint is the SHA-256 digest of the message. `signers` are
/// the contents octets of the SignerInfos of a signed request.
pub fn answer_cpd(
    alloc: Global,
    request: &Request<'_>,
    moment: Moment,
    server: &Server,
    signers: Option<&[u8]>,
) -> Result<Draft, AllocError>
    requires message { ∥ ((m : List ℕ) × (message_in (view_data request.now.matter) ≡ Some m)) ∥₁ }
    requires signers { IfSome (option_copied signers) AreSigners }
    ensures { IfOk result (λ d. (m : List ℕ) → message_in (view_data request.now.matter) ≡ Some m
        → view_draft d ≡ cpd_of (view_request request.now) m moment server.now.policy (option_copied signers.entry)) }
{
    match &request.matter {
        Data::Message(message) => {
            let imprint = imprint_by_server(alloc, message)?;
            drafted(alloc, request, found(imprint), moment, server, signers)
        }
        Data::Imprint(_) | Data::Certs { .. } => Err(AllocError),
    }
}

/// The draft for a claim of possession by a digest at a moment: its imprint is a copy of the digest and its algorithm,
/// parameters included. The notice badAlg comes exactly where the algorithm is none of SHA-256, SHA-384 and SHA-512, its
/// parameters absent or NULL, and badDataFormat exactly where it is one and the digest hasn't its length.
pub fn answer_ccpd(
    alloc: Global,
    request: &Request<'_>,
    moment: Moment,
    server: &Server,
    signers: Option<&[u8]>,
) -> Result<Answer, AllocError>
    requires claim { ∥ ((c : _) × (claim_in (view_data request.now.matter) ≡ Some c)) ∥₁ }
    requires signers { IfSome (option_copied signers) AreSigners }
    ensures { IfOk result (λ a. (c : _) → claim_in (view_data request.now.matter) ≡ Some c
        → IsAnswer a (claim_failure c) (λ d. d ≡ ccpd_of (view_request request.now) c moment server.now.policy (option_copied signers.entry))) }
{
    match &request.matter {
        Data::Imprint(claim) => answer_claim(alloc, request, claim, moment, server, signers),
        Data::Message(_) | Data::Certs { .. } => Err(AllocError),
    }
}

/// The answer to a request for this claim.
fn answer_claim(
    alloc: Global,
    request: &Request<'_>,
    claim: &DigestInfo<'_>,
    moment: Moment,
    server: &Server,
    signers: Option<&[u8]>,
) -> Result<Answer, AllocError>
    requires { IfSome (option_copied signers) AreSigners }
    ensures { IfOk result (λ a. IsAnswer a (claim_failure (view_digest claim.now))
        (λ d. d ≡ ccpd_of (view_request request.now) (view_digest claim.now) moment server.now.policy (option_copied signers.entry))) }
{
    let Some(kind) = digest_kind(&claim.alg) else {
        return Ok(Answer::Notice { bit: BAD_ALG });
    };
    if claim.digest.len() != kind.digest_len() {
        return Ok(Answer::Notice {
            bit: BAD_DATA_FORMAT,
        });
    }
    let imprint = claim_imprint(alloc, claim, kind)?;
    let draft = drafted(alloc, request, found(imprint), moment, server, signers)?;
    Ok(Answer::Draft(draft))
}

/// The imprint that is a copy of a claim whose algorithm is of this kind.
fn claim_imprint(
    alloc: Global,
    claim: &DigestInfo<'_>,
    kind: DigestKind,
) -> Result<Imprint, AllocError>
    requires named { kind_of (view_digest claim.now).0 ≡ Some kind }
    requires sized { length claim.now.digest.now ≡ length_of kind }
    ensures { IfOk result (λ i. view_imprint i ≡ view_digest claim.now) }
{
    Ok(Imprint {
        kind,
        with_null: claim.alg.params.is_some(),
        digest: copied(alloc, claim.digest)?,
    })
}

/// What these services find: an imprint, and neither a status nor entries.
fn found(imprint: Imprint) -> Found
    ensures { result ≡ record { imprint = imprint; status = None; certs = None } }
{
    Found {
        imprint,
        status: None,
        certs: None,
    }
}
