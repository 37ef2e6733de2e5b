//! The draft of a service, from what it found.

ghost use Rattle.std.specs.Prelude.{◌≡◌, IfOk, IfSome, option_map};
ghost use Rattle.std.specs.Option.{option_copied};
ghost use Rattle.dv_draft.specs.Parts.{view_imprint, view_status};
ghost use Rattle.dv_draft.specs.Signers.{AreSigners};
ghost use Rattle.dv_draft.specs.Views.{view_draft};
ghost use Rattle.dv_request.specs.RequestView.{view_request};
ghost use Rattle.dv_parts.specs.Drafts.{AreTargets, draft_with};

use dv_asn1::Octets;
use dv_draft::{Draft, Imprint, Server, Status};
use dv_request::Request;
use dv_time::Moment;
use std::alloc::{AllocError, Global};

/// What a service found: those parts of a draft that neither the request nor the server gives.
#[derive(Debug, Drop)]
pub struct Found {
    pub imprint: Imprint,
    /// The status of the whole, where the service tells one.
    pub status: Option<Status>,
    /// The contents octets of the entries (RFC 3029 9.1, certs), where the service has some.
    pub certs: Option<Octets>,
}

/// The draft for a request at a moment, from what the service found. `signers` are the contents octets of the SignerInfos of a signed
/// request.
///
/// It copies the information of the request, the policy of the server and the signers. The only error is want of memory.
pub fn drafted(
    alloc: Global,
    request: &Request<'_>,
    found: Found,
    moment: Moment,
    server: &Server,
    signers: Option<&[u8]>,
) -> Result<Draft, AllocError>
    requires signers { IfSome (option_copied signers) AreSigners }
    requires certs { IfSome found.certs AreTargets }
    ensures { IfOk result (λ d. view_draft d
        ≡ draft_with (view_request request.now) (view_imprint found.imprint) moment (option_map view_status found.status) server.now.policy (option_copied signers.entry) found.certs) }
{
    let _seconds = moment.seconds();
    let info = copied(alloc, request.info.raw)?;
    let policy = copied_policy(alloc, server.policy.as_ref())?;
    let req_signature = copied_if(alloc, signers)?;
    let Found {
        imprint,
        status,
        certs,
    } = found;
    Ok(Draft {
        info,
        imprint,
        time: moment,
        status,
        policy,
        req_signature,
        certs,
    })
}

/// A copy of octets.
pub fn copied(alloc: Global, octets: &[u8]) -> Result<Octets, AllocError>
    ensures { IfOk result (λ o. o ≡ octets.now) }
{
    Ok(Octets::new(octets.to_vec(alloc)?))
}

/// A copy of octets, where they are there.
fn copied_if(alloc: Global, octets: Option<&[u8]>) -> Result<Option<Octets>, AllocError>
    ensures { IfOk result (λ o. o ≡ option_copied octets.entry) }
{
    match octets {
        None => Ok(None),
        Some(octets) => Ok(Some(copied(alloc, octets)?)),
    }
}

/// A copy of a server's policy, where it has one.
fn copied_policy(alloc: Global, policy: Option<&Octets>) -> Result<Option<Octets>, AllocError>
    ensures { IfOk result (λ o. o ≡ option_copied policy.entry) }
{
    match policy {
        None => Ok(None),
        Some(policy) => Ok(Some(copied(alloc, policy.as_slice())?)),
    }
}
