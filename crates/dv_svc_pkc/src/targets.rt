//! The targets of a request, and why it isn't checked.

ghost use Rattle.std.specs.Prelude.{◌≡◌, ◌<◌, IfOk, Some, option_map, slice_get};
ghost use Rattle.dv_request.specs.DataView.{count_of, targets_of};
ghost use Rattle.dv_svc_pkc.specs.Certificates.{pkc_failure, target_failure as failure_of};

use crate::certificates::target_failure;
use dv_request::Request;
use dv_status::failure::BAD_REQUEST;
use std::alloc::{AllocError, Global};

/// The most targets that a request has.
const TARGET_LIMIT: u32 = 8;

/// The failure bit for which a request with so many targets isn't checked, where there is one: badRequest where there are more
/// than 8, and else that of the first target that has one.
pub(crate) fn failure(
    alloc: Global,
    request: &Request<'_>,
    targets: u32,
) -> Result<Option<u8>, AllocError>
    requires { targets ≡ count_of request.now.matter }
    ensures { IfOk result (λ f. f ≡ pkc_failure (targets_of request.now.matter)) }
{
    if targets > TARGET_LIMIT {
        return Ok(Some(BAD_REQUEST));
    }
    for i in 0..targets {
        let failure = failure_at(alloc, request, i)?;
        if failure.is_some() {
            return Ok(failure);
        }
    }
    Ok(None)
}

/// The failure bit for which the target at an index isn't checked, where there is one.
fn failure_at(alloc: Global, request: &Request<'_>, i: u32) -> Result<Option<u8>, AllocError>
    requires { i < count_of request.now.matter }
    ensures { IfOk result (λ f. option_map failure_of (slice_get (targets_of request.now.matter) i) ≡ Some f) }
{
    match request.target(i) {
        Some(target) => target_failure(alloc, &target),
        None => unreachable!(),
    }
}
