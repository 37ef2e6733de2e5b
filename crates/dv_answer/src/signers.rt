//! The signers of a request.

ghost use Rattle.std.specs.Prelude.{◌≡◌, ◌≤◌, ◌+◌, IfOk, IfSome, Some, length};
ghost use Rattle.std.specs.Option.{option_copied};
ghost use Rattle.dv_draft.specs.Signers.{AreSigners};
ghost use Rattle.dv_signed.specs.SignedView.{view_signed};
ghost use Rattle.dv_svc_document.specs.Documents.{checks_of};
ghost use Rattle.dv_answer.specs.Failures.{IsSignersFailure};
ghost use Rattle.dv_answer.specs.Replies.{signers_in};
ghost use Rattle.dv_answer.specs.Signed.{document_in};

use crate::signed::Signatures;
use dv_lms::Steps;
use dv_path::Trust;
use dv_status::failure::BAD_MESSAGE_CHECK;
use dv_svc_document::judge_signer;
use dv_time::Moment;
use std::alloc::{AllocError, Global};
use std::sync::ledger::Ledger;

/// The failure bit of the signers of a request at the moment of service, with its signatures where it is signed: badMessageCheck
/// where there is no signer, and else the bit of the first one that has one.
pub(crate) fn signers_failure<L: Ledger>(
    alloc: Global,
    signatures: Option<&Signatures<'_>>,
    trust: &Trust,
    moment: Moment,
    checks: &mut Steps<L>,
) -> Result<Option<u8>, AllocError>
    ensures failure { IfOk result (IsSignersFailure (document_in (option_copied signatures.entry)) trust.now moment) }
    ensures steps { checks.new ≤ checks.old + checks_of (length trust.now) (document_in (option_copied signatures.entry)) }
{
    match signatures {
        None => Ok(None),
        Some(signatures) => failure_of(alloc, signatures, trust, moment, checks),
    }
}

/// The failure bit of the signers of a signed request.
fn failure_of<L: Ledger>(
    alloc: Global,
    signatures: &Signatures<'_>,
    trust: &Trust,
    moment: Moment,
    checks: &mut Steps<L>,
) -> Result<Option<u8>, AllocError>
    ensures failure { IfOk result (IsSignersFailure (Some (view_signed signatures.now.signed)) trust.now moment) }
    ensures steps { checks.new ≤ checks.old + checks_of (length trust.now) (Some (view_signed signatures.now.signed)) }
{
    let signed = &signatures.signed;
    if signed.signers == 0 {
        return Ok(Some(BAD_MESSAGE_CHECK));
    }
    for signer in 0..signed.signers {
        let result = judge_signer(
            alloc,
            signed,
            &signatures.bag,
            signer,
            trust,
            moment,
            checks,
        )?;
        if let Some(bit) = result.bit {
            return Ok(Some(bit));
        }
    }
    Ok(None)
}

/// The contents octets of the signers of a request, where it is signed.
pub(crate) fn signers_of<'a>(signatures: Option<&Signatures<'a>>) -> Option<&'a [u8]>
    ensures same { option_copied result ≡ signers_in (document_in (option_copied signatures.entry)) }
    ensures signers { IfSome (option_copied result) AreSigners }
{
    match signatures {
        None => None,
        Some(signatures) => Some(signatures.signers()),
    }
}
