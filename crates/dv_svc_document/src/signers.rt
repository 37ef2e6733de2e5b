//! The results of all signers of a document.

ghost use Rattle.std.specs.Prelude.{◌≤◌, ◌+◌, IfOk, Some, length};
ghost use Rattle.dv_signed.specs.Certificates.{signers_of};
ghost use Rattle.dv_signed.specs.SignedView.{view_signed};
ghost use Rattle.dv_svc_document.specs.Documents.{checks_of};
ghost use Rattle.dv_svc_document.specs.Results.{HaveResults};

use crate::document::Document;
use crate::judge::judge_signer;
use crate::result::SignerResult;
use dv_lms::Steps;
use dv_path::Trust;
use dv_time::Moment;
use std::alloc::{AllocError, Global};
use std::sync::ledger::Ledger;

/// What is found of the signers of a document at a moment, in order.
pub(crate) fn judge_signers<L: Ledger>(
    alloc: Global,
    document: &Document<'_>,
    trust: &Trust,
    when: Moment,
    checks: &mut Steps<L>,
) -> Result<Vec<SignerResult>, AllocError>
    ensures found { IfOk result (λ v. HaveResults (view_signed document.now.signed) trust.now when (signers_of (view_signed document.now.signed)) v.items) }
    ensures steps { checks.new ≤ checks.old + checks_of (length trust.now) (Some (view_signed document.now.signed)) }
{
    let signers = document.signed.signers;
    let mut results = Vec::with_capacity(alloc, signers as usize)?;
    for i in 0..signers {
        let result = judge_signer(
            alloc,
            &document.signed,
            &document.bag,
            i,
            trust,
            when,
            checks,
        )?;
        results.push(result)?;
    }
    Ok(results)
}
