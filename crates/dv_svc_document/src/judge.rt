//! The results of the signers of a document.

ghost use Rattle.std.specs.Prelude.{◌≡◌, ◌<◌, ◌≤◌, ◌+◌, ◌*◌, ℕ, List, Option, IfOk, IsSome, None, Some, is_some, length, slice_get};
ghost use Rattle.dv_schema.specs.Schema.{ValueOf};
ghost use Rattle.dv_cms.specs.Types.{signer_info};
ghost use Rattle.dv_x509.specs.Uses.{usage_of};
ghost use Rattle.dv_x509.specs.View.{view_certificate};
ghost use Rattle.dv_path.specs.declared.path.Path.{Path as Chosen};
ghost use Rattle.dv_path.specs.Anchors.{Anchored};
ghost use Rattle.dv_signed.specs.Certificates.{signers_of};
ghost use Rattle.dv_signed.specs.Check.{IsFault, fault_in, known_kind};
ghost use Rattle.dv_signed.specs.SignedView.{view_signed};
ghost use Rattle.dv_signed.specs.SignerView.{view_signer};
ghost use Rattle.dv_svc_document.specs.Bags.{bag_of};
ghost use Rattle.dv_svc_document.specs.Bits.{fault_bit as bit_of_fault, unnamed_bit as bit_of_unnamed};
ghost use Rattle.dv_svc_document.specs.Results.{IsResult, IsResultAt, IsResultWith, checked_with, failed as failed_with, may_sign as is_for_signing, trust_failure as failure_of_trust};

use crate::named::named;
use crate::result::SignerResult;
use dv_lms::Steps;
use dv_path::{Bag, Trust, find_path};
use dv_signed::{SignedData, SignerFault, SignerInfo, signer_check};
use dv_status::failure::{BAD_ALG, BAD_MESSAGE_CHECK, SIGNER_NOT_TRUSTED};
use dv_time::Moment;
use dv_x509::Certificate;
use std::alloc::{AllocError, Global};
use std::sync::ledger::Ledger;

/// The bit digitalSignature of keyUsage (RFC 5280 4.2.1.3), in the number of its bits.
const DIGITAL_SIGNATURE: u16 = 1 << 0;

/// The bit nonRepudiation.
const NON_REPUDIATION: u16 = 1 << 1;

/// What is found of the signer at an index of a document, whose bag this is, at a moment.
///
/// The first of these decides: badAlg where one of its algorithms isn't known; signerNotTrusted where it names no certificate of
/// the bag; badMessageCheck where its signature doesn't hold with the first certificate that it names; signerNotTrusted where no
/// path leads from that certificate to an anchor, and where its keyUsage has neither digitalSignature nor nonRepudiation. Else
/// there is no failure bit. The certificate is told whatever decided, and the path where there is no bit or keyUsage decided.
///
/// At most `n * (n + a) + 1` signatures are verified, `n` being how many certificates the bag holds and `a` how many anchors
/// there are. The only error is want of memory.
pub fn judge_signer<L: Ledger>(
    alloc: Global,
    signed: &SignedData<'_>,
    bag: &Bag,
    signer: u32,
    trust: &Trust,
    when: Moment,
    checks: &mut Steps<L>,
) -> Result<SignerResult, AllocError>
    requires content { IsSome signed.now.content }
    requires within { signer < signed.now.signers }
    requires bag { bag.now ≡ bag_of (view_signed signed.now) }
    ensures found { IfOk result (λ r. (s : ValueOf signer_info) → slice_get (signers_of (view_signed signed.now)) signer ≡ Some s
        → IsResult (view_signed signed.now) trust.now when s r) }
    ensures steps { checks.new ≤ checks.old + (length bag.now * (length bag.now + length trust.now) + 1) }
{
    let Some(signer) = signed.signer(signer) else {
        unreachable!();
    };
    match named(&signer, bag) {
        None => Ok(unnamed(&signer, signed, checks)),
        Some(position) => judged(alloc, signed, bag, &signer, position, trust, when, checks),
    }
}

/// The result for a signer that names no certificate.
fn unnamed<L: Ledger>(
    signer: &SignerInfo<'_>,
    signed: &SignedData<'_>,
    checks: &mut Steps<L>,
) -> SignerResult
    requires { IsSome signed.now.content }
    ensures found { (anchors : List Anchored) (when : ℕ)
        → IsResultAt (known_kind (view_signer signer.now)) None (view_signer signer.now) (view_signed signed.now) anchors when result }
    ensures steps { checks.new ≤ checks.old + 1 }
{
    let check = signer_check(signer, signed, &[], None, checks);
    failed(unnamed_bit(check), None)
}

/// The result for a signer that names the certificate at this position.
fn judged<L: Ledger>(
    alloc: Global,
    signed: &SignedData<'_>,
    bag: &Bag,
    signer: &SignerInfo<'_>,
    position: u32,
    trust: &Trust,
    when: Moment,
    checks: &mut Steps<L>,
) -> Result<SignerResult, AllocError>
    requires content { IsSome signed.now.content }
    requires within { position < length bag.now }
    requires bag { bag.now ≡ bag_of (view_signed signed.now) }
    ensures found { IfOk result (λ r. IsResultAt (known_kind (view_signer signer.now)) (Some position) (view_signer signer.now) (view_signed signed.now) trust.now when r) }
    ensures steps { checks.new ≤ checks.old + (length bag.now * (length bag.now + length trust.now) + 1) }
{
    match check(signer, signed, bag, position, checks) {
        Err(fault) => Ok(failed(fault_bit(fault), Some(position))),
        Ok(()) => trusted(alloc, signed, bag, position, trust, when, checks),
    }
}

/// Checks a signer as the holder of the certificate at this position.
fn check<L: Ledger>(
    signer: &SignerInfo<'_>,
    signed: &SignedData<'_>,
    bag: &Bag,
    position: u32,
    checks: &mut Steps<L>,
) -> Result<(), SignerFault>
    requires content { IsSome signed.now.content }
    requires within { position < length bag.now }
    requires bag { bag.now ≡ bag_of (view_signed signed.now) }
    ensures fault { IsFault (view_signer signer.now) (checked_with (view_signed signed.now) position) (fault_in result) }
    ensures steps { checks.new ≤ checks.old + 1 }
{
    let Some(octets) = signed.certificate(position) else {
        unreachable!();
    };
    let Some(certificate) = bag.get(position as usize) else {
        unreachable!();
    };
    signer_check(signer, signed, octets, certificate.key(), checks)
}

/// The result for a signer whose signature holds with the certificate at this position.
fn trusted<L: Ledger>(
    alloc: Global,
    signed: &SignedData<'_>,
    bag: &Bag,
    position: u32,
    trust: &Trust,
    when: Moment,
    checks: &mut Steps<L>,
) -> Result<SignerResult, AllocError>
    requires within { position < length bag.now }
    requires bag { bag.now ≡ bag_of (view_signed signed.now) }
    ensures found { IfOk result (IsResultWith None (view_signed signed.now) position trust.now when) }
    ensures steps { checks.new ≤ checks.old + length bag.now * (length bag.now + length trust.now) }
{
    let Some(certificate) = bag.get(position as usize) else {
        unreachable!();
    };
    let path = find_path(alloc, trust, bag, position, when, None, checks)?;
    let bit = trust_failure(path.is_some(), &certificate);
    Ok(SignerResult {
        bit,
        certificate: Some(position),
        path,
    })
}

/// The failure bit of a signer whose signature holds with this certificate, from which there is a path or not.
fn trust_failure(has_path: bool, certificate: &Certificate<'_>) -> Option<u8>
    ensures { (path : Option Chosen) → is_some path ≡ has_path
        → result ≡ failure_of_trust path (usage_of (view_certificate certificate.now)) }
{
    if has_path && may_sign(certificate) {
        None
    } else {
        Some(SIGNER_NOT_TRUSTED)
    }
}

/// Whether the key of a certificate may sign documents: keyUsage is absent, or has digitalSignature or nonRepudiation.
fn may_sign(certificate: &Certificate<'_>) -> bool
    ensures { result ≡ is_for_signing (usage_of (view_certificate certificate.now)) }
{
    match certificate.usage() {
        None => true,
        Some(usage) => usage / DIGITAL_SIGNATURE % 2 == 1 || usage / NON_REPUDIATION % 2 == 1,
    }
}

/// A result with a failure bit, and without a path.
fn failed(bit: u8, certificate: Option<u32>) -> SignerResult
    ensures { result ≡ failed_with bit certificate }
{
    SignerResult {
        bit: Some(bit),
        certificate,
        path: None,
    }
}

/// The failure bit for a fault of a signer that names a certificate.
fn fault_bit(fault: SignerFault) -> u8
    ensures { result ≡ bit_of_fault fault }
{
    match fault {
        SignerFault::Algorithm => BAD_ALG,
        SignerFault::Attribute | SignerFault::Digest | SignerFault::Signature => BAD_MESSAGE_CHECK,
    }
}

/// The failure bit for a signer that names none, by its check without a certificate.
fn unnamed_bit(check: Result<(), SignerFault>) -> u8
    ensures { result ≡ bit_of_unnamed (fault_in check) }
{
    match check {
        Err(SignerFault::Algorithm) => BAD_ALG,
        Err(SignerFault::Attribute | SignerFault::Digest | SignerFault::Signature) | Ok(()) => {
            SIGNER_NOT_TRUSTED
        }
    }
}
