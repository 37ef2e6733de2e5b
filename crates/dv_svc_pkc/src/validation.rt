//! The validation of targets: for each the path that is chosen.

ghost use Rattle.std.specs.Prelude.{◌≡◌, ◌<◌, ◌≤◌, ◌+◌, All, IfOk, IsTrue, None, Some, length, map, slice_get, sum_by};
ghost use Rattle.std.specs.List.{list_all};
ghost use Rattle.dv_schema.specs.Schema.{ValueOf};
ghost use Rattle.dv_request.specs.DataView.{count_of, targets_of};
ghost use Rattle.dv_request.specs.TargetView.{view_target};
ghost use Rattle.dv_request.specs.Types.{target_chain};
ghost use Rattle.dv_path.specs.Members.{member_of};
ghost use Rattle.dv_svc_pkc.specs.Certificates.{is_certificate, pkc_failure, target_failure};
ghost use Rattle.dv_svc_pkc.specs.Entries.{above as above_in};
ghost use Rattle.dv_svc_pkc.specs.Outcomes.{checks_of};
ghost use Rattle.dv_svc_pkc.specs.Above.{IsAbove};
ghost use Rattle.dv_svc_pkc.specs.Slices.{octets_if, octets_of};
ghost use Rattle.dv_svc_pkc.specs.Validated.{AreFindings, IsFinding};

use crate::certificates::{CERTIFICATE, certificates_of};
use crate::entry::Finding;
use dv_lms::Steps;
use dv_path::{Bag, BagFault, Trust, find_path};
use dv_request::{Request, TargetChain};
use dv_time::Moment;
use std::alloc::{AllocError, Global};
use std::sync::ledger::Ledger;

/// What validation at this moment finds of the targets of a request that is checked, in order.
pub(crate) fn validated<'a, L: Ledger>(
    alloc: Global,
    request: &Request<'a>,
    targets: u32,
    trust: &Trust,
    when: Moment,
    checks: &mut Steps<L>,
) -> Result<Vec<Finding<'a>>, AllocError>
    requires targets { targets ≡ count_of request.now.matter }
    requires checked { pkc_failure (targets_of request.now.matter) ≡ None }
    ensures found { IfOk result (λ v. AreFindings trust.now when (targets_of request.now.matter) v.items) }
    ensures steps { checks.new ≤ checks.old + sum_by (checks_of (length trust.now)) (targets_of request.now.matter) }
{
    let mut findings = Vec::with_capacity(alloc, targets as usize)?;
    for i in 0..targets {
        let finding = found(alloc, request, i, trust, when, checks)?;
        findings.push(finding)?;
    }
    Ok(findings)
}

/// What validation at this moment finds of the target at an index, of a request that is checked.
fn found<'a, L: Ledger>(
    alloc: Global,
    request: &Request<'a>,
    i: u32,
    trust: &Trust,
    when: Moment,
    checks: &mut Steps<L>,
) -> Result<Finding<'a>, AllocError>
    requires within { i < count_of request.now.matter }
    requires checked { pkc_failure (targets_of request.now.matter) ≡ None }
    ensures target { IfOk result (λ f. slice_get (targets_of request.now.matter) i ≡ Some (view_target f.target)) }
    ensures found { IfOk result (IsFinding trust.now when) }
    ensures steps { (t : ValueOf target_chain) → slice_get (targets_of request.now.matter) i ≡ Some t
        → checks.new ≤ checks.old + checks_of (length trust.now) t }
{
    let Some(target) = request.target(i) else {
        unreachable!()
    };
    let above = path_above(alloc, &target, trust, when, checks)?;
    Ok(Finding { target, above })
}

/// The certificates above a target of the path that is chosen for it at this moment, where there is one.
fn path_above<'a, L: Ledger>(
    alloc: Global,
    target: &TargetChain<'a>,
    trust: &Trust,
    when: Moment,
    checks: &mut Steps<L>,
) -> Result<Option<Vec<&'a [u8]>>, AllocError>
    requires { target_failure (view_target target.now) ≡ None }
    ensures found { IfOk result (λ o. IsAbove trust.now when (view_target target.now) (octets_if o)) }
    ensures steps { checks.new ≤ checks.old + checks_of (length trust.now) (view_target target.now) }
{
    let Some(certificates) = certificates_of(alloc, target)? else {
        unreachable!()
    };
    let bag = bag_of(alloc, &certificates)?;
    match find_path(alloc, trust, &bag, 0, when, target.input.as_ref(), checks)? {
        None => Ok(None),
        Some(path) => Ok(Some(above_of(alloc, &certificates, path.positions.as_slice())?)),
    }
}

/// The bag of certificates under tag A0.
fn bag_of(alloc: Global, certificates: &[&[u8]]) -> Result<Bag, AllocError>
    requires few { length certificates.now ≤ 16 }
    requires decoded { IsTrue (list_all is_certificate (octets_of certificates.now)) }
    ensures { IfOk result (λ b. b ≡ map (member_of 160) (octets_of certificates.now)) }
{
    let mut bag = Bag::new(alloc);
    for octets in certificates {
        match bag.add(octets, CERTIFICATE) {
            Ok(_) => {}
            Err(BagFault::Memory) => return Err(AllocError),
            Err(BagFault::Full) => unreachable!(),
            Err(BagFault::Bad(_)) => unreachable!(),
        }
    }
    Ok(bag)
}

/// The certificates of a path above the target, in order.
fn above_of<'a>(
    alloc: Global,
    certificates: &[&'a [u8]],
    positions: &[u32],
) -> Result<Vec<&'a [u8]>, AllocError>
    requires first { 1 ≤ length positions.now }
    requires within { All (λ position. position < length certificates.now) positions.now }
    ensures { IfOk result (λ v. octets_of v.items ≡ above_in (octets_of certificates.now) positions.now) }
{
    let mut above = Vec::new(alloc);
    for position in &positions[1..] {
        above.push(certificates[*position as usize])?;
    }
    Ok(above)
}
