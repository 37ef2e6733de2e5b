//! Who issued a certificate (RFC 5280 6.1.3, 6.1.4).

ghost use Rattle.std.specs.Prelude.{◌≡◌, ◌≤◌, ◌+◌, ◌↔◌, IsTrue, MatchOption, Some, length};
ghost use Rattle.std.specs.Option.{option_copied};
ghost use Rattle.dv_names.specs.Views.{view_algorithm};
ghost use Rattle.dv_x509.specs.Uses.{is_hss as hss};
ghost use Rattle.dv_x509.specs.View.{view_certificate};
ghost use Rattle.dv_path.specs.Issuing.{IsIssuedBy, IsSignedUnder, IsWithin, Issues, MayIssue, bound_of, period_of};
ghost use Rattle.dv_path.specs.Paths.{IsFirstAnchor};
ghost use Rattle.dv_path.specs.Tables.{HasNoAnchor};

use crate::trust::Anchor;
use dv_asn1::same;
use dv_lms::{Steps, verify};
use dv_names::AlgId;
use dv_names::identifiers::ID_ALG_HSS_LMS_HASHSIG;
use dv_time::{Moment, laws};
use dv_x509::{Ca, Certificate};
use std::sync::ledger::Ledger;

/// The bit keyCertSign of keyUsage (RFC 5280 4.2.1.3), in the number of its bits.
const KEY_CERT_SIGN: u16 = 1 << 5;

/// Whether the holder of a certificate may issue others.
fn may_issue(certificate: &Certificate<'_>) -> bool
    ensures { IsTrue result ↔ MayIssue (view_certificate certificate.now) }
{
    match certificate.ca() {
        Ca::No => false,
        Ca::Yes { .. } => match certificate.usage() {
            None => true,
            Some(usage) => usage / KEY_CERT_SIGN % 2 == 1,
        },
    }
}

/// How many certificates may stand between this one and the target of a path, where that is bounded.
pub(crate) fn bound(certificate: &Certificate<'_>) -> Option<u64>
    ensures { result ≡ bound_of (view_certificate certificate.now) }
{
    match certificate.ca() {
        Ca::No => None,
        Ca::Yes { bound } => bound,
    }
}

/// Whether the holder of one certificate issued another, and that one can be relied on at this moment. At most one signature is
/// verified.
pub(crate) fn issues<L: Ledger>(
    issuer: &Certificate<'_>,
    certificate: &Certificate<'_>,
    when: Moment,
    checks: &mut Steps<L>,
) -> bool
    ensures issues { IsTrue result ↔ Issues (view_certificate issuer.now) (view_certificate certificate.now) when }
    ensures step { checks.new ≤ checks.old + 1 }
{
    if !may_issue(issuer) {
        return false;
    }
    is_issued_by(certificate, issuer.subject.raw, issuer.key(), when, checks)
}

/// Whether the holder of this name and key issued the certificate, and it can be relied on at this moment. At most one
/// signature is verified, and none where the names differ, or the moment or an extension rules the certificate out.
fn is_issued_by<L: Ledger>(
    certificate: &Certificate<'_>,
    subject: &[u8],
    key: Option<&[u8]>,
    when: Moment,
    checks: &mut Steps<L>,
) -> bool
    ensures issued { IsTrue result ↔ IsIssuedBy (record { subject = subject.now; key = option_copied key.entry })
        (view_certificate certificate.now) when }
    ensures step { checks.new ≤ checks.old + 1 }
{
    if !same(certificate.issuer.raw, subject) {
        return false;
    }
    if !is_valid_at(certificate, when) || certificate.unknown_critical() {
        return false;
    }
    match key {
        None => false,
        Some(key) => is_signed_under(certificate, key, checks),
    }
}

/// Whether the certificate is valid at this moment.
fn is_valid_at(certificate: &Certificate<'_>, when: Moment) -> bool
    ensures { IsTrue result ↔ IsWithin (period_of (view_certificate certificate.now)) when }
{
    // Two moments with one text are the same.
    laws::texts_tell_moments();
    let from = certificate.not_before.seconds();
    let until = certificate.not_after.seconds();
    from <= when.seconds() && when.seconds() <= until
}

/// Whether the certificate's signature is one under this key.
fn is_signed_under<L: Ledger>(
    certificate: &Certificate<'_>,
    key: &[u8],
    checks: &mut Steps<L>,
) -> bool
    ensures signed { IsTrue result ↔ IsSignedUnder key.now (view_certificate certificate.now) }
    ensures step { checks.new ≤ checks.old + 1 }
{
    let (unused, signature) = certificate.signature;
    if unused != 0 {
        return false;
    }
    if !is_hss(&certificate.signature_alg) {
        return false;
    }
    verify(key, certificate.tbs, signature, checks)
}

/// Whether the algorithm is HSS, without parameters.
fn is_hss(alg: &AlgId<'_>) -> bool
    ensures { result ≡ hss (view_algorithm alg.now) }
{
    match alg.params {
        None => same(alg.oid.octets, &ID_ALG_HSS_LMS_HASHSIG),
        Some(_) => false,
    }
}

/// The place of the first anchor that issued the certificate. At most one signature is verified for each anchor.
pub(crate) fn first_anchor<L: Ledger>(
    anchors: &[Anchor],
    certificate: &Certificate<'_>,
    when: Moment,
    checks: &mut Steps<L>,
) -> Option<usize>
    ensures first { MatchOption result (HasNoAnchor anchors.now (view_certificate certificate.now) when)
        (IsFirstAnchor anchors.now (view_certificate certificate.now) when) }
    ensures steps { checks.new ≤ checks.old + length anchors.now }
{
    for (place, anchor) in anchors.iter().enumerate() {
        if is_issued_by(certificate, anchor.subject(), anchor.key(), when, checks) {
            return Some(place);
        }
    }
    None
}
