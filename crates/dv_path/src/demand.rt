//! What is demanded of the policies of a path (RFC 3029 7.5; RFC 5280 6.1.1).

ghost use Rattle.std.specs.Prelude.{◌≡◌, ◌<◌, ◌∷◌, ◌&&◌, ◌||◌, [], All, IfOk, Some, false, length, map, replicate, slice_index_or, true, vec_len};
ghost use Rattle.dv_names.specs.declared.identifiers.TheConstants.{ANY_POLICY as any_policy};
ghost use Rattle.dv_schema.specs.Octets.{is_one_of};
ghost use Rattle.dv_x509.specs.Uses.{asserts as asserted};
ghost use Rattle.dv_x509.specs.View.{view_certificate};
ghost use Rattle.dv_path.specs.Demands.{demand_in, demand_of, is_asserted, policies_in};
ghost use Rattle.dv_path.specs.Members.{member};
ghost use Rattle.dv_path.specs.Rows.{columns_in, octets_of, rows_in, rows_of};

use crate::bag::Bag;
use dv_asn1::{Cursor, Decode, same};
use dv_names::PolicyInfo;
use dv_names::identifiers::ANY_POLICY;
use dv_request::PathInput;
use dv_x509::Certificate;
use std::alloc::{AllocError, Global};

/// For each policy of which one must be asserted, a row that says of each marked certificate whether it asserts the policy;
/// where none must, one row that is true of each certificate.
///
/// The policies of a certificate without a mark aren't looked at: those of the certificates that anyone may hand in would take
/// long.
pub(crate) fn allowed_rows(
    alloc: Global,
    bag: &Bag,
    marks: &[bool],
    input: Option<&PathInput<'_>>,
) -> Result<Vec<Vec<bool>>, AllocError>
    requires { length marks.now ≡ length bag.now }
    ensures { IfOk result (λ rows. map (λ row. row.items) rows.items ≡ rows_of marks.now (demand_of input.entry) bag.now) }
{
    match input {
        None => one_row(alloc, bag.len()),
        Some(input) => demanded_rows(alloc, bag, marks, input),
    }
}

/// The same, for an input.
fn demanded_rows(
    alloc: Global,
    bag: &Bag,
    marks: &[bool],
    input: &PathInput<'_>,
) -> Result<Vec<Vec<bool>>, AllocError>
    requires { length marks.now ≡ length bag.now }
    ensures { IfOk result (λ rows. map (λ row. row.items) rows.items ≡ rows_of marks.now (Some (demand_in input.now)) bag.now) }
{
    if !input.explicit {
        return one_row(alloc, bag.len());
    }
    let policies = policies(alloc, input.policies)?;
    if names_any(&policies) {
        return one_row(alloc, bag.len());
    }
    asserted_rows(alloc, bag, marks, &policies, input.inhibit_any)
}

/// One row of so many members that are true.
pub(crate) fn one_row(alloc: Global, len: usize) -> Result<Vec<Vec<bool>>, AllocError>
    ensures { IfOk result (λ rows. map (λ row. row.items) rows.items ≡ replicate len true ∷ []) }
{
    let row = entries(alloc, true, len)?;
    let mut rows = Vec::new(alloc);
    rows.push(row)?;
    Ok(rows)
}

/// So many times the same entry.
fn entries(alloc: Global, entry: bool, len: usize) -> Result<Vec<bool>, AllocError>
    ensures { IfOk result (λ v. v.items ≡ replicate len entry) }
{
    vec![in alloc; entry; len]
}

/// The identifiers of policies, of which these are the contents octets of a list.
fn policies<'a>(alloc: Global, octets: &'a [u8]) -> Result<Vec<&'a [u8]>, AllocError>
    ensures { IfOk result (λ v. octets_of v.items ≡ policies_in octets.now) }
{
    let mut next = Cursor::new(octets);
    let mut policies = Vec::new(alloc);
    while !next.at_end() {
        match PolicyInfo::read(&mut next) {
            Err(_) => return Ok(Vec::new(alloc)),
            Ok(policy) => policies.push(policy.oid.octets)?,
        }
    }
    Ok(policies)
}

/// Whether anyPolicy is one of the policies.
fn names_any(policies: &[&[u8]]) -> bool
    ensures { result ≡ is_one_of (octets_of policies.now) any_policy }
{
    for policy in policies {
        if same(&ANY_POLICY, policy) {
            return true;
        }
    }
    false
}

/// For each policy a row that says of each marked certificate whether it asserts the policy. Each certificate is decoded once.
fn asserted_rows(
    alloc: Global,
    bag: &Bag,
    marks: &[bool],
    policies: &[&[u8]],
    inhibit_any: bool,
) -> Result<Vec<Vec<bool>>, AllocError>
    requires { length marks.now ≡ length bag.now }
    ensures { IfOk result (λ rows. map (λ row. row.items) rows.items ≡ rows_in marks.now inhibit_any (octets_of policies.now) bag.now) }
{
    let columns = columns(alloc, bag, marks, policies, inhibit_any)?;
    let mut rows = Vec::new(alloc);
    for place in 0..policies.len() {
        let row = row_at(alloc, &columns, place)?;
        rows.push(row)?;
    }
    Ok(rows)
}

/// For each certificate a column that says of each policy whether the certificate is marked and asserts it.
fn columns(
    alloc: Global,
    bag: &Bag,
    marks: &[bool],
    policies: &[&[u8]],
    inhibit_any: bool,
) -> Result<Vec<Vec<bool>>, AllocError>
    requires { length marks.now ≡ length bag.now }
    ensures { IfOk result (λ columns. map (λ column. column.items) columns.items ≡ columns_in marks.now inhibit_any (octets_of policies.now) bag.now) }
{
    let mut columns = Vec::new(alloc);
    for position in 0..bag.len() {
        let column = marked_column(alloc, bag, marks[position], position, policies, inhibit_any)?;
        columns.push(column)?;
    }
    Ok(columns)
}

/// The column of the certificate at a position, if it is marked.
fn marked_column(
    alloc: Global,
    bag: &Bag,
    mark: bool,
    position: usize,
    policies: &[&[u8]],
    inhibit_any: bool,
) -> Result<Vec<bool>, AllocError>
    requires { position < length bag.now }
    ensures { IfOk result (λ v. v.items ≡ map (λ policy. mark && is_asserted inhibit_any policy (member bag.now position)) (octets_of policies.now)) }
{
    if mark {
        column_of(alloc, bag, position, policies, inhibit_any)
    } else {
        entries(alloc, false, policies.len())
    }
}

/// The column of the certificate at a position.
fn column_of(
    alloc: Global,
    bag: &Bag,
    position: usize,
    policies: &[&[u8]],
    inhibit_any: bool,
) -> Result<Vec<bool>, AllocError>
    requires { position < length bag.now }
    ensures { IfOk result (λ v. v.items ≡ map (λ policy. is_asserted inhibit_any policy (member bag.now position)) (octets_of policies.now)) }
{
    let Some(certificate) = bag.get(position) else {
        unreachable!();
    };
    let any = certificate.asserts(&ANY_POLICY);
    column(alloc, &certificate, policies, !inhibit_any && any)
}

/// Whether the certificate asserts each of the policies, or `any` stands for each.
fn column(
    alloc: Global,
    certificate: &Certificate<'_>,
    policies: &[&[u8]],
    any: bool,
) -> Result<Vec<bool>, AllocError>
    ensures { IfOk result (λ v. v.items ≡ map (λ policy. asserted (view_certificate certificate.now) policy || any) (octets_of policies.now)) }
{
    let mut column = Vec::new(alloc);
    for policy in policies {
        column.push(asserts(certificate, policy, any))?;
    }
    Ok(column)
}

/// Whether the certificate asserts the policy, or `any` stands for it.
fn asserts(certificate: &Certificate<'_>, policy: &[u8], any: bool) -> bool
    ensures { result ≡ (asserted (view_certificate certificate.now) policy.now || any) }
{
    if certificate.asserts(policy) {
        return true;
    }
    any
}

/// The members of the columns at one place.
fn row_at(alloc: Global, columns: &[Vec<bool>], place: usize) -> Result<Vec<bool>, AllocError>
    requires { All (λ column. place < vec_len column) columns.now }
    ensures { IfOk result (λ v. v.items ≡ map (λ column. slice_index_or column.items place false) columns.now) }
{
    let mut row = Vec::new(alloc);
    for column in columns {
        row.push(column[place])?;
    }
    Ok(row)
}
