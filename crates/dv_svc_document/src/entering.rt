//! The entries of the signers of a document, from what was found of them.

ghost use Rattle.std.specs.Prelude.{◌≡◌, ◌<◌, ◌≤◌, All, IfOk, Some, length, map, option_map, slice_get, slice_index_or, []};
ghost use Rattle.std.specs.Option.{ForSome, option_copied};
ghost use Rattle.dv_path.specs.Rows.{octets_of};
ghost use Rattle.dv_signed.specs.Certificates.{certificates_of};
ghost use Rattle.dv_signed.specs.SignedView.{view_signed};
ghost use Rattle.dv_svc_document.specs.Entries.{above as above_in, entry_of, positions_of};
ghost use Rattle.dv_svc_document.specs.Kept.{IsFit, entry_in};

use crate::document::Document;
use crate::entry::Entry;
use crate::result::SignerResult;
use dv_path::Path;
use std::alloc::{AllocError, Global};

/// The entries of signers with these results, in order.
pub(crate) fn entries<'a>(
    alloc: Global,
    document: &Document<'a>,
    results: &[SignerResult],
) -> Result<Vec<Entry<'a>>, AllocError>
    requires { All (IsFit (length (certificates_of (view_signed document.now.signed)))) results.now }
    ensures { IfOk result (λ v. map entry_in v.items ≡ map (entry_of (certificates_of (view_signed document.now.signed))) results.now) }
{
    let mut entries = Vec::with_capacity(alloc, results.len())?;
    for found in results {
        let entry = entry(alloc, document, found)?;
        entries.push(entry)?;
    }
    Ok(entries)
}

/// The entry of a signer with this result.
fn entry<'a>(
    alloc: Global,
    document: &Document<'a>,
    found: &SignerResult,
) -> Result<Entry<'a>, AllocError>
    requires { IsFit (length (certificates_of (view_signed document.now.signed))) found.now }
    ensures { IfOk result (λ e. entry_in e ≡ entry_of (certificates_of (view_signed document.now.signed)) found.now) }
{
    let certificate = named(document, found.certificate);
    let above = above(alloc, document, found.path.as_ref())?;
    Ok(Entry {
        certificate,
        above,
        bit: found.bit,
    })
}

/// The certificate at the position that a result names, where it names one.
fn named<'a>(document: &Document<'a>, position: Option<u32>) -> Option<&'a [u8]>
    requires { ForSome position (λ p. p < length (certificates_of (view_signed document.now.signed))) }
    ensures { option_copied result ≡ option_map (λ p. slice_index_or (certificates_of (view_signed document.now.signed)) p []) position }
{
    match position {
        None => None,
        Some(position) => Some(certificate(document, position)),
    }
}

/// The certificates of a path above its first, where there is a path.
fn above<'a>(
    alloc: Global,
    document: &Document<'a>,
    path: Option<&Path>,
) -> Result<Vec<&'a [u8]>, AllocError>
    requires { All (λ p. p < length (certificates_of (view_signed document.now.signed))) (positions_of (option_copied path)) }
    ensures { IfOk result (λ v. octets_of v.items ≡ above_in (certificates_of (view_signed document.now.signed)) (positions_of (option_copied path.entry))) }
{
    let Some(path) = path else {
        return Ok(Vec::new(alloc));
    };
    match path.positions.as_slice() {
        [] => Ok(Vec::new(alloc)),
        [_, above @ ..] => certificates(alloc, document, above),
    }
}

/// The certificates of the document at positions, in order.
fn certificates<'a>(
    alloc: Global,
    document: &Document<'a>,
    positions: &[u32],
) -> Result<Vec<&'a [u8]>, AllocError>
    requires { All (λ p. p < length (certificates_of (view_signed document.now.signed))) positions.now }
    ensures { IfOk result (λ v. octets_of v.items ≡ map (λ p. slice_index_or (certificates_of (view_signed document.now.signed)) p []) positions.now) }
{
    let mut certificates = Vec::new(alloc);
    for position in positions {
        certificates.push(certificate(document, *position))?;
    }
    Ok(certificates)
}

/// The certificate of the document at a position, as its whole octets under tag 30.
fn certificate<'a>(document: &Document<'a>, position: u32) -> &'a [u8]
    requires { position < length (certificates_of (view_signed document.now.signed)) }
    ensures { result.now ≡ slice_index_or (certificates_of (view_signed document.now.signed)) position [] }
{
    match document.signed.certificate(position) {
        None => unreachable!(),
        Some(octets) => octets,
    }
}
