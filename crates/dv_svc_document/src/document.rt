//! The documents that are read.

ghost use Rattle.std.specs.Prelude.{◌≡◌, ◌<◌, ◌^◌, All, IfOk, MatchOption, length, option_map};
ghost use Rattle.dv_schema.specs.Schema.{ValueOf};
ghost use Rattle.dv_cms.specs.Types.{signed_data as signed_type};
ghost use Rattle.dv_request.specs.Materials.{IsCertificate as FitsMessage};
ghost use Rattle.dv_signed.specs.Certificates.{certificates_of};
ghost use Rattle.dv_signed.specs.Messages.{IsSignedMessage};
ghost use Rattle.dv_signed.specs.SignedView.{view_signed};
ghost use Rattle.dv_svc_document.specs.Bags.{bag_of};
ghost use Rattle.dv_svc_document.specs.Documents.{IsReadAs, IsReadable};

use crate::bag::document_bag;
use crate::fault::DocumentBag;
use dv_asn1::same;
use dv_cms::{ContentInfo, SIGNED_DATA_TYPE};
use dv_path::Bag;
use dv_signed::SignedData;
use std::alloc::{AllocError, Global};

/// The most signers that a document has.
const SIGNER_LIMIT: u32 = 8;

/// A document that is read, with the bag of its certificates.
#[derive(Debug, Drop)]
pub(crate) struct Document<'a> {
    pub(crate) signed: SignedData<'a>,
    pub(crate) bag: Bag,
    ghost readable: { IsReadable (view_signed signed) },
    ghost bagged: { bag ≡ bag_of (view_signed signed) },
    ghost fit: { ∥ All FitsMessage (certificates_of (view_signed signed)) ∥₁ },
}

impl<'a> Document<'a> {
    /// The document of a message: a ContentInfo of type id-signedData whose SignedData decodes and has content, at most 8 signers
    /// and at most 16 certificates, each of which decodes. None exactly where the message is none.
    pub(crate) fn read(alloc: Global, message: &'a [u8]) -> Result<Option<Document<'a>>, AllocError>
        requires { length message.now < 2 ^ 32 }
        ensures { IfOk result (λ o. IsReadAs message.now (option_map (λ d. view_signed d.signed) o)) }
    {
        let Some(signed) = signed_data(message) else {
            return Ok(None);
        };
        if signed.content.is_none() || signed.signers > SIGNER_LIMIT {
            return Ok(None);
        }
        match document_bag(alloc, &signed) {
            Ok(bag) => Ok(Some(Document { signed, bag })),
            Err(DocumentBag::Memory) => Err(AllocError),
            Err(DocumentBag::TooMany) => Ok(None),
            Err(DocumentBag::Bad { .. }) => Ok(None),
        }
    }
}

/// The SignedData that a message holds (RFC 5652 3, 5.1); None exactly where it holds none.
fn signed_data(message: &[u8]) -> Option<SignedData<'_>>
    requires { length message.now < 2 ^ 32 }
    ensures { MatchOption result ((document : ValueOf signed_type) → ¬ IsSignedMessage document message.now)
        (λ s. IsSignedMessage (view_signed s) message.now) }
{
    let Ok(info) = ContentInfo::decode(message) else {
        return None;
    };
    if !same(info.oid, &SIGNED_DATA_TYPE) {
        return None;
    }
    match SignedData::decode(info.content) {
        Err(_) => None,
        Ok(signed) => Some(signed),
    }
}
