//! Signed requests.

ghost use Rattle.std.specs.Prelude.{◌≡◌, ◌<◌, ◌^◌, ℕ, List, IfOk, MatchOption, Some, length};
ghost use Rattle.dv_schema.specs.Schema.{ValueOf};
ghost use Rattle.dv_cms.specs.Types.{signed_data, signed_data_type};
ghost use Rattle.dv_draft.specs.Signers.{AreSigners};
ghost use Rattle.dv_signed.specs.Fields.{signer_set_of};
ghost use Rattle.dv_signed.specs.SignedView.{view_signed};
ghost use Rattle.dv_svc_document.specs.Bags.{bag_of};
ghost use Rattle.dv_answer.specs.Messages.{IsInfoOf, IsMessageOf, IsSignedContent};

use dv_path::Bag;
use dv_request::REQUEST_DATA_TYPE;
use dv_signed::SignedData;
use dv_svc_document::{DocumentBag, document_bag};
use std::alloc::{AllocError, Global};

/// The most signers that a request has.
const SIGNER_LIMIT: u32 = 8;

/// What a signed request (RFC 3029 8) is read as: its SignedData, the bag of the certificates in it, and the octets of the
/// request.
#[derive(Debug, Drop)]
pub(crate) struct Signatures<'a> {
    pub(crate) signed: SignedData<'a>,
    pub(crate) bag: Bag,
    pub(crate) content: &'a [u8],
    ghost held: { IsSignedContent (view_signed signed) content.now },
    ghost bagged: { bag ≡ bag_of (view_signed signed) },
    ghost short: { length content.now < 2 ^ 32 },
}

impl<'a> Signatures<'a> {
    /// Those of a message of type id-signedData with this content. None exactly where the message is no signed request: the
    /// content is no SignedData, or this has another content type or no content, more than 8 signers or 16 certificates, or
    /// one that doesn't decode.
    pub(crate) fn read(
        alloc: Global,
        content: &'a [u8],
    ) -> Result<Option<Signatures<'a>>, AllocError>
        requires { length content.now < 2 ^ 32 }
        ensures { (octets : List ℕ) → IsInfoOf signed_data_type content.now octets
            → IfOk result (λ o. MatchOption o
            ((document : ValueOf signed_data) (inside : List ℕ) → ¬ IsMessageOf (Some document) inside octets)
            (λ s. IsMessageOf (Some (view_signed s.signed)) s.content.now octets)) }
    {
        match SignedData::decode(content) {
            Err(_) => Ok(None),
            Ok(signed) => Signatures::of(alloc, signed),
        }
    }

    /// Those of this SignedData; None exactly where it isn't that of a request.
    fn of(alloc: Global, signed: SignedData<'a>) -> Result<Option<Signatures<'a>>, AllocError>
        ensures { IfOk result (λ o. MatchOption o ((inside : List ℕ) → ¬ IsSignedContent (view_signed signed.entry) inside)
            (λ s. view_signed s.signed ≡ view_signed signed.entry)) }
    {
        if signed.content_type != REQUEST_DATA_TYPE.as_slice() || signed.signers > SIGNER_LIMIT {
            return Ok(None);
        }
        let Some(content) = signed.content else {
            return Ok(None);
        };
        match document_bag(alloc, &signed) {
            Ok(bag) => Ok(Some(Signatures {
                signed,
                bag,
                content,
            })),
            Err(DocumentBag::Memory) => Err(AllocError),
            Err(DocumentBag::TooMany) => Ok(None),
            Err(DocumentBag::Bad { .. }) => Ok(None),
        }
    }

    /// The contents octets of its signers.
    pub(crate) fn signers(&self) -> &'a [u8]
        ensures same { result.now ≡ signer_set_of (view_signed self.now.signed) }
        ensures signers { AreSigners result.now }
    {
        self.signed.signer_infos
    }
}
