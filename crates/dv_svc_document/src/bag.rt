//! The certificates of a document.

ghost use Rattle.std.specs.Prelude.{◌≡◌, ◌<◌, ◌↔◌, All, IfErr, IfOk, IsErrOf, OnOk, length};
ghost use Rattle.dv_path.specs.Members.{Adds};
ghost use Rattle.dv_request.specs.Materials.{IsCertificate as FitsMessage};
ghost use Rattle.dv_signed.specs.Certificates.{certificates_of};
ghost use Rattle.dv_signed.specs.SignedView.{view_signed};
ghost use Rattle.dv_svc_document.specs.Bags.{AreRead, IsBadAt, IsBagCause, bag_of};

use crate::fault::DocumentBag;
use dv_path::{BAG_LIMIT, Bag, BagFault};
use dv_signed::SignedData;
use std::alloc::Global;

/// The tag of a certificate in a document.
const CERTIFICATE: u8 = 0x30;

/// The bag of the certificates of a document, in order.
///
/// [`DocumentBag::TooMany`] comes exactly where there are more than 16. Else [`DocumentBag::Bad`] comes exactly where one of them
/// doesn't decode, for the first such one and its cause. A certificate of the bag fits where a message holds one.
pub fn document_bag(alloc: Global, signed: &SignedData<'_>) -> Result<Bag, DocumentBag>
    ensures bag { IfOk result (λ bag. bag ≡ bag_of (view_signed signed.now)) }
    ensures read { IfOk result (λ _. AreRead (certificates_of (view_signed signed.now))) }
    ensures fit { IfOk result (λ _. All FitsMessage (certificates_of (view_signed signed.now))) }
    ensures too_many { IsErrOf result DocumentBag.TooMany ↔ (16 < length (certificates_of (view_signed signed.now))) }
    ensures refused { IfErr result (IsBagCause (certificates_of (view_signed signed.now))) }
{
    if signed.certificates > BAG_LIMIT as u32 {
        return Err(DocumentBag::TooMany);
    }
    let mut bag = Bag::new(alloc);
    for index in 0..signed.certificates {
        match signed.certificate(index) {
            None => unreachable!(),
            Some(certificate) => add(&mut bag, certificate, index)?,
        }
    }
    Ok(bag)
}

/// Adds the certificate of a document that stands at this index.
fn add(bag: &mut Bag, certificate: &[u8], index: u32) -> Result<(), DocumentBag>
    requires { length bag.old < 16 }
    ensures added { OnOk result (Adds bag.old bag.new 48 certificate.now) }
    ensures fit { OnOk result (FitsMessage certificate.now) }
    ensures refused { IfErr result (IsBadAt index certificate.now) }
{
    match bag.add(certificate, CERTIFICATE) {
        Ok(_) => Ok(()),
        Err(BagFault::Bad(fault)) => Err(DocumentBag::Bad { index, fault }),
        Err(BagFault::Memory) => Err(DocumentBag::Memory),
        Err(BagFault::Full) => unreachable!(),
    }
}
