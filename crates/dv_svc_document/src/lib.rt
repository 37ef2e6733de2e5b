//! The service of signed documents (RFC 3029 2.3): `vsd` validates a signed document.
//!
//! What it is for: [`answer_vsd`] makes the draft of a certificate of service from a request whose message is a signed document.
//! [`judge_signer`] judges one of the signers of signed data, among the certificates of its [`document_bag`].
//!
//! What it promises: the draft is exactly that of the definitions. A message is read exactly where it holds signed data with
//! content, at most 8 signers and at most 16 certificates, each of which decodes; each signer has exactly its result, with the
//! chosen path of the first certificate that it names; and at most so many signatures are verified as the definitions allow.
//!
//! What it stands on: `dv_signed` for signed data and the check of a signer, the paths of `dv_path`, `dv_parts` for what the
//! services share, and `dv_draft` and `dv_request`.
#![tactic(auto)]

mod bag;
mod document;
mod entering;
mod entries;
mod entry;
mod fault;
mod judge;
mod named;
mod result;
mod signers;
mod status;
mod vsd;

pub use bag::document_bag;
pub use fault::DocumentBag;
pub use judge::judge_signer;
pub use result::SignerResult;
pub use vsd::answer_vsd;

#[cfg(test)]
mod tests;
