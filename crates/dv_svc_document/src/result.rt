//! What is found of a signer.

use dv_path::Path;

/// What is found of a signer of a document.
#[derive(Debug, Drop)]
pub struct SignerResult {
    /// The failure bit (RFC 4210 5.2.3), counted from 0; none where the signature holds and the signer is trusted.
    pub bit: Option<u8>,
    /// The position of the first certificate that the signer names, where there is one.
    pub certificate: Option<u32>,
    /// The path that is chosen from that certificate to an anchor: where there is no failure bit, or the usage of the key alone
    /// gave it.
    pub path: Option<Path>,
}
