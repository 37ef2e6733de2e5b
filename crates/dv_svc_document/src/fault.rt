//! Why the certificates of a document aren't read.

use dv_x509::X509;
use std::alloc::AllocError;
use thiserror::Error;

/// Why the certificates of a document aren't read.
#[derive(Clone, Copy, Debug, PartialEq, Eq, Error)]
pub enum DocumentBag {
    /// There are more than 16.
    #[error("the document has more than 16 certificates")]
    TooMany,
    /// One of them is none.
    #[error("certificate {index} of the document: {fault}")]
    Bad {
        /// Its position, counted from 0.
        index: u32,
        fault: X509,
    },
    /// Want of memory.
    #[error("out of memory")]
    Memory,
}

impl From<AllocError> for DocumentBag {
    ghost use Rattle.std.specs.Prelude.{◌≡◌};
    ghost use Rattle.dv_svc_document.specs.declared.fault.DocumentBag.TheVariants.{Memory};

    ghost from_gives = { λ _ e. e ≡ Memory };

    fn from(_failed: AllocError) -> DocumentBag {
        DocumentBag::Memory
    }
}
