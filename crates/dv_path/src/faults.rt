//! Why a trust file isn't read, and why a certificate isn't added to a bag.

use dv_x509::X509;
use std::alloc::AllocError;
use thiserror::Error;

/// Why a trust file isn't read.
#[derive(Clone, Copy, Debug, PartialEq, Eq, Error)]
pub enum TrustFile {
    /// A value of the file doesn't decode as a certificate.
    #[error("no trust file: octet {place}")]
    Der {
        /// The place of its refusal, counted in the file; where the cause is its version, its algorithms or its length, that
        /// of its own first octet.
        place: u64,
    },
    /// There are no octets.
    #[error("the trust file is empty")]
    Empty,
    /// More than 16 values stand there.
    #[error("the trust file has more than 16 certificates")]
    TooMany,
    /// Want of memory.
    #[error("out of memory")]
    Memory,
}

impl From<AllocError> for TrustFile {
    ghost use Rattle.std.specs.Prelude.{◌≡◌};
    ghost use Rattle.dv_path.specs.declared.faults.TrustFile.TheVariants.{Memory};

    ghost from_gives = { λ _ e. e ≡ Memory };

    fn from(_failed: AllocError) -> TrustFile {
        TrustFile::Memory
    }
}

/// Why a certificate isn't added to a bag.
#[derive(Clone, Copy, Debug, PartialEq, Eq, Error)]
pub enum BagFault {
    /// The bag holds 16 certificates.
    #[error("the bag holds 16 certificates")]
    Full,
    /// The octets are no certificate.
    #[error("{0}")]
    Bad(X509),
    /// Want of memory.
    #[error("out of memory")]
    Memory,
}

impl From<AllocError> for BagFault {
    ghost use Rattle.std.specs.Prelude.{◌≡◌};
    ghost use Rattle.dv_path.specs.declared.faults.BagFault.TheVariants.{Memory};

    ghost from_gives = { λ _ e. e ≡ Memory };

    fn from(_failed: AllocError) -> BagFault {
        BagFault::Memory
    }
}
