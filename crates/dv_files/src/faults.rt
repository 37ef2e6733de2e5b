//! Why files aren't read.

use dv_asn1::Der;
use std::alloc::AllocError;
use thiserror::Error;

/// Why a seed file isn't read.
#[derive(Clone, Copy, Debug, PartialEq, Eq, Error)]
pub enum SeedFile {
    /// The octets are no seed file.
    #[error("no seed file: octet {place}")]
    Refused {
        /// The first octet with which no seed file goes on, counted from 0; where the octets end too early, their count.
        place: u64,
    },
    /// Want of memory.
    #[error("out of memory")]
    Memory,
}

impl From<AllocError> for SeedFile {
    ghost use Rattle.std.specs.Prelude.{◌≡◌};
    ghost use Rattle.dv_files.specs.declared.faults.SeedFile.TheVariants.{Memory};

    ghost from_gives = { λ _ e. e ≡ Memory };

    fn from(_failed: AllocError) -> SeedFile {
        SeedFile::Memory
    }
}

/// Why no certificate stands where one is read.
#[derive(Clone, Copy, Debug, PartialEq, Eq, Error)]
#[error("no certificate: octet {place}")]
pub struct NoCertificate {
    /// The octet of the first check that fails, counted from 0.
    pub place: u64,
}

impl From<Der> for NoCertificate {
    ghost use Rattle.std.specs.Prelude.{◌≡◌};

    ghost from_gives = { λ d e. e ≡ record { place = d.place } };

    fn from(refusal: Der) -> NoCertificate {
        NoCertificate {
            place: refusal.place,
        }
    }
}

/// Why a certificate file isn't read.
#[derive(Clone, Copy, Debug, PartialEq, Eq, Error)]
pub enum CertificateFile {
    /// The octets are no certificate file.
    #[error("no certificate file: octet {place}")]
    Refused {
        /// The octet of the first check that fails, counted from 0.
        place: u64,
    },
    /// Want of memory.
    #[error("out of memory")]
    Memory,
}

impl From<AllocError> for CertificateFile {
    ghost use Rattle.std.specs.Prelude.{◌≡◌};
    ghost use Rattle.dv_files.specs.declared.faults.CertificateFile.TheVariants.{Memory};

    ghost from_gives = { λ _ e. e ≡ Memory };

    fn from(_failed: AllocError) -> CertificateFile {
        CertificateFile::Memory
    }
}
