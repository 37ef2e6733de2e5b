//! Why a command on a register doesn't do what is asked of it.
use dv_asn1::Der;
use dv_draft::ReadRecord;
use dv_register::{Contents, Create, Open};
use std::alloc::AllocError;
use thiserror::Error;

/// Why a certificate isn't put again.
#[derive(Clone, Copy, Debug, PartialEq, Eq, Error)]
pub enum Reissue {
    /// The register isn't opened.
    #[error("{0}")]
    Open(Open),
    /// The register has no record of the serial number.
    #[error("the register has no record of this serial number")]
    Absent,
    /// The contents of the record don't decode: the place, in octets of the contents, and the reason of the first check that
    /// fails.
    #[error("the record of this serial number can't be read: {0}")]
    Record(Der),
    /// The register's file failed.
    #[error("the register's file can't be read")]
    Fault,
    /// The output failed.
    #[error("the certificate can't be written")]
    Put,
    /// Want of memory.
    #[error("there is not enough memory for the certificate")]
    Memory,
}

impl From<Contents> for Reissue {
    ghost use Rattle.std.specs.Prelude.{◌≡◌};
    ghost use Rattle.dv_commands.specs.Refusals.{of_contents};

    ghost from_gives = { λ refusal e. e ≡ of_contents refusal };

    fn from(refusal: Contents) -> Reissue {
        match refusal {
            Contents::Fault => Reissue::Fault,
            Contents::Memory => Reissue::Memory,
        }
    }
}

impl From<ReadRecord> for Reissue {
    ghost use Rattle.std.specs.Prelude.{◌≡◌};
    ghost use Rattle.dv_commands.specs.Refusals.{of_record};

    ghost from_gives = { λ refusal e. e ≡ of_record refusal };

    fn from(refusal: ReadRecord) -> Reissue {
        match refusal {
            ReadRecord::Der(place) => Reissue::Record(place),
            ReadRecord::Memory => Reissue::Memory,
        }
    }
}

/// Why a register isn't made, or its first certificate not put.
#[derive(Clone, Copy, Debug, PartialEq, Eq, Error)]
pub enum Init {
    /// The register isn't made.
    #[error("{0}")]
    Create(Create),
    /// The register's file failed. The register may stand with its record or without.
    #[error("the register's file can't be written")]
    Fault,
    /// The output failed. The register stands with its record, whose certificate can be put again.
    #[error("the certificate can't be written")]
    Put,
    /// Want of memory. The register may not be made, or stand with its record or without.
    #[error("there is not enough memory for the certificate")]
    Memory,
}

impl From<AllocError> for Init {
    ghost use Rattle.std.specs.Prelude.{◌≡◌};
    ghost use Rattle.dv_commands.specs.declared.refusals.Init.TheVariants.{Memory};

    ghost from_gives = { λ _ e. e ≡ Memory };

    fn from(_failed: AllocError) -> Init {
        Init::Memory
    }
}
