//! Why a register isn't made, opened, or given what is asked of it.
use dv_outside::Failed;
use thiserror::Error;

/// Why a register isn't made.
#[derive(Clone, Copy, Debug, PartialEq, Eq, Error)]
pub enum Create {
    /// The file isn't empty.
    #[error("the register's file is not empty")]
    NotEmpty,
    /// The station failed.
    #[error("the register's file can't be written")]
    Fault,
}

/// Why a register isn't opened.
#[derive(Clone, Copy, Debug, PartialEq, Eq, Error)]
pub enum Open {
    /// The file is no register: at this place it breaks the layout.
    #[error("the file is no register: octet {place}")]
    NotRegister {
        /// The number of the octet, counted from 0.
        place: u64,
    },
    /// The file is a register of another key.
    #[error("the register is one of another key")]
    OtherKey,
    /// The station failed.
    #[error("the register's file can't be read or written")]
    Fault,
    /// Want of memory.
    #[error("there is not enough memory for the register")]
    Memory,
}

impl From<Failed> for Open {
    ghost use Rattle.std.specs.Prelude.{◌≡◌};
    ghost use Rattle.dv_register.specs.declared.refusals.Open.TheVariants.{Fault};

    ghost from_gives = { λ _ e. e ≡ Fault };

    fn from(_failed: Failed) -> Open {
        Open::Fault
    }
}

/// Why no record is reserved.
#[derive(Clone, Copy, Debug, PartialEq, Eq, Error)]
pub enum Reserve {
    /// Each leaf of the key has its record.
    #[error("the register is full")]
    Full,
    /// An earlier reservation met a fault.
    #[error("the register is shut")]
    Shut,
    /// The station failed. The register is shut from then on.
    #[error("the register's file can't be written")]
    Fault,
}

/// Why the contents of a record aren't given.
#[derive(Clone, Copy, Debug, PartialEq, Eq, Error)]
pub enum Contents {
    /// The station failed.
    #[error("the register's file can't be read")]
    Fault,
    /// Want of memory.
    #[error("there is not enough memory for a record")]
    Memory,
}
