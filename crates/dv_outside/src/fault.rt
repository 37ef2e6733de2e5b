//! The one error of the outside.
use thiserror::Error;

/// A fault of the outside. It says nothing of its cause: what is known is that the object's count of faults rose.
#[derive(Clone, Copy, Debug, PartialEq, Eq, Error)]
#[error("a fault of the outside")]
pub struct Failed;
