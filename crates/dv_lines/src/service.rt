//! Services.

/// A service that one file is asked for.
#[derive(Clone, Copy, Debug, PartialEq, Eq)]
pub enum Service {
    /// Certification of Possession of Data (RFC 3029, 2.1).
    Cpd,
    /// Validation of a Digitally Signed Document (RFC 3029, 2.3).
    Vsd,
    /// Certification of Claim of Possession of Data (RFC 3029, 2.2).
    Ccpd,
}
