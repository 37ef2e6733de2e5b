//! The failure bits that this project gives (RFC 4210 5.2.3, PKIFailureInfo).

/// The algorithm is none of the known ones.
pub const BAD_ALG: u8 = 0;

/// A signature doesn't hold.
pub const BAD_MESSAGE_CHECK: u8 = 1;

/// The request isn't allowed.
pub const BAD_REQUEST: u8 = 2;

/// The time of the request isn't acceptable.
pub const BAD_TIME: u8 = 3;

/// The data have another format.
pub const BAD_DATA_FORMAT: u8 = 5;

/// The request names another authority.
pub const WRONG_AUTHORITY: u8 = 6;

/// A certificate was revoked.
pub const CERT_REVOKED: u8 = 10;

/// The server can't tell the time.
pub const TIME_NOT_AVAILABLE: u8 = 14;

/// The requested policy isn't supported.
pub const UNACCEPTED_POLICY: u8 = 15;

/// A critical extension isn't supported.
pub const UNACCEPTED_EXTENSION: u8 = 16;

/// The signer isn't trusted.
pub const SIGNER_NOT_TRUSTED: u8 = 20;

/// The server can't answer now.
pub const SYSTEM_UNAVAIL: u8 = 24;

/// The server failed.
pub const SYSTEM_FAILURE: u8 = 25;
