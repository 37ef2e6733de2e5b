//! The contents octets of the identifiers that this project knows.

/// The content type id-data (RFC 5652 4): 1.2.840.113549.1.7.1.
pub const ID_DATA: [u8; 9] = [0x2A, 0x86, 0x48, 0x86, 0xF7, 0x0D, 0x01, 0x07, 0x01];

/// The content type id-signedData (RFC 5652 5.1): 1.2.840.113549.1.7.2.
pub const ID_SIGNED_DATA: [u8; 9] = [0x2A, 0x86, 0x48, 0x86, 0xF7, 0x0D, 0x01, 0x07, 0x02];

/// The attribute contentType (RFC 5652 11.1): 1.2.840.113549.1.9.3.
pub const CONTENT_TYPE: [u8; 9] = [0x2A, 0x86, 0x48, 0x86, 0xF7, 0x0D, 0x01, 0x09, 0x03];

/// The attribute messageDigest (RFC 5652 11.2): 1.2.840.113549.1.9.4.
pub const MESSAGE_DIGEST: [u8; 9] = [0x2A, 0x86, 0x48, 0x86, 0xF7, 0x0D, 0x01, 0x09, 0x04];

/// The attribute signingTime (RFC 5652 11.3): 1.2.840.113549.1.9.5.
pub const SIGNING_TIME: [u8; 9] = [0x2A, 0x86, 0x48, 0x86, 0xF7, 0x0D, 0x01, 0x09, 0x05];

/// The content type id-ct-DVCSRequestData (RFC 3029 8): 1.2.840.113549.1.9.16.1.7.
pub const ID_CT_DVCS_REQUEST_DATA: [u8; 11] = [
    0x2A, 0x86, 0x48, 0x86, 0xF7, 0x0D, 0x01, 0x09, 0x10, 0x01, 0x07,
];

/// The content type id-ct-DVCSResponseData (RFC 3029 8): 1.2.840.113549.1.9.16.1.8.
pub const ID_CT_DVCS_RESPONSE_DATA: [u8; 11] = [
    0x2A, 0x86, 0x48, 0x86, 0xF7, 0x0D, 0x01, 0x09, 0x10, 0x01, 0x08,
];

/// The attribute signingCertificateV2 (RFC 5035 3): 1.2.840.113549.1.9.16.2.47.
pub const SIGNING_CERTIFICATE_V2: [u8; 11] = [
    0x2A, 0x86, 0x48, 0x86, 0xF7, 0x0D, 0x01, 0x09, 0x10, 0x02, 0x2F,
];

/// The algorithm id-alg-hss-lms-hashsig (RFC 9708 3): 1.2.840.113549.1.9.16.3.17.
pub const ID_ALG_HSS_LMS_HASHSIG: [u8; 11] = [
    0x2A, 0x86, 0x48, 0x86, 0xF7, 0x0D, 0x01, 0x09, 0x10, 0x03, 0x11,
];

/// The digest algorithm SHA-256 (RFC 5754 2.2): 2.16.840.1.101.3.4.2.1.
pub const SHA_256: [u8; 9] = [0x60, 0x86, 0x48, 0x01, 0x65, 0x03, 0x04, 0x02, 0x01];

/// The digest algorithm SHA-384 (RFC 5754 2.3): 2.16.840.1.101.3.4.2.2.
pub const SHA_384: [u8; 9] = [0x60, 0x86, 0x48, 0x01, 0x65, 0x03, 0x04, 0x02, 0x02];

/// The digest algorithm SHA-512 (RFC 5754 2.4): 2.16.840.1.101.3.4.2.3.
pub const SHA_512: [u8; 9] = [0x60, 0x86, 0x48, 0x01, 0x65, 0x03, 0x04, 0x02, 0x03];

/// The purpose id-kp-dvcs (RFC 3029 4): 1.3.6.1.5.5.7.3.10.
pub const ID_KP_DVCS: [u8; 8] = [0x2B, 0x06, 0x01, 0x05, 0x05, 0x07, 0x03, 0x0A];

/// The extension subjectKeyIdentifier (RFC 5280 4.2.1.2): 2.5.29.14.
pub const SUBJECT_KEY_IDENTIFIER: [u8; 3] = [0x55, 0x1D, 0x0E];

/// The extension keyUsage (RFC 5280 4.2.1.3): 2.5.29.15.
pub const KEY_USAGE: [u8; 3] = [0x55, 0x1D, 0x0F];

/// The extension basicConstraints (RFC 5280 4.2.1.9): 2.5.29.19.
pub const BASIC_CONSTRAINTS: [u8; 3] = [0x55, 0x1D, 0x13];

/// The extension certificatePolicies (RFC 5280 4.2.1.4): 2.5.29.32.
pub const CERTIFICATE_POLICIES: [u8; 3] = [0x55, 0x1D, 0x20];

/// The policy anyPolicy (RFC 5280 4.2.1.4): 2.5.29.32.0.
pub const ANY_POLICY: [u8; 4] = [0x55, 0x1D, 0x20, 0x00];

/// The extension authorityKeyIdentifier (RFC 5280 4.2.1.1): 2.5.29.35.
pub const AUTHORITY_KEY_IDENTIFIER: [u8; 3] = [0x55, 0x1D, 0x23];

/// The extension extKeyUsage (RFC 5280 4.2.1.12): 2.5.29.37.
pub const EXTENDED_KEY_USAGE: [u8; 3] = [0x55, 0x1D, 0x25];

/// The attribute commonName (RFC 5280 A.1): 2.5.4.3.
pub const COMMON_NAME: [u8; 3] = [0x55, 0x04, 0x03];
