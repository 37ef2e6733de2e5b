//! The names of services, of failure bits, of statuses and of digest algorithms.

ghost use Rattle.std.specs.Prelude.{◌≡◌};
ghost use Rattle.std.specs.Option.{option_copied};
ghost use Rattle.dv_show.specs.Lines.{name_of_digest, name_of_failure, name_of_service, name_of_status};

use dv_names::DigestKind;
use dv_request::Service;
use dv_status::failure;

/// The name of a service (RFC 3029 2): `cpd`, `vsd`, `cpkc` or `ccpd`.
pub fn service_name(service: Service) -> &'static str
    ensures { result.now ≡ name_of_service service }
{
    match service {
        Service::Cpd => "cpd",
        Service::Vsd => "vsd",
        Service::Cpkc => "cpkc",
        Service::Ccpd => "ccpd",
    }
}

/// The name of a failure bit (RFC 4210 5.2.3, PKIFailureInfo), counted from 0; None where this project never gives the bit.
pub fn failure_name(bit: u8) -> Option<&'static str>
    ensures { option_copied result ≡ name_of_failure bit }
{
    match bit {
        failure::BAD_ALG => Some("badAlg"),
        failure::BAD_MESSAGE_CHECK => Some("badMessageCheck"),
        failure::BAD_REQUEST => Some("badRequest"),
        failure::BAD_TIME => Some("badTime"),
        failure::BAD_DATA_FORMAT => Some("badDataFormat"),
        failure::WRONG_AUTHORITY => Some("wrongAuthority"),
        failure::CERT_REVOKED => Some("certRevoked"),
        failure::TIME_NOT_AVAILABLE => Some("timeNotAvailable"),
        failure::UNACCEPTED_POLICY => Some("unacceptedPolicy"),
        failure::UNACCEPTED_EXTENSION => Some("unacceptedExtension"),
        failure::SIGNER_NOT_TRUSTED => Some("signerNotTrusted"),
        failure::SYSTEM_UNAVAIL => Some("systemUnavail"),
        failure::SYSTEM_FAILURE => Some("systemFailure"),
        _ => None,
    }
}

/// The name of a status (RFC 4210 5.2.3, PKIStatus); None where this project never gives the status.
pub fn status_name(status: u8) -> Option<&'static str>
    ensures { option_copied result ≡ name_of_status status }
{
    match status {
        0 => Some("granted"),
        1 => Some("grantedWithMods"),
        2 => Some("rejection"),
        _ => None,
    }
}

/// The name of a digest algorithm: `sha256`, `sha384` or `sha512`.
pub fn digest_name(kind: DigestKind) -> &'static str
    ensures { result.now ≡ name_of_digest kind }
{
    match kind {
        DigestKind::Sha256 => "sha256",
        DigestKind::Sha384 => "sha384",
        DigestKind::Sha512 => "sha512",
    }
}
