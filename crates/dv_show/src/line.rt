//! The line for a value.

ghost use Rattle.std.specs.Prelude.{◌≡◌, ◌++◌, ◌∷◌, [], codes, option_map, IsTrue, OnOk};
ghost use Rattle.std.specs.String.{string_bytes};
ghost use Rattle.hex.specs.Hex.{encode_lower};
ghost use Rattle.dv_schema.specs.Rules.{is_oid};
ghost use Rattle.dv_time.specs.Text.{text_of};
ghost use Rattle.dv_names.specs.Views.{view_algorithm, view_digest};
ghost use Rattle.dv_show.specs.Lines.{line_for, line_for_certificate, line_for_notice, line_for_request, name_of_service, word_of_algorithm, word_of_identifier, word_of_imprint, word_of_status};

use crate::names::{digest_name, failure_name, service_name, status_name};
use crate::shown::Shown;
use dv_names::{AlgId, DigestInfo, DisplayError, digest_kind, display};
use dv_request::Service;
use dv_response::CertInfo;
use dv_status::StatusInfo;
use dv_time::Moment;
use std::alloc::{AllocError, Global};

/// Puts the line for a value at the end of the text.
pub(crate) fn push_line(
    alloc: Global,
    text: &mut String,
    value: &Shown<'_>,
) -> Result<(), AllocError>
    ensures { OnOk result (string_bytes text.new ≡ string_bytes text.old ++ line_for value.now) }
{
    match value {
        Shown::Request { service, signed } => push_request(text, *service, *signed),
        Shown::Notice(least) => push_notice(text, *least),
        Shown::Certificate(info) => push_certificate(alloc, text, info),
    }
}

/// Puts the line for a request at the end of the text.
fn push_request(text: &mut String, service: Service, signed: bool) -> Result<(), AllocError>
    ensures { OnOk result (string_bytes text.new ≡ string_bytes text.old ++ line_for_request service signed) }
{
    let name = service_name(service);
    if signed {
        writeln!(text, "request {name} signed")
    } else {
        writeln!(text, "request {name}")
    }
}

/// Puts the line for a notice with this least failure bit at the end of the text.
fn push_notice(text: &mut String, least: Option<u8>) -> Result<(), AllocError>
    ensures { OnOk result (string_bytes text.new ≡ string_bytes text.old ++ line_for_notice least) }
{
    let Some(bit) = least else {
        return text.push_str("notice none\n");
    };
    match failure_name(bit) {
        Some(name) => writeln!(text, "notice {name}"),
        None => writeln!(text, "notice bit {bit}"),
    }
}

/// Puts the line for a certificate of service at the end of the text.
fn push_certificate(alloc: Global, text: &mut String, info: &CertInfo<'_>) -> Result<(), AllocError>
    ensures { OnOk result (string_bytes text.new ≡ string_bytes text.old ++ line_for_certificate info.now) }
{
    push_service(text, info.info.service)?;
    push_serial(alloc, text, info.serial)?;
    push_time(text, info.time)?;
    push_imprint(alloc, text, &info.imprint)?;
    push_status(text, &info.status)
}

/// Puts the service of a certificate at the end of the text.
fn push_service(text: &mut String, service: Service) -> Result<(), AllocError>
    ensures { OnOk result (string_bytes text.new ≡ string_bytes text.old ++ (codes "certificate " ++ name_of_service service)) }
{
    let name = service_name(service);
    write!(text, "certificate {name}")
}

/// Puts a serial number, given by its contents octets, at the end of the text.
fn push_serial(alloc: Global, text: &mut String, serial: &[u8]) -> Result<(), AllocError>
    ensures { OnOk result (string_bytes text.new ≡ string_bytes text.old ++ (codes " serial " ++ encode_lower serial.now)) }
{
    text.push_str(" serial ")?;
    push_hex(alloc, text, serial)
}

/// Puts a moment at the end of the text, as `YYYYMMDDHHMMSSZ`.
fn push_time(text: &mut String, time: Moment) -> Result<(), AllocError>
    ensures { OnOk result (string_bytes text.new ≡ string_bytes text.old ++ (codes " time " ++ text_of time)) }
{
    let octets = dv_time::text(time);
    match str::from_utf8(&octets) {
        Ok(digits) => write!(text, " time {digits}"),
        Err(_) => unreachable!(),
    }
}

/// Puts an imprint at the end of the text: its algorithm and its digest.
fn push_imprint(
    alloc: Global,
    text: &mut String,
    imprint: &DigestInfo<'_>,
) -> Result<(), AllocError>
    ensures { OnOk result (string_bytes text.new ≡ string_bytes text.old ++ (codes " imprint " ++ word_of_imprint (view_digest imprint.now))) }
{
    text.push_str(" imprint ")?;
    push_algorithm(alloc, text, &imprint.alg)?;
    text.push(' ')?;
    push_hex(alloc, text, imprint.digest)
}

/// Puts octets in hexadecimal, in lower case, at the end of the text.
fn push_hex(alloc: Global, text: &mut String, octets: &[u8]) -> Result<(), AllocError>
    ensures { OnOk result (string_bytes text.new ≡ string_bytes text.old ++ encode_lower octets.now) }
{
    let digits = hex::encode(alloc, octets)?;
    text.push_str(&digits)
}

/// Puts an algorithm at the end of the text: the name of a known digest algorithm, or the identifier.
fn push_algorithm(alloc: Global, text: &mut String, algorithm: &AlgId<'_>) -> Result<(), AllocError>
    ensures { OnOk result (string_bytes text.new ≡ string_bytes text.old ++ word_of_algorithm (view_algorithm algorithm.now)) }
{
    match digest_kind(algorithm) {
        Some(kind) => text.push_str(digest_name(kind)),
        None => push_identifier(alloc, text, algorithm.oid.octets),
    }
}

/// Puts an identifier, given by its contents octets, at the end of the text: dotted, or `wide` where an arc is past 2^64 - 1.
fn push_identifier(alloc: Global, text: &mut String, octets: &[u8]) -> Result<(), AllocError>
    requires { IsTrue (is_oid octets.now) }
    ensures { OnOk result (string_bytes text.new ≡ string_bytes text.old ++ word_of_identifier octets.now) }
{
    match display(alloc, octets) {
        Ok(dotted) => text.push_str(&dotted),
        Err(DisplayError::Wide) => text.push_str("wide"),
        Err(DisplayError::Memory) => Err(AllocError),
    }
}

/// Puts the end of a certificate's line at the end of the text: the name of the status, its number where it has none, or that
/// there is no status.
fn push_status(text: &mut String, status: &Option<StatusInfo<'_>>) -> Result<(), AllocError>
    ensures { OnOk result (string_bytes text.new
        ≡ string_bytes text.old ++ (codes " status " ++ word_of_status (option_map (λ s. s.status) status.now) ++ 10 ∷ [])) }
{
    let Some(info) = status else {
        return text.push_str(" status none\n");
    };
    let status = info.status;
    match status_name(status) {
        Some(name) => writeln!(text, " status {name}"),
        None => writeln!(text, " status other {status}"),
    }
}
