//! The steps that a request passes before a draft is made for it.

ghost use Rattle.std.specs.Prelude.{◌≡◌, List, length, Ok, option_map, Some};
ghost use Rattle.std.specs.List.{list_any};
ghost use Rattle.std.specs.Option.{option_copied};
ghost use Rattle.dv_schema.specs.Octets.{same_octets};
ghost use Rattle.dv_schema.specs.Reading.{all_at, read};
ghost use Rattle.dv_schema.specs.Schema.{ValueOf};
ghost use Rattle.dv_schema.specs.Tlv.{tlv};
ghost use Rattle.dv_names.specs.Types.{extension, general_name};
ghost use Rattle.dv_names.specs.Views.{view_extension, view_general, view_policy};
ghost use Rattle.dv_request.specs.DataView.{view_data};
ghost use Rattle.dv_request.specs.Information.{number_of, view_request_time};
ghost use Rattle.dv_members.specs.Members.{front_of};
ghost use Rattle.dv_request.specs.RequestView.{view_request};
ghost use Rattle.dv_draft.specs.Servers.{IsPolicyName};
ghost use Rattle.dv_answer.specs.Messages.{takes as takes_data};
ghost use Rattle.dv_answer.specs.Offices.{view_office};
ghost use Rattle.dv_answer.specs.Steps.{form_failure as failure_of_form, has_critical as critical_among, is_after as after, is_another_policy as other_policy, is_critical as critical, is_directory_name as directory_name, is_for_others as for_others, is_timed as timed, office_failure as failure_at_office};

use crate::office::Office;
use dv_asn1::{Cursor, Decode, same};
use dv_names::{Extension, GeneralName, Oid, PolicyInfo};
use dv_request::{Data, Request, RequestInfo, RequestTime, Service};
use dv_status::failure::{
    BAD_REQUEST, BAD_TIME, UNACCEPTED_EXTENSION, UNACCEPTED_POLICY, WRONG_AUTHORITY,
};
use dv_time::Moment;

/// The only version of a request that is served.
const VERSION: u8 = 1;

/// The tag of a directoryName (RFC 5280 4.2.1.6).
const DIRECTORY_NAME: u8 = 0xA4;

/// Whether the service takes such data.
fn takes(service: Service, matter: &Data<'_>) -> bool
    ensures { result ≡ takes_data (number_of service) (view_data matter.now) }
{
    match (service, matter) {
        (Service::Cpd | Service::Vsd, Data::Message(_)) => true,
        (Service::Ccpd, Data::Imprint(_)) => true,
        (Service::Cpkc, Data::Certs { .. }) => true,
        _ => false,
    }
}

/// Whether the time of a request counts for the service.
fn is_timed(service: Service) -> bool
    ensures { result ≡ timed (number_of service) }
{
    match service {
        Service::Vsd | Service::Cpkc => true,
        Service::Cpd | Service::Ccpd => false,
    }
}

/// Whether the request names a time that is later than the moment.
fn is_after(info: &RequestInfo<'_>, moment: Moment) -> bool
    ensures { result ≡ after moment (option_map view_request_time info.now.time) }
{
    match &info.time {
        None => false,
        Some(time) => is_later(time, moment),
    }
}

/// Whether the time is later than the moment. A token is not.
fn is_later(time: &RequestTime<'_>, moment: Moment) -> bool
    ensures { result ≡ after moment (Some (view_request_time time.now)) }
{
    match time {
        RequestTime::At(when) => {
            // Read for its contract: it is a second that a moment may be.
            let _seconds = when.seconds();
            moment < *when
        }
        RequestTime::Token(_) => false,
    }
}

/// The failure bit of the first step that refuses a request by its form, at the moment of service.
pub(crate) fn form_failure(request: &Request<'_>, moment: Moment) -> Option<u8>
    ensures { result ≡ failure_of_form moment (view_request request.now) }
{
    if request.info.version != VERSION || !takes(request.info.service, &request.matter) {
        return Some(BAD_REQUEST);
    }
    if let Some(RequestTime::Token(_)) = request.info.time {
        return Some(BAD_TIME);
    }
    if is_timed(request.info.service) && is_after(&request.info, moment) {
        return Some(BAD_TIME);
    }
    None
}

/// The failure bit of the first step that refuses a request by what it asks of the server.
pub(crate) fn office_failure(office: &Office<'_>, request: &Request<'_>) -> Option<u8>
    ensures { result ≡ failure_at_office (view_office office.now) (view_request request.now) }
{
    if is_for_others(office.subject, &request.info) {
        return Some(WRONG_AUTHORITY);
    }
    if asks_another_policy(office, request.info.policy) {
        return Some(UNACCEPTED_POLICY);
    }
    if has_critical(&request.info) {
        return Some(UNACCEPTED_EXTENSION);
    }
    None
}

/// Whether the request names servers, and none by this Name.
fn is_for_others(subject: &[u8], info: &RequestInfo<'_>) -> bool
    ensures { result ≡ for_others subject.now (option_copied info.now.dvcs) }
{
    match info.dvcs {
        None => false,
        Some(names) => !lists_directory_name(names, subject),
    }
}

/// Whether one of these names is a directoryName that holds this Name.
fn lists_directory_name(names: &[u8], subject: &[u8]) -> bool
    ensures { (vs : List (ValueOf general_name))
        → all_at (read general_name) (length names.now) (front_of names.now) ≡ Ok vs
        → result ≡ list_any (directory_name subject.now) vs }
{
    let mut next = Cursor::new(names);
    while !next.at_end() {
        match GeneralName::read(&mut next) {
            Err(_) => return false,
            Ok(name) => {
                if is_directory_name(subject, &name) {
                    return true;
                }
            }
        }
    }
    false
}

/// Whether the name is a directoryName that holds this Name, octet for octet.
fn is_directory_name(subject: &[u8], name: &GeneralName<'_>) -> bool
    ensures { result ≡ directory_name subject.now (view_general name.now) }
{
    name.tag == DIRECTORY_NAME && same(subject, name.raw)
}

/// Whether a policy is asked for that isn't the server's. Qualifiers aren't compared.
fn asks_another_policy(office: &Office<'_>, asked: Option<PolicyInfo<'_>>) -> bool
    ensures { result ≡ other_policy (option_copied office.now.policy) (option_map view_policy asked.entry) }
{
    match (office.policy, asked) {
        (_, None) => false,
        (None, Some(_)) => true,
        (Some(own), Some(asked)) => !has_identifier(own, &asked.oid),
    }
}

/// Whether the contents octets of a PolicyInformation have this identifier.
fn has_identifier(policy: &[u8], oid: &Oid<'_>) -> bool
    requires { IsPolicyName policy.now }
    ensures { result ≡ same_octets policy.now (tlv 6 oid.now.octets.now) }
{
    match Oid::decode(&mut Cursor::new(policy)) {
        Err(_) => false,
        Ok(own) => same(own.octets, oid.octets),
    }
}

/// Whether one of the request's extensions is critical.
fn has_critical(info: &RequestInfo<'_>) -> bool
    ensures { result ≡ critical_among (option_copied info.now.extensions) }
{
    match info.extensions {
        None => false,
        Some(octets) => any_critical(octets),
    }
}

/// Whether one of these extensions is critical.
fn any_critical(octets: &[u8]) -> bool
    ensures { (vs : List (ValueOf extension))
        → all_at (read extension) (length octets.now) (front_of octets.now) ≡ Ok vs
        → result ≡ list_any critical vs }
{
    let mut next = Cursor::new(octets);
    while !next.at_end() {
        match Extension::read(&mut next) {
            Err(_) => return false,
            Ok(extension) => {
                if is_critical(&extension) {
                    return true;
                }
            }
        }
    }
    false
}

/// Whether the extension is critical.
fn is_critical(extension: &Extension<'_>) -> bool
    ensures { result ≡ critical (view_extension extension.now) }
{
    extension.critical
}
