//! The information of a request.

ghost use Rattle.std.specs.Prelude.{◌≡◌, option_map};
ghost use Rattle.std.specs.Option.{option_copied};
ghost use Rattle.dv_schema.specs.Schema.{spelling};
ghost use Rattle.dv_schema.specs.Reading.{is_tag_of, maybe_at, read, starts_list};
ghost use Rattle.dv_schema.specs.Answers.{Reads};
ghost use Rattle.dv_schema.specs.Decodes.{HasSpelling};
ghost use Rattle.dv_names.specs.Types.{policy_information};
ghost use Rattle.dv_names.specs.Views.{view_policy};
ghost use Rattle.dv_request.specs.Information.{information, view_version};
ghost use Rattle.dv_request.specs.Types.{nonce as nonce_type, request_information, version as version_type};

use crate::request_time::RequestTime;
use crate::service::Service;
use dv_asn1::{Cursor, Decode, Der, Why, read_optional_list};
use dv_names::{GeneralName, NoneKnown, PolicyInfo, read_optional_extensions};

/// The most octets that the contents of a nonce have.
pub const NONCE_LIMIT: usize = 64;

/// The tag of an INTEGER.
const INTEGER: u8 = 0x02;

/// The tag of the policy.
const POLICY: u8 = 0xA1;

/// A DVCSRequestInformation (RFC 3029 7.6).
#[derive(Clone, Copy, Debug)]
pub struct RequestInfo<'a> {
    /// The whole value.
    pub raw: &'a [u8],
    pub version: u8,
    pub service: Service,
    /// The contents octets of an INTEGER, at most 64.
    pub nonce: Option<&'a [u8]>,
    pub time: Option<RequestTime<'a>>,
    /// The contents octets of names, at least one.
    pub requester: Option<&'a [u8]>,
    pub policy: Option<PolicyInfo<'a>>,
    /// The contents octets of names, at least one.
    pub dvcs: Option<&'a [u8]>,
    /// The contents octets of names, at least one.
    pub locations: Option<&'a [u8]>,
    /// The contents octets of extensions, at least one, no two with one identifier.
    pub extensions: Option<&'a [u8]>,
    ghost spelled: { ∥ HasSpelling request_information (information version service nonce time requester policy dvcs locations extensions) ∥₁ },
    ghost whole: { raw.now ≡ spelling request_information (information version service nonce time requester policy dvcs locations extensions) },
}

impl<'a> Decode<'a> for RequestInfo<'a> {
    ghost use Rattle.dv_request.specs.InfoView.{view_info};
    ghost use Rattle.dv_request.specs.Types.{request_information};

    ghost schema = { request_information };

    ghost view = { view_info };

    #[tactic(auto, unfolding(dv_schema::specs::Reading::read))]
    fn read(c: &mut Cursor<'a>) -> Result<RequestInfo<'a>, Der> {
        let mut next = c.fork();
        let mut inside = next.enter(0x30)?;
        let version = read_version(&mut inside)?;
        let service = Service::read(&mut inside)?;
        let nonce = read_nonce(&mut inside)?;
        let time = match RequestTime::read_optional(&mut inside) {
            Ok(time) => time,
            Err(refusal) => return Err(refusal),
        };
        let requester = read_optional_list::<GeneralName>(&mut inside, 0xA0, true)?;
        let policy = read_policy(&mut inside)?;
        let dvcs = read_optional_list::<GeneralName>(&mut inside, 0xA2, true)?;
        let locations = read_optional_list::<GeneralName>(&mut inside, 0xA3, true)?;
        let extensions = read_optional_extensions::<NoneKnown>(&mut inside, 0xA4)?;
        inside.finish()?;
        let raw = c.up_to(&next);
        *c = next;
        Ok(RequestInfo {
            raw,
            version,
            service,
            nonce,
            time,
            requester,
            policy,
            dvcs,
            locations,
            extensions,
        })
    }
}

/// Reads a version, 1 where it is absent. `Value` where 1 is spelled out.
#[tactic(auto, unfolding(dv_schema::specs::Reading::read))]
fn read_version(c: &mut Cursor<'_>) -> Result<u8, Der>
    ensures { Reads view_version result c.old c.new
        (maybe_at (starts_list (is_tag_of 2) c.old.rest) c.old (read version_type c.old)) }
{
    if !c.next_is(INTEGER) {
        return Ok(1);
    }
    let mut next = c.fork();
    let number = next.read_number(INTEGER, 255)?;
    if number == 1 {
        return Err(c.refusal(Why::Value));
    }
    *c = next;
    Ok(number as u8)
}

/// Reads a nonce, where its tag is there. `Value` where it has more than 64 octets.
#[tactic(auto, unfolding(dv_schema::specs::Reading::read))]
fn read_nonce<'a>(c: &mut Cursor<'a>) -> Result<Option<&'a [u8]>, Der>
    ensures { Reads option_copied result c.old c.new
        (maybe_at (starts_list (is_tag_of 2) c.old.rest) c.old (read nonce_type c.old)) }
{
    if c.next_is(INTEGER) {
        Ok(Some(c.read_integer(NONCE_LIMIT)?))
    } else {
        Ok(None)
    }
}

/// Reads a policy, where its tag is there.
fn read_policy<'a>(c: &mut Cursor<'a>) -> Result<Option<PolicyInfo<'a>>, Der>
    ensures { Reads (option_map view_policy) result c.old c.new
        (maybe_at (starts_list (is_tag_of 161) c.old.rest) c.old
        (read (policy_information 161) c.old)) }
{
    if c.next_is(POLICY) {
        Ok(Some(PolicyInfo::read_under(c, POLICY)?))
    } else {
        Ok(None)
    }
}

#[cfg(test)]
mod tests;
