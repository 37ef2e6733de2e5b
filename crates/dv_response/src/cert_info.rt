//! Certificates of service.

ghost use Rattle.std.specs.Prelude.{None, option_map};
ghost use Rattle.dv_schema.specs.Reading.{is_tag_of, maybe_at, read, read_all, starts_list};
ghost use Rattle.dv_schema.specs.Answers.{Gives, Reads};
ghost use Rattle.dv_schema.specs.Decodes.{DecodesAll, HasSpelling};
ghost use Rattle.dv_names.specs.Types.{policy_information};
ghost use Rattle.dv_names.specs.Views.{view_policy};
ghost use Rattle.dv_status.specs.Types.{status_info};
ghost use Rattle.dv_status.specs.Views.{view_status};
ghost use Rattle.dv_response.specs.Parts.{certified};
ghost use Rattle.dv_response.specs.Types.{cert_info, version as version_type};

use dv_asn1::{Cursor, Decode, Der, Why, read_optional_list};
use dv_cms::{SERIAL_LIMIT, Signer};
use dv_names::{DigestInfo, NoneKnown, PolicyInfo, read_optional_extensions};
use dv_request::{RequestInfo, TargetChain};
use dv_status::StatusInfo;
use dv_time::{Moment, read_generalized};

/// The tag of an INTEGER.
const INTEGER: u8 = 0x02;

/// The tag of the status.
const STATUS: u8 = 0xA0;

/// The tag of the policy.
const POLICY: u8 = 0xA1;

/// The tag of the signers of the request.
const SIGNERS: u8 = 0xA2;

/// The tag of the targets.
const CERTS: u8 = 0xA3;

/// A DVCSCertInfo (RFC 3029 9.1).
#[derive(Clone, Copy, Debug)]
pub struct CertInfo<'a> {
    pub info: RequestInfo<'a>,
    pub imprint: DigestInfo<'a>,
    /// The contents octets of an INTEGER, at most 20.
    pub serial: &'a [u8],
    pub time: Moment,
    pub status: Option<StatusInfo<'a>>,
    pub policy: Option<PolicyInfo<'a>>,
    /// The contents octets of SignerInfos, in any order.
    pub req_signature: Option<&'a [u8]>,
    /// The contents octets of targets, at least one.
    pub certs: Option<&'a [u8]>,
    /// The contents octets of extensions, at least one, no two with one identifier.
    pub extensions: Option<&'a [u8]>,
    ghost spelled: { ∥ HasSpelling cert_info (certified info imprint serial time status policy req_signature certs extensions) ∥₁ },
}

impl<'a> Decode<'a> for CertInfo<'a> {
    ghost use Rattle.dv_response.specs.Types.{cert_info};
    ghost use Rattle.dv_response.specs.Views.{view_cert_info};

    ghost schema = { cert_info };

    ghost view = { view_cert_info };

    #[tactic(auto, unfolding(dv_schema::specs::Reading::read))]
    fn read(c: &mut Cursor<'a>) -> Result<CertInfo<'a>, Der> {
        let mut next = c.fork();
        let mut inside = next.enter(0x30)?;
        pass_version(&mut inside)?;
        let info = match RequestInfo::read(&mut inside) {
            Ok(info) => info,
            Err(refusal) => return Err(refusal),
        };
        let imprint = DigestInfo::read(&mut inside)?;
        let serial = inside.read_integer(SERIAL_LIMIT)?;
        let time = read_generalized(&mut inside)?;
        let status = match read_status(&mut inside) {
            Ok(status) => status,
            Err(refusal) => return Err(refusal),
        };
        let policy = read_policy(&mut inside)?;
        let req_signature = read_optional_list::<Signer>(&mut inside, SIGNERS, false)?;
        let certs = read_optional_list::<TargetChain>(&mut inside, CERTS, true)?;
        let extensions = read_optional_extensions::<NoneKnown>(&mut inside, 0x30)?;
        inside.finish()?;
        *c = next;
        Ok(CertInfo {
            info,
            imprint,
            serial,
            time,
            status,
            policy,
            req_signature,
            certs,
            extensions,
        })
    }
}

impl<'a> CertInfo<'a> {
    ghost use Rattle.dv_response.specs.Views.{view_cert_info};

    /// The one DVCSCertInfo that the octets are, with nothing after it.
    pub fn decode(bytes: &'a [u8]) -> Result<CertInfo<'a>, Der>
        ensures { DecodesAll cert_info view_cert_info result
            (record { levels = 32; place = 0; rest = bytes.now }) }
    {
        let mut c = Cursor::new(bytes);
        let _octets = c.fork();
        CertInfo::read_whole(&mut c)
    }

    /// Reads a DVCSCertInfo, and that nothing is left behind it.
    #[tactic(auto, unfolding(dv_schema::specs::Reading::read))]
    fn read_whole(c: &mut Cursor<'a>) -> Result<CertInfo<'a>, Der>
        ensures { Gives view_cert_info result (read_all cert_info c.old) }
    {
        match CertInfo::read(c) {
            Err(refusal) => Err(refusal),
            Ok(info) => match c.fork().finish() {
                Err(refusal) => Err(refusal),
                Ok(()) => Ok(info),
            },
        }
    }
}

/// Reads that no version is there: the default is spelled by its absence, and this profile has no other. `Value` where one is.
#[tactic(auto, unfolding(dv_schema::specs::Reading::read))]
fn pass_version(c: &mut Cursor<'_>) -> Result<(), Der>
    ensures { Reads (λ _. None) result c.old c.new
        (maybe_at (starts_list (is_tag_of 2) c.old.rest) c.old (read version_type c.old)) }
{
    if !c.next_is(INTEGER) {
        return Ok(());
    }
    c.fork().read_tlv(INTEGER)?;
    Err(c.refusal(Why::Value))
}

/// Reads a status, where its tag is there.
fn read_status<'a>(c: &mut Cursor<'a>) -> Result<Option<StatusInfo<'a>>, Der>
    ensures { Reads (option_map view_status) result c.old c.new
        (maybe_at (starts_list (is_tag_of 160) c.old.rest) c.old (read (status_info 160) c.old)) }
{
    if !c.next_is(STATUS) {
        return Ok(None);
    }
    match StatusInfo::read_under(c, STATUS) {
        Ok(status) => Ok(Some(status)),
        Err(refusal) => Err(refusal),
    }
}

/// Reads a policy, where its tag is there.
fn read_policy<'a>(c: &mut Cursor<'a>) -> Result<Option<PolicyInfo<'a>>, Der>
    ensures { Reads (option_map view_policy) result c.old c.new
        (maybe_at (starts_list (is_tag_of 161) c.old.rest) c.old
        (read (policy_information 161) c.old)) }
{
    if c.next_is(POLICY) {
        Ok(Some(PolicyInfo::read_under(c, POLICY)?))
    } else {
        Ok(None)
    }
}

#[cfg(test)]
mod tests;
