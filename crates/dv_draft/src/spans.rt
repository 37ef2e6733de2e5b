//! Drafts that name spans of the octets that they are read from.

ghost use Rattle.std.specs.Prelude.{◌≡◌, ◌<◌, ◌^◌, IfOk, length};
ghost use Rattle.std.specs.Option.{option_copied};
ghost use Rattle.dv_schema.specs.Answers.{Gives, Reads};
ghost use Rattle.dv_schema.specs.Fits.{Fits};
ghost use Rattle.dv_schema.specs.Reading.{is_tag_of, maybe_at, read, read_all, starts_list};
ghost use Rattle.dv_schema.specs.Schema.{raw, spelling};
ghost use Rattle.dv_request.specs.Types.{request_information};
ghost use Rattle.dv_draft.specs.Types.{draft, kept_policy};

use crate::draft::Draft;
use crate::imprint::Imprint;
use crate::imprint_span::ImprintSpan;
use crate::service_status::Status;
use crate::status_reading::read_optional_status;
use dv_asn1::{Cursor, Decode, Der, Octets, read_optional_list};
use dv_cms::Signer;
use dv_names::PolicyInfo;
use dv_request::{RequestInfo, TargetChain};
use dv_time::{Moment, read_generalized};
use std::alloc::{AllocError, Global};

/// The tag of the policy.
const POLICY: u8 = 0xA1;

/// The tag of the signers of the request.
const SIGNERS: u8 = 0xA2;

/// The tag of the targets.
const CERTS: u8 = 0xA3;

/// A draft whose parts are spans of the octets that it was read from.
#[derive(Clone, Copy)]
pub(crate) struct DraftSpans<'a> {
    /// The whole value of the request's information.
    info: &'a [u8],
    imprint: ImprintSpan<'a>,
    time: Moment,
    status: Option<Status>,
    /// The contents octets of a PolicyInformation.
    policy: Option<&'a [u8]>,
    /// The contents octets of the signers of the request.
    req_signature: Option<&'a [u8]>,
    /// The contents octets of targets with their chains.
    certs: Option<&'a [u8]>,
}

impl<'a> DraftSpans<'a> {
    ghost use Rattle.dv_draft.specs.Spans.{view_spans};
    ghost use Rattle.dv_draft.specs.Views.{view_draft};

    /// Reads a draft, and that nothing is left behind it.
    #[tactic(auto, unfolding(dv_schema::specs::Reading::read))]
    pub(crate) fn read_whole(c: &mut Cursor<'a>) -> Result<DraftSpans<'a>, Der>
        ensures { Gives view_spans result (read_all draft c.old) }
    {
        match DraftSpans::read(c) {
            Err(refusal) => Err(refusal),
            Ok(spans) => match c.fork().finish() {
                Err(refusal) => Err(refusal),
                Ok(()) => Ok(spans),
            },
        }
    }

    /// Reads a draft.
    #[tactic(auto, unfolding(dv_schema::specs::Reading::read))]
    fn read(c: &mut Cursor<'a>) -> Result<DraftSpans<'a>, Der>
        ensures { Reads view_spans result c.old c.new (read draft c.old) }
    {
        let mut next = c.fork();
        let mut inside = next.enter(0x30)?;
        let info = read_information(&mut inside)?;
        let imprint = match ImprintSpan::read(&mut inside) {
            Ok(imprint) => imprint,
            Err(refusal) => return Err(refusal),
        };
        let time = read_generalized(&mut inside)?;
        let status = match read_optional_status(&mut inside) {
            Ok(status) => status,
            Err(refusal) => return Err(refusal),
        };
        let policy = read_optional_policy(&mut inside)?;
        let req_signature = read_optional_list::<Signer>(&mut inside, SIGNERS, false)?;
        let certs = read_optional_list::<TargetChain>(&mut inside, CERTS, true)?;
        inside.finish()?;
        *c = next;
        Ok(DraftSpans {
            info,
            imprint,
            time,
            status,
            policy,
            req_signature,
            certs,
        })
    }

    /// The draft, with octets of its own.
    pub(crate) fn to_draft(&self, alloc: Global) -> Result<Draft, AllocError>
        requires fits { Fits draft 32 (view_spans self.now) }
        requires short { length (spelling draft (view_spans self.now)) < 2 ^ 63 }
        ensures { IfOk result (λ d. view_draft d ≡ view_spans self.now) }
    {
        let info = copied(alloc, self.info)?;
        let digest = copied(alloc, self.imprint.digest)?;
        let policy = copied_if(alloc, self.policy)?;
        let req_signature = copied_if(alloc, self.req_signature)?;
        let certs = copied_if(alloc, self.certs)?;
        Ok(Draft {
            info,
            imprint: Imprint {
                kind: self.imprint.kind,
                with_null: self.imprint.with_null,
                digest,
            },
            time: self.time,
            status: self.status,
            policy,
            req_signature,
            certs,
        })
    }
}

/// The whole octets of a DVCSRequestInformation (RFC 3029 7.6).
#[tactic(auto, unfolding(dv_schema::specs::Reading::read))]
fn read_information<'a>(c: &mut Cursor<'a>) -> Result<&'a [u8], Der>
    ensures { Reads (λ x. x.now) result c.old c.new (read (raw request_information) c.old) }
{
    let mut next = c.fork();
    match RequestInfo::read(&mut next) {
        Err(refusal) => Err(refusal),
        Ok(_) => {
            let octets = c.up_to(&next);
            *c = next;
            Ok(octets)
        }
    }
}

/// The contents octets of a PolicyInformation, where its tag is there.
fn read_optional_policy<'a>(c: &mut Cursor<'a>) -> Result<Option<&'a [u8]>, Der>
    ensures { Reads option_copied result c.old c.new
        (maybe_at (starts_list (is_tag_of 161) c.old.rest) c.old (read kept_policy c.old)) }
{
    if c.next_is(POLICY) {
        Ok(Some(read_policy(c)?))
    } else {
        Ok(None)
    }
}

/// The contents octets of a PolicyInformation (RFC 5280 4.2.1.4).
#[tactic(auto, unfolding(dv_schema::specs::Reading::read))]
fn read_policy<'a>(c: &mut Cursor<'a>) -> Result<&'a [u8], Der>
    ensures { Reads (λ x. x.now) result c.old c.new (read kept_policy c.old) }
{
    let mut next = c.fork();
    PolicyInfo::read_under(&mut next, POLICY)?;
    let inside = c.enter(POLICY)?;
    Ok(inside.rest())
}

/// A copy of octets.
fn copied(alloc: Global, octets: &[u8]) -> Result<Octets, AllocError>
    ensures { IfOk result (λ o. o ≡ octets.now) }
{
    Ok(Octets::new(octets.to_vec(alloc)?))
}

/// A copy of octets, where there are some.
fn copied_if(alloc: Global, octets: Option<&[u8]>) -> Result<Option<Octets>, AllocError>
    ensures { IfOk result (λ o. o ≡ option_copied octets.entry) }
{
    match octets {
        None => Ok(None),
        Some(octets) => Ok(Some(copied(alloc, octets)?)),
    }
}
