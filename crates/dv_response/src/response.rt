//! What answers a request.

ghost use Rattle.std.specs.Prelude.{◌≡◌, Some};
ghost use Rattle.std.specs.Option.{option_copied};
ghost use Rattle.dv_schema.specs.Schema.{is_among, raw as raw_of, starts};
ghost use Rattle.dv_schema.specs.Reading.{maybe_at, read, read_all, starts_list};
ghost use Rattle.dv_schema.specs.Answers.{Gives, Reads};
ghost use Rattle.dv_schema.specs.Decodes.{DecodesAll, HasSpelling};
ghost use Rattle.dv_names.specs.Types.{general_name, general_tags};
ghost use Rattle.dv_response.specs.Parts.{refused};
ghost use Rattle.dv_response.specs.Types.{error_notice, response};

use crate::cert_info::CertInfo;
use dv_asn1::{Cursor, Decode, Der};
use dv_names::GeneralName;
use dv_status::StatusInfo;

/// The tag of a notice.
const NOTICE: u8 = 0xA0;

/// A DVCSErrorNotice (RFC 3029 9.2).
#[derive(Clone, Copy, Debug)]
pub struct Notice<'a> {
    pub status: StatusInfo<'a>,
    /// The transactionIdentifier, a GeneralName, as its whole octets.
    pub transaction: Option<&'a [u8]>,
    ghost spelled: { ∥ HasSpelling (error_notice 160) (refused status transaction) ∥₁ },
}

impl<'a> Decode<'a> for Notice<'a> {
    ghost use Rattle.dv_response.specs.Types.{error_notice};
    ghost use Rattle.dv_response.specs.Views.{view_notice};

    ghost schema = { error_notice 160 };

    ghost view = { view_notice };

    #[tactic(auto, unfolding(dv_schema::specs::Reading::read))]
    fn read(c: &mut Cursor<'a>) -> Result<Notice<'a>, Der> {
        let mut next = c.fork();
        let mut inside = next.enter(NOTICE)?;
        let status = match StatusInfo::read(&mut inside) {
            Ok(status) => status,
            Err(refusal) => return Err(refusal),
        };
        let transaction = read_transaction(&mut inside)?;
        inside.finish()?;
        *c = next;
        Ok(Notice {
            status,
            transaction,
        })
    }
}

/// A DVCSResponse (RFC 3029 9).
#[derive(Clone, Copy, Debug)]
pub enum Response<'a> {
    /// A certificate of service.
    Certified(CertInfo<'a>),
    /// A notice that there is none.
    Refused(Notice<'a>),
}

impl<'a> Decode<'a> for Response<'a> {
    ghost use Rattle.dv_response.specs.Types.{response};
    ghost use Rattle.dv_response.specs.ResponseView.{view_response};

    ghost schema = { response };

    ghost view = { view_response };

    #[tactic(auto, unfolding(dv_schema::specs::Reading::read))]
    fn read(c: &mut Cursor<'a>) -> Result<Response<'a>, Der> {
        if c.next_is(0x30) {
            return match CertInfo::read(c) {
                Ok(info) => Ok(Response::Certified(info)),
                Err(refusal) => Err(refusal),
            };
        }
        match Notice::read(c) {
            Ok(notice) => Ok(Response::Refused(notice)),
            Err(refusal) => Err(refusal),
        }
    }
}

impl<'a> Response<'a> {
    ghost use Rattle.dv_response.specs.ResponseView.{view_response};

    /// The one DVCSResponse that the octets are, with nothing after it.
    pub fn decode(content: &'a [u8]) -> Result<Response<'a>, Der>
        ensures { DecodesAll response view_response result
            (record { levels = 32; place = 0; rest = content.now }) }
    {
        let mut c = Cursor::new(content);
        let _octets = c.fork();
        Response::read_whole(&mut c)
    }

    /// Reads a response, and that nothing is left behind it.
    #[tactic(auto, unfolding(dv_schema::specs::Reading::read))]
    fn read_whole(c: &mut Cursor<'a>) -> Result<Response<'a>, Der>
        ensures { Gives view_response result (read_all response c.old) }
    {
        match Response::read(c) {
            Err(refusal) => Err(refusal),
            Ok(found) => match c.fork().finish() {
                Err(refusal) => Err(refusal),
                Ok(()) => Ok(found),
            },
        }
    }
}

/// Reads a transactionIdentifier, where the tag of a GeneralName is there.
#[tactic(auto, unfolding(dv_schema::specs::Reading::read))]
fn read_transaction<'a>(c: &mut Cursor<'a>) -> Result<Option<&'a [u8]>, Der>
    ensures { Reads option_copied result c.old c.new
        (maybe_at (starts_list (starts (raw_of general_name)) c.old.rest) c.old
        (read (raw_of general_name) c.old)) }
{
    if !begins_name(c) {
        return Ok(None);
    }
    let mut next = c.fork();
    GeneralName::read(&mut next)?;
    let raw = c.up_to(&next);
    *c = next;
    Ok(Some(raw))
}

/// Whether the next value has the tag of a GeneralName.
fn begins_name(c: &Cursor<'_>) -> bool
    ensures { result ≡ starts_list (is_among (Some general_tags)) c.now.rest }
{
    matches!(
        c.peek_tag(),
        Some(0xA0 | 0x81 | 0x82 | 0xA3 | 0xA4 | 0xA5 | 0x86 | 0x87 | 0x88)
    )
}

#[cfg(test)]
mod tests;
