//! The time that a request names.

ghost use Rattle.std.specs.Prelude.{option_map};
ghost use Rattle.dv_schema.specs.Schema.{starts};
ghost use Rattle.dv_schema.specs.Reading.{maybe_at, read, starts_list};
ghost use Rattle.dv_schema.specs.Answers.{Reads};
ghost use Rattle.dv_request.specs.Information.{view_request_time};
ghost use Rattle.dv_request.specs.Types.{request_time};

use dv_asn1::{Cursor, Der};
use dv_time::{Moment, read_generalized};

/// A DVCSTime (RFC 3029 7.3).
#[derive(Clone, Copy, Debug)]
pub enum RequestTime<'a> {
    /// A moment.
    At(Moment),
    /// A time stamp token, as its whole octets: one well-formed SEQUENCE.
    Token(&'a [u8]),
}

impl<'a> RequestTime<'a> {
    /// Reads a time, where the tag of one is there.
    #[tactic(auto, unfolding(dv_schema::specs::Reading::read))]
    pub(crate) fn read_optional(c: &mut Cursor<'a>) -> Result<Option<RequestTime<'a>>, Der>
        ensures { Reads (option_map view_request_time) result c.old c.new
            (maybe_at (starts_list (starts request_time) c.old.rest) c.old (read request_time c.old)) }
    {
        if c.next_is(0x18) {
            return match read_generalized(c) {
                Ok(moment) => Ok(Some(RequestTime::At(moment))),
                Err(refusal) => Err(refusal),
            };
        }
        if c.next_is(0x30) {
            let octets = c.skip_one_of(&[0x30])?;
            return Ok(Some(RequestTime::Token(octets)));
        }
        Ok(None)
    }
}
