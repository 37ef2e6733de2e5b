//! Certificates and what else stands for them.

ghost use Rattle.std.specs.Prelude.{◌≡◌};
ghost use Rattle.dv_schema.specs.Reading.{read};
ghost use Rattle.dv_schema.specs.Answers.{Passes, Reads};
ghost use Rattle.dv_request.specs.Types.{token};

use dv_asn1::{Cursor, Decode, Der, Member};
use dv_status::StatusInfo;

/// The tag of a certificate.
const CERTIFICATE: u8 = 0xA0;

/// The tag of a status.
const STATUS: u8 = 0xA2;

/// The tags of the tokens that are kept as one well-formed value, that of a revocation list first.
const OTHERS: [u8; 14] = [
    0xA4, 0x30, 0x81, 0x83, 0x85, 0x86, 0x87, 0x88, 0xA1, 0xA3, 0xA5, 0xA6, 0xA7, 0xA8,
];

/// A CertEtcToken (RFC 3029 7.5).
#[derive(Clone, Copy, Debug)]
pub enum Token<'a> {
    /// A certificate, as its whole octets under tag A0; its contents are well-formed values.
    Certificate(&'a [u8]),
    /// A status.
    Status(StatusInfo<'a>),
    /// Any other token, as its whole octets: one well-formed value.
    Other(&'a [u8]),
}

impl<'a> Decode<'a> for Token<'a> {
    ghost use Rattle.dv_request.specs.Types.{token};
    ghost use Rattle.dv_request.specs.PartViews.{view_token};

    ghost schema = { token };

    ghost view = { view_token };

    #[tactic(auto, unfolding(dv_schema::specs::Reading::read))]
    fn read(c: &mut Cursor<'a>) -> Result<Token<'a>, Der> {
        if c.next_is(CERTIFICATE) {
            let octets = c.skip_one_of(&[CERTIFICATE])?;
            return Ok(Token::Certificate(octets));
        }
        if c.next_is(STATUS) {
            return match StatusInfo::read_under(c, STATUS) {
                Ok(status) => Ok(Token::Status(status)),
                Err(refusal) => Err(refusal),
            };
        }
        let octets = c.skip_one_of(&OTHERS)?;
        Ok(Token::Other(octets))
    }
}

impl Member for Token<'_> {
    ghost use Rattle.dv_request.specs.Types.{token};

    ghost schema = { token };

    fn pass(c: &mut Cursor<'_>) -> Result<(), Der>
        ensures { Passes result c.old c.new (read token c.old) }
    {
        match Token::read(c) {
            Ok(_) => Ok(()),
            Err(refusal) => Err(refusal),
        }
    }
}
