//! The DER values of moments.

ghost use Rattle.std.specs.Prelude.{◌≡◌, ◌<◌, ◌≤◌, length, drop, true, false, IfOk, MatchOption};
ghost use Rattle.dv_schema.specs.Schema.{spelling};
ghost use Rattle.dv_schema.specs.Reading.{read};
ghost use Rattle.dv_schema.specs.Answers.{Reads};
ghost use Rattle.dv_schema.specs.Types.{primitive};
ghost use Rattle.dv_asn1.specs.Writing.{room_of, Writes};
ghost use Rattle.dv_time.specs.Text.{first_late, is_late, is_utc, text_of};
ghost use Rattle.dv_time.specs.Types.{generalized_time, time};
ghost use Rattle.dv_time.specs.Views.{view_moment, view_time};

use crate::moment::Moment;
use crate::texts::{parse, parse_short, text};
use dv_asn1::{Cursor, Der, Why, Writer};

/// The tag of a UTCTime.
const UTC_TIME: u8 = 0x17;

/// The tag of a GeneralizedTime.
const GENERALIZED_TIME: u8 = 0x18;

/// 2050-01-01T00:00:00Z, from which on a Time is a GeneralizedTime, in seconds from 1950-01-01T00:00:00Z.
const FIRST_LATE: u64 = 3_155_760_000;

/// The moment of the GeneralizedTime at the cursor, `YYYYMMDDHHMMSSZ` of a civil date and time from 1950 on (X.690 11.7).
///
/// `Value` where its contents aren't such a text. After a refusal the cursor is where it was.
#[tactic(auto, unfolding(dv_schema::specs::Reading::read))]
pub fn read_generalized(c: &mut Cursor<'_>) -> Result<Moment, Der>
    ensures { Reads view_moment result c.old c.new (read generalized_time c.old) }
{
    let mut next = c.fork();
    let contents = next.read_tlv(GENERALIZED_TIME)?;
    match parse(contents) {
        None => Err(c.refusal(Why::Value)),
        Some(moment) => {
            *c = next;
            Ok(moment)
        }
    }
}

/// The moment of the Time at the cursor (RFC 5280 4.1.2.5): a UTCTime `YYMMDDHHMMSSZ`, whose year below 50 is 20yy and from
/// 50 on 19yy, or a GeneralizedTime from 2050 on.
///
/// `Value` where its contents aren't such a text, as for a GeneralizedTime before 2050. After a refusal the cursor is where
/// it was.
#[tactic(auto, unfolding(dv_schema::specs::Reading::read))]
pub fn read_time(c: &mut Cursor<'_>) -> Result<Moment, Der>
    ensures { Reads view_time result c.old c.new (read time c.old) }
{
    if c.next_is(UTC_TIME) {
        read_utc(c)
    } else {
        read_late(c)
    }
}

/// Reads a UTCTime.
#[tactic(auto, unfolding(dv_schema::specs::Reading::read))]
fn read_utc(c: &mut Cursor<'_>) -> Result<Moment, Der>
    ensures value { Reads (λ m. drop 2 (text_of m)) result c.old c.new (read (primitive 23 is_utc) c.old) }
    ensures early { IfOk result (λ m. m < first_late) }
{
    let mut next = c.fork();
    let contents = next.read_tlv(UTC_TIME)?;
    match parse_short(contents) {
        None => Err(c.refusal(Why::Value)),
        Some(moment) => {
            *c = next;
            Ok(moment)
        }
    }
}

/// Reads a GeneralizedTime from 2050 on.
#[tactic(auto, unfolding(dv_schema::specs::Reading::read))]
fn read_late(c: &mut Cursor<'_>) -> Result<Moment, Der>
    ensures value { Reads text_of result c.old c.new (read (primitive 24 is_late) c.old) }
    ensures late { IfOk result (λ m. first_late ≤ m) }
{
    let mut next = c.fork();
    let contents = next.read_tlv(GENERALIZED_TIME)?;
    match parse_late(contents) {
        None => Err(c.refusal(Why::Value)),
        Some(moment) => {
            *c = next;
            Ok(moment)
        }
    }
}

/// The moment from 2050 on that has this text; None exactly where no such moment has it.
fn parse_late(text: &[u8]) -> Option<Moment>
    ensures { MatchOption result (is_late text.now ≡ false)
        (λ m. (is_late text.now ≡ true) × (text_of m ≡ text.now) × (first_late ≤ m)) }
{
    match parse(text) {
        None => None,
        Some(moment) => {
            if moment.seconds() < FIRST_LATE {
                None
            } else {
                Some(moment)
            }
        }
    }
}

/// The whole value of the moment as a GeneralizedTime.
pub fn write_generalized(m: Moment) -> [u8; 17]
    ensures { result ≡ spelling generalized_time (view_moment m) }
{
    let mut value = [0; 17];
    value[0] = GENERALIZED_TIME;
    value[1] = 15;
    value[2..].copy_from_slice(&text(m));
    value
}

/// Writes the whole value of the moment as a Time: a UTCTime up to 2049, else a GeneralizedTime.
pub fn write_time(m: Moment, out: &mut Writer<'_>)
    requires { length (spelling time (view_time m)) ≤ room_of out.old }
    ensures { Writes out.old out.new (spelling time (view_time m)) }
{
    let text = text(m);
    if m.seconds() < FIRST_LATE {
        out.tlv(UTC_TIME, &text[2..]);
    } else {
        out.tlv(GENERALIZED_TIME, &text);
    }
}

/// How many octets the whole value of the moment has as a Time.
pub fn time_len(m: Moment) -> usize
    ensures { result ≡ length (spelling time (view_time m)) }
{
    if m.seconds() < FIRST_LATE { 15 } else { 17 }
}
