//! Reading the contents of the records of own certificates.

ghost use Rattle.std.specs.Prelude.{◌≡◌, IfOk};
ghost use Rattle.std.specs.Str.{IsUtf8, is_utf8};
ghost use Rattle.dv_schema.specs.Answers.{Gives, Reads};
ghost use Rattle.dv_schema.specs.Decodes.{DecodesAll};
ghost use Rattle.dv_schema.specs.Reading.{read, read_all};
ghost use Rattle.dv_schema.specs.Types.{primitive};
ghost use Rattle.dv_draft.specs.OwnRecords.{own_record, view_own};

use dv_asn1::{Cursor, Der, Why};
use dv_time::read_generalized;
use dv_x509::OwnParts;
use std::str;

/// The tag of a UTF8String.
const UTF8_STRING: u8 = 0x0C;

/// The parts of an own certificate that contents hold, which are those of [`own_record`](crate::own_record), or the place and
/// the reason of the first check that fails.
///
/// A name that isn't UTF-8 is `Value`.
pub fn read_own_record<'a>(contents: &'a [u8]) -> Result<OwnParts<'a>, Der>
    ensures decoded { DecodesAll own_record view_own result
        (record { levels = 32; place = 0; rest = contents.now }) }
    ensures utf8 { IfOk result (λ p. IsUtf8 p.name.now) }
{
    let mut c = Cursor::new(contents);
    let _octets = c.fork();
    read_whole(&mut c)
}

/// Reads the record of an own certificate, and that nothing is left behind it.
#[tactic(auto, unfolding(dv_schema::specs::Reading::read))]
fn read_whole<'a>(c: &mut Cursor<'a>) -> Result<OwnParts<'a>, Der>
    ensures exact { Gives view_own result (read_all own_record c.old) }
    ensures utf8 { IfOk result (λ p. IsUtf8 p.name.now) }
{
    match read_parts(c) {
        Err(refusal) => Err(refusal),
        Ok(parts) => match c.fork().finish() {
            Err(refusal) => Err(refusal),
            Ok(()) => Ok(parts),
        },
    }
}

/// Reads the record of an own certificate.
#[tactic(auto, unfolding(dv_schema::specs::Reading::read))]
fn read_parts<'a>(c: &mut Cursor<'a>) -> Result<OwnParts<'a>, Der>
    ensures exact { Reads view_own result c.old c.new (read own_record c.old) }
    ensures utf8 { IfOk result (λ p. IsUtf8 p.name.now) }
{
    let mut next = c.fork();
    let mut inside = next.enter(0x30)?;
    let name = read_name(&mut inside)?;
    let from = read_generalized(&mut inside)?;
    let until = read_generalized(&mut inside)?;
    inside.finish()?;
    *c = next;
    Ok(OwnParts { name, from, until })
}

/// Reads a name. `Value` where it isn't UTF-8.
#[tactic(auto, unfolding(dv_schema::specs::Reading::read))]
fn read_name<'a>(c: &mut Cursor<'a>) -> Result<&'a [u8], Der>
    ensures exact { Reads (λ x. x.now) result c.old c.new (read (primitive 12 is_utf8) c.old) }
    ensures utf8 { IfOk result (λ n. IsUtf8 n.now) }
{
    let mut next = c.fork();
    let name = next.read_tlv(UTF8_STRING)?;
    match str::from_utf8(name) {
        Err(_) => Err(c.refusal(Why::Value)),
        Ok(_) => {
            *c = next;
            Ok(name)
        }
    }
}

#[cfg(test)]
mod tests;
