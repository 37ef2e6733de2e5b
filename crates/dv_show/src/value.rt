//! The values of a file, one after another.

ghost use Rattle.std.specs.Prelude.{◌≡◌, ◌≢◌, ◌<◌, ◌≤◌, ◌^◌, ◌++◌, List, ℕ, length, IfOk, IfSome, IsOk, IsOkAnd, OnOk, None};
ghost use Rattle.dv_cms.specs.Types.{signed_data_type};
ghost use Rattle.dv_show.specs.declared.shown.Shown.{Shown as Value};
ghost use Rattle.dv_show.specs.Values.{IsShown, IsValueOf};

use crate::content::{content_in, content_type};
use crate::shown::Shown;
use dv_asn1::{Cursor, Der, Why};
use dv_cms::{ContentInfo, SIGNED_DATA_TYPE};
use dv_signed::SignedData;

/// The place of the type in the ContentInfo that begins here.
fn type_place(c: &Cursor<'_>) -> u64 {
    match c.fork().enter(0x30) {
        Ok(inside) => inside.place(),
        Err(refusal) => refusal.place,
    }
}

/// The refusal of a content, its place counted as the cursor's; the cursor stands behind the content.
fn refusal_in(behind: &Cursor<'_>, content: &[u8], refusal: Der) -> Der
    requires { length content.now ≤ behind.now.place }
{
    moved(behind.place() - content.len() as u64, refusal)
}

/// A refusal whose place counts from this one.
fn moved(front: u64, refusal: Der) -> Der {
    Der::new(front.saturating_add(refusal.place), refusal.why)
}

/// What the signed data in a message are. `Value` at the type of their content where it is that of neither, and then at the
/// content where it is absent. A refusal's place counts from the front of the signed data.
fn signed_in<'a>(content: &'a [u8]) -> Result<Shown<'a>, Der>
    requires { length content.now < 2 ^ 32 }
    ensures found { IfOk result (λ value. IsValueOf value signed_data_type content.now) }
    ensures only { (value : Value) → IsValueOf value signed_data_type content.now → IsOk result }
{
    let signed = SignedData::decode(content)?;
    let Some(kind) = content_type(signed.content_type) else {
        return Err(Der::new(signed.type_place, Why::Value));
    };
    let (Some(octets), Some(place)) = (signed.content, signed.content_place) else {
        return Err(Der::new(signed.encap_place, Why::Value));
    };
    match content_in(kind, octets, true) {
        Ok(value) => Ok(value),
        Err(refusal) => Err(moved(place, refusal)),
    }
}

/// What a message holds, or None where its type is none that is shown; a refusal's place counts from the content.
fn value_in<'a>(message: &ContentInfo<'a>) -> Result<Option<Shown<'a>>, Der>
    requires { length message.now.content.now < 2 ^ 32 }
    ensures found { IfOk result (λ found. IfSome found (λ value. IsValueOf value message.now.oid.now message.now.content.now)) }
    ensures only { (value : Value) → IsValueOf value message.now.oid.now message.now.content.now
        → IsOkAnd result (λ found. found ≢ None) }
{
    if message.oid == SIGNED_DATA_TYPE.as_slice() {
        return match signed_in(message.content) {
            Ok(value) => Ok(Some(value)),
            Err(refusal) => Err(refusal),
        };
    }
    let Some(kind) = content_type(message.oid) else {
        return Ok(None);
    };
    match content_in(kind, message.content, false) {
        Ok(value) => Ok(Some(value)),
        Err(refusal) => Err(refusal),
    }
}

/// What the value that comes next is. After a refusal the cursor is where it was.
pub(crate) fn next_value<'a>(c: &mut Cursor<'a>) -> Result<Shown<'a>, Der>
    requires levels { c.old.levels ≡ 32 }
    requires short { length c.old.rest < 2 ^ 32 }
    ensures found { IfOk result (λ value. (octets : List ℕ) × IsShown value octets × (c.old.rest ≡ octets ++ c.new.rest)) }
    ensures only { (value : Value) (octets rest : List ℕ) → IsShown value octets → c.old.rest ≡ octets ++ rest
        → IsOk result × (c.new.rest ≡ rest) }
    ensures levels { c.new.levels ≡ c.old.levels }
    ensures shorter { OnOk result (length c.new.rest < length c.old.rest) }
{
    let mut next = c.fork();
    let message = match ContentInfo::decode_next(&mut next) {
        Ok(message) => message,
        Err(refusal) => return Err(refusal),
    };
    match value_in(&message) {
        Ok(Some(value)) => {
            *c = next;
            Ok(value)
        }
        Ok(None) => Err(Der::new(type_place(c), Why::Value)),
        Err(refusal) => Err(refusal_in(&next, message.content, refusal)),
    }
}
