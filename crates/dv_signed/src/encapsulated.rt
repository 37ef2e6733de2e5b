//! The content of signed data, and where it stands.

ghost use Rattle.std.specs.Prelude.{◌≡◌, ◌+◌, IfOk, length, option_map};
ghost use Rattle.std.specs.Option.{option_copied};
ghost use Rattle.dv_schema.specs.Tlv.{tlv};
ghost use Rattle.dv_schema.specs.Types.{explicit, octet_string};
ghost use Rattle.dv_schema.specs.Reading.{is_tag_of, maybe_at, read, starts_list};
ghost use Rattle.dv_schema.specs.Answers.{Reads};
ghost use Rattle.dv_cms.specs.Types.{encapsulated};
ghost use Rattle.dv_signed.specs.Fields.{encapsulated_with};
ghost use Rattle.dv_signed.specs.Places.{octets_place_at, type_place_at};

use dv_asn1::{Cursor, Der};

/// The tag of a content.
const CONTENT: u8 = 0xA0;

/// An EncapsulatedContentInfo (RFC 5652 5.2).
#[derive(Clone, Copy)]
pub(crate) struct Encapsulated<'a> {
    /// The contents octets of the eContentType.
    pub(crate) content_type: &'a [u8],
    /// The place of the eContentType.
    pub(crate) type_place: u64,
    /// The octets of the content, where there is content.
    pub(crate) content: Option<&'a [u8]>,
    /// The place of the first of them.
    pub(crate) content_place: Option<u64>,
}

impl<'a> Encapsulated<'a> {
    /// Reads an encapContentInfo.
    #[tactic(auto, unfolding(dv_schema::specs::Reading::read))]
    pub(crate) fn read(c: &mut Cursor<'a>) -> Result<Encapsulated<'a>, Der>
        ensures read { Reads (λ e. encapsulated_with e.content_type.now (option_copied e.content))
            result c.old c.new (read encapsulated c.old) }
        ensures type_place { IfOk result (λ e. e.type_place
            ≡ type_place_at c.old.place (encapsulated_with e.content_type.now (option_copied e.content))) }
        ensures content_place { IfOk result (λ e. e.content_place
            ≡ octets_place_at (e.type_place + length (tlv 6 e.content_type.now)) (option_copied e.content)) }
    {
        let mut next = c.fork();
        let mut inside = next.enter(0x30)?;
        let type_place = inside.place();
        let content_type = inside.read_oid()?;
        let (content, content_place) = read_content(&mut inside)?;
        inside.finish()?;
        *c = next;
        Ok(Encapsulated {
            content_type,
            type_place,
            content,
            content_place,
        })
    }
}

/// Reads a content, where its tag is there: its octets, and the place of the first of them.
#[tactic(auto, unfolding(dv_schema::specs::Reading::read))]
fn read_content<'a>(c: &mut Cursor<'a>) -> Result<(Option<&'a [u8]>, Option<u64>), Der>
    ensures read { Reads (λ x. option_map (λ o. (o, tt)) (option_copied x.0)) result c.old c.new
        (maybe_at (starts_list (is_tag_of 160) c.old.rest) c.old
        (read (explicit 160 octet_string) c.old)) }
    ensures place { IfOk result (λ x. x.1 ≡ octets_place_at c.old.place (option_copied x.0)) }
{
    if !c.next_is(CONTENT) {
        return Ok((None, None));
    }
    let mut next = c.fork();
    let mut explicit = next.enter(CONTENT)?;
    let octets = explicit.enter_string(0x04)?;
    explicit.finish()?;
    *c = next;
    Ok((Some(octets.rest()), Some(octets.place())))
}
