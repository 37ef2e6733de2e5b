//! A content type and its content.

ghost use Rattle.std.specs.Prelude.{◌≡◌, ◌≤◌, ◌<◌, ◌+◌, ◌^◌, length};
ghost use Rattle.dv_schema.specs.Schema.{spelling};
ghost use Rattle.dv_schema.specs.Reading.{read, read_all};
ghost use Rattle.dv_schema.specs.Answers.{Gives, Reads};
ghost use Rattle.dv_schema.specs.Decodes.{Decodes, DecodesAll, HasSpelling};
ghost use Rattle.dv_asn1.specs.Writing.{room_of, Writes};
ghost use Rattle.dv_cms.specs.Types.{content_info, content_header};

use dv_asn1::{Cursor, Der, Writer, header_len};

/// The contents octets of id-signedData, 1.2.840.113549.1.7.2 (RFC 5652 5.1).
pub const SIGNED_DATA_TYPE: [u8; 9] = [42, 134, 72, 134, 247, 13, 1, 7, 2];

/// A ContentInfo (RFC 5652 3): the contents octets of the content type, and the content as one whole value.
#[derive(Clone, Copy, Debug)]
pub struct ContentInfo<'a> {
    pub oid: &'a [u8],
    pub content: &'a [u8],
    ghost spelled: { ∥ HasSpelling content_info (oid.now, ((content.now, tt), tt)) ∥₁ },
}

impl<'a> ContentInfo<'a> {
    ghost use Rattle.dv_cms.specs.Views.{view_content_info};

    /// The one ContentInfo that the octets are, with nothing after it; the content is any well-formed value.
    pub fn decode(bytes: &'a [u8]) -> Result<ContentInfo<'a>, Der>
        ensures { DecodesAll content_info view_content_info result
            (record { levels = 32; place = 0; rest = bytes.now }) }
    {
        let mut c = Cursor::new(bytes);
        let _octets = c.fork();
        ContentInfo::read_whole(&mut c)
    }

    /// The ContentInfo at the cursor, whatever follows it. After a refusal the cursor is where it was.
    pub fn decode_next(c: &mut Cursor<'a>) -> Result<ContentInfo<'a>, Der>
        ensures { Decodes content_info view_content_info result c.old c.new }
    {
        let _octets = c.fork();
        ContentInfo::read(c)
    }

    /// Reads a ContentInfo, and that nothing is left behind it.
    #[tactic(auto, unfolding(dv_schema::specs::Reading::read))]
    fn read_whole(c: &mut Cursor<'a>) -> Result<ContentInfo<'a>, Der>
        ensures { Gives view_content_info result (read_all content_info c.old) }
    {
        let read = ContentInfo::read(c)?;
        c.fork().finish()?;
        Ok(read)
    }

    /// Reads a ContentInfo.
    #[tactic(auto, unfolding(dv_schema::specs::Reading::read))]
    fn read(c: &mut Cursor<'a>) -> Result<ContentInfo<'a>, Der>
        ensures { Reads view_content_info result c.old c.new (read content_info c.old) }
    {
        let mut next = c.fork();
        let mut inside = next.enter(0x30)?;
        let oid = inside.read_oid()?;
        let mut explicit = inside.enter(0xA0)?;
        let content = explicit.skip_value()?;
        explicit.finish()?;
        inside.finish()?;
        *c = next;
        Ok(ContentInfo { oid, content })
    }

    /// How many octets the whole value has.
    pub fn encoded_len(&self) -> usize
        ensures { result ≡ length (spelling content_info (view_content_info self.now)) }
    {
        content_header_len(self.oid, self.content.len()) + self.content.len()
    }

    /// Writes the whole value.
    pub fn write(&self, out: &mut Writer<'_>)
        requires { length (spelling content_info (view_content_info self.now)) ≤ room_of out.old }
        ensures { Writes out.old out.new (spelling content_info (view_content_info self.now)) }
    {
        write_content_header(self.oid, self.content.len(), out);
        out.bytes(self.content);
    }
}

/// How many octets of a ContentInfo of this type stand before a content of so many octets.
#[tactic(auto, unfolding(crate::specs::Types::content_header))]
pub fn content_header_len(oid: &[u8], content: usize) -> usize
    requires { length (content_header oid.now content) + content < 2 ^ 64 }
    ensures { result ≡ length (content_header oid.now content) }
{
    let tagged = header_len(content);
    let identifier = header_len(oid.len()) + oid.len();
    header_len(identifier + tagged + content) + identifier + tagged
}

/// Writes these octets; what is written next is the content.
#[tactic(auto, unfolding(crate::specs::Types::content_header))]
pub fn write_content_header(oid: &[u8], content: usize, out: &mut Writer<'_>)
    requires total { length (content_header oid.now content) + content < 2 ^ 64 }
    requires room { length (content_header oid.now content) ≤ room_of out.old }
    ensures { Writes out.old out.new (content_header oid.now content) }
{
    let tagged = header_len(content);
    let identifier = header_len(oid.len()) + oid.len();
    out.header(0x30, identifier + tagged + content);
    out.tlv(0x06, oid);
    out.header(0xA0, content);
}

#[cfg(test)]
mod tests;
