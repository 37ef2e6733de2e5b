//! Headers of values, apart from what stands behind them.

ghost use Rattle.std.specs.Prelude.{◌≡◌, ◌∷◌, length};
ghost use Rattle.dv_schema.specs.Octets.{same_octets};
ghost use Rattle.dv_schema.specs.Tlv.{length_octets, tlv};

use dv_asn1::{Writer, header_len, same};

/// The most octets that a header has.
pub(crate) const HEADER_LIMIT: usize = 10;

/// Fills a slice with the header of a value whose contents have this many octets.
pub(crate) fn write_header(into: &mut [u8], tag: u8, contents: usize)
    requires { length into.old ≡ length (tag ∷ length_octets contents) }
    ensures { into.new ≡ tag ∷ length_octets contents }
{
    let mut out = Writer::new(into);
    out.header(tag, contents);
}

/// Whether the value is the one with this tag and these contents.
pub(crate) fn is_value(value: &[u8], tag: u8, contents: &[u8]) -> bool
    ensures { result ≡ same_octets value.now (tlv tag contents.now) }
{
    let mut head = [0; HEADER_LIMIT];
    let len = header_len(contents.len());
    if value.len() < len {
        return false;
    }
    write_header(&mut head[..len], tag, contents.len());
    let (front, rest) = value.split_at(len);
    same(front, &head[..len]) && same(rest, contents)
}
