//! The imprint of a draft that is read.

ghost use Rattle.std.specs.Prelude.{◌≡◌, length, false, true, MatchOption};
ghost use Rattle.dv_names.specs.Digest.{kind_of, length_of};
ghost use Rattle.dv_names.specs.Views.{view_algorithm, view_digest};
ghost use Rattle.dv_schema.specs.Answers.{Reads};
ghost use Rattle.dv_schema.specs.Reading.{read};
ghost use Rattle.dv_draft.specs.Types.{has_length, imprint};

use dv_asn1::{Cursor, Decode, Der, Why};
use dv_names::{DigestInfo, DigestKind, digest_kind};

/// An imprint whose digest is a span of the octets that it was read from.
#[derive(Clone, Copy)]
pub(crate) struct ImprintSpan<'a> {
    pub(crate) kind: DigestKind,
    /// Whether the algorithm has the parameters NULL; else it has none.
    pub(crate) with_null: bool,
    pub(crate) digest: &'a [u8],
    ghost sized: { length digest.now ≡ length_of kind },
}

impl<'a> ImprintSpan<'a> {
    ghost use Rattle.dv_draft.specs.Spans.{view_imprint_span};

    /// Reads an imprint.
    ///
    /// `Value` at it where the algorithm isn't known, or the digest hasn't the algorithm's length.
    pub(crate) fn read(c: &mut Cursor<'a>) -> Result<ImprintSpan<'a>, Der>
        ensures { Reads view_imprint_span result c.old c.new (read imprint c.old) }
    {
        let mut next = c.fork();
        let info = match DigestInfo::read(&mut next) {
            Ok(info) => info,
            Err(refusal) => return Err(refusal),
        };
        match ImprintSpan::of(&info) {
            None => Err(c.refusal(Why::Value)),
            Some(imprint) => {
                *c = next;
                Ok(imprint)
            }
        }
    }

    /// The imprint that a DigestInfo is; None exactly where its algorithm isn't known, or its digest hasn't the algorithm's
    /// length.
    fn of(info: &DigestInfo<'a>) -> Option<ImprintSpan<'a>>
        ensures { MatchOption result
            (has_length (kind_of (view_algorithm info.now.alg)) info.now.digest.now ≡ false)
            (λ i. (has_length (kind_of (view_algorithm info.now.alg)) info.now.digest.now ≡ true)
            × (view_imprint_span i ≡ view_digest info.now)) }
    {
        match digest_kind(&info.alg) {
            None => None,
            Some(kind) => {
                if info.digest.len() != kind.digest_len() {
                    return None;
                }
                Some(ImprintSpan {
                    kind,
                    with_null: info.alg.params.is_some(),
                    digest: info.digest,
                })
            }
        }
    }
}
