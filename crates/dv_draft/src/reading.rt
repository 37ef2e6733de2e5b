//! Reading the contents of records.

ghost use Rattle.std.specs.Prelude.{◌≡◌, Ok, Err, IfOk};
ghost use Rattle.dv_asn1.specs.Lists.{lists_of};
ghost use Rattle.dv_draft.specs.Records.{record_in};
ghost use Rattle.dv_draft.specs.Views.{view_draft};

use crate::certificates::read_certificates;
use crate::draft::Draft;
use crate::spans::DraftSpans;
use dv_asn1::{Cursor, Der};
use std::alloc::{AllocError, Global};
use thiserror::Error;

/// No memory is found for the parts of contents of more octets than this.
const CONTENTS_LIMIT: usize = 0x7FFF_FFFF_FFFF_FFFF;

/// Why contents weren't read.
#[derive(Clone, Copy, Debug, PartialEq, Eq, Error)]
pub enum ReadRecord {
    /// They are no record: the place and the reason of the first check that fails.
    #[error("the record is {0}")]
    Der(Der),
    /// There was no memory for what they hold.
    #[error("out of memory")]
    Memory,
}

impl From<Der> for ReadRecord {
    ghost use Rattle.std.specs.Prelude.{◌≡◌};
    ghost use Rattle.dv_draft.specs.declared.reading.ReadRecord.TheVariants.{Der as Refused};

    ghost from_gives = { λ d e. e ≡ Refused d };

    fn from(refusal: Der) -> ReadRecord {
        ReadRecord::Der(refusal)
    }
}

impl From<AllocError> for ReadRecord {
    ghost use Rattle.std.specs.Prelude.{◌≡◌};
    ghost use Rattle.dv_draft.specs.declared.reading.ReadRecord.TheVariants.{Memory};

    ghost from_gives = { λ _ e. e ≡ Memory };

    fn from(_failed: AllocError) -> ReadRecord {
        ReadRecord::Memory
    }
}

/// The draft and the certificates that contents hold, which are those of [`record_of`].
///
/// [`ReadRecord::Der`] comes exactly where no draft has such a record: the certificates are looked at first, one after
/// another, and then the draft. A certificate is refused where `Certificate::decode` refuses it under tag 30: at the place of
/// its refusal, or with `Value` at its own place where the cause is another one. A seventh certificate, and a list without
/// any, is `Value` at the list. An imprint whose algorithm isn't known, or whose digest hasn't the algorithm's length, is
/// `Value`, and so is a status with a text or with several failure bits.
pub fn read_record(alloc: Global, contents: &[u8]) -> Result<(Draft, Vec<Vec<u8>>), ReadRecord>
    ensures found { IfOk result (λ x. record_in contents.now ≡ Ok (lists_of x.1.items, view_draft x.0)) }
    ensures refused { (d : Der) → result ≡ Err (ReadRecord.Der d) → record_in contents.now ≡ Err d }
{
    if contents.len() > CONTENTS_LIMIT {
        return Err(ReadRecord::Memory);
    }
    let mut c = Cursor::new(contents);
    let certificates = read_certificates(alloc, &mut c)?;
    let _octets = c.fork();
    let spans = match DraftSpans::read_whole(&mut c) {
        Ok(spans) => spans,
        Err(refusal) => return Err(ReadRecord::Der(refusal)),
    };
    let draft = spans.to_draft(alloc)?;
    Ok((draft, certificates))
}

#[cfg(test)]
mod tests;
