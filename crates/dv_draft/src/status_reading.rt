//! Reading the status of a draft.

ghost use Rattle.std.specs.Prelude.{◌≡◌, ◌≤◌, false, true, MatchOption, Ok, option_map};
ghost use Rattle.dv_schema.specs.Answers.{Reads};
ghost use Rattle.dv_schema.specs.Octets.{is_one_of};
ghost use Rattle.dv_schema.specs.Reading.{is_tag_of, maybe_at, read, starts_list};
ghost use Rattle.dv_status.specs.Fail.{fail_octets};
ghost use Rattle.dv_status.specs.Views.{view_status as view_info};
ghost use Rattle.dv_draft.specs.Parts.{view_status};
ghost use Rattle.dv_draft.specs.Types.{is_plain, one_bit, one_bits, plain_status};

use crate::service_status::Status;
use dv_asn1::{Cursor, Der, Why};
use dv_status::{FailBits, StatusInfo};

/// The tag of the status.
const STATUS: u8 = 0xA0;

/// How many failure bits there are.
const FAIL_BITS: u8 = 27;

/// Reads a status, where its tag is there.
///
/// `Value` at it where it has a text, or several failure bits.
pub(crate) fn read_optional_status(c: &mut Cursor<'_>) -> Result<Option<Status>, Der>
    ensures { Reads (option_map view_status) result c.old c.new
        (maybe_at (starts_list (is_tag_of 160) c.old.rest) c.old (read plain_status c.old)) }
{
    if c.next_is(STATUS) {
        Ok(Some(read_status(c)?))
    } else {
        Ok(None)
    }
}

/// Reads a status.
fn read_status(c: &mut Cursor<'_>) -> Result<Status, Der>
    ensures { Reads view_status result c.old c.new (read plain_status c.old) }
{
    let mut next = c.fork();
    let info = match StatusInfo::read_under(&mut next, STATUS) {
        Ok(info) => info,
        Err(refusal) => return Err(refusal),
    };
    match plain_of(&info) {
        None => Err(c.refusal(Why::Value)),
        Some(status) => {
            *c = next;
            Ok(status)
        }
    }
}

/// The status of a draft that a PKIStatusInfo is; None exactly where it has a text, or several failure bits.
fn plain_of(info: &StatusInfo<'_>) -> Option<Status>
    ensures { MatchOption result (is_plain (Ok (view_info info.now)) ≡ false)
        (λ s. (is_plain (Ok (view_info info.now)) ≡ true) × (view_status s ≡ view_info info.now)) }
{
    if info.text.is_some() {
        return None;
    }
    match info.fail {
        None => Some(Status {
            status: info.status,
            bit: None,
        }),
        Some(fail) => match bit_of(fail) {
            None => None,
            Some(bit) => Some(Status {
                status: info.status,
                bit: Some(bit),
            }),
        },
    }
}

/// The one failure bit that is among these; None exactly where there are several.
fn bit_of(fail: FailBits) -> Option<u8>
    ensures { MatchOption result (is_one_of (one_bits 27) (fail_octets fail) ≡ false)
        (λ b. (b ≤ 26) × (fail_octets fail ≡ one_bit b)) }
{
    for bit in 0..FAIL_BITS {
        if fail == FailBits::of(bit) {
            return Some(bit);
        }
    }
    None
}
