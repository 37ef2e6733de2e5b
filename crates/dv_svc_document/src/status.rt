//! The status of a document.

ghost use Rattle.std.specs.Prelude.{◌≡◌, ◌≤◌, All, None, Some, if◌then◌else◌};
ghost use Rattle.std.specs.List.{list_all, list_any};
ghost use Rattle.std.specs.Option.{ForSome};
ghost use Rattle.dv_draft.specs.Parts.{status_of as status_of_bit, view_status};
ghost use Rattle.dv_svc_document.specs.Drafts.{is_good, status_from};

use crate::result::SignerResult;
use dv_draft::Status;
use dv_status::failure::BAD_MESSAGE_CHECK;

/// The status granted (RFC 4210 5.2.3).
const GRANTED: u8 = 0;

/// The status grantedWithMods.
const GRANTED_WITH_MODS: u8 = 1;

/// The status rejection.
const REJECTION: u8 = 2;

/// The status of a document with these results of its signers: granted where all of them have no failure bit, grantedWithMods
/// where some have none, and else rejection with the bit of the first. Without a signer it is rejection with badMessageCheck.
pub(crate) fn status_of(results: &[SignerResult]) -> Status
    requires { All (λ r. ForSome r.bit (λ b. b ≤ 26)) results.now }
    ensures { view_status result ≡ status_from results.now }
{
    match results.first() {
        None => rejection(BAD_MESSAGE_CHECK),
        Some(first) => status_with(first.bit, all_good(results), some_good(results)),
    }
}

/// The status of a document whose first signer has this failure bit, by whether all or some of its signers have none.
fn status_with(bit: Option<u8>, all_good: bool, some_good: bool) -> Status
    requires { ForSome bit (λ b. b ≤ 26) }
    ensures { view_status result ≡ (if all_good then status_of_bit 0 None else if some_good then status_of_bit 1 None else status_of_bit 2 bit) }
{
    if all_good {
        Status {
            status: GRANTED,
            bit: None,
        }
    } else if some_good {
        Status {
            status: GRANTED_WITH_MODS,
            bit: None,
        }
    } else {
        Status {
            status: REJECTION,
            bit,
        }
    }
}

/// The status rejection with a failure bit.
pub(crate) fn rejection(bit: u8) -> Status
    requires { bit ≤ 26 }
    ensures { view_status result ≡ status_of_bit 2 (Some bit) }
{
    Status {
        status: REJECTION,
        bit: Some(bit),
    }
}

/// Whether all of them have no failure bit.
fn all_good(results: &[SignerResult]) -> bool
    ensures { result ≡ list_all is_good results.now }
{
    results.iter().all(|found| found.bit.is_none())
}

/// Whether some of them have none.
fn some_good(results: &[SignerResult]) -> bool
    ensures { result ≡ list_any is_good results.now }
{
    results.iter().any(|found| found.bit.is_none())
}
