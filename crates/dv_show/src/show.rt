//! The lines for the values of a file.

ghost use Rattle.std.specs.Prelude.{◌≡◌, ◌≢◌, ◌<◌, ◌≤◌, ◌*◌, ◌^◌, List, ℕ, length, string_bytes, IfOk, IfErr};
ghost use Rattle.dv_show.specs.Show.{ShowOf};

use crate::line::push_line;
use crate::value::next_value;
use dv_asn1::{Cursor, Der};
use std::alloc::Global;

/// Why a file's values aren't shown.
#[derive(Clone, Copy, Debug, PartialEq, Eq)]
pub enum ShowFault {
    /// The first refusal of the file.
    Refused(Der),
    /// There wasn't enough memory for the text.
    Memory,
}

/// A line for each value in the octets, which are values one after another; octet 0A ends each line:
///
/// - `request SERVICE`, and ` signed` after it where the request is in signed data;
/// - `notice NAME`, with the name of the least failure bit that is set, `bit N` for one without a name, or `none`;
/// - `certificate SERVICE serial HEX time TIME imprint ALG HEX status STATUS`: the contents octets of the serial number in lower
///   case, the moment as `YYYYMMDDHHMMSSZ`, the algorithm as `sha256`, `sha384`, `sha512` or dotted (`wide` where an arc is past
///   2^64 - 1), the digest, and the status as `none`, `granted`, `grantedWithMods`, `rejection` or `other N`.
///
/// The text has at most four times as many octets as the file.
///
/// A refusal exactly where there is no value, or one that is none of these. Its place counts on in the octets, also inside signed
/// data: a message is read whole first, and then what it holds. `Value` at the type of a message that is none of the three, and at
/// the type of a signed content that is neither of the two; `Value` at an absent signed content; and `Tag` at a certificate of
/// service that isn't signed.
pub fn show_values(alloc: Global, octets: &[u8]) -> Result<String, ShowFault>
    requires { length octets.now < 2 ^ 32 }
    ensures shown { IfOk result (λ text. ShowOf octets.now (string_bytes text)) }
    ensures short { IfOk result (λ text. length (string_bytes text) ≤ 4 * length octets.now) }
    ensures refused { IfErr result (λ fault. fault ≢ ShowFault.Memory → (text : List ℕ) → ¬ ShowOf octets.now text) }
{
    let mut rest = Cursor::new(octets);
    let mut text = String::new(alloc);
    'values: loop {
        let value = match next_value(&mut rest) {
            Ok(value) => value,
            Err(refusal) => return Err(ShowFault::Refused(refusal)),
        };
        match push_line(alloc, &mut text, &value) {
            Ok(()) => {}
            Err(_) => return Err(ShowFault::Memory),
        }
        if rest.at_end() {
            return Ok(text);
        }
    }
}
