//! The error notice.

ghost use Rattle.std.specs.Prelude.{◌≡◌, ◌+◌, ◌/◌, ◌^◌, ◌<◌, ◌≤◌, ◌++◌, [], length, unwrap_or, Option, List, ℕ};
ghost use Rattle.std.specs.Option.{option_copied};
ghost use Rattle.dv_schema.specs.Tlv.{tlv, length_octets, integer_octets};
ghost use Rattle.dv_asn1.specs.Writing.{room_of, Writes};
ghost use Rattle.dv_cert.specs.Notice.{one_bit, rejection_with, error_notice, notice_of, response_data_type};

use dv_asn1::{Writer, number_len, value_len};

/// The contents octets of id-ct-DVCSResponseData, 1.2.840.113549.1.9.16.1.8.
const RESPONSE_DATA_TYPE: [u8; 11] = [42, 134, 72, 134, 247, 13, 1, 9, 16, 1, 8];

const INTEGER: u8 = 2;

const BIT_STRING: u8 = 3;

const OBJECT_IDENTIFIER: u8 = 6;

const SEQUENCE: u8 = 0x30;

const CONTEXT_0: u8 = 0xA0;

/// The status rejection of a PKIStatusInfo (RFC 4210, section 5.2.3).
const REJECTION: u64 = 2;

/// Writes the BIT STRING with this one bit, and no bit behind it.
fn write_one_bit(out: &mut Writer<'_>, bit: u8)
    requires bit { bit ≤ 26 }
    requires room { length (tlv 3 (one_bit bit)) ≤ room_of out.old }
    ensures { Writes out.old out.new (tlv 3 (one_bit bit)) }
{
    let unused = 7 - bit % 8;
    let last = 1 << unused;
    match bit / 8 {
        0 => out.tlv(BIT_STRING, &[unused, last]),
        1 => out.tlv(BIT_STRING, &[unused, 0, last]),
        2 => out.tlv(BIT_STRING, &[unused, 0, 0, last]),
        _ => out.tlv(BIT_STRING, &[unused, 0, 0, 0, last]),
    }
}

/// How many contents octets the status of a notice has.
fn rejection_contents_len(bit: u8) -> usize
    requires { bit ≤ 26 }
    ensures octets { result ≡ length (tlv 2 (integer_octets 2) ++ tlv 3 (one_bit bit)) }
    ensures few { result ≤ 10 }
{
    value_len(number_len(REJECTION)) + value_len(2 + bit as usize / 8)
}

#[tactic(auto, unfolding(crate::specs::Notice::rejection_with))]
fn rejection_len(bit: u8) -> usize
    requires { bit ≤ 26 }
    ensures octets { result ≡ length (rejection_with bit) }
    ensures few { result ≤ 20 }
{
    value_len(rejection_contents_len(bit))
}

#[tactic(auto, unfolding(crate::specs::Notice::rejection_with))]
fn write_rejection(out: &mut Writer<'_>, bit: u8)
    requires bit { bit ≤ 26 }
    requires room { length (rejection_with bit) ≤ room_of out.old }
    ensures { Writes out.old out.new (rejection_with bit) }
{
    out.header(SEQUENCE, rejection_contents_len(bit));
    out.number(INTEGER, REJECTION);
    write_one_bit(out, bit);
}

/// A notice, before it is written.
#[derive(Clone, Copy)]
struct Notice<'a> {
    transaction: &'a [u8],
    bit: u8,
    ghost short: { length transaction.now < 2 ^ 32 },
    ghost bit_known: { bit ≤ 26 },
}

#[tactic(auto, unfolding(crate::specs::Notice::error_notice))]
impl Notice<'_> {
    fn contents_len(&self) -> usize
        ensures octets { result ≡ length (rejection_with self.now.bit ++ self.now.transaction.now) }
        ensures few { result ≤ length self.now.transaction.now + 20 }
    {
        rejection_len(self.bit) + self.transaction.len()
    }

    fn encoded_len(&self) -> usize
        ensures octets { result ≡ length (error_notice self.now.transaction.now self.now.bit) }
        ensures few { result ≤ length self.now.transaction.now + 30 }
    {
        value_len(self.contents_len())
    }

    fn write(&self, out: &mut Writer<'_>)
        requires { length (error_notice self.now.transaction.now self.now.bit) ≤ room_of out.old }
        ensures { Writes out.old out.new (error_notice self.now.transaction.now self.now.bit) }
    {
        out.header(CONTEXT_0, self.contents_len());
        write_rejection(out, self.bit);
        out.bytes(self.transaction);
    }
}

/// The notice of these parts. A transactionIdentifier that is absent has no octets.
fn notice_with(transaction: Option<&[u8]>, bit: u8) -> Notice<'_>
    requires bit { bit ≤ 26 }
    requires short { length (unwrap_or (option_copied transaction) []) < 2 ^ 32 }
    ensures transaction { result.transaction.now ≡ unwrap_or (option_copied transaction.entry) [] }
    ensures bit { result.bit ≡ bit }
{
    Notice {
        transaction: transaction.unwrap_or(&[]),
        bit,
    }
}

/// How many contents octets the ContentInfo of a notice has.
fn content_info_len(notice: &Notice<'_>) -> usize
    ensures octets { result ≡ length (tlv 6 response_data_type ++ tlv 160 (error_notice notice.now.transaction.now notice.now.bit)) }
    ensures few { result ≤ length notice.now.transaction.now + 60 }
{
    value_len(RESPONSE_DATA_TYPE.len()) + value_len(notice.encoded_len())
}

/// How many octets [`notice_bytes`] writes.
#[tactic(auto, unfolding(crate::specs::Notice::notice_of))]
pub fn notice_len(transaction: Option<&[u8]>, bit: u8) -> usize
    requires bit { bit ≤ 26 }
    requires short { length (unwrap_or (option_copied transaction) []) < 2 ^ 32 }
    ensures { result ≡ length (notice_of (unwrap_or (option_copied transaction.entry) []) bit) }
{
    value_len(content_info_len(&notice_with(transaction, bit)))
}

/// Writes the notice: the whole ContentInfo of type id-ct-DVCSResponseData that refuses a request with this failure bit
/// (RFC 4210, section 5.2.3), counted from 0 and at most 26. `transaction` is the request's transactionIdentifier, the
/// whole GeneralName, where the request has one.
#[tactic(auto, unfolding(crate::specs::Notice::notice_of))]
pub fn notice_bytes(transaction: Option<&[u8]>, bit: u8, out: &mut Writer<'_>)
    requires bit { bit ≤ 26 }
    requires short { length (unwrap_or (option_copied transaction) []) < 2 ^ 32 }
    requires room { length (notice_of (unwrap_or (option_copied transaction) []) bit) ≤ room_of out.old }
    ensures { Writes out.old out.new (notice_of (unwrap_or (option_copied transaction.entry) []) bit) }
{
    let notice = notice_with(transaction, bit);
    out.header(SEQUENCE, content_info_len(&notice));
    out.tlv(OBJECT_IDENTIFIER, &RESPONSE_DATA_TYPE);
    out.header(CONTEXT_0, notice.encoded_len());
    notice.write(out);
}

#[cfg(test)]
mod tests;
