//! Whole requests.

ghost use Rattle.std.specs.Prelude.{◌≡◌, ◌≤◌, ◌<◌, ◌^◌, ◌↔◌, IfOk, IfSome, IsNone, MatchOption, length, option_map, slice_get, Some};
ghost use Rattle.std.specs.Option.{option_copied};
ghost use Rattle.dv_schema.specs.Schema.{contents as contents_of, is_among, raw as raw_of, spelling, starts};
ghost use Rattle.dv_schema.specs.Fits.{Fits};
ghost use Rattle.dv_schema.specs.Reading.{maybe_at, read, read_all, starts_list};
ghost use Rattle.dv_schema.specs.Answers.{Gives, Reads};
ghost use Rattle.dv_schema.specs.Decodes.{DecodesAll, HasSpelling};
ghost use Rattle.dv_asn1.specs.Writing.{room_of, Writes};
ghost use Rattle.dv_names.specs.Types.{general_name, general_tags};
ghost use Rattle.dv_request.specs.DataView.{count_of, targets_of, view_data};
ghost use Rattle.dv_request.specs.InfoView.{view_info};
ghost use Rattle.dv_request.specs.TargetView.{links_of, view_target};
ghost use Rattle.dv_request.specs.Targets.{targets_in};
ghost use Rattle.dv_request.specs.Types.{dvcs_request, request_fields, target_chains};

use crate::data::Data;
use crate::info::RequestInfo;
use crate::target::TargetChain;
use dv_asn1::{Cursor, Decode, Der, Writer, header_len, member_at};
use dv_names::GeneralName;
use std::alloc::{AllocError, Global};

/// The depth of a DVCSRequest in a message: under a ContentInfo and its explicit tag.
const DEPTH: u8 = 3;

/// A DVCSRequest (RFC 3029 8).
#[derive(Clone, Copy, Debug)]
pub struct Request<'a> {
    pub info: RequestInfo<'a>,
    pub matter: Data<'a>,
    /// The transactionIdentifier, a GeneralName, as its whole octets.
    pub transaction: Option<&'a [u8]>,
    ghost spelled: { ∥ Fits dvcs_request 30 (view_info info, (view_data matter, (option_copied transaction, tt))) ∥₁ },
    ghost short: { length (spelling dvcs_request (view_info info, (view_data matter, (option_copied transaction, tt)))) < 2 ^ 32 },
    ghost counted: { count_of matter ≡ length (targets_of matter) },
}

impl<'a> Request<'a> {
    ghost use Rattle.dv_request.specs.RequestView.{view_request};

    /// The one DVCSRequest that the octets are, with nothing after it. Its outermost value is at depth 3, where a message
    /// holds it.
    pub fn decode(content: &'a [u8]) -> Result<Request<'a>, Der>
        requires { length content.now < 2 ^ 32 }
        ensures { DecodesAll dvcs_request view_request result
            (record { levels = 30; place = 0; rest = content.now }) }
    {
        let mut c = Cursor::at_depth(content, DEPTH);
        let _octets = c.fork();
        Request::read_whole(&mut c)
    }

    /// Reads a request, and that nothing is left behind it.
    #[tactic(auto, unfolding(dv_schema::specs::Reading::read))]
    fn read_whole(c: &mut Cursor<'a>) -> Result<Request<'a>, Der>
        requires short { length c.old.rest < 2 ^ 32 }
        requires levels { c.old.levels ≡ 30 }
        ensures { Gives view_request result (read_all dvcs_request c.old) }
    {
        match Request::read(c) {
            Err(refusal) => Err(refusal),
            Ok(request) => match c.fork().finish() {
                Err(refusal) => Err(refusal),
                Ok(()) => Ok(request),
            },
        }
    }

    /// Reads a request.
    #[tactic(auto, unfolding(dv_schema::specs::Reading::read))]
    fn read(c: &mut Cursor<'a>) -> Result<Request<'a>, Der>
        requires short { length c.old.rest < 2 ^ 32 }
        requires levels { c.old.levels ≡ 30 }
        ensures { Reads view_request result c.old c.new (read dvcs_request c.old) }
    {
        let mut next = c.fork();
        let mut inside = next.enter(0x30)?;
        let info = match RequestInfo::read(&mut inside) {
            Ok(info) => info,
            Err(refusal) => return Err(refusal),
        };
        let matter = Data::read(&mut inside)?;
        let transaction = read_transaction(&mut inside)?;
        inside.finish()?;
        *c = next;
        Ok(Request {
            info,
            matter,
            transaction,
        })
    }

    /// The target at an index, counted from 0; None exactly past the last one, and where the data are no targets.
    pub fn target(&self, i: u32) -> Option<TargetChain<'a>>
        ensures none { IsNone result ↔ (count_of self.now.matter ≤ i) }
        ensures target { option_map view_target result ≡ slice_get (targets_of self.now.matter) i }
        ensures links { IfSome result (λ t. t.chain ≡ length (links_of t)) }
    {
        match &self.matter {
            Data::Certs { raw, .. } => target_at(raw, i),
            _ => None,
        }
    }

    /// How many octets the whole value has.
    pub fn encoded_len(&self) -> usize
        ensures { result ≡ length (spelling dvcs_request (view_request self.now)) }
    {
        let contents = self.contents_len();
        header_len(contents) + contents
    }

    /// Writes the whole value.
    pub fn write(&self, out: &mut Writer<'_>)
        requires { length (spelling dvcs_request (view_request self.now)) ≤ room_of out.old }
        ensures { Writes out.old out.new (spelling dvcs_request (view_request self.now)) }
    {
        out.header(0x30, self.contents_len());
        out.bytes(self.info.raw);
        self.matter.write(out);
        if let Some(transaction) = self.transaction {
            out.bytes(transaction);
        }
    }

    /// The whole value. It takes one allocation, of the value's size.
    pub fn encode(&self, alloc: Global) -> Result<Vec<u8>, AllocError>
        ensures { IfOk result (λ v. v.items ≡ spelling dvcs_request (view_request self.now)) }
    {
        let mut octets = vec![in alloc; 0u8; self.encoded_len()]?;
        self.fill(&mut octets);
        Ok(octets)
    }

    /// Fills a slice of the value's size with it.
    fn fill(&self, into: &mut [u8])
        requires { length into.old ≡ length (spelling dvcs_request (view_request self.now)) }
        ensures { into.new ≡ spelling dvcs_request (view_request self.now) }
    {
        let mut out = Writer::new(into);
        self.write(&mut out);
    }

    fn contents_len(&self) -> usize
        ensures { result ≡ length (contents_of request_fields (view_request self.now)) }
    {
        let transaction = match self.transaction {
            None => 0,
            Some(transaction) => transaction.len(),
        };
        self.info.raw.len() + self.matter.encoded_len() + transaction
    }
}

/// Reads a transactionIdentifier, where the tag of a GeneralName is there.
#[tactic(auto, unfolding(dv_schema::specs::Reading::read))]
fn read_transaction<'a>(c: &mut Cursor<'a>) -> Result<Option<&'a [u8]>, Der>
    ensures { Reads option_copied result c.old c.new
        (maybe_at (starts_list (starts (raw_of general_name)) c.old.rest) c.old
        (read (raw_of general_name) c.old)) }
{
    if !begins_name(c) {
        return Ok(None);
    }
    let mut next = c.fork();
    GeneralName::read(&mut next)?;
    let raw = c.up_to(&next);
    *c = next;
    Ok(Some(raw))
}

/// Whether the next value has the tag of a GeneralName.
fn begins_name(c: &Cursor<'_>) -> bool
    ensures { result ≡ starts_list (is_among (Some general_tags)) c.now.rest }
{
    matches!(
        c.peek_tag(),
        Some(0xA0 | 0x81 | 0x82 | 0xA3 | 0xA4 | 0xA5 | 0x86 | 0x87 | 0x88)
    )
}

/// The target at an index of the whole value that lists targets; None exactly past the last one.
fn target_at<'a>(raw: &'a [u8], i: u32) -> Option<TargetChain<'a>>
    requires spelled { ∥ HasSpelling (raw_of (target_chains 160)) raw.now ∥₁ }
    requires short { length raw.now < 2 ^ 32 }
    ensures target { MatchOption result (length (targets_in raw.now) ≤ i)
        (λ t. slice_get (targets_in raw.now) i ≡ Some (view_target t)) }
    ensures links { IfSome result (λ t. t.chain ≡ length (links_of t)) }
{
    let mut whole = Cursor::new(raw);
    match whole.read_tlv(0xA0) {
        Err(_) => None,
        Ok(contents) => member_at::<TargetChain>(&Cursor::new(contents), i as u64),
    }
}

#[cfg(test)]
mod tests;
