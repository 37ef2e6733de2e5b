//! The reply to a message.

ghost use Rattle.std.specs.Prelude.{◌≡◌, ◌<◌, ◌≤◌, ◌+◌, ◌^◌, ℕ, IfOk, List, None, length};
ghost use Rattle.std.specs.Option.{option_copied};
ghost use Rattle.dv_cms.specs.Types.{signed_data_type};
ghost use Rattle.dv_request.specs.RequestView.{view_request};
ghost use Rattle.dv_path.specs.Anchors.{Anchored};
ghost use Rattle.dv_svc_document.specs.Documents.{checks_of};
ghost use Rattle.dv_answer.specs.Checks.{Checks, IsServiceLimit};
ghost use Rattle.dv_answer.specs.Messages.{IsInfoOf, IsMessageOf};
ghost use Rattle.dv_answer.specs.Replies.{IsAnswerOf, IsReply, SaysSame};
ghost use Rattle.dv_answer.specs.Signed.{document_in};
ghost use Rattle.dv_answer.specs.Steps.{is_vsd};

use crate::request::answer_to_request;
use crate::signed::Signatures;
use dv_asn1::Octets;
use dv_cms::{ContentInfo, SIGNED_DATA_TYPE};
use dv_draft::{Answer, Server};
use dv_lms::Steps;
use dv_path::Trust;
use dv_request::{REQUEST_DATA_TYPE, Request};
use dv_status::failure::BAD_DATA_FORMAT;
use dv_time::Moment;
use std::alloc::{AllocError, Global};
use std::sync::ledger::Ledger;

/// What is sent back to a request.
#[derive(Debug, Drop)]
pub struct Reply {
    pub answer: Answer,
    /// The transactionIdentifier of the request (RFC 3029 8), a GeneralName, as its whole octets; None where the request has
    /// none, or couldn't be read.
    pub transaction: Option<Octets>,
}

impl Reply {
    /// The notice badDataFormat, to octets whose request couldn't be read.
    fn unread() -> Reply
        ensures { (result.answer ≡ Answer.Notice 5) × (result.transaction ≡ None) }
    {
        Reply {
            answer: Answer::Notice {
                bit: BAD_DATA_FORMAT,
            },
            transaction: None,
        }
    }
}

/// The reply to the octets of a message (RFC 3029 8) at the moment of service.
///
/// The first of these steps that refuses it decides the failure bit (RFC 4210 5.2.3) of a notice. The octets aren't a
/// ContentInfo with a DVCSRequest or with a SignedData of one, or the SignedData has more than 8 signers or 16 certificates, or
/// a certificate that doesn't decode: badDataFormat. The version isn't 1, or the service and the data disagree: badRequest. The
/// requestTime is a token, or a document or certificates are to be validated at one that is later than the moment: badTime. The
/// request is for other servers: wrongAuthority, or asks for another policy: unacceptedPolicy. An extension is critical:
/// unacceptedExtension. The request is signed and has no signer: badMessageCheck, or one that isn't valid at the moment: badAlg,
/// signerNotTrusted or badMessageCheck, by the first such one. A claim of possession is refused: badAlg or badDataFormat, or
/// targets are: badRequest or badDataFormat. The server's certificate doesn't hold at the moment: timeNotAvailable. Where none
/// refuses it, the answer is the draft of its service.
///
/// Signatures are verified only for the signers of a request and for a document or certificates that are validated, and each is
/// counted.
pub fn answer<L: Ledger>(
    alloc: Global,
    octets: &[u8],
    moment: Moment,
    server: &Server,
    trust: &Trust,
    checks: &mut Steps<L>,
) -> Result<Reply, AllocError>
    requires { length octets.now < 2 ^ 32 }
    ensures reply { IfOk result (IsReply octets.now moment server.now trust.now) }
    ensures steps { Checks octets.now (length trust.now) checks.old checks.new }
{
    match ContentInfo::decode(octets) {
        Ok(message) => reply_to_message(alloc, &message, moment, server, trust, checks),
        Err(_) => Ok(Reply::unread()),
    }
}

/// A message at a moment has one reply of a server with its anchors.

pub fn one_reply()
    ensures { (octets : List ℕ) (moment : ℕ) (server : Server) (anchors : List Anchored) (said other : Reply)
        → IsReply octets moment server anchors said → IsReply octets moment server anchors other → SaysSame said other }
{}

/// The reply to a message of this type and content.
fn reply_to_message<L: Ledger>(
    alloc: Global,
    message: &ContentInfo<'_>,
    moment: Moment,
    server: &Server,
    trust: &Trust,
    checks: &mut Steps<L>,
) -> Result<Reply, AllocError>
    requires { length message.now.content.now < 2 ^ 32 }
    ensures reply { (octets : List ℕ) → IsInfoOf message.now.oid.now message.now.content.now octets
        → IfOk result (IsReply octets moment server.now trust.now) }
    ensures steps { (octets : List ℕ) → IsInfoOf message.now.oid.now message.now.content.now octets
        → Checks octets (length trust.now) checks.old checks.new }
{
    if message.oid == REQUEST_DATA_TYPE.as_slice() {
        return reply_to_content(alloc, message.content, None, moment, server, trust, checks);
    }
    if message.oid == SIGNED_DATA_TYPE.as_slice() {
        return reply_to_signed(alloc, message.content, moment, server, trust, checks);
    }
    Ok(Reply::unread())
}

/// The reply to a message of type id-signedData with this content.
fn reply_to_signed<L: Ledger>(
    alloc: Global,
    content: &[u8],
    moment: Moment,
    server: &Server,
    trust: &Trust,
    checks: &mut Steps<L>,
) -> Result<Reply, AllocError>
    requires { length content.now < 2 ^ 32 }
    ensures reply { (octets : List ℕ) → IsInfoOf signed_data_type content.now octets → IfOk result (IsReply octets moment server.now trust.now) }
    ensures steps { (octets : List ℕ) → IsInfoOf signed_data_type content.now octets → Checks octets (length trust.now) checks.old checks.new }
{
    match Signatures::read(alloc, content)? {
        None => Ok(Reply::unread()),
        Some(signatures) => {
            let inside = signatures.content;
            reply_to_content(
                alloc,
                inside,
                Some(&signatures),
                moment,
                server,
                trust,
                checks,
            )
        }
    }
}

/// The reply to the content of a request's message, with the signatures of a signed one.
fn reply_to_content<L: Ledger>(
    alloc: Global,
    content: &[u8],
    signatures: Option<&Signatures<'_>>,
    moment: Moment,
    server: &Server,
    trust: &Trust,
    checks: &mut Steps<L>,
) -> Result<Reply, AllocError>
    requires { length content.now < 2 ^ 32 }
    ensures reply { (octets : List ℕ) → IsMessageOf (document_in (option_copied signatures.entry)) content.now octets
        → IfOk result (IsReply octets moment server.now trust.now) }
    ensures steps { (octets : List ℕ) → IsMessageOf (document_in (option_copied signatures.entry)) content.now octets
        → Checks octets (length trust.now) checks.old checks.new }
{
    match Request::decode(content) {
        Ok(request) => {
            reply_to_request(alloc, &request, signatures, moment, server, trust, checks)
        }
        Err(_) => Ok(Reply::unread()),
    }
}

/// The reply to a request, with its signatures where it is signed.
fn reply_to_request<L: Ledger>(
    alloc: Global,
    request: &Request<'_>,
    signatures: Option<&Signatures<'_>>,
    moment: Moment,
    server: &Server,
    trust: &Trust,
    checks: &mut Steps<L>,
) -> Result<Reply, AllocError>
    ensures answer { IfOk result (λ r. IsAnswerOf server.now trust.now moment (document_in (option_copied signatures.entry)) (view_request request.now) r.answer) }
    ensures transaction { IfOk result (λ r. r.transaction ≡ option_copied request.now.transaction) }
    ensures steps { (limit : ℕ) → IsServiceLimit (is_vsd (view_request request.now)) (view_request request.now).1.0 (length trust.now) limit
        → checks.new ≤ checks.old + (checks_of (length trust.now) (document_in (option_copied signatures.entry)) + limit) }
{
    let transaction = copied(alloc, request.transaction)?;
    let answer = answer_to_request(alloc, request, signatures, moment, server, trust, checks)?;
    Ok(Reply {
        answer,
        transaction,
    })
}

/// A copy of octets, where there are some.
fn copied(alloc: Global, octets: Option<&[u8]>) -> Result<Option<Octets>, AllocError>
    ensures { IfOk result (λ o. o ≡ option_copied octets.entry) }
{
    match octets {
        None => Ok(None),
        Some(octets) => Ok(Some(Octets::new(octets.to_vec(alloc)?))),
    }
}

#[cfg(test)]
mod tests;
