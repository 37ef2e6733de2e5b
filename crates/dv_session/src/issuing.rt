//! What a request gets from a server with a register: a notice, or a certificate of service.

ghost use Rattle.std.specs.Prelude.{◌≡◌, ◌≢◌, ◌+◌, ◌<◌, ◌≤◌, ◌^◌, ◌++◌, ◌∷◌, [], ℕ, List, IfOk, OnErr, true, false, length, unwrap_or};
ghost use Rattle.std.specs.Option.{option_copied};
ghost use Rattle.dv_outside.specs.Causes.{Rose};
ghost use Rattle.dv_outside.specs.Releases.{Entry};
ghost use Rattle.dv_outside.specs.Station.{Leaves, Spends};
ghost use Rattle.dv_register.specs.Layout.{SoundFor};
ghost use Rattle.dv_register.specs.State.{head_in, IsKept, IsSameRegister, limit_in, rule_identity};
ghost use Rattle.dv_schema.specs.Schema.{ValueOf};
ghost use Rattle.dv_draft.specs.CertInfo.{cert_info_of};
ghost use Rattle.dv_draft.specs.Types.{draft as draft_type};
ghost use Rattle.dv_cert.specs.Certificates.{MayLeave, sealed_with};
ghost use Rattle.dv_cert.specs.Notice.{notice_of};
ghost use Rattle.dv_cert.specs.Notices.{IsTransaction};
ghost use Rattle.dv_cert.specs.Rooms.{IsRoomOf};
ghost use Rattle.dv_session.specs.Issuing.{book_of, bit_of_refusal, entry_for, IsGiven, notary_of, notice_for, view_issued};
ghost use Rattle.dv_answer.specs.Replies.{IsReply};

use dv_answer::{Reply, answer};
use dv_asn1::Writer;
use dv_cert::{NotaryRule, Room, notice_bytes, notice_len};
use dv_draft::reading_laws::records_are_read_again;
use dv_draft::{Answer, Draft, Server, record_of};
use dv_lms::Steps;
use dv_outside::Station;
use dv_path::Trust;
use dv_register::{Register, Reserve, SigningKey, Slot};
use dv_status::failure::{SYSTEM_FAILURE, SYSTEM_UNAVAIL};
use dv_time::Moment;
use std::alloc::{AllocError, Global};
use std::marker::Brand;
use std::sync::ledger::{Blank, Ledger};

/// The kind of a record of a certificate of service.
const SERVICE: u8 = 2;

/// What a server answers with: its certificates and its policy, its trust anchors, and the key of its register.
#[derive(Drop)]
pub struct Desk {
    pub server: Server,
    pub trust: Trust,
    pub key: SigningKey,
}

/// What a request is given.
#[derive(Debug, Drop)]
pub struct Issued {
    /// The octets that are sent: a certificate of service or a notice (RFC 3029 9), each a ContentInfo.
    pub octets: Vec<u8>,
    /// How many records the register has then.
    pub front: u32,
    /// The failure bit of a notice (RFC 4210 5.2.3).
    pub bit: Option<u8>,
    /// The serial number of a certificate.
    pub serial: Option<u64>,
}

/// What the octets of a message get at the moment of service.
///
/// Where [`answer`] makes a notice it is this notice, and the register stays as it is. For a draft a record is
/// reserved, and what is given is the certificate of that record, signed with its leaf; systemFailure where the register is
/// shut or the reservation meets a fault; systemUnavail where each leaf of the key has its record.
///
/// The memory for a certificate is taken before the reservation, so want of memory spends no leaf.
pub fn issue_one<V: Station>(
    alloc: Global,
    register: &mut Register<V, NotaryRule>,
    octets: &[u8],
    moment: Moment,
    desk: &Desk,
) -> Result<Issued, AllocError>
    requires key { register.old.identity ≡ desk.now.key }
    requires short { length octets.now ≤ 262_144 }

    ensures given { IfOk result (λ i. IsGiven (notary_of desk.now.server desk.now.trust register.old) moment octets.now (book_of register.old) (book_of register.new)
        (view_issued i)) }
    ensures front { IfOk result (λ i. i.front ≡ length register.new.list) }
    ensures unchanged { OnErr result (register.new.list ≡ register.old.list) }

    // What is given may leave.
    ensures allowed { IfOk result (λ i. MayLeave (rule_identity register.new.identity) register.new.first register.new.list i.octets.items) }

    // The register is shut by a fault of this call alone.
    ensures shut { register.old.shut ≡ true → register.new.shut ≡ true }
    ensures fault { register.old.shut ≡ false → register.new.shut ≡ true
        → Rose (V.counts register.old.station).faults (V.counts register.new.station).faults }

    ensures images { V.tells register.old.station ≡ true
        → Leaves (SoundFor (head_in register.old) (limit_in register.old) register.old.list) (V.content register.old.station)
        (V.content register.new.station) }
    ensures kept { IsKept V.tells V.content V.counts MayLeave register.new }
    ensures same { IsSameRegister register.old register.new }
    ensures tells { V.tells register.new.station ≡ V.tells register.old.station }
    ensures puts { (V.counts register.new.station).put_faults ≡ (V.counts register.old.station).put_faults }

    // At most 6 calls of the station, for 7 octets more than the contents that are reserved.
    ensures spends { (size : ℕ) × (size ≤ 1_048_576) × Spends 6 (size + 7) (V.counts register.old.station) (V.counts register.new.station)
        × ((entry : Entry) → register.new.list ≡ register.old.list ++ entry ∷ [] → size ≡ length entry.contents) }
{
    let front = register.len();
    let reply = reply_at::<Brand>(alloc, octets, moment, desk, Blank::new(1))?;
    match &reply.answer {
        Answer::Notice { bit } => noticed(alloc, &reply, *bit, front),
        Answer::Draft(draft) => issue(alloc, register, &reply, draft, desk),
    }
}

/// The reply to the octets of a message. The signatures that are verified for it are counted on a new ledger.
fn reply_at<L: Ledger>(
    alloc: Global,
    octets: &[u8],
    moment: Moment,
    desk: &Desk,
    blank: Blank,
) -> Result<Reply, AllocError>
    requires name { blank.name ≡ L.name }
    requires parts { blank.parts ≡ L.parts }
    requires some { 0 < blank.parts }
    requires short { length octets.now < 2 ^ 32 }
    ensures { IfOk result (IsReply octets.now moment desk.now.server desk.now.trust) }
{
    let mut checks = Steps::<L>::new(blank);
    answer(
        alloc,
        octets,
        moment,
        &desk.server,
        &desk.trust,
        &mut checks,
    )
}

/// The octets of the transactionIdentifier of a reply, where it has one.
fn transaction_of(reply: &Reply) -> Option<&[u8]>
    ensures { option_copied result ≡ reply.now.transaction }
{
    match &reply.transaction {
        None => None,
        Some(octets) => Some(octets.as_slice()),
    }
}

/// Fills a slice of its size with a notice.
fn fill(into: &mut [u8], transaction: Option<&[u8]>, bit: u8)
    requires bit { bit ≤ 26 }
    requires short { length (unwrap_or (option_copied transaction) []) < 2 ^ 32 }
    requires size { length into.old ≡ length (notice_of (unwrap_or (option_copied transaction) []) bit) }
    ensures { into.new ≡ notice_of (unwrap_or (option_copied transaction.entry) []) bit }
{
    let mut out = Writer::new(into);
    notice_bytes(transaction, bit, &mut out);
}

/// A notice with this failure bit, while the register has so many records.
fn noticed(alloc: Global, reply: &Reply, bit: u8, front: u32) -> Result<Issued, AllocError>
    requires bit { bit ≤ 26 }
    requires short { length (unwrap_or reply.now.transaction []) < 2 ^ 32 }
    ensures given { IfOk result (λ i. view_issued i ≡ notice_for reply.now bit) }
    ensures front { IfOk result (λ i. i.front ≡ front) }
{
    let transaction = transaction_of(reply);
    let mut octets = vec![in alloc; 0u8; notice_len(transaction, bit)]?;
    fill(&mut octets, transaction, bit);
    Ok(Issued {
        octets,
        front,
        bit: Some(bit),
        serial: None,
    })
}

/// The certificate of a draft, for which there is room, with the serial number of its slot and signed with its leaf. The register
/// has so many records then.
fn certified(room: Room, slot: Slot, key: &SigningKey, front: u32) -> Issued
    requires { slot.leaf.key ≡ key.now }
    ensures octets { (d : ValueOf draft_type) (certificates : List (List ℕ)) → IsRoomOf room d certificates
        → result.octets.items ≡ sealed_with key.now slot.leaf.number certificates (cert_info_of slot.serial d) }
    ensures bit { result.bit ≡ None }
    ensures serial { result.serial ≡ Some slot.serial }
    ensures front { result.front ≡ front }
{
    let mut room = room;
    let serial = slot.serial();
    let octets = room.to_sign(serial);
    let signature = key.sign(slot.into_leaf(), &octets);
    Issued {
        octets: room.finish(signature.as_slice()),
        front,
        bit: None,
        serial: Some(serial),
    }
}

/// The failure bit of a draft for which no record is reserved.
fn bit_of(refusal: Reserve) -> u8
    ensures { result ≡ bit_of_refusal refusal }
{
    match refusal {
        Reserve::Full => SYSTEM_UNAVAIL,
        Reserve::Shut | Reserve::Fault => SYSTEM_FAILURE,
    }
}

/// What a reply with a draft gets: the certificate of the record that is reserved for it, or a notice.
fn issue<V: Station>(
    alloc: Global,
    register: &mut Register<V, NotaryRule>,
    reply: &Reply,
    draft: &Draft,
    desk: &Desk,
) -> Result<Issued, AllocError>
    requires key { register.old.identity ≡ desk.now.key }
    requires answer { reply.now.answer ≡ Answer.Draft draft.now }
    requires carried { length (unwrap_or reply.now.transaction []) < 2 ^ 32 }
    requires short { length (entry_for desk.now.server draft.now).contents ≤ 1_048_576 }

    ensures given { (request : List ℕ) (moment : ℕ) → IsReply request moment desk.now.server desk.now.trust reply.now
        → IfOk result (λ i. IsGiven (notary_of desk.now.server desk.now.trust register.old) moment request (book_of register.old) (book_of register.new)
        (view_issued i)) }
    ensures front { IfOk result (λ i. i.front ≡ length register.new.list) }
    ensures unchanged { OnErr result (register.new.list ≡ register.old.list) }
    ensures allowed { IsTransaction (unwrap_or reply.now.transaction [])
        → IfOk result (λ i. MayLeave (rule_identity register.new.identity) register.new.first register.new.list i.octets.items) }
    ensures shut { register.old.shut ≡ true → register.new.shut ≡ true }
    ensures fault { register.old.shut ≡ false → register.new.shut ≡ true
        → Rose (V.counts register.old.station).faults (V.counts register.new.station).faults }
    ensures images { V.tells register.old.station ≡ true
        → Leaves (SoundFor (head_in register.old) (limit_in register.old) register.old.list) (V.content register.old.station)
        (V.content register.new.station) }
    ensures kept { IsKept V.tells V.content V.counts MayLeave register.new }
    ensures same { IsSameRegister register.old register.new }
    ensures tells { V.tells register.new.station ≡ V.tells register.old.station }
    ensures puts { (V.counts register.new.station).put_faults ≡ (V.counts register.old.station).put_faults }
    ensures spends { (size : ℕ) × (size ≤ 1_048_576) × Spends 6 (size + 7) (V.counts register.old.station) (V.counts register.new.station)
        × ((entry : Entry) → register.new.list ≡ register.old.list ++ entry ∷ [] → size ≡ length entry.contents) }
{
    let front = register.len();
    records_are_read_again();
    let contents = record_of(alloc, draft, &desk.server)?;
    let room = Room::new(alloc, draft, desk.server.certificates.as_slice())?;
    register.prepare(contents.len())?;
    match register.reserve(SERVICE, &contents) {
        Ok(slot) => Ok(certified(room, slot, &desk.key, register.len())),
        Err(refusal) => noticed(alloc, reply, bit_of(refusal), front),
    }
}

#[cfg(test)]
pub(crate) mod tests;
