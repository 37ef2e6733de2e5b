//! The serving loop.
ghost use Rattle.std.specs.Prelude.{◌≡◌, ◌<◌, ◌≤◌, ◌∷◌, [], false, OnOk, IfOk, IfErr, length};
ghost use Rattle.std.specs.List.{AllByRecursion};
ghost use Rattle.dv_outside.specs.Causes.{HasCause, Rose};
ghost use Rattle.dv_outside.specs.Source.{is_end};
ghost use Rattle.dv_asn1.specs.Lists.{lists_of};
ghost use Rattle.dv_cert.specs.Certificates.{MayLeave};
ghost use Rattle.dv_register.specs.State.{IsKept, IsSameRegister};
ghost use Rattle.dv_session.specs.Issuing.{book_of, notary_of};
ghost use Rattle.dv_session.specs.Requests.{IsRequest};
ghost use Rattle.dv_session.specs.Serving.{AnswersRequests, HasTaken, IsStop, read_octets, Serves};

use crate::framer::Framer;
use crate::issuing::{Desk, issue_one};
use dv_cert::NotaryRule;
use dv_outside::{Clock, Failed, Source, Station};
use dv_register::Register;
use dv_time::Moment;
use std::alloc::Global;

/// The most octets that a read asks for.
const READ_LIMIT: usize = 65_536;

/// The most octets that a run takes.
const INPUT_LIMIT: u64 = 1 << 40;

/// Why a run of the server ended.
#[derive(Clone, Copy, Debug, PartialEq, Eq)]
pub enum End {
    /// The input ended at a request's end.
    Input,
    /// A read failed.
    Read,
    /// A put failed.
    Put,
    /// A reservation met a fault of the register's file, which shut the register.
    Fault,
    /// The clock failed.
    Clock,
    /// There was not enough memory.
    Memory,
    /// The octets after the last request begin no request, or the input ended in them.
    Refused,
    /// The clock told a second past the year 9999.
    Range,
    /// As many octets were taken as a run may take.
    Limit,
}

/// Answers a request that is whole: asks the clock, and sends what the request gets at that moment.
fn answer_one<V: Station, C: Clock>(
    alloc: Global,
    request: &[u8],
    clock: &mut C,
    register: &mut Register<V, NotaryRule>,
    desk: &Desk,
) -> Result<(), End>
    requires key { register.old.identity ≡ desk.now.key }
    requires open { register.old.shut ≡ false }
    requires request { IsRequest request.now }
    requires kept { IsKept V.tells V.content V.counts MayLeave register.old }
    ensures answers { AnswersRequests (notary_of desk.now.server desk.now.trust register.old) (request.now ∷ []) result (C.told clock.old) (C.told clock.new)
        (book_of register.old) (book_of register.new) (V.tells register.old.station) (V.content register.old.station)
        (V.content register.new.station) }
    ensures ends { IfErr result IsStop }
    ensures open { OnOk result (register.new.shut ≡ false) }
    ensures clock_fault { result ≡ Err End.Clock → Rose (C.faults clock.old) (C.faults clock.new) }
    ensures put_fault { result ≡ Err End.Put → Rose (V.counts register.old.station).put_faults (V.counts register.new.station).put_faults }
    ensures fault { result ≡ Err End.Fault → Rose (V.counts register.old.station).faults (V.counts register.new.station).faults }
    ensures clock_later { C.faults clock.old ≤ C.faults clock.new }
    ensures put_later { (V.counts register.old.station).put_faults ≤ (V.counts register.new.station).put_faults }
    ensures later { (V.counts register.old.station).faults ≤ (V.counts register.new.station).faults }
    ensures kept { IsKept V.tells V.content V.counts MayLeave register.new }
    ensures same { IsSameRegister register.old register.new }
    ensures tells { V.tells register.new.station ≡ V.tells register.old.station }
{
    let Ok(second) = clock.now() else {
        return Err(End::Clock);
    };
    let Some(moment) = Moment::from_unix(second) else {
        return Err(End::Range);
    };
    let Ok(issued) = issue_one(alloc, register, request, moment, desk) else {
        return Err(End::Memory);
    };
    let Ok(()) = register.emit(&issued.octets) else {
        return Err(End::Put);
    };
    if register.is_shut() {
        return Err(End::Fault);
    }
    Ok(())
}

/// Answers the requests, in order, up to the first that ends the run.
fn answer_requests<V: Station, C: Clock>(
    alloc: Global,
    requests: &[Vec<u8>],
    clock: &mut C,
    register: &mut Register<V, NotaryRule>,
    desk: &Desk,
) -> Result<(), End>
    requires key { register.old.identity ≡ desk.now.key }
    requires open { register.old.shut ≡ false }
    requires requests { AllByRecursion IsRequest (lists_of requests.now) }
    requires kept { IsKept V.tells V.content V.counts MayLeave register.old }
    ensures answers { AnswersRequests (notary_of desk.now.server desk.now.trust register.old) (lists_of requests.now) result (C.told clock.old) (C.told clock.new)
        (book_of register.old) (book_of register.new) (V.tells register.old.station) (V.content register.old.station)
        (V.content register.new.station) }
    ensures ends { IfErr result IsStop }
    ensures open { OnOk result (register.new.shut ≡ false) }
    ensures clock_fault { result ≡ Err End.Clock → Rose (C.faults clock.old) (C.faults clock.new) }
    ensures put_fault { result ≡ Err End.Put → Rose (V.counts register.old.station).put_faults (V.counts register.new.station).put_faults }
    ensures fault { result ≡ Err End.Fault → Rose (V.counts register.old.station).faults (V.counts register.new.station).faults }
    ensures clock_later { C.faults clock.old ≤ C.faults clock.new }
    ensures put_later { (V.counts register.old.station).put_faults ≤ (V.counts register.new.station).put_faults }
    ensures later { (V.counts register.old.station).faults ≤ (V.counts register.new.station).faults }
    ensures kept { IsKept V.tells V.content V.counts MayLeave register.new }
    ensures same { IsSameRegister register.old register.new }
    ensures tells { V.tells register.new.station ≡ V.tells register.old.station }
{
    for request in requests {
        answer_one(alloc, request, clock, register, desk)?;
    }
    Ok(())
}

/// Reads at most `most` octets into the front of the buffer, and answers how many.
fn read_some<S: Source>(source: &mut S, buffer: &mut [u8], most: u64) -> Result<usize, Failed>
    requires some { 0 < most }
    requires room { 0 < length buffer.old }
    ensures bound { IfOk result (λ n. (n ≤ most) × (n ≤ length buffer.new)) }
    ensures content { HasTaken (S.left source.old) (S.left source.new) (read_octets result buffer.new) }
    ensures ended { S.ended source.new ≡ is_end result }
    ensures cause { HasCause (S.faults source.old) (S.faults source.new) result }
{
    let room = buffer.len().min(most as usize);
    source.read(&mut buffer[..room])
}

/// Serves the requests that the source gives, read piece by piece into the buffer.
fn serve_by<S: Source, V: Station, C: Clock>(
    alloc: Global,
    source: &mut S,
    clock: &mut C,
    register: &mut Register<V, NotaryRule>,
    desk: &Desk,
    buffer: &mut [u8],
) -> End
    requires key { register.old.identity ≡ desk.now.key }
    requires open { register.old.shut ≡ false }
    requires buffer { 0 < length buffer.old }
    requires kept { IsKept V.tells V.content V.counts MayLeave register.old }
    ensures run { Serves (notary_of desk.now.server desk.now.trust register.old) result (S.left source.old) (S.left source.new) (C.told clock.old) (C.told clock.new)
        (book_of register.old) (book_of register.new) (S.ended source.new) (V.tells register.old.station) (V.content register.old.station)
        (V.content register.new.station) }
    ensures read_fault { result ≡ End.Read → Rose (S.faults source.old) (S.faults source.new) }
    ensures clock_fault { result ≡ End.Clock → Rose (C.faults clock.old) (C.faults clock.new) }
    ensures put_fault { result ≡ End.Put → Rose (V.counts register.old.station).put_faults (V.counts register.new.station).put_faults }
    ensures fault { result ≡ End.Fault → Rose (V.counts register.old.station).faults (V.counts register.new.station).faults }
    ensures source_later { S.faults source.old ≤ S.faults source.new }
    ensures clock_later { C.faults clock.old ≤ C.faults clock.new }
    ensures put_later { (V.counts register.old.station).put_faults ≤ (V.counts register.new.station).put_faults }
    ensures later { (V.counts register.old.station).faults ≤ (V.counts register.new.station).faults }
    ensures kept { IsKept V.tells V.content V.counts MayLeave register.new }
    ensures same { IsSameRegister register.old register.new }
    ensures tells { V.tells register.new.station ≡ V.tells register.old.station }
{
    let mut framer = Framer::new(alloc);
    let mut taken = 0u64;
    while taken < INPUT_LIMIT {
        let n = match read_some(source, buffer, INPUT_LIMIT - taken) {
            Ok(0) if framer.rest() == 0 => return End::Input,
            Ok(0) => return End::Refused,
            Ok(n) => n,
            Err(_) => return End::Read,
        };
        taken += n as u64;
        let fed = match framer.feed(&buffer[..n]) {
            Ok(fed) => fed,
            Err(_) => return End::Memory,
        };
        match answer_requests(alloc, fed.requests.as_slice(), clock, register, desk) {
            Ok(()) => {}
            Err(end) => return end,
        }
        if fed.stop.is_some() {
            return End::Refused;
        }
    }
    End::Limit
}

/// Serves the requests that the source gives, until the source ends or fails, or gives what begins no request, or until no more
/// can be answered.
///
/// Requests are answered in order. The clock is asked once for each, after the request is whole; what it gets by
/// [`issue_one`] is one put, before more is read. No request is answered behind one whose reservation shut the register.
pub fn serve<S: Source, V: Station, C: Clock>(
    alloc: Global,
    source: &mut S,
    clock: &mut C,
    register: &mut Register<V, NotaryRule>,
    desk: &Desk,
) -> End
    requires key { register.old.identity ≡ desk.now.key }
    requires open { register.old.shut ≡ false }

    // What the run took, answered and sent, and how it ended.
    ensures run { Serves (notary_of desk.now.server desk.now.trust register.old) result (S.left source.old) (S.left source.new) (C.told clock.old) (C.told clock.new)
        (book_of register.old) (book_of register.new) (S.ended source.new) (V.tells register.old.station) (V.content register.old.station)
        (V.content register.new.station) }

    // What stands behind a fault.
    ensures read_fault { result ≡ End.Read → Rose (S.faults source.old) (S.faults source.new) }
    ensures clock_fault { result ≡ End.Clock → Rose (C.faults clock.old) (C.faults clock.new) }
    ensures put_fault { result ≡ End.Put → Rose (V.counts register.old.station).put_faults (V.counts register.new.station).put_faults }
    ensures fault { result ≡ End.Fault → Rose (V.counts register.old.station).faults (V.counts register.new.station).faults }
    ensures source_later { S.faults source.old ≤ S.faults source.new }
    ensures clock_later { C.faults clock.old ≤ C.faults clock.new }
    ensures put_later { (V.counts register.old.station).put_faults ≤ (V.counts register.new.station).put_faults }
    ensures later { (V.counts register.old.station).faults ≤ (V.counts register.new.station).faults }

    // The register is safe at every moment since its opening.
    ensures kept { IsKept V.tells V.content V.counts MayLeave register.new }
    ensures same { IsSameRegister register.old register.new }
    ensures tells { V.tells register.new.station ≡ V.tells register.old.station }
{
    // What holds of every register, `kept`, is known after this call.
    register.len();
    match vec![in alloc; 0u8; READ_LIMIT] {
        Ok(mut buffer) => serve_by(alloc, source, clock, register, desk, &mut buffer),
        Err(_) => End::Memory,
    }
}

#[cfg(test)]
mod tests;
