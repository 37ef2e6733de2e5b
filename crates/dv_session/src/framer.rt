//! Makes requests of a stream that comes in pieces.

ghost use Rattle.std.specs.Prelude.{◌≡◌, ◌≢◌, ◌⊎◌, ◌+◌, ◌^◌, ◌≤◌, ℕ, List, [], ◌++◌, IsTrue, IfOk, OnOk, OnErr, IfSome, IfNone, length, if◌then◌else◌};
ghost use Rattle.dv_session.specs.declared.framer.Fed.{Fed};
ghost use Rattle.dv_session.specs.Requests.{HasNoHeader, Requests};
ghost use Rattle.dv_session.specs.Progress.{Progress, start, stop_of, Reads};
ghost use Rattle.dv_session.specs.Feeding.{requests_of, Feeds};
ghost use Rattle.dv_session.specs.Splitting.{IsBegun, Ends, Splits, rest_of};

use crate::front::{Front, joined_header};
use dv_asn1::OctetLists;
use std::alloc::{AllocError, Global};
use std::marker::Model;

/// What a piece of a stream gave.
#[derive(Debug, Drop)]
pub struct Fed {
    /// The requests that ended in the piece, in order.
    pub requests: OctetLists,
    /// Where the stream has stopped: the place in it, in octets, of the value that begins as no request does.
    pub stop: Option<u64>,
}

/// Makes requests of a stream that is fed to it in pieces.
///
/// Contracts see a framer as a `Progress`: how many octets the requests so far have, how many have come after them,
/// these octets themselves, and whether the stream has stopped.
#[derive(Debug, Drop)]
pub struct Framer {
    before: u64,
    behind: u64,
    rest: Vec<u8>,
    stopped: bool,
}

impl Model for Framer {
    ghost use Rattle.dv_session.specs.Progress.{Progress};

    ghost Value = { Progress };

    ghost use Rattle.dv_session.specs.Splitting.{progress_of, IsKept};

    ghost view = { progress_of };

    ghost invariant = { IsKept };
}

impl Framer {
    /// A framer at the start of a stream. It takes memory from `alloc` when it is fed.
    pub fn new(alloc: Global) -> Framer
        ensures { result ≡ start }
    {
        Framer {
            before: 0,
            behind: 0,
            rest: Vec::new(alloc),
            stopped: false,
        }
    }

    /// Takes the next piece of the stream, and gives the requests that end in it.
    ///
    /// Where the octets after the last request begin as no request does, the stream stops: this and every later call
    /// tell the place, and give no request that would come behind it. Want of memory leaves the framer as it was, so
    /// the piece can be fed again. However small the pieces are, each octet is copied a few times at most.
    pub fn feed(&mut self, piece: &[u8]) -> Result<Fed, AllocError>
        requires { self.old.before + self.old.behind + length piece.now ≤ 2 ^ 62 }
        ensures ok { IfOk result (λ fed. Feeds self.old piece.now fed self.new) }
        ensures err { OnErr result (self.new ≡ self.old) }

        // Each octet is counted once.
        ensures counted { OnOk result (self.new.before + self.new.behind
            ≡ self.old.before + self.old.behind + length piece.now) }

        // What is kept: less than a request, and nothing after a stop.
        ensures held { length self.new.rest ≤ 262143 }
        ensures dropped { IsTrue self.new.stopped → self.new.rest ≡ [] }
    {
        let alloc = *self.rest.allocator();
        if self.stopped {
            self.behind += piece.len() as u64;
            return Ok(Fed {
                requests: OctetLists::new(Vec::new(alloc)),
                stop: self.stop(),
            });
        }
        let split = split_requests(alloc, &self.rest, piece)?;
        keep(&mut self.rest, &split)?;
        let fed = self.before + self.behind + piece.len() as u64;
        self.behind = split.behind as u64;
        self.before = fed - self.behind;
        self.stopped = split.stops;
        Ok(Fed {
            requests: OctetLists::new(split.requests),
            stop: self.stop(),
        })
    }

    /// How many octets have been fed after the last whole request.
    pub fn rest(&self) -> u64
        ensures { result ≡ self.now.behind }
    {
        self.behind
    }

    /// Where the stream has stopped: the place in it, in octets, of the value that begins as no request does.
    pub fn stop(&self) -> Option<u64>
        ensures { result ≡ stop_of self.now }
    {
        if self.stopped {
            Some(self.before)
        } else {
            None
        }
    }
}

/// A stream has one split into requests and a rest.
pub fn one_split()
    ensures { (stream : List ℕ) (first second : List (List ℕ)) (rest other : List ℕ)
        → Requests stream first rest → Requests stream second other → (first ≡ second) × (rest ≡ other) }
{}

/// However a stream is cut, its pieces fed one after another give the requests of the whole stream: nothing read is the
/// empty stream, and a piece more is the stream with the piece at its end. Every octet of the stream is counted.
pub fn any_pieces()
    ensures none { Reads start [] [] }
    ensures more { (old new : Progress) (stream piece : List ℕ) (requests : List (List ℕ)) (fed : Fed)
        → Reads old stream requests → Feeds old piece fed new
        → Reads new (stream ++ piece) (requests ++ requests_of fed) }
    ensures octets { (progress : Progress) (stream : List ℕ) (requests : List (List ℕ))
        → Reads progress stream requests → progress.before + progress.behind ≡ length stream }
{}

// The requests that end in a piece of a stream, and what comes after them.
#[derive(Drop)]
struct Split<'a> {
    requests: Vec<Vec<u8>>,
    // The octets of the piece after the requests.
    ahead: &'a [u8],
    // How many octets come after the requests: where none has ended, also those that had begun one before the piece.
    behind: usize,
    // Whether these octets begin as no request does.
    stops: bool,
}

// Splits the octets of a request that has begun and then those of a piece.
fn split_requests<'a>(alloc: Global, begun: &[u8], piece: &'a [u8]) -> Result<Split<'a>, AllocError>
    requires { IsBegun begun.now }
    ensures { IfOk result (λ split. Splits begun.now piece.now split) }
{
    let mut requests = Vec::new(alloc);
    let mut begun = begun;
    let mut ahead = piece;
    while let Some(end) = end_of(begun, ahead) {
        let (last, behind) = ahead.split_at(end);
        requests.push(joined_octets(alloc, begun, last)?)?;
        begun = &[];
        ahead = behind;
    }
    Ok(Split {
        requests,
        ahead,
        behind: begun.len() + ahead.len(),
        stops: joined_header(begun, ahead) == Front::Bad,
    })
}

// Where a request that has begun ends in the octets that come behind it.
fn end_of(begun: &[u8], ahead: &[u8]) -> Option<usize>
    requires { IsBegun begun.now }
    ensures some { IfSome result (λ end. Ends begun.now ahead.now end) }
    ensures none { IfNone result (HasNoHeader (begun.now ++ ahead.now) ⊎ IsBegun (begun.now ++ ahead.now)) }
{
    let Front::Whole(total) = joined_header(begun, ahead) else {
        return None;
    };
    let end = total as usize - begun.len();
    if end <= ahead.len() { Some(end) } else { None }
}

// One vector of exactly these octets.
fn joined_octets(alloc: Global, first: &[u8], second: &[u8]) -> Result<Vec<u8>, AllocError>
    ensures { IfOk result (λ octets. octets.items ≡ first.now ++ second.now) }
{
    let mut octets = Vec::with_capacity(alloc, first.len() + second.len())?;
    octets.extend_from_slice(first)?;
    octets.extend_from_slice(second)?;
    Ok(octets)
}

// Keeps the octets that come after the requests of a split, and none where the stream stops.
fn keep(rest: &mut Vec<u8>, split: &Split<'_>) -> Result<(), AllocError>
    ensures ok { OnOk result (rest.new.items
        ≡ (if split.now.stops then [] else rest_of rest.old.items split.now)) }
    ensures err { OnErr result (rest.new.items ≡ rest.old.items) }
{
    let alloc = *rest.allocator();
    if split.stops {
        *rest = Vec::new(alloc);
    } else if split.requests.is_empty() {
        rest.extend_from_slice(split.ahead)?;
    } else {
        *rest = Vec::from_slice(alloc, split.ahead)?;
    }
    Ok(())
}

#[cfg(test)]
mod tests;
