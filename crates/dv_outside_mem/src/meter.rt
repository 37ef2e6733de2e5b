//! How many calls a station may serve, and how many octets they may be handed.
ghost use Rattle.std.specs.Prelude.{◌≡◌, ◌↔◌, ◌+◌, ◌^◌, ◌<◌, ◌≤◌, IsTrue, Contains};
ghost use Rattle.dv_outside.specs.Station.{Amount, Within, Adds};
ghost use Rattle.dv_outside_mem.specs.Amount.{Past, CountsCall};
ghost use Rattle.dv_outside_mem.specs.Meter.{MeterState, IsServed};

use std::marker::Model;

/// What becomes of a call.
#[derive(Clone, Copy, Debug, PartialEq, Eq)]
pub enum Turn {
    /// It is past the room.
    Past,
    /// It is listed as one that fails.
    Fails,
    /// It works.
    Works,
}

/// The room of a station, what its calls used of it, and the numbers of the calls that fail, counted from 0.
#[derive(Drop)]
pub struct Meter {
    failing: Vec<u64>,
    calls: u64,
    octets: u64,
    room_calls: u64,
    room_octets: u64,
}

impl Model for Meter {
    ghost Value = { MeterState };

    ghost view = { λ m. record {
      failing = m.failing.items;
      used = record { calls = m.calls; octets = m.octets };
      room = record { calls = m.room_calls; octets = m.room_octets };
    } };

    ghost invariant = { λ m. (m.room_calls ≤ 2 ^ 32) × (m.room_octets ≤ 2 ^ 32) };
}

impl Meter {
    /// No call was made yet.
    pub fn new(failing: Vec<u64>, calls: u64, octets: u64) -> Meter
        requires few { calls ≤ 2 ^ 32 }
        requires short { octets ≤ 2 ^ 32 }
        ensures { result ≡ record { failing = failing.items; used = record { calls = 0; octets = 0 }; room = record { calls = calls; octets = octets } } }
    {
        Meter {
            failing,
            calls: 0,
            octets: 0,
            room_calls: calls,
            room_octets: octets,
        }
    }

    fn is_within(&self) -> bool
        ensures within { IsTrue result → Within self.now.used self.now.room }
        ensures past { ¬ IsTrue result → Past self.now.room self.now.used }
    {
        self.calls <= self.room_calls && self.octets <= self.room_octets
    }

    /// Counts a call that is handed this many octets, and says what becomes of it.
    pub fn enter(&mut self, len: usize) -> Turn
        requires { len < 2 ^ 63 }
        ensures counts { CountsCall self.old.room len self.old.used self.new.used }
        ensures adds { Adds 1 len self.old.used self.new.used }
        ensures failing { self.new.failing ≡ self.old.failing }
        ensures room { self.new.room ≡ self.old.room }
        ensures past { result ≡ Turn.Past → Past self.old.room self.new.used }
        ensures fails { result ≡ Turn.Fails →
            IsServed len self.old self.new × Contains self.old.failing self.old.used.calls }
        ensures works { result ≡ Turn.Works →
            IsServed len self.old self.new × (¬ Contains self.old.failing self.old.used.calls) }
    {
        if !self.is_within() {
            return Turn::Past;
        }
        let number = self.calls;
        self.calls += 1;
        self.octets += len as u64;
        if !self.is_within() {
            Turn::Past
        } else if self.failing.contains(&number) {
            Turn::Fails
        } else {
            Turn::Works
        }
    }
}
