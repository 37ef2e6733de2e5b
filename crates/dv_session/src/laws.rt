//! Laws on what is sent over a run of calls of a station. Each is a function without a body: its contract is the law, and the
//! check proves it.
ghost use Rattle.std.specs.Prelude.{ℕ, List, [], ◌++◌, Ok, Err};
ghost use Rattle.dv_outside.specs.Station.{Keeps, Looks, Puts, Silent};
ghost use Rattle.dv_session.specs.Sending.{Sends, SendsCut};

use dv_outside::Station;

/// Before the first call nothing is sent.
pub fn nothing_sent<V: Station>()
    ensures { (at : V) → Sends [] (V.content at) (V.content at) }
{}

/// A silent call sends nothing more, so neither does one that only looks. A reservation keeps and is silent (`Leaves`).
pub fn silent_sends_nothing<V: Station>()
    ensures silent { (octets : List ℕ) (start old new : V) → Sends octets (V.content start) (V.content old)
        → Keeps (V.content old) (V.content new) → Silent (V.content old) (V.content new) → Sends octets (V.content start) (V.content new) }
    ensures looks { (octets : List ℕ) (start old new : V) → Sends octets (V.content start) (V.content old)
        → Looks (V.content old) (V.content new) → Sends octets (V.content start) (V.content new) }
{}

/// A put that succeeds sends its piece behind what was sent.
pub fn put_sends<V: Station, T, E>()
    ensures { (octets piece : List ℕ) (start old new : V) (value : T) → Sends octets (V.content start) (V.content old)
        → Puts {T = T} {E = E} piece (Ok value) (V.content old) (V.content new) → Sends (octets ++ piece) (V.content start) (V.content new) }
{}

/// A put that fails sends a front of its piece behind what was sent.
pub fn failed_put_sends_a_front<V: Station, T, E>()
    ensures { (octets piece : List ℕ) (start old new : V) (error : E) → Sends octets (V.content start) (V.content old)
        → Puts {T = T} {E = E} piece (Err error) (V.content old) (V.content new) → SendsCut octets piece (V.content start) (V.content new) }
{}
