//! Additions to the history, each of which names the event that it adds.
ghost use Rattle.std.specs.Prelude.{◌≡◌, ◌-◌, ◌^◌, ◌<◌, ◌++◌, ◌∷◌, [], true, false, length};
ghost use Rattle.dv_passes.specs.declared.view.Event.TheVariants.{Reserved, Put, Stopped};
ghost use Rattle.dv_shared.specs.Calls.{Adds};
ghost use Rattle.dv_shared.specs.Stands.{gone_out};

use crate::origin::Origin;
use dv_outside::{Releases, Station};
use dv_passes::{Adds, Begins, History, Naming, Pass, Turn};
use dv_register::Register;
use std::marker::Brand;
use std::snapshot::Snapshot;

// Shows a pass the whole history.
pub(crate) fn look<J: Naming, K: Begins>(
    turn: &mut Turn<J>,
    history: &History<J, K>,
    pass: Pass<J>,
) -> Pass<J>
    ensures turn { turn.new ≡ turn.old }
    ensures pass { Adds J.start pass turn.old [] result }
{
    turn.show(history, pass)
}

// Adds an event.
fn add<E: Adds, J: Naming, K: Begins>(
    turn: &mut Turn<J>,
    history: &History<J, K>,
    pass: Pass<J>,
) -> Pass<J>
    requires { length turn.old < 2 ^ 64 - 1 }
    ensures turn { turn.new ≡ turn.old ++ E.event ∷ [] }
    ensures pass { Adds J.start pass turn.old (E.event ∷ []) result }
{
    turn.add::<E, K>(history, pass)
}

fn add_reserved_as<E: Adds, J: Naming, K: Begins>(
    turn: &mut Turn<J>,
    history: &History<J, K>,
    pass: Pass<J>,
    kind: u8,
    contents: &[u8],
) -> Pass<J>
    requires room { length turn.old < 2 ^ 64 - 1 }
    requires event { E.event ≡ Reserved kind contents.now }
    ensures turn { turn.new ≡ turn.old ++ Reserved kind contents.now ∷ [] }
    ensures pass { Adds J.start pass turn.old (Reserved kind contents.now ∷ []) result }
{
    add::<E, J, K>(turn, history, pass)
}

// Adds the reservation of a record.
pub(crate) fn add_reserved<J: Naming, K: Begins>(
    turn: &mut Turn<J>,
    history: &History<J, K>,
    pass: Pass<J>,
    kind: u8,
    contents: &[u8],
) -> Pass<J>
    requires { length turn.old < 2 ^ 64 - 1 }
    ensures turn { turn.new ≡ turn.old ++ Reserved kind contents.now ∷ [] }
    ensures pass { Adds J.start pass turn.old (Reserved kind contents.now ∷ []) result }
{
    add_reserved_as::<Brand, J, K>(turn, history, pass, kind, contents)
}

fn add_stopped_as<E: Adds, J: Naming, K: Begins>(
    turn: &mut Turn<J>,
    history: &History<J, K>,
    pass: Pass<J>,
) -> Pass<J>
    requires room { length turn.old < 2 ^ 64 - 1 }
    requires event { E.event ≡ Stopped }
    ensures turn { turn.new ≡ turn.old ++ Stopped ∷ [] }
    ensures pass { Adds J.start pass turn.old (Stopped ∷ []) result }
{
    add::<E, J, K>(turn, history, pass)
}

// Adds that the station failed in a reservation.
pub(crate) fn add_stopped<J: Naming, K: Begins>(
    turn: &mut Turn<J>,
    history: &History<J, K>,
    pass: Pass<J>,
) -> Pass<J>
    requires { length turn.old < 2 ^ 64 - 1 }
    ensures turn { turn.new ≡ turn.old ++ Stopped ∷ [] }
    ensures pass { Adds J.start pass turn.old (Stopped ∷ []) result }
{
    add_stopped_as::<Brand, J, K>(turn, history, pass)
}

fn add_put_as<E: Adds, J: Naming, K: Begins>(
    turn: &mut Turn<J>,
    history: &History<J, K>,
    pass: Pass<J>,
    octets: &[u8],
) -> Pass<J>
    requires room { length turn.old < 2 ^ 64 - 1 }
    requires event { E.event ≡ Put octets.now true }
    ensures turn { turn.new ≡ turn.old ++ Put octets.now true ∷ [] }
    ensures pass { Adds J.start pass turn.old (Put octets.now true ∷ []) result }
{
    add::<E, J, K>(turn, history, pass)
}

// Adds a put of which all octets went out.
pub(crate) fn add_put<J: Naming, K: Begins>(
    turn: &mut Turn<J>,
    history: &History<J, K>,
    pass: Pass<J>,
    octets: &[u8],
) -> Pass<J>
    requires { length turn.old < 2 ^ 64 - 1 }
    ensures turn { turn.new ≡ turn.old ++ Put octets.now true ∷ [] }
    ensures pass { Adds J.start pass turn.old (Put octets.now true ∷ []) result }
{
    add_put_as::<Brand, J, K>(turn, history, pass, octets)
}

fn add_cut_as<E: Adds, J: Naming, V: Station, P: Releases>(
    turn: &mut Turn<J>,
    history: &History<J, Origin<V, P>>,
    pass: Pass<J>,
    before: &Snapshot<Register<V, P>>,
    register: &Register<V, P>,
) -> Pass<J>
    requires room { length turn.old < 2 ^ 64 - 1 }
    requires event { E.event ≡ Put (gone_out (V.content before.now.value.station) (V.content register.now.station)) false }
    ensures turn { turn.new ≡ turn.old ++ Put (gone_out (V.content before.now.value.station) (V.content register.now.station)) false ∷ [] }
    ensures pass { Adds J.start pass turn.old (Put (gone_out (V.content before.now.value.station) (V.content register.now.station)) false ∷ []) result }
{
    add::<E, J, Origin<V, P>>(turn, history, pass)
}

// Adds a put that failed: what was sent since `before`.
pub(crate) fn add_cut<J: Naming, V: Station, P: Releases>(
    turn: &mut Turn<J>,
    history: &History<J, Origin<V, P>>,
    pass: Pass<J>,
    before: &Snapshot<Register<V, P>>,
    register: &Register<V, P>,
) -> Pass<J>
    requires { length turn.old < 2 ^ 64 - 1 }
    ensures turn { turn.new ≡ turn.old ++ Put (gone_out (V.content before.now.value.station) (V.content register.now.station)) false ∷ [] }
    ensures pass { Adds J.start pass turn.old (Put (gone_out (V.content before.now.value.station) (V.content register.now.station)) false ∷ []) result }
{
    add_cut_as::<Brand, J, V, P>(turn, history, pass, before, register)
}
