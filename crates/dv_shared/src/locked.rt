//! What lies under the lock: the register, and the turn, for whose history it stands.
ghost use Rattle.std.specs.Prelude.{◌≡◌, ◌≤◌, ◌∷◌, [], length, IsTrue, OnOk, IfOk};
ghost use Rattle.dv_register.specs.Layout.{IsKnownKind};
ghost use Rattle.dv_register.specs.State.{State, rule_identity};
ghost use Rattle.dv_shared.specs.Events.{records};
ghost use Rattle.dv_shared.specs.Calls.{Emits, Reserves};
ghost use Rattle.dv_shared.specs.Receipts.{IsReceipt};

use crate::adding::{add_cut, add_put, add_reserved, add_stopped, look};
use crate::origin::{NamesRegister, Origin};
use crate::receipt::{Receipt, SharedEmit, SharedReserve};
use dv_outside::{Releases, Station};
use dv_passes::{History, Pass, Turn};
use dv_register::{Register, Reserve};
use std::marker::Model;
use std::snapshot::Snapshot;

// From how many events on nothing is put, so that all reservations find room.
const MOST: u64 = 1 << 62;

/// A register under a lock, and the right to add to its history. It is seen as that history.
#[derive(Drop)]
pub struct Locked<J: NamesRegister<V>, V: Station, P: Releases> {
    pub(crate) register: Register<V, P>,
    pub(crate) turn: Turn<J>,
}

impl<J: NamesRegister<V>, V: Station, P: Releases> Model for Locked<J, V, P> {
    ghost use Rattle.std.specs.Prelude.{List};
    ghost use Rattle.dv_passes.specs.declared.view.Event.{Event};
    ghost use Rattle.dv_shared.specs.Stands.{IsLocked};

    ghost Value = { List Event };

    ghost view = { λ l. l.turn };

    ghost invariant = { λ l. IsLocked V.tells V.content V.counts J.origin l.turn l.register };
}

impl<J: NamesRegister<V>, V: Station, P: Releases> Locked<J, V, P> {
    // Reserves a record, for which room is made first.
    pub(crate) fn reserve(
        &mut self,
        history: &History<J, Origin<V, P>>,
        pass: Pass<J>,
        kind: u8,
        contents: &[u8],
    ) -> (Pass<J>, Result<Receipt, SharedReserve>)
        requires kind { IsKnownKind kind }
        requires short { length contents.now ≤ 1048576 }
        ensures call { (o : State V) → J.origin ≡ o ∷ [] → Reserves J.start o kind contents.now pass result.0 result.1 }
        ensures receipt { (o : State V) → J.origin ≡ o ∷ [] → IfOk result.1 (IsReceipt o kind contents.now result.0.seen) }
    {
        if self.register.prepare(contents.len()).is_err() {
            let pass = look(&mut self.turn, history, pass);
            return (pass, Err(SharedReserve::Memory));
        }
        match self.register.reserve(kind, contents) {
            Ok(slot) => {
                let pass = add_reserved(&mut self.turn, history, pass, kind, contents);
                let front = self.register.len();
                (pass, Ok(Receipt::new(slot, front)))
            }
            Err(Reserve::Full) => {
                let pass = look(&mut self.turn, history, pass);
                (pass, Err(SharedReserve::Full))
            }
            Err(Reserve::Shut) => {
                let pass = look(&mut self.turn, history, pass);
                (pass, Err(SharedReserve::Shut))
            }
            Err(Reserve::Fault) => {
                let pass = add_stopped(&mut self.turn, history, pass);
                (pass, Err(SharedReserve::Fault))
            }
        }
    }

    // Puts octets that are allowed under the records that the pass has seen.
    pub(crate) fn emit(
        &mut self,
        history: &History<J, Origin<V, P>>,
        pass: Pass<J>,
        octets: &[u8],
    ) -> (Pass<J>, Result<(), SharedEmit>)
        requires { (o : State V) → J.origin ≡ o ∷ [] → IsTrue (V.tells o.station)
            → P.allows (rule_identity o.identity) o.first (records pass.seen) octets.now }
        ensures { (o : State V) → J.origin ≡ o ∷ [] → Emits J.start (IsTrue (V.tells o.station)) octets.now pass result.0 result.1 }
    {
        let pass = look(&mut self.turn, history, pass);
        if self.turn.len() >= MOST {
            return (pass, Err(SharedEmit::Spent));
        }
        let before = Snapshot::of(&self.register);
        match self.register.emit(octets) {
            Ok(()) => {
                let pass = add_put(&mut self.turn, history, pass, octets);
                (pass, Ok(()))
            }
            Err(_) => {
                let pass = add_cut(&mut self.turn, history, pass, &before, &self.register);
                (pass, Err(SharedEmit::Failed))
            }
        }
    }
}
