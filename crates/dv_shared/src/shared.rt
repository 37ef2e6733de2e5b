//! The register that workers share, and the calls on it.
ghost use Rattle.std.specs.Prelude.{◌≡◌, ◌+◌, ◌-◌, ◌≤◌, ◌∷◌, [], length, IsTrue, IfOk, IfErr};
ghost use mathlib.Core.List.{IsPrefix};
ghost use Rattle.dv_register.specs.Layout.{IsKnownKind};
ghost use Rattle.dv_register.specs.State.{rule_identity};
ghost use Rattle.dv_passes.specs.History.{all_shares};
ghost use Rattle.dv_passes.specs.Known.{known};
ghost use Rattle.dv_passes.specs.Plays.{longer, merged};
ghost use Rattle.dv_shared.specs.Events.{records, first_events};
ghost use Rattle.dv_shared.specs.Calls.{Closes, Emits, Reserves};
ghost use Rattle.dv_shared.specs.Receipts.{IsReceipt};

use crate::adding::look;
use crate::locked::Locked;
use crate::origin::{NamesRegister, Origin};
use crate::receipt::{Receipt, SharedEmit, SharedReserve};
use dv_outside::{Releases, Station};
use dv_passes::{History, Pass, Unnamed};
use dv_register::Register;
use std::alloc::{AllocError, Global};
use std::marker::Model;
use std::snapshot::Snapshot;
use std::sync::{Mutex, Wait};

/// A register that is about to be shared. Its history has no name yet.
pub struct Unshared<V: Station, P: Releases> {
    history: Unnamed<Origin<V, P>>,
    register: Register<V, P>,
}

impl<V: Station, P: Releases> Model for Unshared<V, P> {
    ghost use Rattle.std.specs.Prelude.{◌≡◌};
    ghost use Rattle.dv_register.specs.State.{IsKept, State};
    ghost use Rattle.dv_passes.specs.Known.{Name};

    ghost Value = { Name (State V) };

    ghost view = { λ u. record { table = u.history.table; about = u.register } };

    ghost invariant = { λ u. (u.history.about.register.value ≡ u.register) × IsKept V.tells V.content V.counts P.allows u.register };
}

/// A register that workers share. It is seen as what the register was when it began to be shared.
pub struct SharedRegister<J: NamesRegister<V>, V: Station, P: Releases> {
    history: History<J, Origin<V, P>>,
    locked: Mutex<Locked<J, V, P>>,
}

impl<J: NamesRegister<V>, V: Station, P: Releases> Model for SharedRegister<J, V, P> {
    ghost use Rattle.std.specs.Prelude.{◌≡◌, [], ◌∷◌};
    ghost use Rattle.dv_register.specs.State.{State};
    ghost use Rattle.dv_shared.specs.Events.{first_events};

    ghost Value = { State V };

    ghost view = { λ s. s.history.register.value };

    ghost invariant = { λ s. (J.origin ≡ s.history.register.value ∷ [])
        × (J.start ≡ first_events s.history.register.value.list s.history.register.value.shut) };
}

impl<V: Station, P: Releases> Unshared<V, P> {
    /// Begins a history with the records of the register, and with its stop where it is shut.
    ///
    /// # Errors
    ///
    /// There is no memory for it. The register is handed back.
    pub fn new(
        alloc: Global,
        register: Register<V, P>,
    ) -> Result<Unshared<V, P>, (Register<V, P>, AllocError)>
        ensures ok { IfOk result (λ u. u.about ≡ register) }
        ensures err { IfErr result (λ e. e.0 ≡ register) }
    {
        let count = u64::from(register.len()) + u64::from(register.is_shut());
        let about = Origin {
            register: Snapshot::of(&register),
        };
        match Unnamed::new(alloc, count, &about) {
            Ok(history) => Ok(Unshared { history, register }),
            Err(error) => Err((register, error)),
        }
    }

    /// The shared register under its name, and the pass that has all shares.
    pub fn named<J: NamesRegister<V>>(self) -> (SharedRegister<J, V, P>, Pass<J>)
        requires table { self.table ≡ J.table }
        requires start { first_events self.about.list self.about.shut ≡ J.start }
        requires origin { J.origin ≡ self.about ∷ [] }
        ensures shared { result.0 ≡ self.about }
        ensures pass { result.1 ≡ known (first_events self.about.list self.about.shut) [] all_shares }
    {
        let Unshared { history, register } = self;
        let (history, pass, turn) = history.named::<J>();
        (
            SharedRegister {
                history,
                locked: Mutex::new(Locked { register, turn }),
            },
            pass,
        )
    }
}

impl<J: NamesRegister<V>, V: Station, P: Releases> SharedRegister<J, V, P> {
    /// Reserves a record of this kind and these contents. It waits for the lock.
    pub fn reserve<R: Wait>(
        &self,
        rt: &R,
        pass: Pass<J>,
        kind: u8,
        contents: &[u8],
    ) -> (Pass<J>, Result<Receipt, SharedReserve>)
        requires kind { IsKnownKind kind }
        requires short { length contents.now ≤ 1048576 }
        ensures call { Reserves J.start self.now kind contents.now pass result.0 result.1 }
        ensures receipt { IfOk result.1 (IsReceipt self.now kind contents.now result.0.seen) }
    {
        self.locked
            .lock(rt)
            .reserve(&self.history, pass, kind, contents)
    }

    /// Puts octets, which the rule allows under the records that the pass has seen. It waits for the lock.
    pub fn emit<R: Wait>(
        &self,
        rt: &R,
        pass: Pass<J>,
        octets: &[u8],
    ) -> (Pass<J>, Result<(), SharedEmit>)
        requires { IsTrue (V.tells self.now.station)
            → P.allows (rule_identity self.now.identity) self.now.first (records pass.seen) octets.now }
        ensures { Emits J.start (IsTrue (V.tells self.now.station)) octets.now pass result.0 result.1 }
    {
        self.locked.lock(rt).emit(&self.history, pass, octets)
    }

    /// Takes one share from a pass for a new one, which has seen as much and has no additions.
    pub fn split(&self, pass: Pass<J>) -> (Pass<J>, Pass<J>)
        requires { 2 ≤ pass.share }
        ensures old { result.0 ≡ known pass.seen pass.mine (pass.share - 1) }
        ensures new { result.1 ≡ known pass.seen [] 1 }
    {
        self.history.split(pass)
    }

    /// Makes one of two passes, with the longer of what they have seen, and the additions and the shares of both.
    pub fn join(&self, one: Pass<J>, other: Pass<J>) -> Pass<J>
        ensures is { result ≡ known (longer one.seen other.seen) (merged one.mine other.mine) (one.share + other.share) }
        ensures begins { IsPrefix one.seen result.seen × IsPrefix other.seen result.seen }
    {
        self.history.join(one, other)
    }

    /// Gives the register back, which stands for the history.
    pub fn close(self, pass: Pass<J>) -> Register<V, P>
        ensures { Closes V.tells V.content V.counts self pass result }
    {
        let SharedRegister { history, locked } = self;
        let Locked { register, mut turn } = locked.into_inner();
        let _pass = look(&mut turn, &history, pass);
        register
    }
}
