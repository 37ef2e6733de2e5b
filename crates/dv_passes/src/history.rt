//! One word that all workers share, the length of the history, and the seats that step on it.
ghost use Rattle.std.specs.Prelude.{◌≡◌, ◌+◌, ◌-◌, ◌^◌, ◌<◌, ◌≤◌, ◌++◌, ◌∷◌, [], length, IfOk};
ghost use mathlib.Core.List.{IsPrefix};
ghost use Rattle.dv_passes.specs.History.{StandIn, all_shares, events_of};
ghost use Rattle.dv_passes.specs.Plays.{longer, merged};
ghost use Rattle.dv_passes.specs.Known.{known};

use crate::rule::{
    Adds, Appends, Begins, Checks, GivesShare, HistoryRule, KeepsTurn, Looks, Meets, Naming,
    TakesIn,
};
use crate::view::View;
use atomic_table::{Seat, Table};
use std::alloc::{AllocError, Global};
use std::marker::{Model, PhantomData};

/// A history that has no name yet, with its first seat. Its name is the table that was made for it: who knows it can call
/// [`named`](Unnamed::named).
pub struct Unnamed<K: Begins> {
    count: u64,
    table: Table<(), View, K, HistoryRule, Global>,
    seat: Seat<(), View>,
}

impl<K: Begins> Model for Unnamed<K> {
    ghost use Rattle.std.specs.Prelude.{◌≡◌, [], length};
    ghost use Rattle.dv_passes.specs.Known.{Name};
    ghost use Rattle.dv_passes.specs.History.{first_view};

    ghost Value = { Name K };

    ghost view = { λ o. record { table = o.table.shared.table_id; about = o.table.shared.key } };

    ghost invariant = { λ o. (o.seat.table_id ≡ o.table.shared.table_id) × (o.seat.me ≡ (first_view (K.begins o.table.shared.key), [])) × (o.table.shared.table_id.words ≡ 1) × (o.count ≡ length (K.begins o.table.shared.key)) };
}

/// The history that all workers share: its length in one word. It is seen as the value with whose events it began.
#[derive(Drop)]
pub struct History<J: Naming, K: Begins> {
    table: Table<(), View, K, HistoryRule, Global>,
    of: PhantomData<J>,
}

impl<J: Naming, K: Begins> Model for History<J, K> {
    ghost use Rattle.std.specs.Prelude.{◌≡◌};

    ghost Value = { K };

    ghost view = { λ b. b.table.shared.key };

    ghost invariant = { λ b. (b.table.shared.table_id ≡ J.table) × (b.table.shared.table_id.words ≡ 1) × (K.begins b.table.shared.key ≡ J.start) };
}

/// What a worker knows of the history: a beginning of it, its own additions with their places, and how many of the 2^32 shares
/// it has.
#[derive(Drop)]
pub struct Pass<J: Naming> {
    seat: Seat<(), View>,
    of: PhantomData<J>,
}

impl<J: Naming> Model for Pass<J> {
    ghost use Rattle.std.specs.Prelude.{◌≡◌, [], false};
    ghost use Rattle.dv_passes.specs.Known.{Known, known_of, Rests};

    ghost Value = { Known };

    ghost view = { λ p. known_of p.seat.me.0 };

    ghost invariant = { λ p. (p.seat.table_id ≡ J.table) × (p.seat.me.1 ≡ []) × Rests J.start false p.seat.me.0 };
}

/// The one right to add to the history, with its length. It is seen as the whole history, and lies under the lock.
#[derive(Drop)]
pub struct Turn<J: Naming> {
    count: u64,
    seat: Seat<(), View>,
    of: PhantomData<J>,
}

impl<J: Naming> Model for Turn<J> {
    ghost use Rattle.std.specs.Prelude.{◌≡◌, [], List, length};
    ghost use Rattle.dv_passes.specs.declared.view.Event.{Event};
    ghost use Rattle.dv_passes.specs.Plays.{turn_at};

    ghost Value = { List Event };

    ghost view = { λ k. k.seat.me.0.seen };

    ghost invariant = { λ k. (k.seat.table_id ≡ J.table) × (k.seat.me ≡ (turn_at k.seat.me.0.seen, [])) × (k.count ≡ length k.seat.me.0.seen) };
}

impl<K: Begins> Unnamed<K> {
    /// Makes the word. The history begins with the events of `about`, of which `len` is the number.
    ///
    /// # Errors
    ///
    /// There is no memory for it.
    pub fn new(alloc: Global, len: u64, about: &K) -> Result<Unnamed<K>, AllocError>
        requires { len ≡ length (K.begins about.now) }
        ensures { IfOk result (λ o. o.about ≡ about.now) }
    {
        let (table, seat) = Table::of_words(alloc, &[len], about)?;
        Ok(Unnamed {
            count: len,
            table,
            seat,
        })
    }

    /// The history under its name, with the pass that has all shares, and the turn.
    pub fn named<J: Naming>(self) -> (History<J, K>, Pass<J>, Turn<J>)
        requires table { self.table ≡ J.table }
        requires start { K.begins self.about ≡ J.start }
        ensures history { result.0 ≡ self.about }
        ensures pass { result.1 ≡ known J.start [] all_shares }
        ensures turn { result.2 ≡ J.start }
    {
        let Unnamed {
            count,
            table,
            mut seat,
        } = self;
        let pass = table.shared.split_seat::<KeepsTurn>(&mut seat);
        (
            History {
                table,
                of: PhantomData,
            },
            Pass {
                seat: pass,
                of: PhantomData,
            },
            Turn {
                count,
                seat,
                of: PhantomData,
            },
        )
    }
}

impl<J: Naming> Pass<J> {
    /// Shows what every pass keeps: it has seen the start of the history, its additions stand at their places in what it has seen,
    /// behind the start and in ascending order, and it has a share.
    pub fn stands(&self)
        ensures begins { IsPrefix J.start self.now.seen }
        ensures mine { StandIn self.now.seen (length J.start) self.now.mine }
        ensures share { 0 < self.now.share }
    {
        let _seat = &self.seat;
    }
}

impl<J: Naming> Turn<J> {
    /// Returns how many events the history has.
    pub fn len(&self) -> u64
        ensures { result ≡ length self.now }
    {
        self.count
    }

    /// Shows a pass the whole history. What it has seen before begins it; and where it has all shares, the history has nothing but
    /// the events of the start and its own additions.
    pub fn show<K: Begins>(&mut self, history: &History<J, K>, pass: Pass<J>) -> Pass<J>
        ensures turn { self.new ≡ self.old }
        ensures pass { result ≡ known self.old pass.mine pass.share }
        ensures before { IsPrefix pass.seen self.old }
        ensures alone { pass.share ≡ all_shares → self.old ≡ J.start ++ events_of pass.mine }
    {
        let Pass { seat, of: _ } = pass;
        history
            .table
            .shared
            .join_seat::<TakesIn>(&mut self.seat, seat);
        history.table.shared.load::<Looks<J>>(&mut self.seat, 0);
        let seat = history.table.shared.split_seat::<KeepsTurn>(&mut self.seat);
        Pass {
            seat,
            of: PhantomData,
        }
    }

    /// Adds an event at the end of the history, and to the additions of the pass, which then has seen the whole history.
    pub fn add<E: Adds, K: Begins>(&mut self, history: &History<J, K>, pass: Pass<J>) -> Pass<J>
        requires { length self.old < 2 ^ 64 - 1 }
        ensures turn { self.new ≡ self.old ++ E.event ∷ [] }
        ensures pass { result ≡ known (self.old ++ E.event ∷ []) (pass.mine ++ (length self.old, E.event) ∷ []) pass.share }
        ensures before { IsPrefix pass.seen self.old }
        ensures alone { pass.share ≡ all_shares → self.old ≡ J.start ++ events_of pass.mine }
    {
        let Pass { seat, of: _ } = pass;
        history
            .table
            .shared
            .join_seat::<TakesIn>(&mut self.seat, seat);
        history.table.shared.load::<Looks<J>>(&mut self.seat, 0);
        history
            .table
            .shared
            .fetch_add::<Appends<E>>(&mut self.seat, 0, 1);
        let seat = history.table.shared.split_seat::<KeepsTurn>(&mut self.seat);
        self.count += 1;
        Pass {
            seat,
            of: PhantomData,
        }
    }
}

impl<J: Naming, K: Begins> History<J, K> {
    /// Takes one share from a pass for a new one, which has seen as much and has no additions.
    pub fn split(&self, pass: Pass<J>) -> (Pass<J>, Pass<J>)
        requires { 2 ≤ pass.share }
        ensures old { result.0 ≡ known pass.seen pass.mine (pass.share - 1) }
        ensures new { result.1 ≡ known pass.seen [] 1 }
    {
        let Pass { mut seat, of: _ } = pass;
        let other = self.table.shared.split_seat::<GivesShare>(&mut seat);
        (
            Pass {
                seat,
                of: PhantomData,
            },
            Pass {
                seat: other,
                of: PhantomData,
            },
        )
    }

    /// Makes one of two passes, with the longer of what they have seen, the additions of both in the order of their places, and
    /// the shares of both.
    pub fn join(&self, one: Pass<J>, other: Pass<J>) -> Pass<J>
        ensures is { result ≡ known (longer one.seen other.seen) (merged one.mine other.mine) (one.share + other.share) }
        ensures begins { IsPrefix one.seen result.seen × IsPrefix other.seen result.seen }
    {
        let Pass { mut seat, of: _ } = one;
        let Pass {
            seat: second,
            of: _,
        } = other;
        self.table.shared.join_seat::<Meets>(&mut seat, second);
        self.table.shared.load::<Checks<J>>(&mut seat, 0);
        Pass {
            seat,
            of: PhantomData,
        }
    }
}
