// The rule of the table, and what each kind of step on it tells.
use crate::view::{Event, View};
use atomic_table::{Join, Play, Split, TableRule};
use std::marker::{Brand, PhantomData};

/// Gives the events with which a history begins, as the opened register has them.
pub trait Begins {
    ghost use Rattle.std.specs.Prelude.{List};
    ghost use Rattle.dv_passes.specs.declared.view.Event.{Event};

    ghost begins: { Self → List Event };
}

/// Which history it is, and the events with which it began. Each run of a program picks both once.
pub trait Naming {
    ghost use Rattle.std.specs.Prelude.{List};
    ghost use Rattle.atomic_table.specs.Seated.{TableId};
    ghost use Rattle.dv_passes.specs.declared.view.Event.{Event};

    ghost table: { TableId };

    ghost start: { List Event };
}

impl Naming for Brand {
    ghost use Rattle.std.specs.Prelude.{[]};
    ghost use Rattle.dv_passes.specs.History.{no_table};

    ghost table = { no_table };

    ghost start = { [] };
}

/// Which event an addition adds. Each addition picks its own.
pub trait Adds {
    ghost use Rattle.dv_passes.specs.declared.view.Event.{Event};

    ghost event: { Event };
}

impl Adds for Brand {
    ghost use Rattle.dv_passes.specs.declared.view.Event.TheVariants.{Stopped};

    ghost event = { Stopped };
}

/// The rule of the table: what its word and its views keep between them, whoever steps.
pub struct HistoryRule;

impl<K: Begins> TableRule<(), View, K> for HistoryRule {
    ghost use Rattle.dv_passes.specs.History.{Keeps, first_view};

    ghost holds = { λ k s. Keeps (K.begins k) s };

    ghost first = { λ k. first_view (K.begins k) };
}

/// A load, after which the whole history was seen.
pub(crate) struct Looks<J> {
    of: PhantomData<J>,
}

impl<J: Naming> Play<(), View> for Looks<J> {
    ghost use Rattle.std.specs.Prelude.{◌≡◌};
    ghost use Rattle.dv_passes.specs.Plays.{Looked};

    ghost then = { λ s me found after. (after.1 ≡ me.1) × Looked J.start me.0 found after.0 };
}

/// A load that compares what was seen with what was told.
pub(crate) struct Checks<J> {
    of: PhantomData<J>,
}

impl<J: Naming> Play<(), View> for Checks<J> {
    ghost use Rattle.std.specs.Prelude.{◌≡◌};
    ghost use Rattle.dv_passes.specs.Plays.{Checked};

    ghost then = { λ s me found after. (after.1 ≡ me.1) × Checked J.start me.0 after.0 };
}

/// An addition of one event.
pub(crate) struct Appends<E> {
    of: PhantomData<E>,
}

impl<E: Adds> Play<(), View> for Appends<E> {
    ghost use Rattle.std.specs.Prelude.{◌≡◌};
    ghost use Rattle.dv_passes.specs.Plays.{Added};

    ghost then = { λ s me found after. (after.1 ≡ me.1) × Added E.event me.0 found after.0 };
}

/// A pass gives one share to a new pass.
pub(crate) struct GivesShare;

impl Split<View> for GivesShare {
    ghost use Rattle.dv_passes.specs.Plays.{after_share, shared};

    ghost left = { after_share };

    ghost right = { shared };
}

/// The seat keeps the turn, and a new pass gets all shares and additions.
pub(crate) struct KeepsTurn;

impl Split<View> for KeepsTurn {
    ghost use Rattle.dv_passes.specs.Plays.{turn_at, passed};

    ghost left = { λ v. turn_at v.seen };

    ghost right = { passed };
}

/// Two passes become one.
pub(crate) struct Meets;

impl Join<View> for Meets {
    ghost use Rattle.dv_passes.specs.Plays.{met, nobody};

    ghost both = { met };

    ghost spent = { nobody };
}

/// The seat of the turn takes in a pass.
pub(crate) struct TakesIn;

impl Join<View> for TakesIn {
    ghost use Rattle.dv_passes.specs.Plays.{taken_in, nobody};

    ghost both = { taken_in };

    ghost spent = { nobody };
}
