//! The register with which a history began.
use dv_outside::{Releases, Station};
use dv_passes::{Begins, Naming};
use dv_register::Register;
use std::marker::Brand;
use std::snapshot::Snapshot;

/// What a register was when it began to be shared. It takes no octet.
#[derive(Drop)]
pub struct Origin<V: Station, P: Releases> {
    /// The register then.
    pub register: Snapshot<Register<V, P>>,
}

impl<V: Station, P: Releases> Begins for Origin<V, P> {
    ghost use Rattle.dv_shared.specs.Events.{first_events};

    ghost begins = { λ o. first_events o.register.value.list o.register.value.shut };
}

/// Which shared register it is: besides the name of its history what the register was when it began to be shared, in a list of
/// one. Each run of a program picks it once.
pub trait NamesRegister<V>: Naming {
    ghost use Rattle.std.specs.Prelude.{List};
    ghost use Rattle.dv_register.specs.State.{State};

    ghost origin: { List (State V) };
}

impl<V> NamesRegister<V> for Brand {
    ghost use Rattle.std.specs.Prelude.{[]};

    ghost origin = { [] };
}
