//! A shared register may be lent to threads.
use crate::origin::NamesRegister;
use crate::shared::SharedRegister;
use dv_outside::{Releases, Station};

fn lend<T: Sync>(_x: &T) {}

/// Shows that a shared register may be lent to threads, where its station may move to one. It does nothing.
pub fn may_be_lent<J: NamesRegister<V> + Send + Sync, V: Station + Send, P: Releases + Send>(
    shared: &SharedRegister<J, V, P>,
) {
    lend(shared);
}
