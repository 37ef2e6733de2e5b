//! The calls that a station keeps.

/// A call that was made. The octets of a write or a put lie in the journal's tape from `from` on.
#[derive(Clone, Copy)]
pub enum Made {
    /// It changed nothing.
    Look,
    /// It made sure of the file.
    Sync,
    /// It wrote `done` octets at a place, and left `rest` that it was handed too.
    Write {
        place: usize,
        from: usize,
        done: usize,
        rest: usize,
    },
    /// It sent `done` octets.
    Put {
        from: usize,
        done: usize,
    },
}
