//! Where a record lies in a register's memory.

/// A record's kind, and where its contents lie in the memory of all contents.
#[derive(Clone, Copy)]
pub struct Place {
    pub kind: u8,
    pub from: usize,
    pub len: usize,
}
