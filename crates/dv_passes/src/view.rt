use std::collections::LinkedList;

/// An event of the history. No value of it is made: it stands in contracts alone.
pub enum Event {
    /// A record was reserved: its kind and its contents.
    Reserved(u8, LinkedList<u8>),
    /// Octets were put out, and whether all of them were.
    Put(LinkedList<u8>, bool),
    /// The station failed in a reservation, and takes none any more.
    Stopped,
}

/// What a seat of the table knows of the history. No value of it is made.
pub struct View {
    /// A beginning of the history.
    pub seen: LinkedList<Event>,
    /// Another one, of which a pass told that was joined to this one. The next load compares the two.
    pub told: LinkedList<Event>,
    /// The seat's own additions, each with its place in the history.
    pub mine: LinkedList<(u64, Event)>,
    /// How many of the 2^32 shares it has. Who has all of them knows that nobody else added anything.
    pub share: u64,
    /// Whether it may add.
    pub turn: bool,
}
