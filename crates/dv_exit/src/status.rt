//! Exit statuses.
ghost use Rattle.std.specs.Prelude.{◌≡◌};
ghost use Rattle.dv_exit.specs.Status.{number_of};

/// Why a command ended.
#[derive(Clone, Copy, Debug, PartialEq, Eq)]
pub enum Status {
    /// The command did its whole work.
    Done = 0,
    /// The words are no line of the program.
    Words = 2,
    /// A file isn't what it should be.
    File = 3,
    /// The input could not be read.
    Read = 4,
    /// The output could not be written.
    Put = 5,
    /// The register's file could not be read or written.
    Station = 6,
    /// The clock could not be read.
    Clock = 7,
    /// There was not enough memory.
    Memory = 8,
    /// The input has octets after its last request that are none.
    Input = 9,
    /// A file could not be read.
    Shelf = 10,
    /// The clock told a year past 9999.
    Range = 11,
    /// There is no such record, or the register's file isn't empty.
    Absent = 12,
    /// As many octets were taken as a run of the server takes.
    Limit = 13,
}

impl Status {
    /// The number with which the program ends.
    pub fn number(self) -> u8
        ensures { result ≡ number_of self }
    {
        self as u8
    }
}
