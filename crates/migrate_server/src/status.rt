//! How a run of the program ends.
ghost use Rattle.std.specs.Prelude.{◌≡◌};
ghost use Rattle.migrate_server.specs.Status.{status_code};

/// How a run ended.
#[derive(Clone, Copy, Debug, PartialEq, Eq)]
pub enum Status {
    /// Each line of the input was answered, to its end or to one that asks to quit.
    Ok,
    /// The words are none that the program takes.
    Usage,
    /// The input failed.
    ReadFault,
    /// The disk of the journal failed.
    JournalFault,
    /// A reply could not be written.
    WriteFault,
    /// The journal has something else at this record, and at 0 is no journal.
    StrangeJournal(u64),
    /// The input has more than 2^28 bytes.
    InputLimit,
    /// The journal has no room left.
    JournalFull,
    /// Memory ran out.
    NoMemory,
}

impl Status {
    /// The exit status of the program, from 0 to 8.
    pub fn code(&self) -> u8
        ensures { result ≡ status_code self.now }
    {
        match self {
            Status::Ok => 0,
            Status::Usage => 1,
            Status::ReadFault => 2,
            Status::JournalFault => 3,
            Status::WriteFault => 4,
            Status::StrangeJournal(_) => 5,
            Status::InputLimit => 6,
            Status::JournalFull => 7,
            Status::NoMemory => 8,
        }
    }
}
