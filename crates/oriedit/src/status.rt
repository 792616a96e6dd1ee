//! How the program ends.
ghost use Rattle.std.specs.Prelude.{◌≡◌};
ghost use Rattle.oriedit.specs.StatusNumber.{number_of};

/// How the program ends. Each status has a number, the exit status of the process.
#[derive(Clone, Copy, Debug, PartialEq, Eq)]
pub enum Status {
    /// 0: the command did its work, and its input was read to its end, or its connections were served.
    Ok,
    /// 1: the input of `check` was accepted and has faults; they were written.
    FaultsFound,
    /// 2: the words are not those of a command; the usage text was written.
    Usage,
    /// 3: the input could not be read.
    ReadFault,
    /// 4: the output could not be written; what was written is a front of what was due.
    WriteFault,
    /// 5: there was no memory.
    NoMemory,
    /// 6: what keeps the projects could not be opened where `--keep` says.
    KeeperFault,
    /// 7: no connections could be had at the port.
    DoorFault,
    /// 8: the input reaches its limit of bytes before its end.
    TooLong,
    /// 10: the input was read to its end and is refused; the line that says why was written.
    Refused,
}

impl Status {
    /// The exit status of the process.
    pub fn number(self) -> u8
        ensures { result ≡ number_of self }
    {
        match self {
            Status::Ok => 0,
            Status::FaultsFound => 1,
            Status::Usage => 2,
            Status::ReadFault => 3,
            Status::WriteFault => 4,
            Status::NoMemory => 5,
            Status::KeeperFault => 6,
            Status::DoorFault => 7,
            Status::TooLong => 8,
            Status::Refused => 10,
        }
    }
}
