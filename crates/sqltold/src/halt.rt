//! How a call on the tables ends where it gives no answer.
ghost use Rattle.std.specs.Prelude.{◌≡◌, option_map};
ghost use Rattle.projects.specs.Keeping.{FailsWhereRose, path_after};

use ports::NoMemory;
use projects::KeeperEnd;
use sqlite::{Error, ErrorCode};
use std::alloc::{AllocError, AllocFailed};

/// Why a call on the tables gave no answer.
#[derive(Clone, Copy, Debug, PartialEq, Eq)]
pub(crate) enum Halt {
    /// A statement was refused, a row is not of the form, or a step does not fit.
    Fault,
    /// There was no memory.
    NoMemory,
}

impl From<Error> for Halt {
    fn from(error: Error) -> Halt {
        match error {
            Error::SqliteFailure(ErrorCode::OutOfMemory) => Halt::NoMemory,
            _ => Halt::Fault,
        }
    }
}

impl From<NoMemory> for Halt {
    fn from(_: NoMemory) -> Halt {
        Halt::NoMemory
    }
}

impl From<AllocError> for Halt {
    fn from(_: AllocError) -> Halt {
        Halt::NoMemory
    }
}

impl<T: Drop> From<AllocFailed<T>> for Halt {
    fn from(_: AllocFailed<T>) -> Halt {
        Halt::NoMemory
    }
}

impl From<Halt> for KeeperEnd {
    fn from(halt: Halt) -> KeeperEnd {
        match halt {
            Halt::Fault => KeeperEnd::Failed,
            Halt::NoMemory => KeeperEnd::NoMemory,
        }
    }
}

/// The answer of a call on the tables as that of a keeper.
pub(crate) fn ended<T>(answer: Result<T, Halt>) -> Result<T, KeeperEnd> {
    match answer {
        Ok(value) => Ok(value),
        Err(halt) => Err(KeeperEnd::from(halt)),
    }
}

/// The answer of a keeper's call, of which a fault is counted.
pub(crate) fn counted<T>(faults: &mut u128, answer: Result<T, KeeperEnd>) -> Result<T, KeeperEnd>
    ensures same { result ≡ answer }
    ensures cause { FailsWhereRose faults.old faults.new result }
{
    match answer {
        Err(KeeperEnd::Failed) => {
            *faults = faults.saturating_add(1);
            Err(KeeperEnd::Failed)
        }
        other => other,
    }
}

/// The path that was given to `attach`, but none where there was no memory.
pub(crate) fn kept(path: Vec<u8>, answer: &Result<(), KeeperEnd>) -> Option<Vec<u8>>
    ensures { option_map (λ p. p.items) result ≡ path_after path.items answer.now }
{
    match answer {
        Err(KeeperEnd::NoMemory) => None,
        _ => Some(path),
    }
}
