//! How a script ends before its input does.
ghost use Rattle.std.specs.Prelude.{◌≡◌};
ghost use Rattle.oriedit.specs.declared.early.Early.TheVariants as early;
ghost use Rattle.oriedit.specs.declared.status.Status.TheVariants as status;
ghost use Rattle.oriedit.specs.Answering.{status_of};

use crate::Status;
use ports::{Failed, NoMemory};
use std::alloc::AllocError;

/// How a script ends before its input does.
#[derive(Clone, Copy, Debug, PartialEq, Eq)]
pub(crate) enum Early {
    /// A reply could not be written.
    WriteFault,
    /// There was no memory.
    NoMemory,
}

impl Early {
    /// The status with which the script ends.
    pub(crate) fn status(self) -> Status
        ensures { result ≡ status_of self }
    {
        match self {
            Early::WriteFault => Status::WriteFault,
            Early::NoMemory => Status::NoMemory,
        }
    }
}

impl From<Failed> for Early {
    ghost from_gives = { λ _ e. e ≡ early.WriteFault };

    fn from(_: Failed) -> Self {
        Early::WriteFault
    }
}

impl From<NoMemory> for Early {
    ghost from_gives = { λ _ e. e ≡ early.NoMemory };

    fn from(_: NoMemory) -> Self {
        Early::NoMemory
    }
}

impl From<AllocError> for Early {
    ghost from_gives = { λ _ e. e ≡ early.NoMemory };

    fn from(_: AllocError) -> Self {
        Early::NoMemory
    }
}
