//! How a command ends before it is done.
ghost use Rattle.std.specs.Prelude.{◌≡◌};
ghost use Rattle.projects.specs.Ends.{of_keeper, of_cut, of_edit, of_cp};
ghost use Rattle.projects.specs.declared.early.Early.TheVariants as early;

use crate::KeeperEnd;
use cpfile::CpBad;
use dialogue::Cause;
use edits::EditBad;
use ports::{NoMemory, Stop};
use std::alloc::AllocError;
use subdivide::CutBad;

/// How a command ends before it is done: it is refused, the keeper failed, or there was no memory.
#[derive(Clone, Copy, Debug, PartialEq, Eq)]
pub(crate) enum Early {
    Refused(Cause),
    KeeperFailed,
    NoMemory,
}

impl From<Cause> for Early {
    ghost from_gives = { λ why e. e ≡ early.Refused why };

    fn from(why: Cause) -> Self {
        Early::Refused(why)
    }
}

impl From<NoMemory> for Early {
    ghost from_gives = { λ _ e. e ≡ early.NoMemory };

    fn from(_: NoMemory) -> Self {
        Early::NoMemory
    }
}

impl From<AllocError> for Early {
    ghost from_gives = { λ _ e. e ≡ early.NoMemory };

    fn from(_: AllocError) -> Self {
        Early::NoMemory
    }
}

impl From<KeeperEnd> for Early {
    ghost from_gives = { λ end e. e ≡ of_keeper end };

    fn from(end: KeeperEnd) -> Self {
        match end {
            KeeperEnd::Failed => Early::KeeperFailed,
            KeeperEnd::NoMemory => Early::NoMemory,
        }
    }
}

impl From<Stop<CutBad>> for Early {
    ghost from_gives = { λ stop e. e ≡ of_cut stop };

    fn from(stop: Stop<CutBad>) -> Self {
        match stop {
            Stop::NoMemory => Early::NoMemory,
            Stop::Why(bad) => Early::Refused(Cause::Cut(bad)),
        }
    }
}

impl From<Stop<EditBad>> for Early {
    ghost from_gives = { λ stop e. e ≡ of_edit stop };

    fn from(stop: Stop<EditBad>) -> Self {
        match stop {
            Stop::NoMemory => Early::NoMemory,
            Stop::Why(bad) => Early::Refused(Cause::Edit(bad)),
        }
    }
}

impl From<Stop<CpBad>> for Early {
    ghost from_gives = { λ stop e. e ≡ of_cp stop };

    fn from(stop: Stop<CpBad>) -> Self {
        match stop {
            Stop::NoMemory => Early::NoMemory,
            Stop::Why(bad) => Early::Refused(Cause::Cp(bad)),
        }
    }
}
