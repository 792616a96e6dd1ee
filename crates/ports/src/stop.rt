//! How a call ends that found no memory or has a reason of its own.
ghost use Rattle.std.specs.Prelude.{◌≡◌};
ghost use Rattle.ports.specs.declared.stop.Stop.TheVariants as stop;

use std::alloc::{AllocError, AllocFailed};

/// There was no memory.
#[derive(Clone, Copy, Debug, PartialEq, Eq)]
pub struct NoMemory;

/// Why a call that takes memory gave no value.
#[derive(Clone, Copy, Debug, PartialEq, Eq)]
pub enum Stop<E> {
    NoMemory,
    Why(E),
}

impl From<AllocError> for NoMemory {
    fn from(_: AllocError) -> Self {
        NoMemory
    }
}

impl<T: Drop> From<AllocFailed<T>> for NoMemory {
    fn from(_: AllocFailed<T>) -> Self {
        NoMemory
    }
}

impl<E> From<AllocError> for Stop<E> {
    ghost from_gives = { λ _ e. e ≡ stop.NoMemory };

    fn from(_: AllocError) -> Self {
        Stop::NoMemory
    }
}

impl<E, T: Drop> From<AllocFailed<T>> for Stop<E> {
    ghost from_gives = { λ _ e. e ≡ stop.NoMemory };

    fn from(_: AllocFailed<T>) -> Self {
        Stop::NoMemory
    }
}

impl<E> From<NoMemory> for Stop<E> {
    ghost from_gives = { λ _ e. e ≡ stop.NoMemory };

    fn from(_: NoMemory) -> Self {
        Stop::NoMemory
    }
}
