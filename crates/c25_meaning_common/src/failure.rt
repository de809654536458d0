//! Why a call that allocates memory fails.

ghost use Rattle.c25_meaning_common.specs.Results.{IsNoMemory};

use crate::no_memory::NoMemory;
use std::alloc::{AllocError, AllocFailed};
use std::fmt;
use thiserror::Error;

/// Out of memory, or a fault of what the call was given. Each crate has a fault type of its own; `?` turns
/// the allocator's errors into this type, whatever the fault type is.
#[derive(PartialEq, Debug, Drop, Error)]
#[error_bound(F: fmt::Display)]
pub enum Failure<F> {
    /// The allocator refused to give more memory (fault 9).
    #[error(transparent)]
    NoMemory(NoMemory),
    /// The call's input is faulty.
    #[error(transparent)]
    Fault(F),
}

impl<F> From<NoMemory> for Failure<F> {
    ghost from_gives = { λ _ failure. IsNoMemory failure };

    fn from(error: NoMemory) -> Failure<F> {
        Failure::NoMemory(error)
    }
}

impl<F> From<AllocError> for Failure<F> {
    ghost from_gives = { λ _ failure. IsNoMemory failure };

    fn from(error: AllocError) -> Failure<F> {
        Failure::NoMemory(NoMemory::from(error))
    }
}

impl<F, T: Drop> From<AllocFailed<T>> for Failure<F> {
    ghost from_gives = { λ _ failure. IsNoMemory failure };

    fn from(error: AllocFailed<T>) -> Failure<F> {
        Failure::NoMemory(NoMemory::from(error))
    }
}
