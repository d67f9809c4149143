//! Why values were not put in the places of parameters.

use std::alloc::{AllocError, AllocFailed};
use thiserror::Error;

/// Why values were not put in the places of parameters. Nothing has changed then. Parameters count from 1.
#[derive(Clone, Copy, Debug, PartialEq, Eq, Error)]
pub enum FillFault {
    #[error("no memory is left")]
    NoMemory,
    /// There are more values than parameters, or fewer.
    #[error("{wanted} values are wanted, and {given} were given")]
    WrongCount { wanted: usize, given: usize },
    /// NULL was given where the grammar has none.
    #[error("parameter {parameter} may not be NULL: a condition tests for it by IS NULL")]
    NullNotAllowed { parameter: usize },
    /// The number is below -10^15 or above 10^15.
    #[error("parameter {parameter} is a number beyond 10^15")]
    NumberOutOfRange { parameter: usize },
    /// The text is ill-formed UTF-8, or has a control character of ASCII.
    #[error("parameter {parameter} is a text that is no UTF-8, or has a control character")]
    TextNotPlain { parameter: usize },
}

impl From<AllocError> for FillFault {
    ghost use Rattle.std.specs.Prelude.{◌≡◌};
    ghost use Rattle.prepared.specs.declared.faults.FillFault.TheVariants.{NoMemory};

    ghost from_gives = { λ _ fault. fault ≡ NoMemory };

    fn from(_error: AllocError) -> FillFault {
        FillFault::NoMemory
    }
}

impl<T: Drop> From<AllocFailed<T>> for FillFault {
    ghost use Rattle.std.specs.Prelude.{◌≡◌};
    ghost use Rattle.prepared.specs.declared.faults.FillFault.TheVariants.{NoMemory};

    ghost from_gives = { λ _ fault. fault ≡ NoMemory };

    fn from(_error: AllocFailed<T>) -> FillFault {
        FillFault::NoMemory
    }
}
