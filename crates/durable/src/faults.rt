//! Why commits were not restored, or could not be kept.

use journal::{DeviceFault, JournalFault};
use std::alloc::{AllocError, AllocFailed};
use value::Refusal;

/// Why the commits of a journal were not put into tables.
#[derive(Clone, Copy, Debug, PartialEq, Eq)]
pub enum RestoreFault {
    /// No memory was left.
    NoMemory,
    /// A change of this commit can't be put into the tables that those before it leave.
    NotDue { number: u64 },
}

impl From<AllocError> for RestoreFault {
    ghost use Rattle.std.specs.Prelude.{◌≡◌};
    ghost use Rattle.durable.specs.declared.faults.RestoreFault.TheVariants.{NoMemory};

    ghost from_gives = { λ _ fault. fault ≡ NoMemory };

    fn from(_error: AllocError) -> RestoreFault {
        RestoreFault::NoMemory
    }
}

/// Why a commit could not be kept.
#[derive(Clone, Copy, Debug, PartialEq, Eq)]
pub enum KeepFault {
    /// No memory was left for its line.
    NoMemory,
    /// It has a value that no line can spell, or the file would be too large.
    Unfit,
    /// The disk has failed, or is full. No commit can be kept until the file is opened again.
    Shut,
}

impl From<AllocError> for KeepFault {
    ghost use Rattle.std.specs.Prelude.{◌≡◌};
    ghost use Rattle.durable.specs.declared.faults.KeepFault.TheVariants.{NoMemory};

    ghost from_gives = { λ _ fault. fault ≡ NoMemory };

    fn from(_error: AllocError) -> KeepFault {
        KeepFault::NoMemory
    }
}

impl From<DeviceFault> for KeepFault {
    ghost use Rattle.std.specs.Prelude.{◌≡◌};
    ghost use Rattle.durable.specs.declared.faults.KeepFault.TheVariants.{Shut};

    // (what a call left behind on the disk is not known, so no more is written even where only memory was lacking)
    ghost from_gives = { λ _ fault. fault ≡ Shut };

    fn from(_error: DeviceFault) -> KeepFault {
        KeepFault::Shut
    }
}

/// Why a journal was not opened. Its file says what it said.
#[derive(Debug, Drop)]
pub enum OpenFault {
    /// No memory was left.
    NoMemory,
    /// The line of this commit, which begins at this byte behind the header, is damaged or missing.
    Damaged { number: u64, at: usize },
    /// A change of this commit can't be put into the tables that those before it leave.
    NotDue { number: u64 },
    /// An assertion is false on what the journal says.
    False(Refusal),
    /// The disk failed.
    Disk,
}

impl From<AllocError> for OpenFault {
    ghost use Rattle.std.specs.Prelude.{◌≡◌};
    ghost use Rattle.durable.specs.declared.faults.OpenFault.TheVariants.{NoMemory};

    ghost from_gives = { λ _ fault. fault ≡ NoMemory };

    fn from(_error: AllocError) -> OpenFault {
        OpenFault::NoMemory
    }
}

impl<T: Drop> From<AllocFailed<T>> for OpenFault {
    ghost use Rattle.std.specs.Prelude.{◌≡◌};
    ghost use Rattle.durable.specs.declared.faults.OpenFault.TheVariants.{NoMemory};

    ghost from_gives = { λ _ fault. fault ≡ NoMemory };

    fn from(_error: AllocFailed<T>) -> OpenFault {
        OpenFault::NoMemory
    }
}

impl From<JournalFault> for OpenFault {
    ghost use Rattle.std.specs.Prelude.{◌≡◌};
    ghost use Rattle.durable.specs.Faults.{of_journal};

    ghost from_gives = { λ below fault. fault ≡ of_journal below };

    fn from(fault: JournalFault) -> OpenFault {
        match fault {
            JournalFault::NoMemory => OpenFault::NoMemory,
            JournalFault::Damaged { number, at } => OpenFault::Damaged { number, at },
        }
    }
}

impl From<RestoreFault> for OpenFault {
    ghost use Rattle.std.specs.Prelude.{◌≡◌};
    ghost use Rattle.durable.specs.Faults.{of_restoring};

    ghost from_gives = { λ below fault. fault ≡ of_restoring below };

    fn from(fault: RestoreFault) -> OpenFault {
        match fault {
            RestoreFault::NoMemory => OpenFault::NoMemory,
            RestoreFault::NotDue { number } => OpenFault::NotDue { number },
        }
    }
}

impl From<DeviceFault> for OpenFault {
    ghost use Rattle.std.specs.Prelude.{◌≡◌};
    ghost use Rattle.durable.specs.Faults.{of_device};

    ghost from_gives = { λ below fault. fault ≡ of_device below };

    fn from(fault: DeviceFault) -> OpenFault {
        match fault {
            DeviceFault::NoMemory => OpenFault::NoMemory,
            DeviceFault::Failed => OpenFault::Disk,
        }
    }
}

impl From<Refusal> for OpenFault {
    ghost use Rattle.durable.specs.Faults.{IsOfRefusal};

    ghost from_gives = { λ refusal fault. IsOfRefusal refusal fault };

    fn from(refusal: Refusal) -> OpenFault {
        match refusal {
            Refusal::NoMemory => OpenFault::NoMemory,
            other => OpenFault::False(other),
        }
    }
}
