//! What a call may do.

ghost use Rattle.std.specs.Prelude.{◌≡◌};
ghost use Rattle.messages.specs.Operations.{operation_of};

/// What a call does. `Again` and `Line` ask for what the last call was answered, and change nothing; `RunAll` and
/// `Transact` make several events.
#[derive(Clone, Copy, Debug, PartialEq, Eq)]
pub enum Operation {
    Again,
    Line,
    OpenSession,
    CloseSession,
    Prepare,
    Forget,
    Run,
    Execute,
    Begin,
    BeginReadOnly,
    Commit,
    Rollback,
    Report,
    Checkpoint,
    RunAll,
    Transact,
    Image,
    Move,
}

/// The operation of a number; there is none beyond 17.
pub fn operation_of(number: u32) -> Option<Operation>
    ensures { result ≡ operation_of number }
{
    match number {
        0 => Some(Operation::Again),
        1 => Some(Operation::Line),
        2 => Some(Operation::OpenSession),
        3 => Some(Operation::CloseSession),
        4 => Some(Operation::Prepare),
        5 => Some(Operation::Forget),
        6 => Some(Operation::Run),
        7 => Some(Operation::Execute),
        8 => Some(Operation::Begin),
        9 => Some(Operation::BeginReadOnly),
        10 => Some(Operation::Commit),
        11 => Some(Operation::Rollback),
        12 => Some(Operation::Report),
        13 => Some(Operation::Checkpoint),
        14 => Some(Operation::RunAll),
        15 => Some(Operation::Transact),
        16 => Some(Operation::Image),
        17 => Some(Operation::Move),
        _ => None,
    }
}
