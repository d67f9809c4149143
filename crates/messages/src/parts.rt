//! The parts of a refusal.

ghost use Rattle.std.specs.Prelude.{◌≡◌};
ghost use Rattle.messages.specs.Refusals as spec;

use value::{Excess, Party, Refusal};

/// The number of a refusal in the report.
pub fn number_of(refusal: &Refusal) -> u64
    ensures { result ≡ spec.number_of refusal.now }
{
    match refusal {
        Refusal::NoMemory => 1,
        Refusal::Syntax { .. } => 2,
        Refusal::UnknownName { .. } => 3,
        Refusal::NameTaken { .. } => 4,
        Refusal::TypeMismatch => 5,
        Refusal::NullNotAllowed { .. } => 6,
        Refusal::DuplicateKey { .. } => 7,
        Refusal::KeyUpdate { .. } => 8,
        Refusal::OutOfRange { .. } => 9,
        Refusal::Violated { .. } => 10,
        Refusal::NotDeferrable { .. } => 11,
        Refusal::WriteConflict { .. } => 12,
        Refusal::Dangerous { .. } => 13,
        Refusal::NoTransaction => 14,
        Refusal::TransactionOpen => 15,
        Refusal::Stranger => 16,
        Refusal::EpochFull => 17,
        Refusal::TooWide => 18,
        Refusal::TooDeep { .. } => 19,
        Refusal::OutsideClass => 20,
        Refusal::FalseAtCreation { .. } => 21,
        Refusal::AttributeClash { .. } => 22,
        Refusal::ReadOnlyTransaction => 23,
        Refusal::TooManySessions => 24,
    }
}

/// The SQLSTATE of a refusal; empty where it has none. That of a violated assertion is another at COMMIT.
pub fn sqlstate_of(at_commit: bool, refusal: &Refusal) -> &'static str
    ensures { result.now ≡ spec.sqlstate_of at_commit refusal.now }
{
    match refusal {
        Refusal::NullNotAllowed { .. } | Refusal::DuplicateKey { .. } => "23000",
        Refusal::OutOfRange { excess, .. } => excess_state(*excess),
        Refusal::Violated { .. } => violated_state(at_commit),
        Refusal::WriteConflict { .. } | Refusal::Dangerous { .. } => "40001",
        _ => "",
    }
}

fn excess_state(excess: Excess) -> &'static str
    ensures { result.now ≡ spec.excess_state excess }
{
    match excess {
        Excess::Number => "22003",
        Excess::Text => "22001",
    }
}

fn violated_state(at_commit: bool) -> &'static str
    ensures { result.now ≡ spec.violated_state at_commit }
{
    if at_commit { "40002" } else { "23000" }
}

/// The assertion, the column or the table that a refusal names; empty where it names none.
pub fn name_of(refusal: &Refusal) -> &[u8]
    ensures { result.now ≡ spec.name_of refusal.now }
{
    match refusal {
        Refusal::UnknownName { name } | Refusal::NameTaken { name } => name.as_bytes(),
        Refusal::NullNotAllowed { column }
        | Refusal::KeyUpdate { column }
        | Refusal::OutOfRange { column, .. } => column.as_bytes(),
        Refusal::DuplicateKey { table, .. } | Refusal::WriteConflict { table, .. } =>
            table.as_bytes(),
        Refusal::Violated { assertion, .. }
        | Refusal::NotDeferrable { assertion }
        | Refusal::FalseAtCreation { assertion, .. }
        | Refusal::AttributeClash { assertion } => assertion.as_bytes(),
        _ => &[],
    }
}

/// The commit that changed the same row; 0 where there is none.
pub fn conflict_of(refusal: &Refusal) -> u64
    ensures { result ≡ spec.conflict_of refusal.now }
{
    match refusal {
        Refusal::WriteConflict { by, .. } => *by,
        _ => 0,
    }
}

fn party_number(party: Party) -> u64
    ensures { result ≡ spec.party_number party }
{
    match party {
        Party::This => 0,
        Party::Number(number) => number,
    }
}

/// The reader of a dangerous structure; 0 is the transaction that is refused, or no structure.
pub fn reader_of(refusal: &Refusal) -> u64
    ensures { result ≡ spec.reader_of refusal.now }
{
    match refusal {
        Refusal::Dangerous { reader, .. } => party_number(*reader),
        _ => 0,
    }
}

/// Its pivot.
pub fn pivot_of(refusal: &Refusal) -> u64
    ensures { result ≡ spec.pivot_of refusal.now }
{
    match refusal {
        Refusal::Dangerous { pivot, .. } => party_number(*pivot),
        _ => 0,
    }
}

/// Its writer.
pub fn writer_of(refusal: &Refusal) -> u64
    ensures { result ≡ spec.writer_of refusal.now }
{
    match refusal {
        Refusal::Dangerous { writer, .. } => party_number(*writer),
        _ => 0,
    }
}

/// The offset in the text at which it goes wrong; 0 where there is none.
pub fn offset_of(refusal: &Refusal) -> usize
    ensures { result ≡ spec.offset_of refusal.now }
{
    match refusal {
        Refusal::Syntax { at } | Refusal::TooDeep { at } => *at,
        _ => 0,
    }
}
