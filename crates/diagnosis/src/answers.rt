//! What the layers below answer, where want of memory is the only error.

use std::alloc::AllocError;
use value::Refusal;

/// What was answered, if it is no refusal.
pub fn answer_of<T: Drop>(answer: Result<T, Refusal>) -> Result<Option<T>, AllocError> {
    match answer {
        Ok(answer) => Ok(Some(answer)),
        Err(refusal) => nothing(&refusal),
    }
}

/// Nothing, or want of memory where that is the refusal.
fn nothing<T>(refusal: &Refusal) -> Result<Option<T>, AllocError> {
    match refusal {
        Refusal::NoMemory => Err(AllocError),
        _ => Ok(None),
    }
}

/// The refusal that was answered, if there is one.
pub fn refusal_in<T: Drop>(answer: Result<T, Refusal>) -> Result<Option<Refusal>, AllocError> {
    match answer {
        Ok(_) => Ok(None),
        Err(Refusal::NoMemory) => Err(AllocError),
        Err(refusal) => Ok(Some(refusal)),
    }
}
