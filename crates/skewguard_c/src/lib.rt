//! The exports of the C library: an opaque handle, requests as bytes, and replies that are copied into the caller's
//! buffer. `bindings/c/skewguard.h` declares them, and has all else that a C program calls.
//!
//! What a call means is the contract of the safe functions of the crate `calls`; here it is said of the value behind a
//! pointer (`specs/Handles`): what [`skewguard_library_open`] leaves at its pointer is what [`skewguard_library_call`]
//! asks for there, and leaves there again, and what [`skewguard_library_close`] takes. That the caller hands in a
//! pointer that it was given, and does not use it twice at once or after it was closed, is the caller's to keep.
//!
//! The exports that follow a raw pointer are proved by hand: each is one expression over a safe function, so that its
//! proof does not change with what the function means. [`skewguard_library_draw`] follows none.
#![tactic(auto)]

ghost use Rattle.std.specs.Prelude.{IfSome};
ghost use Rattle.std.specs.Borrow.{sem};
ghost use Rattle.calls.specs.States.{LibraryState, AreTaken, IsCalled, IsOpened, IsOpenedOn, IsReplied};
ghost use Rattle.skewguard_c.specs.Drawings.{IsDrawn};
ghost use Rattle.skewguard_c.specs.Handles.{handle, handle_where, outcome_of_open, outcome_of_open_journal};

mod refusals;
#[cfg(test)]
mod tests;

use calls::{Library, open, open_journal};
use std::alloc::Global;

/// The library of a request in a box, if there is memory for it.
fn make(alloc: Global, request: &[u8]) -> Option<Box<Library>>
    ensures { IfSome result (λ b. IsOpened request.now b.value) }
{
    let library = open(alloc, request);
    Box::new(alloc, library).ok()
}

/// The library of a request on the journal in a file, in a box, if there is memory for it.
fn make_on_journal(alloc: Global, request: &[u8], file: &[u8]) -> Option<Box<Library>>
    ensures { IfSome result (λ b. IsOpenedOn request.now file.now b.value) }
{
    let library = open_journal(alloc, request, file);
    Box::new(alloc, library).ok()
}

/// Hands out the calls that wait.
fn take(library: &mut Library, buf: &mut [u8], len: &mut usize) -> i32
    ensures { AreTaken library.old library.new buf.old buf.new len.new result }
{
    calls::take_calls(library, buf, len)
}

/// One call.
fn serve(
    library: &mut Library,
    alloc: Global,
    operation: u32,
    request: &[u8],
    buf: &mut [u8],
    len: &mut usize,
) -> i32
    ensures called { IsCalled operation request.now library.old library.new }
    ensures replied { IsReplied operation library.new buf.old buf.new len.new result }
{
    calls::serve(library, alloc, operation, request, buf, len)
}

/// Lets a library go, with all its memory.
fn finish(library: Box<Library>) {
    drop(library);
}

/// Opens a library by a request: the greatest number of commits, and the bytes of the definitions. Its first reply, by
/// operation 0, says what became of them.
///
/// 0, and the handle is in `out`; or 2 without memory, and nothing was made.
#[unsafe(no_mangle)]
pub extern "C" fn skewguard_library_open(alloc: Global, request: &[u8], out: &mut *mut u8) -> i32
    ensures* { sem 𝓛 (outcome_of_open alloc request.now out.old out.new result) }
{
    match make(alloc, request) {
        Some(made) => {
            *out = Box::into_raw(made) as *mut u8;
            0
        }
        None => 2,
    }
}

/// Opens a library on a journal, by a request as of [`skewguard_library_open`] and the bytes of the journal's file.
///
/// 0, and the handle is in `out`; or 2 without memory, and nothing was made.
#[unsafe(no_mangle)]
pub extern "C" fn skewguard_library_open_journal(
    alloc: Global,
    request: &[u8],
    file: &[u8],
    out: &mut *mut u8,
) -> i32
    ensures* { sem 𝓛 (outcome_of_open_journal alloc request.now file.now out.old out.new result) }
{
    match make_on_journal(alloc, request, file) {
        Some(made) => {
            *out = Box::into_raw(made) as *mut u8;
            0
        }
        None => 2,
    }
}

/// Hands out the calls on a journal's file that wait: 0, and they are in `buf`; or 1 where they do not fit, and nothing
/// has changed. Their length is in `len`.
#[unsafe(no_mangle)]
pub unsafe extern "C" fn skewguard_library_take_calls(
    alloc: Global,
    at: *mut u8,
    buf: &mut [u8],
    len: &mut usize,
) -> i32
    ghost old: { LibraryState }
    requires* { sem 𝓛 (handle alloc at old) }
    ensures* { sem 𝓛 (handle_where alloc at (λ new. AreTaken old new buf.old buf.new len.new result)) }
{
    take(&mut *(at as *mut Library), buf, len)
}

/// One call of the library behind a handle: an operation with its request. The reply is in `buf` as far as it fits, and
/// its length in `len`; the status is returned.
#[unsafe(no_mangle)]
pub unsafe extern "C" fn skewguard_library_call(
    alloc: Global,
    at: *mut u8,
    operation: u32,
    request: &[u8],
    buf: &mut [u8],
    len: &mut usize,
) -> i32
    ghost old: { LibraryState }
    requires* { sem 𝓛 (handle alloc at old) }
    ensures* { sem 𝓛 (handle_where alloc at (λ new.
        IsCalled operation request.now old new × IsReplied operation new buf.old buf.new len.new result)) }
{
    serve(
        &mut *(at as *mut Library),
        alloc,
        operation,
        request,
        buf,
        len,
    )
}

/// Closes a library: all its memory is given back, and its handle is none from then on.
#[unsafe(no_mangle)]
pub unsafe extern "C" fn skewguard_library_close(alloc: Global, at: *mut u8)
    ghost old: { LibraryState }
    requires* { sem 𝓛 (handle alloc at old) }
{
    finish(Box::from_raw(alloc, at as *mut Library))
}

/// Draws the fault for which a text was refused, as `skewguard check` draws it: the number of what the text was to be
/// (0 the definitions, 1 rules, 2 a statement), the number of the fault, the definitions as a text, and the bytes of
/// the text. What is drawn is in `buf` as far as it fits, and its length in `len`, which is 0 where nothing more is
/// known.
///
/// 0; 2 without memory; 4 where the request is none.
#[unsafe(no_mangle)]
pub extern "C" fn skewguard_library_draw(
    alloc: Global,
    request: &[u8],
    buf: &mut [u8],
    len: &mut usize,
) -> i32
    ensures { IsDrawn buf.old buf.new len.new result }
{
    refusals::draw_into(alloc, request, buf, len)
}
