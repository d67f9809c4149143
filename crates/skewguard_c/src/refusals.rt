//! Why a text was refused, drawn in it.

ghost use Rattle.std.specs.Prelude.{◌≡◌};
ghost use Rattle.calls.specs.States.{buffer_after};
ghost use Rattle.skewguard_c.specs.Drawings.{IsDrawn};

use checkup::{RefusedText, Role, draw_refused_text};
use messages::{read_number, read_text};
use std::alloc::{AllocError, Global};

/// What a request asks to have drawn.
#[derive(Clone, Copy)]
struct Request<'a> {
    definitions: &'a [u8],
    refused: RefusedText<'a>,
}

/// What bytes ask for, if they are a request: the number of a role, the number of a fault, the definitions as a text,
/// and the bytes of the text that was refused.
fn read_request(bytes: &[u8]) -> Option<Request<'_>> {
    let (role, rest) = read_number(bytes)?;
    let (number, rest) = read_number(rest)?;
    let (definitions, text) = read_text(rest)?;
    let refused = RefusedText {
        role: role_of(role)?,
        text,
        number: u8::try_from(number).ok()?,
    };
    Some(Request {
        definitions,
        refused,
    })
}

fn role_of(number: u64) -> Option<Role> {
    match number {
        0 => Some(Role::Definitions),
        1 => Some(Role::Rules),
        2 => Some(Role::Statement),
        _ => None,
    }
}

fn draw(alloc: Global, request: Request) -> Result<String, AllocError> {
    let mut drawn = String::new(alloc);
    draw_refused_text(alloc, request.definitions, request.refused, &mut drawn)?;
    Ok(drawn)
}

/// Draws the fault for which a text was refused. What is drawn is put into the buffer as far as it fits, and its whole
/// length into `len`: 0 is returned. 2 without memory, and 4 where the request is none; `len` is 0 then, and the buffer
/// as it was.
pub fn draw_into(alloc: Global, request: &[u8], buf: &mut [u8], len: &mut usize) -> i32
    ensures { IsDrawn buf.old buf.new len.new result }
{
    *len = 0;
    let Some(request) = read_request(request) else {
        return 4;
    };
    match draw(alloc, request) {
        Ok(drawn) => {
            let text = drawn.as_bytes();
            copy_out(text, buf);
            *len = text.len();
            0
        }
        Err(_) => 2,
    }
}

/// Copies bytes into a buffer as far as they fit.
fn copy_out(from: &[u8], buf: &mut [u8])
    ensures { buf.new ≡ buffer_after buf.old from.now }
{
    let n = if from.len() < buf.len() {
        from.len()
    } else {
        buf.len()
    };
    buf[..n].copy_from_slice(&from[..n]);
}
