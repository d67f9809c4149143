//! The line of a response in a report.

ghost use Rattle.std.specs.Prelude.{◌≡◌, ◌++◌, IfOk, OnOk};
ghost use Rattle.messages.specs.Replies as spec;

use crate::responses::{Response, Source};
use report::{write_refusal, write_reply};
use std::alloc::{AllocError, Global};
use std::io;
use value::Text;

/// Behind the name of a session whose COMMIT could not be kept.
const NOT_KEPT: &str = ": REFUSED 25 58030 IO ERROR\n";

/// The word for what was refused, in front of the line of its refusal.
fn source_name(source: Source) -> &'static str
    ensures { result.now ≡ spec.source_name source }
{
    match source {
        Source::Definitions => "DEFS",
        Source::Session => "SESSION",
        Source::Statement => "STATEMENT",
        Source::Rules => "RULES",
        Source::Journal => "JOURNAL",
    }
}

/// The line of a session whose COMMIT could not be kept.
fn write_not_kept(session: &Text, line: &mut Vec<u8>) -> io::Result<()>
    ensures { OnOk result (line.new.items ≡ line.old.items ++ spec.not_kept_line session.now) }
{
    line.extend_from_slice(session.as_bytes())?;
    line.extend_from_slice(NOT_KEPT.as_bytes())?;
    Ok(())
}

/// The line of an answer or of a refusal; empty for any other response.
pub fn line_of(alloc: Global, response: &Response) -> Result<Vec<u8>, AllocError>
    ensures { IfOk result (λ line. line.items ≡ spec.line_of response.now) }
{
    let mut line = Vec::new(alloc);
    let written = match response {
        Response::Answered {
            script_line,
            answer,
        } => write_reply(script_line, answer, &mut line),
        Response::Refused { source, refusal } => write_refusal(
            source_name(*source),
            refusal,
            &mut line,
        ),
        Response::NotKept(session) => write_not_kept(session, &mut line),
        _ => Ok(()),
    };
    match written {
        Ok(()) => Ok(line),
        // (a list of bytes takes all bytes for which there is memory)
        Err(_) => Err(AllocError),
    }
}
