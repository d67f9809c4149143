//! The bytes of a response.

ghost use Rattle.std.specs.Prelude.{◌≡◌, ◌++◌, OnOk};
ghost use Rattle.report.specs.Report.{is_commit};
ghost use Rattle.messages.specs.Replies as spec;

use crate::lines::line_of;
use crate::responses::{Misuse, Response, Unrestored};
use crate::writing::{Bytes, NO_VALUE};
use alone::{Answer, Reply};
use std::alloc::{AllocError, Global};
use syntax::{Event, ScriptLine, Select, Statement};
use table::Column;
use value::Refusal;

/// The number of the layout of requests and replies.
const LAYOUT: u64 = 1;

// The kinds of replies, as `bindings/c/skewguard.h` numbers them.
const NOTHING: u8 = 0;

const OPENED: u8 = 1;

const SESSION: u8 = 2;

const STATEMENT: u8 = 3;

const CHANGED: u8 = 4;

const BEGUN: u8 = 5;

const COMMITTED: u8 = 6;

const ROLLED_BACK: u8 = 7;

const INSERTED: u8 = 8;

const UPDATED: u8 = 9;

const DELETED: u8 = 10;

const ROWS: u8 = 11;

const MODES_SET: u8 = 12;

const VERDICT: u8 = 13;

const TEXT: u8 = 14;

const REFUSAL: u8 = 15;

const MISUSED: u8 = 16;

const SEVERAL: u8 = 17;

const UNRESTORED: u8 = 18;

const IMAGE: u8 = 19;

fn is_commit(event: &Event) -> bool
    ensures { result ≡ is_commit event.now }
{
    match event {
        Event::Commit => true,
        _ => false,
    }
}

fn add_numbered(bytes: &mut Bytes, kind: u8, number: u64) -> Result<(), AllocError>
    ensures { OnOk result (bytes.new ≡ bytes.old ++ spec.number_reply kind number) }
{
    bytes.add_byte(kind)?;
    bytes.add_number(number)
}

fn add_text(bytes: &mut Bytes, text: &[u8]) -> Result<(), AllocError>
    ensures { OnOk result (bytes.new ≡ bytes.old ++ spec.text_reply text.now) }
{
    bytes.add_byte(TEXT)?;
    bytes.add_text(text)
}

fn add_statement(bytes: &mut Bytes, number: u64, parameters: usize) -> Result<(), AllocError>
    ensures { OnOk result (bytes.new ≡ bytes.old ++ spec.statement_reply number parameters) }
{
    add_numbered(bytes, STATEMENT, number)?;
    bytes.add_number(parameters as u64)
}

fn add_misuse(bytes: &mut Bytes, misuse: Misuse) -> Result<(), AllocError>
    ensures { OnOk result (bytes.new ≡ bytes.old ++ spec.misuse_reply misuse) }
{
    match misuse {
        Misuse::WrongCount { wanted } => add_numbered(bytes, MISUSED, wanted as u64),
        Misuse::BadValue { parameter } => add_numbered(bytes, MISUSED, parameter as u64),
        _ => bytes.add_byte(NOTHING),
    }
}

/// The names of the columns that a SELECT lists. `columns` are all of its table.
fn add_column_names(
    bytes: &mut Bytes,
    columns: &[Column],
    select: &Select,
) -> Result<(), AllocError>
    ensures { OnOk result (bytes.new ≡ bytes.old ++ spec.column_names columns.now select.now.columns) }
{
    match &select.columns {
        Some(derived) => bytes.add_names(derived.as_slice()),
        None => bytes.add_columns(columns),
    }
}

/// The same of the statement of an event.
fn add_listed_columns(
    bytes: &mut Bytes,
    columns: &[Column],
    event: &Event,
) -> Result<(), AllocError>
    ensures { OnOk result (bytes.new ≡ bytes.old ++ spec.listed_columns columns.now event.now) }
{
    match event {
        Event::Run(Statement::Select(select)) => add_column_names(bytes, columns, select),
        _ => bytes.add_columns(columns),
    }
}

fn add_reply(
    bytes: &mut Bytes,
    columns: &[Column],
    event: &Event,
    reply: &Reply,
) -> Result<(), AllocError>
    ensures { OnOk result (bytes.new ≡ bytes.old ++ spec.reply_bytes columns.now event.now reply.now) }
{
    match reply {
        Reply::Inserted(count) => add_numbered(bytes, INSERTED, *count),
        Reply::Updated(count) => add_numbered(bytes, UPDATED, *count),
        Reply::Deleted(count) => add_numbered(bytes, DELETED, *count),
        Reply::Rows(rows) => {
            bytes.add_byte(ROWS)?;
            add_listed_columns(bytes, columns, event)?;
            bytes.add_rows(rows.as_slice())
        }
        Reply::ModesSet => bytes.add_byte(MODES_SET),
        Reply::Verdict(truth) => {
            bytes.add_byte(VERDICT)?;
            bytes.add_truth(*truth)
        }
    }
}

/// A refusal, and its line in a report.
fn add_refused(
    bytes: &mut Bytes,
    at_commit: bool,
    refusal: &Refusal,
    line: &[u8],
) -> Result<(), AllocError>
    ensures { OnOk result (bytes.new ≡ bytes.old ++ spec.refused_reply at_commit refusal.now line.now) }
{
    bytes.add_byte(REFUSAL)?;
    bytes.add_refusal(at_commit, refusal)?;
    bytes.add_text(line)
}

fn add_answer(
    bytes: &mut Bytes,
    columns: &[Column],
    script_line: &ScriptLine,
    answer: &Answer,
    line: &[u8],
) -> Result<(), AllocError>
    ensures { OnOk result (bytes.new ≡ bytes.old ++ spec.answer_bytes columns.now script_line.now answer.now line.now) }
{
    match answer {
        Answer::Begun(commits) => add_numbered(bytes, BEGUN, *commits),
        Answer::Replied(reply) => add_reply(bytes, columns, &script_line.event, reply),
        Answer::Committed(number) => add_numbered(bytes, COMMITTED, *number),
        Answer::RolledBack => bytes.add_byte(ROLLED_BACK),
        Answer::Refused(refusal) => add_refused(
            bytes,
            is_commit(&script_line.event),
            refusal,
            line,
        ),
    }
}

/// The reply of a COMMIT that could not be kept: the parts of a refusal of number 25, which names nothing, and its
/// line.
fn add_not_kept(bytes: &mut Bytes, line: &[u8]) -> Result<(), AllocError>
    ensures { OnOk result (bytes.new ≡ bytes.old ++ spec.not_kept_reply line.now) }
{
    add_numbered(bytes, REFUSAL, 25)?;
    bytes.add_text(b"58030")?;
    bytes.add_text(&[])?;
    bytes.add_byte(NO_VALUE)?;
    add_no_numbers(bytes)?;
    bytes.add_text(line)
}

/// The numbers of a refusal that has none.
fn add_no_numbers(bytes: &mut Bytes) -> Result<(), AllocError>
    ensures { OnOk result (bytes.new ≡ bytes.old ++ spec.no_numbers) }
{
    bytes.add_number(0)?;
    bytes.add_number(0)?;
    bytes.add_number(0)?;
    bytes.add_number(0)?;
    bytes.add_number(0)
}

/// Why a journal was not opened: which fault, the commit, and the byte.
fn add_unrestored(bytes: &mut Bytes, why: Unrestored) -> Result<(), AllocError>
    ensures { OnOk result (bytes.new ≡ bytes.old ++ spec.unrestored_reply why) }
{
    match why {
        Unrestored::Headless => add_fault(bytes, 1, 0, 0),
        Unrestored::OfOthers => add_fault(bytes, 2, 0, 0),
        Unrestored::Damaged { number, at } => add_fault(bytes, 3, number, at as u64),
        Unrestored::NotDue { number } => add_fault(bytes, 4, number, 0),
    }
}

fn add_fault(bytes: &mut Bytes, fault: u64, number: u64, at: u64) -> Result<(), AllocError>
    ensures { OnOk result (bytes.new ≡ bytes.old ++ spec.fault_reply fault number at) }
{
    add_numbered(bytes, UNRESTORED, fault)?;
    bytes.add_number(number)?;
    bytes.add_number(at)
}

fn add_image(bytes: &mut Bytes, image: &[u8]) -> Result<(), AllocError>
    ensures { OnOk result (bytes.new ≡ bytes.old ++ spec.image_reply image.now) }
{
    bytes.add_byte(IMAGE)?;
    bytes.add_text(image)
}

/// The line that stands in a reply: that of a refusal.
fn is_refusal(response: &Response) -> bool
    ensures { result ≡ spec.is_refusal response.now }
{
    match response {
        Response::Answered {
            answer: Answer::Refused(_),
            ..
        } => true,
        Response::Refused { .. } => true,
        Response::NotKept(_) => true,
        _ => false,
    }
}

fn add_response(
    bytes: &mut Bytes,
    columns: &[Column],
    response: &Response,
    line: &[u8],
) -> Result<(), AllocError>
    ensures { OnOk result (bytes.new ≡ bytes.old ++ spec.response_with columns.now response.now line.now) }
{
    match response {
        Response::Opened => add_numbered(bytes, OPENED, LAYOUT),
        Response::Session(number) => add_numbered(bytes, SESSION, *number),
        Response::Prepared { number, parameters } => add_statement(bytes, *number, *parameters),
        Response::SessionClosed => bytes.add_byte(CHANGED),
        Response::Forgotten => bytes.add_byte(CHANGED),
        Response::Answered {
            script_line,
            answer,
        } => add_answer(bytes, columns, script_line, answer, line),
        Response::Closing(text) => add_text(bytes, text.as_bytes()),
        Response::Changed(text) => add_text(bytes, text.as_bytes()),
        Response::Refused { refusal, .. } => add_refused(bytes, false, refusal, line),
        Response::Misused(misuse) => add_misuse(bytes, *misuse),
        Response::NotKept(_) => add_not_kept(bytes, line),
        Response::Unrestored(why) => add_unrestored(bytes, *why),
        Response::Image(image) => add_image(bytes, image.as_bytes()),
    }
}

/// Adds the bytes of a response. `columns` are those of the table of a SELECT that lists all.
pub fn add_response_bytes(
    alloc: Global,
    bytes: &mut Bytes,
    columns: &[Column],
    response: &Response,
) -> Result<(), AllocError>
    ensures { OnOk result (bytes.new ≡ bytes.old ++ spec.response_bytes columns.now response.now) }
{
    if is_refusal(response) {
        let line = line_of(alloc, response)?;
        add_response(bytes, columns, response, line.as_slice())
    } else {
        add_response(bytes, columns, response, &[])
    }
}

/// Adds the bytes of its line.
pub fn add_line_bytes(
    alloc: Global,
    bytes: &mut Bytes,
    response: &Response,
) -> Result<(), AllocError>
    ensures { OnOk result (bytes.new ≡ bytes.old ++ spec.text_reply (spec.line_of response.now)) }
{
    let line = line_of(alloc, response)?;
    add_text(bytes, line.as_slice())
}

/// Adds what stands in front of several replies: their kind, and how many they are.
pub fn add_count_of_replies(bytes: &mut Bytes, count: usize) -> Result<(), AllocError>
    ensures { OnOk result (bytes.new ≡ bytes.old ++ spec.number_reply 17 count) }
{
    add_numbered(bytes, SEVERAL, count as u64)
}
