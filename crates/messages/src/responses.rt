//! What a call answers, and its status.

ghost use Rattle.std.specs.Prelude.{◌≡◌};
ghost use Rattle.messages.specs.Statuses as spec;

use alone::Answer;
use sqlite_items::Items;
use syntax::ScriptLine;
use value::{Refusal, Text};

/// What was refused as a whole, and not as an event of a session.
#[derive(Clone, Copy, Debug, PartialEq, Eq)]
pub enum Source {
    Definitions,
    Session,
    Statement,
    Rules,
    /// What a journal holds.
    Journal,
}

/// Why a call was not made. Nothing has changed then.
#[derive(Clone, Copy, Debug, PartialEq, Eq)]
pub enum Misuse {
    /// The operation is none, or the bytes of the request are none of its own.
    BadRequest,
    /// The session is closed, or was never opened.
    NoSession,
    /// The statement is forgotten, or was never prepared.
    NoStatement,
    /// The statement takes another number of values.
    WrongCount { wanted: usize },
    /// The value may not stand for this parameter, which counts from 1.
    BadValue { parameter: usize },
    /// This is no name of the language.
    BadName,
    /// A session of this name is open.
    NameTaken,
    /// There is no database: its definitions were refused, or its journal was not opened.
    Closed,
    /// The rules of a database with a journal don't change while it is open.
    Journaled,
}

/// Why the commits of a journal were not restored.
#[derive(Clone, Copy, Debug, PartialEq, Eq)]
pub enum Unrestored {
    /// The file does not begin as a journal does.
    Headless,
    /// It is of other definitions.
    OfOthers,
    /// The line of this commit is damaged or missing, which begins at this byte of the file.
    Damaged { number: u64, at: usize },
    /// A change of this commit can't be put into the tables that those before it leave.
    NotDue { number: u64 },
}

/// What a call answers.
#[derive(Drop)]
pub enum Response {
    /// The definitions were taken in.
    Opened,
    /// The session was opened, under this number.
    Session(u64),
    /// The statement was prepared, under this number, and takes so many values.
    Prepared {
        number: u64,
        parameters: usize,
    },
    /// The session was closed.
    SessionClosed,
    /// The statement was forgotten.
    Forgotten,
    /// The engine answered an event.
    Answered {
        script_line: ScriptLine,
        answer: Answer,
    },
    /// The closing part of a report.
    Closing(Text),
    /// The rules have changed; and the closing part of the epoch before.
    Changed(Text),
    Refused {
        source: Source,
        refusal: Refusal,
    },
    Misused(Misuse),
    /// The COMMIT of the session of this name is accepted, and could not be kept. Its transaction is still open.
    NotKept(Text),
    /// There is no database, since its journal was not opened.
    Unrestored(Unrestored),
    /// The beginning of a journal's file: its header, and the image of the committed tables.
    Image(Text),
}

/// What a call is answered: by one response, or by one to each of its events, in their order.
#[derive(Drop)]
pub enum Outcome {
    One(Response),
    Each(Items<Response>),
}

/// What a call returns, as `bindings/c/skewguard.h` numbers it.
#[derive(Clone, Copy, Debug, PartialEq, Eq)]
pub enum Status {
    Done,
    Refused,
    NoMemory,
    /// The call was answered, and there was no memory for the bytes of its reply.
    ReplyWaits,
    BadRequest,
    NoSession,
    NoStatement,
    WrongCount,
    BadValue,
    BadName,
    NameTaken,
    Closed,
    NotKept,
    Journaled,
    Unrestored,
}

/// The number of a status at C.
pub fn status_number(status: Status) -> i32
    ensures { result ≡ spec.status_number status }
{
    match status {
        Status::Done => 0,
        Status::Refused => 1,
        Status::NoMemory => 2,
        Status::ReplyWaits => 3,
        Status::BadRequest => 4,
        Status::NoSession => 5,
        Status::NoStatement => 6,
        Status::WrongCount => 7,
        Status::BadValue => 8,
        Status::BadName => 9,
        Status::NameTaken => 10,
        Status::Closed => 11,
        Status::NotKept => 12,
        Status::Journaled => 13,
        Status::Unrestored => 14,
    }
}

fn status_of_refusal(refusal: &Refusal) -> Status
    ensures { result ≡ spec.status_of_refusal refusal.now }
{
    match refusal {
        Refusal::NoMemory => Status::NoMemory,
        _ => Status::Refused,
    }
}

fn status_of_answer(answer: &Answer) -> Status
    ensures { result ≡ spec.status_of_answer answer.now }
{
    match answer {
        Answer::Refused(refusal) => status_of_refusal(refusal),
        _ => Status::Done,
    }
}

fn status_of_misuse(misuse: Misuse) -> Status
    ensures { result ≡ spec.status_of_misuse misuse }
{
    match misuse {
        Misuse::BadRequest => Status::BadRequest,
        Misuse::NoSession => Status::NoSession,
        Misuse::NoStatement => Status::NoStatement,
        Misuse::WrongCount { .. } => Status::WrongCount,
        Misuse::BadValue { .. } => Status::BadValue,
        Misuse::BadName => Status::BadName,
        Misuse::NameTaken => Status::NameTaken,
        Misuse::Closed => Status::Closed,
        Misuse::Journaled => Status::Journaled,
    }
}

/// The status of a response whose bytes were written.
pub fn status_of(response: &Response) -> Status
    ensures { result ≡ spec.status_of response.now }
{
    match response {
        Response::Answered { answer, .. } => status_of_answer(answer),
        Response::Refused { refusal, .. } => status_of_refusal(refusal),
        Response::Misused(misuse) => status_of_misuse(*misuse),
        Response::NotKept(_) => Status::NotKept,
        Response::Unrestored(_) => Status::Unrestored,
        _ => Status::Done,
    }
}

fn is_done_status(status: Status) -> bool
    ensures { result ≡ spec.is_done_status status }
{
    match status {
        Status::Done => true,
        _ => false,
    }
}

/// Whether what was asked for has been done.
pub fn is_done(response: &Response) -> bool
    ensures { result ≡ spec.is_done response.now }
{
    is_done_status(status_of(response))
}

/// The status of several: that of the first that was not done.
fn status_of_each(responses: &[Response]) -> Status
    ensures { result ≡ spec.status_of_each responses.now }
{
    for response in responses {
        if !is_done(response) {
            return status_of(response);
        }
    }
    Status::Done
}

/// The status of a call.
pub fn status_of_outcome(outcome: &Outcome) -> Status
    ensures { result ≡ spec.status_of_outcome outcome.now }
{
    match outcome {
        Outcome::One(response) => status_of(response),
        Outcome::Each(responses) => status_of_each(responses.as_slice()),
    }
}

/// The status of one response where there was no memory for its bytes.
fn status_without_reply(status: Status) -> Status
    ensures { result ≡ spec.status_without_reply status }
{
    match status {
        Status::NoMemory => Status::NoMemory,
        _ => Status::ReplyWaits,
    }
}

/// The status of a call where there was no memory for the bytes. What several events have done has to be told by them.
pub fn status_of_waiting(outcome: &Outcome) -> Status
    ensures { result ≡ spec.status_of_waiting outcome.now }
{
    match outcome {
        Outcome::One(response) => status_without_reply(status_of(response)),
        Outcome::Each(_) => Status::ReplyWaits,
    }
}
