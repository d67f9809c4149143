//! What stands behind a handle, and the calls on it.

ghost use Rattle.std.specs.Prelude.{◌≡◌, ◌++◌, IfOk, OnOk};
ghost use Rattle.messages.specs.Replies as messages;
ghost use Rattle.calls.specs.States as spec;
ghost use Rattle.calls.specs.States.{AreTaken, IsCalled, IsOpened, IsOpenedOn, IsReplied, buffer_after};

use crate::databases::Database;
use crate::journals::Taken;
use messages::{
    Bytes, Misuse, Operation, Outcome, Response, Source, add_count_of_replies, add_line_bytes,
    add_response_bytes, operation_of, read_number, status_number, status_of_outcome,
    status_of_waiting,
};
use sqlite_items::Items;
use std::alloc::{AllocError, Global};
use std::marker::Model;
use std::mem;

/// A database, unless its definitions were refused, and what the last call was answered.
#[derive(Drop)]
pub struct Library {
    database: Option<Database>,
    outcome: Outcome,
}

impl Model for Library {
    ghost use Rattle.table.specs.contracts.conds.Cond as cond_type;
    ghost use Rattle.table.specs.contracts.exprs.Expr as expr_type;
    ghost use Rattle.prepared.specs.contracts.prepared.Prepared as prepared_type;
    ghost use Rattle.syntax.specs.contracts.trees.Condition as condition_type;
    ghost use Rattle.syntax.specs.contracts.trees.Expression as expression_type;
    ghost use Rattle.syntax.specs.contracts.trees.Query as query_type;
    ghost use Rattle.std.specs.Coded.{codes};
    ghost use Rattle.calls.specs.States.{LibraryState};

    ghost Value = { LibraryState };

    ghost coded = { Prim.hlevel (
      codes,
      cond_type.the_row.coded,
      expr_type.the_row.coded,
      condition_type.the_row.coded,
      expression_type.the_row.coded,
      query_type.the_row.coded,
      prepared_type.the_row.coded,
    ) };

    ghost view = { λ l. record { database = l.database; outcome = l.outcome } };
}

const MOST_COMMITS: u64 = 4_294_967_295;

fn library_not_open(response: Response) -> Library
    ensures { spec.IsWithout response result }
{
    Library {
        database: None,
        outcome: Outcome::One(response),
    }
}

/// The library of a request: the greatest number of commits, from 0 to 4,294,967,295, and the bytes of the definitions.
/// Its first response says what became of it.
pub fn open(alloc: Global, request: &[u8]) -> Library
    ensures { IsOpened request.now result }
{
    let Some((limit, definitions)) = read_number(request) else {
        return library_not_open(Response::Misused(Misuse::BadRequest));
    };
    if limit > MOST_COMMITS {
        return library_not_open(Response::Misused(Misuse::BadRequest));
    }
    match Database::new(alloc, definitions, limit as u32) {
        Ok(database) => Library {
            database: Some(database),
            outcome: Outcome::One(Response::Opened),
        },
        Err(refusal) => library_not_open(Response::Refused {
            source: Source::Definitions,
            refusal,
        }),
    }
}

/// The library of a request as of [`open`], on a journal. Its file has these bytes, which the caller has read behind a
/// sync, and no other process writes to it. Each call that is made on the library may leave calls on the file, and so
/// may this one: the caller makes them, in their order, before it hands on what the library answers ([`take_calls`]).
/// Its first response says what became of the definitions and of the file.
pub fn open_journal(alloc: Global, request: &[u8], file: &[u8]) -> Library
    ensures { IsOpenedOn request.now file.now result }
{
    let Some((limit, definitions)) = read_number(request) else {
        return library_not_open(Response::Misused(Misuse::BadRequest));
    };
    if limit > MOST_COMMITS {
        return library_not_open(Response::Misused(Misuse::BadRequest));
    }
    match Database::on_journal(alloc, definitions, limit as u32, file) {
        Ok(database) => Library {
            database: Some(database),
            outcome: Outcome::One(Response::Opened),
        },
        Err(response) => library_not_open(response),
    }
}

/// Hands out the calls on a journal's file that wait: what to write where of all commits that have counted, and when to
/// sync, in their order. Where they fit they are in the buffer, none waits then, and 0 is returned; else they wait, and
/// 1 is. 2 is returned where there was no memory for them: no commit is kept any more then, and the file has to be
/// opened again. Their length is in `len`. What the last call was answered stays.
pub fn take_calls(library: &mut Library, buf: &mut [u8], len: &mut usize) -> i32
    ensures { AreTaken library.old library.new buf.old buf.new len.new result }
{
    library.take(buf, len)
}

fn taken_status(taken: Taken) -> i32
    ensures { result ≡ spec.taken_status taken }
{
    match taken {
        Taken::Whole => 0,
        Taken::TooLong => 1,
        Taken::NotKept => 2,
    }
}

fn copy_out(from: &[u8], buf: &mut [u8])
    ensures { buf.new ≡ buffer_after buf.old from.now }
{
    let n = if from.len() < buf.len() {
        from.len()
    } else {
        buf.len()
    };
    buf[..n].copy_from_slice(&from[..n]);
}

/// One call: an operation with its request. The reply is put into the buffer as far as it fits, and its whole length
/// into `len`. Where there is no memory for the reply, the status says so, and the buffer is as it was; operation 0
/// then asks for it again.
pub fn serve(
    library: &mut Library,
    alloc: Global,
    operation: u32,
    request: &[u8],
    buf: &mut [u8],
    len: &mut usize,
) -> i32
    ensures called { IsCalled operation request.now library.old library.new }
    ensures replied { IsReplied operation library.new buf.old buf.new len.new result }
{
    let operation = operation_of(operation);
    library.call(alloc, operation, request);
    match library.reply(alloc, operation) {
        Ok(bytes) => {
            let reply = bytes.as_slice();
            copy_out(reply, buf);
            *len = reply.len();
            status_number(status_of_outcome(&library.outcome))
        }
        Err(_) => {
            *len = 0;
            status_number(status_of_waiting(&library.outcome))
        }
    }
}

impl Library {
    /// Makes the call, unless it asks for what the last one was answered.
    fn call(&mut self, alloc: Global, operation: Option<Operation>, request: &[u8])
        ensures { spec.IsCalledFor operation request.now self.old self.new }
    {
        match operation {
            None => self.note(Outcome::One(Response::Misused(Misuse::BadRequest))),
            Some(Operation::Again) => {}
            Some(Operation::Line) => {}
            Some(operation) => {
                let outcome = self.operate(alloc, operation, request);
                self.note(outcome);
            }
        }
    }

    fn note(&mut self, outcome: Outcome)
        ensures { self.new ≡ record self.old { outcome = outcome } }
    {
        drop(mem::replace(&mut self.outcome, outcome));
    }

    fn operate(&mut self, alloc: Global, operation: Operation, request: &[u8]) -> Outcome
        ensures made { spec.IsMade operation request.now self.old.database self.new.database result }
    {
        match &mut self.database {
            None => Outcome::One(Response::Misused(Misuse::Closed)),
            Some(database) => database.serve(alloc, operation, request),
        }
    }

    /// Hands out the calls that wait.
    fn take(&mut self, buf: &mut [u8], len: &mut usize) -> i32
        ensures taken { spec.AreTakenIf self.old.database self.new.database buf.old buf.new len.new result }
        ensures same { self.new.outcome ≡ self.old.outcome }
    {
        match &mut self.database {
            None => {
                *len = 0;
                0
            }
            Some(database) => taken_status(database.take_calls(buf, len)),
        }
    }

    /// The bytes of the reply.
    fn reply(&self, alloc: Global, operation: Option<Operation>) -> Result<Bytes, AllocError>
        ensures { IfOk result (λ bytes. bytes ≡ spec.reply_for operation self.now) }
    {
        let mut bytes = Bytes::new(alloc)?;
        match &self.outcome {
            Outcome::One(response) => self.add_reply(alloc, operation, response, &mut bytes)?,
            Outcome::Each(responses) => self.add_replies(alloc, operation, responses, &mut bytes)?,
        }
        Ok(bytes)
    }

    /// Adds the replies to several responses.
    fn add_replies(
        &self,
        alloc: Global,
        operation: Option<Operation>,
        responses: &Items<Response>,
        bytes: &mut Bytes,
    ) -> Result<(), AllocError>
        ensures { OnOk result (bytes.new ≡ bytes.old
            ++ spec.replies_to (spec.reply_to operation self.now.database) responses.now) }
    {
        add_count_of_replies(bytes, responses.len())?;
        self.add_each_reply(alloc, operation, responses.as_slice(), bytes)
    }

    fn add_each_reply(
        &self,
        alloc: Global,
        operation: Option<Operation>,
        responses: &[Response],
        bytes: &mut Bytes,
    ) -> Result<(), AllocError>
        ensures { OnOk result (bytes.new ≡ bytes.old
            ++ spec.each_reply (spec.reply_to operation self.now.database) responses.now) }
    {
        for response in responses {
            self.add_reply(alloc, operation, response, bytes)?;
        }
        Ok(())
    }

    /// Adds the reply to a response: its line, where that is asked for.
    fn add_reply(
        &self,
        alloc: Global,
        operation: Option<Operation>,
        response: &Response,
        bytes: &mut Bytes,
    ) -> Result<(), AllocError>
        ensures { OnOk result (bytes.new ≡ bytes.old
            ++ spec.reply_to operation self.now.database response.now) }
    {
        match operation {
            Some(Operation::Line) => add_line_bytes(alloc, bytes, response),
            _ => self.add_response(alloc, response, bytes),
        }
    }

    fn add_response(
        &self,
        alloc: Global,
        response: &Response,
        bytes: &mut Bytes,
    ) -> Result<(), AllocError>
        ensures { OnOk result (bytes.new ≡ bytes.old
            ++ messages.response_bytes (spec.columns_of self.now.database response.now) response.now) }
    {
        match &self.database {
            None => add_response_bytes(alloc, bytes, &[], response),
            Some(database) => {
                let columns = database.listed_columns(response);
                add_response_bytes(alloc, bytes, columns, response)
            }
        }
    }
}
