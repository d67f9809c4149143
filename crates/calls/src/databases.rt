//! A database with its sessions and its prepared statements.

ghost use Rattle.std.specs.Prelude.{◌≡◌, ◌≤◌, IfOk, IfErr};
ghost use Rattle.std.specs.Option.{option_map};
ghost use Rattle.messages.specs.Requests.{only_number};
ghost use Rattle.replay.specs.Reports.{closing_part_of};
ghost use Rattle.calls.specs.Calls as spec;
ghost use Rattle.calls.specs.Serving.{IsServed};

use crate::kept::KeptEngine;
use crate::sessions::Sessions;
use crate::statements::Statements;
use commit::{Core, Engine, Unanswered};
use definitions::{NewAssertion, new_assertions};
use messages::{
    FieldFault, Misuse, Operation, Outcome, Response, Source, is_name, read_checkpoint, read_name,
    read_number, read_only_number, read_run,
};
use parse::{parse_schema, parse_statement};
use prepared::{FillFault, prepare, without_semicolon};
use replay::{admit_text, write_closing_part};
use std::alloc::{AllocError, Global};
use syntax::{Event, ScriptLine, Statement};
use table::Column;
use value::{Refusal, Text, Value};

/// The committed transactions, the open sessions, and the prepared statements.
#[derive(Drop)]
pub struct Database {
    pub kept: KeptEngine,
    pub sessions: Sessions,
    pub statements: Statements,
}

pub fn refusal_response(source: Source, refusal: Refusal) -> Response
    ensures { result ≡ spec.refusal_response source refusal }
{
    Response::Refused { source, refusal }
}

/// What a request is answered whose fields were not read.
pub fn field_fault_response(source: Source, fault: FieldFault) -> Response
    ensures { result ≡ spec.field_fault_response source fault }
{
    match fault {
        FieldFault::NoMemory => refusal_response(source, Refusal::NoMemory),
        FieldFault::Malformed => Response::Misused(Misuse::BadRequest),
    }
}

/// What is answered where values do not fit a statement.
fn fill_fault_response(fault: FillFault) -> Response
    ensures { result ≡ spec.fill_fault_response fault }
{
    match fault {
        FillFault::NoMemory => refusal_response(Source::Statement, Refusal::NoMemory),
        FillFault::WrongCount { wanted, .. } => Response::Misused(Misuse::WrongCount { wanted }),
        FillFault::NullNotAllowed { parameter } => Response::Misused(Misuse::BadValue {
            parameter,
        }),
        FillFault::NumberOutOfRange { parameter } => Response::Misused(Misuse::BadValue {
            parameter,
        }),
        FillFault::TextNotPlain { parameter } => Response::Misused(Misuse::BadValue { parameter }),
    }
}

/// What is told of an event that was not answered.
fn unanswered_response(script_line: ScriptLine, why: Unanswered) -> Response
    ensures { result ≡ spec.unanswered_response script_line why }
{
    let ScriptLine { session, event } = script_line;
    drop(event);
    match why {
        Unanswered::NotKept => Response::NotKept(session),
        Unanswered::NoMemory => {
            drop(session);
            refusal_response(Source::Statement, Refusal::NoMemory)
        }
    }
}

/// Adds the name that a value has, if it is a text and a name of the language.
fn add_name(alloc: Global, value: &Value, names: &mut Vec<Text>) -> Result<bool, AllocError>
    ensures { IfOk result (λ added. spec.IsNameAdded added value.now names.old.items names.new.items) }
{
    match value {
        Value::Text(text) => {
            if !is_name(text.as_bytes()) {
                return Ok(false);
            }
            names.push(read_name(alloc, text.as_bytes())?)?;
            Ok(true)
        }
        _ => Ok(false),
    }
}

/// The names that values have; nothing where one has none.
fn read_names(alloc: Global, values: &[Value]) -> Result<Option<Vec<Text>>, AllocError>
    ensures { IfOk result (λ names. option_map (λ v. v.items) names ≡ spec.names_of values.now) }
{
    let mut names = Vec::new(alloc);
    for value in values {
        if !add_name(alloc, value, &mut names)? {
            return Ok(None);
        }
    }
    Ok(Some(names))
}

/// The rules that a text creates.
fn read_rules(alloc: Global, text: &[u8]) -> Result<Vec<NewAssertion>, Refusal>
    ensures read { IfOk result (λ created. spec.AreRules text.now created.items) }
    ensures refused { IfErr result (spec.AreNoRules text.now) }
{
    let definitions = parse_schema(alloc, text)?;
    let created = new_assertions(alloc, definitions)?;
    Ok(created)
}

/// Whether rules are dropped or created.
fn changes_any(dropped: &[Text], created: &[NewAssertion]) -> bool
    ensures { result ≡ spec.changes_any dropped.now created.now }
{
    !(dropped.is_empty() && created.is_empty())
}

/// The closing part of a report on commits.
fn closing_part(alloc: Global, core: &Core) -> Result<Text, AllocError>
    ensures { IfOk result (λ text. text ≡ closing_part_of core.now) }
{
    let mut bytes = Vec::new(alloc);
    // (a list of bytes takes all bytes for which there is memory)
    if write_closing_part(core, &mut bytes).is_err() {
        return Err(AllocError);
    }
    Text::new(bytes)
}

impl Database {
    /// What definitions define, with at most so many commits, and no session.
    ///
    /// # Errors
    ///
    /// Why the definitions are refused, or [`Refusal::NoMemory`].
    pub fn new(alloc: Global, definitions: &[u8], limit: u32) -> Result<Database, Refusal>
        ensures begun { IfOk result (spec.IsBegun definitions.now limit) }
        ensures refused { IfErr result (spec.IsUnbegun definitions.now) }
    {
        let view = admit_text(alloc, definitions)?;
        let engine = Engine::new(alloc, limit, view, &[])?;
        Ok(Database {
            kept: KeptEngine::alone(engine),
            sessions: Sessions::new(alloc),
            statements: Statements::new(alloc),
        })
    }

    /// One call.
    pub fn serve(&mut self, alloc: Global, operation: Operation, request: &[u8]) -> Outcome
        ensures { IsServed operation request.now self.old self.new result }
    {
        match operation {
            Operation::RunAll => self.run_all(alloc, request),
            Operation::Transact => self.transact(alloc, request),
            _ => Outcome::One(self.operate(alloc, operation, request)),
        }
    }

    /// One call that is answered by one response. `Again` and `Line` are none of a database.
    fn operate(&mut self, alloc: Global, operation: Operation, request: &[u8]) -> Response
        ensures { spec.IsOperated operation request.now self.old self.new result }
    {
        match operation {
            Operation::Again => Response::Misused(Misuse::BadRequest),
            Operation::Line => Response::Misused(Misuse::BadRequest),
            Operation::OpenSession => self.open_session(alloc, request),
            Operation::CloseSession => match read_only_number(request) {
                None => Response::Misused(Misuse::BadRequest),
                Some(session) => self.close_session(session),
            },
            Operation::Prepare => self.prepare_text(alloc, without_semicolon(request)),
            Operation::Forget => match read_only_number(request) {
                None => Response::Misused(Misuse::BadRequest),
                Some(statement) => self.forget(statement),
            },
            Operation::Run => self.run(alloc, request),
            Operation::Execute => match read_number(request) {
                None => Response::Misused(Misuse::BadRequest),
                Some((session, text)) => self.execute(alloc, session, without_semicolon(text)),
            },
            Operation::Begin => self.answer_alone(request, Event::Begin),
            Operation::BeginReadOnly => self.answer_alone(request, Event::BeginReadOnly),
            Operation::Commit => self.answer_alone(request, Event::Commit),
            Operation::Rollback => self.answer_alone(request, Event::Rollback),
            Operation::Report => self.report(alloc),
            Operation::Checkpoint => self.checkpoint(alloc, request),
            Operation::RunAll => Response::Misused(Misuse::BadRequest),
            Operation::Transact => Response::Misused(Misuse::BadRequest),
            Operation::Image => self.image(alloc, request),
            Operation::Move => self.move_to(alloc, request),
        }
    }

    /// Opens a session by a name of the language.
    fn open_session(&mut self, alloc: Global, bytes: &[u8]) -> Response
        ensures { spec.OpensSession bytes.now self.old self.new result }
    {
        if !is_name(bytes) {
            return Response::Misused(Misuse::BadName);
        }
        match read_name(alloc, bytes) {
            Err(error) => refusal_response(Source::Session, error.into()),
            Ok(name) => self.open_named(name),
        }
    }

    /// Opens a session, unless one of its name is open.
    fn open_named(&mut self, name: Text) -> Response
        ensures { spec.OpensNamed name self.old self.new result }
    {
        if self.sessions.is_named(&name) {
            return Response::Misused(Misuse::NameTaken);
        }
        if !self.sessions.has_room(self.kept.engine(), &name) {
            return refusal_response(Source::Session, Refusal::TooManySessions);
        }
        match self.sessions.add(&mut self.kept, name) {
            Ok(number) => Response::Session(number),
            Err(_) => refusal_response(Source::Session, Refusal::NoMemory),
        }
    }

    /// Closes a session, and rolls its open transaction back. Its name is free for another session then. It takes no
    /// memory.
    fn close_session(&mut self, number: u64) -> Response
        ensures { spec.ClosesSession number self.old self.new result }
    {
        let Some(session) = self.sessions.close(number) else {
            return Response::Misused(Misuse::NoSession);
        };
        self.kept.unseat(&session.name);
        Response::SessionClosed
    }

    /// Keeps the statement of a text.
    fn prepare_text(&mut self, alloc: Global, text: &[u8]) -> Response
        ensures { spec.PreparesText text.now self.old self.new result }
    {
        let prepared = match prepare(alloc, text) {
            Ok(prepared) => prepared,
            Err(refusal) => return refusal_response(Source::Statement, refusal),
        };
        let parameters = prepared.parameter_count();
        match self.statements.add(prepared) {
            Ok(number) => Response::Prepared { number, parameters },
            Err(_) => refusal_response(Source::Statement, Refusal::NoMemory),
        }
    }

    /// Lets a statement go.
    fn forget(&mut self, number: u64) -> Response
        ensures { spec.Forgets number self.old self.new result }
    {
        match self.statements.remove(number) {
            None => Response::Misused(Misuse::NoStatement),
            Some(prepared) => {
                drop(prepared);
                Response::Forgotten
            }
        }
    }

    /// Runs a statement with values, in a session.
    fn run(&mut self, alloc: Global, request: &[u8]) -> Response
        ensures { spec.Runs request.now self.old self.new result }
    {
        match read_run(alloc, request) {
            Ok(fields) => self.run_statement(
                alloc,
                fields.session,
                fields.statement,
                &fields.values,
            ),
            Err(fault) => field_fault_response(Source::Statement, fault),
        }
    }

    /// Runs a statement with these values, in a session.
    pub fn run_statement(
        &mut self,
        alloc: Global,
        session: u64,
        statement: u64,
        values: &[Value],
    ) -> Response
        ensures { spec.RunsStatement (record { session = session; statement = statement; values = values.now })
            self.old self.new result }
    {
        let Some(prepared) = self.statements.get(statement) else {
            return Response::Misused(Misuse::NoStatement);
        };
        match prepared.fill(alloc, values) {
            Ok(event) => self.answer(session, event),
            Err(fault) => fill_fault_response(fault),
        }
    }

    /// Executes a text, in a session.
    fn execute(&mut self, alloc: Global, session: u64, text: &[u8]) -> Response
        ensures { spec.ExecutesText text.now session self.old self.new result }
    {
        match parse_statement(alloc, text) {
            Ok(event) => self.answer(session, event),
            Err(refusal) => refusal_response(Source::Statement, refusal),
        }
    }

    /// Answers an event of the session whose number is the request.
    fn answer_alone(&mut self, request: &[u8], event: Event) -> Response
        ensures { spec.WithNumber (only_number request.now) (spec.AnswersEvent (λ e. e ≡ event)) self.old self.new
            result }
    {
        match read_only_number(request) {
            None => {
                drop(event);
                Response::Misused(Misuse::BadRequest)
            }
            Some(session) => self.answer(session, event),
        }
    }

    /// Answers an event of a session.
    pub fn answer(&mut self, session: u64, event: Event) -> Response
        ensures { spec.AnswersEvent (λ e. e ≡ event) session self.old self.new result }
    {
        let Some(name) = self.sessions.name(session) else {
            drop(event);
            return Response::Misused(Misuse::NoSession);
        };
        match name.copy() {
            Ok(session) => self.answer_line(ScriptLine { session, event }),
            Err(_) => {
                drop(event);
                refusal_response(Source::Statement, Refusal::NoMemory)
            }
        }
    }

    /// Answers an event of a session by its name.
    fn answer_line(&mut self, script_line: ScriptLine) -> Response
        ensures { spec.AnswersLine script_line self.old self.new result }
    {
        match self.kept.answer(&script_line) {
            Ok(answer) => Response::Answered {
                script_line,
                answer,
            },
            Err(why) => unanswered_response(script_line, why),
        }
    }

    /// The closing part of a report.
    fn report(&self, alloc: Global) -> Response
        ensures { spec.Reports self.now self.now result }
    {
        match closing_part(alloc, self.kept.engine().core()) {
            Ok(text) => Response::Closing(text),
            Err(_) => refusal_response(Source::Rules, Refusal::NoMemory),
        }
    }

    /// Changes the rules as a request asks, with a new epoch.
    fn checkpoint(&mut self, alloc: Global, request: &[u8]) -> Response
        ensures { spec.Checkpoints request.now self.old self.new result }
    {
        match read_checkpoint(alloc, request) {
            Ok((text, values)) => self.drop_and_create(alloc, &values, text),
            Err(fault) => field_fault_response(Source::Rules, fault),
        }
    }

    /// Drops the rules whose names these values are, and creates those of a text.
    fn drop_and_create(&mut self, alloc: Global, values: &[Value], text: &[u8]) -> Response
        ensures { spec.ChangesNamed (spec.names_of values.now) text.now self.old self.new result }
    {
        let dropped = match read_names(alloc, values) {
            Ok(Some(dropped)) => dropped,
            Ok(None) => return Response::Misused(Misuse::BadName),
            Err(_) => return refusal_response(Source::Rules, Refusal::NoMemory),
        };
        match read_rules(alloc, text) {
            Ok(created) => self.change_rules(alloc, &dropped, &created),
            Err(refusal) => refusal_response(Source::Rules, refusal),
        }
    }

    /// Changes the rules, with a new epoch. A journal begins with the sum of the definitions, so where there is one
    /// they stay as they are.
    fn change_rules(
        &mut self,
        alloc: Global,
        dropped: &[Text],
        created: &[NewAssertion],
    ) -> Response
        ensures { spec.ChangesRules dropped.now created.now self.old self.new result }
    {
        if self.kept.is_journaled() && changes_any(dropped, created) {
            return Response::Misused(Misuse::Journaled);
        }
        self.begin_epoch(alloc, dropped, created)
    }

    /// The same where it may. The closing part of the epoch before is made first, so that nothing fails behind the
    /// change.
    fn begin_epoch(&mut self, alloc: Global, dropped: &[Text], created: &[NewAssertion]) -> Response
        ensures { spec.BeginsEpoch dropped.now created.now self.old self.new result }
    {
        let Ok(text) = closing_part(alloc, self.kept.engine().core()) else {
            return refusal_response(Source::Rules, Refusal::NoMemory);
        };
        match self.kept.checkpoint(dropped, created) {
            Ok(before) => {
                drop(before);
                Response::Changed(text)
            }
            Err(refusal) => {
                drop(text);
                refusal_response(Source::Rules, refusal)
            }
        }
    }

    /// The columns of the table of a response whose SELECT lists all; none for any other response.
    pub fn listed_columns(&self, response: &Response) -> &[Column]
        ensures { result.now ≡ spec.all_columns response.now self.now }
    {
        match response {
            Response::Answered { script_line, .. } => self.columns_of(&script_line.event),
            _ => &[],
        }
    }

    fn columns_of(&self, event: &Event) -> &[Column]
        ensures { result.now ≡ spec.columns_of event.now self.now }
    {
        match event {
            Event::Run(Statement::Select(select)) => self.table_columns(&select.table),
            _ => &[],
        }
    }

    fn table_columns(&self, table: &Text) -> &[Column]
        ensures { result.now ≡ spec.table_columns table.now self.now }
    {
        match self.kept.engine().core().newest().catalog().get(table) {
            None => &[],
            Some(schema) => schema.columns(),
        }
    }
}
