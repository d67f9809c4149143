//! Calls that make several events.

ghost use Rattle.std.specs.Prelude.{◌≡◌, ◌≤◌, ◌+◌, length, vec_capacity};
ghost use Rattle.calls.specs.Steps as spec;

use crate::databases::{Database, field_fault_response, refusal_response};
use messages::{
    Misuse, Outcome, Response, Source, Status, Step, StepsRequest, is_done, read_steps, status_of,
};
use sqlite_items::Items;
use std::alloc::Global;
use syntax::{Event, ScriptLine};
use value::{Refusal, Text};

/// What a call is answered that found no memory before it did anything.
fn outcome_without_memory() -> Outcome
    ensures { result ≡ spec.outcome_without_memory }
{
    Outcome::One(refusal_response(Source::Statement, Refusal::NoMemory))
}

/// Whether a COMMIT has left its transaction open: it found no memory, or could not be kept.
fn is_left_open(response: &Response) -> bool
    ensures { result ≡ spec.is_left_open response.now }
{
    match status_of(response) {
        Status::NoMemory => true,
        Status::NotKept => true,
        _ => false,
    }
}

impl Database {
    /// Runs statements with their values in a session, up to the first that is not done.
    pub fn run_all(&mut self, alloc: Global, request: &[u8]) -> Outcome
        ensures { spec.RunsAll request.now self.old self.new result }
    {
        match read_steps(alloc, request) {
            Ok(fields) => self.run_each(alloc, &fields),
            Err(fault) => Outcome::One(field_fault_response(Source::Statement, fault)),
        }
    }

    fn run_each(&mut self, alloc: Global, fields: &StepsRequest) -> Outcome
        ensures { spec.RunsEach fields.now self.old self.new result }
    {
        let steps = fields.steps.as_slice();
        let Ok(mut responses) = Vec::with_capacity(alloc, steps.len()) else {
            return outcome_without_memory();
        };
        self.run_steps(alloc, fields.session, steps, &mut responses);
        Outcome::Each(Items::from_vec(responses))
    }

    /// Runs statements in turn, puts the responses behind the others, and says whether all were done.
    fn run_steps(
        &mut self,
        alloc: Global,
        session: u64,
        steps: &[Step],
        responses: &mut Vec<Response>,
    ) -> bool
        requires room { length responses.old.items + length steps.now ≤ vec_capacity responses.old }
        ensures run { spec.AreRunBehind session steps.now self.old self.new
            responses.old.items responses.new.items result }
        ensures few { length responses.new.items ≤ length responses.old.items + length steps.now }
        ensures room { vec_capacity responses.new ≡ vec_capacity responses.old }
    {
        for step in steps {
            let response = self.run_statement(
                alloc,
                session,
                step.statement,
                step.values.as_slice(),
            );
            let is_done = is_done(&response);
            responses.push_reserved(response);
            if !is_done {
                return false;
            }
        }
        true
    }

    /// A whole transaction in a session: BEGIN, statements with their values, and COMMIT; or ROLLBACK, where one of
    /// them is not done.
    pub fn transact(&mut self, alloc: Global, request: &[u8]) -> Outcome
        ensures { spec.Transacts request.now self.old self.new result }
    {
        match read_steps(alloc, request) {
            Ok(fields) => self.transact_in(alloc, &fields),
            Err(fault) => Outcome::One(field_fault_response(Source::Statement, fault)),
        }
    }

    fn transact_in(&mut self, alloc: Global, fields: &StepsRequest) -> Outcome
        ensures { spec.TransactsIn fields.now self.old self.new result }
    {
        let Some(name) = self.sessions.name(fields.session) else {
            return Outcome::One(Response::Misused(Misuse::NoSession));
        };
        match name.copy() {
            Ok(name) => self.transact_named(alloc, name, fields),
            Err(_) => outcome_without_memory(),
        }
    }

    /// The transaction in the session of this name. What takes memory beside its events is there before it begins.
    fn transact_named(&mut self, alloc: Global, name: Text, fields: &StepsRequest) -> Outcome
        ensures { spec.TransactsNamed name fields.now self.old self.new result }
    {
        // (those of BEGIN, COMMIT and ROLLBACK too)
        let Some(count) = fields.steps.len().checked_add(3) else {
            drop(name);
            return outcome_without_memory();
        };
        let Ok(mut responses) = Vec::with_capacity(alloc, count) else {
            drop(name);
            return outcome_without_memory();
        };
        let begun = self.answer(fields.session, Event::Begin);
        let is_begun = is_done(&begun);
        responses.push_reserved(begun);
        if is_begun {
            self.work(alloc, name, fields, &mut responses);
        } else {
            drop(name);
        }
        Outcome::Each(Items::from_vec(responses))
    }

    /// The statements behind a BEGIN, and the end of the transaction.
    fn work(
        &mut self,
        alloc: Global,
        name: Text,
        fields: &StepsRequest,
        responses: &mut Vec<Response>,
    )
        requires room { length responses.old.items + length fields.now.steps + 2 ≤ vec_capacity responses.old }
        ensures { spec.AreAdded (spec.IsWorked name fields.now self.old self.new)
            responses.old.items responses.new.items }
    {
        if self.run_steps(alloc, fields.session, fields.steps.as_slice(), responses) {
            self.commit(fields.session, name, responses);
        } else {
            self.roll_back(name, responses);
        }
    }

    /// COMMIT. Where it finds no memory or can't be kept, its transaction is still open, and is rolled back.
    fn commit(&mut self, session: u64, name: Text, responses: &mut Vec<Response>)
        requires room { length responses.old.items + 2 ≤ vec_capacity responses.old }
        ensures { spec.AreAdded (spec.IsCommitted session name self.old self.new)
            responses.old.items responses.new.items }
    {
        let answered = self.answer(session, Event::Commit);
        let is_open = is_left_open(&answered);
        responses.push_reserved(answered);
        if is_open {
            self.roll_back(name, responses);
        } else {
            drop(name);
        }
    }

    /// ROLLBACK, which takes no memory.
    fn roll_back(&mut self, name: Text, responses: &mut Vec<Response>)
        requires room { length responses.old.items + 1 ≤ vec_capacity responses.old }
        ensures { spec.AreAdded (spec.IsRolledBack name self.old self.new)
            responses.old.items responses.new.items }
    {
        let script_line = ScriptLine {
            session: name,
            event: Event::Rollback,
        };
        let answer = self.kept.answer_rollback(&script_line);
        responses.push_reserved(Response::Answered {
            script_line,
            answer,
        });
    }
}
