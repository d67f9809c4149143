//! The sessions that are open.

ghost use Rattle.std.specs.Prelude.{◌≡◌, ◌<◌, length, IfOk, IfSome, OnErr, OnOk, option_copied};
ghost use Rattle.calls.specs.Keeping.{IsSeated};
ghost use Rattle.calls.specs.Sessions as spec;

use crate::kept::KeptEngine;
use commit::{Engine, Seat};
use replay::MOST_SESSIONS;
use std::alloc::{AllocError, Global};
use std::marker::Model;
use value::Text;

/// A session that is open, and its name, by which it has its seat.
#[derive(Drop)]
pub struct Session {
    pub number: u64,
    pub name: Text,
}

/// The open sessions, in the order of their numbers. No number is given twice.
#[derive(Drop)]
pub struct Sessions {
    entries: Vec<Session>,
    /// The number that comes next.
    next: u64,
}

impl Model for Sessions {
    ghost use Rattle.calls.specs.Sessions.{SessionsState};

    ghost Value = { SessionsState };

    ghost view = { λ s. record { entries = s.entries.items; next = s.next } };
}

/// Where a session stands among those that are open.
fn find(sessions: &[Session], number: u64) -> Option<usize>
    ensures found { result ≡ spec.place_of number sessions.now }
    ensures within { IfSome result (λ place. place < length sessions.now) }
{
    sessions.iter().position(|session| session.number == number)
}

/// Whether a name has a seat, or there is one for it.
fn is_seat_free(seats: &[Seat], name: &Text) -> bool
    ensures { result ≡ spec.is_seat_free seats.now name.now }
{
    seats.len() < MOST_SESSIONS || has_seat(seats, name)
}

fn has_seat(seats: &[Seat], name: &Text) -> bool
    ensures { result ≡ spec.has_seat name.now seats.now }
{
    seats.iter().any(|seat| seat.session == *name)
}

impl Sessions {
    /// No session.
    pub fn new(alloc: Global) -> Sessions
        ensures { result ≡ spec.no_sessions }
    {
        Sessions {
            entries: Vec::new(alloc),
            next: 1,
        }
    }

    /// Whether a session of this name is open.
    pub fn is_named(&self, name: &Text) -> bool
        ensures { result ≡ spec.is_named name.now self.now }
    {
        self.entries.iter().any(|session| session.name == *name)
    }

    /// Whether there is a number for one session more, and a seat for its name.
    pub fn has_room(&self, engine: &Engine, name: &Text) -> bool
        ensures { result ≡ spec.has_room engine.now name.now self.now }
    {
        self.next < u64::MAX && is_seat_free(engine.seats(), name)
    }

    /// Opens a session, and gives its number. Its name then has a seat. Where memory runs out, nothing has changed.
    pub fn add(&mut self, kept: &mut KeptEngine, name: Text) -> Result<u64, AllocError>
        requires room { self.old.next < 18446744073709551615 }
        ensures number { IfOk result (λ number. number ≡ self.old.next) }
        ensures added { OnOk result (self.new ≡ spec.with_session name self.old) }
        ensures seated { IsSeated name result kept.old kept.new }
        ensures same { OnErr result (self.new ≡ self.old) }
    {
        let number = self.next;
        self.entries.reserve(1)?;
        kept.seat(&name)?;
        self.entries.push_reserved(Session { number, name });
        self.next = number + 1;
        Ok(number)
    }

    /// The name of an open session.
    pub fn name(&self, number: u64) -> Option<&Text>
        ensures { option_copied result ≡ spec.session_name number self.now }
    {
        match find(self.entries.as_slice(), number) {
            None => None,
            Some(place) => Some(&self.entries[place].name),
        }
    }

    /// Closes a session, and gives it out.
    pub fn close(&mut self, number: u64) -> Option<Session>
        ensures session { result ≡ spec.session_at number self.old }
        ensures left { self.new ≡ spec.without_session number self.old }
    {
        match find(self.entries.as_slice(), number) {
            None => None,
            Some(place) => Some(self.entries.remove(place)),
        }
    }
}
