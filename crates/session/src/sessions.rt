//! Sessions of a manager.

ghost use Rattle.std.specs.Prelude.{◌≡◌};

use crate::named::Named;
use std::marker::{Model, PhantomData};
use value::Text;

/// A session of a manager. It remembers the greatest number that it has seen in begins and receipts.
#[derive(Drop)]
pub struct Session<N: Named> {
    pub(crate) id: u64,
    pub(crate) epoch: u64,
    pub(crate) name: Text,
    pub(crate) seen: u64,
    of: PhantomData<N>,
}

impl<N: Named> Model for Session<N> {
    ghost use Rattle.session.specs.Books.{SessionState};

    ghost Value = { SessionState };

    ghost view = { λ s. record { id = s.id; epoch = s.epoch; name = s.name; seen = s.seen } };
}

impl<N: Named> Session<N> {
    pub(crate) fn new(id: u64, epoch: u64, name: Text) -> Session<N>
        ensures { result ≡ record { id = id; epoch = epoch; name = name; seen = 0 } }
    {
        Session {
            id,
            epoch,
            name,
            seen: 0,
            of: PhantomData,
        }
    }

    pub(crate) fn note_seen(&mut self, number: u64)
        ensures { self.new ≡ record self.old { seen = number } }
    {
        self.seen = number;
    }

    /// Its name.
    pub fn name(&self) -> &Text
        ensures { result.now ≡ self.now.name }
    {
        &self.name
    }
}
