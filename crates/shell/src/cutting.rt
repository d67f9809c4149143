//! The input, cut into pieces.

ghost use Rattle.std.specs.Prelude.{◌≡◌, ◌≢◌, ◌-◌, true, false, ℕ, List, [], length, take, OnOk};
ghost use Rattle.std.specs.Io.KnownBytes.{IsAtEnd};
ghost use Rattle.shell.specs.declared.cutting.Place.TheVariants.{End};
ghost use Rattle.shell.specs.Cuts.{after, behind, forward, no_rest, scan};
ghost use Rattle.shell.specs.Reading.{ReadsOn};

use std::alloc::Global;
use std::io;
use std::io::BufRead;
use std::marker::Model;

/// Where the next byte of the input stands.
#[derive(Clone, Copy, Debug, PartialEq, Eq)]
pub enum Place {
    /// In no quoted text and in no comment.
    Plain,
    /// There too, behind a dash; a second one opens a comment.
    Dash,
    Comment,
    Quote,
    /// Behind the semicolon that ends a piece.
    End,
}

/// Where the next byte stands, behind one that is neither in a quoted text nor in a comment.
fn behind(byte: u8) -> Place
    ensures { result ≡ behind byte }
{
    match byte {
        b';' => Place::End,
        b'\'' => Place::Quote,
        b'-' => Place::Dash,
        _ => Place::Plain,
    }
}

/// Where the next byte stands.
fn after(place: Place, byte: u8) -> Place
    ensures { result ≡ after place byte }
{
    match place {
        Place::Plain | Place::End => behind(byte),
        Place::Dash => {
            if byte == b'-' {
                Place::Comment
            } else {
                behind(byte)
            }
        }
        Place::Comment => {
            if byte == b'\n' {
                Place::Plain
            } else {
                Place::Comment
            }
        }
        Place::Quote => {
            if byte == b'\'' {
                Place::Plain
            } else {
                Place::Quote
            }
        }
    }
}

/// Where the next byte stands, behind some more.
fn scan(place: Place, bytes: &[u8]) -> Place
    ensures { result ≡ scan place bytes.now }
{
    let mut now = place;
    for byte in bytes {
        now = after(now, *byte);
    }
    now
}

/// What came in and is not cut off yet.
#[derive(Drop)]
pub struct Cutter {
    at: usize,
    bytes: Vec<u8>,
    place: Place,
}

impl Model for Cutter {
    ghost use Rattle.shell.specs.Cuts.{Rest};

    ghost Value = { Rest };

    ghost view = { λ c. record { at = c.at; bytes = c.bytes.items; place = c.place } };
}

impl Cutter {
    /// Before the first byte.
    pub fn new(alloc: Global) -> Cutter
        ensures { result ≡ no_rest }
    {
        Cutter {
            at: 0,
            bytes: Vec::new(alloc),
            place: Place::Plain,
        }
    }

    /// Reads on up to the next semicolon, or to the end of the input, and says whether anything was read. It was, up to
    /// there, where the reader then failed: its error, or want of memory, stands beside.
    pub fn read_on<R: BufRead>(&mut self, input: &mut R) -> (bool, io::Result<()>)
        ensures read { ReadsOn self.old self.new result.0 (R.remaining input.old) (R.remaining input.new) }
        ensures end { OnOk result.1 (result.0 ≡ false → IsAtEnd (R.remaining input.old)) }
    {
        let before = self.bytes.len();
        let read = input.read_until(b';', &mut self.bytes);
        self.place = scan(self.place, &self.bytes[before..]);
        let more = self.bytes.len() > before;
        match read {
            Ok(_) => (more, Ok(())),
            Err(error) => (more, Err(error)),
        }
    }

    /// Whether the last byte is the semicolon that ends a piece.
    pub fn is_whole(&self) -> bool
        ensures whole { result ≡ true → self.now.place ≡ End }
        ensures some { result ≡ true → self.now.bytes ≢ [] }
        ensures not { result ≡ false → self.now.bytes ≢ [] → self.now.place ≢ End }
    {
        self.place == Place::End && !self.bytes.is_empty()
    }

    /// Where in the input what is not cut off begins.
    pub fn at(&self) -> usize
        ensures { result ≡ self.now.at }
    {
        self.at
    }

    /// What is not cut off.
    pub fn bytes(&self) -> &[u8]
        ensures { result.now ≡ self.now.bytes }
    {
        self.bytes.as_slice()
    }

    /// The piece that its last byte ends, without that byte.
    pub fn piece(&self) -> &[u8]
        ensures { result.now ≡ take (length self.now.bytes - 1) self.now.bytes }
    {
        match self.bytes.split_last() {
            None => &[],
            Some((_, piece)) => piece,
        }
    }

    /// Cuts off all that there is.
    pub fn cut(&mut self)
        ensures { self.new ≡ record {
          at = forward self.old.at (length self.old.bytes);
          bytes = [];
          place = self.old.place;
        } }
    {
        self.at = self.at.saturating_add(self.bytes.len());
        self.bytes.clear();
    }

    /// Passes over all that there is, and over so many bytes behind it that did not come here.
    pub fn skip(&mut self, more: usize) {
        self.cut();
        self.at = self.at.saturating_add(more);
        self.place = Place::Plain;
    }
}
