//! A database on a journal, whose file its caller has.

ghost use Rattle.std.specs.Prelude.{◌≡◌, ◌≤◌, drop, length, IfErr, IfOk};
ghost use Rattle.journal.specs.Recovery.{said};
ghost use Rattle.durable.specs.Opening.{IsUnopened};
ghost use Rattle.calls.specs.Calls as calls;
ghost use Rattle.calls.specs.Journals as spec;

use crate::databases::{Database, refusal_response};
use crate::kept::KeptEngine;
use crate::sessions::Sessions;
use crate::statements::Statements;
use delta::View;
use durable::{Ledger, OpenFault, spell_image};
use journal::{Header, read_header, sum_of};
use journal_file::{JournalFile, Outbox};
use messages::{Misuse, Response, Source, Unrestored};
use replay::admit_text;
use std::alloc::{AllocError, Global};
use value::{Refusal, Text};

/// What became of the calls that waited.
#[derive(Clone, Copy, Debug, PartialEq, Eq)]
pub enum Taken {
    /// They are handed out.
    Whole,
    /// They do not fit, and wait.
    TooLong,
    /// There was no memory for them. No commit is kept any more: the file has to be opened again.
    NotKept,
}

fn unrestored_response(why: Unrestored) -> Response
    ensures { result ≡ spec.unrestored_response why }
{
    Response::Unrestored(why)
}

/// What is answered where the commits behind a header of so many bytes were not restored.
fn open_fault_response(base: usize, fault: OpenFault) -> Response
    ensures { spec.Tells fault result }
{
    match fault {
        OpenFault::NoMemory => refusal_response(Source::Definitions, Refusal::NoMemory),
        // (calls that wait fail only for want of memory)
        OpenFault::Disk => refusal_response(Source::Definitions, Refusal::NoMemory),
        OpenFault::Damaged { number, at } => {
            let at = base.saturating_add(at);
            unrestored_response(Unrestored::Damaged { number, at })
        }
        OpenFault::NotDue { number } => unrestored_response(Unrestored::NotDue { number }),
        OpenFault::False(refusal) => refusal_response(Source::Journal, refusal),
    }
}

/// What is answered where the commits behind a header of so many bytes do not go on in a file.
fn unmoved_response(base: usize, fault: OpenFault) -> Response
    ensures { spec.IsNoImage result }
{
    match fault {
        OpenFault::Damaged { number, at } => {
            let at = base.saturating_add(at);
            unrestored_response(Unrestored::Damaged { number, at })
        }
        _ => refusal_response(Source::Definitions, Refusal::NoMemory),
    }
}

/// The header of a journal of these definitions, and where its body begins.
fn read_head(definitions: &[u8], file: &[u8]) -> Result<(Header, usize), Unrestored>
    ensures read { IfOk result (λ read. spec.IsHead definitions.now file.now read.0 read.1) }
    ensures within { IfOk result (λ read. read.1 ≤ length file.now) }
    ensures refused { IfErr result (spec.IsNoHead definitions.now file.now) }
{
    match read_header(file) {
        None => Err(Unrestored::Headless),
        Some((header, body)) => {
            if header.declared == sum_of(definitions) {
                Ok((header, file.len().saturating_sub(body.len())))
            } else {
                Err(Unrestored::OfOthers)
            }
        }
    }
}

/// The ledger of a file, behind its header of so many bytes.
fn open_behind(
    alloc: Global,
    file: &[u8],
    base: usize,
    first: u64,
    declared: &View,
    limit: u32,
) -> Result<Ledger<JournalFile<Outbox>>, OpenFault>
    requires behind { base ≤ length file.now }
    ensures opened { IfOk result (λ ledger. spec.IsOpenedBehind file.now base first declared.now limit
        ledger.engine ledger.writer) }
    ensures refused { IfErr result (IsUnopened declared.now first (said first (drop base file.now))) }
{
    let device = JournalFile::of_read(alloc, file).behind(base);
    Ledger::open(alloc, device, &file[base..], first, declared, limit)
}

/// The same, of which the commits share the syncs that the caller makes.
#[tactic(auto, using(crate::proofs::Opening::opened_shared))]
fn open_sharing(
    alloc: Global,
    file: &[u8],
    base: usize,
    first: u64,
    declared: &View,
    limit: u32,
) -> Result<Ledger<JournalFile<Outbox>>, OpenFault>
    requires behind { base ≤ length file.now }
    ensures opened { IfOk result (λ ledger. spec.IsOpenedBehind file.now base first declared.now limit
        ledger.engine ledger.writer) }
    ensures refused { IfErr result (IsUnopened declared.now first (said first (drop base file.now))) }
{
    let mut ledger = open_behind(alloc, file, base, first, declared, limit)?;
    ledger.share_syncs();
    Ok(ledger)
}

/// Writes bytes over the front of a buffer.
fn write_over(from: &[u8], buf: &mut [u8])
    requires fits { length from.now ≤ length buf.old }
    ensures { buf.new ≡ spec.written_over buf.old from.now }
{
    buf[..from.len()].copy_from_slice(from);
}

impl Database {
    /// What a journal's file says of these definitions, with at most so many commits more, and no session. The file was
    /// read behind a sync.
    ///
    /// # Errors
    ///
    /// Why there is no database: the definitions are refused, the file is no journal, is of other definitions, is
    /// damaged or has a commit that is none of these tables, or an assertion is false on its rows; or there is no
    /// memory.
    pub fn on_journal(
        alloc: Global,
        definitions: &[u8],
        limit: u32,
        file: &[u8],
    ) -> Result<Database, Response>
        ensures begun { IfOk result (spec.IsBegunOn definitions.now limit file.now) }
        ensures refused { IfErr result (spec.IsUnopened definitions.now file.now) }
    {
        match admit_text(alloc, definitions) {
            Ok(view) => Database::on_tables(alloc, definitions, &view, limit, file),
            Err(refusal) => Err(refusal_response(Source::Definitions, refusal)),
        }
    }

    /// The same of what the definitions define.
    fn on_tables(
        alloc: Global,
        definitions: &[u8],
        declared: &View,
        limit: u32,
        file: &[u8],
    ) -> Result<Database, Response>
        ensures begun { IfOk result (spec.IsBegunOver definitions.now declared.now limit file.now) }
        ensures refused { IfErr result (spec.IsUnopenedOver definitions.now declared.now file.now) }
    {
        match read_head(definitions, file) {
            Ok((header, base)) => {
                Database::behind_header(alloc, file, base, header.first, declared, limit)
            }
            Err(why) => Err(unrestored_response(why)),
        }
    }

    /// The same of a file behind its header of so many bytes.
    fn behind_header(
        alloc: Global,
        file: &[u8],
        base: usize,
        first: u64,
        declared: &View,
        limit: u32,
    ) -> Result<Database, Response>
        requires behind { base ≤ length file.now }
        ensures begun { IfOk result (spec.IsBegunBehind file.now base first declared.now limit) }
        ensures refused { IfErr result (spec.IsUnrestored file.now base first declared.now) }
    {
        match open_sharing(alloc, file, base, first, declared, limit) {
            Ok(ledger) => {
                let Ledger { engine, writer } = ledger;
                Ok(Database {
                    kept: KeptEngine::kept_by(engine, writer),
                    sessions: Sessions::new(alloc),
                    statements: Statements::new(alloc),
                })
            }
            Err(fault) => Err(open_fault_response(base, fault)),
        }
    }

    /// The beginning of a journal of these definitions and of the committed tables.
    pub fn image(&self, alloc: Global, definitions: &[u8]) -> Response
        ensures { calls.ShowsImage definitions.now self.now self.now result }
    {
        match self.spell_image(alloc, definitions) {
            Ok(image) => Response::Image(image),
            Err(_) => refusal_response(Source::Rules, Refusal::NoMemory),
        }
    }

    fn spell_image(&self, alloc: Global, definitions: &[u8]) -> Result<Text, AllocError>
        ensures { IfOk result (λ image. image ≡ calls.image_of definitions.now self.now) }
    {
        let Some(number) = self.kept.commit_count() else {
            return Err(AllocError);
        };
        let newest = self.kept.engine().core().newest();
        let lines = spell_image(alloc, definitions, newest, number)?;
        Text::new(Vec::from_slice(alloc, lines.as_slice())?)
    }

    /// Goes on in another file, which has the header of a journal and behind it an image of the committed tables under
    /// the number of the newest commit ([`Database::image`]). All that waited for a sync was handed out before.
    pub fn move_to(&mut self, alloc: Global, file: &[u8]) -> Response
        ensures { calls.MovesTo file.now self.old self.new result }
    {
        if !self.kept.is_journaled() {
            return Response::Misused(Misuse::BadRequest);
        }
        let Some((header, body)) = read_header(file) else {
            return unrestored_response(Unrestored::Headless);
        };
        if self.kept.commit_count() != Some(header.first) {
            return Response::Misused(Misuse::BadRequest);
        }
        self.move_behind(alloc, file, file.len().saturating_sub(body.len()))
    }

    /// The same of a file behind its header of so many bytes.
    fn move_behind(&mut self, alloc: Global, file: &[u8], base: usize) -> Response
        requires behind { base ≤ length file.now }
        ensures { spec.MovesBehind file.now base self.old self.new result }
    {
        let device = JournalFile::of_read(alloc, file).behind(base);
        match self.kept.move_to(alloc, device, &file[base..]) {
            Ok(()) => Response::Opened,
            Err(fault) => unmoved_response(base, fault),
        }
    }

    /// Hands out the calls on the journal's file that wait, where they fit into the buffer: what to write of all
    /// commits that have counted, and a sync. None waits then. Their length is in `len`.
    pub fn take_calls(&mut self, buf: &mut [u8], len: &mut usize) -> Taken
        ensures { spec.AreTaken self.old self.new buf.old buf.new len.new result }
    {
        match self.kept.sync() {
            Ok(()) => self.hand_out(buf, len),
            Err(_) => {
                *len = 0;
                Taken::NotKept
            }
        }
    }

    /// The same of the calls that wait as they are.
    fn hand_out(&mut self, buf: &mut [u8], len: &mut usize) -> Taken
        ensures { spec.AreHanded self.old.kept self.old self.new buf.old buf.new len.new result }
    {
        let waiting = self.kept.waiting();
        *len = waiting.len();
        if waiting.len() > buf.len() {
            return Taken::TooLong;
        }
        write_over(waiting, buf);
        self.kept.forget_waiting();
        Taken::Whole
    }
}
