//! Journals, by which committed transactions outlive the process: how one is opened, `skewguard shell --journal`, and
//! `skewguard checkpoint`.

ghost use Rattle.std.specs.Prelude.{◌≡◌, ◌≤◌, ◌+◌, [], length, IfOk};
ghost use Rattle.durable.specs.Promise.{IsReadyFor};
ghost use Rattle.journal_file.specs.Files.{file_bytes, file_may_leave};

use crate::endings::end_run;
use crate::files::{OUTSIDE, Streams, USAGE, WELL, report_no_memory, report_refused};
use crate::held::{DAMAGED, report_damaged, report_headless, report_of_others};
use crate::shells::end_shell;
use crate::texts::{Texts, read_texts};
use clap::ArgMatches;
use delta::View;
use durable::{Ledger, OpenFault, Outlet, spell_image};
use journal::{read_header, sum_of};
use journal_file::{Draft, JournalFile, OpenFault as FileFault, write_new};
use replay::{ProgramFault, admit_text};
use shell::{LedgerFault, LedgerShell, Pace, Stop};
use std::alloc::{AllocError, Global};
use std::fs::File;
use std::io::{BufReader, BufWriter, Input, Read, Write};
use std::rt::Files;

/// So many zeros stand behind a new file.
const ROOM: usize = 1 << 20;

/// Why a journal was not opened.
#[derive(Debug, Drop)]
pub enum Unopened {
    NoMemory,
    /// A text was refused.
    Text(ProgramFault),
    File(FileFault),
    /// It does not begin as a journal does.
    Headless,
    /// It is of other definitions.
    OfOthers,
    Journal(OpenFault),
}

impl From<AllocError> for Unopened {
    fn from(_error: AllocError) -> Unopened {
        Unopened::NoMemory
    }
}

impl From<FileFault> for Unopened {
    fn from(fault: FileFault) -> Unopened {
        Unopened::File(fault)
    }
}

impl From<OpenFault> for Unopened {
    fn from(fault: OpenFault) -> Unopened {
        Unopened::Journal(fault)
    }
}

/// Why a ledger does not go on in a new file.
#[derive(Debug, Drop)]
enum Unrenewed {
    /// There is none. The ledger goes on in its own.
    Undrafted(FileFault),
    /// It is not known whether the new file has the name.
    Unplaced,
}

impl From<AllocError> for Unrenewed {
    fn from(_error: AllocError) -> Unrenewed {
        Unrenewed::Undrafted(FileFault::NoMemory)
    }
}

impl From<FileFault> for Unrenewed {
    fn from(fault: FileFault) -> Unrenewed {
        Unrenewed::Undrafted(fault)
    }
}

/// What the words of the command line say of a shell on a journal.
#[derive(Clone, Copy)]
pub struct OnJournal<'a> {
    pub defs: &'a [u8],
    pub path: &'a str,
    pub limit: u32,
    pub with_report: bool,
    /// So many commits share a sync at most.
    pub sync_every: u64,
    /// A checkpoint is made where the commits take more bytes than this, and more than the image.
    pub checkpoint_bytes: u64,
}

/// Of which definitions a journal may be.
#[derive(Clone, Copy, PartialEq, Eq)]
pub enum Whose {
    /// Of these alone, by the sum of their text.
    Theirs,
    /// Of any whose tables hold its rows.
    Anyones,
}

/// Answers what comes on standard input, on the definitions and the journal that the words name.
pub fn serve_on_journal<R, W, E>(
    rt: &R,
    texts: &Texts<'_>,
    words: OnJournal<'_>,
    streams: &mut Streams<'_, W, E>,
) -> u8
where
    R: Files<File = File> + Input + AllocGlobal,
    W: Write,
    E: Write,
    ensures { result ≤ 4 }
{
    let alloc = rt.alloc();
    let mut ledger = match open_ledger(rt, words.defs, words.path, words.limit, Whose::Theirs) {
        Ok(ledger) => ledger,
        Err(fault) => return report_unopened(alloc, fault, words.path, texts, streams),
    };
    if words.sync_every > 1 {
        ledger.share_syncs();
    }
    let Ok(mut input) = BufReader::new(alloc, rt.reader()) else {
        return report_no_memory(streams.err);
    };
    let Ok(out) = BufWriter::new(alloc, &mut *streams.out) else {
        return report_no_memory(streams.err);
    };
    let mut outlet = Outlet::new(out);
    let served = serve(rt, words, &mut ledger, &mut input, &mut outlet, streams.err);
    drop(outlet);
    drop(ledger);
    match served {
        Ok(()) => WELL,
        Err(LedgerFault::Shell(fault)) => end_shell(alloc, Err(fault), texts, streams),
        Err(LedgerFault::Journal) => {
            let path = words.path;
            let _ = write!(streams.err, "error: the journal {path} can't be written\n");
            OUTSIDE
        }
    }
}

/// Answers what comes, to its end. Where the journal has grown long, a checkpoint is made in between.
fn serve<R, I, W, E>(
    rt: &R,
    words: OnJournal<'_>,
    ledger: &mut Ledger<JournalFile<File>>,
    input: &mut BufReader<I>,
    outlet: &mut Outlet<W>,
    err: &mut E,
) -> Result<(), LedgerFault>
where
    R: Files<File = File> + AllocGlobal,
    I: Read,
    W: Write,
    E: Write,
    requires ready { IsReadyFor file_bytes file_may_leave
        (length ledger.old.engine.core.records + 1) ledger.old.writer }
{
    let mut shell = LedgerShell::new(rt.alloc());
    let mut longest = longest_behind(ledger.writer.journal.end, words.checkpoint_bytes);
    for _turn in 0..u64::MAX {
        let pace = Pace {
            sync_every: words.sync_every,
            longest,
        };
        match shell.serve(ledger, pace, input, outlet)? {
            Stop::End => break,
            Stop::Long => make_checkpoint(rt, words, ledger, err)?,
        }
        longest = longest_behind(ledger.writer.journal.end, words.checkpoint_bytes);
    }
    shell.finish(ledger, words.with_report, outlet)
}

/// How long a journal may grow whose lines end there: by so many bytes, and to twice its length.
fn longest_behind(end: usize, bytes: u64) -> usize {
    end.saturating_add(end.max(bytes as usize))
}

/// Puts an image in the journal's place, behind which the ledger goes on. Where no file could be made beside the
/// journal, that is said, and the ledger goes on in its own.
///
/// # Errors
///
/// [`LedgerFault::Journal`] where it is not known which of the two files has the name.
fn make_checkpoint<R, E>(
    rt: &R,
    words: OnJournal<'_>,
    ledger: &mut Ledger<JournalFile<File>>,
    err: &mut E,
) -> Result<(), LedgerFault>
where
    R: Files<File = File> + AllocGlobal,
    E: Write,
    requires ready { IsReadyFor file_bytes file_may_leave
        (length ledger.old.engine.core.records + 1) ledger.old.writer }
    ensures ready { IsReadyFor file_bytes file_may_leave
        (length ledger.new.engine.core.records + 1) ledger.new.writer }
{
    match renew(rt, words, ledger) {
        Ok(()) => Ok(()),
        Err(Unrenewed::Undrafted(fault)) => {
            let path = words.path;
            let _ = write!(
                err,
                "warning: no checkpoint of the journal {path}: {fault}\n"
            );
            Ok(())
        }
        Err(Unrenewed::Unplaced) => Err(LedgerFault::Journal),
    }
}

/// Makes a file with an image of the committed tables, and lets the ledger go on in it.
fn renew<R: Files<File = File> + AllocGlobal>(
    rt: &R,
    words: OnJournal<'_>,
    ledger: &mut Ledger<JournalFile<File>>,
) -> Result<(), Unrenewed>
    requires ready { IsReadyFor file_bytes file_may_leave
        (length ledger.old.engine.core.records + 1) ledger.old.writer }
    ensures ready { IsReadyFor file_bytes file_may_leave
        (length ledger.new.engine.core.records + 1) ledger.new.writer }
{
    let alloc = rt.alloc();
    let bytes = spell_whole(alloc, words.defs, ledger)?;
    let old = Some(&ledger.writer.journal.device);
    let draft = Draft::make(rt, words.path, old, &bytes, 0)?;
    let Ok(file) = draft.publish(rt, words.path) else {
        return Err(Unrenewed::Unplaced);
    };
    let base = length_of_header(&bytes);
    match ledger.move_to(alloc, file.behind(base), &bytes[base..]) {
        Ok(()) => Ok(()),
        Err(_) => Err(Unrenewed::Unplaced),
    }
}

/// The bytes of a new journal: the header, an image of the committed tables, and zeros.
fn spell_whole(
    alloc: Global,
    defs: &[u8],
    ledger: &Ledger<JournalFile<File>>,
) -> Result<Vec<u8>, AllocError> {
    let newest = ledger.engine.core().newest();
    let image = spell_image(alloc, defs, newest, ledger.writer.batch.newest)?;
    let mut bytes = Vec::from_slice(alloc, image.as_slice())?;
    bytes.resize(bytes.len().saturating_add(ROOM), 0)?;
    Ok(bytes)
}

/// The length of the header of a file; 0 where it has none.
fn length_of_header(bytes: &[u8]) -> usize
    ensures { result ≤ length bytes.now }
{
    match read_header(bytes) {
        Some((_, body)) => bytes.len().saturating_sub(body.len()),
        None => 0,
    }
}

/// The ledger in the file of this name, which is made where there is none.
fn open_ledger<R: Files<File = File> + AllocGlobal>(
    rt: &R,
    defs: &[u8],
    path: &str,
    limit: u32,
    whose: Whose,
) -> Result<Ledger<JournalFile<File>>, Unopened>
    ensures ready { IfOk result (λ ledger. IsReadyFor file_bytes file_may_leave 1 ledger.writer) }
    ensures fresh { IfOk result (λ ledger. ledger.engine.core.records ≡ []) }
{
    let declared = admit_defs(rt.alloc(), defs)?;
    open_declared(rt, defs, &declared, path, limit, whose)
}

/// The tables that definitions begin with.
pub fn admit_defs(alloc: Global, defs: &[u8]) -> Result<View, Unopened> {
    match admit_text(alloc, defs) {
        Ok(view) => Ok(view),
        Err(refusal) => Err(Unopened::Text(ProgramFault::Defs(refusal))),
    }
}

/// The ledger in the file of this name, which is made where there is none, of definitions that begin with these tables.
pub fn open_declared<R: Files<File = File> + AllocGlobal>(
    rt: &R,
    defs: &[u8],
    declared: &View,
    path: &str,
    limit: u32,
    whose: Whose,
) -> Result<Ledger<JournalFile<File>>, Unopened>
    ensures ready { IfOk result (λ ledger. IsReadyFor file_bytes file_may_leave 1 ledger.writer) }
    ensures fresh { IfOk result (λ ledger. ledger.engine.core.records ≡ []) }
{
    let alloc = rt.alloc();
    let (file, bytes) = match JournalFile::open(rt, path) {
        Ok(opened) => opened,
        Err(FileFault::NotFound) if whose == Whose::Theirs => {
            let image = spell_image(alloc, defs, declared, 0)?;
            drop(write_new(rt, path, None, image.as_slice(), ROOM)?);
            JournalFile::open(rt, path)?
        }
        Err(fault) => return Err(Unopened::File(fault)),
    };
    let Some((header, body)) = read_header(&bytes) else {
        return Err(Unopened::Headless);
    };
    if whose == Whose::Theirs && header.declared != sum_of(defs) {
        return Err(Unopened::OfOthers);
    }
    let base = bytes.len().saturating_sub(body.len());
    let opened = Ledger::open(
        alloc,
        file.behind(base),
        &bytes[base..],
        header.first,
        declared,
        limit,
    );
    match opened {
        // (a journal counts from behind the header)
        Err(OpenFault::Damaged { number, at }) => Err(Unopened::Journal(OpenFault::Damaged {
            number,
            at: base.saturating_add(at),
        })),
        opened => Ok(opened?),
    }
}

/// Puts an image of the rows that a journal holds in its place, under these definitions.
pub fn checkpoint<R, W, E>(rt: &R, words: &ArgMatches<'_>, streams: &mut Streams<'_, W, E>) -> u8
where
    R: Files<File = File> + AllocGlobal,
    W: Write,
    E: Write,
    ensures { result ≤ 4 }
{
    let texts = match read_texts(rt, words, streams) {
        Ok(texts) => texts,
        Err(status) => return status,
    };
    let Some(path) = words.get_str("journal") else {
        return USAGE;
    };
    match replace_by_image(rt, texts.defs().bytes, path) {
        Ok(number) => {
            let _ = write!(streams.out, "image after commit {number}\n");
            WELL
        }
        Err(fault) => report_unopened(rt.alloc(), fault, path, &texts, streams),
    }
}

/// Puts an image in a journal's place. The number of the commit that it is of is answered.
fn replace_by_image<R: Files<File = File> + AllocGlobal>(
    rt: &R,
    defs: &[u8],
    path: &str,
) -> Result<u64, Unopened> {
    let alloc = rt.alloc();
    let ledger = open_ledger(rt, defs, path, 0, Whose::Anyones)?;
    let number = ledger.writer.last;
    let image = spell_image(alloc, defs, ledger.engine.core().newest(), number)?;
    let Ledger { engine, writer } = ledger;
    drop(engine);
    let old = Some(writer.into_device());
    drop(write_new(rt, path, old, image.as_slice(), ROOM)?);
    Ok(number)
}

/// Says why a journal was not opened, and gives the status to end with.
pub fn report_unopened<W: Write, E: Write>(
    alloc: Global,
    fault: Unopened,
    path: &str,
    texts: &Texts<'_>,
    streams: &mut Streams<'_, W, E>,
) -> u8
    ensures { result ≤ 4 }
{
    match fault {
        Unopened::NoMemory => report_no_memory(streams.err),
        Unopened::Text(fault) => end_run(alloc, Err(fault), texts, streams),
        Unopened::File(fault) => {
            let _ = write!(
                streams.err,
                "error: the journal {path} can't be opened: {fault}\n"
            );
            OUTSIDE
        }
        Unopened::Headless => report_headless(path, streams.err),
        Unopened::OfOthers => report_of_others(path, streams.err),
        Unopened::Journal(fault) => report_unrestored(fault, path, streams.err),
    }
}

/// Says why the commits of a journal were not restored, and gives the status to end with.
pub fn report_unrestored<E: Write>(fault: OpenFault, path: &str, err: &mut E) -> u8
    ensures { result ≤ 4 }
{
    match fault {
        OpenFault::NoMemory => report_no_memory(err),
        OpenFault::Disk => {
            let _ = write!(err, "error: the journal {path} can't be written\n");
            OUTSIDE
        }
        OpenFault::Damaged { number, at } => report_damaged(path, number, at, err),
        OpenFault::NotDue { number } => {
            let _ = write!(
                err,
                "error: the journal {path} is damaged: commit {number} is none of these tables\n"
            );
            DAMAGED
        }
        OpenFault::False(refusal) => {
            let _ = write!(
                err,
                "error: the journal {path} holds rows on which an assertion is false\n"
            );
            report_refused("JOURNAL", &refusal, err)
        }
    }
}
