//! The texts that the words name, and at most how many commits.

ghost use Rattle.std.specs.Prelude.{◌≤◌, IfErr, IfSome};

use crate::files::{Source, Streams, USAGE, read_or_report};
use checkup::NamedText;
use clap::ArgMatches;
use std::io::Write;
use std::rt::Files;

/// The definitions, and a script where there is one.
#[derive(Drop)]
pub struct Texts<'a> {
    defs: Source<'a>,
    script: Option<Source<'a>>,
}

impl<'a> Texts<'a> {
    /// The definitions.
    pub fn defs(&self) -> NamedText<'_> {
        self.defs.named()
    }

    /// The script, if there is one.
    pub fn script(&self) -> Option<NamedText<'_>> {
        match &self.script {
            Some(script) => Some(script.named()),
            None => None,
        }
    }

    /// The bytes of the script; none where there is no script.
    pub fn script_bytes(&self) -> &[u8] {
        match &self.script {
            Some(script) => script.bytes.as_slice(),
            None => &[],
        }
    }
}

/// The texts that the words name.
///
/// # Errors
///
/// The status to end with, where the words name none or a file can't be read, of which the second stream then says it.
pub fn read_texts<'a, R, W, E>(
    rt: &R,
    words: &'a ArgMatches<'_>,
    streams: &mut Streams<'_, W, E>,
) -> Result<Texts<'a>, u8>
where
    R: Files + AllocGlobal,
    W: Write,
    E: Write,
    ensures { IfErr result (λ status. status ≤ 3) }
{
    let Some(path) = words.get_str("DEFS") else {
        return Err(USAGE);
    };
    let defs = read_or_report(rt, "DEFS", path, streams.err)?;
    let script = match words.get_str("SCRIPT") {
        Some(path) => Some(read_or_report(rt, "SCRIPT", path, streams.err)?),
        None => None,
    };
    let texts = Texts { defs, script };
    let bytes = texts
        .defs
        .bytes
        .len()
        .saturating_add(texts.script_bytes().len());
    streams.sign.take_down(bytes);
    Ok(texts)
}

/// At most so many commits, as the words say.
pub fn limit_of(words: &ArgMatches<'_>) -> Option<u32>
    ensures { IfSome result (λ limit. 1 ≤ limit) }
{
    match words.get_one::<u32>("max-commits") {
        Some(limit) if limit > 0 => Some(limit),
        _ => None,
    }
}
