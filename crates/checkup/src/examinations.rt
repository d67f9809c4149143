//! Two texts are looked at: their faults, and what they define.

use crate::figures::distinct;
use crate::scans::{Scan, push_scans};
use assertion::Form;
use definitions::Definitions;
use delta::View;
use diagnosis::{
    BadRow, DefinitionsText, FalseAssertion, ScriptStatement, diagnose_definitions, diagnose_false,
    diagnose_statement,
};
use faults::{At, Diagnosis, NamedText, Which, diagnose_grammar};
use parse::{parse_schema, parse_script};
use replay::MOST_SESSIONS;
use std::alloc::{AllocError, Global};
use syntax::{Event, ScriptLine};
use value::{Refusal, Root};

/// Two texts that are looked at together: definitions, and a script if there is one.
#[derive(Clone, Copy)]
pub struct Texts<'a> {
    pub defs: NamedText<'a>,
    pub script: Option<NamedText<'a>>,
}

impl<'a> Texts<'a> {
    /// The text that a fault is of.
    pub fn of(&self, which: Which) -> NamedText<'a> {
        match (which, self.script) {
            (Which::Script, Some(script)) => script,
            _ => self.defs,
        }
    }
}

/// At most so many statements that are always refused are told.
pub const MOST_NOTES: usize = 5;

/// What was found in two texts.
#[derive(Drop)]
pub struct Examination {
    /// What the definitions define, where they are taken in, with the rows that they put in.
    pub view: Option<View>,
    /// How many events there are in the script, and of how many sessions.
    pub events: usize,
    pub sessions: usize,
    /// The first fault of the definitions, and the first of the script.
    pub faults: Vec<Diagnosis>,
    /// The first statements of the script that are refused whatever the rows are.
    pub notes: Vec<Diagnosis>,
    /// The first statements of the script that look at every row of their table.
    pub scans: Vec<Scan>,
}

impl Examination {
    /// Nothing was found yet.
    pub fn new(alloc: Global) -> Examination {
        Examination {
            view: None,
            events: 0,
            sessions: 0,
            faults: Vec::new(alloc),
            notes: Vec::new(alloc),
            scans: Vec::new(alloc),
        }
    }
}

/// Looks at definitions, and at a script if there is one. Want of memory is the only error.
pub fn examine(alloc: Global, texts: Texts, found: &mut Examination) -> Result<(), AllocError> {
    examine_definitions(alloc, texts.defs.bytes, found)?;
    match texts.script {
        Some(script) => examine_script(alloc, script.bytes, found),
        None => Ok(()),
    }
}

/// Looks at definitions.
pub fn examine_definitions(
    alloc: Global,
    bytes: &[u8],
    found: &mut Examination,
) -> Result<(), AllocError> {
    match parse_schema(alloc, bytes) {
        Ok(definitions) => {
            let definitions = definitions.as_slice();
            take(alloc, DefinitionsText { bytes, definitions }, found)
        }
        Err(refusal) => push_grammar(alloc, Which::Defs, bytes, &refusal, &mut found.faults),
    }
}

/// Looks at a script that is run over what the definitions define.
pub fn examine_script(
    alloc: Global,
    bytes: &[u8],
    found: &mut Examination,
) -> Result<(), AllocError> {
    match parse_script(alloc, bytes) {
        Ok(lines) => look_at_lines(alloc, bytes, lines.as_slice(), found),
        Err(refusal) => push_grammar(alloc, Which::Script, bytes, &refusal, &mut found.faults),
    }
}

/// Puts the fault of a text that is none of the language behind the others.
fn push_grammar(
    alloc: Global,
    which: Which,
    bytes: &[u8],
    refusal: &Refusal,
    faults: &mut Vec<Diagnosis>,
) -> Result<(), AllocError> {
    let mut fault = Diagnosis::new(alloc, which);
    if !diagnose_grammar(alloc, bytes, refusal, &mut fault)? {
        return Err(AllocError);
    }
    faults.push(fault)?;
    Ok(())
}

/// Takes definitions in, and sees whether each assertion holds on their rows.
fn take(alloc: Global, text: DefinitionsText, found: &mut Examination) -> Result<(), AllocError> {
    match Definitions::take(alloc, text.definitions) {
        Ok(taken) => load(alloc, text, taken, found),
        Err(refusal) => push_refused(alloc, text, &refusal, &mut found.faults),
    }
}

/// Puts the fault of definitions that were refused behind the others.
fn push_refused(
    alloc: Global,
    text: DefinitionsText,
    refusal: &Refusal,
    faults: &mut Vec<Diagnosis>,
) -> Result<(), AllocError> {
    if matches!(refusal, Refusal::NoMemory) {
        return Err(AllocError);
    }
    let mut fault = Diagnosis::new(alloc, Which::Defs);
    diagnose_definitions(alloc, text, refusal, &mut fault)?;
    faults.push(fault)?;
    Ok(())
}

/// Keeps the tables with the rows that definitions put in, and the fault of the first assertion that is false on them.
fn load(
    alloc: Global,
    text: DefinitionsText,
    taken: Definitions,
    found: &mut Examination,
) -> Result<(), AllocError> {
    found.view = Some(taken.load(alloc)?);
    match &found.view {
        Some(view) => push_first_false(alloc, text, view, &mut found.faults),
        None => Ok(()),
    }
}

/// Puts the fault of the first assertion that is false behind the others.
fn push_first_false(
    alloc: Global,
    text: DefinitionsText,
    view: &View,
    faults: &mut Vec<Diagnosis>,
) -> Result<(), AllocError> {
    match first_false(view) {
        Some(found) => push_false(alloc, text, found, faults),
        None => Ok(()),
    }
}

/// The first assertion that is false on a view, at its least bad root.
fn first_false(view: &View) -> Option<FalseAssertion<'_>> {
    for place in 0..view.assertions().len() {
        if let Some(root) = view.least_bad(place) {
            let assertion = &view.assertions()[place];
            return Some(FalseAssertion {
                name: &assertion.name,
                root,
                row: bad_row(view, &assertion.form, root),
            });
        }
    }
    None
}

/// Puts the fault of an assertion that is false behind the others.
fn push_false(
    alloc: Global,
    text: DefinitionsText,
    found: FalseAssertion,
    faults: &mut Vec<Diagnosis>,
) -> Result<(), AllocError> {
    let mut fault = Diagnosis::new(alloc, Which::Defs);
    diagnose_false(alloc, text, found, &mut fault)?;
    faults.push(fault)?;
    Ok(())
}

/// The row at which an assertion by rows is false.
fn bad_row<'a>(view: &'a View, form: &Form, root: &Root) -> Option<BadRow<'a>> {
    let (Form::ByRow { table, .. }, Root::Of(key)) = (form, root) else {
        return None;
    };
    Some(BadRow {
        table: view.catalog().name(*table)?,
        row: view.row(*table, key)?,
    })
}

/// Counts the sessions of a script, and looks for statements that are always refused.
fn look_at_lines(
    alloc: Global,
    bytes: &[u8],
    lines: &[ScriptLine],
    found: &mut Examination,
) -> Result<(), AllocError> {
    found.events = lines.len();
    found.sessions = session_count(alloc, lines)?;
    if found.sessions > MOST_SESSIONS {
        push_too_many(alloc, found.sessions, &mut found.faults)?;
    }
    match &found.view {
        Some(view) => {
            push_notes(alloc, bytes, lines, view, &mut found.notes)?;
            push_scans(alloc, lines, view, &mut found.scans)
        }
        None => Ok(()),
    }
}

/// Puts the fault of a script of so many sessions behind the others.
fn push_too_many(
    alloc: Global,
    sessions: usize,
    faults: &mut Vec<Diagnosis>,
) -> Result<(), AllocError> {
    let mut fault = Diagnosis::new(alloc, Which::Script);
    fault.place(24, At::Nowhere);
    write!(
        fault.what,
        "the script has {sessions} sessions, and at most {MOST_SESSIONS} are run"
    )?;
    fault.advise("A session can run many transactions, one after the other: let some share one.")?;
    faults.push(fault)?;
    Ok(())
}

/// Puts the first statements that are always refused behind the others.
fn push_notes(
    alloc: Global,
    bytes: &[u8],
    lines: &[ScriptLine],
    view: &View,
    notes: &mut Vec<Diagnosis>,
) -> Result<(), AllocError> {
    for (place, line) in lines.iter().enumerate() {
        if notes.len() >= MOST_NOTES {
            return Ok(());
        }
        if let Event::Run(statement) = &line.event {
            let line = ScriptStatement {
                bytes,
                place,
                statement,
            };
            push_note(alloc, line, view, notes)?;
        }
    }
    Ok(())
}

/// Puts a statement behind the others, if it is always refused.
fn push_note(
    alloc: Global,
    line: ScriptStatement,
    view: &View,
    notes: &mut Vec<Diagnosis>,
) -> Result<(), AllocError> {
    let mut note = Diagnosis::new(alloc, Which::Script);
    if diagnose_statement(alloc, line, view, &mut note)? {
        notes.push(note)?;
    }
    Ok(())
}

/// How many sessions there are.
fn session_count(alloc: Global, lines: &[ScriptLine]) -> Result<usize, AllocError> {
    let mut names = Vec::new(alloc);
    for line in lines {
        names.push(&line.session)?;
    }
    names.sort_unstable();
    Ok(distinct(&names))
}
