//! Scripts of sessions, and what they were answered.

use alone::Answer;
use sqlite_items::Items;
use syntax::ScriptLine;
use value::Text;

/// What one session does. Its name is that of its records; the sessions that the lines name are not looked at.
#[derive(Drop)]
pub struct Script {
    pub name: Text,
    pub lines: Items<ScriptLine>,
}

/// What a script was answered. One that was run has an answer for each line. One that got no thread or no session
/// was not run: its one answer is the refusal, as too many sessions or for want of memory.
#[derive(Drop)]
pub struct ScriptAnswers {
    pub name: Text,
    pub answers: Items<Answer>,
    /// Whether it was run.
    pub ran: bool,
    /// Whether a transaction was open at the end, and so was rolled back.
    pub rolled_back: bool,
    /// For each line in turn whether it is a COMMIT that is accepted and could not be kept. Such a one is answered as
    /// for want of memory, since nothing has changed. None behind the last, and so without a journal, is one.
    pub unkept: Items<bool>,
}
