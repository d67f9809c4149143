//! The lines of answers, piece by piece. Each function puts one piece behind what the writer has.

ghost use Rattle.std.specs.Prelude.{◌≡◌, ◌++◌, OnOk, codes, decimal, map};
ghost use Rattle.std.specs.Io.KnownBytes.{Appends};
ghost use Rattle.alone.specs.Results.{value_of};
ghost use Rattle.report.specs.Report.{answer_line, answer_text, asked_name, with_doubled_quotes, excess_text};
ghost use Rattle.report.specs.Report.{fault_text, further_values, left_open_line, not_kept_line, party_text};
ghost use Rattle.report.specs.Report.{quoted_byte, refusal_line, reply_text, root_text, row_lines, row_text, value_text};
ghost use Rattle.report.specs.Report.{violated_text};

use alone::{Answer, Reply, ResultRow, ResultValue};
use itoa::{Buffer, Integer};
use std::io;
use std::io::Write;
use syntax::{Event, ScriptLine, Statement};
use value::{Excess, Party, Refusal, Root, Text, Value};

/// The line of the answer to a line of a script.
///
/// # Errors
///
/// The writer's own.
pub fn write_reply<W: Write>(
    script_line: &ScriptLine,
    answer: &Answer,
    out: &mut W,
) -> io::Result<()>
    ensures { OnOk result (Appends (W.contents out.old) (W.contents out.new) (answer_line script_line.now answer.now)) }
{
    write_text(&script_line.session, out)?;
    write_word(": ", out)?;
    write_event_answer(&script_line.event, answer, out)?;
    write_word("\n", out)
}

/// The line of a transaction that is open when its session's events end.
pub fn write_left_open<W: Write>(session: &Text, out: &mut W) -> io::Result<()>
    ensures { OnOk result (Appends (W.contents out.old) (W.contents out.new) (left_open_line session.now)) }
{
    write_text(session, out)?;
    write_word(": ROLLBACK AT END\n", out)
}

/// The line of a COMMIT of a session that is accepted, and that its journal could not keep. The transaction is still
/// open.
pub fn write_not_kept<W: Write>(session: &Text, out: &mut W) -> io::Result<()>
    ensures { OnOk result (Appends (W.contents out.old) (W.contents out.new) (not_kept_line session.now)) }
{
    write_text(session, out)?;
    write_word(": REFUSED 25 58030 IO ERROR\n", out)
}

/// The line of a text that was refused whole, by the name of the text.
pub fn write_refusal<W: Write>(text: &str, refusal: &Refusal, out: &mut W) -> io::Result<()>
    ensures { OnOk result (Appends (W.contents out.old) (W.contents out.new) (refusal_line text.now refusal.now)) }
{
    write_word(text, out)?;
    write_word(": REFUSED ", out)?;
    write_fault(false, refusal, out)?;
    write_word("\n", out)
}

fn write_event_answer<W: Write>(event: &Event, answer: &Answer, out: &mut W) -> io::Result<()>
    ensures { OnOk result (Appends (W.contents out.old) (W.contents out.new) (answer_text event.now answer.now)) }
{
    match answer {
        Answer::Begun(commits) => write_numbered("BEGIN ", *commits, out),
        Answer::Replied(reply) => write_reply_text(event, reply, out),
        Answer::Committed(number) => write_numbered("COMMIT ", *number, out),
        Answer::RolledBack => write_word("ROLLBACK", out),
        Answer::Refused(refusal) => {
            write_word("REFUSED ", out)?;
            write_fault(matches!(event, Event::Commit), refusal, out)
        }
    }
}

fn write_reply_text<W: Write>(event: &Event, reply: &Reply, out: &mut W) -> io::Result<()>
    ensures { OnOk result (Appends (W.contents out.old) (W.contents out.new) (reply_text event.now reply.now)) }
{
    match reply {
        Reply::Inserted(count) => write_numbered("INSERT ", *count, out),
        Reply::Updated(count) => write_numbered("UPDATE ", *count, out),
        Reply::Deleted(count) => write_numbered("DELETE ", *count, out),
        Reply::Rows(rows) => {
            write_numbered("SELECT ", rows.len() as u64, out)?;
            write_rows(rows.as_slice(), out)
        }
        Reply::ModesSet => write_word("SET CONSTRAINTS", out),
        Reply::Verdict(truth) => {
            write_word("VERDICT ", out)?;
            write_asked_name(event, out)?;
            write_word(" ", out)?;
            write_word(truth.name(), out)
        }
    }
}

/// A line for each row, behind the line before it.
fn write_rows<W: Write>(rows: &[ResultRow], out: &mut W) -> io::Result<()>
    ensures { OnOk result (Appends (W.contents out.old) (W.contents out.new) (row_lines rows.now)) }
{
    for row in rows {
        write_word("\n  ", out)?;
        write_row(row.values(), out)?;
    }
    Ok(())
}

fn write_row<W: Write>(values: &[ResultValue], out: &mut W) -> io::Result<()>
    ensures { OnOk result (Appends (W.contents out.old) (W.contents out.new) (row_text (map value_of values.now))) }
{
    match values.split_first() {
        None => Ok(()),
        Some((first, others)) => {
            write_result_value(first, out)?;
            write_further_values(others, out)
        }
    }
}

/// The values behind the first, each behind a comma and a space.
fn write_further_values<W: Write>(values: &[ResultValue], out: &mut W) -> io::Result<()>
    ensures { OnOk result (Appends (W.contents out.old) (W.contents out.new)
        (further_values (map value_of values.now))) }
{
    for value in values {
        write_word(", ", out)?;
        write_result_value(value, out)?;
    }
    Ok(())
}

/// The name that a VERDICT asks for; another event asks for none.
fn write_asked_name<W: Write>(event: &Event, out: &mut W) -> io::Result<()>
    ensures { OnOk result (Appends (W.contents out.old) (W.contents out.new) (asked_name event.now)) }
{
    match event {
        Event::Run(Statement::Verdict(name)) => write_text(name, out),
        _ => Ok(()),
    }
}

/// A fault: its number, its SQLSTATE or a dash, and what it names. A violated assertion's SQLSTATE is another at
/// COMMIT.
pub fn write_fault<W: Write>(at_commit: bool, refusal: &Refusal, out: &mut W) -> io::Result<()>
    ensures { OnOk result (Appends (W.contents out.old) (W.contents out.new) (fault_text at_commit refusal.now)) }
{
    match refusal {
        Refusal::NoMemory => write_word("1 - NO MEMORY", out),
        Refusal::Syntax { at } => write_numbered("2 - SYNTAX ", *at as u64, out),
        Refusal::UnknownName { name } => write_named("3 - ", name, out),
        Refusal::NameTaken { name } => write_named("4 - ", name, out),
        Refusal::TypeMismatch => write_word("5 - TYPE", out),
        Refusal::NullNotAllowed { column } => write_named("6 23000 ", column, out),
        Refusal::DuplicateKey { table, key } => write_keyed("7 23000 ", table, key, out),
        Refusal::KeyUpdate { column } => write_named("8 - ", column, out),
        Refusal::OutOfRange { column, excess } => write_out_of_range(column, *excess, out),
        Refusal::Violated { assertion, group } => write_violated(at_commit, assertion, group, out),
        Refusal::NotDeferrable { assertion } => write_named("11 - ", assertion, out),
        Refusal::WriteConflict { table, key, by } => write_conflict(table, key, *by, out),
        Refusal::Dangerous {
            reader,
            pivot,
            writer,
        } => write_dangerous(*reader, *pivot, *writer, out),
        Refusal::NoTransaction => write_word("14 - NO TRANSACTION", out),
        Refusal::TransactionOpen => write_word("15 - TRANSACTION OPEN", out),
        Refusal::Stranger => write_word("16 - STRANGER", out),
        Refusal::EpochFull => write_word("17 - EPOCH FULL", out),
        Refusal::TooWide => write_word("18 - TOO WIDE", out),
        Refusal::TooDeep { at } => write_numbered("19 - TOO DEEP ", *at as u64, out),
        Refusal::OutsideClass => write_word("20 - OUTSIDE CLASS", out),
        Refusal::FalseAtCreation { assertion, group } => write_rooted(
            "21 - ", assertion, group, out,
        ),
        Refusal::AttributeClash { assertion } => write_named("22 - ", assertion, out),
        Refusal::ReadOnlyTransaction => write_word("23 - READ ONLY", out),
        Refusal::TooManySessions => write_word("24 - TOO MANY SESSIONS", out),
    }
}

fn write_out_of_range<W: Write>(column: &Text, excess: Excess, out: &mut W) -> io::Result<()>
    ensures { OnOk result (Appends (W.contents out.old) (W.contents out.new) (excess_text excess ++ column.now)) }
{
    match excess {
        Excess::Number => write_named("9 22003 ", column, out),
        Excess::Text => write_named("9 22001 ", column, out),
    }
}

fn write_violated<W: Write>(
    at_commit: bool,
    assertion: &Text,
    group: &Root,
    out: &mut W,
) -> io::Result<()>
    ensures { OnOk result (Appends (W.contents out.old) (W.contents out.new)
        (violated_text at_commit ++ assertion.now ++ codes " " ++ root_text group.now)) }
{
    if at_commit {
        write_rooted("10 40002 ", assertion, group, out)
    } else {
        write_rooted("10 23000 ", assertion, group, out)
    }
}

fn write_conflict<W: Write>(table: &Text, key: &Value, by: u64, out: &mut W) -> io::Result<()>
    ensures { OnOk result (Appends (W.contents out.old) (W.contents out.new)
        (codes "12 40001 " ++ table.now ++ codes " " ++ value_text key.now ++ codes " BY " ++ decimal by)) }
{
    write_keyed("12 40001 ", table, key, out)?;
    write_numbered(" BY ", by, out)
}

fn write_dangerous<W: Write>(
    reader: Party,
    pivot: Party,
    writer: Party,
    out: &mut W,
) -> io::Result<()>
    ensures { OnOk result (Appends (W.contents out.old) (W.contents out.new)
        ((codes "13 40001 READER " ++ party_text reader)
        ++ (codes " PIVOT " ++ party_text pivot)
        ++ (codes " WRITER " ++ party_text writer))) }
{
    write_party("13 40001 READER ", reader, out)?;
    write_party(" PIVOT ", pivot, out)?;
    write_party(" WRITER ", writer, out)?;
    Ok(())
}

fn write_party<W: Write>(word: &str, party: Party, out: &mut W) -> io::Result<()>
    ensures { OnOk result (Appends (W.contents out.old) (W.contents out.new) (word.now ++ party_text party)) }
{
    match party {
        Party::This => {
            write_word(word, out)?;
            write_word("THIS", out)
        }
        Party::Number(number) => write_numbered(word, number, out),
    }
}

pub fn write_named<W: Write>(word: &str, name: &Text, out: &mut W) -> io::Result<()>
    ensures { OnOk result (Appends (W.contents out.old) (W.contents out.new) (word.now ++ name.now)) }
{
    write_word(word, out)?;
    write_text(name, out)
}

pub fn write_numbered<W: Write>(word: &str, number: u64, out: &mut W) -> io::Result<()>
    ensures { OnOk result (Appends (W.contents out.old) (W.contents out.new) (word.now ++ decimal number)) }
{
    write_word(word, out)?;
    write_number(number, out)
}

pub fn write_number<W: Write>(number: u64, out: &mut W) -> io::Result<()>
    ensures { OnOk result (Appends (W.contents out.old) (W.contents out.new) (decimal number)) }
{
    write_integer(number, out)
}

fn write_keyed<W: Write>(word: &str, table: &Text, key: &Value, out: &mut W) -> io::Result<()>
    ensures { OnOk result (Appends (W.contents out.old) (W.contents out.new)
        (word.now ++ table.now ++ codes " " ++ value_text key.now)) }
{
    write_named(word, table, out)?;
    write_word(" ", out)?;
    write_value(key, out)
}

fn write_rooted<W: Write>(word: &str, assertion: &Text, root: &Root, out: &mut W) -> io::Result<()>
    ensures { OnOk result (Appends (W.contents out.old) (W.contents out.new)
        (word.now ++ assertion.now ++ codes " " ++ root_text root.now)) }
{
    write_named(word, assertion, out)?;
    write_word(" ", out)?;
    write_root(root, out)
}

fn write_root<W: Write>(root: &Root, out: &mut W) -> io::Result<()>
    ensures { OnOk result (Appends (W.contents out.old) (W.contents out.new) (root_text root.now)) }
{
    match root {
        Root::All => write_word("ALL", out),
        Root::Of(value) => write_value(value, out),
    }
}

fn write_value<W: Write>(value: &Value, out: &mut W) -> io::Result<()>
    ensures { OnOk result (Appends (W.contents out.old) (W.contents out.new) (value_text value.now)) }
{
    match value {
        Value::Null => write_word("NULL", out),
        Value::Int(number) => write_integer(*number, out),
        Value::Text(text) => write_literal(text, out),
    }
}

/// A value that a SELECT lists.
fn write_result_value<W: Write>(value: &ResultValue, out: &mut W) -> io::Result<()>
    ensures { OnOk result (Appends (W.contents out.old) (W.contents out.new) (value_text (value_of value.now))) }
{
    match value {
        ResultValue::Null => write_word("NULL", out),
        ResultValue::Number(number) => write_integer(*number, out),
        ResultValue::Text(text) => write_literal(text, out),
    }
}

/// A number in decimal, of any type of integers.
fn write_integer<I: Integer, W: Write>(number: I, out: &mut W) -> io::Result<()>
    ensures { OnOk result (Appends (W.contents out.old) (W.contents out.new) (I.text number)) }
{
    write_word(Buffer::new().format(number), out)
}

/// A text in quotes.
fn write_literal<W: Write>(text: &Text, out: &mut W) -> io::Result<()>
    ensures { OnOk result (Appends (W.contents out.old) (W.contents out.new)
        (codes "'" ++ with_doubled_quotes text.now ++ codes "'")) }
{
    write_word("'", out)?;
    write_quoted(text, out)?;
    write_word("'", out)
}

/// The text with each quote in it written twice.
fn write_quoted<W: Write>(text: &Text, out: &mut W) -> io::Result<()>
    ensures { OnOk result (Appends (W.contents out.old) (W.contents out.new) (with_doubled_quotes text.now)) }
{
    for byte in text.as_bytes() {
        write_quoted_byte(*byte, out)?;
    }
    Ok(())
}

fn write_quoted_byte<W: Write>(byte: u8, out: &mut W) -> io::Result<()>
    ensures { OnOk result (Appends (W.contents out.old) (W.contents out.new) (quoted_byte byte)) }
{
    if byte == b'\'' {
        put(&[byte, byte], out)
    } else {
        put(&[byte], out)
    }
}

pub fn write_text<W: Write>(text: &Text, out: &mut W) -> io::Result<()>
    ensures { OnOk result (Appends (W.contents out.old) (W.contents out.new) text.now) }
{
    put(text.as_bytes(), out)
}

pub fn write_word<W: Write>(word: &str, out: &mut W) -> io::Result<()>
    ensures { OnOk result (Appends (W.contents out.old) (W.contents out.new) word.now) }
{
    put(word.as_bytes(), out)
}

fn put<W: Write>(bytes: &[u8], out: &mut W) -> io::Result<()>
    ensures { OnOk result (Appends (W.contents out.old) (W.contents out.new) bytes.now) }
{
    out.write_all(bytes)
}
