//! What a person most likely meant where a text stops being one of the language.

use crate::expected::Which;
use crate::near::Nearest;
use crate::places::{between, bytes_from, push_printable};
use crate::words::{WORDS, is_reserved};
use std::alloc::{AllocError, Global};
use token::{Kind, Token};

/// A token at which a text is refused, with what stands around it.
#[derive(Clone, Copy)]
pub struct Stop<'a> {
    pub which: Which,
    pub text: &'a [u8],
    /// The tokens of its definition or line that stand before it.
    pub before: &'a [Token],
    pub token: Token,
    /// The kinds of tokens that may stand there.
    pub kinds: &'a [Kind],
}

impl<'a> Stop<'a> {
    /// The bytes of the token.
    pub fn bytes(&self) -> &'a [u8] {
        between(self.text, self.token.start, self.token.end)
    }

    /// The kind of the token before it.
    fn last(&self) -> Kind {
        self.before.last().map_or(Kind::End, |token| token.kind)
    }

    /// The kind of the token before it between which and it so many others stand.
    fn kind_before(&self, others: usize) -> Kind {
        let place = self.before.len().saturating_sub(others).saturating_sub(1);
        self.before.get(place).map_or(Kind::End, |token| token.kind)
    }

    /// The kind of the first token of its definition or line.
    fn first(&self) -> Kind {
        self.before.first().map_or(Kind::End, |token| token.kind)
    }

    /// Whether nothing stands between it and the token before it.
    fn is_glued(&self) -> bool {
        self.before
            .last()
            .is_some_and(|token| token.end == self.token.start)
            && self.token.kind == Kind::Name
    }

    /// Whether CONSTRAINT and a name stand right before it.
    fn is_named(&self) -> bool {
        self.last() == Kind::Name && self.kind_before(1) == Kind::Constraint
    }

    /// Whether the first name in the parentheses behind REFERENCES and a table stands right before it.
    fn is_behind_referenced(&self) -> bool {
        self.last() == Kind::Name
            && self.kind_before(1) == Kind::Open
            && self.kind_before(3) == Kind::References
    }

    /// Whether its line is a SELECT of a session.
    fn is_in_select(&self) -> bool {
        self.which == Which::Script
            && self
                .before
                .get(2)
                .is_some_and(|token| token.kind == Kind::Select)
    }

    /// Whether it stands behind GROUP BY and names alone.
    fn is_in_grouping(&self) -> bool {
        let mut others = self.before.iter().rev().skip_while(|token| {
            matches!(token.kind, Kind::Name | Kind::Dot | Kind::Comma)
        });
        others.next().is_some_and(|token| token.kind == Kind::By)
    }

    /// Whether GROUP BY or HAVING stands before it, and ends there.
    fn is_behind_groups(&self) -> bool {
        (self.has_before(Kind::Group) || self.has_before(Kind::Having)) && !self.may_be(Kind::Name)
    }

    fn has_before(&self, kind: Kind) -> bool {
        self.before.iter().any(|token| token.kind == kind)
    }

    /// Whether a token of this kind may stand there.
    pub fn may_be(&self, kind: Kind) -> bool {
        self.kinds.contains(&kind)
    }
}

/// Of ON DELETE and CASCADE.
const NO_REFERENTIAL_ACTION: &str =
    "A foreign key does nothing by itself: change the rows that refer in the same transaction.";

/// Of a second table in a SELECT of a session.
const ONE_TABLE: &str =
    "A SELECT has one table. Ask for the rows of another by a SELECT of its own.";

/// Of the order in which a SELECT of a session lists.
const NO_ORDER: &str =
    "There is no ORDER BY. Rows come in the order of their keys, groups in that of their values in \
     GROUP BY.";

/// What SQL has and a SELECT of a session has not, with what to write there.
const IN_SELECT: [(&str, &str); 10] = [
    ("ASC", NO_ORDER),
    (
        "AVG",
        "There is no AVG. List SUM(C) and COUNT(C); in HAVING compare SUM(C) with a number times COUNT(C).",
    ),
    (
        "CASE",
        "There is no CASE. Write a SELECT for each case, with the case in its WHERE.",
    ),
    ("DESC", NO_ORDER),
    ("INNER", ONE_TABLE),
    ("JOIN", ONE_TABLE),
    ("LEFT", ONE_TABLE),
    (
        "LIMIT",
        "There is no LIMIT. A SELECT lists every row that its WHERE keeps, and every group that its HAVING keeps.",
    ),
    ("ORDER", NO_ORDER),
    ("UNION", "There is no UNION: write a SELECT for each query."),
];

/// What SQL has and the language has not, with what to write.
const ELSEWHERE: [(&str, &str); 41] = [
    (
        "ALTER",
        "Tables are not altered: write the columns into CREATE TABLE.",
    ),
    (
        "ANY",
        "There is no ANY: compare with (SELECT MIN(..) FROM ..) or (SELECT MAX(..) FROM ..).",
    ),
    ("ASC", "Rows come in the order of their keys, always."),
    (
        "AVG",
        "There is no AVG. Compare SUM(C) with a number times COUNT(C).",
    ),
    (
        "BIGINT",
        "The types are INTEGER and VARCHAR(n). INTEGER holds numbers up to 10^15.",
    ),
    (
        "BOOLEAN",
        "The types are INTEGER and VARCHAR(n). Take INTEGER with 0 and 1.",
    ),
    ("CASE", "There is no CASE. Write the cases with AND and OR."),
    ("CHAR", "The types are INTEGER and VARCHAR(n)."),
    ("CASCADE", NO_REFERENTIAL_ACTION),
    (
        "DATE",
        "The types are INTEGER and VARCHAR(n). A day as a number, 20261125, has the right order.",
    ),
    (
        "DECIMAL",
        "The types are INTEGER and VARCHAR(n). Count cents in place of euros.",
    ),
    (
        "DEFAULT",
        "There is no DEFAULT: write the value into each INSERT. A column that is not listed is NULL.",
    ),
    ("DESC", "Rows come in the order of their keys, always."),
    ("DROP", "Nothing is dropped: leave the definition out."),
    (
        "FLOAT",
        "The types are INTEGER and VARCHAR(n). Count hundredths in an INTEGER.",
    ),
    (
        "IF",
        "There is no IF: each name is created once, and a name that is taken is refused.",
    ),
    (
        "INDEX",
        "An index is a definition of its own, of one column: CREATE INDEX name ON T (C).",
    ),
    (
        "INNER",
        "A query has one table. Link another one: EXISTS (SELECT * FROM D WHERE D.COLUMN = R.KEY).",
    ),
    (
        "JOIN",
        "A query has one table. Link another one: EXISTS (SELECT * FROM D WHERE D.COLUMN = R.KEY).",
    ),
    (
        "LEFT",
        "A query has one table. Link another one: NOT EXISTS (SELECT * FROM D WHERE D.COLUMN = R.KEY).",
    ),
    (
        "LIKE",
        "There is no LIKE. Texts are compared whole: = <> < <= > >=, BETWEEN and IN.",
    ),
    (
        "LIMIT",
        "There is no LIMIT. A SELECT lists every row that its WHERE keeps.",
    ),
    (
        "MATCH",
        "There is no MATCH: a row with NULL in one of the columns refers to nothing.",
    ),
    (
        "NUMERIC",
        "The types are INTEGER and VARCHAR(n). Count cents in place of euros.",
    ),
    (
        "ORDER",
        "There is no ORDER BY. Rows come in the order of their keys.",
    ),
    (
        "REAL",
        "The types are INTEGER and VARCHAR(n). Count hundredths in an INTEGER.",
    ),
    (
        "RETURNING",
        "There is no RETURNING. A SELECT shows the rows.",
    ),
    (
        "SAVEPOINT",
        "There are no savepoints. A refused statement leaves no trace in the tables.",
    ),
    ("SMALLINT", "The types are INTEGER and VARCHAR(n)."),
    (
        "SOME",
        "There is no SOME: write EXISTS (SELECT * FROM .. WHERE ..).",
    ),
    (
        "START",
        "A transaction begins with BEGIN, or with BEGIN READ ONLY where it is to write nothing.",
    ),
    (
        "TEXT",
        "The types are INTEGER and VARCHAR(n), with n from 1 to 255.",
    ),
    (
        "TIMESTAMP",
        "The types are INTEGER and VARCHAR(n). A time as a number, of seconds say, has the right order.",
    ),
    (
        "TIME",
        "The types are INTEGER and VARCHAR(n). A time as a number, of minutes say, has the right order.",
    ),
    (
        "TRANSACTION",
        "There is no word TRANSACTION: write BEGIN, BEGIN READ ONLY, COMMIT or ROLLBACK.",
    ),
    (
        "TRIGGER",
        "There are no triggers: an assertion is checked by itself.",
    ),
    ("TRUNCATE", "DELETE FROM T takes all rows out."),
    (
        "UNION",
        "There is no UNION: write one assertion for each query.",
    ),
    (
        "VIEW",
        "There are no views: write the query into the assertion.",
    ),
    (
        "WITH",
        "There is no WITH: write the query where it is used.",
    ),
    ("WRITE", "BEGIN alone begins a transaction that may write."),
];

/// A line of what was most likely meant, if that can be told.
pub fn push_hint(alloc: Global, stop: &Stop, advice: &mut String) -> Result<(), AllocError> {
    if stop.token.kind == Kind::Bad {
        return push_bad_token(stop, advice);
    }
    if let Some(sentence) = elsewhere(stop).or(behind_clause(stop)).or(by_kind(stop)) {
        return push_sentence(sentence, advice);
    }
    if stop.token.kind == Kind::Name {
        return push_near_word(alloc, stop, advice);
    }
    if is_reserved(stop.token.kind) && stop.may_be(Kind::Name) {
        push_printable(stop.bytes(), advice)?;
        return push_sentence(
            " is a reserved word and can be no name: take another one.",
            advice,
        );
    }
    Ok(())
}

fn push_sentence(sentence: &str, advice: &mut String) -> Result<(), AllocError> {
    advice.push_str(sentence)?;
    advice.push_str("\n")
}

/// By what stands there and before it.
fn by_kind(stop: &Stop) -> Option<&'static str> {
    by_grouping(stop)
        .or(by_clause(stop))
        .or(by_sign(stop))
        .or(by_function(stop))
        .or(by_quantifier(stop))
        .or(by_constraint(stop))
        .or(by_column(stop))
        .or(by_beginning(stop))
        .or(by_list(stop))
}

/// Of numbers, texts, signs and NULL.
fn by_sign(stop: &Stop) -> Option<&'static str> {
    match (stop.token.kind, stop.last()) {
        (_, Kind::Text) if stop.is_glued() => {
            Some("The text before it ends here. A quote inside a text is written twice: 'O''HARA'.")
        }
        (Kind::Number, _) if stop.may_be(Kind::Number) => {
            Some("The length of a VARCHAR is from 1 to 255.")
        }
        (Kind::Null, _) if stop.may_be(Kind::Number) => {
            Some("A comparison with NULL is never true: write IS NULL or IS NOT NULL.")
        }
        (Kind::Equal, Kind::Equal) => Some("Equal is written as one sign: =."),
        (Kind::Greater, Kind::Equal) => Some("At least is written >=."),
        (Kind::Less, Kind::Equal) => Some("At most is written <=."),
        (Kind::Open, Kind::Name) if stop.may_be(Kind::Dot) => {
            Some("The functions are COUNT, SUM, MIN and MAX.")
        }
        _ => None,
    }
}

/// Of what stands in the parentheses of a set function.
fn by_function(stop: &Stop) -> Option<&'static str> {
    let (open, function) = match (stop.kind_before(0), stop.kind_before(1)) {
        (Kind::Name, Kind::Open) => (true, stop.kind_before(2)),
        (open, function) => (open == Kind::Open, function),
    };
    match (stop.token.kind, function) {
        (
            Kind::Number | Kind::Plus | Kind::Minus | Kind::Star,
            Kind::Sum | Kind::Min | Kind::Max | Kind::Count,
        ) if open => Some("A set function takes one column, as SUM(C) does; COUNT(*) takes rows."),
        _ => None,
    }
}

/// Of what stands behind GROUP BY and is no column.
fn by_grouping(stop: &Stop) -> Option<&'static str> {
    if !stop.is_in_grouping() {
        return None;
    }
    match (stop.token.kind, stop.last()) {
        (Kind::Where | Kind::Having | Kind::Semicolon, Kind::By) => {
            Some("GROUP BY names a column.")
        }
        (Kind::Where | Kind::Having | Kind::Semicolon, Kind::Comma) => {
            Some("Behind this comma GROUP BY names one more column.")
        }
        (kind, _) if is_of_expressions(kind) => {
            Some("GROUP BY takes columns by their names, and nothing else.")
        }
        _ => None,
    }
}

/// Whether a token stands in expressions, and is no column.
fn is_of_expressions(kind: Kind) -> bool {
    matches!(
        kind,
        Kind::Number
            | Kind::Text
            | Kind::Null
            | Kind::Open
            | Kind::Star
            | Kind::Plus
            | Kind::Minus
            | Kind::Count
            | Kind::Sum
            | Kind::Min
            | Kind::Max
    )
}

/// Of the list of a SELECT of a session, and of its clauses.
fn by_clause(stop: &Stop) -> Option<&'static str> {
    if !stop.is_in_select() {
        return None;
    }
    match (stop.token.kind, stop.last()) {
        (Kind::Where | Kind::Group, _) if stop.is_behind_groups() => {
            Some("The clauses of a SELECT stand in this order: FROM, WHERE, GROUP BY, HAVING.")
        }
        (Kind::Comma, _) if is_behind(Kind::From, stop.before) => Some(ONE_TABLE),
        (Kind::Comma, Kind::Star) => {
            Some(
                "A star lists all columns and stands alone. Beside others write the columns one by one.",
            )
        }
        (Kind::Null, Kind::Select | Kind::Comma) => {
            Some("NULL alone is no expression: list columns, numbers and texts.")
        }
        _ => None,
    }
}

/// Of ALL and DISTINCT.
fn by_quantifier(stop: &Stop) -> Option<&'static str> {
    match (stop.token.kind, stop.last()) {
        (Kind::Distinct, Kind::Select) => Some(
            "DISTINCT stands in set functions alone: COUNT(DISTINCT C). GROUP BY makes one group of each value.",
        ),
        (Kind::Open, Kind::Distinct) => {
            Some("The column of a set function stands without parentheses: COUNT(DISTINCT C).")
        }
        (Kind::Star, Kind::All | Kind::Distinct) => {
            Some("COUNT(*) counts rows, and takes neither ALL nor DISTINCT.")
        }
        _ => None,
    }
}

/// Of the words of a table's constraints.
fn by_constraint(stop: &Stop) -> Option<&'static str> {
    let in_table = stop.has_before(Kind::Table);
    match (stop.token.kind, stop.last()) {
        (Kind::Unique, Kind::Create) => {
            Some("UNIQUE stands in CREATE TABLE, behind the type of a column.")
        }
        // (where a name may stand, what is wrong is that the word is reserved)
        (Kind::Foreign, _) if in_table && stop.may_be(Kind::References) => Some(
            "Behind a column's type stands REFERENCES T; FOREIGN KEY (C) REFERENCES T stands on a line of its own.",
        ),
        (Kind::References, _) if in_table && stop.may_be(Kind::Foreign) => {
            Some("On a line of its own it is FOREIGN KEY (C) REFERENCES T.")
        }
        (Kind::Deferrable, Kind::Not) if in_table && stop.may_be(Kind::Null) => Some(
            "Behind a column NOT begins NOT NULL. Without a word a constraint is not deferrable.",
        ),
        (Kind::On, _) if stop.has_before(Kind::References) && !stop.may_be(Kind::Name) => {
            Some(NO_REFERENTIAL_ACTION)
        }
        _ => None,
    }
}

/// Of what stands behind the name of a column, or of a constraint.
fn by_column(stop: &Stop) -> Option<&'static str> {
    if !stop.has_before(Kind::Table) {
        return None;
    }
    match (stop.token.kind, stop.last()) {
        (Kind::Primary, _) if stop.is_named() => {
            Some("A key has no name: leave CONSTRAINT and the name out.")
        }
        (Kind::Not, _) if stop.is_named() => {
            Some("NOT NULL has no name: leave CONSTRAINT and the name out.")
        }
        (Kind::Comma, _) if stop.is_behind_referenced() => {
            Some(
                "A column refers to one: to the key of the other table, or to a column of it under UNIQUE.",
            )
        }
        (Kind::Open, Kind::Unique) => {
            Some("Behind a column it is UNIQUE alone. UNIQUE (C) stands on a line of its own.")
        }
        (Kind::Open, Kind::Key) => {
            Some(
                "Behind a column it is PRIMARY KEY alone. PRIMARY KEY (C) stands on a line of its own.",
            )
        }
        (kind, Kind::Name) if stop.may_be(Kind::Integer) && is_of_columns(kind) => {
            Some("A column has a type, which stands behind its name: INTEGER or VARCHAR(n).")
        }
        _ => None,
    }
}

/// Whether a word begins what is said of a column behind its type.
fn is_of_columns(kind: Kind) -> bool {
    matches!(
        kind,
        Kind::Check
            | Kind::Constraint
            | Kind::Foreign
            | Kind::Not
            | Kind::Primary
            | Kind::References
            | Kind::Unique
    )
}

/// Of what begins a definition, an event or a rule.
fn by_beginning(stop: &Stop) -> Option<&'static str> {
    match (stop.which, stop.token.kind, stop.last()) {
        (Which::Defs, Kind::Create | Kind::Insert, _) if stop.may_be(Kind::Semicolon) => {
            Some("The definition before it wants its semicolon.")
        }
        (Which::Script, Kind::Name, _) if stop.may_be(Kind::Semicolon) => {
            Some("If the next event begins here, the one before it wants its semicolon.")
        }
        (Which::Defs, kind, Kind::End) if is_of_sessions(kind) => Some(
            "DEFS defines tables and assertions, and puts rows in. What sessions do stands in SCRIPT.",
        ),
        (Which::Script, Kind::Create, Kind::Colon | Kind::End) => {
            Some("Tables and assertions are defined in DEFS, before the sessions begin.")
        }
        (Which::Script, _, Kind::End) => Some(
            "Each event stands behind the name of its session and a colon, as in ALICE: BEGIN;",
        ),
        _ => None,
    }
}

/// Whether a word begins a statement that is no definition.
fn is_of_sessions(kind: Kind) -> bool {
    matches!(
        kind,
        Kind::Begin
            | Kind::Commit
            | Kind::Rollback
            | Kind::Select
            | Kind::Update
            | Kind::Delete
            | Kind::Set
            | Kind::Verdict
    )
}

/// Of what stands behind a comma, or of the comma itself.
fn by_list(stop: &Stop) -> Option<&'static str> {
    match (stop.token.kind, stop.last()) {
        (Kind::Comma, _) if is_behind(Kind::By, stop.before) => {
            Some("GROUP BY of a query in a rule takes one column.")
        }
        (Kind::Comma, _) if is_behind(Kind::From, stop.before) => Some(
            "A query has one table. Link another one: EXISTS (SELECT * FROM D WHERE D.COLUMN = R.KEY).",
        ),
        (Kind::Comma, _) if stop.has_before(Kind::Select) && !stop.has_before(Kind::Group) => {
            Some("A query in a rule lists one thing: *, a column or a set function.")
        }
        _ => None,
    }
}

/// Whether a word stands last but for a name, with its qualifier or the name that it goes by.
fn is_behind(word: Kind, before: &[Token]) -> bool {
    for token in before.iter().rev().take(5) {
        match token.kind {
            Kind::Name | Kind::As | Kind::Dot => {}
            kind => return kind == word,
        }
    }
    false
}

/// Of a word of SQL that the language does not have: the token itself, or the name before a parenthesis.
fn elsewhere(stop: &Stop) -> Option<&'static str> {
    let word = match stop.before.last() {
        Some(token) if stop.token.kind == Kind::Open => between(stop.text, token.start, token.end),
        _ => stop.bytes(),
    };
    sentence_of(stop, word)
}

/// What is said of a word of SQL that the language does not have.
fn sentence_of(stop: &Stop, word: &[u8]) -> Option<&'static str> {
    if stop.is_in_select() {
        sentence_in(&IN_SELECT, word).or(sentence_in(&ELSEWHERE, word))
    } else {
        sentence_in(&ELSEWHERE, word)
    }
}

/// What these sentences say of a word.
fn sentence_in(sentences: &[(&str, &'static str)], word: &[u8]) -> Option<&'static str> {
    for (name, sentence) in sentences {
        if word.eq_ignore_ascii_case(name.as_bytes()) {
            return Some(sentence);
        }
    }
    None
}

/// The words by which clauses of SQL begin that the language does not have. None is reserved, so one may be read as a
/// name, and what stands behind it is refused.
const CLAUSES: [&str; 6] = ["INNER", "JOIN", "LEFT", "LIMIT", "ORDER", "UNION"];

/// Of what stands behind the first word of a clause that the language does not have.
fn behind_clause(stop: &Stop) -> Option<&'static str> {
    let last = stop.before.last()?;
    let word = between(stop.text, last.start, last.end);
    if word.eq_ignore_ascii_case(b"WHEN") {
        return sentence_of(stop, b"CASE");
    }
    if last.kind == Kind::Name && stop.has_before(Kind::From) {
        for name in &CLAUSES {
            if word.eq_ignore_ascii_case(name.as_bytes()) {
                return sentence_of(stop, word);
            }
        }
    }
    None
}

/// Bytes as a word in upper case.
fn push_upper(bytes: &[u8], word: &mut String) -> Result<(), AllocError> {
    if bytes.len() <= 128 {
        for byte in bytes {
            word.push(char::from(byte.to_ascii_uppercase()))?;
        }
    }
    Ok(())
}

/// A reserved word that may stand there and is near to the name that does.
fn push_near_word(alloc: Global, stop: &Stop, advice: &mut String) -> Result<(), AllocError> {
    let mut here = String::new(alloc);
    push_upper(stop.bytes(), &mut here)?;
    match nearest_word(alloc, stop, here.as_str())? {
        Some(word) => writeln!(advice, "Was {word} meant?"),
        None => Ok(()),
    }
}

/// The reserved word that may stand there and is nearest to a word.
fn nearest_word<'a>(
    alloc: Global,
    stop: &Stop,
    here: &'a str,
) -> Result<Option<&'a str>, AllocError> {
    let mut nearest = Nearest::new(here);
    for (kind, spelling) in &WORDS {
        if is_reserved(*kind) && stop.may_be(*kind) {
            nearest.offer(alloc, spelling)?;
        }
    }
    Ok(nearest.found())
}

/// Why no token begins there.
fn push_bad_token(stop: &Stop, advice: &mut String) -> Result<(), AllocError> {
    let bytes = bytes_from(stop.text, stop.token.start);
    let first = bytes.first().copied().unwrap_or(0);
    if first == b'\'' {
        return push_text_fault(bytes_from(bytes, 1), advice);
    }
    match unknown_sign(first) {
        Some(sentence) => push_sentence(sentence, advice),
        None => writeln!(advice, "The byte {first:#04x} stands in comments alone."),
    }
}

/// Why no token begins with a byte that is no quote.
fn unknown_sign(first: u8) -> Option<&'static str> {
    match first {
        b'0'..=b'9' => Some("A number is at most 1000000000000000 (10^15)."),
        b'a'..=b'z' | b'A'..=b'Z' => Some("A name has at most 128 letters."),
        b'"' | b'`' | b'[' => {
            Some("Names stand without quotes, and texts in single ones: 'KIM'.")
        }
        b'!' => Some("Not equal is written <>."),
        b'/' | b'%' => Some(
            "There is no division. Multiply the other side of the comparison. A comment begins with --.",
        ),
        b'|' => Some("Texts are compared whole, and not put together."),
        b'#' => Some("A comment begins with -- and goes to the end of its line."),
        b'_' => Some("A name begins with a letter."),
        _ => None,
    }
}

/// Why the bytes behind a quote are no text.
fn push_text_fault(bytes: &[u8], advice: &mut String) -> Result<(), AllocError> {
    match bytes.iter().find(|byte| !is_of_text(**byte)) {
        Some(b'\n') => push_sentence(
            "The text that this quote opens has no end in its line. A quote inside a text is \
             written twice: 'O''HARA'.",
            advice,
        ),
        Some(byte) if *byte != b'\'' => writeln!(
            advice,
            "A text holds no control characters, and this one has the byte {byte:#04x}."
        ),
        _ if is_ill_formed(bytes) => push_sentence(
            "The text that this quote opens is ill-formed UTF-8.",
            advice,
        ),
        _ => push_sentence(
            "The text that this quote opens has no end. A quote inside a text is written twice: 'O''HARA'.",
            advice,
        ),
    }
}

/// Whether the first line of some bytes is ill-formed UTF-8.
fn is_ill_formed(bytes: &[u8]) -> bool {
    let line = bytes.split(|byte| *byte == b'\n').next().unwrap_or(bytes);
    str::from_utf8(line).is_err()
}

/// Whether a byte goes on a text that a quote has opened.
fn is_of_text(byte: u8) -> bool {
    byte >= b' ' && byte != 0x7F && byte != b'\''
}
