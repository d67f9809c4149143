//! The tokens of the language: how they are spelled, and what a person calls them.

use std::alloc::{AllocError, Global};
use token::Kind;
use value::Text;

/// Each kind of token that may stand somewhere, with a text of it.
pub const WORDS: [(Kind, &str); 74] = [
    (Kind::Name, "X"),
    (Kind::Number, "1"),
    (Kind::Text, "''"),
    (Kind::Open, "("),
    (Kind::Close, ")"),
    (Kind::Comma, ","),
    (Kind::Semicolon, ";"),
    (Kind::Colon, ":"),
    (Kind::Dot, "."),
    (Kind::Star, "*"),
    (Kind::Plus, "+"),
    (Kind::Minus, "-"),
    (Kind::Equal, "="),
    (Kind::NotEqual, "<>"),
    (Kind::Less, "<"),
    (Kind::AtMost, "<="),
    (Kind::Greater, ">"),
    (Kind::AtLeast, ">="),
    (Kind::All, "ALL"),
    (Kind::And, "AND"),
    (Kind::As, "AS"),
    (Kind::Assertion, "ASSERTION"),
    (Kind::Begin, "BEGIN"),
    (Kind::Between, "BETWEEN"),
    (Kind::By, "BY"),
    (Kind::Check, "CHECK"),
    (Kind::Commit, "COMMIT"),
    (Kind::Constraint, "CONSTRAINT"),
    (Kind::Constraints, "CONSTRAINTS"),
    (Kind::Count, "COUNT"),
    (Kind::Create, "CREATE"),
    (Kind::Deferrable, "DEFERRABLE"),
    (Kind::Deferred, "DEFERRED"),
    (Kind::Delete, "DELETE"),
    (Kind::Distinct, "DISTINCT"),
    (Kind::Exists, "EXISTS"),
    (Kind::False, "FALSE"),
    (Kind::Foreign, "FOREIGN"),
    (Kind::From, "FROM"),
    (Kind::Group, "GROUP"),
    (Kind::Having, "HAVING"),
    (Kind::Immediate, "IMMEDIATE"),
    (Kind::In, "IN"),
    (Kind::Initially, "INITIALLY"),
    (Kind::Insert, "INSERT"),
    (Kind::Int, "INT"),
    (Kind::Integer, "INTEGER"),
    (Kind::Into, "INTO"),
    (Kind::Is, "IS"),
    (Kind::Key, "KEY"),
    (Kind::Max, "MAX"),
    (Kind::Min, "MIN"),
    (Kind::Not, "NOT"),
    (Kind::Null, "NULL"),
    (Kind::On, "ON"),
    (Kind::Only, "ONLY"),
    (Kind::Or, "OR"),
    (Kind::Primary, "PRIMARY"),
    (Kind::Read, "READ"),
    (Kind::References, "REFERENCES"),
    (Kind::Rollback, "ROLLBACK"),
    (Kind::Select, "SELECT"),
    (Kind::Set, "SET"),
    (Kind::Sum, "SUM"),
    (Kind::Table, "TABLE"),
    (Kind::True, "TRUE"),
    (Kind::Unique, "UNIQUE"),
    (Kind::Unknown, "UNKNOWN"),
    (Kind::Update, "UPDATE"),
    (Kind::Values, "VALUES"),
    (Kind::Varchar, "VARCHAR"),
    (Kind::Verdict, "VERDICT"),
    (Kind::Where, "WHERE"),
    (Kind::Work, "WORK"),
];

/// With which an expression begins.
const OF_EXPRESSIONS: [Kind; 10] = [
    Kind::Name,
    Kind::Number,
    Kind::Text,
    Kind::Open,
    Kind::Plus,
    Kind::Minus,
    Kind::Count,
    Kind::Sum,
    Kind::Min,
    Kind::Max,
];

/// With which a condition begins, besides an expression.
const OF_CONDITIONS: [Kind; 2] = [Kind::Not, Kind::Exists];

const COMPARISONS: [Kind; 6] = [
    Kind::Equal,
    Kind::NotEqual,
    Kind::Less,
    Kind::AtMost,
    Kind::Greater,
    Kind::AtLeast,
];

/// Whether a kind is a reserved word.
pub fn is_reserved(kind: Kind) -> bool {
    !matches!(
        kind,
        Kind::End
            | Kind::Bad
            | Kind::Name
            | Kind::Number
            | Kind::Text
            | Kind::Open
            | Kind::Close
            | Kind::Comma
            | Kind::Semicolon
            | Kind::Colon
            | Kind::Dot
            | Kind::Star
            | Kind::Plus
            | Kind::Minus
            | Kind::Equal
            | Kind::NotEqual
            | Kind::AtMost
            | Kind::AtLeast
            | Kind::Less
            | Kind::Greater
    )
}

/// What a person calls a kind of token that is spelled so.
fn name_of_kind(kind: Kind, spelling: &'static str) -> &'static str {
    match kind {
        Kind::Name => "a name",
        Kind::Number => "a number",
        Kind::Text => "a text in quotes",
        Kind::Open => "`(`",
        Kind::Close => "`)`",
        Kind::Comma => "`,`",
        Kind::Semicolon => "`;`",
        Kind::Colon => "`:`",
        Kind::Dot => "`.`",
        Kind::Star => "`*`",
        Kind::Plus => "`+`",
        Kind::Minus => "`-`",
        Kind::Equal => "`=`",
        Kind::NotEqual => "`<>`",
        Kind::Less => "`<`",
        Kind::AtMost => "`<=`",
        Kind::Greater => "`>`",
        Kind::AtLeast => "`>=`",
        _ => spelling,
    }
}

fn has_all(kinds: &[Kind], wanted: &[Kind]) -> bool {
    wanted.iter().all(|kind| kinds.contains(kind))
}

/// What is said at once of some kinds of tokens.
#[derive(Clone, Copy)]
struct SaidAtOnce {
    expression: bool,
    condition: bool,
    comparison: bool,
}

impl SaidAtOnce {
    fn of(kinds: &[Kind]) -> SaidAtOnce {
        let expression = has_all(kinds, &OF_EXPRESSIONS);
        SaidAtOnce {
            expression,
            condition: expression && has_all(kinds, &OF_CONDITIONS),
            comparison: has_all(kinds, &COMPARISONS),
        }
    }

    /// Whether a kind is among what is said at once.
    fn has(self, kind: Kind) -> bool {
        (self.expression && OF_EXPRESSIONS.contains(&kind))
            || (self.condition && OF_CONDITIONS.contains(&kind))
            || (self.comparison && COMPARISONS.contains(&kind))
    }

    fn push_parts(self, parts: &mut Vec<&'static str>) -> Result<(), AllocError> {
        if self.condition {
            parts.push("a condition")?;
        } else if self.expression {
            parts.push("an expression")?;
        }
        if self.comparison {
            parts.push("a comparison")?;
        }
        Ok(())
    }
}

/// Kinds of tokens as a person says them: `a, b or c`. What begins an expression, a condition or a comparison is said
/// at once.
pub fn push_choice(alloc: Global, kinds: &[Kind], text: &mut String) -> Result<(), AllocError> {
    let mut parts = Vec::new(alloc);
    push_parts(kinds, &mut parts)?;
    let mut left = parts.len();
    for part in &parts {
        left = left.saturating_sub(1);
        text.push_str(part)?;
        text.push_str(separator(left, " or "))?;
    }
    Ok(())
}

fn push_parts(kinds: &[Kind], parts: &mut Vec<&'static str>) -> Result<(), AllocError> {
    let said = SaidAtOnce::of(kinds);
    said.push_parts(parts)?;
    for (kind, spelling) in &WORDS {
        if kinds.contains(kind) && !said.has(*kind) {
            parts.push(name_of_kind(*kind, spelling))?;
        }
        // INDEX is a name to the tokens, and so to the parser that is asked. It stands where these two may.
        if *kind == Kind::Assertion && kinds.contains(kind) && kinds.contains(&Kind::Table) {
            parts.push("INDEX")?;
        }
    }
    Ok(())
}

/// What stands behind a part of a list in words behind which so many are left: a comma, or before the last another
/// word.
pub fn separator(left: usize, last: &str) -> &str {
    match left {
        0 => "",
        1 => last,
        _ => ", ",
    }
}

/// Names as a person says them: `A, B and C`.
pub fn push_names(names: &[&Text], text: &mut String) -> Result<(), AllocError> {
    let mut left = names.len();
    for name in names {
        left = left.saturating_sub(1);
        let behind = separator(left, " and ");
        write!(text, "{name}{behind}")?;
    }
    Ok(())
}
