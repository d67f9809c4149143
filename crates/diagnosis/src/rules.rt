//! What each rule of the class says, and how to write what was meant.

use form_check::Scope;
use std::alloc::AllocError;

/// Which rule of the class a part breaks.
#[derive(Clone, Copy)]
pub enum Rule {
    /// GROUP BY without HAVING.
    GroupWithoutHaving,
    /// HAVING without GROUP BY.
    HavingWithoutGroup,
    /// A query under EXISTS lists `*`, a constant or a column of its own table (by groups the grouping column).
    Listed,
    /// A set function stands in a WHERE.
    FunctionInWhere,
    /// A set function stands in the CHECK of a table, outside a query.
    FunctionInCheck,
    /// A query stands where none may: in a WHERE that is not that of the outer query of a rule by rows.
    QueryInWhere,
    /// A query stands in a query of the CHECK of a table.
    QueryInQuery,
    /// A query stands in a HAVING.
    QueryInHaving,
    /// A column in a HAVING is not the grouping column.
    ColumnInHaving,
    /// A subquery has no WHERE, or no part of it is a link.
    NoLink,
    /// A subquery has a GROUP BY or a HAVING.
    GroupInSubquery,
    /// A query that stands for a value lists no set function.
    ValueOfRow,
    /// EXISTS stands in a condition of its own.
    ExistsAlone,
    /// Several EXISTS in one rule.
    SeveralRules,
    /// A set function stands in a condition of its own, outside a query.
    FunctionAlone,
    /// A query stands in a statement.
    QueryInStatement,
    /// A set function stands in the WHERE of a statement, or in what an UPDATE assigns.
    FunctionInStatement,
    /// A column stands in a SELECT of groups outside of set functions, and not in its GROUP BY.
    ColumnOutsideGroup,
    /// * lists a column that is not in GROUP BY.
    StarOutsideGroup,
}

/// What is wrong with a part that breaks a rule of the class.
pub fn wrong(rule: Rule) -> &'static str {
    match rule {
        Rule::GroupWithoutHaving => "GROUP BY without HAVING is no rule",
        Rule::HavingWithoutGroup => "HAVING without GROUP BY is no rule",
        Rule::Listed => "this may not be listed under EXISTS",
        Rule::FunctionInWhere => "a set function may not stand in a WHERE",
        Rule::FunctionInCheck => "a set function may not stand in a CHECK outside a query",
        Rule::QueryInWhere => "no query may stand in this WHERE",
        Rule::QueryInQuery => "no query may stand in a query of a CHECK",
        Rule::QueryInHaving => "no query may stand in a HAVING",
        Rule::ColumnInHaving => "this column is not the one of GROUP BY",
        Rule::NoLink => "this query is not linked to the row around it",
        Rule::GroupInSubquery => "this query may have neither GROUP BY nor HAVING",
        Rule::ValueOfRow => "a query that stands for a value lists one set function",
        Rule::ExistsAlone => "EXISTS stands in a rule as NOT EXISTS (..), with nothing beside it",
        Rule::SeveralRules => "these are several rules in one",
        Rule::FunctionAlone => "a set function stands in a query",
        Rule::QueryInStatement => "no query may stand in a statement",
        Rule::FunctionInStatement => "this looks at one row, and a set function at many",
        Rule::ColumnOutsideGroup => "this column stands neither in GROUP BY nor in a set function",
        Rule::StarOutsideGroup => "this lists columns that are not in GROUP BY",
    }
}

/// A line of how to write it in the class; `root` is the table to whose key a link would lead.
pub fn push_form(rule: Rule, root: Option<Scope>, advice: &mut String) -> Result<(), AllocError> {
    match (rule, root) {
        (Rule::NoLink, Some(root)) => push_link(root, advice),
        (rule, _) => writeln!(advice, "{}", form_of(rule)),
    }
}

/// The nearest form that is taken, where a part breaks a rule of the class.
fn form_of(rule: Rule) -> &'static str {
    match rule {
        Rule::GroupWithoutHaving => GROUP_WITHOUT_HAVING,
        Rule::HavingWithoutGroup => HAVING_WITHOUT_GROUP,
        Rule::Listed => LISTED,
        Rule::FunctionInWhere => FUNCTION_IN_WHERE,
        Rule::FunctionInCheck => FUNCTION_IN_CHECK,
        Rule::QueryInWhere => QUERY_IN_WHERE,
        Rule::QueryInQuery => QUERY_IN_QUERY,
        Rule::QueryInHaving => QUERY_IN_HAVING,
        Rule::ColumnInHaving => COLUMN_IN_HAVING,
        Rule::NoLink => LINK,
        Rule::GroupInSubquery => GROUP_IN_SUBQUERY,
        Rule::ValueOfRow => VALUE_OF_ROW,
        Rule::ExistsAlone => EXISTS_ALONE,
        Rule::SeveralRules => SEVERAL_RULES,
        Rule::FunctionAlone => FUNCTION_ALONE,
        Rule::QueryInStatement => QUERY_IN_STATEMENT,
        Rule::FunctionInStatement => FUNCTION_IN_STATEMENT,
        Rule::ColumnOutsideGroup => COLUMN_OUTSIDE_GROUP,
        Rule::StarOutsideGroup => STAR_OUTSIDE_GROUP,
    }
}

const GROUP_WITHOUT_HAVING: &str = "Say by HAVING what no group may be: GROUP BY OWNER HAVING \
     COUNT(*) > 2. Without groups leave GROUP BY out.";

const HAVING_WITHOUT_GROUP: &str = "Name the groups: GROUP BY OWNER HAVING SUM(BAL) < 0. Over the \
     whole table write a condition of its own: CHECK ((SELECT SUM(BAL) FROM ACCT) >= 0).";

const LISTED: &str = "Write SELECT *. (A constant or one column of the query's own table means the \
     same, and with GROUP BY the grouping column.)";

const FUNCTION_IN_WHERE: &str = "A WHERE looks at one row. Of groups of rows write GROUP BY .. \
     HAVING COUNT(*) > 2; of the rows that are linked to a row, (SELECT COUNT(*) FROM D WHERE \
     D.COLUMN = R.KEY) > 2.";

const FUNCTION_IN_CHECK: &str =
    "The CHECK of a table looks at one row. Of the rows that are linked \
     to a row of T write (SELECT COUNT(*) FROM D WHERE D.COLUMN = T.KEY) > 2; of groups of rows, or of the \
     whole table, write a CREATE ASSERTION.";

const QUERY_IN_WHERE: &str =
    "Queries stand in the outermost WHERE of NOT EXISTS (SELECT * FROM T R \
     WHERE ..) alone, each linked to R. Keep what the inner query asks for in a column, or write \
     an assertion of its own.";

const QUERY_IN_QUERY: &str = "Each query of a CHECK is linked to the row that is looked at. Keep \
     what the inner query asks for in a column, or write a CREATE ASSERTION.";

const QUERY_IN_HAVING: &str =
    "HAVING compares set functions of the group, its grouping column and constants.";

const COLUMN_IN_HAVING: &str = "Of the other columns a group has many values: take MIN(..), \
     MAX(..), SUM(..) or COUNT(..) of it, or put the test into WHERE.";

const LINK: &str = "A link is a part D.X = R.Y of its WHERE.";

const GROUP_IN_SUBQUERY: &str =
    "The link makes the group: (SELECT COUNT(*) FROM D WHERE D.COLUMN = R.KEY) > 2.";

const VALUE_OF_ROW: &str = "COUNT(*), COUNT(C), SUM(C), MIN(C) or MAX(C). Where there is one row, \
     MAX(C) is its value.";

const EXISTS_ALONE: &str = "That a row is there is a count: CHECK ((SELECT COUNT(*) FROM T WHERE \
     ..) >= 1). That each row of T has one: NOT EXISTS (SELECT * FROM T R WHERE NOT EXISTS (..)).";

const SEVERAL_RULES: &str = "Write one assertion for each EXISTS. What holds where another thing \
     does is one query: NOT EXISTS (SELECT * FROM T WHERE .. AND NOT ..).";

const FUNCTION_ALONE: &str = "Say of which table: (SELECT SUM(BAL) FROM ACCT) >= 0.";

const QUERY_IN_STATEMENT: &str =
    "Ask for it by a SELECT of its own: all statements of a transaction \
     read one snapshot, and what it wrote itself.";

const FUNCTION_IN_STATEMENT: &str =
    "Set functions stand in the list and in the HAVING of a SELECT: SELECT MAX(C) FROM T WHERE ..";

const COLUMN_OUTSIDE_GROUP: &str =
    "Of a group of rows, which without GROUP BY is all of them, a column has many values: take \
     MIN(..), MAX(..), SUM(..) or COUNT(..) of it, or write it into GROUP BY.";

const STAR_OUTSIDE_GROUP: &str =
    "Of a group of rows, which without GROUP BY is all of them, the other columns have many \
     values. List the columns of GROUP BY and set functions.";

/// What is said of a condition in which no part was found to break a rule.
pub const FORMS: &str = "A rule is NOT EXISTS (SELECT * FROM T R WHERE ..), NOT EXISTS (SELECT K \
     FROM T GROUP BY K HAVING ..), or a comparison of (SELECT function FROM T WHERE ..).";

/// What a link to a row of this table is.
fn push_link(root: Scope, advice: &mut String) -> Result<(), AllocError> {
    let Some(key) = root.schema.columns().get(root.schema.key()) else {
        return writeln!(advice, "{LINK}");
    };
    let (row, key) = (root.exposed_name, &key.name);
    writeln!(
        advice,
        "Its WHERE has one part, joined by AND, that sets a column of its own table equal to a \
         column of the row around it, as {row}.{key}."
    )
}
