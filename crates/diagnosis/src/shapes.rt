//! Which part of a condition is outside the class of assertions, and why.
//!
//! The class is that of `form_check`: by rows, by groups, and single. Names are known when this is asked. What is
//! looked for is each rule that the shapes have; so the part that is found breaks the rule that is told, and a
//! condition in which none is found is shown whole.

use crate::contexts::scope_of;
use crate::leaves::{Clauses, Range, clauses_of, of_column, of_condition};
use crate::parts::{Node, Part, parts_of_condition};
use crate::rules::Rule;
use form_check::Scope;
use std::alloc::{AllocError, Global};
use std::slice;
use syntax::{ColumnName, Condition, Expression, Query, SelectList};
use table::Catalog;
use value::Comparison;

/// A part that is outside the class.
#[derive(Clone, Copy)]
pub struct Outside<'a> {
    pub rule: Rule,
    /// Its leaves.
    pub range: Range,
    /// The table to whose key a link would lead.
    pub root: Option<Scope<'a>>,
}

fn fault_of_rule<'a>(rule: Rule, range: Range) -> Option<Outside<'a>> {
    Some(Outside {
        rule,
        range,
        root: None,
    })
}

/// The part of an assertion's condition that is outside the class, if its leaves begin here.
pub fn in_assertion<'a>(
    alloc: Global,
    catalog: &'a Catalog,
    condition: &'a Condition,
    at: usize,
) -> Result<Option<Outside<'a>>, AllocError> {
    if let Condition::Not(part) = condition {
        if let Condition::Exists(query) = part.get() {
            return not_exists(alloc, catalog, query.get(), at.saturating_add(1));
        }
    }
    single(alloc, condition, at)
}

/// The part of a WHERE over the rows of one table that is outside the class: a query, or a set function.
fn in_where<'a>(
    alloc: Global,
    condition: &Condition,
    at: usize,
) -> Result<Option<Outside<'a>>, AllocError> {
    let parts = parts_of_condition(alloc, condition, at)?;
    Ok(in_parts(&parts))
}

/// The first query or set function among parts that look at one row.
fn in_parts<'a>(parts: &[Part]) -> Option<Outside<'a>> {
    first_of_rows(parts, Rule::QueryInWhere, Rule::FunctionInWhere)
}

/// The same of parts of a statement.
pub fn in_statement<'a>(parts: &[Part]) -> Option<Outside<'a>> {
    first_of_rows(parts, Rule::QueryInStatement, Rule::FunctionInStatement)
}

/// The first query or set function, with the rule that each breaks.
fn first_of_rows<'a>(parts: &[Part], of_query: Rule, of_function: Rule) -> Option<Outside<'a>> {
    for part in parts {
        match part.node {
            Node::Exists(_) | Node::Value(_) => return fault_of_rule(of_query, part.range),
            Node::Function(_) => return fault_of_rule(of_function, part.range),
            Node::Column(_) | Node::Arithmetic(_) | Node::End => {}
        }
    }
    None
}

/// The columns of GROUP BY in a SELECT of groups: those of its table that may stand outside of set functions.
#[derive(Clone, Copy)]
pub struct Groups<'a> {
    pub scope: Scope<'a>,
    pub columns: &'a [ColumnName],
}

impl<'a> Groups<'a> {
    /// Whether a column is one of them.
    fn have(&self, column: &ColumnName) -> bool {
        self.have_place(self.scope.own(column))
    }

    fn have_place(&self, place: Option<usize>) -> bool {
        self.columns
            .iter()
            .any(|column| self.scope.own(column) == place)
    }

    /// Whether each column of the table is one of them.
    pub fn have_all(&self) -> bool {
        (0..self.scope.schema.columns().len()).all(|place| self.have_place(Some(place)))
    }
}

/// The first part of what a SELECT lists, or of its HAVING, that is outside the class: a query, or in a SELECT of groups
/// a column that stands neither in GROUP BY nor in a set function.
pub fn in_listed<'a>(parts: &[Part], groups: Option<Groups>) -> Option<Outside<'a>> {
    for part in parts {
        match (part.node, groups) {
            (Node::Exists(_) | Node::Value(_), _) => {
                return fault_of_rule(Rule::QueryInStatement, part.range);
            }
            (Node::Column(column), Some(groups)) if !groups.have(column) => {
                return fault_of_rule(Rule::ColumnOutsideGroup, part.range);
            }
            _ => {}
        }
    }
    None
}

/// A query over a table that there is, and where its leaves begin.
#[derive(Clone, Copy)]
struct KnownQuery<'a> {
    query: &'a Query,
    at: usize,
    scope: Scope<'a>,
}

impl<'a> KnownQuery<'a> {
    /// A query whose leaves begin here, if there is its table.
    fn of(catalog: &'a Catalog, query: &'a Query, at: usize) -> Option<KnownQuery<'a>> {
        let scope = scope_of(catalog, query)?;
        Some(KnownQuery { query, at, scope })
    }

    /// Where the leaves of its clauses begin.
    fn clauses(&self) -> Clauses {
        clauses_of(self.query, self.at)
    }
}

/// NOT EXISTS of a query whose leaves begin here.
fn not_exists<'a>(
    alloc: Global,
    catalog: &'a Catalog,
    query: &'a Query,
    at: usize,
) -> Result<Option<Outside<'a>>, AllocError> {
    let Some(known) = KnownQuery::of(catalog, query, at) else {
        return Ok(None);
    };
    let clauses = known.clauses();
    match (&query.group, &query.having) {
        (None, None) => by_row(alloc, catalog, known),
        (Some(group), Some(having)) => by_group(alloc, known, group, having),
        (Some(group), None) => {
            let range = Range::new(clauses.group, of_column(group));
            Ok(fault_of_rule(Rule::GroupWithoutHaving, range))
        }
        (None, Some(having)) => {
            let range = Range::new(clauses.having, of_condition(having));
            Ok(fault_of_rule(Rule::HavingWithoutGroup, range))
        }
    }
}

/// A rule by groups of this query.
fn by_group<'a>(
    alloc: Global,
    known: KnownQuery,
    group: &ColumnName,
    having: &Condition,
) -> Result<Option<Outside<'a>>, AllocError> {
    let (scope, clauses) = (known.scope, known.clauses());
    let group = scope.own(group);
    if let Some(found) = listed_outside(known, group) {
        return Ok(Some(found));
    }
    if let Some(keeps) = &known.query.keeps {
        if let Some(found) = in_where(alloc, keeps, clauses.keeps)? {
            return Ok(Some(found));
        }
    }
    let parts = parts_of_condition(alloc, having, clauses.having)?;
    for part in &parts {
        match part.node {
            Node::Exists(_) | Node::Value(_) => return Ok(fault_of_rule(
                Rule::QueryInHaving,
                part.range,
            )),
            Node::Column(column) if scope.own(column) != group => {
                return Ok(fault_of_rule(Rule::ColumnInHaving, part.range));
            }
            Node::Column(_) | Node::Function(_) | Node::Arithmetic(_) | Node::End => {}
        }
    }
    Ok(None)
}

/// What a query under EXISTS lists, if it may not: in a rule by groups another column than that of the groups.
fn listed_outside<'a>(known: KnownQuery, group: Option<usize>) -> Option<Outside<'a>> {
    let SelectList::One(listed) = &known.query.select_list else {
        return None;
    };
    let may_be_listed = match listed {
        Expression::Number(_) | Expression::Text(_) => true,
        Expression::Column(column) => {
            let place = known.scope.own(column);
            place.is_some() && (group.is_none() || place == group)
        }
        _ => false,
    };
    if may_be_listed {
        None
    } else {
        fault_of_rule(Rule::Listed, Range::of(listed, known.clauses().listed))
    }
}

/// A rule by rows of this query.
fn by_row<'a>(
    alloc: Global,
    catalog: &'a Catalog,
    known: KnownQuery<'a>,
) -> Result<Option<Outside<'a>>, AllocError> {
    if let Some(found) = listed_outside(known, None) {
        return Ok(Some(found));
    }
    let Some(keeps) = &known.query.keeps else {
        return Ok(None);
    };
    in_rows(alloc, catalog, known.scope, keeps, known.clauses().keeps)
}

/// The part of the condition of a CHECK over the rows of a table that is outside the class, if its leaves begin here.
pub fn in_check<'a>(
    alloc: Global,
    catalog: &'a Catalog,
    scope: Scope<'a>,
    condition: &'a Condition,
    at: usize,
) -> Result<Option<Outside<'a>>, AllocError> {
    let parts = parts_of_condition(alloc, condition, at)?;
    for part in &parts {
        if part.depth == 0 && matches!(part.node, Node::Function(_)) {
            return Ok(fault_of_rule(Rule::FunctionInCheck, part.range));
        }
    }
    match among_parts(alloc, catalog, scope, parts.as_slice())? {
        Some(found) if matches!(found.rule, Rule::QueryInWhere) => {
            Ok(fault_of_rule(Rule::QueryInQuery, found.range))
        }
        found => Ok(found),
    }
}

/// The part of a WHERE of a rule by rows that is outside the class, if its leaves begin here.
fn in_rows<'a>(
    alloc: Global,
    catalog: &'a Catalog,
    scope: Scope<'a>,
    condition: &'a Condition,
    at: usize,
) -> Result<Option<Outside<'a>>, AllocError> {
    let parts = parts_of_condition(alloc, condition, at)?;
    among_parts(alloc, catalog, scope, parts.as_slice())
}

/// The part that is outside the class among those of a condition over the rows of a table: of the WHERE of a rule by
/// rows, or of a CHECK.
fn among_parts<'a>(
    alloc: Global,
    catalog: &'a Catalog,
    scope: Scope<'a>,
    parts: &[Part<'a>],
) -> Result<Option<Outside<'a>>, AllocError> {
    for part in parts {
        if part.depth == 0 {
            if let Some(found) = in_row(alloc, catalog, scope, part)? {
                return Ok(Some(found));
            }
        }
    }
    Ok(None)
}

/// What is outside the class in a part of the WHERE of a rule by rows.
fn in_row<'a>(
    alloc: Global,
    catalog: &'a Catalog,
    scope: Scope<'a>,
    part: &Part<'a>,
) -> Result<Option<Outside<'a>>, AllocError> {
    if let Node::Function(_) = part.node {
        return Ok(fault_of_rule(Rule::FunctionInWhere, part.range));
    }
    let Some((query, at)) = part.query() else {
        return Ok(None);
    };
    let Some(inner) = KnownQuery::of(catalog, query, at) else {
        return Ok(None);
    };
    let listed = match part.node {
        Node::Exists(_) => listed_outside(inner, None),
        _ => value_of_row(query, at),
    };
    match listed {
        Some(found) => Ok(Some(found)),
        None => link_fault(alloc, scope, inner),
    }
}

/// A query that stands for a value and lists no set function.
fn value_of_row<'a>(query: &Query, at: usize) -> Option<Outside<'a>> {
    match &query.select_list {
        SelectList::One(Expression::CountRows | Expression::Aggregate(_, _)) => None,
        SelectList::One(listed) => fault_of_rule(
            Rule::ValueOfRow,
            Range::of(listed, clauses_of(query, at).listed),
        ),
        SelectList::Star => fault_of_rule(Rule::ValueOfRow, Range::new(at, 1)),
    }
}

/// GROUP BY or HAVING in a query that may have neither.
fn group_fault<'a>(query: &Query, at: usize) -> Option<Outside<'a>> {
    let clauses = clauses_of(query, at);
    match (&query.group, &query.having) {
        (Some(group), _) => fault_of_rule(
            Rule::GroupInSubquery,
            Range::new(clauses.group, of_column(group)),
        ),
        (None, Some(having)) => fault_of_rule(
            Rule::GroupInSubquery,
            Range::new(clauses.having, of_condition(having)),
        ),
        (None, None) => None,
    }
}

/// A part that AND joins at the top of a subquery's WHERE.
#[derive(Clone, Copy)]
struct Conjunct<'a> {
    condition: &'a Condition,
    range: Range,
    is_link: bool,
}

/// The parts that AND joins at the top of the WHERE of a query.
fn conjuncts_of<'a>(
    alloc: Global,
    outer: Scope,
    inner: KnownQuery<'a>,
) -> Result<Vec<Conjunct<'a>>, AllocError> {
    let mut found = Vec::new(alloc);
    let conditions = match &inner.query.keeps {
        None => &[],
        Some(Condition::And(parts)) => parts.as_slice(),
        Some(whole) => slice::from_ref(whole),
    };
    let mut at = inner.clauses().keeps;
    for condition in conditions {
        let range = Range::new(at, of_condition(condition));
        found.push(Conjunct {
            condition,
            range,
            is_link: is_link(outer, inner.scope, condition),
        })?;
        at = range.to;
    }
    Ok(found)
}

/// Whether a condition is an equality of a column of the subquery's table and one of the row around.
fn is_link(outer: Scope, inner: Scope, condition: &Condition) -> bool {
    match condition {
        Condition::Compare(
            Expression::Column(left),
            Comparison::Equal,
            Expression::Column(right),
        ) => joins(outer, inner, left, right) || joins(outer, inner, right, left),
        _ => false,
    }
}

/// Whether the first name is of the subquery's table, and the other one of the row around.
fn joins(outer: Scope, inner: Scope, from: &ColumnName, to: &ColumnName) -> bool {
    inner.own(from).is_some() && !inner.is_named(to) && outer.own(to).is_some()
}

/// A query that is to be linked to the row around it.
fn link_fault<'a>(
    alloc: Global,
    outer: Scope<'a>,
    inner: KnownQuery<'a>,
) -> Result<Option<Outside<'a>>, AllocError> {
    if let Some(found) = group_fault(inner.query, inner.at) {
        return Ok(Some(found));
    }
    let conjuncts = conjuncts_of(alloc, outer, inner)?;
    for conjunct in &conjuncts {
        if let Some(found) = in_where(alloc, conjunct.condition, conjunct.range.from)? {
            return Ok(Some(found));
        }
    }
    let whole = Range {
        from: inner.at,
        to: inner.clauses().end,
    };
    if conjuncts.iter().any(|part| part.is_link) {
        return Ok(None);
    }
    Ok(Some(Outside {
        rule: Rule::NoLink,
        range: whole,
        root: Some(outer),
    }))
}

/// A condition of its own, over queries.
fn single<'a>(
    alloc: Global,
    condition: &Condition,
    at: usize,
) -> Result<Option<Outside<'a>>, AllocError> {
    let parts = parts_of_condition(alloc, condition, at)?;
    let mut exists = 0usize;
    for part in &parts {
        if part.depth == 0 && matches!(part.node, Node::Exists(_)) {
            exists = exists.saturating_add(1);
        }
    }
    if exists > 1 {
        let range = Range::new(at, of_condition(condition));
        return Ok(fault_of_rule(Rule::SeveralRules, range));
    }
    for part in &parts {
        if part.depth == 0 {
            if let Some(found) = in_single(alloc, part)? {
                return Ok(Some(found));
            }
        }
    }
    Ok(None)
}

/// What is outside the class in a part of a condition of its own.
fn in_single<'a>(alloc: Global, part: &Part) -> Result<Option<Outside<'a>>, AllocError> {
    match part.node {
        Node::Exists(_) => Ok(fault_of_rule(Rule::ExistsAlone, Range::new(part.range.from, 1))),
        Node::Function(_) => Ok(fault_of_rule(Rule::FunctionAlone, part.range)),
        Node::Value(query) => {
            let at = part.range.from;
            if let Some(found) = value_of_row(query, at).or(group_fault(query, at)) {
                return Ok(Some(found));
            }
            match &query.keeps {
                Some(keeps) => in_where(alloc, keeps, clauses_of(query, at).keeps),
                None => Ok(None),
            }
        }
        Node::Column(_) | Node::Arithmetic(_) | Node::End => Ok(None),
    }
}
