//! What is wrong with a constraint of a table, and where it stands.

use crate::answers::refusal_in;
use crate::conditions::{Site, diagnose_condition, diagnose_shape, diagnose_whole};
use crate::contexts::{Context, Viewpoint};
use crate::definitions_at_fault::{attributes_at_odds, say_taken};
use crate::names::{diagnose_column_name, diagnose_table_name};
use crate::references::Reference;
use crate::shapes::in_check;
use assertcheck::check;
use definitions::{
    UniqueColumns, constraint_name, foreign_key_condition, is_asserted, unique_condition,
};
use delta::View;
use faults::{At, Diagnosis, Piece, Span};
use form_check::Scope;
use std::alloc::{AllocError, Global};
use std::slice;
use syntax::{Condition, Constraint, ForeignKey, TableConstraint, TableDefinition};
use token::{Kind, Token};
use value::{Refusal, Text};

/// Where a constraint of a table stands in the text: the places of its first token and of the word that it is named by.
#[derive(Clone, Copy)]
pub struct WrittenConstraint {
    first: usize,
    word: usize,
}

impl WrittenConstraint {
    /// The constraint of a CREATE TABLE before which so many others stand.
    pub fn at(piece: &Piece, place: usize) -> Option<WrittenConstraint> {
        let mut left = place;
        let mut depth = 0usize;
        let mut is_foreign = false;
        for (word, token) in piece.tokens.iter().enumerate() {
            match token.kind {
                Kind::Open => depth = depth.saturating_add(1),
                Kind::Close => depth = depth.saturating_sub(1),
                _ => {}
            }
            // (REFERENCES begins a constraint behind a column, and goes one on behind FOREIGN KEY)
            if depth == 1 && is_word(token.kind, is_foreign) {
                if left == 0 {
                    return Some(WrittenConstraint::with_name(&piece.tokens, word));
                }
                left = left.saturating_sub(1);
            }
            match token.kind {
                Kind::Foreign => is_foreign = true,
                Kind::References => is_foreign = false,
                _ => {}
            }
        }
        None
    }

    /// The constraint whose word stands here; CONSTRAINT and a name may stand before it.
    fn with_name(tokens: &[Token], word: usize) -> WrittenConstraint {
        let named = word.saturating_sub(2);
        let is_named = tokens
            .get(named)
            .is_some_and(|token| token.kind == Kind::Constraint);
        WrittenConstraint {
            first: if is_named { named } else { word },
            word,
        }
    }

    /// Its name, or where it has none its first word.
    pub fn named_at(self, piece: &Piece) -> Span {
        if self.first == self.word {
            span_at(piece, self.word)
        } else {
            span_at(piece, self.first.saturating_add(1))
        }
    }

    /// Its first word, CONSTRAINT not counted.
    fn word_at(self, piece: &Piece) -> Span {
        span_at(piece, self.word)
    }

    /// How many leaves stand before those of what it says.
    fn leaves_before(self, piece: &Piece) -> usize {
        let word = self.word_at(piece);
        let mut count = 0usize;
        for leaf in &piece.leaves {
            if leaf.start < word.start {
                count = count.saturating_add(1);
            }
        }
        count
    }

    /// How many of its columns a foreign key lists: none where it stands behind its column.
    fn listed(self, piece: &Piece, key: &ForeignKey) -> usize {
        match kind_at(piece, self.word) {
            Kind::Foreign => key.columns.as_slice().len(),
            _ => 0,
        }
    }

    /// The word INITIALLY behind it.
    fn initially_at(self, piece: &Piece) -> Option<Span> {
        for (place, token) in piece.tokens.iter().enumerate() {
            if place > self.word && token.kind == Kind::Initially {
                return Some(span_at(piece, place));
            }
        }
        None
    }
}

/// Whether a word outside of inner parentheses begins a constraint.
fn is_word(kind: Kind, is_foreign: bool) -> bool {
    match kind {
        Kind::Unique | Kind::Check | Kind::Foreign => true,
        Kind::References => !is_foreign,
        _ => false,
    }
}

fn kind_at(piece: &Piece, place: usize) -> Kind {
    piece
        .tokens
        .get(place)
        .map_or(Kind::End, |token| token.kind)
}

fn span_at(piece: &Piece, place: usize) -> Span {
    match piece.tokens.get(place) {
        Some(token) => Span {
            start: token.start,
            end: token.end,
        },
        None => piece.whole(),
    }
}

/// The place among a table's constraints of the one whose assertion has this name.
pub fn constraint_named(
    alloc: Global,
    table: &TableDefinition,
    name: &Text,
) -> Result<Option<usize>, AllocError> {
    for (place, constraint) in table.constraints.as_slice().iter().enumerate() {
        if constraint_name(alloc, &table.name, constraint)? == *name {
            return Ok(Some(place));
        }
    }
    Ok(None)
}

/// A table one of whose constraints is refused. The context's tables have it among them.
#[derive(Clone, Copy)]
pub struct ConstrainedTable<'a> {
    pub context: Context<'a>,
    pub table: &'a TableDefinition,
    pub unique: &'a [UniqueColumns],
    /// What is defined before it.
    pub view: &'a View,
}

impl<'a> ConstrainedTable<'a> {
    /// Says which constraint is refused, and why.
    pub fn diagnose(&self, alloc: Global, diagnosis: &mut Diagnosis) -> Result<(), AllocError> {
        for (place, constraint) in self.table.constraints.as_slice().iter().enumerate() {
            let name = constraint_name(alloc, &self.table.name, constraint)?;
            if self.is_refused(alloc, place, constraint, &name)? {
                return self.diagnose_one(alloc, place, constraint, &name, diagnosis);
            }
        }
        diagnose_whole(self.context, diagnosis)
    }

    /// Whether a constraint is refused, once those before it are taken in.
    fn is_refused(
        &self,
        alloc: Global,
        place: usize,
        constraint: &TableConstraint,
        name: &Text,
    ) -> Result<bool, AllocError> {
        if self.is_taken(alloc, place, name)? {
            return Ok(true);
        }
        let refusal = refusal_in(self.try_constraint(alloc, constraint, name))?;
        Ok(refusal.is_some())
    }

    /// Whether an assertion that is defined before a constraint has its name.
    fn is_taken(&self, alloc: Global, place: usize, name: &Text) -> Result<bool, AllocError> {
        if is_asserted(self.view.assertions(), name) {
            return Ok(true);
        }
        match constraint_named(alloc, self.table, name)? {
            Some(first) => Ok(first < place),
            None => Ok(false),
        }
    }

    /// What becomes of a constraint whose name is free.
    fn try_constraint(
        &self,
        alloc: Global,
        constraint: &TableConstraint,
        name: &Text,
    ) -> Result<(), Refusal> {
        let (catalog, attributes) = (self.context.catalog, constraint.attributes);
        let table = &self.table.name;
        match &constraint.constraint {
            Constraint::Unique(columns) => {
                let made = unique_condition(alloc, catalog, table, columns.as_slice())?;
                check(alloc, catalog, name, &made, attributes)?;
            }
            Constraint::Check { condition, .. } => {
                check(alloc, catalog, name, condition, attributes)?;
            }
            Constraint::ForeignKey(key) => {
                let made = foreign_key_condition(alloc, catalog, self.unique, table, key)?;
                check(alloc, catalog, name, &made, attributes)?;
            }
        }
        Ok(())
    }

    /// Says why a constraint is refused.
    fn diagnose_one(
        &self,
        alloc: Global,
        place: usize,
        constraint: &TableConstraint,
        name: &Text,
        diagnosis: &mut Diagnosis,
    ) -> Result<(), AllocError> {
        let context = self.context;
        let Some(written) = WrittenConstraint::at(context.piece, place) else {
            return diagnose_whole(context, diagnosis);
        };
        if self.diagnose_columns(alloc, written, constraint, diagnosis)? {
            return Ok(());
        }
        match context.refusal {
            Refusal::NameTaken { .. } => {
                let at = At::Bytes(written.named_at(context.piece));
                if constraint.name.is_none() {
                    return say_default_taken(at, name, diagnosis);
                }
                say_taken(at, "an assertion", name, diagnosis)
            }
            Refusal::AttributeClash { .. } => {
                attributes_at_odds(context, written.initially_at(context.piece), diagnosis)
            }
            _ => self.diagnose_rule(alloc, written, constraint, diagnosis),
        }
    }

    /// Says which of the names that a constraint lists is none of a column or a table, or stands twice, if one does.
    fn diagnose_columns(
        &self,
        alloc: Global,
        written: WrittenConstraint,
        constraint: &TableConstraint,
        diagnosis: &mut Diagnosis,
    ) -> Result<bool, AllocError> {
        let at = written.leaves_before(self.context.piece);
        match &constraint.constraint {
            Constraint::Unique(columns) => {
                self.diagnose_listed(alloc, &self.table.name, columns.as_slice(), at, diagnosis)
            }
            Constraint::Check { .. } => Ok(false),
            Constraint::ForeignKey(key) => {
                let columns = key.columns.as_slice();
                if self.diagnose_listed(alloc, &self.table.name, columns, at, diagnosis)? {
                    return Ok(true);
                }
                let listed = written.listed(self.context.piece, key);
                self.diagnose_referenced(alloc, key, at.saturating_add(listed), diagnosis)
            }
        }
    }

    /// Says what is wrong with the names of what a foreign key refers to, whose leaves begin here.
    fn diagnose_referenced(
        &self,
        alloc: Global,
        key: &ForeignKey,
        at: usize,
        diagnosis: &mut Diagnosis,
    ) -> Result<bool, AllocError> {
        if self.context.catalog.get(&key.table).is_none() {
            diagnose_table_name(alloc, self.context, &key.table, at, diagnosis)?;
            return Ok(true);
        }
        match &key.referenced {
            Some(columns) => self.diagnose_listed(
                alloc,
                &key.table,
                columns.as_slice(),
                at.saturating_add(1),
                diagnosis,
            ),
            None => Ok(false),
        }
    }

    /// Says which of some listed columns, whose leaves begin here, the table has not, or is listed twice.
    fn diagnose_listed(
        &self,
        alloc: Global,
        table: &Text,
        columns: &[Text],
        at: usize,
        diagnosis: &mut Diagnosis,
    ) -> Result<bool, AllocError> {
        let Some(schema) = self.context.catalog.get(table) else {
            return Ok(false);
        };
        let scope = Scope {
            exposed_name: table,
            schema,
        };
        let here = Viewpoint {
            context: self.context,
            scopes: slice::from_ref(&scope),
        };
        for (place, column) in columns.iter().enumerate() {
            let leaf = at.saturating_add(place);
            if schema.column(column).is_none() {
                diagnose_column_name(alloc, here, column, leaf, diagnosis)?;
                return Ok(true);
            }
            if columns.iter().take(place).any(|other| *other == *column) {
                listed_twice(self.context, column, leaf, diagnosis)?;
                return Ok(true);
            }
        }
        Ok(false)
    }

    /// Says what is wrong with what a constraint asks of rows.
    fn diagnose_rule(
        &self,
        alloc: Global,
        written: WrittenConstraint,
        constraint: &TableConstraint,
        diagnosis: &mut Diagnosis,
    ) -> Result<(), AllocError> {
        let word = At::Bytes(written.word_at(self.context.piece));
        match (&constraint.constraint, self.context.refusal) {
            (Constraint::Unique(_), Refusal::OutsideClass) => {
                diagnosis.place(20, word);
                diagnosis.say("UNIQUE takes one column")?;
                diagnosis.advise(UNIQUE_OF_SEVERAL)
            }
            (Constraint::Check { condition, .. }, _) => {
                let at = written.leaves_before(self.context.piece);
                self.diagnose_check(alloc, condition, at, diagnosis)
            }
            (Constraint::ForeignKey(key), _) => {
                let from = written.leaves_before(self.context.piece);
                let listed = written.listed(self.context.piece, key);
                let reference = Reference {
                    context: self.context,
                    own: &self.table.name,
                    key,
                    from,
                    at: from.saturating_add(listed),
                };
                reference.diagnose(diagnosis)
            }
            _ => diagnose_whole(self.context, diagnosis),
        }
    }

    /// Says what is wrong with the condition of a CHECK, of which what is written has its leaves from here on.
    fn diagnose_check(
        &self,
        alloc: Global,
        condition: &Condition,
        at: usize,
        diagnosis: &mut Diagnosis,
    ) -> Result<(), AllocError> {
        let (Some(condition), Some(schema)) = (
            written_condition(condition),
            self.context.catalog.get(&self.table.name),
        ) else {
            return diagnose_whole(self.context, diagnosis);
        };
        let scope = Scope {
            exposed_name: &self.table.name,
            schema,
        };
        let found = match self.context.refusal {
            Refusal::OutsideClass => {
                let outside = in_check(alloc, self.context.catalog, scope, condition, at)?;
                diagnose_shape(self.context, outside, diagnosis)?
            }
            _ => {
                let site = Site {
                    condition,
                    at,
                    scopes: slice::from_ref(&scope),
                };
                diagnose_condition(alloc, self.context, site, diagnosis)?
            }
        };
        if found {
            return Ok(());
        }
        diagnose_whole(self.context, diagnosis)
    }
}

/// What is written in a CHECK, of which the condition is that no row of the table makes it false.
fn written_condition<'a>(condition: &'a Condition) -> Option<&'a Condition> {
    let Condition::Not(part) = condition else {
        return None;
    };
    let Condition::Exists(query) = part.get() else {
        return None;
    };
    match &query.get().keeps {
        Some(Condition::Not(written)) => Some(written.get()),
        _ => None,
    }
}

/// A name that an assertion has, and that a constraint without a name would be given.
fn say_default_taken(at: At, name: &Text, diagnosis: &mut Diagnosis) -> Result<(), AllocError> {
    diagnosis.place(4, at);
    write!(diagnosis.what, "an assertion has the name {name} already")?;
    diagnosis.advise(NAME_WITH_CONSTRAINT)
}

/// A column that stands twice in the list of a constraint.
fn listed_twice(
    context: Context,
    name: &Text,
    leaf: usize,
    diagnosis: &mut Diagnosis,
) -> Result<(), AllocError> {
    diagnosis.place(4, context.name_at(context.piece.leaf(leaf), name));
    write!(diagnosis.what, "the column {name} is listed twice")?;
    diagnosis.advise("List each column once.")
}

const UNIQUE_OF_SEVERAL: &str =
    "Groups are made by one column. Keep what has to be unique together in a column of its own.";

const NAME_WITH_CONSTRAINT: &str =
    "A constraint without a name gets this one. Give one of the two a name with CONSTRAINT, or leave one out.";
