//! A definition or a line of a script that was refused, and where its parts stand.

use crate::leaves::Range;
use faults::{At, Piece, Span, push_printable};
use form_check::{Scope, exposed_name};
use std::alloc::AllocError;
use syntax::Query;
use table::Catalog;
use value::{Refusal, Text};

/// A definition or a line of a script, the tables that there are where it stands, and why it was refused.
#[derive(Clone, Copy)]
pub struct Context<'a> {
    pub piece: &'a Piece<'a>,
    pub catalog: &'a Catalog,
    pub refusal: &'a Refusal,
}

impl<'a> Context<'a> {
    /// Where leaves stand, or the whole definition.
    pub fn at(&self, span: Option<Span>) -> At {
        match span {
            Some(span) => At::Bytes(span),
            None => At::Definition(self.piece.whole()),
        }
    }

    /// What stands at leaves.
    pub fn push_spelled(&self, range: Range, text: &mut String) -> Result<(), AllocError> {
        match self.piece.leaves_from(range.from, range.to) {
            Some(span) => push_printable(self.piece.bytes(span), text),
            None => text.push_str("this"),
        }
    }

    /// Where leaves stand.
    pub fn range(&self, range: Range) -> At {
        self.at(self.piece.leaves_from(range.from, range.to))
    }

    /// Where a name stands, if it is the one that is meant, in any case of letters.
    pub fn name_at(&self, span: Option<Span>, name: &Text) -> At {
        match span {
            Some(found)
                if self
                    .piece
                    .bytes(found)
                    .eq_ignore_ascii_case(name.as_bytes()) => { At::Bytes(found) }
            _ => At::Definition(self.piece.whole()),
        }
    }
}

/// A part of a definition or a line, and the tables that it is seen from, the innermost last.
#[derive(Clone, Copy)]
pub struct Viewpoint<'a> {
    pub context: Context<'a>,
    pub scopes: &'a [Scope<'a>],
}

/// The table of a query, if there is one.
pub fn scope_of<'a>(catalog: &'a Catalog, query: &'a Query) -> Option<Scope<'a>> {
    Some(Scope {
        exposed_name: exposed_name(&query.correlation_name, &query.table),
        schema: catalog.get(&query.table)?,
    })
}
