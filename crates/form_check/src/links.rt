//! Queries that are linked to the row around them.

ghost use Rattle.std.specs.Prelude.{◌≡◌, ◌≢◌, IfOk, IfErr, Ok, Err};
ghost use Rattle.value.specs.declared.refusals.Refusal.TheVariants.{NoMemory};
ghost use Rattle.form_check.specs.ShownScopes.{lent_scope};
ghost use Rattle.form_check.specs.Links.{link_of_names, link_of, first_link, filter_parts, key_linked, is_link};

use crate::queries::joint_condition;
use crate::scopes::Scope;
use assertion::Link;
use std::alloc::Global;
use syntax::{ColumnName, Condition, Expression};
use table::Cond;
use value::{Comparison, Refusal};

/// The two tables of a linked query: its own, and that of the row around it.
#[derive(Clone, Copy)]
pub struct LinkedTables<'a> {
    pub child: Scope<'a>,
    pub root: Scope<'a>,
}

impl<'a> LinkedTables<'a> {
    /// The link among these parts: the first of the child's key, and else the first of all.
    pub fn first_link(&self, parts: &[Condition]) -> Option<Link>
        ensures { result ≡ first_link (lent_scope self.now.child) (lent_scope self.now.root) parts.now }
    {
        let column = self.key_linked(parts);
        for part in parts {
            if self.is_link(column, part) {
                return self.link(part);
            }
        }
        None
    }

    /// The parts beside the link, as conditions over a row of the child and the row around it.
    #[tactic(auto, using(value::proofs::Results::behind_next, value::proofs::Results::behind_none))]
    pub fn filter_parts(&self, alloc: Global, parts: &[Condition]) -> Result<Vec<Cond>, Refusal>
        ensures made { IfOk result (λ made.
            filter_parts (lent_scope self.now.child) (lent_scope self.now.root) parts.now ≡ Ok made.items) }
        ensures refused { IfErr result (λ refusal.
            refusal ≢ NoMemory → filter_parts (lent_scope self.now.child) (lent_scope self.now.root) parts.now
            ≡ Err refusal) }
    {
        let column = self.key_linked(parts);
        let mut made = Vec::new(alloc);
        let mut is_found = false;
        for part in parts {
            if !is_found && self.is_link(column, part) {
                is_found = true;
            } else {
                made.push(joint_condition(alloc, self.child, self.root, part)?)?;
            }
        }
        Ok(made)
    }

    /// The child's key, if one of these parts is a link by it.
    fn key_linked(&self, parts: &[Condition]) -> Option<usize>
        ensures { result ≡ key_linked (lent_scope self.now.child) (lent_scope self.now.root) parts.now }
    {
        let key = Some(self.child.schema.key());
        for part in parts {
            if self.is_link(key, part) {
                return key;
            }
        }
        None
    }

    /// Whether a part is a link, by this column of the child if one is given.
    fn is_link(&self, column: Option<usize>, part: &Condition) -> bool
        ensures { result ≡ is_link (lent_scope self.now.child) (lent_scope self.now.root) column part.now }
    {
        match (self.link(part), column) {
            (Some(link), Some(column)) => link.inner == column,
            (Some(_), None) => true,
            (None, _) => false,
        }
    }

    /// The columns of the child and of the root that a part joins, if it is a link: an equality of the two, either way
    /// round.
    fn link(&self, part: &Condition) -> Option<Link>
        ensures { result ≡ link_of (lent_scope self.now.child) (lent_scope self.now.root) part.now }
    {
        match part {
            Condition::Compare(
                Expression::Column(left),
                Comparison::Equal,
                Expression::Column(right),
            ) => match self.link_of_names(left, right) {
                Some(link) => Some(link),
                None => self.link_of_names(right, left),
            },
            _ => None,
        }
    }

    /// The link of the child's column of one name and the root's of the other, if that is what they mean.
    fn link_of_names(&self, inner: &ColumnName, outer: &ColumnName) -> Option<Link>
        ensures { result ≡ link_of_names (lent_scope self.now.child) (lent_scope self.now.root) inner.now outer.now }
    {
        match (self.child.own(inner), self.child.outer(&self.root, outer)) {
            (Some(inner), Some(outer)) => Some(Link { inner, outer }),
            (None, _) | (Some(_), None) => None,
        }
    }
}
