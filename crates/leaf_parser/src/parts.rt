//! Lists of parts: a part of the same kind is merged into the list around it.

ghost use Rattle.std.specs.Prelude.{◌≡◌, ◌++◌, [], ◌∷◌, false, reverse, IfOk, OnOk};
ghost use Rattle.std.specs.List.{flat_map};
ghost use Rattle.syntax.specs.Reading as rd;
ghost use Rattle.leaf_parser.specs.Reads.{Reads};
ghost use Rattle.syntax.specs.Grammar as spec;

use crate::cursors::Cursor;
use crate::loops::{RepeatedPart, parse_many};
use crate::names::start_list;
use crate::stops::Stop;
use sqlite_items::{Boxed, Items};
use std::alloc::{AllocError, Global};
use syntax::{Condition, Expression};

/// How parts are joined to one tree. A part may be such a tree itself, since it may stand in
/// parentheses: then its own parts stand for it.
pub trait Joint<T> {
    ghost use Rattle.std.specs.Prelude.{◌≡◌, [], ◌∷◌, ◌++◌, List, false, OnOk};

    ghost parts: { T → List T };

    ghost whole: { List T → T };

    /// Whether this is such a tree itself.
    fn is_joined(part: &T) -> bool
        ensures { result ≡ false → parts part.now ≡ part.now ∷ [] };

    /// Puts a part behind the others.
    fn push(all: &mut Items<T>, part: T) -> Result<(), AllocError>
        ensures { OnOk result (all.new ≡ all.old ++ parts part) };

    /// The tree of these parts.
    fn join(items: Items<T>) -> T
        ensures { result ≡ whole items };
}

/// Products of factors.
pub struct Products;

impl Joint<Expression> for Products {
    ghost use Rattle.syntax.specs.Grammar as spec;
    ghost use Rattle.syntax.specs.declared.trees.Expression.TheVariants as e;

    ghost parts = { spec.product_parts };

    ghost whole = { e.Product };

    #[tactic(auto, unfolding(syntax::specs::Grammar::product_parts))]
    fn is_joined(part: &Expression) -> bool {
        matches!(part, Expression::Product(_))
    }

    #[tactic(auto, unfolding(syntax::specs::Grammar::product_parts))]
    fn push(all: &mut Items<Expression>, part: Expression) -> Result<(), AllocError> {
        match part {
            Expression::Product(inner) => all.append(inner),
            other => all.push(other),
        }
    }

    fn join(items: Items<Expression>) -> Expression
        ensures { result ≡ Expression.Product items }
    {
        Expression::Product(items)
    }
}

/// Sums of terms.
pub struct Sums;

impl Joint<Expression> for Sums {
    ghost use Rattle.syntax.specs.Grammar as spec;
    ghost use Rattle.syntax.specs.declared.trees.Expression.TheVariants as e;

    ghost parts = { spec.sum_parts };

    ghost whole = { e.Sum };

    #[tactic(auto, unfolding(syntax::specs::Grammar::sum_parts))]
    fn is_joined(part: &Expression) -> bool {
        matches!(part, Expression::Sum(_))
    }

    #[tactic(auto, unfolding(syntax::specs::Grammar::sum_parts))]
    fn push(all: &mut Items<Expression>, part: Expression) -> Result<(), AllocError> {
        match part {
            Expression::Sum(inner) => all.append(inner),
            other => all.push(other),
        }
    }

    fn join(items: Items<Expression>) -> Expression
        ensures { result ≡ Expression.Sum items }
    {
        Expression::Sum(items)
    }
}

/// Conditions joined by AND.
pub struct Ands;

impl Joint<Condition> for Ands {
    ghost use Rattle.syntax.specs.Grammar as spec;
    ghost use Rattle.syntax.specs.declared.trees.Condition.TheVariants as b;

    ghost parts = { spec.and_parts };

    ghost whole = { b.And };

    #[tactic(auto, unfolding(syntax::specs::Grammar::and_parts))]
    fn is_joined(part: &Condition) -> bool {
        matches!(part, Condition::And(_))
    }

    #[tactic(auto, unfolding(syntax::specs::Grammar::and_parts))]
    fn push(all: &mut Items<Condition>, part: Condition) -> Result<(), AllocError> {
        match part {
            Condition::And(inner) => all.append(inner),
            other => all.push(other),
        }
    }

    fn join(items: Items<Condition>) -> Condition
        ensures { result ≡ Condition.And items }
    {
        Condition::And(items)
    }
}

/// Conditions joined by OR.
pub struct Ors;

impl Joint<Condition> for Ors {
    ghost use Rattle.syntax.specs.Grammar as spec;
    ghost use Rattle.syntax.specs.declared.trees.Condition.TheVariants as b;

    ghost parts = { spec.or_parts };

    ghost whole = { b.Or };

    #[tactic(auto, unfolding(syntax::specs::Grammar::or_parts))]
    fn is_joined(part: &Condition) -> bool {
        matches!(part, Condition::Or(_))
    }

    #[tactic(auto, unfolding(syntax::specs::Grammar::or_parts))]
    fn push(all: &mut Items<Condition>, part: Condition) -> Result<(), AllocError> {
        match part {
            Condition::Or(inner) => all.append(inner),
            other => all.push(other),
        }
    }

    fn join(items: Items<Condition>) -> Condition
        ensures { result ≡ Condition.Or items }
    {
        Condition::Or(items)
    }
}

/// The items, the last first, so that they can be taken from their front.
#[tactic(auto, using(value::proofs::Lists::turn_step))]
pub fn reverse<T: Drop>(alloc: Global, mut items: Items<T>) -> Result<Items<T>, AllocError>
    ensures { IfOk result (λ turned. turned ≡ reverse items) }
{
    let mut turned = Items::new(alloc);
    'turn: while let Some(item) = items.pop() {
        turned.push(item)?;
    }
    Ok(turned)
}

#[tactic(auto, using(crate::proofs::Merging::merge_step, crate::proofs::Merging::merge_start))]
fn merge<T: Drop, J: Joint<T>>(alloc: Global, parts: Items<T>) -> Result<Items<T>, AllocError>
    ensures { IfOk result (λ all. all ≡ flat_map J.parts parts) }
{
    let mut rest = reverse(alloc, parts)?;
    let mut all = Items::new(alloc);
    'merge: while let Some(part) = rest.pop() {
        J::push(&mut all, part)?;
    }
    Ok(all)
}

/// Whether a part has to be merged.
fn holds_joined<T, J: Joint<T>>(parts: &[T]) -> bool
    ensures { result ≡ false → flat_map J.parts parts.now ≡ parts.now }
{
    for part in parts {
        if J::is_joined(part) {
            return true;
        }
    }
    false
}

fn join_parts<T: Drop, J: Joint<T>>(alloc: Global, mut parts: Items<T>) -> Result<T, AllocError>
    ensures { IfOk result (λ whole. whole ≡ spec.alone_or J.parts J.whole parts) }
{
    if parts.len() == 1 {
        return Ok(parts.remove(0));
    }
    if !holds_joined::<T, J>(parts.as_slice()) {
        return Ok(J::join(parts));
    }
    Ok(J::join(merge::<T, J>(alloc, parts)?))
}

/// The tree of a part and of those that follow it. A part that none follows stands for itself.
#[tactic(auto, using(crate::proofs::Turns::many_stops))]
pub fn parse_joined<P: RepeatedPart, J: Joint<P::Tree>>(
    alloc: Global,
    part: &P,
    cursor: &mut Cursor<'_>,
    first: P::Tree,
) -> Result<P::Tree, Stop>
    requires { P.ready part.now }
    ensures { Reads
        (rd.◌<$>◌ (spec.alone_or J.parts J.whole) (rd.all P.begins (P.reader part.now) (first ∷ [])) cursor.old) result
        cursor.new }
{
    if !part.begins(cursor.peek()) {
        return Ok(first);
    }
    let parts = parse_many(part, cursor, start_list(alloc, first, 2)?)?;
    Ok(join_parts::<P::Tree, J>(alloc, parts)?)
}

/// The same of a first part in a box.
#[tactic(auto, using(crate::proofs::Turns::many_stops))]
pub fn parse_joined_boxed<P: RepeatedPart, J: Joint<P::Tree>>(
    alloc: Global,
    part: &P,
    cursor: &mut Cursor<'_>,
    first: Boxed<P::Tree>,
) -> Result<Boxed<P::Tree>, Stop>
    requires { P.ready part.now }
    ensures { Reads
        (rd.◌<$>◌ (spec.alone_or J.parts J.whole) (rd.all P.begins (P.reader part.now) (first ∷ [])) cursor.old) result
        cursor.new }
{
    if !part.begins(cursor.peek()) {
        return Ok(first);
    }
    let whole = parse_joined::<P, J>(alloc, part, cursor, first.into_inner())?;
    Ok(Boxed::new(alloc, whole)?)
}
