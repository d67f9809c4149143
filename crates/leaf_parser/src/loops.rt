//! Parts that stand there again and again, in lists with commas and in parentheses.

ghost use Rattle.std.specs.Prelude.{◌≡◌, ◌-◌, List};
ghost use Rattle.syntax.specs.Reading as rd;
ghost use Rattle.leaf_parser.specs.Reads.{Collects, Reads};

use crate::cursors::Cursor;
use crate::names::start_list;
use crate::stops::{Stop, drop_and_stop, stop_for_depth};
use sqlite_items::Items;
use std::alloc::{AllocError, Global};
use token::Kind;

/// A part of a text, as what parses it.
pub trait Part {
    ghost use Rattle.syntax.specs.Reading.{Reader};

    /// What is made of the part.
    type Tree: Drop;

    /// What the parser needs to be called.
    ghost ready: { Self → Type 0 };

    ghost reader: { Self → Reader Self.Tree };

    fn parse(&self, cursor: &mut Cursor<'_>) -> Result<Self::Tree, Stop>
        requires { ready self.now }
        ensures { Reads (reader self.now cursor.old) result cursor.new };
}

/// A part that may stand there again and again, as long as the next token says so.
pub trait RepeatedPart: Part {
    ghost use Rattle.std.specs.Prelude.{Bool};
    ghost use Rattle.token.specs.declared.kinds.Kind.{Kind};

    ghost begins: { Kind → Bool };

    /// Whether a token of this kind begins one more.
    fn begins(&self, kind: Kind) -> bool
        ensures { result ≡ begins kind };
}

/// What parts are put into as soon as they are found, one behind the other: a list of them, or what is made of each at
/// once, so that no part has to be kept.
pub trait Collection<T>: Drop {
    ghost use Rattle.std.specs.Prelude.{List, [], ◌∷◌, ◌++◌, IfOk};

    /// Whether this is what comes of these parts, put in in their order.
    ghost made_of: { Self → List T → Type 0 };

    /// This with one more part. Where memory runs out, nothing is left.
    fn with(self, part: T) -> Result<Self, AllocError>
        ensures { IfOk result (λ more. (parts : List T) → made_of self parts → made_of more (parts ++ part ∷ [])) };
}

impl<T: Drop> Collection<T> for Items<T> {
    ghost use Rattle.std.specs.Prelude.{◌≡◌};

    ghost made_of = { λ items parts. items ≡ parts };

    fn with(mut self, part: T) -> Result<Items<T>, AllocError> {
        self.push(part)?;
        Ok(self)
    }
}

/// What comes of the parts that stand there, behind those found before.
pub fn collect_many<P: RepeatedPart, C: Collection<P::Tree>>(
    part: &P,
    cursor: &mut Cursor<'_>,
    found: C,
) -> Result<C, Stop>
    requires { P.ready part.now }
    ensures { (before : List P.Tree) → C.made_of found before
        → Collects C.made_of (rd.all P.begins (P.reader part.now) before cursor.old) result cursor.new }
{
    let mut all = found;
    for _turn in 0..cursor.left() {
        if !part.begins(cursor.peek()) {
            return Ok(all);
        }
        all = match part.parse(cursor) {
            Ok(one) => all.with(one)?,
            Err(stop) => return Err(drop_and_stop(stop, all)),
        };
    }
    Ok(all)
}

/// The parts that stand there, behind those found before.
#[tactic(auto, using(crate::proofs::Turns::collected_list))]
pub fn parse_many<P: RepeatedPart>(
    part: &P,
    cursor: &mut Cursor<'_>,
    found: Items<P::Tree>,
) -> Result<Items<P::Tree>, Stop>
    requires { P.ready part.now }
    ensures { Reads (rd.all P.begins (P.reader part.now) found cursor.old) result cursor.new }
{
    collect_many(part, cursor, found)
}

/// A part behind a comma.
#[derive(Drop)]
struct Behind<'a, P>(&'a P);

impl<'a, P: Part> Part for Behind<'a, P> {
    ghost use Rattle.syntax.specs.Reading as rd;

    type Tree = P::Tree;

    ghost ready = { λ b. P.ready b.0.now };

    ghost reader = { λ b. rd.list_item (P.reader b.0.now) };

    #[tactic(auto, unfolding(syntax::specs::Reading::list_item))]
    fn parse(&self, cursor: &mut Cursor<'_>) -> Result<P::Tree, Stop> {
        cursor.expect(Kind::Comma)?;
        self.0.parse(cursor)
    }
}

impl<'a, P: Part> RepeatedPart for Behind<'a, P> {
    ghost use Rattle.syntax.specs.Reading as rd;

    ghost begins = { rd.is_comma };

    fn begins(&self, kind: Kind) -> bool {
        match kind {
            Kind::Comma => true,
            _ => false,
        }
    }
}

/// `part { "," part }`
#[tactic(auto, unfolding(syntax::specs::Reading::list))]
pub fn parse_list<P: Part>(
    alloc: Global,
    part: &P,
    cursor: &mut Cursor<'_>,
) -> Result<Items<P::Tree>, Stop>
    requires { P.ready part.now }
    ensures { Reads (rd.list (P.reader part.now) cursor.old) result cursor.new }
{
    let first = part.parse(cursor)?;
    parse_many(&Behind(part), cursor, start_list(alloc, first, 4)?)
}

/// What was found, once a token of this kind stands behind it.
pub fn expect_after<T: Drop>(cursor: &mut Cursor<'_>, kind: Kind, found: T) -> Result<T, Stop>
    ensures { Reads (rd.◌>>◌ (rd.expect kind) (rd.pure found) cursor.old) result cursor.new }
{
    cursor.expect(kind)?;
    Ok(found)
}

/// `"(" part ")"`, where so many parentheses may be opened.
#[tactic(auto, using(crate::proofs::Turns::parens_none, crate::proofs::Turns::parens_some))]
pub fn parse_parens<P: Part>(
    part: &P,
    cursor: &mut Cursor<'_>,
    depth: usize,
) -> Result<P::Tree, Stop>
    requires { P.ready part.now }
    ensures { Reads (rd.parens depth (P.reader part.now) cursor.old) result cursor.new }
{
    if depth == 0 {
        return Err(stop_for_depth(cursor));
    }
    cursor.expect(Kind::Open)?;
    let found = part.parse(cursor)?;
    expect_after(cursor, Kind::Close, found)
}

/// A list of parts.
#[derive(Drop)]
struct PartList<'a, P> {
    alloc: Global,
    part: &'a P,
}

impl<'a, P: Part> Part for PartList<'a, P> {
    ghost use Rattle.syntax.specs.Reading as rd;

    type Tree = Items<P::Tree>;

    ghost ready = { λ l. P.ready l.part.now };

    ghost reader = { λ l. rd.list (P.reader l.part.now) };

    fn parse(&self, cursor: &mut Cursor<'_>) -> Result<Items<P::Tree>, Stop> {
        parse_list(self.alloc, self.part, cursor)
    }
}

/// `"(" part { "," part } ")"`, where so many parentheses may be opened.
pub fn parse_parens_list<P: Part>(
    alloc: Global,
    part: &P,
    cursor: &mut Cursor<'_>,
    depth: usize,
) -> Result<Items<P::Tree>, Stop>
    requires { P.ready part.now }
    ensures { Reads (rd.parens depth (rd.list (P.reader part.now)) cursor.old) result cursor.new }
{
    parse_parens(&PartList { alloc, part }, cursor, depth)
}
