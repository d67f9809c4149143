//! A cursor over the tokens of a text.

ghost use Rattle.std.specs.Prelude.{◌≡◌, ◌↔◌, [], IsTrue, map, length};
ghost use Rattle.std.specs.Str.{bytes_eq};
ghost use Rattle.token.specs.declared.kinds.Kind.TheVariants as k;
ghost use Rattle.syntax.specs.Grammar.{name_of};
ghost use Rattle.syntax.specs.Language.{head, kind_at};
ghost use Rattle.syntax.specs.Reading as rd;
ghost use Rattle.syntax.specs.Lexemes.{lexeme, bytes_of, place};
ghost use Rattle.syntax.specs.Reading.{Done};
ghost use Rattle.leaf_parser.specs.Reads.{Reads, IsAt};

use crate::stops::Stop;
use std::marker::Model;
use token::{Kind, Token, is_spelled};

/// A token with its bytes.
#[derive(Drop)]
pub struct Piece<'a> {
    kind: Kind,
    spelling: &'a [u8],
    at: usize,
}

impl<'a> Model for Piece<'a> {
    ghost use Rattle.syntax.specs.Language.{Lexeme};

    ghost Value = { Lexeme };

    ghost view = { λ p. record { kind = p.kind; spelling = p.spelling.now; at = p.at } };
}

impl<'a> Piece<'a> {
    /// Whether it is of this kind.
    #[tactic(auto, unfolding(syntax::specs::Reading::same_kind))]
    pub fn is(&self, kind: Kind) -> bool
        ensures { result ≡ rd.same_kind self.now.kind kind }
    {
        self.kind == kind
    }

    pub fn spelling(&self) -> &'a [u8]
        ensures { result.now ≡ self.now.spelling }
    {
        self.spelling
    }
}

/// The tokens of a text that are left.
#[derive(Drop)]
pub struct Cursor<'a> {
    text: &'a [u8],
    rest: &'a [Token],
}

impl<'a> Model for Cursor<'a> {
    ghost use Rattle.std.specs.Prelude.{map};
    ghost use Rattle.syntax.specs.Language.{Lexemes};
    ghost use Rattle.syntax.specs.Lexemes.{lexeme};

    ghost Value = { Lexemes };

    ghost view = { λ t. map (lexeme t.text.now) t.rest.now };
}

fn bytes<'a>(text: &'a [u8], token: &Token) -> &'a [u8]
    ensures { result.now ≡ bytes_of text.now token.now }
{
    if token.start <= token.end && token.end <= text.len() {
        &text[token.start..token.end]
    } else {
        &[]
    }
}

fn piece_of<'a>(text: &'a [u8], token: &Token) -> Piece<'a>
    ensures { result ≡ lexeme text.now token.now }
{
    Piece {
        kind: token.kind,
        spelling: bytes(text, token),
        at: token.start,
    }
}

impl<'a> Cursor<'a> {
    /// At the first of these tokens of a text.
    pub fn new(text: &'a [u8], tokens: &'a [Token]) -> Cursor<'a>
        ensures { result ≡ map (lexeme text.now) tokens.now }
    {
        Cursor { text, rest: tokens }
    }

    /// The kind of the next token, or `End`.
    pub fn peek(&self) -> Kind
        ensures { result ≡ kind_at self.now }
    {
        match self.rest {
            [] => Kind::End,
            [token, ..] => token.kind,
        }
    }

    pub fn is_empty(&self) -> bool
        ensures { IsTrue result ↔ (self.now ≡ []) }
    {
        match self.rest {
            [] => true,
            [_, ..] => false,
        }
    }

    /// Where the next token begins, or `end` where none is left.
    pub fn place(&self, end: usize) -> usize
        ensures { result ≡ place end self.now }
    {
        match self.rest {
            [] => end,
            [token, ..] => token.start,
        }
    }

    /// Whether the next token is of this kind.
    #[tactic(auto, unfolding(syntax::specs::Reading::same_kind))]
    pub fn is(&self, kind: Kind) -> bool
        ensures { result ≡ rd.same_kind (kind_at self.now) kind }
    {
        self.peek() == kind
    }

    /// How many are left.
    pub fn left(&self) -> usize
        ensures { result ≡ length self.now }
    {
        self.rest.len()
    }

    /// The next token, which stays.
    pub fn first(&self) -> Option<Piece<'a>>
        ensures { result ≡ head self.now }
    {
        match self.rest {
            [] => None,
            [token, ..] => Some(piece_of(self.text, token)),
        }
    }

    /// Takes the next token, which is to be of this kind.
    pub fn expect(&mut self, kind: Kind) -> Result<Piece<'a>, Stop>
        ensures { Reads (rd.expect kind self.old) result self.new }
    {
        if !self.is(kind) {
            return Err(Stop::Syntax);
        }
        let Some((token, rest)) = self.rest.split_first() else {
            return Err(Stop::Syntax);
        };
        self.rest = rest;
        Ok(piece_of(self.text, token))
    }

    /// Takes the next token, which is to be a name that is this word, in any case of letters. `word` is in upper case.
    #[tactic(auto, unfolding(syntax::specs::Grammar::name_of))]
    pub fn expect_word(&mut self, word: &[u8]) -> Result<Piece<'a>, Stop>
        ensures { Reads (rd.expect_where k.Name (λ x. bytes_eq (name_of x) word.now) self.old) result self.new }
    {
        let Some((token, rest)) = self.rest.split_first() else {
            return Err(Stop::Syntax);
        };
        let piece = piece_of(self.text, token);
        if !piece.is(Kind::Name) || !is_spelled(piece.spelling, word) {
            return Err(Stop::Syntax);
        }
        self.rest = rest;
        Ok(piece)
    }

    /// Takes the next token, which is known to be of this kind.
    #[tactic(auto, using(crate::proofs::Taking::at_none, crate::proofs::Taking::at_takes))]
    pub fn take(&mut self, kind: Kind) -> Piece<'a>
        requires { IsAt kind self.old }
        ensures { rd.expect kind self.old ≡ (Done result, self.new) }
    {
        let Some((token, rest)) = self.rest.split_first() else {
            unreachable!();
        };
        self.rest = rest;
        piece_of(self.text, token)
    }
}
