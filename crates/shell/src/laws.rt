//! What the cutting of the input entails.

ghost use Rattle.std.specs.Prelude.{◌≡◌, ◌++◌, ◌∷◌, [], List, ℕ, true};
ghost use Rattle.std.specs.List.{list_all};
ghost use Rattle.token.specs.Rules.{in_quotes, is_in_line};
ghost use Rattle.shell.specs.declared.cutting.Place.{Place};
ghost use Rattle.shell.specs.declared.cutting.Place.TheVariants.{Plain};
ghost use Rattle.shell.specs.Cuts.{PassesOver, is_outside, no_rest, pieces_of, text_of_pieces, rest_of};

/// The pieces of an input, each with its semicolon, and behind them what is left, are the input.
pub fn pieces_are_the_input()
    ensures { (input : List ℕ) → text_of_pieces (pieces_of no_rest input) ++ (rest_of no_rest input).bytes ≡ input }
{}

/// No semicolon in a quoted text ends a piece, nor one in a comment, wherever outside of both it begins: also behind a
/// dash, or behind the semicolon of the piece before.
pub fn quotes_and_comments_are_whole()
    ensures quotes { (place : Place) → is_outside place ≡ true → (inside : List ℕ)
        → PassesOver place (in_quotes inside) Plain }
    ensures comments { (place : Place) → is_outside place ≡ true → (line : List ℕ) → list_all is_in_line line ≡ true
        → PassesOver place (45 ∷ 45 ∷ (line ++ 10 ∷ [])) Plain }
{}
