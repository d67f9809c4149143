//! The text with a `0` for each parameter.

ghost use Rattle.std.specs.Prelude.{◌≡◌, ℕ, ◌+◌, ◌^◌, ◌<◌, ◌++◌, List, Some, IfOk, IfSome, IsTrue, length};
ghost use Rattle.prepared.specs.declared.masks.Next.TheVariants as which;
ghost use Rattle.prepared.specs.Masks as spec;

use std::alloc::{AllocError, Global};
use token::next_token;
use value::Refusal;

fn is_question_at(text: &[u8], at: usize) -> bool
    ensures value { result ≡ spec.is_question_at text.now at }
    ensures within { IsTrue result → at < length text.now }
{
    match text.get(at) {
        Some(byte) => *byte == b'?',
        None => false,
    }
}

/// What stands next in a text: a token with its end, or a parameter.
#[derive(Clone, Copy, Debug)]
pub enum Next {
    Token(usize),
    Parameter(usize),
}

/// What stands next from an offset on, if it is one of the two.
#[tactic(auto, unfolding(crate::specs::Masks::next_at))]
pub fn find_next(text: &[u8], from: usize) -> Option<Next>
    ensures value { result ≡ spec.next_at text.now from }
    ensures within { IfSome result (λ next. (at : ℕ) → next ≡ which.Parameter at → at < length text.now) }
{
    match next_token(text, from) {
        Ok(None) => None,
        Ok(Some(token)) => Some(Next::Token(token.end)),
        Err(Refusal::Syntax { at }) => {
            if is_question_at(text, at) {
                Some(Next::Parameter(at))
            } else {
                None
            }
        }
        Err(_) => None,
    }
}

/// Passes what stands next, which is put behind the other places where it is a parameter, and gives where it ends.
fn pass(next: Next, places: &mut Vec<usize>) -> Result<usize, AllocError>
    requires { (at : ℕ) → next ≡ which.Parameter at → at + 1 < 2 ^ 64 }
    ensures { IfOk result (λ end. (behind : ℕ → List ℕ)
        → places.new.items ++ behind end ≡ places.old.items ++ spec.places_by behind (Some next)) }
{
    match next {
        Next::Token(end) => Ok(end),
        Next::Parameter(at) => {
            places.push(at)?;
            Ok(at + 1)
        }
    }
}

/// Where the parameters of a text stand.
#[tactic(auto, unfolding(crate::specs::Masks::places))]
fn find_places(alloc: Global, text: &[u8]) -> Result<Vec<usize>, AllocError>
    ensures { IfOk result (λ places. places.items ≡ spec.places text.now) }
{
    let mut places = Vec::new(alloc);
    let mut from = 0;
    for _turn in 0..text.len() {
        let Some(next) = find_next(text, from) else {
            return Ok(places);
        };
        from = pass(next, &mut places)?;
    }
    Ok(places)
}

/// Puts a `0` at each of these places.
#[tactic(auto, using(crate::proofs::Places::zero_past))]
fn put_zeros(text: &mut [u8], places: &[usize])
    ensures { text.new ≡ spec.with_zeros places.now text.old }
{
    for at in places {
        if *at < text.len() {
            text[*at] = b'0';
        }
    }
}

/// The text with a `0` for each parameter.
#[tactic(auto, unfolding(crate::specs::Masks::mask))]
pub fn mask(alloc: Global, text: &[u8]) -> Result<Vec<u8>, AllocError>
    ensures { IfOk result (λ mask. mask.items ≡ spec.mask text.now) }
{
    let mut mask = Vec::from_slice(alloc, text)?;
    let places = find_places(alloc, text)?;
    put_zeros(&mut mask, &places);
    Ok(mask)
}
