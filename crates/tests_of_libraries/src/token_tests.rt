//! Texts with the tokens that stand at their places, written out by hand.

use token::{Kind, Token, next_token};
use value::Refusal;

/// What stands at a place of a text, or behind its spaces.
#[derive(Clone, Copy, PartialEq, Eq)]
enum Answered {
    Found(Kind, usize, usize),
    Nothing,
    Syntax(usize),
    Other,
}

/// The next token of a text from a place on.
fn ask_next(text: &[u8], from: usize) -> Answered {
    let answer = next_token(text, from);
    let next = as_answered(&answer);
    drop(answer);
    next
}

/// What an answer says.
fn as_answered(answer: &Result<Option<Token>, Refusal>) -> Answered {
    match answer {
        Ok(Some(token)) => Answered::Found(token.kind, token.start, token.end),
        Ok(None) => Answered::Nothing,
        Err(Refusal::Syntax { at }) => Answered::Syntax(*at),
        Err(_) => Answered::Other,
    }
}

/// Texts, places, and what stands there.
const NEXT: &[(&[u8], usize, Answered)] = &[
    // A comment ends the text.
    (b"-", 0, Answered::Found(Kind::Minus, 0, 1)),
    (b" \t--\xff'\r--", 0, Answered::Nothing),
    (b"--\xff\n\xff", 1, Answered::Found(Kind::Minus, 1, 2)),
    (b"--\xff\n\xff", 0, Answered::Syntax(4)),
    // Nothing stands past the end.
    (b"x", 1, Answered::Nothing),
    (b"x", 2, Answered::Nothing),
    (b"", usize::MAX, Answered::Nothing),
    // The largest number, and larger ones.
    (
        b"x 1000000000000000",
        1,
        Answered::Found(Kind::Number, 2, 18),
    ),
    (b"x 1000000000000001", 1, Answered::Syntax(2)),
    (b"9000000000000000", 0, Answered::Syntax(0)),
];

#[test]
fn next_tokens(rt: HostRuntime) {
    for (text, from, wanted) in NEXT {
        assert!(rt; ask_next(text, *from) == *wanted, "{from}");
    }
}

/// The longest name, and a longer one.
#[test]
fn long_names(rt: HostRuntime) {
    assert!(rt; ask_next(&[b'w'; 128], 0) == Answered::Found(Kind::Name, 0, 128));
    assert!(rt; ask_next(&[b'w'; 129], 0) == Answered::Syntax(0));
}
