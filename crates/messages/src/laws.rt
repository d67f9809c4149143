//! What the layout of requests and replies entails. The law is the contract of a function that does nothing.

ghost use Rattle.std.specs.Prelude.{◌≡◌, ◌++◌, ◌<◌, ◌^◌, ℕ, List, length, Some};
ghost use Rattle.value.specs.declared.values.Value.{Value as AnyValue};
ghost use Rattle.messages.specs.Reading.{listed_value_at, number_at, text_at, value_at};
ghost use Rattle.messages.specs.Spelling.{IsListed, IsSpelled, listed_value, number, text, value};

/// What is spelled is read again, whatever stands behind it: a number of 64 bits, a text whose length is one, a value,
/// and a value that a SELECT lists, whose numbers may have 128 bits.
pub fn what_is_spelled_is_read()
    ensures numbers { (n : ℕ) (rest : List ℕ) → n < 2 ^ 64 → number_at (number n ++ rest) ≡ Some (n, rest) }
    ensures texts { (bytes rest : List ℕ) → length bytes < 2 ^ 64 → text_at (text bytes ++ rest) ≡ Some (bytes, rest) }
    ensures values { (v : AnyValue) (rest : List ℕ) → IsSpelled v → value_at (value v ++ rest) ≡ Some (v, rest) }
    ensures listed { (v : AnyValue) (rest : List ℕ) → IsListed v → listed_value_at (listed_value v ++ rest) ≡ Some (v, rest) }
{}
