//! What the tests share: comparisons that end a test, and tables by the text that defines them.

ghost use Rattle.std.specs.Prelude.{IfOk};
ghost use Rattle.alone.specs.Alone.{IsSound};

use commit::admit;
use delta::View;
use parse::parse_schema;
use std::alloc::{AllocError, Global};
use std::process::Abort;
use value::{Refusal, Text, Value};

/// Ends the test where a text isn't the wanted one.
pub fn same(rt: &impl Abort, found: &str, wanted: &str) {
    assert_eq!(rt; found, wanted);
}

/// Ends the test where a number isn't the wanted one.
pub fn count(rt: &impl Abort, found: usize, wanted: usize) {
    assert_eq!(rt; found, wanted);
}

/// A text as a value.
pub fn text(alloc: Global, text: &str) -> Result<Value, AllocError> {
    Ok(Value::Text(Text::from_str(alloc, text)?))
}

/// The tables and assertions that a text defines, with its rows.
pub fn tables_of(alloc: Global, text: &str) -> Result<View, Refusal>
    ensures { IfOk result (λ view. IsSound view.declared view.state) }
{
    let definitions = parse_schema(alloc, text.as_bytes())?;
    let admitted = admit(alloc, definitions.as_slice());
    drop(definitions);
    admitted
}
