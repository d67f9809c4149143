//! The tables of the three truth values.

use value::Truth;
use value::Truth::{False, True, Unknown};

/// Two truths, and their AND and OR, as the standard prints them.
const TABLE: &[(Truth, Truth, Truth, Truth)] = &[
    (True, True, True, True),
    (True, False, False, True),
    (True, Unknown, Unknown, True),
    (False, False, False, False),
    (False, Unknown, False, Unknown),
    (Unknown, Unknown, Unknown, Unknown),
];

/// Whether two truths have this AND and this OR, either way round.
fn join(a: Truth, b: Truth, and: Truth, or: Truth) -> bool {
    a.and(b) == and && b.and(a) == and && a.or(b) == or && b.or(a) == or
}

#[test]
fn truth_tables(rt: HostRuntime) {
    for (a, b, and, or) in TABLE {
        assert!(rt; join(*a, *b, *and, *or));
    }
}
