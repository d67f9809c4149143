//! A row as a group sees it.

use value::Value;

/// A row of a group: the value that names the group, and the value that a set function looks at.
#[derive(Debug, Drop)]
pub struct Member {
    pub group: Value,
    pub value: Value,
}
