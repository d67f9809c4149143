//! The values of tables, their types, and the roots of assertions.

ghost use Rattle.std.specs.Prelude.{◌≡◌, ◌↔◌, IfOk};
ghost use Rattle.std.specs.Cmp.{IsTotalOrder};
ghost use Rattle.value.specs.ValueOrder.{value_cmp, root_cmp};

use crate::texts::Text;
use std::alloc::AllocError;
use std::cmp::Ordering;
use std::fmt;

/// A value of a column. In order NULL stands before the numbers, and those before the texts.
#[derive(Debug, Default, Drop, PartialEq, Eq, PartialOrd, Ord)]
pub enum Value {
    #[default]
    Null,
    Int(i64),
    Text(Text),
}

impl Value {
    /// A value equal to this one. It shares a text's bytes, and takes no memory.
    pub fn copy(&self) -> Result<Value, AllocError>
        ensures { IfOk result (λ copy. copy ≡ self.now) }
    {
        match self {
            Value::Null => Ok(Value::Null),
            Value::Int(number) => Ok(Value::Int(*number)),
            Value::Text(text) => Ok(Value::Text(text.copy()?)),
        }
    }
}

/// As SQL writes it: a text in quotes, with each quote of its own twice.
impl fmt::Display for Value {
    fn fmt<W: fmt::Write>(&self, f: &mut fmt::Formatter<W>) -> fmt::Result {
        match self {
            Value::Null => write!(f, "NULL"),
            Value::Int(number) => write!(f, "{number}"),
            Value::Text(text) => {
                write!(f, "'")?;
                text.write_into(f, "''")?;
                write!(f, "'")
            }
        }
    }
}

/// The type of a column: INTEGER, or VARCHAR with the most characters that a text has there.
#[derive(Clone, Copy, Debug, PartialEq, Eq)]
pub enum ColType {
    Integer,
    Varchar(u8),
}

/// Where an assertion can be false: as a whole, or at a key or a group.
#[derive(Debug, Drop, PartialEq, Eq, PartialOrd, Ord)]
pub enum Root {
    All,
    Of(Value),
}

impl Root {
    /// A root equal to this one. It shares a text's bytes, and takes no memory.
    pub fn copy(&self) -> Result<Root, AllocError>
        ensures { IfOk result (λ copy. copy ≡ self.now) }
    {
        match self {
            Root::All => Ok(Root::All),
            Root::Of(value) => Ok(Root::Of(value.copy()?)),
        }
    }
}

/// ALL, or the value as SQL writes it.
impl fmt::Display for Root {
    fn fmt<W: fmt::Write>(&self, f: &mut fmt::Formatter<W>) -> fmt::Result {
        match self {
            Root::All => write!(f, "ALL"),
            Root::Of(value) => write!(f, "{value}"),
        }
    }
}

/// Where the first value stands beside the second in the total order of values.
pub fn order(a: &Value, b: &Value) -> Ordering
    ensures value { result ≡ value_cmp a.now b.now }
    ensures total { IsTotalOrder value_cmp }
    ensures exact { (result ≡ Ordering.Equal) ↔ (a.now ≡ b.now) }
{
    a.cmp(b)
}

/// Where the first root stands beside the second: the whole before each value.
pub fn order_roots(left: &Root, right: &Root) -> Ordering
    ensures value { result ≡ root_cmp left.now right.now }
    ensures total { IsTotalOrder root_cmp }
    ensures exact { (result ≡ Ordering.Equal) ↔ (left.now ≡ right.now) }
{
    left.cmp(right)
}
