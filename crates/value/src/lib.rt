//! The values that tables hold, how they compare, the truth of what is asked of them, and every refusal of the
//! workspace.
//!
//! A column of a table holds whole numbers or texts, and NULL where a value is missing (SQL-92, ISO/IEC
//! 9075:1992, data types and null values). Two questions are asked of a pair of values, and they differ:
//!
//! - *What does a comparison of SQL know of them?* `compare` answers nothing where a side is NULL, since a
//!   comparison with NULL is unknown; a `Comparison` such as `<=` then says for which answers it holds.
//! - *Where do they stand in a list?* `order` is a total order, in which NULL stands first, then the numbers,
//!   then the texts byte by byte, which is by the numbers of their characters, a beginning before the longer text
//!   (this project's choice, with no padding and no collation). Keys, groups and roots are kept in it, and NULL is
//!   there a value like another, as GROUP BY wants it.
//!
//! A condition is true, false or unknown (ISO/IEC 9075:1992, search condition), and a [`Truth`] is one of the three.
//! Unknown comes from NULL: a comparison with a missing value is neither true nor false. The standard gives AND, OR
//! and NOT by truth tables, and `IS TRUE`, `IS FALSE` and `IS UNKNOWN`, which are never unknown:
//!
//! - AND is false if a side is false, else unknown if a side is unknown, else true;
//! - OR is true if a side is true, else unknown if a side is unknown, else false;
//! - NOT turns true and false round, and leaves unknown.
//!
//! What a truth is used for decides what unknown counts as. WHERE and HAVING keep a row or a group only where the
//! condition is true; an assertion is satisfied wherever its condition is not false.
//!
//! A `Root` is where an assertion can be false: at one key or one group, or as a whole. A `Refusal` is why a
//! statement or a definition was refused. It names its cause by values, and never by a message; running out of
//! memory is one of them, so that `?` carries it everywhere.
//!
//! A `Text` is seen by contracts as the list of its bytes. So values, roots and refusals are plain data in
//! clauses, and `≡` between two of them is equality. Inside, its copies share the bytes, so that a copy of a value
//! or a root takes no memory. `Copied` is what the layers above ask of whatever they keep in versions.
//!
//! What the layer above may rest on: `order` and `order_roots` are total orders that tell all values (roots)
//! apart, `compare` is nothing exactly where a side is NULL and is else the order, each function of `Truth` is its
//! truth table as the standard has it, and a copy is equal to its original or memory ran out.
//!
//! The definitions are in `specs/`: `ValueOrder` (the orders by cases), `Comparisons` (the comparisons of SQL),
//! `Truths` (the truth tables), `Texts` (the characters that texts are made of) and `Ordered` (lists in the order of a
//! key: what stands at a key, the list after a change at a key, the least). Their laws are in `proofs/ValueOrders` and
//! `proofs/OrderedLists`, for any list that a layer above keeps in order.
#![tactic(auto)]

mod comparisons;
mod copied;
mod refusals;
mod texts;
mod truths;
mod values;

pub use comparisons::{Comparison, compare};
pub use copied::Copied;
pub use refusals::{Excess, Party, Refusal};
pub use texts::{Text, ascii_goes_by_bytes, is_plain_byte, is_utf8};
pub use truths::Truth;
pub use values::{ColType, Root, Value, order, order_roots};
