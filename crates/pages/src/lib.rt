//! An ordered map from values, of which every version stays whole.
//!
//! A change never alters a map that someone else may be reading. `Pages::copy` is a map of its own that shares
//! everything with the old one, and `Pages::put` changes one of the two and nothing of the other (persistent data
//! structures: Driscoll, Sarnak, Sleator and Tarjan, "Making Data Structures Persistent", 1989). What a change touches
//! is the path to one place: it is copied where a copy still shares it, and changed where it stands where none does. So
//! a change costs the same on a million entries as on a thousand, and many changes in a row copy each node once.
//!
//! Contracts see a map as the plain list of its entries, each a key and its value, in the order of the keys (NULL, then
//! numbers, then texts). Each key stands once.
//!
//! - `Pages::get` is the value under a key, if there is one, and `Pages::first` and `Pages::last` are the entries of
//!   the least and of the greatest key.
//! - `Pages::put` makes one change: under the key stands the new value, or none, and nothing else is another than
//!   before. Where memory ran out, the map is as it was.
//! - `Pages::with` is the map after one change, and leaves the old one as it is.
//! - `Pages::iter` lends the entries in order, one after the other, and `Pages::page_from` from any place on, as many
//!   as stand together.
//! - `Pages::copy` is an equal map, which shares everything.
//!
//! A [`DifferentialMap`] is such a map with its newest changes beside it. Where each statement makes a version, the
//! copied paths cost most of it, though all that differs may be one entry. So a change of a map that others share is
//! noted as a *difference*, a key with what stands there now, and the pages stay shared (Severance and Lohman,
//! "Differential Files: Their Application to the Maintenance of Large Databases", 1976). Look-ups ask the differences
//! first, and [`DifferentialMap::values`] lends what stands in both, in order. Eight differences may stand beside a
//! map; the next change puts them all into it, and copies what they touch. [`DifferentialMap::settle`] does so at once
//! where nobody shares the map any more: then nothing is copied. To settle changes no entry, so it cannot fail: what
//! finds no memory stays where it is. Contracts see such a map, too, as the plain list of its entries.
//!
//! What the layer above may rest on: whatever only looks takes no memory; a changed map is the old one with that change
//! and no other, or memory ran out; its keys ascend. No call has a premise. A node that is copied copies its entries,
//! so values are `value::Copied`, best by a count.
//!
//! Inside it is a B+-tree (Bayer and McCreight, "Organization and Maintenance of Large Ordered Indexes", 1972; Comer,
//! "The Ubiquitous B-Tree", 1979) with path copying. Its leaves are *pages* of at most 15 entries, which stand in them
//! by value, and its inner nodes have at most 15 nodes below them. Between two nodes an inner node keeps a separator,
//! which is above all keys before it and above none behind it: it need not be a key itself, and no change of an entry
//! moves it, so versions share the separators of a node until one below it is cut or goes. All leaves are equally deep,
//! entries and separators ascend, and no node without entries stands beside another: the type keeps all of this, so
//! that a search goes by halves, in a page as among separators.
//!
//! A node that is full on the way to a new entry is cut in two on the way down (Guibas and Sedgewick, "A Dichromatic
//! Framework for Balanced Trees", 1978): in the middle, or before its end where the new key is above all that it has,
//! so that keys which come upwards leave full pages. Copies and cuts change no entry, the new entry's place in its page
//! is the one step behind them that can fail, and on the way back only what became empty is taken out: so no failure
//! leaves anything to be undone. A root over one node alone gives way to it.
//!
//! The definitions are in `specs/`: `Reach` (the entries, and how far a list of them goes), and for the functions
//! inside `Differences` (a map with differences beside it), `Levels` (nodes beside each other), `Parts` (separators,
//! and the nodes that they part), `Taken` (a change of a page by places), `Shapes` (what holds of each node), `Cuts`
//! (a node that is cut in two) and `Falls` (each node is higher than those below it).
#![tactic(auto)]

mod copies;
mod differential;
mod entries;
mod nodes;
mod pages;
mod parts;
mod search;
mod values;

pub use differential::DifferentialMap;
pub use entries::Entries;
pub use pages::Pages;
pub use values::Values;
