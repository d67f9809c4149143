//! The tests of the ways to run a script, in its order and on threads, that are no folders of `tests/`: the worked
//! rows, the gates that hold threads, readers and writers that fail.
//!
//! What only compares the bytes that the program prints stands in `tests/`, and tools/folders.py runs it. More is tried
//! by tools, over many texts: faulty ones by tools/faulty_texts.py, the figures of random definitions by
//! tools/check_against.py and those of explanations by tools/explain_against.py; and by tools/against_postgresql.py
//! that PostgreSQL takes the SQL, and refuses under it what the program refuses.
//!
//! They stand apart from the crates, since a crate that holds tests is proved once more for them.
#![tactic(auto)]

#[cfg(test)]
mod files;
#[cfg(test)]
mod gates;
#[cfg(test)]
mod indexes;
#[cfg(test)]
mod links;
#[cfg(test)]
mod outputs;
#[cfg(test)]
mod replays;
#[cfg(test)]
mod sessions;
#[cfg(test)]
mod statements;
#[cfg(test)]
mod texts;
#[cfg(test)]
mod threads_in_turn;
