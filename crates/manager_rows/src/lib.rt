//! Scripts of sessions through a manager, on one thread, by the bytes that they print. Tests alone.
//!
//! What a call of a manager's book answers is proved (`session`). That a manager's call hands that answer on, and that
//! a genuine session, transaction or receipt is ever taken, no contract can say of a value under a lock, nor that a
//! commit which could not be kept leaves nothing there (`kept`). So scripts are run here: what they print was taken
//! from elsewhere, the manager's verdicts are those of the commits that it leaves, and each receipt that it gave or
//! showed is found in its history. They stand in a crate of their own, since they need the parser and the report, and
//! `session` is then proved once.
//!
//! So do the tests that `tools/refused_growth.py` runs with allocations refused: each call that finds no memory is made
//! once more, and all that can be seen before it and after it is compared as text (`again`); and the calls that take no
//! memory answer where every allocation is refused (`without_memory`, `lower_without_memory`).
#![tactic(auto)]

#[cfg(test)]
mod again;
#[cfg(test)]
mod checkpoints;
#[cfg(test)]
mod driver;
#[cfg(test)]
mod given_back;
#[cfg(test)]
mod kept;
#[cfg(test)]
mod lower_without_memory;
#[cfg(test)]
mod printed;
#[cfg(test)]
mod rows;
#[cfg(test)]
mod strangers;
#[cfg(test)]
mod transactions;
#[cfg(test)]
mod views;
#[cfg(test)]
mod without_memory;
