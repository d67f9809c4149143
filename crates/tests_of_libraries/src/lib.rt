//! The tests of the libraries, by their public calls alone, that the program's runs leave to be written.
//!
//! A function whose clause says its value needs no test of that value, and a run of the program that prints the right
//! bytes shows that it finds its memory. So here stands what no run reaches, values and sizes that come from elsewhere,
//! and printed text, of which no clause speaks. docs/GATE.md says how to see what runs reach.
//!
//! They stand apart from the crates, since a crate that holds tests is proved once more for them.
#![tactic(auto)]

#[cfg(test)]
mod assertion_tests;
#[cfg(test)]
mod commit_tests;
#[cfg(test)]
mod cond_tests;
#[cfg(test)]
mod durable_tests;
#[cfg(test)]
mod epoch_tests;
#[cfg(test)]
mod pages_tests;
#[cfg(test)]
mod parse_tests;
#[cfg(test)]
mod prepared_tests;
#[cfg(test)]
mod report_tests;
#[cfg(test)]
mod rows_tests;
#[cfg(test)]
mod shared;
#[cfg(test)]
mod threeval_tests;
#[cfg(test)]
mod token_tests;
#[cfg(test)]
mod txn_tests;
#[cfg(test)]
mod value_tests;
