//! What stands on the shelf.

use alone::Record;
use delta::View;

/// What stands on the shelf for a number: the record of that commit, none for 0, and the tables after so many commits.
#[derive(Drop)]
pub struct Item {
    pub epoch: u64,
    pub number: u64,
    pub commit: Option<Record>,
    pub view: View,
}
