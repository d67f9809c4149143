//! Snapshots that no dangerous triple can have a reader of.

ghost use Rattle.std.specs.Prelude.{◌≡◌, ◌≤◌, ◌↔◌, true, length, map, reverse};
ghost use Rattle.alone.specs.Commits.{IsLog};
ghost use Rattle.alone.specs.Order.{least_out};
ghost use Rattle.alone.specs.Safe.{IsSafe};

use alone::Record;

/// Whether the snapshot that holds so many commits is safe among those committed: none past it conflicts to one that it
/// holds, but for those that are read only. `places` are the least conflicts out of those committed. It takes no
/// memory.
pub fn is_safe(committed: &[Record], places: &[u64], snapshot: u64) -> bool
    requires log { IsLog (reverse committed.now) }
    requires places { places.now ≡ map (least_out (reverse committed.now)) committed.now }
    requires within { snapshot ≤ length committed.now }
    ensures { (result ≡ true) ↔ IsSafe (reverse committed.now) snapshot }
{
    let held = snapshot as usize;
    for (commit, place) in committed[held..].iter().zip(&places[held..]) {
        if !commit.read_only && *place <= snapshot {
            return false;
        }
    }
    true
}
