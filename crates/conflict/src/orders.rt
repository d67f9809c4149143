//! The serial order, by the numbers of the commits.

ghost use Rattle.std.specs.Prelude.{◌≡◌, ◌≤◌, ◌<◌, ◌+◌, ◌-◌, length, map, reverse, slice_index_or, vec_capacity, vec_len};
ghost use Rattle.alone.specs.declared.records.Record.{Record as Commit};
ghost use Rattle.alone.specs.Commits.{IsLog};
ghost use Rattle.alone.specs.Order.{least_out, put_by, rank, rank_at, serial_order};
ghost use Rattle.conflict.specs.Ordered.{numbers_of, IsPlaceOf};

use alone::Record;

/// Puts the next commit into the serial order, which has room for it: behind all of no greater rank. `places` are the
/// least conflicts out of those committed, and `place` is that of the next. Where it stands is looked for from the end,
/// near which commits stand, and only what stands after it is looked at and moved. A commit that stands at its own
/// number goes to the end at once. It takes no memory.
pub fn put_in_order(
    order: &mut Vec<u64>,
    committed: &[Record],
    places: &[u64],
    commit: &Record,
    place: u64,
)
    requires log { IsLog (reverse committed.now) }
    requires places { places.now ≡ map (least_out (reverse committed.now)) committed.now }
    requires order { order.old.items ≡ numbers_of (serial_order (reverse committed.now)) }
    requires next { commit.now.number ≡ length committed.now + 1 }
    requires place { place ≡ least_out (reverse committed.now) commit.now }
    requires room { vec_len order.old < vec_capacity order.old }
    ensures { order.new.items
        ≡ numbers_of (put_by (rank (reverse committed.now)) commit.now (serial_order (reverse committed.now))) }
{
    if !commit.read_only && place == commit.number {
        order.push_reserved(commit.number);
        return;
    }
    let at = place_of(order.as_slice(), committed, places, rank_of(commit, place));
    match order.insert(at, commit.number) {
        Ok(()) => {}
        Err(_) => unreachable!(),
    }
}

/// How many of those committed stand before one of a rank: all of no greater rank.
fn place_of(order: &[u64], committed: &[Record], places: &[u64], rank: u128) -> usize
    requires log { IsLog (reverse committed.now) }
    requires places { places.now ≡ map (least_out (reverse committed.now)) committed.now }
    requires order { order.now ≡ numbers_of (serial_order (reverse committed.now)) }
    ensures { IsPlaceOf rank (reverse committed.now) result }
{
    for at in (0..order.len()).rev() {
        if rank_in(committed, places, order[at]) <= rank {
            return at + 1;
        }
    }
    0
}

/// The rank of the commit of a number.
fn rank_in(committed: &[Record], places: &[u64], number: u64) -> u128
    requires there { (0 < number) × (number ≤ length committed.now) }
    requires places { length places.now ≡ length committed.now }
    ensures { (commit : Commit) → result
        ≡ rank_at (slice_index_or places.now (number - 1) 0) (slice_index_or committed.now (number - 1) commit) }
{
    let at = number as usize - 1;
    rank_of(&committed[at], places[at])
}

/// The rank of a commit whose least conflict out is this.
fn rank_of(commit: &Record, place: u64) -> u128
    ensures { result ≡ rank_at place commit.now }
{
    if commit.read_only {
        3 * u128::from(commit.snapshot) + 2
    } else if place == commit.number {
        3 * u128::from(commit.number) + 1
    } else {
        3 * u128::from(place)
    }
}
