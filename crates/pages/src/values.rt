//! The values of a map with differences beside it, one after the other.

ghost use Rattle.std.specs.Prelude.{◌≡◌, ◌<◌, ◌++◌, [], drop, length, map, option_map, option_to_list, slice_get, IfNone};
ghost use Rattle.std.specs.Iterator.{YieldsFirstRef, item_count};
ghost use Rattle.std.specs.Option.{option_copied};
ghost use Rattle.pages.specs.Differences.{side_of, with_differences};
ghost use Rattle.pages.specs.Reach.{value_of, AreInOrder};

use crate::entries::Entries;
use crate::pages::Pages;
use std::cmp::Ordering;
use std::marker::Model;
use value::{Value, order};

/// The values that are still to come, in the order of their keys: of the main map those at whose keys there is no
/// difference, and those of the differences. It takes no memory.
#[derive(Drop)]
pub struct Values<'a, V> {
    main: Entries<'a, V>,
    differences: &'a [(Value, Option<V>)],
}

impl<'a, V> Model for Values<'a, V> {
    ghost use Rattle.std.specs.Prelude.{List, map};
    ghost use Rattle.pages.specs.Differences.{with_differences};
    ghost use Rattle.pages.specs.Reach.{value_of, AreInOrder};

    ghost Value = { List V };

    ghost view = { λ left. map value_of (with_differences left.differences.now left.main) };

    ghost invariant = { λ left. AreInOrder left.differences.now × AreInOrder left.main };
}

impl<'a, V> Values<'a, V> {
    /// All values of a map with these differences.
    pub(crate) fn new(main: &'a Pages<V>, differences: &'a [(Value, Option<V>)]) -> Values<'a, V>
        requires main { AreInOrder main.now }
        requires differences { AreInOrder differences.now }
        ensures { result ≡ map value_of (with_differences differences.now main.now) }
    {
        Values {
            main: main.iter(),
            differences,
        }
    }
}

impl<'a, V> Iterator for Values<'a, V> {
    type Item = &'a V;

    ghost next_gives = { YieldsFirstRef (λ left. left) };

    ghost remaining = { item_count (λ left. left) };

    fn next(&mut self) -> Option<&'a V> {
        take_next(&mut self.main, &mut self.differences)
    }
}

/// Takes the next value of a map with differences.
fn take_next<'a, V>(
    main: &mut Entries<'a, V>,
    differences: &mut &'a [(Value, Option<V>)],
) -> Option<&'a V>
    requires main { AreInOrder main.old }
    requires differences { AreInOrder differences.old.now }
    ensures first { map value_of (with_differences differences.old.now main.old)
        ≡ option_to_list (option_copied result) ++ map value_of (with_differences differences.new.now main.new) }
    ensures end { IfNone result (map value_of (with_differences differences.new.now main.new) ≡ []) }
    ensures main { AreInOrder main.new }
    ensures differences { AreInOrder differences.new.now }
{
    while !differences.is_empty() {
        if let Some(first) = take_first(main, differences) {
            return Some(first);
        }
    }
    next_value(main)
}

/// Takes what stands first of a map with differences: a value, or a difference by which nothing stands at its key.
fn take_first<'a, V>(
    main: &mut Entries<'a, V>,
    differences: &mut &'a [(Value, Option<V>)],
) -> Option<&'a V>
    requires some { 0 < length differences.old.now }
    requires main { AreInOrder main.old }
    requires differences { AreInOrder differences.old.now }
    ensures first { map value_of (with_differences differences.old.now main.old)
        ≡ option_to_list (option_copied result) ++ map value_of (with_differences differences.new.now main.new) }
    ensures main { AreInOrder main.new }
    ensures differences { AreInOrder differences.new.now }
    ensures fewer { IfNone result (length differences.new.now < length differences.old.now) }
{
    let difference = &differences[0];
    match side(main, &difference.0) {
        Ordering::Greater => return next_value(main),
        Ordering::Equal => {
            let _ = next_value(main);
        }
        Ordering::Less => {}
    }
    *differences = &differences[1..];
    difference.1.as_ref()
}

/// The next value of a map without differences.
fn next_value<'a, V>(main: &mut Entries<'a, V>) -> Option<&'a V>
    ensures value { option_copied result ≡ option_map value_of (slice_get main.old 0) }
    ensures rest { main.new ≡ drop 1 main.old }
{
    let entry = main.next()?;
    Some(&entry.1)
}

/// Where a key stands beside that of the next entry; less where there is none.
fn side<V>(main: &Entries<'_, V>, key: &Value) -> Ordering
    ensures { result ≡ side_of key.now main.now }
{
    match main.peek() {
        Some(entry) => order(key, &entry.0),
        None => Ordering::Less,
    }
}
