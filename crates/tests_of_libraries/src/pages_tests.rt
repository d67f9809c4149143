//! Changes against plain lists, and the sizes of pages.

use crate::shared::count;
use pages::Pages;
use std::alloc::{AllocError, Global};
use std::test::Fail;
use value::Value;

/// How many keys come and go.
const COUNT: i64 = 1_000;

/// The keys from 1 on in a mixed order, one for each index.
fn mixed(index: i64) -> i64 {
    index.wrapping_mul(7_919) % COUNT + 1
}

/// The map with this number under itself.
fn with_number(pages: &Pages<i64>, number: i64) -> Result<Pages<i64>, AllocError> {
    pages.with(&Value::Int(number), Some(number))
}

/// Every version while the keys come.
fn grown(alloc: Global) -> Result<Vec<Pages<i64>>, AllocError> {
    let mut versions = Vec::new(alloc);
    let mut pages = Pages::new(alloc);
    for index in 0..COUNT {
        let next = with_number(&pages, mixed(index))?;
        versions.push(pages)?;
        pages = next;
    }
    versions.push(pages)?;
    Ok(versions)
}

/// Every version while they go.
fn emptied(alloc: Global, full: &Pages<i64>) -> Result<Vec<Pages<i64>>, AllocError> {
    let mut versions = Vec::new(alloc);
    let mut pages = full.copy()?;
    for index in 0..COUNT {
        let next = pages.with(&Value::Int(mixed(index)), None)?;
        versions.push(pages)?;
        pages = next;
    }
    versions.push(pages)?;
    Ok(versions)
}

/// The keys of these indexes as a plain list.
fn plain(alloc: Global, first: i64, last: i64) -> Result<Vec<i64>, AllocError> {
    let mut keys = Vec::new(alloc);
    for index in first..last {
        keys.push(mixed(index))?;
    }
    keys.sort()?;
    Ok(keys)
}

/// Whether an entry of a list is this key with itself.
fn is_entry(keys: &[i64], place: usize, entry: &(Value, i64)) -> bool {
    match (&entry.0, keys.get(place)) {
        (Value::Int(key), Some(wanted)) => *key == *wanted && entry.1 == *wanted,
        (Value::Null | Value::Int(_) | Value::Text(_), _) => false,
    }
}

/// Whether the entries are those of a plain list, one page after the other.
fn is_plain(pages: &Pages<i64>, keys: &[i64]) -> bool {
    let mut place: usize = 0;
    for _ in 0..pages.len() {
        for entry in pages.page_from(place) {
            if !is_entry(keys, place, entry) {
                return false;
            }
            place = place.saturating_add(1);
        }
    }
    place == keys.len()
}

/// How many of the versions aren't the plain list of their keys, which begin or end at the version's place.
fn wrong(alloc: Global, versions: &[Pages<i64>], grows: bool) -> Result<i64, AllocError> {
    let mut wrong: i64 = 0;
    let mut index: i64 = 0;
    for pages in versions {
        let keys = if grows {
            plain(alloc, 0, index)?
        } else {
            plain(alloc, index, COUNT)?
        };
        if !is_plain(pages, &keys) {
            wrong = wrong.wrapping_add(1);
        }
        index = index.wrapping_add(1);
    }
    Ok(wrong)
}

/// How many versions aren't the plain list of their keys while the keys go.
fn wrong_while_emptied(alloc: Global, full: &Pages<i64>) -> Result<i64, AllocError> {
    let emptied = emptied(alloc, full)?;
    wrong(alloc, &emptied, false)
}

/// The number under a key.
fn number_under(pages: &Pages<i64>, key: i64) -> Option<i64> {
    pages.get(&Value::Int(key)).copied()
}

#[test]
fn every_version_stays_whole(rt: HostRuntime) -> Result<(), Fail> {
    let grown = grown(rt.alloc())?;
    assert!(rt; wrong(rt.alloc(), &grown, true)? == 0);
    match grown.last() {
        Some(full) => {
            count(&rt, full.len(), 1_000);
            assert!(rt; wrong_while_emptied(rt.alloc(), full)? == 0);
            assert!(rt; number_under(full, 500) == Some(500));
        }
        None => assert!(rt; false, "no version"),
    }
    assert!(rt; wrong(rt.alloc(), &grown, true)? == 0);
    Ok(())
}

/// The map of the numbers from 1 to this one, put upwards, or downwards.
fn counted(alloc: Global, last: i64, upwards: bool) -> Result<Pages<i64>, AllocError> {
    let mut pages = Pages::new(alloc);
    for index in 0..last {
        let number = if upwards {
            index.wrapping_add(1)
        } else {
            last.wrapping_sub(index)
        };
        pages = with_number(&pages, number)?;
    }
    Ok(pages)
}

/// Whether the pages from these two places on have so many entries.
fn are_long(pages: &Pages<i64>, first: (usize, usize), second: (usize, usize)) -> bool {
    pages.page_from(first.0).len() == first.1 && pages.page_from(second.0).len() == second.1
}

#[test]
fn a_full_page_is_cut(rt: HostRuntime) -> Result<(), Fail> {
    let full = counted(rt.alloc(), 15, true)?;
    assert!(rt; are_long(&full, (0, 15), (14, 1)));
    let cut = with_number(&full, 0)?;
    assert!(rt; are_long(&cut, (0, 8), (8, 8)));
    assert!(rt; are_long(&cut, (7, 1), (16, 0)));
    count(&rt, full.len(), 15);
    Ok(())
}

#[test]
fn pages_of_keys_that_come_upwards_are_full(rt: HostRuntime) -> Result<(), Fail> {
    let pages = counted(rt.alloc(), 50, true)?;
    assert!(rt; are_long(&pages, (0, 14), (14, 14)));
    assert!(rt; are_long(&pages, (28, 14), (42, 8)));
    Ok(())
}
