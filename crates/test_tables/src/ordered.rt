use rows::{Entry, Rows, Walk};
use std::alloc::{AllocError, Global};
use std::process::Abort;
use std::test::*;

const HIGH: u128 = 0xffff_ffff_ffff_ffff_ffff_ffff_ffff_ffff;

// Puts an entry in, if none has its key.
fn insert(rows: &mut Rows, key: u128, value: usize) -> Result<(), AllocError> {
    if rows.get(key).is_some() {
        return Ok(());
    }
    rows.insert(key, value)
}

fn assert_has(rt: &impl Abort, rows: &Rows, key: u128, expected: Option<usize>) {
    assert_eq!(rt; rows.get(key), expected);
}

fn assert_gives(rt: &impl Abort, rows: &mut Rows, key: u128, expected: Option<usize>) {
    assert_eq!(rt; rows.remove(key), expected);
}

// Puts an entry in. A refusal of memory must change nothing, and the entry go in at the second try.
fn put(rt: &impl Abort, rows: &mut Rows, key: u128, value: usize) -> Result<(), AllocError> {
    if insert(rows, key, value).is_err() {
        assert_has(rt, rows, key, None);
        insert(rows, key, value)?;
    }
    Ok(())
}

fn three(rt: &impl Abort, alloc: Global) -> Result<Box<Rows>, AllocError> {
    let mut rows = Box::new(alloc, Rows::new(alloc))?;
    if rows.reserve().is_err() {
        rows.reserve()?;
    }
    for (key, value) in [(HIGH, 1), (7, 2), (0, 3)] {
        put(rt, &mut rows, key, value)?;
    }
    Ok(rows)
}

// Whether the walk goes over these entries, and no more.
fn goes_over(mut walk: Walk<'_>, entries: &[(u128, usize)]) -> bool {
    for (key, value) in entries {
        let entry = Entry {
            key: *key,
            value: *value,
        };
        if walk.next() != Some(entry) {
            return false;
        }
    }
    walk.next().is_none()
}

#[test]
fn entries_rise(rt: HostRuntime) -> Result<(), AllocError> {
    let rows = three(&rt, rt.alloc())?;
    rows.facts();
    assert!(rt; goes_over(rows.iter(), &[(0, 3), (7, 2), (HIGH, 1)]));
    assert!(rt; goes_over(rows.iter_from(1), &[(7, 2), (HIGH, 1)]));
    Ok(())
}

#[test]
fn entries_go_in_and_out(rt: HostRuntime) -> Result<(), AllocError> {
    assert_has(&rt, &Rows::new(rt.alloc()), 7, None);
    let mut rows = three(&rt, rt.alloc())?;
    assert_gives(&rt, &mut rows, 7, Some(2));
    assert_gives(&rt, &mut rows, 7, None);
    assert_has(&rt, &rows, 0, Some(3));
    assert_has(&rt, &rows, HIGH, Some(1));
    Ok(())
}

fn key_of(number: usize) -> u128 {
    number as u128 * 1237 % 2003
}

fn many(rt: &impl Abort, alloc: Global) -> Result<Box<Rows>, AllocError> {
    let mut rows = Box::new(alloc, Rows::new(alloc))?;
    for number in 0..2000 {
        put(rt, &mut rows, key_of(number), number)?;
    }
    Ok(rows)
}

// How many entries there are, each of which must come behind the one before.
fn count_rising(rt: &impl Abort, rows: &Rows) -> u32 {
    let mut next: u128 = 0;
    let mut count: u32 = 0;
    for entry in rows.iter() {
        assert!(rt; entry.key >= next);
        next = entry.key.saturating_add(1);
        count = count.saturating_add(1);
    }
    count
}

// So many that runs are cut, and joined again.
#[test]
fn many_entries_are_found(rt: HostRuntime) -> Result<(), AllocError> {
    let mut rows = many(&rt, rt.alloc())?;
    assert_eq!(rt; count_rising(&rt, &rows), 2000);
    for number in 0..1990 {
        assert_gives(&rt, &mut rows, key_of(number), Some(number));
    }
    for number in 0..1990 {
        assert_has(&rt, &rows, key_of(number), None);
    }
    for number in 1990..2000 {
        assert_has(&rt, &rows, key_of(number), Some(number));
    }
    Ok(())
}
