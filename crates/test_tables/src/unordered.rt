use buckets::Buckets;
use std::alloc::{AllocError, Global};
use std::process::Abort;
use std::test::*;

fn empty(alloc: Global) -> Result<Box<Buckets>, AllocError> {
    Ok(Box::new(alloc, Buckets::new(alloc))?)
}

fn assert_has(rt: &impl Abort, map: &Buckets, key: u64, expected: Option<usize>) {
    assert_eq!(rt; map.get(key), expected);
}

fn assert_gives(rt: &impl Abort, map: &mut Buckets, key: u64, expected: Option<usize>) {
    assert_eq!(rt; map.remove(key), expected);
}

// Puts an entry in, if none has its key.
fn insert(map: &mut Buckets, key: u64, value: usize) -> Result<(), AllocError> {
    if map.get(key).is_some() {
        return Ok(());
    }
    map.insert(key, value)
}

fn reserve(map: &mut Buckets) -> Result<(), AllocError> {
    if map.reserve().is_err() {
        map.reserve()?;
    }
    Ok(())
}

fn reserve_one(map: &mut Buckets) -> Result<(), AllocError> {
    if map.reserve_one().is_err() {
        map.reserve_one()?;
    }
    Ok(())
}

// Puts an entry in. A refusal of memory must change nothing, and the entry go in at the second try.
fn put(rt: &impl Abort, map: &mut Buckets, key: u64, value: usize) -> Result<(), AllocError> {
    reserve(map)?;
    if insert(map, key, value).is_err() {
        assert_has(rt, map, key, None);
        insert(map, key, value)?;
    }
    Ok(())
}

const ENTRIES: [(u64, usize); 5] = [
    (u64::MAX, 1),
    (7, 2),
    (0, 3),
    (1, usize::MAX),
    (2, 0xffff_ffff),
];

fn put_entries(rt: &impl Abort, map: &mut Buckets) -> Result<(), AllocError> {
    for (key, value) in ENTRIES {
        put(rt, map, key, value)?;
    }
    Ok(())
}

// The entries but for the one that was taken out.
fn assert_have_stayed(rt: &impl Abort, map: &Buckets) {
    for (key, value) in ENTRIES {
        if key != 7 {
            assert_has(rt, map, key, Some(value));
        }
    }
}

#[test]
fn entries_go_in_and_out(rt: HostRuntime) -> Result<(), AllocError> {
    let mut map = empty(rt.alloc())?;
    assert_has(&rt, &map, 7, None);
    reserve_one(&mut map)?;
    put_entries(&rt, &mut map)?;
    assert_gives(&rt, &mut map, 7, Some(2));
    assert_gives(&rt, &mut map, 7, None);
    assert_have_stayed(&rt, &map);
    assert_gives(&rt, &mut map, 1, Some(usize::MAX));
    assert_has(&rt, &map, 1, None);
    Ok(())
}

fn assert_sought(
    rt: &impl Abort,
    map: &mut Buckets,
    key: u64,
    value: usize,
    found: Option<usize>,
) -> Result<(), AllocError> {
    assert_eq!(rt; map.get_or_insert(key, value)?, found);
    Ok(())
}

// A key that is sought gets the value where no entry has it; an entry that there is stays.
#[test]
fn entries_go_in_where_they_are_sought(rt: HostRuntime) -> Result<(), AllocError> {
    let mut map = empty(rt.alloc())?;
    map.reserve()?;
    for (key, value, found) in [
        (7, 2, None),
        (7, 3, Some(2)),
        (0, usize::MAX, None),
        (0, 4, Some(usize::MAX)),
    ] {
        assert_sought(&rt, &mut map, key, value, found)?;
    }
    assert_has(&rt, &map, 7, Some(2));
    assert_gives(&rt, &mut map, 0, Some(usize::MAX));
    Ok(())
}

// With no call of `reserve` there are no places, and each entry lies in the overflow.
#[test]
fn entries_are_found_without_places(rt: HostRuntime) -> Result<(), AllocError> {
    let mut map = empty(rt.alloc())?;
    for number in 0..200 {
        if insert(&mut map, number, 5).is_err() {
            return Ok(());
        }
    }
    put(&rt, &mut map, 200, 5)?;
    for number in 0..201 {
        assert_has(&rt, &map, number, Some(5));
    }
    Ok(())
}

// A key that differs from others in its high half alone, or in its low half.
fn key_of(number: usize) -> u64 {
    let high = number as u64 % 7 * 0x1_0000_0000;
    high + number as u64 / 7
}

// As many entries as places are made for again and again, put in and taken out as numbers are drawn.
#[test]
fn drawn_calls_agree_with_a_plain_list(rt: HostRuntime) -> Result<(), AllocError> {
    let mut map = empty(rt.alloc())?;
    let mut plain = [None; 499];
    let mut drawn: u64 = 1;
    for value in 0..6000 {
        drawn = drawn
            .wrapping_mul(0x5851_f42d_4c95_7f2d)
            .wrapping_add(0x1405_7b7e_f767_814f);
        let number = (drawn >> 33) as usize % 499;
        if plain[number].is_some() {
            assert_gives(&rt, &mut map, key_of(number), plain[number]);
            plain[number] = None;
        } else {
            put(&rt, &mut map, key_of(number), value)?;
            plain[number] = Some(value);
        }
        assert_has(&rt, &map, key_of(number), plain[number]);
    }
    for number in 0..499 {
        assert_has(&rt, &map, key_of(number), plain[number]);
    }
    Ok(())
}

// Keys that all meet in the first bucket, however many there are: this number undoes the one by which keys are
// spread.
fn meeting(number: usize) -> u64 {
    (number as u64).wrapping_mul(0xf1de_83e1_9937_733d)
}

fn many_meeting(rt: &impl Abort, alloc: Global) -> Result<Box<Buckets>, AllocError> {
    let mut map = empty(alloc)?;
    for number in 0..300 {
        put(rt, &mut map, meeting(number), number)?;
    }
    Ok(map)
}

fn assert_have_met(rt: &impl Abort, map: &Buckets, first: usize, end: usize) {
    for number in first..end {
        assert_has(rt, map, meeting(number), Some(number));
    }
}

#[test]
fn keys_that_meet_are_told_apart(rt: HostRuntime) -> Result<(), AllocError> {
    let mut map = many_meeting(&rt, rt.alloc())?;
    assert_have_met(&rt, &map, 0, 300);
    for number in 0..290 {
        assert_gives(&rt, &mut map, meeting(299 - number), Some(299 - number));
        assert_has(&rt, &map, meeting(299 - number), None);
    }
    assert_have_met(&rt, &map, 0, 10);
    for number in 10..300 {
        assert_has(&rt, &map, meeting(number), None);
    }
    Ok(())
}

// What stays in the overflow goes into places again, and nothing is lost.
#[test]
fn keys_that_met_are_found_again(rt: HostRuntime) -> Result<(), AllocError> {
    let mut map = many_meeting(&rt, rt.alloc())?;
    for number in 0..20 {
        assert_gives(&rt, &mut map, meeting(number), Some(number));
    }
    for number in 0..900 {
        put(&rt, &mut map, key_of(number), number)?;
    }
    assert_have_met(&rt, &map, 20, 300);
    Ok(())
}
