//! What is found in whole, cut and changed files, and what is said of it. The bytes follow the rules of the format.
use diagnosis::{Fault, Finding, Held, Reading, diagnose, examine};
use packet::{Bounds, Filtering, Prefix};
use std::alloc::{AllocError, Global};
use std::process::Abort;
use std::test::Fail;
use trial_disk::SimDisk;

// A file that was just made: gate, mark, generation 1, `lan`, `wan`, 192.168.0.0/16, one address, 203.0.113.1,
// filtering by endpoint, no text, no session, and a closed gate.
const FRESH: [u8; 42] = [
    0x01, 0x4e, 0x47, 0x57, 0x32, 0x00, 0x00, 0x00, 0x00, 0x00, 0x00, 0x00, 0x01, 0x03, 0x6c, 0x61,
    0x6e, 0x03, 0x77, 0x61, 0x6e, 0x01, 0xc0, 0xa8, 0x00, 0x00, 0x10, 0x01, 0xcb, 0x00, 0x71, 0x01,
    0x00, 0x00, 0x00, 0x00, 0x00, 0x00, 0x00, 0x00, 0x00, 0x00,
];

// As an older natgw made it.
const FIRST: [u8; 40] = [
    0x01, 0x4e, 0x47, 0x57, 0x31, 0x00, 0x00, 0x00, 0x00, 0x00, 0x00, 0x00, 0x01, 0x03, 0x6c, 0x61,
    0x6e, 0x03, 0x77, 0x61, 0x6e, 0x01, 0xc0, 0xa8, 0x00, 0x00, 0x10, 0xcb, 0x00, 0x71, 0x01, 0x00,
    0x00, 0x00, 0x00, 0x00, 0x00, 0x00, 0x00, 0x00,
];

// UDP from 192.168.1.2:5000, outside 203.0.113.1:5000, to 198.51.100.7:53, begun from inside, nothing seen.
const SESSION: [u8; 21] = [
    0x11, 0xc0, 0xa8, 0x01, 0x02, 0x13, 0x88, 0xcb, 0x00, 0x71, 0x01, 0x13, 0x88, 0xc6, 0x33, 0x64,
    0x07, 0x00, 0x35, 0x00, 0x00,
];

// What a configuration has beside `lan`, and 192.168.0.0/16 inside.
#[derive(Clone, Copy)]
struct Sides {
    wan: &'static str,
    pool: &'static [u32],
    filtering: Filtering,
}

fn bounds(alloc: Global, sides: Sides) -> Result<Bounds, Fail> {
    let lan = String::from_str(alloc, "lan")?;
    let wan = String::from_str(alloc, sides.wan)?;
    let prefix = Prefix {
        addr: 0xc0a8_0000,
        len: 16,
    };
    let inside = vec![in alloc; prefix]?;
    let external = Vec::from_slice(alloc, sides.pool)?;
    Ok(Bounds::new(lan, wan, inside, external, sides.filtering)?)
}

// The fresh file, of this generation, whose snapshot has the session so many times.
fn begun(alloc: Global, generation: u8, times: u8) -> Result<Vec<u8>, AllocError> {
    let mut file = Vec::from_slice(alloc, &FRESH[..12])?;
    file.push(generation)?;
    file.extend_from_slice(&FRESH[13..40])?;
    file.push(times)?;
    for _ in 0..times {
        file.extend_from_slice(&SESSION)?;
    }
    file.push(0)?;
    Ok(file)
}

// The fresh file, with a group of this body in place of its closed gate.
fn grown(alloc: Global, body: &[u8]) -> Result<Vec<u8>, AllocError> {
    let mut file = Vec::from_slice(alloc, &FRESH[..41])?;
    file.extend_from_slice(&[1, 0, 0, 0, body.len().min(255) as u8])?;
    file.extend_from_slice(body)?;
    file.push(0)?;
    Ok(file)
}

// A letter for what a file is.
fn letter(reading: Reading) -> char {
    match reading {
        Reading::Empty => 'e',
        Reading::Closed => 'c',
        Reading::Faulty(Fault::Foreign) => 'M',
        Reading::Faulty(Fault::Front) => 'F',
        Reading::Faulty(Fault::Snapshot) => 'S',
        Reading::Faulty(Fault::Changes) => 'C',
        Reading::Whole(_) => 'w',
    }
}

// A letter for each of two damaged files, or for what they are together.
fn letters(alloc: Global, a: &[u8], b: &[u8]) -> Result<(char, char), Fail> {
    let bounds = bounds(alloc, HERE)?;
    Ok(match examine(alloc, a, b, &bounds)? {
        Finding::Sound => ('.', '.'),
        Finding::Differs(_) => ('d', 'd'),
        Finding::Damaged(damage) => (letter(damage.a), letter(damage.b)),
    })
}

// Whether the file is found so in either place, beside an empty file and a closed one. A file with no fault is `.`.
fn is_found(alloc: Global, file: &[u8], expected: char) -> Result<bool, Fail> {
    let first = letters(alloc, file, b"")?;
    let second = letters(alloc, b"\x00", file)?;
    if expected == '.' {
        return Ok(first == ('.', '.') && second == ('.', '.'));
    }
    Ok(first == (expected, 'e') && second == ('c', expected))
}

const FILES: [(&[u8], char); 9] = [
    (b"", '.'),
    (b"\x02NGW3", '.'),
    (&FRESH, '.'),
    (&FIRST, '.'),
    (b"\x01", 'M'),
    (b"\x01NGW3 and more", 'M'),
    (b"\x01NGW1", 'F'),
    (b"\x01NGW2", 'F'),
    (b"\x01NGW2 and more", 'F'),
];

fn assert_found(rt: &impl Abort, alloc: Global, file: &[u8], expected: char) -> Result<(), Fail> {
    assert!(rt; is_found(alloc, file, expected)?, "{}", file.len());
    Ok(())
}

#[test]
fn faults_of_one_file(rt: HostRuntime) -> Result<(), Fail> {
    for (file, expected) in &FILES {
        assert_found(&rt, rt.alloc(), *file, *expected)?;
    }
    assert_found(&rt, rt.alloc(), &FIRST[..39], 'F')?;
    assert_found(&rt, rt.alloc(), &FRESH[..41], 'F')
}

fn assert_begun(rt: &impl Abort, alloc: Global, times: u8, expected: char) -> Result<(), Fail> {
    let file = begun(alloc, 1, times)?;
    assert_found(rt, alloc, &file, expected)
}

// A session that stands twice clashes with itself.
#[test]
fn faults_of_a_snapshot(rt: HostRuntime) -> Result<(), Fail> {
    assert_begun(&rt, rt.alloc(), 1, '.')?;
    assert_begun(&rt, rt.alloc(), 2, 'S')
}

fn assert_changes(rt: &impl Abort, alloc: Global, body: &[u8], length: usize) -> Result<(), Fail> {
    let file = grown(alloc, body)?;
    assert_found(rt, alloc, &file[..file.len().min(length)], 'C')
}

#[test]
fn faults_of_changes(rt: HostRuntime) -> Result<(), Fail> {
    let ended = [5, 0x11, 0, 0, 0, 1, 0, 1, 0, 0, 0, 2, 0, 2];
    assert_changes(&rt, rt.alloc(), &[9], usize::MAX)?;
    assert_changes(&rt, rt.alloc(), &ended, usize::MAX)?;
    assert_changes(&rt, rt.alloc(), &[9], 45)
}

// A whole file whose snapshot has no session, with a group behind it that begins one.
fn with_a_group(alloc: Global) -> Result<Vec<u8>, Fail> {
    let mut body = Vec::from_slice(alloc, &[2])?;
    body.extend_from_slice(&SESSION)?;
    Ok(grown(alloc, &body)?)
}

fn letter_of_cut(length: usize) -> char {
    match length {
        1..=4 => 'M',
        5..=41 => 'F',
        _ => 'C',
    }
}

// Each length of a whole file with a session, and with a group behind it.
fn assert_cuts(rt: &impl Abort, alloc: Global, file: &[u8]) -> Result<(), Fail> {
    for length in 1..file.len() {
        let found = letters(alloc, &file[..length], b"")?;
        assert_eq!(rt; found, (letter_of_cut(length), 'e'), "{length}");
    }
    assert_eq!(rt; letters(alloc, file, b"")?, ('.', '.'));
    Ok(())
}

#[test]
fn cut_files(rt: HostRuntime) -> Result<(), Fail> {
    let file = with_a_group(rt.alloc())?;
    assert_cuts(&rt, rt.alloc(), &file)
}

const HERE: Sides = Sides {
    wan: "wan",
    pool: &[0xcb00_7101],
    filtering: Filtering::Endpoint,
};

const THERE: Sides = Sides {
    wan: "wan0",
    pool: &[0xcb00_7101, 0xcb00_7102],
    filtering: Filtering::Address,
};

// Two files, the configuration of the program that reads them, and what is said then.
#[derive(Clone, Copy)]
struct Line<'a> {
    a: &'a [u8],
    b: &'a [u8],
    configured: Sides,
    expected: &'a str,
}

fn line_of(alloc: Global, a: &[u8], b: &[u8], bounds: &Bounds) -> Result<String, Fail> {
    let finding = examine(alloc, a, b, bounds)?;
    Ok(format!(in alloc; "{finding}")?)
}

fn is_told(alloc: Global, line: &Line<'_>) -> Result<bool, Fail> {
    let bounds = bounds(alloc, line.configured)?;
    let said = line_of(alloc, line.a, line.b, &bounds)?;
    Ok(said.as_str() == line.expected)
}

fn assert_told(rt: &impl Abort, alloc: Global, lines: &[Line<'_>]) -> Result<(), Fail> {
    for line in lines {
        assert!(rt; is_told(alloc, line)?, "{}", line.expected);
    }
    Ok(())
}

const LINES: [Line<'static>; 6] = [
    Line {
        a: b"",
        b: b"\x01NGW2",
        configured: HERE,
        expected: "natgw.a is empty; natgw.b has no whole beginning, it was cut short or changed: put both back from one backup, or move natgw.b away to begin with nothing",
    },
    Line {
        a: b"\x01",
        b: b"\x01NGW1",
        configured: HERE,
        expected: "natgw.a is no file of natgw, or one of another version; natgw.b has no whole beginning, it was cut short or changed: put both back from one backup, or move both away to begin with nothing",
    },
    Line {
        a: &FRESH,
        b: &FRESH,
        configured: HERE,
        expected: "natgw.a and natgw.b have one generation, so they are not of one backup: put both back from one, or move one of them away to go on with what the other holds",
    },
    Line {
        a: &FRESH,
        b: b"",
        configured: THERE,
        expected: "the files were written with another configuration: start natgw with --wan wan --external 203.0.113.1 --filtering endpoint, or name another directory",
    },
    Line {
        a: b"",
        b: &FIRST,
        configured: Sides {
            pool: &[0xcb00_7101, 0xcb00_7102],
            ..HERE
        },
        expected: "the files were written with another configuration: start natgw with --external 203.0.113.1, or name another directory",
    },
    Line {
        a: b"",
        b: b"",
        configured: THERE,
        expected: "the files are sound",
    },
];

#[test]
fn lines(rt: HostRuntime) -> Result<(), Fail> {
    assert_told(&rt, rt.alloc(), &LINES)
}

#[test]
fn line_of_a_cut_file(rt: HostRuntime) -> Result<(), Fail> {
    let line = Line {
        a: &FRESH,
        b: &FRESH[..30],
        configured: THERE,
        expected: "natgw.a holds generation 1, no session; natgw.b has no whole beginning, it was cut short or changed: put both back from one backup",
    };
    assert_told(&rt, rt.alloc(), &[line])
}

// What is said of two files beside one of generation 2.
fn lines_beside(newer: &[u8]) -> [Line<'_>; 2] {
    [
        Line {
            a: &FIRST,
            b: newer,
            configured: HERE,
            expected: "the files are sound",
        },
        Line {
            a: b"\x01#!/bin/sh",
            b: newer,
            configured: HERE,
            expected: "natgw.a is no file of natgw, or one of another version; natgw.b holds generation 2, one session: put both back from one backup, or move natgw.a away to go on with what natgw.b holds, which may be older",
        },
    ]
}

#[test]
fn lines_beside_a_newer_file(rt: HostRuntime) -> Result<(), Fail> {
    let newer = begun(rt.alloc(), 2, 1)?;
    assert_told(&rt, rt.alloc(), &lines_beside(&newer))
}

fn disk_of(alloc: Global) -> Result<Box<SimDisk>, Fail> {
    let newer = begun(alloc, 2, 1)?;
    Ok(Box::new(alloc, SimDisk::of(alloc, b"\x01", &newer)?)?)
}

// What two damaged files are, if they are.
fn damage_of(
    alloc: Global,
    disk: &mut SimDisk,
    bounds: &Bounds,
) -> Result<Option<(Reading, Reading)>, Fail> {
    match diagnose(alloc, disk, bounds)? {
        Finding::Damaged(damage) => Ok(Some((damage.a, damage.b))),
        _ => Ok(None),
    }
}

fn is_unread(alloc: Global, disk: &mut SimDisk, bounds: &Bounds) -> bool {
    diagnose(alloc, disk, bounds).is_err()
}

fn assert_diagnosed(
    rt: &impl Abort,
    alloc: Global,
    disk: &mut SimDisk,
    bounds: &Bounds,
) -> Result<(), Fail> {
    let whole = Reading::Whole(Held {
        generation: 2,
        sessions: 1,
        is_configured: true,
    });
    let damage = damage_of(alloc, disk, bounds)?;
    assert_eq!(rt; damage, Some((Reading::Faulty(Fault::Foreign), whole)));
    disk.fuse_after(3);
    assert!(rt; is_unread(alloc, disk, bounds));
    Ok(())
}

#[test]
fn files_of_a_disk(rt: HostRuntime) -> Result<(), Fail> {
    let alloc = rt.alloc();
    let bounds = bounds(alloc, HERE)?;
    let mut disk = disk_of(alloc)?;
    assert_diagnosed(&rt, alloc, &mut disk, &bounds)
}
