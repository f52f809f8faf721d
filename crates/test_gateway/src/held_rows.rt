//! Which answers are held, what a flush writes and hands out, and how many are held at the most.
use crate::script::{fresh_behind, play_fresh};
use crate::shared::{
    FRESH_FRONT, MASQUERADE, THIRD_HELD, THREE_FLUSHED, TWO_FLUSHED, TWO_HELD, assert_file,
    calls_of,
};
use crate::words::{put, put_hex};
use disk_model::FileId;
use std::alloc::{AllocError, Global};
use std::process::Abort;
use std::test::*;
use trial_disk::Trial;

// Behind the front of a fresh file: an open group of 128 bytes, a load of 101, the begin of a session, and a closed
// gate.
fn one_group(alloc: Global) -> Result<Vec<u8>, Fail> {
    let begin = "02 11 c0a801021388 cb0071011388 c63364070035 00 00 00";
    let mut file = Vec::new(alloc);
    put_hex(&mut file, FRESH_FRONT)?;
    put_hex(&mut file, "01 00000080 01 00000065")?;
    file.extend_from_slice(MASQUERADE.as_bytes())?;
    put_hex(&mut file, begin)?;
    Ok(file)
}

// What is in the files.
fn look(rt: &impl Abort, alloc: Global, disk: &mut Trial, a: &[u8]) {
    assert_file(rt, alloc, disk, FileId::A, a);
    assert_file(rt, alloc, disk, FileId::B, b"");
    assert!(rt; !disk.has_strayed());
}

// What is in the files behind these, and how many calls of the disk there were.
fn look_behind(rt: &impl Abort, alloc: Global, scripts: &[&str], a: &[u8]) -> Result<u64, Fail> {
    let mut disk = fresh_behind(alloc, scripts)?;
    look(rt, alloc, &mut disk, a);
    Ok(calls_of(disk))
}

const COUNTS_HELD: &str = "\
held
= 2
grown
= 0";

const COUNTS_FLUSHED: &str = "\
held
= 0
grown
= 133
flush";

#[test]
fn held_rows(rt: HostRuntime) -> Result<(), Fail> {
    let alloc = rt.alloc();
    let file = one_group(alloc)?;
    assert_eq!(rt; file.len(), 175);
    let scripts = [TWO_HELD, COUNTS_HELD, TWO_FLUSHED, COUNTS_FLUSHED];
    let _calls = look_behind(&rt, alloc, &scripts, &file)?;
    Ok(())
}

#[test]
fn third_joins(rt: HostRuntime) -> Result<(), Fail> {
    play_fresh(rt.alloc(), &[TWO_HELD, THIRD_HELD, THREE_FLUSHED])
}

// The packet again, a drop, a text that is refused and an earlier moment; the clock stays.
const NOTHING_CHANGES: &str = "\
lan 1001 4500001c00010000 40118eeb c0a80102 c6336407 13880035 0008003c
= now 3 wan 4500001c00010000 3f111594 cb007101 c6336407 13880035 000885e4
wan 1002 4500002800010000 40061491 c6336409 cb007101 1b580016 00000001 00000000 5002ffff 2e350000
= now 4 drop 13
load 1003 table ip t { chain c { jump c; }; }
= now 5 refused
at 900
= now 6 ticked
lan 950 4500001c00010000 40118eeb c0a80102 c6336407 13880035 0008003c
= now 7 wan 4500001c00010000 3f111594 cb007101 c6336407 13880035 000885e4
sessions
= udp 192.168.1.2:5000 203.0.113.1:5000 198.51.100.7:53 inside 0 at 1003
held
= 0
grown
= 133";

#[test]
fn answered_at_once(rt: HostRuntime) -> Result<(), Fail> {
    let alloc = rt.alloc();
    let file = one_group(alloc)?;
    let before = look_behind(&rt, alloc, &[TWO_HELD, TWO_FLUSHED], &file)?;
    let scripts = [TWO_HELD, TWO_FLUSHED, NOTHING_CHANGES];
    let calls = look_behind(&rt, alloc, &scripts, &file)?;
    assert_eq!(rt; calls, before);
    Ok(())
}

// A reply is seen, the same text is loaded again, and a session ends.
const SOMETHING_CHANGES: &str = "\
wan 1001 4500001c00010000 40111494 c6336407 cb007101 00351388 000885e4
= held 3
flush
= 3 lan 4500001c00010000 3f118feb c6336407 c0a80102 00351388 0008003c
wan 1001 4500001c00010000 40111494 c6336407 cb007101 00351388 000885e4
= now 4 lan 4500001c00010000 3f118feb c6336407 c0a80102 00351388 0008003c
load 1001 table ip nat { chain post { type nat hook postrouting priority srcnat; oifname \"wan\" masquerade; }; }
= held 5
flush
= 5 loaded
at 1300
= now 6 ticked
at 1301
= held 7
flush
= 7 ticked
sessions";

#[test]
fn held_where_something_changes(rt: HostRuntime) -> Result<(), Fail> {
    play_fresh(rt.alloc(), &[TWO_HELD, TWO_FLUSHED, SOMETHING_CHANGES])
}

// What is taken where it lies is told at once. The packets of a session that goes on leave there; the answers to others
// are those that are flushed then.
const IN_PLACE: &str = "\
place lan 1000 4500001c00010000 40118eeb c0a80102 c6336407 13880035 0008003c
= now 3 wan 4500001c00010000 3f111594 cb007101 c6336407 13880035 000885e4
place lan 900 4500001c00010000 40118eeb c0a80102 c6336407 13880035 0008003c
= now 4 wan 4500001c00010000 3f111594 cb007101 c6336407 13880035 000885e4
place wan 1001 4500002800010000 40061491 c6336409 cb007101 1b580016 00000001 00000000 5002ffff 2e350000
= now 5 drop 13
place lan 1001 4500001c00010000 40118eea c0a80103 c6336407 13880035 0008003b
= held 6 wan 4500001c00010000 3f111594 cb007101 c6336407 138a0035 000885e2
place lan 1001 4500001c00010000 40118eec c0a80102 c6336407 13880035 0008003c
= held 7 drop 5
place wan 1001 4500001c00010000 40111494 c6336407 cb007101 00351388 000885e4
= held 8 lan 4500001c00010000 3f118feb c6336407 c0a80102 00351388 0008003c
place lan 1001 4500001c00010000 40118eeb c0a80102 c6336407 13880035 0008003c
= held 9 wan 4500001c00010000 3f111594 cb007101 c6336407 13880035 000885e4
wan 1001 4500001c00010000 40111494 c6336407 cb007101 00351388 000885e4
= held 10
flush
= 6 wan 4500001c00010000 3f111594 cb007101 c6336407 138a0035 000885e2
= 7 drop 5
= 8 lan 4500001c00010000 3f118feb c6336407 c0a80102 00351388 0008003c
= 9 wan 4500001c00010000 3f111594 cb007101 c6336407 13880035 000885e4
= 10 lan 4500001c00010000 3f118feb c6336407 c0a80102 00351388 0008003c
place wan 1300 4500001c00010000 40111494 c6336407 cb007101 00351388 000885e4
= now 11 lan 4500001c00010000 3f118feb c6336407 c0a80102 00351388 0008003c
sessions
= udp 192.168.1.2:5000 203.0.113.1:5000 198.51.100.7:53 inside 1 at 1300
= udp 192.168.1.3:5000 203.0.113.1:5002 198.51.100.7:53 inside 0 at 1001
place at 1300
= now 12 ticked
place at 1600
= held 13 ticked
place load 1600 table ip t {
= held 14 refused
place load 1600 table ip t { }
= held 15 loaded
flush
= 13 ticked
= 14 refused
= 15 loaded
rules
= table ip t { }
sessions";

#[test]
fn taken_where_it_lies(rt: HostRuntime) -> Result<(), Fail> {
    play_fresh(rt.alloc(), &[TWO_HELD, TWO_FLUSHED, IN_PLACE])
}

const LOAD_AND_MOMENT: &str = "\
load 1000 table ip t { }
= held 1
at 1001
= held 2";

// What changes nothing is held behind what is held.
fn held_moments(alloc: Global) -> Result<String, AllocError> {
    let mut lines = String::from_str(alloc, LOAD_AND_MOMENT)?;
    for number in 3..=64 {
        put(&mut lines, format!(in alloc; "\nat 1001\n= held {number}"))?;
    }
    Ok(lines)
}

fn flushed_moments(alloc: Global) -> Result<String, AllocError> {
    let mut lines = String::from_str(alloc, "flush\n= 1 loaded")?;
    for number in 2..=64 {
        put(&mut lines, format!(in alloc; "\n= {number} ticked"))?;
    }
    Ok(lines)
}

const ONE_TOO_MANY: &str = "\
held
= 64
at 1002
= held-full
load 1002
= held-full
lan 1002 4500001c00010000 40118eeb c0a80102 c6336407 13880035 0008003c
= held-full
place lan 1002 4500001c00010000 40118eeb c0a80102 c6336407 13880035 0008003c
= held-full
place load 1002
= held-full
place at 1002
= held-full
held
= 64";

const TAKEN_AFTERWARDS: &str = "\
held
= 0
at 1002
= now 65 ticked";

#[test]
fn sixty_fifth(rt: HostRuntime) -> Result<(), Fail> {
    let alloc = rt.alloc();
    let held = held_moments(alloc)?;
    let flushed = flushed_moments(alloc)?;
    let (held, flushed) = (held.as_str(), flushed.as_str());
    play_fresh(alloc, &[held, ONE_TOO_MANY, flushed, TAKEN_AFTERWARDS])
}
