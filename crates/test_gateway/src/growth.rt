//! Groups that grow, compaction, and runs of many events.
use crate::script::{
    expect, fresh_behind, name, play, play_over, played, run, run_through, two_flushed,
};
use crate::shared::{
    Answer, CHOICES, Event, FRESH_FRONT, MASQUERADE, TWO_FLUSHED, TWO_HELD, Trials, Trouble,
    calls_of, close, crashed, fresh, kept, left_of, opened, troubled,
};
use crate::words::{event, hex, put, put_hex};
use disk_model::FileId;
use std::alloc::{AllocError, Global};
use std::process::Abort;
use std::test::*;
use trial_disk::Trial;

// A file of 164 bytes with the text and the session as its snapshot, from its generation on.
fn snapshot(alloc: Global, generation: &str) -> Result<Vec<u8>, Fail> {
    let configuration = "036c616e 0377616e 01 c0a8000010 01 cb007101 00 00000065";
    let session = "00000001 11 c0a801021388 cb0071011388 c63364070035 00 00 00";
    let mut file = Vec::new(alloc);
    for text in &["01 4e475732", generation, configuration] {
        put_hex(&mut file, *text)?;
    }
    file.extend_from_slice(MASQUERADE.as_bytes())?;
    put_hex(&mut file, session)?;
    Ok(file)
}

const COMPACTED: &str = "\
lan 1001 4500001c00010000 40118eeb c0a80102 c6336407 13880035 0008003c
= now 3 wan 4500001c00010000 3f111594 cb007101 c6336407 13880035 000885e4
grown
= 133
compact
= done
grown
= 0
rules
= table ip nat { chain post { type nat hook postrouting priority srcnat; oifname \"wan\" masquerade; }; }
sessions
= udp 192.168.1.2:5000 203.0.113.1:5000 198.51.100.7:53 inside 0 at 1001
at 1300
= now 4 ticked";

const FOUND_AGAIN: &str = "\
grown
= 0
rules
= table ip nat { chain post { type nat hook postrouting priority srcnat; oifname \"wan\" masquerade; }; }
sessions
= udp 192.168.1.2:5000 203.0.113.1:5000 198.51.100.7:53 inside 0 at 1400
compact
= done
grown
= 0";

// How long the first file is, if it begins so and the second file is the snapshot.
fn length_of(alloc: Global, disk: &mut Trial, front: &[u8], second: &[u8]) -> Option<usize> {
    let is_second = disk.bytes(alloc, FileId::B).ok()?.as_slice() == second;
    let first = disk.bytes(alloc, FileId::A).ok()?;
    if is_second && first.as_slice().starts_with(front) {
        return Some(first.len());
    }
    None
}

// The first file is as it was.
fn look(rt: &impl Abort, alloc: Global, disk: &mut Trial, second: &[u8]) -> Result<(), Fail> {
    let front = hex(alloc, FRESH_FRONT)?;
    assert_eq!(rt; length_of(alloc, disk, &front, second), Some(175));
    Ok(())
}

// It is there when the files are opened, and compacted again it goes to the other file, behind which bytes mean
// nothing.
fn look_again(rt: &impl Abort, alloc: Global, disk: &mut Trial, second: &[u8]) -> Result<(), Fail> {
    let third = snapshot(alloc, "0000000000000003")?;
    assert!(rt; length_of(alloc, disk, &third, second).is_some());
    assert!(rt; !disk.has_strayed());
    Ok(())
}

#[test]
fn compacted(rt: HostRuntime) -> Result<(), Fail> {
    let alloc = rt.alloc();
    let second = snapshot(alloc, "0000000000000002")?;
    assert_eq!(rt; second.len(), 164);
    let mut disk = fresh_behind(alloc, &[TWO_HELD, TWO_FLUSHED, COMPACTED])?;
    let ended = look(&rt, alloc, &mut disk, &second);
    let mut disk = played(alloc, kept(disk, ended)?, 1400, &[FOUND_AGAIN])?;
    let ended = look_again(&rt, alloc, &mut disk, &second);
    drop(disk);
    ended
}

const COMPACTION_FAILS: &str = "\
compact
= device
compact
= reopen
lan 1000 4500001c00010000 40118eeb c0a80102 c6336407 13880035 0008003c
= reopen
flush
= reopen";

const KEPT: &str = "\
rules
= table ip nat { chain post { type nat hook postrouting priority srcnat; oifname \"wan\" masquerade; }; }
sessions
= udp 192.168.1.2:5000 203.0.113.1:5000 198.51.100.7:53 inside 0 at 2000
held
= 0
compact
= done
grown
= 0";

fn failed_compaction(alloc: Global, at: Trouble) -> Result<Trial, Fail> {
    let disk = troubled(alloc, two_flushed(alloc)?, at)?;
    played(alloc, disk, 1000, &[COMPACTION_FAILS])
}

fn fault(alloc: Global, call: u64) -> Result<(), Fail> {
    let disk = failed_compaction(alloc, Trouble::Fault(call))?;
    play_over(alloc, disk, 2000, &[KEPT])
}

fn stop(alloc: Global, call: u64, choice: u64) -> Result<(), Fail> {
    let disk = failed_compaction(alloc, Trouble::Stop(call))?;
    play_over(alloc, crashed(disk, choice)?, 2000, &[KEPT])
}

fn stop_by_choices(alloc: Global, call: u64) -> Result<(), Fail> {
    for choice in &CHOICES {
        stop(alloc, call, *choice)?;
    }
    Ok(())
}

// Each of the six calls fails, alone or with all behind it; nothing is lost.
#[test]
fn compaction_stops(rt: HostRuntime) -> Result<(), Fail> {
    for call in 0..6 {
        fault(rt.alloc(), call)?;
        stop_by_choices(rt.alloc(), call)?;
    }
    Ok(())
}

// So many loads of a text of 11 bytes.
fn loads(alloc: Global, count: u64) -> Result<Vec<Event>, Fail> {
    let mut events = Vec::new(alloc);
    for _ in 0..count {
        events.push(event(alloc, "load 1000 table t { }")?)?;
    }
    Ok(events)
}

// So many times `loaded`, with rising numbers.
fn all_loaded(alloc: Global, count: u64) -> Result<String, AllocError> {
    let mut lines = String::new(alloc);
    for number in 1..=count {
        put(&mut lines, format!(in alloc; "{number} loaded\n"))?;
    }
    Ok(lines)
}

// How a run ends, and that it answers so many loads.
fn run_loads(
    alloc: Global,
    gateway: &mut Trials,
    count: u64,
    answered: u64,
) -> Result<&'static str, Fail> {
    let (answers, end) = match run(gateway, loads(alloc, count)?) {
        Ok(answers) => (answers, "done"),
        Err((answers, fault)) => (answers, name(fault)),
    };
    expect_loaded(alloc, answers.as_slice(), answered)?;
    Ok(end)
}

fn assert_run(
    rt: &impl Abort,
    alloc: Global,
    gateway: &mut Trials,
    count: u64,
    answered: u64,
    end: &str,
) -> Result<(), Fail> {
    assert_eq!(rt; run_loads(alloc, gateway, count, answered)?, end);
    Ok(())
}

fn expect_loaded(alloc: Global, answers: &[(u64, Answer)], count: u64) -> Result<(), Fail> {
    let lines = all_loaded(alloc, count)?;
    expect(alloc, answers, lines.as_str())
}

// Groups of 64 and of 1: 5 bytes, and 16 for each load.
const RAN: &str = "\
held
= 0
grown
= 1050
at 1001
= now 66 ticked";

fn run_at_64(rt: &impl Abort, alloc: Global, gateway: &mut Trials) -> Result<(), Fail> {
    assert_run(rt, alloc, gateway, 65, 65, "done")?;
    play(alloc, gateway, RAN)
}

#[test]
fn run_flushes_at_64(rt: HostRuntime) -> Result<(), Fail> {
    let alloc = rt.alloc();
    let calls = calls_of(fresh_behind(alloc, &[])?);
    let mut gateway = fresh(alloc)?;
    let ended = run_at_64(&rt, alloc, &mut gateway);
    let disk = left_of(gateway, ended)?;
    assert_eq!(rt; calls_of(disk), calls.saturating_add(8));
    Ok(())
}

// The answers of a group whose flush failed stay held.
const RAN_INTO_FAULT: &str = "\
held
= 36
at 1001
= reopen";

fn run_stops(rt: &impl Abort, alloc: Global, gateway: &mut Trials) -> Result<(), Fail> {
    assert_run(rt, alloc, gateway, 100, 64, "device")?;
    play(alloc, gateway, RAN_INTO_FAULT)?;
    assert_run(rt, alloc, gateway, 1, 0, "reopen")
}

// The second flush fails: 64 answers are handed out.
fn stop_a_run(rt: &impl Abort, alloc: Global, call: u64) -> Result<(), Fail> {
    let disk = fresh_behind(alloc, &[])?;
    let disk = troubled(alloc, disk, Trouble::Stop(call))?;
    let mut gateway = opened(alloc, disk, 1000)?;
    let ended = run_stops(rt, alloc, &mut gateway);
    let disk = crashed(left_of(gateway, ended)?, 0)?;
    play_over(alloc, disk, 2000, &["rules\n= table t { }"])
}

#[test]
fn run_meets_a_fault(rt: HostRuntime) -> Result<(), Fail> {
    for call in 4..8 {
        stop_a_run(&rt, rt.alloc(), call)?;
    }
    Ok(())
}

const MIXED: &str = "\
at 1000
load 1000 table ip nat { chain post { type nat hook postrouting priority srcnat; oifname \"wan\" masquerade; }; }
at 1001
lan 1001 4500001c00010000 40118eeb c0a80102 c6336407 13880035 0008003c
load 1001 table ip6 t { }
wan 1001 4500002800010000 40061491 c6336409 cb007101 1b580016 00000001 00000000 5002ffff 2e350000";

const MIXED_ANSWERS: &str = "\
1 ticked
2 loaded
3 ticked
4 wan 4500001c00010000 3f111594 cb007101 c6336407 13880035 000885e4
5 refused
6 drop 13";

const TICKS: &str = "\
at 1002
at 1003";

const TICKS_ANSWERS: &str = "\
7 loaded
8 ticked
9 ticked";

fn run_twice(alloc: Global, gateway: &mut Trials) -> Result<(), Fail> {
    run_through(alloc, gateway, MIXED, MIXED_ANSWERS)?;
    play(alloc, gateway, "load 1001 table t { }\n= held 7")?;
    run_through(alloc, gateway, TICKS, TICKS_ANSWERS)?;
    play(alloc, gateway, "held\n= 0\ngrown\n= 154")
}

// What is held at the entry comes first.
#[test]
fn run_in_order(rt: HostRuntime) -> Result<(), Fail> {
    let mut gateway = fresh(rt.alloc())?;
    let ended = run_twice(rt.alloc(), &mut gateway);
    close(gateway);
    ended
}
