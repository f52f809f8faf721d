//! What is there again after a loss of power at each call of a flush, after a call that fails, and after a long time.
use crate::script::{expect, fresh_behind, name, play_all, play_over, played, run, two_flushed};
use crate::shared::{
    NOTHING, THIRD_HELD, THREE_FLUSHED, TWO_FLUSHED, TWO_HELD, Trials, Trouble, crashed, left_of,
    opened, troubled,
};
use crate::words::events;
use std::alloc::Global;
use std::test::Fail;
use trial_disk::Trial;

const FAILED_FLUSH: &str = "\
flush
= device
held
= 3";

const ALL_THREE: &str = "\
rules
= table ip nat { chain post { type nat hook postrouting priority srcnat; oifname \"wan\" masquerade; }; }
sessions
= udp 192.168.1.2:5000 203.0.113.1:5000 198.51.100.7:53 inside 0 at 2000
= udp 192.168.1.3:5000 203.0.113.1:5002 198.51.100.7:53 inside 0 at 2000
held
= 0";

// A disk whose files were just made, with this trouble once they are open.
fn troubled_anew(alloc: Global, at: Trouble) -> Result<Trial, Fail> {
    troubled(alloc, fresh_behind(alloc, &[])?, at)
}

// Behind each of these calls the power is lost: the group is written, and synced; its gate is written, and synced.
fn stop(alloc: Global, call: u64, choice: u64, flushed: &str, left: &str) -> Result<(), Fail> {
    let disk = troubled_anew(alloc, Trouble::Stop(call))?;
    let disk = played(alloc, disk, 1000, &[TWO_HELD, THIRD_HELD, flushed])?;
    play_over(alloc, crashed(disk, choice)?, 2000, &[left])
}

// What is left where the third call fails, the write of the gate, by the choice of what a crash leaves of it.
const GATE_IS_WRITTEN: [(u64, &str); 4] = [
    (0, NOTHING),
    (1, ALL_THREE),
    (2, ALL_THREE),
    (3, NOTHING),
];

// Up to the write of the gate nothing is there, and behind its sync everything.
fn stop_around_gate(alloc: Global, choice: u64) -> Result<(), Fail> {
    for call in 0..3 {
        stop(alloc, call, choice, FAILED_FLUSH, NOTHING)?;
    }
    stop(alloc, 4, choice, THREE_FLUSHED, ALL_THREE)
}

#[test]
fn stop_rows(rt: HostRuntime) -> Result<(), Fail> {
    for (choice, left) in &GATE_IS_WRITTEN {
        stop_around_gate(rt.alloc(), *choice)?;
        stop(rt.alloc(), 3, *choice, FAILED_FLUSH, left)?;
    }
    Ok(())
}

const ONE_HELD: &str = "\
lan 1000 4500001c00010000 40118eea c0a80103 c6336407 13880035 0008003b
= held 3";

const FALLEN: &str = "\
flush
= device
lan 1000 4500001c00010000 40118eeb c0a80102 c6336407 13880035 0008003c
= reopen
at 1001
= reopen
load 1001 table ip t { }
= reopen
flush
= reopen
held
= 1
rules
= table ip nat { chain post { type nat hook postrouting priority srcnat; oifname \"wan\" masquerade; }; }
sessions
= udp 192.168.1.2:5000 203.0.113.1:5000 198.51.100.7:53 inside 0 at 1000
= udp 192.168.1.3:5000 203.0.113.1:5002 198.51.100.7:53 inside 0 at 1000";

const ANSWERED: &str = "\
rules
= table ip nat { chain post { type nat hook postrouting priority srcnat; oifname \"wan\" masquerade; }; }
sessions
= udp 192.168.1.2:5000 203.0.113.1:5000 198.51.100.7:53 inside 0 at 2000
held
= 0
at 2001
= now 1 ticked";

const ANSWERED_AND_HELD: &str = "\
sessions
= udp 192.168.1.2:5000 203.0.113.1:5000 198.51.100.7:53 inside 0 at 2000
= udp 192.168.1.3:5000 203.0.113.1:5002 198.51.100.7:53 inside 0 at 2000
held
= 0
at 2001
= now 1 ticked";

fn run_is_refused(alloc: Global, gateway: &mut Trials) -> Result<(), Fail> {
    match run(gateway, events(alloc, "at 1001")?) {
        Ok(_) => Err(Fail::new("it ran")),
        Err((answers, fault)) => {
            expect(alloc, answers.as_slice(), "")?;
            expect_name(name(fault), "reopen")
        }
    }
}

fn expect_name(came: &str, wanted: &str) -> Result<(), Fail> {
    if came == wanted {
        return Ok(());
    }
    Err(Fail::new(format_args!("{wanted}: {came}")))
}

fn fall(alloc: Global, gateway: &mut Trials) -> Result<(), Fail> {
    play_all(alloc, gateway, &[TWO_HELD, TWO_FLUSHED, ONE_HELD, FALLEN])?;
    run_is_refused(alloc, gateway)
}

// Two events are answered, and a call of the flush of the third fails; the first flush made four calls.
fn fallen(alloc: Global, call: u64) -> Result<Trial, Fail> {
    let disk = troubled_anew(alloc, Trouble::Fault(call.saturating_add(4)))?;
    let mut gateway = opened(alloc, disk, 1000)?;
    let ended = fall(alloc, &mut gateway);
    left_of(gateway, ended)
}

fn fail_once(alloc: Global, call: u64, left: &str) -> Result<(), Fail> {
    play_over(alloc, fallen(alloc, call)?, 2000, &[left])
}

const FAILING: [(u64, &str); 4] = [
    (0, ANSWERED),
    (1, ANSWERED),
    (2, ANSWERED),
    (3, ANSWERED_AND_HELD),
];

#[test]
fn call_that_fails_once(rt: HostRuntime) -> Result<(), Fail> {
    for (call, left) in &FAILING {
        fail_once(rt.alloc(), *call, left)?;
    }
    Ok(())
}

const ALIVE: &str = "\
rules
= table ip nat { chain post { type nat hook postrouting priority srcnat; oifname \"wan\" masquerade; }; }
sessions
= udp 192.168.1.2:5000 203.0.113.1:5000 198.51.100.7:53 inside 0 at 1250
at 1549
= now 1 ticked
sessions
= udp 192.168.1.2:5000 203.0.113.1:5000 198.51.100.7:53 inside 0 at 1250
at 1550
= held 2
sessions";

const REPLY_IN_TIME: &str = "\
wan 1549 4500001c00010000 40111494 c6336407 cb007101 00351388 000885e4
= held 1
flush
= 1 lan 4500001c00010000 3f118feb c6336407 c0a80102 00351388 0008003c";

const REPLY_TOO_LATE: &str = "\
wan 1550 4500001c00010000 40111494 c6336407 cb007101 00351388 000885e4
= held 1
flush
= 1 drop 13";

fn restart(alloc: Global, choice: u64, lines: &str) -> Result<(), Fail> {
    let disk = crashed(two_flushed(alloc)?, choice)?;
    play_over(alloc, disk, 1250, &[lines])
}

fn restart_each(alloc: Global, choice: u64) -> Result<(), Fail> {
    for lines in &[ALIVE, REPLY_IN_TIME, REPLY_TOO_LATE] {
        restart(alloc, choice, lines)?;
    }
    Ok(())
}

#[test]
fn restarted(rt: HostRuntime) -> Result<(), Fail> {
    for choice in 0..4 {
        restart_each(rt.alloc(), choice)?;
    }
    Ok(())
}

fn last_at(alloc: Global, moment: u64) -> Result<String, Fail> {
    let session = "udp 192.168.1.2:5000 203.0.113.1:5000 198.51.100.7:53 inside 0";
    Ok(format!(in alloc; "sessions\n= {session} at {moment}")?)
}

// Its last packet is taken to have passed when the gateway was opened, however long ago it did.
fn resumes(alloc: Global, moment: u64) -> Result<(), Fail> {
    let lines = last_at(alloc, moment)?;
    play_over(alloc, two_flushed(alloc)?, moment, &[lines.as_str()])
}

#[test]
fn old_sessions(rt: HostRuntime) -> Result<(), Fail> {
    for moment in &[0, 1299, 1300, 1_000_000_000, u64::MAX] {
        resumes(rt.alloc(), *moment)?;
    }
    Ok(())
}
