//! What is refused where a file is full or has the greatest generation, and what stays. (That no number is left can't
//! be shown: 2^64 - 1 events would have to come first.)
use crate::script::{play, play_over, played, run_through};
use crate::shared::{FRESH_FRONT, Trials, assert_file, disk, left_of, opened};
use crate::words::{hex, put_hex};
use disk_model::FileId;
use std::alloc::{AllocError, Global};
use std::test::*;
use trial_disk::Trial;

// A session stands in its first group.
const LAST_GENERATION: &str = "\
01 4e475732 ffffffffffffffff 036c616e 0377616e 01 c0a8000010 01 cb007101 00 00000000 00000000
01 00000016 02 11 c0a801021388 c0a801021388 c63364070035 00 00
00";

const NO_GENERATION: &str = "\
compact
= generations
grown
= 27
sessions
= udp 192.168.1.2:5000 192.168.1.2:5000 198.51.100.7:53 inside 0 at 1000
load 1001 table t { }
= held 1
flush
= 1 loaded
compact
= generations
grown
= 48
held
= 0";

const STAYS: &str = "\
rules
= table t { }
sessions
= udp 192.168.1.2:5000 192.168.1.2:5000 198.51.100.7:53 inside 0 at 2000
grown
= 48";

#[test]
fn generations(rt: HostRuntime) -> Result<(), Fail> {
    let alloc = rt.alloc();
    let file = hex(alloc, LAST_GENERATION)?;
    let disk = disk(alloc, &file, b"")?;
    let mut disk = played(alloc, disk, 1000, &[NO_GENERATION])?;
    assert_file(&rt, alloc, &mut disk, FileId::B, b"");
    play_over(alloc, disk, 2000, &[STAYS])
}

// An open group of 67,108,760 bytes, and a session that begins in it.
const GROUP: &str = "01 03ffff98";

const BEGIN: &str = "02 11 c0a801021388 c0a801021388 c63364070035 00 00";

// A load of a comment that is as long as a text may be, and one of a shorter comment.
const LONGEST: [u8; 5] = [0x01, 0x00, 0x04, 0x00, 0x00];

const SHORTER: [u8; 5] = [0x01, 0x00, 0x03, 0xfa, 0x82];

fn put_load(file: &mut Vec<u8>, load: &[u8], comment: &[u8]) -> Result<(), AllocError> {
    file.extend_from_slice(load)?;
    file.extend_from_slice(comment)
}

fn put_loads(alloc: Global, file: &mut Vec<u8>) -> Result<(), AllocError> {
    let longest = vec![in alloc; b'#'; 262_144]?;
    for _ in 0..255 {
        put_load(file, &LONGEST, longest.as_slice())?;
    }
    let shorter = vec![in alloc; b'#'; 260_738]?;
    put_load(file, &SHORTER, shorter.as_slice())
}

// A file whose next group would stand at 67,108,806, and so may have 52 bytes of entries.
fn nearly_full(alloc: Global) -> Result<Vec<u8>, Fail> {
    let mut file = Vec::new(alloc);
    for text in &[FRESH_FRONT, GROUP, BEGIN] {
        put_hex(&mut file, *text)?;
    }
    put_loads(alloc, &mut file)?;
    file.extend_from_slice(&[0])?;
    Ok(file)
}

// 48 bytes of text, a packet at which a session ends, a second packet, and a first reply; each comes back, and nothing
// changes.
const NO_ROOM: &str = "\
grown
= 67108765
load 1000 table t {                                      }
= full
lan 1300 4500001c00010000 40118eea c0a80103 c6336407 13880035 0008003b
= full
lan 1000 4500001c00010000 40118eea c0a80103 c6336407 13880035 0008003b
= held 1
lan 1000 4500001c00010000 40118ee9 c0a80104 c6336407 13880035 0008003a
= full
wan 1000 4500001c00010000 40118eeb c6336407 c0a80102 00351388 0008003c
= full
held
= 1
flush
= 1 wan 4500001c00010000 3f118fea c0a80103 c6336407 13880035 0008003b
grown
= 67108792
sessions
= udp 192.168.1.2:5000 192.168.1.2:5000 198.51.100.7:53 inside 0 at 1000
= udp 192.168.1.3:5000 192.168.1.3:5000 198.51.100.7:53 inside 0 at 1000
lan 1000 4500001c00010000 40118ee9 c0a80104 c6336407 13880035 0008003a
= full
compact
= done
lan 1000 4500001c00010000 40118ee9 c0a80104 c6336407 13880035 0008003a
= held 2
flush
= 2 wan 4500001c00010000 3f118fe9 c0a80104 c6336407 13880035 0008003a
grown
= 27";

const ALL_THREE: &str = "\
sessions
= udp 192.168.1.2:5000 192.168.1.2:5000 198.51.100.7:53 inside 0 at 2000
= udp 192.168.1.3:5000 192.168.1.3:5000 198.51.100.7:53 inside 0 at 2000
= udp 192.168.1.4:5000 192.168.1.4:5000 198.51.100.7:53 inside 0 at 2000
grown
= 27";

// 47 bytes of text fill the file, and are flushed.
const ROOM: &str = "\
load 1000 table t {                                     }
= held 1
at 1000
= held 2
load 1000
= full
flush
= 1 loaded
= 2 ticked
grown
= 67108822";

fn nearly_full_disk(alloc: Global) -> Result<Trial, Fail> {
    let file = nearly_full(alloc)?;
    disk(alloc, &file, b"")
}

// What is refused is taken when the rest is compacted.
#[test]
fn full(rt: HostRuntime) -> Result<(), Fail> {
    let alloc = rt.alloc();
    let disk = nearly_full_disk(alloc)?;
    let disk = played(alloc, disk, 1000, &[NO_ROOM])?;
    play_over(alloc, disk, 2000, &[ALL_THREE])
}

const BOTH: &str = "\
lan 1000 4500001c00010000 40118eea c0a80103 c6336407 13880035 0008003b
lan 1000 4500001c00010000 40118ee9 c0a80104 c6336407 13880035 0008003a";

const BOTH_ANSWERS: &str = "\
1 wan 4500001c00010000 3f118fea c0a80103 c6336407 13880035 0008003b
2 wan 4500001c00010000 3f118fe9 c0a80104 c6336407 13880035 0008003a";

fn run_both(alloc: Global, gateway: &mut Trials) -> Result<(), Fail> {
    run_through(alloc, gateway, BOTH, BOTH_ANSWERS)?;
    play(alloc, gateway, "held\n= 0\ngrown\n= 27")
}

// The second is refused; a run flushes, compacts and offers it again.
#[test]
fn run_makes_room(rt: HostRuntime) -> Result<(), Fail> {
    let alloc = rt.alloc();
    let mut gateway = opened(alloc, nearly_full_disk(alloc)?, 1000)?;
    let ended = run_both(alloc, &mut gateway);
    let disk = left_of(gateway, ended)?;
    play_over(alloc, disk, 2000, &[ALL_THREE])
}

#[test]
fn last_room(rt: HostRuntime) -> Result<(), Fail> {
    let alloc = rt.alloc();
    play_over(alloc, nearly_full_disk(alloc)?, 1000, &[ROOM])
}
