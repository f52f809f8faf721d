//! The gateway, and what several tests begin with.
use disk_model::FileId;
pub use gateway::{
    Answer, Bytes, Event, Gateway, GatewayFault, Given, GivenInPlace, Iface, OpenFault, Session,
    What,
};
use machine::Core;
use packet::{Bounds, Filtering, Prefix};
use std::alloc::{AllocFailed, Global};
use std::process::Abort;
use std::test::Fail;
use trial_disk::Trial;

/// A gateway over a disk for trials. It lies behind a box, and is let go by `close`, `disk_of` or `left_of` alone: all
/// of it but its disk goes in its own crate then, and nothing is to be proved of that here.
pub type Trials = Box<Gateway<Trial>>;

/// Every packet to wan leaves from the external address.
pub const MASQUERADE: &str =
    "table ip nat { chain post { type nat hook postrouting priority srcnat; oifname \"wan\" masquerade; }; }";

/// That text, and UDP from 192.168.1.2:5000 to 198.51.100.7:53.
pub const TWO_HELD: &str = "\
load 1000 table ip nat { chain post { type nat hook postrouting priority srcnat; oifname \"wan\" masquerade; }; }
= held 1
lan 1000 4500001c00010000 40118eeb c0a80102 c6336407 13880035 0008003c
= held 2";

/// They are handed out.
pub const TWO_FLUSHED: &str = "\
flush
= 1 loaded
= 2 wan 4500001c00010000 3f111594 cb007101 c6336407 13880035 000885e4";

/// A packet from the port of that one, of a second host, is held.
pub const THIRD_HELD: &str = "\
lan 1000 4500001c00010000 40118eea c0a80103 c6336407 13880035 0008003b
= held 3";

/// All three are handed out.
pub const THREE_FLUSHED: &str = "\
flush
= 1 loaded
= 2 wan 4500001c00010000 3f111594 cb007101 c6336407 13880035 000885e4
= 3 wan 4500001c00010000 3f111594 cb007101 c6336407 138a0035 000885e2";

/// No rules and no session.
pub const NOTHING: &str = "\
rules
=
sessions";

/// A file that was just made, for `SIDES`.
pub const FRESH: &str = "\
01 4e475732 0000000000000001 036c616e 0377616e 01 c0a8000010 01 cb007101 00 00000000 00000000 00";

/// It is one as long as that, up to the gate of its first group.
pub const FRESH_FRONT: &str = "\
01 4e475732 0000000000000001 036c616e 0377616e 01 c0a8000010 01 cb007101 00 00000000 00000000";

/// What an older version of natgw made then.
pub const FIRST_FRESH: &str = "\
01 4e475731 0000000000000001 036c616e 0377616e 01 c0a8000010 cb007101 00000000 00000000 00";

/// What a configuration has beside `lan`, and 192.168.0.0/16 inside.
#[derive(Clone, Copy)]
pub struct Sides {
    pub wan: &'static str,
    pub pool: &'static [u32],
    pub filtering: Filtering,
}

/// Outside 203.0.113.1, whose mappings let everyone in.
pub const SIDES: Sides = Sides {
    wan: "wan",
    pool: &[0xcb00_7101],
    filtering: Filtering::Endpoint,
};

/// 203.0.113.2 beside it.
pub const TWO: Sides = Sides {
    pool: &[0xcb00_7101, 0xcb00_7102],
    ..SIDES
};

/// Its mappings let in by the remote address.
pub const BY_ADDRESS: Sides = Sides {
    filtering: Filtering::Address,
    ..SIDES
};

/// Another name of the outer interface.
pub const RENAMED: Sides = Sides {
    wan: "wan1",
    ..SIDES
};

/// The configuration; none where memory is refused.
pub fn some_bounds(alloc: Global, sides: Sides) -> Option<Bounds> {
    let prefix = Prefix {
        addr: 0xc0a8_0000,
        len: 16,
    };
    let inside = Vec::from_slice(alloc, &[prefix]).ok()?;
    let lan = String::from_str(alloc, "lan").ok()?;
    let wan = String::from_str(alloc, sides.wan).ok()?;
    let external = Vec::from_slice(alloc, sides.pool).ok()?;
    Bounds::new(lan, wan, inside, external, sides.filtering).ok()
}

/// The same, where memory isn't refused.
pub fn bounds(alloc: Global, sides: Sides) -> Result<Bounds, Fail> {
    Ok(some_bounds(alloc, sides).ok_or("no bounds")?)
}

/// A machine without a disk. It lies behind a box as a gateway does.
pub fn machine(alloc: Global, moment: u64) -> Result<Box<Core>, Fail> {
    machine_of(alloc, SIDES, moment)
}

/// A machine of this configuration.
pub fn machine_of(alloc: Global, sides: Sides, moment: u64) -> Result<Box<Core>, Fail> {
    let core = Core::start(alloc, bounds(alloc, sides)?, moment)?;
    Ok(Box::new(alloc, core)?)
}

fn is_file(alloc: Global, disk: &mut Trial, id: FileId, bytes: &[u8]) -> Option<bool> {
    let file = disk.bytes(alloc, id).ok()?;
    Some(file.as_slice() == bytes)
}

/// A file of the disk has these bytes.
pub fn assert_file(rt: &impl Abort, alloc: Global, disk: &mut Trial, id: FileId, bytes: &[u8]) {
    assert!(rt; is_file(alloc, disk, id, bytes) == Some(true));
}

/// Opens a gateway over the disk, which may be refused.
pub fn open(
    alloc: Global,
    disk: Trial,
    bounds: Bounds,
    moment: u64,
) -> Result<Trials, (Trial, OpenFault)> {
    match Gateway::open(alloc, disk, bounds, moment) {
        Ok(gateway) => boxed(alloc, gateway),
        Err(refused) => Err(refused),
    }
}

fn boxed(alloc: Global, gateway: Gateway<Trial>) -> Result<Trials, (Trial, OpenFault)> {
    match Box::new(alloc, gateway) {
        Ok(gateway) => Ok(gateway),
        Err(AllocFailed { value }) => Err((value.into_disk(), OpenFault::NoMemory)),
    }
}

/// The disk of a gateway that works no longer.
pub fn disk_of(gateway: Trials) -> Trial {
    Box::into_inner(gateway).into_disk()
}

/// Lets a gateway go.
pub fn close(gateway: Trials) {
    drop(disk_of(gateway));
}

/// The disk, where all went well.
pub fn kept(disk: Trial, ended: Result<(), Fail>) -> Result<Trial, Fail> {
    match ended {
        Ok(()) => Ok(disk),
        Err(fail) => {
            drop(disk);
            Err(fail)
        }
    }
}

/// The disk of a gateway over which all went well.
pub fn left_of(gateway: Trials, ended: Result<(), Fail>) -> Result<Trial, Fail> {
    kept(disk_of(gateway), ended)
}

/// A disk of these files.
pub fn disk(alloc: Global, a: &[u8], b: &[u8]) -> Result<Trial, Fail> {
    Ok(Trial::of(alloc, a, b)?)
}

fn opened_within(alloc: Global, disk: Trial, bounds: Bounds, moment: u64) -> Result<Trials, Fail> {
    match open(alloc, disk, bounds, moment) {
        Ok(gateway) => Ok(gateway),
        Err((disk, fault)) => {
            drop(disk);
            Err(fault.into())
        }
    }
}

/// Opens a gateway over the disk, where nothing is to fail.
pub fn opened(alloc: Global, disk: Trial, moment: u64) -> Result<Trials, Fail> {
    opened_as(alloc, SIDES, disk, moment)
}

/// The same in this configuration.
pub fn opened_as(alloc: Global, sides: Sides, disk: Trial, moment: u64) -> Result<Trials, Fail> {
    match bounds(alloc, sides) {
        Ok(bounds) => opened_within(alloc, disk, bounds, moment),
        Err(fail) => {
            drop(disk);
            Err(fail)
        }
    }
}

/// A gateway over two empty files, opened at 1000.
pub fn fresh(alloc: Global) -> Result<Trials, Fail> {
    opened(alloc, disk(alloc, b"", b"")?, 1000)
}

/// What a crash leaves of what wasn't synced: nothing, everything, 01 at each byte, ff at each byte, and two choices of
/// writes.
pub const CHOICES: [u64; 6] = [0, 1, 2, 3, 5, 10];

/// A call of the disk, counted from 0, at which something happens.
#[derive(Clone, Copy)]
pub enum Trouble {
    /// This call fails, and all later ones do.
    Stop(u64),
    /// This call alone fails.
    Fault(u64),
}

/// From now on the disk has this trouble, so many calls later.
pub fn expect_trouble(disk: &mut Trial, at: Trouble, later: u64) {
    match at {
        Trouble::Stop(call) => disk.fuse_after(call.saturating_add(later)),
        Trouble::Fault(call) => disk.fail_once(call.saturating_add(later)),
    }
}

/// How many calls of the disk there were in all.
pub fn calls_of(disk: Trial) -> u64 {
    let calls = disk.calls();
    drop(disk);
    calls
}

/// The disk, with trouble at a call once a gateway is open over it.
pub fn troubled(alloc: Global, disk: Trial, at: Trouble) -> Result<Trial, Fail> {
    let before = disk.calls();
    let mut disk = disk_of(opened(alloc, disk, 1000)?);
    let opening = disk.calls().saturating_sub(before);
    expect_trouble(&mut disk, at, opening);
    Ok(disk)
}

/// The disk when power was lost, of which this choice is left.
pub fn crashed(mut disk: Trial, choice: u64) -> Result<Trial, Fail> {
    match disk.crash(choice) {
        Ok(()) => Ok(disk),
        Err(refused) => {
            drop(disk);
            Err(refused.into())
        }
    }
}
