//! Gateways over a disk in memory, what a caller sees of them, and how a run ends early.
pub use gateway::{
    Answer, Bytes, Event, Gateway, GatewayFault, Given, Iface, OpenFault, Session, What,
};
use packet::{Bounds, Filtering, Prefix};
use std::alloc::{AllocFailed, Global};
use trial_disk::Trial;

/// A gateway over a disk for trials. It lies behind a box, and is let go by `close` or `disk_of` alone: all of it but
/// its disk goes in its own crate then, and nothing is to be proved of that here.
pub type Trials = Box<Gateway<Trial>>;

/// Answers with their numbers.
pub type Answers = Vec<(u64, Answer)>;

/// Every packet to wan leaves from the external address.
pub const MASQUERADE: &[u8; 101] =
    b"table ip nat { chain post { type nat hook postrouting priority srcnat; oifname \"wan\" masquerade; }; }";

/// UDP from 192.168.1.2:5000 to 198.51.100.7:53.
pub const FIRST: [u8; 28] = [
    0x45, 0x00, 0x00, 0x1c, 0x00, 0x01, 0x00, 0x00, 0x40, 0x11, 0x8e, 0xeb, 0xc0, 0xa8, 0x01, 0x02,
    0xc6, 0x33, 0x64, 0x07, 0x13, 0x88, 0x00, 0x35, 0x00, 0x08, 0x00, 0x3c,
];

/// UDP from 192.168.1.3:5000 to 198.51.100.7:53.
pub const NEIGHBOUR: [u8; 28] = [
    0x45, 0x00, 0x00, 0x1c, 0x00, 0x01, 0x00, 0x00, 0x40, 0x11, 0x8e, 0xea, 0xc0, 0xa8, 0x01, 0x03,
    0xc6, 0x33, 0x64, 0x07, 0x13, 0x88, 0x00, 0x35, 0x00, 0x08, 0x00, 0x3b,
];

/// Why a run ends early.
#[derive(Clone, Copy, Debug, PartialEq, Eq, Drop)]
pub enum Stop {
    /// A call of the disk failed.
    Fallen,
    /// Something was not as it should be; this is where.
    Wrong(&'static str),
}

/// Ends the run there where it doesn't hold.
pub fn must(holds: bool, place: &'static str) -> Result<(), Stop> {
    if holds {
        Ok(())
    } else {
        Err(Stop::Wrong(place))
    }
}

/// Inside 192.168.0.0/16, outside 203.0.113.1; none where memory is refused.
fn bounds_once(alloc: Global) -> Option<Bounds> {
    let prefix = Prefix {
        addr: 0xc0a8_0000,
        len: 16,
    };
    let inside = Vec::from_slice(alloc, &[prefix]).ok()?;
    let lan = String::from_str(alloc, "lan").ok()?;
    let wan = String::from_str(alloc, "wan").ok()?;
    let external = Vec::from_slice(alloc, &[0xcb00_7101]).ok()?;
    Bounds::new(lan, wan, inside, external, Filtering::Endpoint).ok()
}

/// As `bounds_once`, made a second time where memory was refused.
pub fn bounds(alloc: Global) -> Result<Bounds, Stop> {
    match bounds_once(alloc) {
        Some(bounds) => Ok(bounds),
        None => bounds_once(alloc).ok_or(Stop::Wrong("bounds")),
    }
}

fn disk_once(alloc: Global, file: &[u8]) -> Option<Trial> {
    Trial::of(alloc, file, b"").ok()
}

/// A disk of this file and an empty one, made a second time where memory was refused.
pub fn disk_of_file(alloc: Global, file: &[u8]) -> Result<Trial, Stop> {
    match disk_once(alloc, file) {
        Some(disk) => Ok(disk),
        None => disk_once(alloc, file).ok_or(Stop::Wrong("disk")),
    }
}

/// A disk of two empty files, made a second time where memory was refused.
pub fn empty_disk(alloc: Global) -> Result<Trial, Stop> {
    disk_of_file(alloc, b"")
}

fn open_once(alloc: Global, disk: Trial, bounds: Bounds) -> Result<Trials, (Trial, OpenFault)> {
    match Gateway::open(alloc, disk, bounds, 1000) {
        Ok(gateway) => boxed(alloc, gateway),
        Err(refused) => Err(refused),
    }
}

fn boxed(alloc: Global, gateway: Gateway<Trial>) -> Result<Trials, (Trial, OpenFault)> {
    match Box::new(alloc, gateway) {
        Ok(gateway) => Ok(gateway),
        Err(AllocFailed { value }) => Err((value.into_disk(), OpenFault::NoMemory)),
    }
}

fn refused(disk: Trial, stop: Stop) -> Result<Trials, Stop> {
    drop(disk);
    Err(stop)
}

fn open_again(alloc: Global, disk: Trial, bounds: Bounds) -> Result<Trials, Stop> {
    match open_once(alloc, disk, bounds) {
        Ok(gateway) => Ok(gateway),
        Err((disk, _)) => refused(disk, Stop::Wrong("second opening")),
    }
}

// Within the first bounds, and within the second ones where memory was refused.
fn open_within(alloc: Global, disk: Trial, both: (Bounds, Bounds)) -> Result<Trials, Stop> {
    let (first, second) = both;
    match open_once(alloc, disk, first) {
        Ok(gateway) => Ok(gateway),
        Err((disk, OpenFault::NoMemory | OpenFault::Device)) => open_again(alloc, disk, second),
        Err((disk, _)) => refused(disk, Stop::Wrong("opening")),
    }
}

fn bounds_twice(alloc: Global) -> Result<(Bounds, Bounds), Stop> {
    let first = bounds(alloc)?;
    let second = bounds(alloc)?;
    Ok((first, second))
}

/// Opens a gateway at 1000, a second time where memory was refused to it or to its disk.
pub fn open(alloc: Global, disk: Trial) -> Result<Trials, Stop> {
    match bounds_twice(alloc) {
        Ok(both) => open_within(alloc, disk, both),
        Err(stop) => refused(disk, stop),
    }
}

/// The disk of a gateway that works no longer.
pub fn disk_of(gateway: Trials) -> Trial {
    Box::into_inner(gateway).into_disk()
}

/// Lets a gateway go.
pub fn close(gateway: Trials) {
    drop(disk_of(gateway));
}

/// Offers an event. Of this call and the next three, who makes them here knows no clause.
pub fn offer(gateway: &mut Trials, event: Event) -> Result<Given, (Event, GatewayFault)> {
    gateway.offer(event)
}

/// Hands out what is held.
pub fn flush(gateway: &mut Trials) -> Result<Answers, GatewayFault> {
    gateway.flush()
}

/// Compacts, if nothing is held.
pub fn compact(gateway: &mut Trials) -> Result<(), GatewayFault> {
    if gateway.held() != 0 {
        return Err(GatewayFault::HeldFull);
    }
    gateway.compact()
}

/// Takes the events in turn.
pub fn run(gateway: &mut Trials, events: Vec<Event>) -> Result<Answers, (Answers, GatewayFault)> {
    gateway.run(events)
}

/// What a caller sees of a gateway.
#[derive(Drop)]
pub struct Seen {
    held: usize,
    grown: u64,
    rules: usize,
    sessions: Vec<Session>,
}

fn see_once(gateway: &Trials) -> Option<Seen> {
    Some(Seen {
        held: gateway.held(),
        grown: gateway.grown(),
        rules: gateway.text().len(),
        sessions: gateway.sessions().ok()?,
    })
}

/// Looks at it, a second time where memory was refused.
pub fn see(gateway: &Trials) -> Result<Seen, Stop> {
    match see_once(gateway) {
        Some(seen) => Ok(seen),
        None => see_once(gateway).ok_or(Stop::Wrong("sessions")),
    }
}

impl Seen {
    /// Whether it is all the same now.
    pub fn is_still(&self, gateway: &Trials) -> Result<bool, Stop> {
        let now = see(gateway)?;
        let sizes = (self.held, self.grown, self.rules) == (now.held, now.grown, now.rules);
        Ok(sizes && self.sessions.as_slice() == now.sessions.as_slice())
    }
}

/// What files stand for: the length of the text, and how many sessions there are.
pub type Kept = (usize, usize);

/// What a gateway's files are to stand for, once nothing is held.
pub fn lasting(gateway: &Trials) -> Result<Kept, Stop> {
    let seen = see(gateway)?;
    Ok((seen.rules, seen.sessions.len()))
}
