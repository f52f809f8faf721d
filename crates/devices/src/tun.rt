//! TUN devices of the system, handed to the program as open descriptors.
ghost use Rattle.std.specs.Prelude.{◌≤◌};

use crate::device::{Device, HEADER, LONGEST_FRAME};
use libc::net::{POLLERR, POLLHUP, POLLIN, POLLNVAL};
use libc::types::pollfd;

/// How often the devices are looked at before natgw sleeps. It takes some 20 microseconds.
const LOOKS: usize = 64;

/// What a device is ready for.
#[derive(Clone, Copy, Debug, PartialEq, Eq, Drop)]
pub enum Readiness {
    /// It has no packet now.
    Idle,
    /// It has a packet.
    Packet,
    /// It is gone, and comes back no more.
    Gone,
}

/// A TUN device under a descriptor, which doesn't block. Nothing is proved of what it gives, nor that it lets out what
/// it is handed.
#[derive(Drop)]
pub struct Tun {
    /// The descriptor.
    pub descriptor: i32,
    /// Whether the kernel puts a header in front of each packet (`IFF_VNET_HDR`). Without it each counts as `NO_HEADER`.
    pub has_headers: bool,
    /// What it was ready for when it was last waited for. Where that is no packet, it gives none.
    pub ready: Readiness,
    /// How many packets came from it, up to the greatest u64.
    pub came: u64,
    /// How many bytes these had, up to the greatest u64.
    pub came_bytes: u64,
}

impl Tun {
    /// The device under a descriptor.
    pub fn new(descriptor: i32, has_headers: bool) -> Tun {
        Tun {
            descriptor,
            has_headers,
            ready: Readiness::Idle,
            came: 0,
            came_bytes: 0,
        }
    }

    // Where the bytes that the kernel knows of begin.
    fn start(&self) -> usize
        ensures { result ≤ 10 }
    {
        if self.has_headers { 0 } else { HEADER }
    }
}

impl Device for Tun {
    ghost use Rattle.std.specs.Prelude.{◌≢◌};
    ghost use Rattle.devices.specs.declared.tun.Readiness.TheVariants.{Packet};

    ghost has_none = { λ d. d.ready ≢ Packet };

    fn receive(&mut self, room: &mut [u8]) -> Option<usize> {
        if self.ready != Readiness::Packet {
            return None;
        }
        let start = self.start();
        room[..HEADER].fill(0);
        let got = libc::read(self.descriptor, &mut room[start..LONGEST_FRAME]);
        let Ok(count) = usize::try_from(got) else {
            self.ready = Readiness::Idle;
            return None;
        };
        if count + start <= HEADER {
            self.ready = Readiness::Idle;
            return None;
        }
        let len = count + start;
        self.came = self.came.saturating_add(1);
        self.came_bytes = self.came_bytes.saturating_add((len - HEADER) as u64);
        Some(len)
    }

    fn send(&mut self, frame: &[u8]) -> bool {
        let bytes = &frame[self.start()..];
        usize::try_from(libc::write(self.descriptor, bytes)) == Ok(bytes.len())
    }
}

fn asked(tun: &Tun) -> pollfd {
    pollfd {
        fd: tun.descriptor,
        events: POLLIN,
        revents: 0,
    }
}

fn told(told: pollfd) -> Readiness {
    if told.revents & (POLLERR | POLLHUP | POLLNVAL) != 0 {
        Readiness::Gone
    } else if told.revents & POLLIN != 0 {
        Readiness::Packet
    } else {
        Readiness::Idle
    }
}

// Whether something comes within so many milliseconds. What comes soon is found without sleeping, since being woken
// takes longer than these looks.
fn comes(both: &mut [pollfd; 2], most: u16) -> bool {
    for _look in 0..LOOKS {
        if libc::net::poll(both, 0) > 0 {
            return true;
        }
    }
    libc::net::poll(both, i32::from(most)) > 0
}

/// Waits until one of the devices has a packet or is gone, or a signal came, but no longer than so many milliseconds.
/// Then `ready` says what each is ready for.
pub fn wait(lan: &mut Tun, wan: &mut Tun, most: u16) {
    let mut both = [asked(lan), asked(wan)];
    lan.ready = Readiness::Idle;
    wan.ready = Readiness::Idle;
    if !comes(&mut both, most) {
        return;
    }
    lan.ready = told(both[0]);
    wan.ready = told(both[1]);
}
