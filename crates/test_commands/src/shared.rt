//! The requests of a first packet and their answers, and directories of a test.
use checking::bounds;
use commands::{open, replay};
use file_disk::FileDisk;
use gateway::Gateway;
use options::{Opening, Sides};
use refusals::{Refusal, Stop};
use std::alloc::{AllocFailed, Global};
use std::fs;
use std::test::Fail;

/// 192.168.0.0/16 inside, 203.0.113.1 outside, whose mappings let everyone in.
pub const SIDES: Sides<'static> = Sides {
    lan: "lan",
    wan: "wan",
    inside: "192.168.0.0/16",
    external: "203.0.113.1",
    filtering: "endpoint",
};

/// At moment 1000 a ruleset that masquerades what goes out to wan, and a packet of UDP from 192.168.1.2:5000 to
/// 198.51.100.7:53, from lan.
pub const REQUESTS: &[u8] =
    b"\x02\x00\x00\x00\x00\x65\x00\x00\x00\x00\x00\x00\x03\xe8table ip nat { chain post { type nat hook postrouting priority srcnat; oifname \"wan\" masquerade; }; }\x01\x00\x00\x00\x00\x1c\x00\x00\x00\x00\x00\x00\x03\xe8\x45\x00\x00\x1c\x00\x01\x00\x00\x40\x11\x8e\xeb\xc0\xa8\x01\x02\xc6\x33\x64\x07\x13\x88\x00\x35\x00\x08\x00\x3c";

/// The ruleset is loaded, and the packet leaves on wan from 203.0.113.1:5000.
pub const ANSWERS: &[u8] =
    b"\x03\x00\x00\x00\x00\x00\x00\x00\x01\x00\x00\x00\x00\x01\x00\x00\x00\x00\x00\x00\x00\x02\x00\x00\x00\x1d\x01\x45\x00\x00\x1c\x00\x01\x00\x00\x3f\x11\x15\x94\xcb\x00\x71\x01\xc6\x33\x64\x07\x13\x88\x00\x35\x00\x08\x85\xe4";

/// The session that there is then.
pub const LINE: &[u8] =
    b"udp 192.168.1.2:5000      203.0.113.1:5000      198.51.100.7:53       -\n";

/// An empty directory.
pub fn fresh(rt: &HostRuntime, directory: &str) -> Result<(), Fail> {
    let _ = fs::remove_dir_all(rt, directory);
    fs::create_dir(rt, directory)?;
    Ok(())
}

/// Whether a file has these bytes.
pub fn is_file(rt: &HostRuntime, path: &str, expected: &[u8]) -> Result<bool, Fail> {
    let bytes = fs::read(rt, path)?;
    Ok(bytes.as_slice() == expected)
}

/// A gateway over files. It lies behind a box, so that a function which lets it go does so by one call.
pub type OverFiles = Box<Gateway<FileDisk>>;

/// A gateway over the files of a directory.
pub fn opened(
    rt: &HostRuntime,
    sides: &Sides<'_>,
    directory: &str,
    moment: u64,
) -> Result<OverFiles, Stop> {
    let bounds = bounds(rt.alloc(), sides)?;
    match open(rt, sides, bounds, Opening { directory, moment }) {
        Ok(gateway) => boxed(rt.alloc(), gateway),
        Err(stop) => Err(stop),
    }
}

fn boxed(alloc: Global, gateway: Gateway<FileDisk>) -> Result<OverFiles, Stop> {
    match Box::new(alloc, gateway) {
        Ok(gateway) => Ok(gateway),
        Err(AllocFailed { value }) => {
            drop(value.into_disk());
            Err(Stop::from(Refusal::NoMemory))
        }
    }
}

/// Lets a gateway go. All of it but the disk goes in its own crate.
pub fn close(gateway: OverFiles) {
    drop(Box::into_inner(gateway).into_disk());
}

/// The answers to a stream of requests.
pub fn answered(
    rt: &HostRuntime,
    gateway: &mut OverFiles,
    requests: &[u8],
) -> Result<Vec<u8>, Stop> {
    let mut reader = requests;
    let mut answers = Vec::new(rt.alloc());
    replay(rt.alloc(), &mut reader, &mut answers, gateway)?;
    Ok(answers)
}
