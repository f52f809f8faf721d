//! The two descriptors, which were handed to the program open.
use carrying::Between;
use checking::read_file;
use descriptors::device_of;
use devices::Tun;
use options::Descriptors;
use refusals::{Refusal, Stop};
use std::alloc::Global;
use std::fs::Files;

/// The most bytes that are read of what the system tells of a descriptor.
const MOST_TOLD: u64 = 4_096;

/// A descriptor, and the option that names it.
#[derive(Clone, Copy, Drop)]
struct Named {
    option: &'static str,
    descriptor: u64,
}

// A descriptor isn't taken, for this reason.
fn unfit(alloc: Global, named: Named, why: &str) -> Stop {
    let Named { option, descriptor } = named;
    Stop::with(
        Refusal::File,
        format!(in alloc;
            "{option} {descriptor} {why}: hand both TUN devices over open, as with-tuns does"
        ),
    )
}

// What the system tells of a descriptor.
fn told_of(rt: &impl Files, alloc: Global, named: Named) -> Result<Vec<u8>, Stop> {
    let path = format!(in alloc; "/proc/self/fdinfo/{}", named.descriptor)?;
    match read_file(rt, alloc, path.as_str(), MOST_TOLD) {
        Ok(told) => Ok(told),
        Err(_) => Err(unfit(alloc, named, "isn't open")),
    }
}

// The device of which this is told.
fn named_device(alloc: Global, named: Named, told: &[u8]) -> Result<&[u8], Stop> {
    match device_of(told) {
        Ok(name) => Ok(name),
        Err(why) => {
            let words = format!(in alloc; "{why}")?;
            Err(unfit(alloc, named, words.as_str()))
        }
    }
}

fn tun_of(alloc: Global, named: Named, has_headers: bool) -> Result<Tun, Stop> {
    match i32::try_from(named.descriptor) {
        Ok(descriptor) => Ok(Tun::new(descriptor, has_headers)),
        Err(_) => Err(unfit(alloc, named, "isn't open")),
    }
}

// Tests both descriptors.
fn test(rt: &impl Files, alloc: Global, lan: Named, wan: Named) -> Result<(), Stop> {
    let lan_told = told_of(rt, alloc, lan)?;
    let wan_told = told_of(rt, alloc, wan)?;
    let lan_device = named_device(alloc, lan, lan_told.as_slice())?;
    let wan_device = named_device(alloc, wan, wan_told.as_slice())?;
    if lan_device == wan_device {
        return Err(unfit(alloc, wan, "has a device of the same name as --lan-fd"));
    }
    Ok(())
}

/// The two devices under these descriptors.
///
/// # Errors
///
/// `File` where one of them isn't that of a TUN device, which doesn't wait and is open for reading and writing, or both
/// devices have one name; `NoMemory` where memory is refused.
pub fn attach(
    rt: &impl Files,
    alloc: Global,
    asked: Descriptors,
) -> Result<Between<Tun, Tun>, Stop> {
    let lan = Named {
        option: "--lan-fd",
        descriptor: asked.lan,
    };
    let wan = Named {
        option: "--wan-fd",
        descriptor: asked.wan,
    };
    test(rt, alloc, lan, wan)?;
    Ok(Between {
        lan: tun_of(alloc, lan, asked.has_headers)?,
        wan: tun_of(alloc, wan, asked.has_headers)?,
    })
}
