//! The command, put together.
ghost use Rattle.std.specs.Prelude.{◌≡◌, [], false};
ghost use Rattle.commands.specs.Working.{IsMadeAnew};

use crate::attaching::attach;
use crate::chores::Chores;
use crate::report::line;
use carrying::{Between, Carrier};
use checking::bounds;
use commands::{keep_freed_memory, let_go, of_edge, open_anew, tell_opened};
use devices::Tun;
use disk_model::Disk;
use gateway::Gateway;
use options::{Opening, Tunnel};
use refusals::Stop;
use std::alloc::Global;
use std::fs::Files;
use std::io::{Eprint, Write};

/// Carries packets between two devices until it fails. The counts are told on standard error then.
///
/// # Errors
///
/// In this order:
///
/// - `Config` where the options are no configuration.
/// - `File` where a descriptor isn't that of a TUN device, both have one name, or the ruleset's file can't be read.
/// - What `open_anew` says of the two files.
/// - A fault of the gateway, or `File` where a device is gone for good.
///
/// `NoMemory` may come at any place.
pub fn run(rt: &HostRuntime, asked: &Tunnel<'_>) -> Result<(), Stop> {
    let alloc = rt.alloc();
    let config = bounds(alloc, &asked.sides)?;
    let devices = attach(rt, alloc, asked.descriptors)?;
    let chores = Chores::new(rt, alloc, asked)?;
    let opening = Opening {
        directory: asked.opening.directory,
        moment: chores.first(),
    };
    keep_freed_memory(alloc);
    let mut gateway = open_anew(rt, &asked.sides, config, opening)?;
    tell_opened(rt, opening.directory, &gateway);
    let ended = carry(rt, alloc, asked.log_drops, chores, devices, &mut gateway);
    let_go(alloc, opening.directory, gateway, ended)
}

// Carries packets until that fails, and tells the counts. Of so many dropped packets a second a line is written.
fn carry<R: Files + Eprint, D: Disk + Drop>(
    rt: &R,
    alloc: Global,
    log_drops: u64,
    mut chores: Chores<'_, R>,
    mut devices: Between<Tun, Tun>,
    gateway: &mut Gateway<D>,
) -> Result<(), Stop>
    requires stands { gateway.old.fallen ≡ false }
    requires none { gateway.old.told.held ≡ [] }
    requires anew { IsMadeAnew gateway.old }
{
    let mut carrier = Carrier::new(alloc, chores.first(), log_drops)?;
    let carried = carrier.carry(&mut chores, &mut devices, gateway);
    if let Ok(counts) = line(alloc, &devices, carrier.counts()) {
        let words = std::str::from_utf8(counts.as_slice()).unwrap_or("");
        let _ = eprintln!(rt; "{words}");
    }
    match carried {
        Ok(()) => chores.ended(),
        Err(fault) => Err(Stop::from(of_edge(fault))),
    }
}
