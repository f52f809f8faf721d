//! Packets that go out, and packets that are dropped.
use crate::worked::script::{play, play_each};
use crate::worked::shared::{FIRST, MASQUERADE};
use std::alloc::Global;
use std::test::Fail;

const LAST_PORTS: &str = "\
lan 1000 4500001c00010000 40118eeb c0a80102 c6336407 fffe0035 000813c5
= wan 4500001c00010000 3f111594 cb007101 c6336407 fffe0035 0008996d
lan 1000 4500001c00010000 40118eea c0a80103 c6336407 fffe0035 000813c4
= wan 4500001c00010000 3f111594 cb007101 c6336407 04000035 0008956c
lan 1000 4500001c00010000 40118eeb c0a80102 c6336407 03ff0035 00080fc5
= wan 4500001c00010000 3f111594 cb007101 c6336407 03ff0035 0008956d
lan 1000 4500001c00010000 40118eea c0a80103 c6336407 03ff0035 00080fc4
= wan 4500001c00010000 3f111594 cb007101 c6336407 00010035 0008996b";

const DROPS: &str = "\
lan 1000 4500001c00010000 0111cdeb c0a80102 c6336407 13880035 0008003c
= drop 10
lan 1000 4500001d00010000 40118eeb c0a80102 c6336407 13880035 0008003c
= drop 4
lan 1000 4500001c00012000 40116eeb c0a80102 c6336407 13880035 0008003c
= drop 6
lan 1000 4500001c00010000 40018efb c0a80102 c6336407 13880035 0008003c
= drop 7
lan 1000
= drop 1
:";

const NO_PORT: &str = "\
lan 1000 4500001c00010000 40118eea c0a80103 c6336407 00070035 000813bc
= drop 19
lan 1000 4500001c00010000 40118eea c0a80103 c6336407 00080035 000813bb
= wan 4500001c00010000 3f111594 cb007101 c6336407 00080035 00089964";

// A packet from 192.168.1.2, and what leaves, up to the port.
const ASKED: &str = "lan 1000 4500001c00010000 40118eeb c0a80102 c6336407 ";

const SENT: &str = "= wan 4500001c00010000 3f111594 cb007101 c6336407 ";

static SCRIPTS: [&[&str]; 3] = [
    &[MASQUERADE, FIRST],
    &[MASQUERADE, LAST_PORTS],
    &[MASQUERADE, DROPS],
];

#[test]
fn first_frame(rt: HostRuntime) -> Result<(), Fail> {
    play_each(rt.alloc(), &SCRIPTS)
}

/// A script in which one host takes each odd port below 1024, so that none of them is left for another host.
///
/// # Errors
///
/// A `Fail` where memory is refused.
pub fn all_taken(alloc: Global) -> Result<String, Fail> {
    let mut script = String::new(alloc);
    for half in 0..512_u32 {
        put_taken(alloc, &mut script, 2 * half + 1)?;
    }
    Ok(script)
}

// A packet from this port, and what leaves.
fn put_taken(alloc: Global, script: &mut String, port: u32) -> Result<(), Fail> {
    let ports = format!(in alloc; "{port:04x}0035 00080000\n")?;
    script.push_str(ASKED)?;
    script.push_str(ports.as_str())?;
    script.push_str(SENT)?;
    script.push_str(ports.as_str())?;
    Ok(())
}

#[test]
fn no_port(rt: HostRuntime) -> Result<(), Fail> {
    let script = all_taken(rt.alloc())?;
    play(rt.alloc(), &[MASQUERADE, script.as_str(), NO_PORT])
}
