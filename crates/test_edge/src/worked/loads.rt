//! Rulesets that load and that are refused, and streams that end early.
use crate::worked::script::{expect_end, play_each};
use crate::worked::shared::{FIRST, MASQUERADE};
use socket_edge::EdgeFault;
use std::alloc::Global;
use std::test::Fail;

const SECOND_HOST: &str = "\
lan 1000 4500001c00010000 40118eea c0a80103 c6336407 13880035 0008003b
= wan 4500001c00010000 3f111594 cb007101 c6336407 138a0035 000885e2
: udp 192.168.1.2:5000 203.0.113.1:5000 198.51.100.7:53 - inside 0 at 1000, udp 192.168.1.3:5000 203.0.113.1:5002 198.51.100.7:53 - inside 0 at 1000";

const NO_CHECKSUM: &str = "\
lan 1000 4500001c00010000 40118eeb c0a80102 c6336407 13880035 00080000
= wan 4500001c00010000 3f111594 cb007101 c6336407 13880035 00080000";

const WRONG_CHECKSUM: &str = "\
lan 1000 4500001c00010000 40118eeb c0a80102 c6336407 13880035 0008003d
= wan 4500001c00010000 3f111594 cb007101 c6336407 13880035 000885e5";

const ZERO_CHECKSUM: &str = "\
lan 1000 4500001c00010000 40118eeb c0a80102 c6336407 996c0035 00087a57
= wan 4500001c00010000 3f111594 cb007101 c6336407 996c0035 0008ffff";

const LOOP: &str = "\
load 1000 table ip t { chain c { jump c; }; }
= refused";

const EMPTY_TEXT: &str = "\
load 1000
= loaded
lan 1000 4500001c00010000 40118eeb c0a80102 c6336407 13880035 0008003c
= wan 4500001c00010000 3f118feb c0a80102 c6336407 13880035 0008003c
lan 1000 4500001c00010000 40114695 0a000001 c6336407 13880035 0008b7e5
= drop 11";

const CUT: &str = "\
02 00 00000065 00000000000003e8 7461626c65206970206e6174207b20636861696e20706f7374207b2074797065206e617420686f6f6b20706f7374726f7574696e67207072696f72697479207372636e61743b206f69666e616d65202277616e22206d6173717565726164653b207d3b207d 01 00 0000001c 00000000000003";

const CUT_HEADER: &str = "\
07 00 00000000 00000000000003";

const BAD_KIND: &str = "\
07 00 00000000 00000000000003e8";

const BAD_INTERFACE: &str = "\
03 01 00000001 0000000000000000";

const TOO_LONG: &str = "\
03 00 00000001 00000000000003e8";

// Behind `LOOP` the old rules stay.
static LOADS: [&[&str]; 6] = [
    &[MASQUERADE, FIRST, SECOND_HOST],
    &[MASQUERADE, NO_CHECKSUM],
    &[MASQUERADE, WRONG_CHECKSUM],
    &[MASQUERADE, ZERO_CHECKSUM],
    &[MASQUERADE, LOOP, FIRST],
    &[EMPTY_TEXT],
];

#[test]
fn loads(rt: HostRuntime) -> Result<(), Fail> {
    play_each(rt.alloc(), &LOADS)?;
    end_early(rt.alloc())
}

// How a stream ends, and the answers up to there.
const ENDS: [(&str, Result<u64, EdgeFault>, &str); 6] = [
    ("", Ok(0), ""),
    (CUT, Err(EdgeFault::Truncated), "loaded"),
    (CUT_HEADER, Err(EdgeFault::Truncated), ""),
    (BAD_KIND, Err(EdgeFault::BadKind), ""),
    (BAD_INTERFACE, Err(EdgeFault::BadInterface), ""),
    (TOO_LONG, Err(EdgeFault::TooLong), ""),
];

fn end_early(alloc: Global) -> Result<(), Fail> {
    for (stream, end, answers) in &ENDS {
        expect_end(alloc, stream, *end, answers)?;
    }
    Ok(())
}
