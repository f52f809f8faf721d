//! Several external addresses, and mappings that let in by the remote address alone.
use crate::shared::Outside;
use crate::worked::first_frame::all_taken;
use crate::worked::legs::{HAIRPIN, MASQUERADE_AND_FILTER, STRANGER_TO_INSIDE};
use crate::worked::script::{play_as, play_each_as};
use crate::worked::shared::{FIRST, MASQUERADE};
use packet::Filtering;
use std::alloc::Global;
use std::test::Fail;

// 203.0.113.1 and 203.0.113.2.
const TWO: Outside = Outside {
    pool: &[0xcb00_7101, 0xcb00_7102],
    filtering: Filtering::Endpoint,
};

const TWO_BY_ADDRESS: Outside = Outside {
    filtering: Filtering::Address,
    ..TWO
};

// A second host from the same port, while the first address has ports; what comes from the second address; and what goes
// there.
const FIRST_ADDRESS_SERVES: &str = "\
lan 1000 4500001c00010000 40118eea c0a80103 c6336407 13880035 0008003b
= wan 4500001c00010000 3f111594 cb007101 c6336407 138a0035 000885e2
wan 1000 4500001c00010000 401102cc cb007102 cb007101 13881388 000860c9
= drop 11
wan 1000 4500001c00010000 40111493 c6336407 cb007102 00351388 000885e3
= drop 13
lan 1000 4500001c00010000 40117d22 c0a80103 cb007102 17701388 0008d737
= drop 13
: udp 192.168.1.2:5000 203.0.113.1:5000 198.51.100.7:53 - inside 0 at 1000, udp 192.168.1.3:5000 203.0.113.1:5002 198.51.100.7:53 - inside 0 at 1000";

const SNAT_TO_SECOND: &str = "\
load 1000 table ip n { chain p { type nat hook postrouting priority 100; snat to 203.0.113.2; }; }
= loaded";

const FIRST_FROM_SECOND: &str = "\
lan 1000 4500001c00010000 40118eeb c0a80102 c6336407 13880035 0008003c
= wan 4500001c00010000 3f111593 cb007102 c6336407 13880035 000885e3
: udp 192.168.1.2:5000 203.0.113.2:5000 198.51.100.7:53 - inside 0 at 1000";

// Of a host at the first address snat takes a second port to the second one; masquerade goes on with the first.
const NEIGHBOUR: &str = "\
lan 1000 4500001c00010000 40118eea c0a80103 c6336407 13880035 0008003b
= wan 4500001c00010000 3f111594 cb007101 c6336407 13880035 000885e4";

const SECOND_PORT: &str = "\
lan 1000 4500001c00010000 40118eea c0a80103 c6336407 13890035 0008003a
= wan 4500001c00010000 3f111593 cb007102 c6336407 13890035 000885e2";

const THIRD_PORT: &str = "\
lan 1000 4500001c00010000 40118eea c0a80103 c6336407 138b0035 00080038
= wan 4500001c00010000 3f111594 cb007101 c6336407 138b0035 000885e1";

static SCRIPTS: [&[&str]; 4] = [
    &[MASQUERADE, FIRST, FIRST_ADDRESS_SERVES],
    &[MASQUERADE, FIRST, HAIRPIN],
    &[SNAT_TO_SECOND, FIRST_FROM_SECOND],
    &[
        MASQUERADE,
        NEIGHBOUR,
        SNAT_TO_SECOND,
        SECOND_PORT,
        MASQUERADE,
        THIRD_PORT,
    ],
];

// Each odd port below 1024 of the first address is taken. A host without a mapping goes to the second address, and stays
// there with its other ports, by TCP too, and in a hairpin. The other host stays at the first, in a hairpin to the second
// too.
const NEXT_ADDRESS: &str = "\
lan 1000 4500001c00010000 40118eea c0a80103 c6336407 00070035 000813bc
= wan 4500001c00010000 3f111593 cb007102 c6336407 00070035 00089964
lan 1000 4500001c00010000 40118eea c0a80103 c6336407 13880035 0008003b
= wan 4500001c00010000 3f111593 cb007102 c6336407 13880035 000885e3
lan 1000 4500002800010000 40068ee9 c0a80103 c6336407 9c4001bb 00000001 00000000 5002ffff 26000000
= wan 4500002800010000 3f061592 cb007102 c6336407 9c4001bb 00000001 00000000 5002ffff aba80000
lan 1000 4500001c00010000 40117d23 c0a80103 cb007101 17701388 0008d738
= lan 4500001c00010000 3f117e23 cb007102 c0a80102 17701388 0008d738
lan 1000 4500001c00010000 40117d23 c0a80102 cb007102 17701388 0008d738
= lan 4500001c00010000 3f117e23 cb007101 c0a80103 17701388 0008d738
at 1300
= ticked
:
lan 1300 4500001c00010000 40118eea c0a80103 c6336407 13880035 0008003b
= wan 4500001c00010000 3f111594 cb007101 c6336407 13880035 000885e4
: udp 192.168.1.3:5000 203.0.113.1:5000 198.51.100.7:53 - inside 0 at 1300";

// A host that has a mapping at the first address finds no port there.
const NO_PORT_AT_ITS_ADDRESS: &str = "\
lan 1000 4500001c00010000 40118eea c0a80103 c6336407 00070035 000813bc
= drop 19
lan 1000 4500002800010000 40068ee9 c0a80103 c6336407 9c4001bb 00000001 00000000 5002ffff 26000000
= wan 4500002800010000 3f061593 cb007101 c6336407 9c4001bb 00000001 00000000 5002ffff aba90000";

// A stranger is dropped; a host that was written to may answer from another port.
const STRANGER: &str = "\
wan 1000 4500001c00010000 40111492 c6336409 cb007101 1b581388 00086abf
= drop 14";

const OTHER_PORT: &str = "\
: udp 192.168.1.2:5000 203.0.113.1:5000 198.51.100.7:53 - inside 0 at 1000
wan 1000 4500001c00010000 40111494 c6336407 cb007101 00361388 000885e3
= lan 4500001c00010000 3f118feb c6336407 c0a80102 00361388 0008003b
: udp 192.168.1.2:5000 203.0.113.1:5000 198.51.100.7:53 - inside 0 at 1000, udp 192.168.1.2:5000 203.0.113.1:5000 198.51.100.7:54 - remote 0 at 1000";

// A rule drops what the mapping lets in.
const OTHER_PORT_DROPPED: &str = "\
wan 1000 4500001c00010000 40111494 c6336407 cb007101 00361388 000885e3
= drop 16";

const HAIRPIN_FILTERED: &str = "\
lan 1000 4500001c00010000 40117d23 c0a80103 cb007101 17701388 0008d738
= drop 14
: udp 192.168.1.2:5000 203.0.113.1:5000 198.51.100.7:53 - inside 0 at 1000";

// The mapping lives by another session, when the one with the remote address is over.
const KNOWN_NO_MORE: &str = "\
lan 1200 4500001c00010000 40118eea c0a80102 c6336408 13880035 0008003b
= wan 4500001c00010000 3f111593 cb007101 c6336408 13880035 000885e3
wan 1299 4500001c00010000 40111494 c6336407 cb007101 00361389 000885e2
= drop 13
wan 1300 4500001c00010000 40111494 c6336407 cb007101 00361388 000885e3
= drop 14
wan 1300 4500001c00010000 40111493 c6336408 cb007101 00361388 000885e2
= lan 4500001c00010000 3f118fea c6336408 c0a80102 00361388 0008003a";

// What rules translate to a host isn't filtered: a hairpin to its mapping, and a stranger.
const MASQUERADE_AND_DNAT: &str = "\
load 1000 table ip nat { chain post { type nat hook postrouting priority srcnat; oifname \"wan\" masquerade; }; } table ip d { chain pre { type nat hook prerouting priority dstnat; udp dport 5000 dnat to 192.168.1.2:5000; tcp dport 443 dnat to 192.168.1.9:8443; }; }
= loaded";

const DNAT_TO_SECOND: &str = "\
wan 1000 4500002800010000 40061490 c6336409 cb007102 1b5801bb 00000001 00000000 5002ffff 2c8f0000
= lan 4500002800010000 3f068fe1 c6336409 c0a80109 1b5820fb 00000001 00000000 5002ffff 87a00000";

static BY_ADDRESS: [&[&str]; 6] = [
    &[MASQUERADE, FIRST, STRANGER, OTHER_PORT],
    &[MASQUERADE_AND_FILTER, FIRST, STRANGER, OTHER_PORT_DROPPED],
    &[MASQUERADE, FIRST, HAIRPIN_FILTERED],
    &[MASQUERADE, FIRST, STRANGER_TO_INSIDE, STRANGER],
    &[MASQUERADE, FIRST, KNOWN_NO_MORE],
    &[MASQUERADE_AND_DNAT, FIRST, HAIRPIN, DNAT_TO_SECOND],
];

// Where each odd port below 1024 of the first address is taken.
fn play_full(alloc: Global) -> Result<(), Fail> {
    let script = all_taken(alloc)?;
    let taken = script.as_str();
    play_as(alloc, TWO, &[MASQUERADE, FIRST, taken, NEXT_ADDRESS])?;
    let parts = [MASQUERADE, NEIGHBOUR, taken, NO_PORT_AT_ITS_ADDRESS];
    play_as(alloc, TWO, &parts)
}

#[test]
fn pool(rt: HostRuntime) -> Result<(), Fail> {
    play_each_as(rt.alloc(), TWO, &SCRIPTS)?;
    play_each_as(rt.alloc(), TWO_BY_ADDRESS, &BY_ADDRESS)?;
    play_full(rt.alloc())
}
