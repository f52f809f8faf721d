//! Rulesets and packets that several tests share.

/// Every packet to wan leaves from the external address.
pub const MASQUERADE: &str = "\
load 1000 table ip nat { chain post { type nat hook postrouting priority srcnat; oifname \"wan\" masquerade; }; }
= loaded";

/// A packet of UDP from 192.168.1.2:5000 to 198.51.100.7:53, which leaves from 203.0.113.1:5000.
pub const FIRST: &str = "\
lan 1000 4500001c00010000 40118eeb c0a80102 c6336407 13880035 0008003c
= wan 4500001c00010000 3f111594 cb007101 c6336407 13880035 000885e4";
