//! The command `tun`: what it takes, what it says of itself, and what its words come to.
use crate::grammar::{Argument, Form, Verb};
use clap::ArgMatches;
use options::{Descriptors, Opening, Report, Sides, Tunnel};

/// The name of the command.
pub(crate) const NAME: &str = "tun";

/// The command. It opens a gateway, but its moment may be the clock's.
pub(crate) const VERB: Verb = Verb {
    name: NAME,
    about: "Carries packets between two TUN devices, and is a router by itself",
    more: DEVICES,
    opens: false,
    looks: false,
    own: OWN,
};

const OWN: &[Argument] = &[
    Argument {
        name: "dir",
        form: Form::Text,
        value: "DIR",
        default: None,
        help: "The directory of natgw.a and natgw.b, which are made where they are missing",
    },
    Argument {
        name: "at",
        form: Form::Number,
        value: "N",
        default: Some("0"),
        help: "The opening moment, in seconds; 0 is the seconds since 1970",
    },
    Argument {
        name: "lan-fd",
        form: Form::Number,
        value: "N",
        default: None,
        help: "The descriptor of the inside's device, which is open already",
    },
    Argument {
        name: "wan-fd",
        form: Form::Number,
        value: "N",
        default: None,
        help: "The descriptor of the outside's device",
    },
    Argument {
        name: "rules",
        form: Form::Text,
        value: "FILE",
        default: None,
        help: "The ruleset, which is loaded at the start and whenever the file changes",
    },
    Argument {
        name: "no-offload",
        form: Form::Flag,
        value: "",
        default: None,
        help: "The devices were opened without a header in front of each packet",
    },
    Argument {
        name: "report",
        form: Form::Number,
        value: "N",
        default: Some("0"),
        help: "Every so many seconds the counts are written to --report-file; 0 is never",
    },
    Argument {
        name: "report-file",
        form: Form::Text,
        value: "FILE",
        default: Some("natgw.prom"),
        help: "The file of the counts, for Prometheus' node exporter",
    },
    Argument {
        name: "log-drops",
        form: Form::Number,
        value: "N",
        default: Some("0"),
        help: "Of at most so many dropped packets a second, a line each on standard error",
    },
];

const DEVICES: &str = "\
Both devices are handed over open, by adapters/with-tuns or another launcher, so natgw itself needs
no power over the network. They are TUN devices without packet information, open with O_NONBLOCK,
with a header of 10 bytes in front of each packet (IFF_VNET_HDR), or by --no-offload without.
What isn't such a descriptor is refused before any file is opened.

The ruleset's file is looked at once a second. Standard error says whether it is loaded; a faulty one
changes nothing. A device that is full or down loses packets, as a link does. natgw ends where a
device is gone for good, or its own files fail; then it tells the counts.

With --log-drops a line says of a dropped packet the moment in seconds, the cause, the side that it
came from, protocol, source, destination and flags of TCP; - is what isn't known:
  dropped 1764525848 NoSession wan tcp 198.51.100.7:443 203.0.113.1:40000 syn,ack

Example: makes both devices, and starts natgw as a user without any power.
  adapters/with-tuns --lan-netns lan --user natgw -- natgw tun --dir state --rules rules.nft \\
      --inside 192.168.0.0/16 --external 203.0.113.1";

fn read_descriptors(matches: &ArgMatches<'_>) -> Descriptors {
    Descriptors {
        lan: matches.get_one::<u64>("lan-fd").unwrap_or(0),
        wan: matches.get_one::<u64>("wan-fd").unwrap_or(0),
        has_headers: !matches.get_flag("no-offload"),
    }
}

fn read_report<'a>(matches: &ArgMatches<'a>) -> Report<'a> {
    Report {
        seconds: matches.get_one::<u64>("report").unwrap_or(0),
        path: matches.get_str("report-file").unwrap_or(""),
    }
}

/// What the words of the command come to.
pub(crate) fn read_tunnel<'a>(
    sides: Sides<'a>,
    opening: Opening<'a>,
    matches: &ArgMatches<'a>,
) -> Tunnel<'a> {
    Tunnel {
        sides,
        opening,
        descriptors: read_descriptors(matches),
        rules: matches.get_str("rules").unwrap_or(""),
        report: read_report(matches),
        log_drops: matches.get_one::<u64>("log-drops").unwrap_or(0),
    }
}
