//! What is wrong, and what would be right, for each kind of fault.
use ruletree::Kind;

/// What is wrong where a fault of this kind is.
pub(crate) fn wrong(kind: Kind) -> &'static str {
    match kind {
        Kind::TooLong => "the first byte that is too many",
        Kind::Syntax => "which can't stand here",
        Kind::Unsupported => "which is no word that is known here",
        Kind::Family => "which is another family than ip and inet",
        Kind::UnknownChain => "a call of a chain that its table doesn't have, or that has a hook",
        Kind::UnknownSet => "a set that its table doesn't have",
        Kind::Duplicate => "which is there already",
        Kind::Loop => "which comes back to its chain by jumps and gotos",
        Kind::Depth => "which is on a path of more than 16 jumps and gotos",
        Kind::WrongHook =>
            "which can't be at its hook, or is reached from a hook where it can't be",
        Kind::WrongType => "which has another type than what belongs here",
        Kind::NotExternal => "which isn't an external address",
        Kind::NotInside => "which isn't inside",
        Kind::Limit => "which is one more than there may be",
        Kind::Overlap => "a key that shares a value with another key of its map",
        Kind::NoMemory => "memory was refused",
    }
}

/// What would be right in its place. For `Syntax`, `Unsupported` and `Family` this depends on the place: `what_fits`
/// tells it.
pub(crate) fn right(kind: Kind) -> &'static str {
    match kind {
        Kind::TooLong => "a text of at most 262144 bytes",
        Kind::Syntax | Kind::Unsupported | Kind::Family => "a text that goes on otherwise",
        Kind::UnknownChain => {
            "the name of a chain of the same table that has no line `type .. hook ..`"
        }
        Kind::UnknownSet => "`@` and the name of a set of the same table",
        Kind::Duplicate => {
            "one name for each table of a family and each chain and set of a table, and one `type` and one `elements` line in a set"
        }
        Kind::Loop => "chains of which none leads back to itself",
        Kind::Depth => "at most 16 jumps and gotos on every path",
        Kind::WrongHook => {
            "filter chains at input, forward and output; nat chains at prerouting, input, output and postrouting, with dnat from prerouting or output, snat from input or postrouting, and masquerade from postrouting alone"
        }
        Kind::WrongType => {
            "addresses for saddr and daddr, ports up to 65535 for sport and dport, protocols up to 255 for protocol and l4proto, names of interfaces for iifname and oifname, states for ct state; sets with one such `type`; dnat, snat and masquerade from nat chains alone"
        }
        Kind::NotExternal => "an external address of the gateway",
        Kind::NotInside => "an address in one of the inside prefixes of the gateway",
        Kind::Limit => "at most 256 chains, 4096 rules, and 16384 elements and pairs in all",
        Kind::Overlap => "keys of which no two share a value",
        Kind::NoMemory => "more memory",
    }
}
