//! Texts of rulesets, each of which takes another way through the reader.
use crate::shared::{Stop, bounds, must};
use packet::Bounds;
use ruletext::fault_of;
use ruletree::{Kind, LoadFault};
use std::alloc::Global;
use std::io;

const TEXTS: [&str; 7] = [
    "table t { set s { type inet_service; elements = { 80, 90-99 }; }\nchain c { type nat hook prerouting priority 0; ip protocol tcp tcp dport vmap { 22 : accept, 23 : goto d }; }\nchain d { tcp dport @s dnat to 192.168.0.2; } }",
    "table t { chain a { jump b; } }",
    "table t { chain a { }\nchain a { } }",
    "table t { chain a { jump b; }\nchain b { goto a; } }",
    "table t { chain a { jump b; } chain b { jump c; } chain c { jump d; } chain d { jump e; } chain e { jump f; } chain f { jump g; } chain g { jump h; } chain h { jump i; } chain i { jump j; } chain j { jump k; } chain k { jump l; } chain l { jump m; } chain m { jump n; } chain n { jump o; } chain o { jump p; } chain p { jump q; } chain q { jump r; } chain r { } }",
    "table t { chain c { ct state vmap { new : drop,\nnew : drop }; } }",
    "table t { chain c { ip saddr 10.0.0.0/8 frop; } }",
];

// What is told of a text, a second time where memory was refused.
fn read_twice(alloc: Global, text: &str, bounds: &Bounds) -> Option<LoadFault> {
    match fault_of(alloc, text.as_bytes(), bounds) {
        Some(fault) if fault.kind == Kind::NoMemory => fault_of(alloc, text.as_bytes(), bounds),
        read => read,
    }
}

fn print_read(rt: &HostRuntime, read: Option<LoadFault>) -> io::Result<()> {
    match read {
        None => println!(rt; "ok"),
        Some(fault) => println!(rt; "line {}: {}", fault.line, fault.kind),
    }
}

/// Reads each text, and prints what is told of it.
///
/// # Errors
///
/// Where printing fails, or memory was refused more than once.
pub fn read_each(rt: &HostRuntime) -> Result<(), Stop> {
    let bounds = bounds(rt.alloc())?;
    for text in &TEXTS {
        let read = read_twice(rt.alloc(), text, &bounds);
        must(print_read(rt, read).is_ok(), "printing")?;
    }
    Ok(())
}
