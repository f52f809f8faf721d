//! The rules as they were drawn, one by one.
use crate::beside::drawn::{Head, Packet, Rule, Ruleset, Side, Test, Verdict};

// The number that is asked for, where the packet is of the protocol that the head demands.
fn asked(head: Head, packet: Packet) -> Option<u32> {
    match head {
        Head::Saddr => Some(packet.src),
        Head::Daddr => Some(packet.dst),
        Head::TcpSport if packet.is_tcp => Some(packet.sport),
        Head::TcpDport if packet.is_tcp => Some(packet.dport),
        Head::UdpSport if !packet.is_tcp => Some(packet.sport),
        Head::UdpDport if !packet.is_tcp => Some(packet.dport),
        Head::State => Some(u32::from(packet.is_established)),
        _ => None,
    }
}

fn is_inside(head: Head, side: Side, set: (u32, u32, u32), number: u32) -> bool {
    if let Head::State = head {
        return number == 1;
    }
    match side {
        Side::One(own) => number == own,
        Side::Range(low, high) => low <= number && number <= high,
        Side::Two(one, other) => number == one || number == other,
        Side::Set => number == set.0 || (set.1 <= number && number <= set.2),
    }
}

fn holds(test: Test, set: (u32, u32, u32), packet: Packet) -> bool {
    match asked(test.head, packet) {
        None => false,
        Some(number) => is_inside(test.head, test.side, set, number) != test.negated,
    }
}

fn is_met(rule: Rule, set: (u32, u32, u32), packet: Packet) -> bool {
    match rule.second {
        None => holds(rule.first, set, packet),
        Some(second) => holds(rule.first, set, packet) && holds(second, set, packet),
    }
}

// Whether the called chain passes the packet or drops it, or neither. It calls no other: a jump or goto of its own ends
// it.
fn called(ruleset: &Ruleset, packet: Packet) -> Option<bool> {
    for rule in &ruleset.called {
        if is_met(*rule, ruleset.set, packet) {
            match rule.verdict {
                Verdict::Accept => return Some(true),
                Verdict::Drop => return Some(false),
                Verdict::Continue => {}
                Verdict::Return | Verdict::Jump | Verdict::Goto => return None,
            }
        }
    }
    None
}

// Whether a base chain passes the packet.
fn base(ruleset: &Ruleset, rules: &[Rule], packet: Packet) -> bool {
    for rule in rules {
        if !is_met(*rule, ruleset.set, packet) {
            continue;
        }
        match rule.verdict {
            Verdict::Accept => return true,
            Verdict::Drop => return false,
            Verdict::Return => return !ruleset.drops,
            Verdict::Continue => {}
            Verdict::Jump => {
                if let Some(passes) = called(ruleset, packet) {
                    return passes;
                }
            }
            Verdict::Goto => return called(ruleset, packet).unwrap_or(!ruleset.drops),
        }
    }
    !ruleset.drops
}

/// Whether the packet passes both base chains.
pub fn passes(ruleset: &Ruleset, packet: Packet) -> bool {
    base(ruleset, &ruleset.first, packet) && base(ruleset, &ruleset.later, packet)
}
