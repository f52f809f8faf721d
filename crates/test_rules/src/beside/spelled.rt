//! The text of a drawn ruleset.
use crate::beside::drawn::{Head, Rule, Ruleset, Side, Test, Verdict};
use std::alloc::{AllocError, Global};

fn is_address(head: Head) -> bool {
    matches!(head, Head::Saddr | Head::Daddr)
}

fn word(head: Head) -> &'static str {
    match head {
        Head::Saddr => "ip saddr",
        Head::Daddr => "ip daddr",
        Head::TcpSport => "tcp sport",
        Head::TcpDport => "tcp dport",
        Head::UdpSport => "udp sport",
        Head::UdpDport => "udp dport",
        Head::State => "ct state",
    }
}

fn value(alloc: Global, is_address: bool, number: u32) -> Result<String, AllocError> {
    if is_address {
        return format!(in alloc; "10.0.{}.{}", number / 256 % 256, number % 256);
    }
    format!(in alloc; "{number}")
}

fn range(alloc: Global, is_address: bool, low: u32, high: u32) -> Result<String, AllocError> {
    let low = value(alloc, is_address, low)?;
    let high = value(alloc, is_address, high)?;
    format!(in alloc; "{low}-{high}")
}

fn two(alloc: Global, is_address: bool, one: u32, other: u32) -> Result<String, AllocError> {
    let one = value(alloc, is_address, one)?;
    let other = value(alloc, is_address, other)?;
    format!(in alloc; "{{ {one}, {other} }}")
}

fn side(alloc: Global, head: Head, side: Side) -> Result<String, AllocError> {
    if let Head::State = head {
        return String::from_str(alloc, "established");
    }
    let is_address = is_address(head);
    match side {
        Side::One(number) => value(alloc, is_address, number),
        Side::Range(low, high) => range(alloc, is_address, low, high),
        Side::Two(one, other) => two(alloc, is_address, one, other),
        Side::Set if is_address => String::from_str(alloc, "@hosts"),
        Side::Set => String::from_str(alloc, "@doors"),
    }
}

fn test(alloc: Global, test: Test) -> Result<String, AllocError> {
    let head = word(test.head);
    let side = side(alloc, test.head, test.side)?;
    if test.negated {
        return format!(in alloc; "{head} != {side}");
    }
    format!(in alloc; "{head} {side}")
}

// In the chain that is called a jump or a goto is a return.
fn end(verdict: Verdict, is_called: bool) -> &'static str {
    match verdict {
        Verdict::Accept => "accept",
        Verdict::Drop => "drop",
        Verdict::Continue => "continue",
        Verdict::Jump if !is_called => "jump called",
        Verdict::Goto if !is_called => "goto called",
        Verdict::Return | Verdict::Jump | Verdict::Goto => "return",
    }
}

fn matches(alloc: Global, rule: Rule) -> Result<String, AllocError> {
    let first = test(alloc, rule.first)?;
    let Some(second) = rule.second else {
        return Ok(first);
    };
    let second = test(alloc, second)?;
    format!(in alloc; "{first} {second}")
}

fn rules(alloc: Global, rules: &[Rule], is_called: bool) -> Result<String, AllocError> {
    let mut text = String::new(alloc);
    for rule in rules {
        text.push_str(matches(alloc, *rule)?.as_str())?;
        text.push_str(" ")?;
        text.push_str(end(rule.verdict, is_called))?;
        text.push_str("\n")?;
    }
    Ok(text)
}

fn set(alloc: Global, is_address: bool, set: (u32, u32, u32)) -> Result<String, AllocError> {
    let one = value(alloc, is_address, set.0)?;
    let others = range(alloc, is_address, set.1, set.2)?;
    format!(in alloc; "elements = {{ {one}, {others} }}")
}

/// The text of the ruleset.
pub fn text(alloc: Global, ruleset: &Ruleset) -> Result<String, AllocError> {
    let hosts = set(alloc, true, ruleset.set)?;
    let doors = set(alloc, false, ruleset.set)?;
    let called = rules(alloc, &ruleset.called, true)?;
    let first = rules(alloc, &ruleset.first, false)?;
    let later = rules(alloc, &ruleset.later, false)?;
    let policy = if ruleset.drops { "drop" } else { "accept" };
    format!(in alloc;
        "table ip f {{
        set hosts {{ type ipv4_addr; {hosts}; }}
        set doors {{ type inet_service; {doors}; }}
        chain called {{ {called} }}
        chain later {{ type filter hook forward priority 10; policy {policy}; {later} }}
        chain first {{ type filter hook forward priority 0; policy {policy}; {first} }}
        }}"
    )
}
