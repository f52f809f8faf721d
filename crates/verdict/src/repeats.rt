//! Matches that a rule says twice. One of equal ones is enough, since all matches of a rule have to hold.
//!
//! Equal matches are sought by a table of slots, in which a match stands at the first free slot from its own on. The
//! table only guesses: what it tells is compared.

ghost use Rattle.std.specs.Prelude.{◌≡◌, IfOk, IsTrue};
ghost use Rattle.verdict.specs.Tests.{IsRepeat, IsSomeRepeat, AreFirst};

use ruletree::{Element, Head, Match, Side, Transport, Value};
use std::alloc::{AllocError, Global};

fn is_same_value(one: &Value, other: &Value) -> bool
    ensures { IsTrue result → one.now ≡ other.now }
{
    match (one, other) {
        (Value::Address(a), Value::Address(b)) => *a == *b,
        (Value::Prefix(a, m), Value::Prefix(b, n)) => *a == *b && *m == *n,
        (Value::Addresses(a, m), Value::Addresses(b, n)) => *a == *b && *m == *n,
        (Value::Number(a), Value::Number(b)) => *a == *b,
        (Value::Numbers(a, m), Value::Numbers(b, n)) => *a == *b && *m == *n,
        (Value::Name(a), Value::Name(b)) => a.as_slice() == b.as_slice(),
        (Value::Quoted(a), Value::Quoted(b)) => a.as_slice() == b.as_slice(),
        _ => false,
    }
}

fn is_same_element(one: &Element, other: &Element) -> bool
    ensures { IsTrue result → one.now ≡ other.now }
{
    is_same_value(&one.value, &other.value)
}

fn are_same(one: &[Element], other: &[Element]) -> bool
    ensures { IsTrue result → one.now ≡ other.now }
{
    let mut left = one;
    let mut right = other;
    while let [first, tail @ ..] = left {
        let [second, behind @ ..] = right else {
            return false;
        };
        if !is_same_element(first, second) {
            return false;
        }
        left = tail;
        right = behind;
    }
    right.is_empty()
}

fn is_same_side(one: &Side, other: &Side) -> bool
    ensures { IsTrue result → one.now ≡ other.now }
{
    match (one, other) {
        (Side::One(a), Side::One(b)) => is_same_element(a, b),
        (Side::Several(a), Side::Several(b)) => are_same(a.as_slice(), b.as_slice()),
        (Side::Named(a), Side::Named(b)) => a.name.as_slice() == b.name.as_slice(),
        _ => false,
    }
}

// Whether the matches are equal, in whatever lines they stand.
fn is_same(one: &Match, other: &Match) -> bool
    ensures { IsTrue result → one.now ≡ other.now }
{
    one.head == other.head && one.negated == other.negated && is_same_side(&one.side, &other.side)
}

// Whether the match at the one place stands before that at the other, and is equal.
fn is_repeat(matches: &[Match], before: usize, place: usize) -> bool
    ensures { IsTrue result → IsRepeat matches.now before place }
{
    before < place && place < matches.len() && is_same(&matches[before], &matches[place])
}

fn mixed(hash: u64, more: u64) -> u64 {
    (hash ^ more)
        .wrapping_mul(1_099_511_628_211)
        .rotate_left(23)
}

fn mixed_name(hash: u64, name: &[u8]) -> u64 {
    let mut hash = hash;
    for byte in name {
        hash = mixed(hash, u64::from(*byte));
    }
    hash
}

fn mixed_value(hash: u64, value: &Value) -> u64 {
    match value {
        Value::Address(address) => mixed(hash, u64::from(*address)),
        Value::Prefix(address, len) => mixed(mixed(hash, u64::from(*address)), u64::from(*len)),
        Value::Addresses(low, high) => mixed(mixed(hash, u64::from(*low)), u64::from(*high)),
        Value::Number(number) => mixed(hash, *number),
        Value::Numbers(low, high) => mixed(mixed(hash, *low), *high),
        Value::Name(name) | Value::Quoted(name) => mixed_name(hash, name.as_slice()),
    }
}

fn mixed_side(hash: u64, side: &Side) -> u64 {
    match side {
        Side::One(element) => mixed_value(hash, &element.value),
        Side::Several(elements) => {
            let mut hash = hash;
            for element in elements.as_slice() {
                hash = mixed_value(hash, &element.value);
            }
            hash
        }
        Side::Named(named) => mixed_name(hash, named.name.as_slice()),
    }
}

fn head_number(head: Head) -> u64 {
    match head {
        Head::Iifname => 0,
        Head::Oifname => 1,
        Head::Saddr => 2,
        Head::Daddr => 3,
        Head::Protocol => 4,
        Head::Sport(Transport::Tcp) => 5,
        Head::Sport(Transport::Udp) => 6,
        Head::Dport(Transport::Tcp) => 7,
        Head::Dport(Transport::Udp) => 8,
        Head::State => 9,
    }
}

// Equal matches have equal numbers, and others hardly do.
fn hash_of(own: &Match) -> u64 {
    let hash = mixed(head_number(own.head), u64::from(own.negated));
    mixed_side(hash, &own.side)
}

fn slot_of(hash: u64, slots: usize) -> usize {
    if slots == 0 {
        return 0;
    }
    (hash % slots as u64) as usize
}

// One more than the place of the match in the slot, or 0 if it is free.
fn held_in(slots: &[usize], slot: usize) -> usize {
    match slots.get(slot) {
        Some(held) => *held,
        None => 0,
    }
}

// Whether an equal match stands before the one at that place, as far as the slots tell. If they have none, the match
// has its own from now on.
fn repeats(matches: &[Match], slots: &mut [usize], place: usize, hash: u64) -> bool
    ensures { IsTrue result → IsSomeRepeat matches.now place }
{
    let mut slot = slot_of(hash, slots.len());
    for _ in 0..slots.len() {
        let held = held_in(slots, slot);
        if held == 0 {
            hold(slots, slot, place);
            return false;
        }
        if is_repeat(matches, held - 1, place) {
            return true;
        }
        slot = slot_of((slot as u64).wrapping_add(1), slots.len());
    }
    false
}

fn hold(slots: &mut [usize], slot: usize, place: usize) {
    if let Some(held) = slots.get_mut(slot) {
        *held = place.saturating_add(1);
    }
}

/// For each match of a rule whether it is said for the first time. One that isn't is equal to one before it.
///
/// # Errors
///
/// `AllocError` only where memory is refused.
pub(crate) fn firsts_of(alloc: Global, matches: &[Match]) -> Result<Vec<bool>, AllocError>
    ensures { IfOk result (λ firsts. AreFirst matches.now firsts.items) }
{
    let mut slots = vec![in alloc; 0; matches.len().saturating_mul(2)]?;
    let mut firsts = Vec::new(alloc);
    for place in 0..matches.len() {
        let hash = hash_of(&matches[place]);
        let is_first = !repeats(matches, slots.as_mut_slice(), place, hash);
        firsts.push(is_first)?;
    }
    Ok(firsts)
}
