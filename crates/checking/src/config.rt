//! Addresses, prefixes and filterings as they are spelled, and the configuration made of them.
ghost use Rattle.std.specs.Prelude.{◌≡◌, ◌⊎◌, IfOk, IfErr, IfSome, IfNone, IsFalse, OnErr, ℕ, List};
ghost use Rattle.packet.specs.Config.{Pool, config_of, is_config};
ghost use Rattle.packet.specs.declared.bounds.Filtering.{Filtering};
ghost use Rattle.packet.specs.declared.endpoint.Prefix.{Prefix};
ghost use Rattle.refusals.specs.declared.refusal.Refusal.TheVariants.{Config, NoMemory};
ghost use Rattle.checking.specs.Spelling.{IsNoConfig, SpellsAddress, SpellsAddresses, SpellsFiltering, SpellsNumber, SpellsPrefix, SpellsPrefixes};

use itoa::Buffer;
use options::Sides;
use packet::{Bounds, ConfigFault, Filtering, Prefix};
use refusals::{Refusal, Stop};
use std::alloc::Global;
use std::net::Ipv4Addr;

/// A number of at most 255, without a sign or leading zeros.
pub fn number(text: &str) -> Option<u8>
    ensures some { IfSome result (SpellsNumber text.now) }
    ensures none { IfNone result ((n : ℕ) → ¬ SpellsNumber text.now n) }
{
    let Ok(number) = text.parse::<u8>() else {
        return None;
    };
    let mut digits = Buffer::new();
    if digits.format(number) == text {
        Some(number)
    } else {
        None
    }
}

/// An address: four numbers of at most 255, without leading zeros, joined by dots. As a number 192.0.2.1 is
/// `0xc0000201`.
pub fn address(text: &str) -> Option<u32>
    ensures some { IfSome result (SpellsAddress text.now) }
    ensures none { IfNone result ((addr : ℕ) → ¬ SpellsAddress text.now addr) }
{
    match text.parse::<Ipv4Addr>() {
        Ok(address) => Some(address.to_bits()),
        Err(_) => None,
    }
}

/// A prefix: an address, `/` and a number. That the number is at most 32 and the host bits are clear is for `bounds`
/// to test.
pub fn prefix(text: &str) -> Option<Prefix>
    ensures some { IfSome result (SpellsPrefix text.now) }
    ensures none { IfNone result ((prefix : Prefix) → ¬ SpellsPrefix text.now prefix) }
{
    let (front, back) = text.split_once('/')?;
    let addr = address(front)?;
    let len = number(back)?;
    Some(Prefix { addr, len })
}

// A prefix, or the refusal that names it.
fn prefix_of(alloc: Global, text: &str) -> Result<Prefix, Stop>
    ensures ok { IfOk result (SpellsPrefix text.now) }
    ensures config { IfErr result (λ stop. stop.refusal ≡ Config) }
    ensures none { OnErr result ((prefix : Prefix) → ¬ SpellsPrefix text.now prefix) }
{
    match prefix(text) {
        Some(prefix) => Ok(prefix),
        None => Err(Stop::with(
            Refusal::Config,
            format!(in alloc; "--inside: {text} is no prefix; write it like 192.168.0.0/16"),
        )),
    }
}

/// Prefixes joined by commas.
///
/// # Errors
///
/// `Config` where one of them is no prefix; `NoMemory` where memory is refused.
pub fn prefixes(alloc: Global, list: &str) -> Result<Vec<Prefix>, Stop>
    ensures ok { IfOk result (λ found. SpellsPrefixes list.now found.items) }
    ensures none { IfErr result (λ stop. stop.refusal ≡ Config → (prefixes : List Prefix)
        → ¬ SpellsPrefixes list.now prefixes) }
    ensures causes { IfErr result (λ stop. (stop.refusal ≡ Config) ⊎ (stop.refusal ≡ NoMemory)) }
{
    let mut found = Vec::new(alloc);
    let mut rest = list;
    while let Some((front, back)) = rest.split_once(',') {
        found.push(prefix_of(alloc, front)?)?;
        rest = back;
    }
    found.push(prefix_of(alloc, rest)?)?;
    Ok(found)
}

// An external address, or the refusal that names it.
fn address_of(alloc: Global, text: &str) -> Result<u32, Stop>
    ensures ok { IfOk result (SpellsAddress text.now) }
    ensures config { IfErr result (λ stop. stop.refusal ≡ Config) }
    ensures none { OnErr result ((addr : ℕ) → ¬ SpellsAddress text.now addr) }
{
    match address(text) {
        Some(address) => Ok(address),
        None => Err(Stop::with(
            Refusal::Config,
            format!(in alloc; "--external: {text} is no address; write it like 203.0.113.1"),
        )),
    }
}

/// Addresses joined by commas.
///
/// # Errors
///
/// `Config` where one of them is no address; `NoMemory` where memory is refused.
pub fn addresses(alloc: Global, list: &str) -> Result<Vec<u32>, Stop>
    ensures ok { IfOk result (λ found. SpellsAddresses list.now found.items) }
    ensures none { IfErr result (λ stop. stop.refusal ≡ Config → (pool : Pool)
        → ¬ SpellsAddresses list.now pool) }
    ensures causes { IfErr result (λ stop. (stop.refusal ≡ Config) ⊎ (stop.refusal ≡ NoMemory)) }
{
    let mut found = Vec::new(alloc);
    let mut rest = list;
    while let Some((front, back)) = rest.split_once(',') {
        found.push(address_of(alloc, front)?)?;
        rest = back;
    }
    found.push(address_of(alloc, rest)?)?;
    Ok(found)
}

/// A filtering by its word: `endpoint` or `address`.
pub fn filtering(text: &str) -> Option<Filtering>
    ensures some { IfSome result (SpellsFiltering text.now) }
    ensures none { IfNone result ((f : Filtering) → ¬ SpellsFiltering text.now f) }
{
    match text {
        "endpoint" => Some(Filtering::Endpoint),
        "address" => Some(Filtering::Address),
        _ => None,
    }
}

// The filtering, or the refusal that names the word.
fn filtering_of(alloc: Global, text: &str) -> Result<Filtering, Stop>
    ensures ok { IfOk result (SpellsFiltering text.now) }
    ensures config { IfErr result (λ stop. stop.refusal ≡ Config) }
    ensures none { OnErr result ((f : Filtering) → ¬ SpellsFiltering text.now f) }
{
    match filtering(text) {
        Some(filtering) => Ok(filtering),
        None => Err(Stop::with(
            Refusal::Config,
            format!(in alloc; "--filtering: {text} is no filtering; write endpoint or address"),
        )),
    }
}

// The options that have to be other for this fault to go.
fn options_of(fault: ConfigFault) -> &'static str {
    match fault {
        ConfigFault::BadName | ConfigFault::EqualNames => "--lan and --wan",
        ConfigFault::PrefixCount | ConfigFault::BadPrefix => "--inside",
        ConfigFault::ExternalCount | ConfigFault::ExternalTwice => "--external",
        ConfigFault::ExternalInside => "--inside and --external",
    }
}

// The configuration of the names that the options give, these prefixes, these addresses and this filtering.
fn bounds_of(
    alloc: Global,
    sides: &Sides<'_>,
    inside: Vec<Prefix>,
    external: Vec<u32>,
    filtering: Filtering,
) -> Result<Bounds, Stop>
    ensures ok { IfOk result (λ bounds. bounds ≡ config_of sides.now.lan.now sides.now.wan.now
        inside.items external.items filtering) }
    ensures config { IfErr result (λ stop. stop.refusal ≡ Config
        → IsFalse (is_config (config_of sides.now.lan.now sides.now.wan.now inside.items
        external.items filtering))) }
    ensures causes { IfErr result (λ stop. (stop.refusal ≡ Config) ⊎ (stop.refusal ≡ NoMemory)) }
{
    let lan = String::from_str(alloc, sides.lan)?;
    let wan = String::from_str(alloc, sides.wan)?;
    match Bounds::new(lan, wan, inside, external, filtering) {
        Ok(bounds) => Ok(bounds),
        Err(fault) => Err(Stop::with(
            Refusal::Config,
            format!(in alloc; "{fault}: set {} right", options_of(fault)),
        )),
    }
}

/// The configuration that the options spell.
///
/// # Errors
///
/// `Config` where an option can't be read, or all of them together are no configuration (`Bounds::new`); `NoMemory`
/// where memory is refused.
#[tactic(auto, unfolding(packet::specs::Config::config_of))]
pub fn bounds(alloc: Global, sides: &Sides<'_>) -> Result<Bounds, Stop>
    ensures names { IfOk result (λ bounds. (bounds.lan ≡ sides.now.lan.now)
        × (bounds.wan ≡ sides.now.wan.now)) }
    ensures inside { IfOk result (λ bounds. SpellsPrefixes sides.now.inside.now bounds.inside) }
    ensures external { IfOk result (λ bounds. SpellsAddresses sides.now.external.now
        bounds.external) }
    ensures filtering { IfOk result (λ bounds. SpellsFiltering sides.now.filtering.now
        bounds.filtering) }
    ensures config { IfErr result (λ stop. stop.refusal ≡ Config
        → IsNoConfig sides.now.lan.now sides.now.wan.now sides.now.inside.now
        sides.now.external.now sides.now.filtering.now) }
    ensures causes { IfErr result (λ stop. (stop.refusal ≡ Config) ⊎ (stop.refusal ≡ NoMemory)) }
{
    let inside = prefixes(alloc, sides.inside)?;
    let external = addresses(alloc, sides.external)?;
    let filtering = filtering_of(alloc, sides.filtering)?;
    bounds_of(alloc, sides, inside, external, filtering)
}
