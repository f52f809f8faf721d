//! What stands behind an open file gate: mark, generation, configuration and snapshot.
ghost use Rattle.std.specs.Prelude.{IfOk, IsErrOf};
ghost use Rattle.durable.specs.Versions.{latest};
ghost use Rattle.durable.specs.Coding.{Begins, NoneBegins, IsHeading, heading_bytes};
ghost use Rattle.durable.specs.Reading.{Gives, Yields, items_at, number_at, prefix_at, session_at, prefixes_at, sessions_at, addresses_at, outside_at, config_at, snapshot_at, version_at, heading_at};
ghost use Rattle.durable.specs.Viewing.{config_view, snapshot_view, heading_view};

use crate::DurableFault;
use crate::decoding::read_session;
use crate::fields::{byte_of, filtering_of, name_of, text_of, u8_of, u32_of, u64_of};
use crate::former::read_one_address;
use crate::version::Version;
use packet::{Filtering, Prefix};
use sessions::Session;
use std::alloc::Global;

/// A configuration as it is stored.
#[derive(Drop)]
pub struct StoredConfig<'a> {
    pub lan: &'a [u8],
    pub wan: &'a [u8],
    pub inside: Vec<Prefix>,
    pub external: Vec<u32>,
    pub filtering: Filtering,
}

/// A text, and sessions in some order.
#[derive(Drop)]
pub struct StoredSnapshot<'a> {
    pub text: &'a [u8],
    pub sessions: Vec<Session>,
}

/// What stands behind an open file gate.
#[derive(Drop)]
pub struct StoredHeading<'a> {
    pub version: Version,
    pub generation: u64,
    pub config: StoredConfig<'a>,
    pub snapshot: StoredSnapshot<'a>,
}

#[tactic(auto, unfolding(crate::specs::Reading::prefix_at))]
fn read_prefix(bytes: &[u8]) -> Option<(Prefix, &[u8])>
    ensures { Gives (λ x. (x.0, x.1.now)) result (prefix_at bytes.now) }
{
    let (addr, rest) = u32_of(bytes)?;
    let (len, rest) = byte_of(rest)?;
    Some((Prefix { addr, len }, rest))
}

fn read_counted_prefixes(
    alloc: Global,
    count: u8,
    bytes: &[u8],
) -> Result<(Vec<Prefix>, &[u8]), DurableFault>
    ensures { Yields (λ x. (x.0.items, x.1.now)) result (items_at prefix_at count bytes.now) }
{
    let mut items = Vec::new(alloc);
    let mut rest = bytes;
    for _ in 0..count {
        let Some((item, after)) = read_prefix(rest) else {
            return Err(DurableFault::Damaged);
        };
        items.push(item)?;
        rest = after;
    }
    Ok((items, rest))
}

fn read_counted_sessions(
    alloc: Global,
    count: u32,
    bytes: &[u8],
) -> Result<(Vec<Session>, &[u8]), DurableFault>
    ensures { Yields (λ x. (x.0.items, x.1.now)) result (items_at session_at count bytes.now) }
{
    let mut items = Vec::new(alloc);
    let mut rest = bytes;
    for _ in 0..count {
        let Some((item, after)) = read_session(rest) else {
            return Err(DurableFault::Damaged);
        };
        items.push(item)?;
        rest = after;
    }
    Ok((items, rest))
}

#[tactic(auto, unfolding(crate::specs::Reading::prefixes_at))]
fn read_prefixes(alloc: Global, bytes: &[u8]) -> Result<(Vec<Prefix>, &[u8]), DurableFault>
    ensures { Yields (λ x. (x.0.items, x.1.now)) result (prefixes_at bytes.now) }
{
    let Some((count, rest)) = u8_of(bytes) else {
        return Err(DurableFault::Damaged);
    };
    read_counted_prefixes(alloc, count, rest)
}

#[tactic(auto, unfolding(crate::specs::Reading::sessions_at))]
fn read_sessions(alloc: Global, bytes: &[u8]) -> Result<(Vec<Session>, &[u8]), DurableFault>
    ensures { Yields (λ x. (x.0.items, x.1.now)) result (sessions_at bytes.now) }
{
    let Some((count, rest)) = u32_of(bytes) else {
        return Err(DurableFault::Damaged);
    };
    read_counted_sessions(alloc, count, rest)
}

fn read_counted_addresses(
    alloc: Global,
    count: u8,
    bytes: &[u8],
) -> Result<(Vec<u32>, &[u8]), DurableFault>
    ensures { Yields (λ x. (x.0.items, x.1.now)) result (items_at (number_at 4) count bytes.now) }
{
    let mut items = Vec::new(alloc);
    let mut rest = bytes;
    for _ in 0..count {
        let Some((item, after)) = u32_of(rest) else {
            return Err(DurableFault::Damaged);
        };
        items.push(item)?;
        rest = after;
    }
    Ok((items, rest))
}

#[tactic(auto, unfolding(crate::specs::Reading::addresses_at))]
fn read_addresses(alloc: Global, bytes: &[u8]) -> Result<(Vec<u32>, &[u8]), DurableFault>
    ensures { Yields (λ x. (x.0.items, x.1.now)) result (addresses_at bytes.now) }
{
    let Some((count, rest)) = u8_of(bytes) else {
        return Err(DurableFault::Damaged);
    };
    read_counted_addresses(alloc, count, rest)
}

// What is outside, as the latest version has it.
#[tactic(auto, unfolding(crate::specs::Reading::outside_at))]
fn read_pool(alloc: Global, bytes: &[u8]) -> Result<(Vec<u32>, Filtering, &[u8]), DurableFault>
    ensures { Yields (λ x. ((x.0.items, x.1), x.2.now)) result (outside_at latest bytes.now) }
{
    let (external, rest) = read_addresses(alloc, bytes)?;
    let Some((filtering, rest)) = filtering_of(rest) else {
        return Err(DurableFault::Damaged);
    };
    Ok((external, filtering, rest))
}

// What is outside, as this version has it.
fn read_outside(
    alloc: Global,
    version: Version,
    bytes: &[u8],
) -> Result<(Vec<u32>, Filtering, &[u8]), DurableFault>
    ensures { Yields (λ x. ((x.0.items, x.1), x.2.now)) result (outside_at version bytes.now) }
{
    match version {
        Version::First => read_one_address(alloc, bytes),
        Version::Second => read_pool(alloc, bytes),
    }
}

#[tactic(auto, unfolding(crate::specs::Reading::config_at))]
fn read_config(
    alloc: Global,
    version: Version,
    bytes: &[u8],
) -> Result<(StoredConfig<'_>, &[u8]), DurableFault>
    ensures { Yields (λ x. (config_view x.0, x.1.now)) result (config_at version bytes.now) }
{
    let Some((lan, rest)) = name_of(bytes) else {
        return Err(DurableFault::Damaged);
    };
    let Some((wan, rest)) = name_of(rest) else {
        return Err(DurableFault::Damaged);
    };
    let (inside, rest) = read_prefixes(alloc, rest)?;
    let (external, filtering, rest) = read_outside(alloc, version, rest)?;
    let config = StoredConfig {
        lan,
        wan,
        inside,
        external,
        filtering,
    };
    Ok((config, rest))
}

#[tactic(auto, unfolding(crate::specs::Reading::snapshot_at))]
fn read_snapshot(alloc: Global, bytes: &[u8]) -> Result<(StoredSnapshot<'_>, &[u8]), DurableFault>
    ensures { Yields (λ x. (snapshot_view x.0, x.1.now)) result (snapshot_at bytes.now) }
{
    let Some((text, rest)) = text_of(bytes) else {
        return Err(DurableFault::Damaged);
    };
    let (sessions, rest) = read_sessions(alloc, rest)?;
    Ok((StoredSnapshot { text, sessions }, rest))
}

#[tactic(auto, unfolding(crate::specs::Reading::version_at))]
fn read_version(bytes: &[u8]) -> Option<(Version, &[u8])>
    ensures { Gives (λ x. (x.0, x.1.now)) result (version_at bytes.now) }
{
    let (number, rest) = u32_of(bytes)?;
    let version = Version::of_mark(number)?;
    Some((version, rest))
}

#[tactic(auto, unfolding(crate::specs::Reading::heading_at))]
fn read_heading(alloc: Global, bytes: &[u8]) -> Result<(StoredHeading<'_>, &[u8]), DurableFault>
    ensures { Yields (λ x. (heading_view x.0, x.1.now)) result (heading_at bytes.now) }
{
    let Some((version, rest)) = read_version(bytes) else {
        return Err(DurableFault::Damaged);
    };
    let Some((generation, rest)) = u64_of(rest) else {
        return Err(DurableFault::Damaged);
    };
    let (config, rest) = read_config(alloc, version, rest)?;
    let (snapshot, rest) = read_snapshot(alloc, rest)?;
    let stored = StoredHeading {
        version,
        generation,
        config,
        snapshot,
    };
    Ok((stored, rest))
}

/// The heading whose code is the front of the bytes, and what stands behind it.
///
/// # Errors
///
/// - `Damaged` exactly where no heading's code is a front of the bytes.
/// - `NoMemory` where memory is refused.
pub fn heading_of(alloc: Global, bytes: &[u8]) -> Result<(StoredHeading<'_>, &[u8]), DurableFault>
    ensures ok { IfOk result (λ x. Begins IsHeading heading_bytes bytes.now
        (heading_view x.0) x.1.now) }
    ensures damaged { IsErrOf result DurableFault.Damaged
        → NoneBegins IsHeading heading_bytes bytes.now }
{
    read_heading(alloc, bytes)
}
