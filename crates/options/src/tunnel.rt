//! What `natgw tun` is asked for.
use crate::{Opening, Sides};

/// What `natgw tun` is asked for, as it was written. Nothing of it is tested yet.
#[derive(Clone, Copy, Drop)]
pub struct Tunnel<'a> {
    /// What the gateway stands between.
    pub sides: Sides<'a>,
    /// How the gateway opens. Moment 0 is for the clock's.
    pub opening: Opening<'a>,
    /// The descriptors of the devices.
    pub descriptors: Descriptors,
    /// The file of the ruleset.
    pub rules: &'a str,
    /// What is told of the counts.
    pub report: Report<'a>,
    /// Of so many dropped packets a second a line is written.
    pub log_drops: u64,
}

/// The descriptors of the two devices.
#[derive(Clone, Copy, Drop)]
pub struct Descriptors {
    /// That of the inside.
    pub lan: u64,
    /// That of the outside.
    pub wan: u64,
    /// Whether the kernel puts a header in front of each packet.
    pub has_headers: bool,
}

/// A file of counts.
#[derive(Clone, Copy, Drop)]
pub struct Report<'a> {
    /// Every so many seconds it is made anew; 0 is never.
    pub seconds: u64,
    /// Where it is.
    pub path: &'a str,
}
