//! Configurations, and the rules of a text.
use packet::{Bounds, Filtering, Prefix};
use rulesets::load;
use rulesyntax::parse;
use std::alloc::Global;
use std::test::Fail;
use verdict::Rules;

/// The outside addresses of each configuration.
pub const EXTERNAL: [u32; 2] = [0xcb00_7101, 0xcb00_7103];

/// A configuration of these two interfaces, with one prefix inside.
///
/// # Errors
///
/// A `Fail` where there is no such configuration, or memory is refused.
pub fn bounds(alloc: Global, lan: &str, wan: &str, inside: Prefix) -> Result<Bounds, Fail> {
    let inside = Vec::from_slice(alloc, &[inside])?;
    let lan = String::from_str(alloc, lan)?;
    let wan = String::from_str(alloc, wan)?;
    let external = Vec::from_slice(alloc, &EXTERNAL)?;
    let filtering = Filtering::Endpoint;
    Ok(Bounds::new(lan, wan, inside, external, filtering)?)
}

/// Rules, and the configuration that they were loaded for. They lie behind a box, so that a test lets them go by one
/// call.
#[derive(Drop)]
pub struct Loaded {
    pub rules: Rules,
    pub bounds: Bounds,
}

fn rules_of(alloc: Global, text: &[u8], bounds: &Bounds) -> Result<Rules, Fail> {
    Ok(Rules::of(alloc, load(alloc, parse(alloc, text)?, bounds)?)?)
}

/// The rules of a text.
///
/// # Errors
///
/// A `Fail` where the text is refused, or memory is.
pub fn load_rules(alloc: Global, text: &[u8], bounds: Bounds) -> Result<Box<Loaded>, Fail> {
    let rules = rules_of(alloc, text, &bounds)?;
    Ok(Box::new(alloc, Loaded { rules, bounds })?)
}
