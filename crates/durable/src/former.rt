//! What only files of former versions have. They are read, and never written.
ghost use Rattle.durable.specs.declared.version.Version.TheVariants.{First};
ghost use Rattle.durable.specs.Reading.{Yields, outside_at};

use crate::DurableFault;
use crate::fields::u32_of;
use packet::Filtering;
use std::alloc::Global;

/// What is outside, as the first version has it: a pool of one address, with filtering by endpoint.
#[tactic(auto, unfolding(crate::specs::Reading::outside_at))]
pub fn read_one_address(
    alloc: Global,
    bytes: &[u8],
) -> Result<(Vec<u32>, Filtering, &[u8]), DurableFault>
    ensures { Yields (λ x. ((x.0.items, x.1), x.2.now)) result (outside_at First bytes.now) }
{
    let Some((address, rest)) = u32_of(bytes) else {
        return Err(DurableFault::Damaged);
    };
    let external = vec![in alloc; address]?;
    Ok((external, Filtering::Endpoint, rest))
}
