//! Where the front of a file ends, and whether a state begins there.
ghost use Rattle.std.specs.Prelude.{◌-◌, ◌+◌, ◌<◌, IfOk};
ghost use Rattle.durable.specs.Recovery.{IsOpen};
ghost use Rattle.diagnosis.specs.Probing.{Brackets, HasFront, IsFrontEnd, IsProbe, TellsBegin};

use crate::probe::{has_front, is_found};
use std::alloc::{AllocError, Global};

// The half of a range of lengths in which the front ends.
fn halved(
    alloc: Global,
    beside: &[u8],
    file: &[u8],
    low: usize,
    high: usize,
) -> Result<(usize, usize), AllocError>
    requires probe { IsProbe beside.now }
    requires open { IsOpen file.now }
    requires range { Brackets file.now low high }
    requires wide { low + 1 < high }
    ensures range { IfOk result (λ x. Brackets file.now x.0 x.1) }
    ensures less { IfOk result (λ x. x.1 - x.0 < high - low) }
{
    let middle = low + (high - low) / 2;
    let (front, _) = file.split_at(middle);
    if has_front(alloc, beside, front)? {
        return Ok((low, middle));
    }
    Ok((middle, high))
}

/// The place behind the front of a file, which is open and has a whole one. `beside` is the file of the greatest
/// generation.
///
/// # Errors
///
/// `AllocError` where memory is refused.
pub(crate) fn front_end(alloc: Global, beside: &[u8], file: &[u8]) -> Result<usize, AllocError>
    requires probe { IsProbe beside.now }
    requires front { HasFront file.now }
    ensures { IfOk result (IsFrontEnd file.now) }
{
    let mut low = 0;
    let mut high = file.len();
    while high - low > 1 {
        (low, high) = halved(alloc, beside, file, low, high)?;
    }
    Ok(low)
}

/// Whether a state begins a file whose front ends at this place: its snapshot is sound and its text loads.
///
/// # Errors
///
/// `AllocError` where memory is refused.
pub(crate) fn begins(alloc: Global, file: &[u8], end: usize) -> Result<bool, AllocError>
    requires { IsFrontEnd file.now end }
    ensures { IfOk result (TellsBegin file.now) }
{
    let (front, _) = file.split_at(end);
    let mut alone = Vec::from_slice(alloc, front)?;
    alone.push(0)?;
    is_found(alloc, &alone, &[])
}
