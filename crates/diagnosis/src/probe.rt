//! A file that holds nothing, beside which another one counts by its front alone.
ghost use Rattle.std.specs.Prelude.{IfOk};
ghost use Rattle.disk_model.specs.Disk.{pair};
ghost use Rattle.diagnosis.specs.Probing.{IsProbe, Tells, TellsFront};

use durable::laws::growing_laws;
use durable::{DurableFault, heading_fits, put_heading, recover};
use packet::Bounds;
use std::alloc::{AllocError, Global};

/// A file of the greatest generation that holds no text and no session.
///
/// # Errors
///
/// `AllocError` where memory is refused.
pub(crate) fn probe(alloc: Global, bounds: &Bounds) -> Result<Vec<u8>, AllocError>
    ensures { IfOk result (λ file. IsProbe file.items) }
{
    bounds.facts();
    growing_laws();
    heading_fits(u64::MAX, bounds, &[], &[]);
    let mut file = vec![in alloc; 1]?;
    put_heading(&mut file, u64::MAX, bounds, &[], &[])?;
    file.push(0)?;
    Ok(file)
}

/// Whether two files stand for a state.
///
/// # Errors
///
/// `AllocError` where memory is refused.
pub(crate) fn is_found(alloc: Global, a: &[u8], b: &[u8]) -> Result<bool, AllocError>
    ensures { IfOk result (Tells (pair a.now b.now)) }
{
    match recover(alloc, a, b) {
        Ok(_) => Ok(true),
        Err(DurableFault::Damaged) => Ok(false),
        Err(DurableFault::NoMemory) => Err(AllocError),
    }
}

/// Whether a file that is open has a whole front. `beside` is the file of the greatest generation.
///
/// # Errors
///
/// `AllocError` where memory is refused.
pub(crate) fn has_front(alloc: Global, beside: &[u8], file: &[u8]) -> Result<bool, AllocError>
    requires { IsProbe beside.now }
    ensures { IfOk result (TellsFront file.now) }
{
    is_found(alloc, beside, file)
}
