//! What two files are together.
ghost use Rattle.std.specs.Prelude.{IfOk};
ghost use Rattle.durable.specs.Entering.{Durable};
ghost use Rattle.disk_model.specs.Disk.{pair};
ghost use Rattle.durable.specs.Recovery.{Recovers};
ghost use Rattle.diagnosis.specs.Finding.{IsDamaged, IsFinding};

use crate::Reading;
use crate::probe::probe;
use crate::reading::reading_of;
use durable::{DurableFault, recover};
use packet::Bounds;
use std::alloc::{AllocError, Global};

/// Two files that stand for no state: what each of them is by itself. One of them has a fault, or both are whole and
/// have one generation.
#[derive(Clone, Copy, PartialEq, Eq, Drop)]
pub struct Damage {
    pub a: Reading,
    pub b: Reading,
}

/// Two files with another configuration than the one at hand.
#[derive(Drop)]
pub struct Differing<'a> {
    /// The configuration of the active file.
    pub stored: Bounds,
    /// The configuration at hand.
    pub given: &'a Bounds,
}

/// What two files are together.
#[derive(Drop)]
pub enum Finding<'a> {
    /// They stand for a state, and have this configuration, or none.
    Sound,
    /// They stand for no state.
    Damaged(Damage),
    /// They stand for a state, and have another configuration.
    Differs(Differing<'a>),
}

// What each of two files is that stand for no state.
fn damage_of(alloc: Global, a: &[u8], b: &[u8], bounds: &Bounds) -> Result<Damage, AllocError>
    requires { (d : Durable) → ¬ Recovers (pair a.now b.now) d }
    ensures { IfOk result (IsDamaged bounds.now (pair a.now b.now)) }
{
    let beside = probe(alloc, bounds)?;
    let a = reading_of(alloc, bounds, &beside, a)?;
    let b = reading_of(alloc, bounds, &beside, b)?;
    Ok(Damage { a, b })
}

/// What two files are, by their bytes, to a gateway with these bounds: `Damaged` exactly where they stand for no state,
/// `Differs` exactly where they stand for one and the active file has another configuration.
///
/// # Errors
///
/// `AllocError` where memory is refused.
pub fn examine<'a>(
    alloc: Global,
    a: &[u8],
    b: &[u8],
    bounds: &'a Bounds,
) -> Result<Finding<'a>, AllocError>
    ensures { IfOk result (IsFinding bounds.now (pair a.now b.now)) }
{
    match recover(alloc, a, b) {
        Ok(None) => Ok(Finding::Sound),
        Ok(Some(found)) => {
            if found.is_configured(bounds) {
                return Ok(Finding::Sound);
            }
            Ok(Finding::Differs(Differing {
                stored: found.bounds,
                given: bounds,
            }))
        }
        Err(DurableFault::Damaged) => {
            let damage = damage_of(alloc, a, b, bounds)?;
            Ok(Finding::Damaged(damage))
        }
        Err(DurableFault::NoMemory) => Err(AllocError),
    }
}
