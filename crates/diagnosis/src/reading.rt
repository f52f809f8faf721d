//! What one file is by itself.
ghost use Rattle.std.specs.Prelude.{◌↔◌, ℕ, IfOk, IsTrue};
ghost use Rattle.durable.specs.Coding.{Heading};
ghost use Rattle.durable.specs.Entering.{Durable};
ghost use Rattle.durable.specs.Recovery.{IsOpen, Holds};
ghost use Rattle.durable.specs.declared.version.Version.TheVariants.{First, Second};
ghost use Rattle.diagnosis.specs.Reading.{IsFaultOf, IsMarked, HasMark, IsReadAs};
ghost use Rattle.diagnosis.specs.Probing.{IsProbe};

use crate::front::{begins, front_end};
use crate::probe::has_front;
use durable::{DurableFault, recover};
use packet::Bounds;
use std::alloc::{AllocError, Global};

/// Why a file holds no state. The variants stand in the order of the tests.
#[derive(Clone, Copy, Debug, PartialEq, Eq, Drop)]
pub enum Fault {
    /// No mark of a version that this program knows stands behind the file gate.
    Foreign,
    /// No generation, configuration and snapshot stand whole behind it, with a gate behind them. A file of generation
    /// 2^64 - 1 that holds no state is told so too.
    Front,
    /// The sessions of the snapshot can't live together under the stored configuration, or its text doesn't load.
    Snapshot,
    /// The changes behind the snapshot aren't whole, or don't fit the state.
    Changes,
}

/// What a file holds.
#[derive(Clone, Copy, Debug, PartialEq, Eq, Drop)]
pub struct Held {
    /// Of two files the one with the greater generation counts.
    pub generation: u64,
    /// How many sessions there are.
    pub sessions: usize,
    /// Whether it was written with the configuration at hand.
    pub is_configured: bool,
}

/// What a file is by itself.
#[derive(Clone, Copy, Debug, PartialEq, Eq, Drop)]
pub enum Reading {
    /// It has no byte.
    Empty,
    /// Its gate is closed: it isn't in use.
    Closed,
    /// It is open, and holds no state.
    Faulty(Fault),
    /// It holds a state.
    Whole(Held),
}

fn is_of_first(file: &[u8]) -> bool
    requires { IsOpen file.now }
    ensures { IsTrue result ↔ IsMarked First file.now }
{
    matches!(file, [_, 0x4e, 0x47, 0x57, 0x31, ..])
}

fn is_of_second(file: &[u8]) -> bool
    requires { IsOpen file.now }
    ensures { IsTrue result ↔ IsMarked Second file.now }
{
    matches!(file, [_, 0x4e, 0x47, 0x57, 0x32, ..])
}

fn has_mark(file: &[u8]) -> bool
    requires { IsOpen file.now }
    ensures { IsTrue result ↔ HasMark file.now }
{
    is_of_first(file) || is_of_second(file)
}

// Why an open file holds no state.
fn fault_of(alloc: Global, beside: &[u8], file: &[u8]) -> Result<Fault, AllocError>
    requires probe { IsProbe beside.now }
    requires open { IsOpen file.now }
    requires nothing { (h : Heading) (d : Durable) (end : ℕ) → ¬ Holds file.now h d end }
    ensures { IfOk result (IsFaultOf file.now) }
{
    if !has_mark(file) {
        return Ok(Fault::Foreign);
    }
    if !has_front(alloc, beside, file)? {
        return Ok(Fault::Front);
    }
    let end = front_end(alloc, beside, file)?;
    if !begins(alloc, file, end)? {
        return Ok(Fault::Snapshot);
    }
    Ok(Fault::Changes)
}

/// What a file is by itself. `beside` is the file of the greatest generation.
///
/// # Errors
///
/// `AllocError` where memory is refused.
pub(crate) fn reading_of(
    alloc: Global,
    bounds: &Bounds,
    beside: &[u8],
    file: &[u8],
) -> Result<Reading, AllocError>
    requires { IsProbe beside.now }
    ensures { IfOk result (IsReadAs bounds.now file.now) }
{
    if file.is_empty() {
        return Ok(Reading::Empty);
    }
    match recover(alloc, file, &[]) {
        Ok(None) => Ok(Reading::Closed),
        Ok(Some(found)) => Ok(Reading::Whole(Held {
            generation: found.generation,
            sessions: found.sessions.len(),
            is_configured: found.is_configured(bounds),
        })),
        Err(DurableFault::Damaged) => {
            let fault = fault_of(alloc, beside, file)?;
            Ok(Reading::Faulty(fault))
        }
        Err(DurableFault::NoMemory) => Err(AllocError),
    }
}
