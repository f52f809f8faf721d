//! Why a gateway doesn't do what it was asked.
ghost use Rattle.std.specs.Prelude.{◌≡◌, ◌↔◌, ◌⊎◌};

use machine::StepFault;
use snapshot::CompactFault;
use thiserror::Error;

/// Why a gateway doesn't do what it was asked. `Reopen`, `NumbersOut` and `HeldFull` come before the others, in this
/// order. Where a text comes, or a session ends or begins, memory may be refused before it is seen that the file is
/// full: then it is `NoMemory`.
#[derive(Clone, Copy, Debug, PartialEq, Eq, Drop, Error)]
pub enum GatewayFault {
    /// A call of the disk failed before; the gateway has to be opened again over its files.
    #[error("the disk failed before; open the gateway again")]
    Reopen,
    /// The last event had the number 2^64 - 1.
    #[error("no number is left for an event; open the gateway again")]
    NumbersOut,
    /// 64 answers wait for a flush.
    #[error("64 answers are held; flush them")]
    HeldFull,
    /// The file has no room for the entries of the event.
    #[error("the file has no room; flush and compact")]
    Full,
    /// Memory was refused.
    #[error("no memory")]
    NoMemory,
    /// A call of the disk failed. The gateway has fallen.
    #[error("the disk failed")]
    Device,
    /// The active file has the greatest generation, 2^64 - 1.
    #[error("no generation is left for a file")]
    Generations,
}

// Why the step of an event was refused.
#[inline]
pub(crate) fn why_refused(fault: StepFault) -> GatewayFault
    ensures full { (result ≡ GatewayFault.Full) ↔ (fault ≡ StepFault.Full) }
    ensures no_memory { (result ≡ GatewayFault.NoMemory) ↔ (fault ≡ StepFault.NoMemory) }
    ensures either { (result ≡ GatewayFault.Full) ⊎ (result ≡ GatewayFault.NoMemory) }
{
    match fault {
        StepFault::Full => GatewayFault::Full,
        StepFault::NoMemory => GatewayFault::NoMemory,
    }
}

// Why a gateway was not compacted, as its store says it.
pub(crate) fn why_not_compacted(fault: CompactFault) -> GatewayFault
    ensures device { (result ≡ GatewayFault.Device) ↔ (fault ≡ CompactFault.Device) }
    ensures generations { (result ≡ GatewayFault.Generations) ↔ (fault ≡ CompactFault.Generations) }
    ensures no_memory { (result ≡ GatewayFault.NoMemory) ↔ (fault ≡ CompactFault.NoMemory) }
    ensures causes { (result ≡ GatewayFault.NoMemory) ⊎ (result ≡ GatewayFault.Device)
        ⊎ (result ≡ GatewayFault.Generations) }
{
    match fault {
        CompactFault::NoMemory => GatewayFault::NoMemory,
        CompactFault::Device => GatewayFault::Device,
        CompactFault::Generations => GatewayFault::Generations,
    }
}
