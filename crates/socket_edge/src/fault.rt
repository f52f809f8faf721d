//! Why a run ends early.
use gateway::GatewayFault;

/// Why a run didn't end well.
#[derive(Clone, Copy, Debug, PartialEq, Eq, Drop, thiserror::Error)]
pub enum EdgeFault {
    /// A header's kind is none of 1, 2, 3.
    #[error("a frame of no known kind")]
    BadKind,
    /// A header's interface is none that its kind has.
    #[error("a frame with an interface that its kind doesn't have")]
    BadInterface,
    /// A header's body is longer than its kind allows.
    #[error("a frame with too long a body")]
    TooLong,
    /// The input ends within a frame's header or body.
    #[error("the input ends within a frame")]
    Truncated,
    /// A read failed, interruptions included, or the input hadn't ended behind 2^64 - 1 reads.
    #[error("reading failed")]
    Input,
    /// A write failed, interruptions included, or took no byte.
    #[error("writing failed")]
    Output,
    /// The gateway refused an event, a sync or a compaction failed, or the edge was refused memory.
    #[error("the gateway's fault: {0}")]
    Gateway(GatewayFault),
}
