//! The refusals of sets and verdict maps.

/// Why a set or a verdict map isn't made.
#[derive(Clone, Copy, Debug, PartialEq, Eq, Drop, thiserror::Error)]
pub enum SetFault {
    /// Two keys of a verdict map, at different places, share a value.
    #[error("two keys of a verdict map share a value")]
    Overlap,
    /// More elements or keys than `LIMIT`.
    #[error("more than 16,384 elements")]
    Limit,
    /// A growth was refused.
    #[error("out of memory")]
    NoMemory,
}
