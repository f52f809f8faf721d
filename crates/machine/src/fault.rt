//! Why an event isn't stepped.
use thiserror::Error;

/// Why an event can't be stepped.
#[derive(Clone, Copy, Debug, PartialEq, Eq, Drop, Error)]
pub enum StepFault {
    /// There is no room where the event's entries would stand.
    #[error("no room for the entries of the event")]
    Full,
    /// Memory was refused.
    #[error("no memory")]
    NoMemory,
}

/// Memory was refused; nothing has changed.
#[derive(Clone, Copy, Debug, PartialEq, Eq, Drop, Error)]
#[error("no memory")]
pub struct NoMemory;
