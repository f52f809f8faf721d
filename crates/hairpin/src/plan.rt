//! What a packet that passes changes, and how it leaves.

use packet::{Endpoint, Iface};
use sessions::Change;

/// What a packet that passes changes, in turn, and how it leaves. Nothing has changed yet.
#[derive(Clone, Copy, PartialEq, Eq, Drop)]
pub struct Plan {
    /// What becomes of its session; of a hairpin, which has two, of the one that it goes out by.
    pub first: Change,
    /// Of a hairpin, what becomes of the session that it comes in by, once `first` is made.
    pub second: Option<Change>,
    /// The interface that it leaves on.
    pub iface: Iface,
    /// The source that it leaves with.
    pub src: Endpoint,
    /// The destination that it leaves with.
    pub dst: Endpoint,
}
