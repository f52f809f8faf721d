//! What the rules of a table are asked.

use crate::facts::Facts;
use crate::row::Laid;
use packet::Bounds;
use ruletree::Table;

/// What the rules of a table are asked about a packet.
#[derive(Clone, Copy, Drop)]
pub(crate) struct Question<'a> {
    /// The configuration.
    pub(crate) bounds: &'a Bounds,
    /// What rules may ask about the packet.
    pub(crate) facts: &'a Facts,
    /// The table.
    pub(crate) table: &'a Table,
    /// Its rules as they are laid out.
    pub(crate) laid: &'a Laid,
}
