//! What a leg is asked with.

use crate::translations::Translations;
use packet::{Bounds, View};
use sessions::Table;
use verdict::Rules;

/// What a leg goes by. It changes none of it.
#[derive(Clone, Copy, Drop)]
pub struct Asking<'a> {
    /// The configuration.
    pub bounds: &'a Bounds,
    /// The rules of the text that was loaded last.
    pub rules: &'a Rules,
    /// The sessions that are held.
    pub table: &'a Table,
    /// Their mappings, and the ports that these take.
    pub translations: &'a Translations,
    /// The packet.
    pub view: &'a View,
    /// When it passes, in seconds.
    pub moment: u64,
}
