//! The two devices that packets go between.

/// The two devices.
#[derive(Drop)]
pub struct Between<L, W> {
    /// The device of the inside.
    pub lan: L,
    /// The device of the outside.
    pub wan: W,
}
