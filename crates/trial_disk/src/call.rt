//! What the record of the disk in memory has of one call.
use disk_model::FileId;

/// A call that changed what a crash may leave.
#[derive(Drop)]
pub(crate) enum Call {
    /// These bytes were written at this place.
    Write(FileId, usize, Vec<u8>),
    /// The file was synced.
    Sync(FileId),
}
