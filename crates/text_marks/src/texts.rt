//! Texts put together.
use std::alloc::AllocError;

/// Appends texts, one behind the other.
///
/// # Errors
///
/// `AllocError` where a growth was refused. A part may have been appended then.
pub(crate) fn put_all(out: &mut Vec<u8>, texts: &[&[u8]]) -> Result<(), AllocError> {
    for text in texts {
        out.extend_from_slice(text)?;
    }
    Ok(())
}
