//! Putting bytes into a file that is held in memory.
ghost use Rattle.std.specs.Prelude.{◌≡◌, ◌+◌, ◌-◌, ◌≤◌, ◌++◌, length, replicate, OnOk, OnErr};
ghost use Rattle.disk_model.specs.Disk.{put};
ghost use Rattle.trial_disk.specs.Choices.{placed};

use std::alloc::AllocError;

/// Puts bytes at a place of a file. A place past the end is reached by zeros.
///
/// # Errors
///
/// `AllocError` where memory is refused. A place within the file or at its end leaves the file as it was; a place
/// past the end may have put zeros up to it.
pub(crate) fn place(file: &mut Vec<u8>, at: usize, bytes: &[u8]) -> Result<(), AllocError>
    ensures ok { OnOk result (file.new.items ≡ placed at bytes.now file.old.items) }
    ensures err { at ≤ length file.old.items → OnErr result (file.new.items ≡ file.old.items) }
{
    stretch(file, at)?;
    let within = bytes.len().min(file.len() - at);
    let (front, rest) = bytes.split_at(within);
    file.extend_from_slice(rest)?;
    overwrite(file, at, front);
    Ok(())
}

// Fills a file with zeros up to a place.
fn stretch(file: &mut Vec<u8>, at: usize) -> Result<(), AllocError>
    ensures ok { OnOk result (file.new.items ≡ file.old.items
        ++ replicate (at - length file.old.items) 0) }
    ensures reached { OnOk result (at ≤ length file.new.items) }
    ensures err { OnErr result (file.new.items ≡ file.old.items) }
    ensures within { at ≤ length file.old.items → file.new.items ≡ file.old.items }
{
    if at <= file.len() {
        return Ok(());
    }
    file.resize(at, 0)
}

fn overwrite(file: &mut [u8], at: usize, bytes: &[u8])
    requires { at + length bytes.now ≤ length file.old }
    ensures { file.new ≡ put at bytes.now file.old }
{
    file[at..at + bytes.len()].copy_from_slice(bytes);
}
