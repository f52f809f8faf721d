//! A file that was opened is prepared.
ghost use Rattle.std.specs.Prelude.{◌≡◌, ◌<◌, [], ◌∷◌, length, IfOk, IsFalse, IsTrue, OnOk};
ghost use Rattle.std.specs.IoError.{error_kind};
ghost use Rattle.file_disk.specs.OneFile.{NoMore};
ghost use Rattle.file_disk.specs.Prepared.{prepared, OpensNone, IsSynced, IsWholeOrShort};
ghost use Rattle.file_disk.specs.Space.{IsWantOfSpace};

use crate::DiskFile;
use std::io::{self, ErrorKind};

/// Makes an empty file this long, in zeros, and syncs the file. The first byte is kept before the others are made, so
/// that the file's gate is closed whatever a loss of power leaves. If there is no space for the zeros, the file stays
/// short, and nothing more is done with it.
///
/// # Errors
///
/// Why a call fails, if not for want of space for the zeros. A sync that fails for want of space is an error: nothing
/// is known of the file behind it.
pub fn prepare<F: DiskFile>(file: &mut F, room: u64) -> io::Result<()>
    requires { 0 < room }
    ensures honest { F.honest file.new → F.honest file.old }
    ensures stays_honest { OnOk result (F.honest file.old → F.honest file.new) }
    ensures whole { F.honest file.old → OnOk result (IsWholeOrShort F.honest F.holds F.leaves
        F.lacks_space room file.old file.new) }
    ensures kept { F.honest file.old → 0 < length (F.holds file.old)
        → NoMore F.honest F.holds F.leaves file.old file.new }
    ensures reads { F.honest file.old → 0 < length (F.holds file.old)
        → F.leaves file.old (F.holds file.new) }
    ensures closed { F.honest file.old
        → OpensNone F.honest F.holds F.leaves file.old file.new }
{
    if file.length()? > 0 {
        file.sync_opened()?;
        return Ok(());
    }
    if !make_room(file, room)? {
        return Ok(());
    }
    file.sync_opened()?;
    Ok(())
}

fn is_want_of_space(error: &io::Error) -> bool
    ensures { IsTrue result → IsWantOfSpace (error_kind error.now) }
{
    matches!(
        error.kind(),
        ErrorKind::StorageFull | ErrorKind::QuotaExceeded
    )
}

// Makes an empty file long. It answers false if there is no space for that.
fn make_room<F: DiskFile>(file: &mut F, room: u64) -> io::Result<bool>
    requires room { 0 < room }
    requires empty { F.honest file.old → length (F.holds file.old) ≡ 0 }
    ensures honest { F.honest file.new → F.honest file.old }
    ensures stays_honest { OnOk result (F.honest file.old → F.honest file.new) }
    ensures holds { F.honest file.old → IfOk result (λ is_long. IsTrue is_long → F.holds file.new
        ≡ prepared room (F.holds file.old)) }
    ensures closed { F.honest file.old
        → OpensNone F.honest F.holds F.leaves file.old file.new }
    ensures space { IfOk result (λ is_long. IsFalse is_long → F.lacks_space file.new) }
{
    if !close(file)? {
        return Ok(false);
    }
    match file.lengthen(room) {
        Ok(()) => Ok(true),
        Err(error) if is_want_of_space(&error) => Ok(false),
        Err(error) => Err(error),
    }
}

// Writes the one byte 0, and has it kept. It answers false if there is no space for it.
fn close<F: DiskFile>(file: &mut F) -> io::Result<bool>
    requires { F.honest file.old → length (F.holds file.old) ≡ 0 }
    ensures honest { F.honest file.new → F.honest file.old }
    ensures stays_honest { OnOk result (F.honest file.old → F.honest file.new) }
    ensures holds { F.honest file.old → IfOk result (λ is_closed. IsTrue is_closed → F.holds file.new ≡ 0 ∷ []) }
    ensures synced { F.honest file.old
        → IfOk result (λ is_closed. IsTrue is_closed → IsSynced F.honest F.holds F.leaves file.new) }
    ensures closed { F.honest file.old
        → OpensNone F.honest F.holds F.leaves file.old file.new }
    ensures space { IfOk result (λ is_closed. IsFalse is_closed → F.lacks_space file.new) }
{
    match file.write_fully(0, &[0]) {
        Ok(()) => {}
        Err(error) if is_want_of_space(&error) => return Ok(false),
        Err(error) => return Err(error),
    }
    file.sync_file()?;
    Ok(true)
}
