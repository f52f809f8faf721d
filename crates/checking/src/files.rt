//! The file that a command reads.
ghost use Rattle.std.specs.Prelude.{◌≡◌, IfOk, IfSome, take};

use refusals::Stop;
use std::alloc::Global;
use std::fs::{File, Files};
use std::io;
use std::io::Read;

/// The first bytes that a reader gives, at most so many.
///
/// # Errors
///
/// That of the reader, or of kind `OutOfMemory` where memory is refused.
pub(crate) fn read_front<R: Read + Drop>(alloc: Global, reader: R, most: u64) -> io::Result<Vec<u8>>
    ensures { IfOk result (λ bytes.
        IfSome (R.remaining reader) (λ known. bytes.items ≡ take most known)) }
{
    let mut bytes = Vec::new(alloc);
    reader.take(most).read_to_end(&mut bytes)?;
    Ok(bytes)
}

/// The first bytes of a file, at most so many; of the path `-` those of standard input.
///
/// # Errors
///
/// `File` where it can't be opened or read, `NoMemory` where memory is refused.
pub fn read_given(rt: &HostRuntime, alloc: Global, path: &str, most: u64) -> Result<Vec<u8>, Stop> {
    if path != "-" {
        return read_file(rt, alloc, path, most);
    }
    match read_front(alloc, rt.stdin(), most) {
        Ok(bytes) => Ok(bytes),
        Err(error) => Err(Stop::at_path(alloc, "standard input", "can't be read", &error)),
    }
}

/// The first bytes of a file, at most so many.
///
/// # Errors
///
/// `File` where it can't be opened or read, `NoMemory` where memory is refused.
pub fn read_file(rt: &impl Files, alloc: Global, path: &str, most: u64) -> Result<Vec<u8>, Stop> {
    let read = match File::open(rt, path) {
        Ok(file) => read_front(alloc, file, most),
        Err(error) => Err(error),
    };
    match read {
        Ok(bytes) => Ok(bytes),
        Err(error) => Err(Stop::at_path(alloc, path, "can't be read", &error)),
    }
}
