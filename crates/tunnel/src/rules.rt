//! The ruleset's file, which is read at the start and when it changes.
use checking::{read_file, report};
use packet::Bounds;
use refusals::{Refusal, Stop};
use rulesyntax::GREATEST_LENGTH;
use std::alloc::Global;
use std::fs;
use std::fs::Files;
use std::os::unix::fs::MetadataExt;

/// One byte more than a text may have is read, so that a longer one is known.
const MOST_READ: u64 = GREATEST_LENGTH as u64 + 1;

/// By what a file that was changed or replaced is known. Times are in seconds and nanoseconds.
#[derive(Clone, Copy, PartialEq, Eq, Drop)]
struct Stamp {
    place: (u64, u64),
    size: u64,
    modified: (i64, i64),
    changed: (i64, i64),
}

// The stamp of the file at a path, if one is there.
fn stamp_of(rt: &impl Files, path: &str) -> Option<Stamp> {
    let data = fs::metadata(rt, path).ok()?;
    Some(Stamp {
        place: (data.dev(), data.ino()),
        size: data.size(),
        modified: (data.mtime(), data.mtime_nsec()),
        changed: (data.ctime(), data.ctime_nsec()),
    })
}

/// A file that is watched.
#[derive(Drop)]
pub struct Rules<'a> {
    path: &'a str,
    seen: Option<Stamp>,
}

impl<'a> Rules<'a> {
    /// The file at a path, which wasn't looked at yet.
    pub fn new(path: &'a str) -> Rules<'a> {
        Rules { path, seen: None }
    }

    /// The path.
    pub fn path(&self) -> &'a str {
        self.path
    }

    /// Whether the file isn't the one that was looked at last. A file that is gone hasn't changed.
    pub fn has_changed(&mut self, rt: &impl Files) -> bool {
        let Some(now) = stamp_of(rt, self.path) else {
            return false;
        };
        let has_changed = self.seen != Some(now);
        self.seen = Some(now);
        has_changed
    }

    /// The file's text, as far as one byte more than a ruleset may have.
    ///
    /// # Errors
    ///
    /// `File` where it can't be read, `NoMemory` where memory is refused.
    pub fn read(&self, rt: &impl Files, alloc: Global) -> Result<Vec<u8>, Stop> {
        read_file(rt, alloc, self.path, MOST_READ)
    }
}

/// What is said of a text, in a line without its end: that it is loaded, or why it is refused, in the words of `natgw
/// check`.
///
/// # Errors
///
/// `NoMemory` where memory is refused.
pub fn judge(alloc: Global, path: &str, text: &[u8], bounds: &Bounds) -> Result<String, Refusal> {
    let checked = report(alloc, text, bounds, false)?;
    if checked.loads {
        return Ok(format!(in alloc; "{path} is loaded")?);
    }
    let fault = std::str::from_utf8(checked.line.as_slice()).unwrap_or("");
    Ok(format!(in alloc;
        "{path} is refused, the old rules stay: {}",
        fault.trim_end()
    )?)
}
