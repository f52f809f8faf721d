//! A device in memory.
ghost use Rattle.std.specs.Prelude.{◌≡◌, ◌∷◌, ◌++◌, [], OnOk};
ghost use Rattle.test_carrying.specs.Contents.{bodies_of};

use devices::{Device, HEADER, LONGEST_FRAME};
use std::alloc::{AllocError, Global};

/// A device that gives what it was made of, each time a header and its packet, and keeps what it is handed.
#[derive(Drop)]
pub struct Memory {
    alloc: Global,
    given: Vec<Vec<u8>>,
    /// How many of them it gave.
    gave: usize,
    kept: Vec<Vec<u8>>,
    /// It was handed more than it has memory for.
    forgot: bool,
}

impl Memory {
    /// A device that gives these.
    pub fn new(alloc: Global, given: Vec<Vec<u8>>) -> Memory {
        Memory {
            alloc,
            given,
            gave: 0,
            kept: Vec::new(alloc),
            forgot: false,
        }
    }

    /// What it was handed.
    pub fn kept(&self) -> &[Vec<u8>] {
        self.kept.as_slice()
    }
}

// Keeps a frame behind the others.
fn keep(alloc: Global, kept: &mut Vec<Vec<u8>>, frame: &[u8]) -> Result<(), AllocError>
    ensures { OnOk result (bodies_of kept.new.items
        ≡ bodies_of kept.old.items ++ frame.now ∷ []) }
{
    let frame = Vec::from_slice(alloc, frame)?;
    kept.push(frame)?;
    Ok(())
}

impl Device for Memory {
    ghost use Rattle.test_carrying.specs.Contents.{HasNoFrame, bodies_of};
    ghost use Rattle.std.specs.Prelude.{None, Some, drop, if◌then◌else◌};

    ghost coming = { λ d. Some (drop d.gave (bodies_of d.given.items)) };

    ghost has_none = { λ d. HasNoFrame (drop d.gave (bodies_of d.given.items)) };

    ghost handed = { λ d. if d.forgot then None else Some (bodies_of d.kept.items) };

    fn receive(&mut self, room: &mut [u8]) -> Option<usize> {
        if self.gave >= self.given.len() {
            return None;
        }
        let frame = self.given[self.gave].as_slice();
        let len = frame.len();
        if len < HEADER || len > LONGEST_FRAME {
            return None;
        }
        room[..len].copy_from_slice(frame);
        self.gave += 1;
        Some(len)
    }

    fn send(&mut self, frame: &[u8]) -> bool {
        if keep(self.alloc, &mut self.kept, frame).is_err() {
            self.forgot = true;
        }
        !self.forgot
    }
}
