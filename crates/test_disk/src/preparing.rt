//! Which calls an opened file gets, in which order, and what comes of one that fails.
ghost use Rattle.std.specs.Prelude.{[]};

use file_disk::{DiskFile, prepare};
use std::alloc::Global;
use std::io::{self, Error, ErrorKind};
use std::process::Abort;
use std::test::Fail;

#[derive(Clone, Copy, Debug, PartialEq, Eq)]
enum Call {
    Length,
    Read,
    Write,
    Sync,
    Lengthen,
    SyncOpened,
}

// A file that only notes its calls. One of them may be told to fail.
#[derive(Drop)]
struct Noted {
    length: u64,
    calls: Vec<Call>,
    fails: Option<(Call, ErrorKind)>,
}

impl Noted {
    fn note(&mut self, call: Call) -> io::Result<()> {
        if self.calls.push(call).is_err() {
            return Err(Error::from(ErrorKind::OutOfMemory));
        }
        let fails = self.fails;
        match fails {
            Some((failing, kind)) if failing == call => Err(Error::from(kind)),
            _ => Ok(()),
        }
    }
}

impl DiskFile for Noted {
    ghost honest = { λ _. ⊥ };

    ghost holds = { λ _. [] };

    ghost leaves = { λ _ _. ⊥ };

    ghost in_place = { λ _. ⊥ };

    ghost lacks_space = { λ _. Unit {0} };

    ghost reads = { λ _ honest. absurd honest };

    fn length(&mut self) -> io::Result<u64> {
        self.note(Call::Length)?;
        Ok(self.length)
    }

    fn read_fully(&mut self, _at: u64, _bytes: &mut [u8]) -> io::Result<()> {
        self.note(Call::Read)
    }

    fn write_fully(&mut self, _at: u64, _bytes: &[u8]) -> io::Result<()> {
        self.note(Call::Write)
    }

    fn sync_file(&mut self) -> io::Result<()> {
        self.note(Call::Sync)
    }

    fn lengthen(&mut self, _to: u64) -> io::Result<()> {
        self.note(Call::Lengthen)
    }

    fn sync_opened(&mut self) -> io::Result<()> {
        self.note(Call::SyncOpened)
    }

    fn is_in_place(&self) -> io::Result<bool> {
        Ok(true)
    }
}

// The length of a file, what fails, whether it is prepared all the same, and the calls.
struct Row {
    length: u64,
    fails: Option<(Call, ErrorKind)>,
    is_ok: bool,
    calls: &'static [Call],
}

const ROWS: [Row; 8] = [
    Row {
        length: 5,
        fails: None,
        is_ok: true,
        calls: &[Call::Length, Call::SyncOpened],
    },
    Row {
        length: 0,
        fails: None,
        is_ok: true,
        calls: &[
            Call::Length,
            Call::Write,
            Call::Sync,
            Call::Lengthen,
            Call::SyncOpened,
        ],
    },
    // Want of space.
    Row {
        length: 0,
        fails: Some((Call::Write, ErrorKind::StorageFull)),
        is_ok: true,
        calls: &[Call::Length, Call::Write],
    },
    Row {
        length: 0,
        fails: Some((Call::Lengthen, ErrorKind::QuotaExceeded)),
        is_ok: true,
        calls: &[Call::Length, Call::Write, Call::Sync, Call::Lengthen],
    },
    // Any other cause, and any other call.
    Row {
        length: 0,
        fails: Some((Call::Sync, ErrorKind::StorageFull)),
        is_ok: false,
        calls: &[Call::Length, Call::Write, Call::Sync],
    },
    Row {
        length: 0,
        fails: Some((Call::Write, ErrorKind::PermissionDenied)),
        is_ok: false,
        calls: &[Call::Length, Call::Write],
    },
    Row {
        length: 5,
        fails: Some((Call::SyncOpened, ErrorKind::StorageFull)),
        is_ok: false,
        calls: &[Call::Length, Call::SyncOpened],
    },
    Row {
        length: 5,
        fails: Some((Call::Length, ErrorKind::StorageFull)),
        is_ok: false,
        calls: &[Call::Length],
    },
];

fn is_right(alloc: Global, row: &Row) -> bool {
    let mut file = Noted {
        length: row.length,
        calls: Vec::new(alloc),
        fails: row.fails,
    };
    let is_ok = prepare(&mut file, 8).is_ok();
    is_ok == row.is_ok && file.calls.as_slice() == row.calls
}

#[test]
fn calls_of_an_opened_file(rt: HostRuntime) -> Result<(), Fail> {
    for (row, expected) in ROWS.iter().enumerate() {
        assert!(rt; is_right(rt.alloc(), expected), "row {row}");
    }
    Ok(())
}
