//! What is told of a gateway that another natgw may be serving.
ghost use Rattle.std.specs.Prelude.{◌≡◌, ◌<◌, ℕ, OnOk, IfErr};
ghost use Rattle.std.specs.Io.KnownBytes.{Appends};
ghost use Rattle.durable.specs.Entering.{Durable};
ghost use Rattle.onlooker.specs.Looking.{LooksInVain, SeesState};
ghost use Rattle.commands.specs.Faults.{IsOfLook, look_refusal};
ghost use Rattle.commands.specs.Telling.{told_of};

use crate::showing::tell;
use diagnosis::Differing;
use file_disk::name_of;
use onlooker::{LookFault, OpenFiles, Readable, look};
use options::View;
use packet::Bounds;
use refusals::{Refusal, Stop};
use std::alloc::Global;
use std::io::Write;

/// How many looks are made at most. One is in vain only if a file begins or ceases to be made anew within it, which takes
/// natgw a mebibyte of changes each time.
const LOOKS: u64 = 20;

// Why there is nothing to tell of the files of a directory, to a gateway with these bounds.
fn unseen(alloc: Global, directory: &str, bounds: &Bounds, fault: LookFault) -> Stop
    ensures { result.refusal ≡ look_refusal fault }
{
    match fault {
        LookFault::File(file, error) => Stop::with(
            Refusal::File,
            format!(in alloc;
                "{directory}: {} can't be read there: {error}",
                name_of(file)
            ),
        ),
        LookFault::NoMemory => Stop::from(Refusal::NoMemory),
        LookFault::Changing => Stop::with(
            Refusal::File,
            format!(in alloc; "{directory}: a file was made anew each time it was read: try again"),
        ),
        LookFault::Damaged => Stop::with(
            Refusal::Damaged,
            format!(in alloc;
                "{directory}: the files stand for no state: once natgw is stopped, natgw show says what is the matter"
            ),
        ),
        LookFault::Differs(stored) => {
            let differing = Differing {
                stored,
                given: bounds,
            };
            Stop::with(
                Refusal::ConfigDiffers,
                format!(in alloc; "{directory}: {differing}"),
            )
        }
    }
}

/// Looks on at two files, and prints what is told of the gateway that they stand for. `directory` is for the lines that
/// people read.
///
/// # Errors
///
/// `File` where a file can't be read, or one was made anew each time; `Damaged` where the files stand for no state;
/// `ConfigDiffers` where the active one has another configuration; `NoMemory` where memory is refused; `Output` where
/// the writer fails.
pub fn look_on<F: Readable, W: Write>(
    alloc: Global,
    files: &mut F,
    directory: &str,
    bounds: &Bounds,
    view: View,
    output: &mut W,
) -> Result<(), Stop>
    // What is told is the state of files that one look saw, none of which was made anew over it.
    ensures ok { OnOk result ((n : ℕ) × (n < 20) × (from : F)
        × LooksInVain F.gives n files.old from
        × (d : Durable) × SeesState F.gives bounds.now from files.new d
        × Appends (W.contents output.old) (W.contents output.new) (told_of view d)) }
    ensures causes { IfErr result (λ stop. IsOfLook stop.refusal) }
{
    let seen = match look(alloc, files, bounds, LOOKS) {
        Ok(seen) => seen,
        Err(fault) => return Err(unseen(alloc, directory, bounds, fault)),
    };
    match tell(alloc, &seen.text, &seen.sessions, view, output) {
        Ok(()) => Ok(()),
        Err(refusal) => Err(Stop::from(refusal)),
    }
}

/// Looks on at the files of a directory, and prints what is told of the gateway that they stand for (`look_on`).
///
/// # Errors
///
/// Those of `look_on`, and `File` where a file can't be opened.
pub fn look_in<W: Write>(
    rt: &HostRuntime,
    alloc: Global,
    directory: &str,
    bounds: &Bounds,
    view: View,
    output: &mut W,
) -> Result<(), Stop>
    ensures causes { IfErr result (λ stop. IsOfLook stop.refusal) }
{
    match OpenFiles::open(rt, alloc, directory) {
        Ok(mut files) => look_on(alloc, &mut files, directory, bounds, view, output),
        Err(fault) => Err(unseen(alloc, directory, bounds, fault)),
    }
}
