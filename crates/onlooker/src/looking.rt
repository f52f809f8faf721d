//! Two files looked at.
ghost use Rattle.std.specs.Prelude.{◌≡◌, ◌↔◌, ◌<◌, ℕ, IsTrue, IfOk, IfErr, take};
ghost use Rattle.disk_model.specs.Disk.{pair};
ghost use Rattle.durable.specs.Entering.{durable};
ghost use Rattle.onlooker.specs.Looking.{IsInVain, IsOfSystem, IsSteady, IsUnfit, IsUnseen, IsWhy, LooksInVain, ReadsBoth, Sees, SeesState, StandsFor, front_length};

use crate::{LookFault, Readable};
use disk_model::FileId;
use durable::{DurableFault, recover};
use journal::LONGEST_FILE;
use packet::Bounds;
use sessions::Session;
use std::alloc::Global;

/// How many bytes of a file tell that it was made anew: its gate, mark and generation.
pub const FRONT: u64 = 13;

/// What two files stand for.
#[derive(Drop)]
pub struct Seen {
    /// The text that was loaded last, empty where none was.
    pub text: Vec<u8>,
    /// The sessions, rising by protocol number, inside and remote endpoint. `last` is 0 in each of them.
    pub sessions: Vec<Session>,
}

// The bytes that were read of both files.
#[derive(Drop)]
struct Both {
    a: Vec<u8>,
    b: Vec<u8>,
}

// Reads both files, up to so many bytes of each.
fn read_both<F: Readable>(alloc: Global, files: &mut F, most: u64) -> Result<Both, LookFault>
    ensures ok { IfOk result (λ read.
        ReadsBoth F.gives most files.old files.new (pair read.a.items read.b.items)) }
    ensures err { IfErr result IsOfSystem }
{
    let a = files.read(alloc, FileId::A, most)?;
    let b = files.read(alloc, FileId::B, most)?;
    Ok(Both { a, b })
}

// Whether these bytes are the front of a file.
fn is_front(bytes: &[u8], file: &[u8]) -> bool
    ensures { IsTrue result ↔ (bytes.now ≡ take front_length file.now) }
{
    let (front, _) = file.split_at(file.len().min(FRONT as usize));
    bytes == front
}

// Whether the front of a file was the same before and behind.
fn keeps_front(before: &[u8], file: &[u8], behind: &[u8]) -> bool
    ensures { IsTrue result ↔ ((before.now ≡ take front_length file.now)
        × (behind.now ≡ take front_length file.now)) }
{
    is_front(before, file) && is_front(behind, file)
}

// Whether no front of the files has changed from before to behind.
fn is_steady(before: &Both, files: &Both, behind: &Both) -> bool
    ensures { IsTrue result ↔ IsSteady (pair before.now.a.items before.now.b.items)
        (pair files.now.a.items files.now.b.items) (pair behind.now.a.items behind.now.b.items) }
{
    keeps_front(&before.a, &files.a, &behind.a) && keeps_front(&before.b, &files.b, &behind.b)
}

// What one look sees.
fn see<F: Readable>(alloc: Global, files: &mut F) -> Result<Both, LookFault>
    ensures ok { IfOk result (λ read.
        Sees F.gives files.old files.new (pair read.a.items read.b.items)) }
    ensures err { IfErr result (IsUnseen F.gives files.old files.new) }
{
    let before = read_both(alloc, files, FRONT)?;
    let whole = read_both(alloc, files, LONGEST_FILE)?;
    let behind = read_both(alloc, files, FRONT)?;
    if !is_steady(&before, &whole, &behind) {
        return Err(LookFault::Changing);
    }
    Ok(whole)
}

// What two files stand for by their bytes, to one with these bounds.
fn state_of(alloc: Global, a: &[u8], b: &[u8], bounds: &Bounds) -> Result<Seen, LookFault>
    ensures ok { IfOk result (λ seen. StandsFor bounds.now (pair a.now b.now)
        (durable seen.text.items seen.sessions.items)) }
    ensures err { IfErr result (IsUnfit bounds.now (pair a.now b.now)) }
{
    match recover(alloc, a, b) {
        Ok(None) => Ok(Seen {
            text: Vec::new(alloc),
            sessions: Vec::new(alloc),
        }),
        Ok(Some(found)) => {
            if !found.is_configured(bounds) {
                return Err(LookFault::Differs(found.bounds));
            }
            let text = Vec::from_slice(alloc, found.text)?;
            Ok(Seen {
                text,
                sessions: found.sessions,
            })
        }
        Err(DurableFault::Damaged) => Err(LookFault::Damaged),
        Err(DurableFault::NoMemory) => Err(LookFault::NoMemory),
    }
}

// Looks at both files once.
fn look_once<F: Readable>(alloc: Global, files: &mut F, bounds: &Bounds) -> Result<Seen, LookFault>
    ensures ok { IfOk result (λ seen. SeesState F.gives bounds.now files.old files.new
        (durable seen.text.items seen.sessions.items)) }
    ensures err { IfErr result (IsWhy F.gives bounds.now files.old files.new) }
{
    let read = see(alloc, files)?;
    state_of(alloc, &read.a, &read.b, bounds)
}

/// What two files stand for, by one look, and by one more for each that came to nothing. So many looks are made at most,
/// one at least.
///
/// # Errors
///
/// What the last look came to:
///
/// - `File` where a file can't be read, `NoMemory` where memory is refused. No further look is made.
/// - `Changing` where a file was made anew over it.
/// - `Damaged` where no file was, and they stand for no state.
/// - `Differs` where they stand for one, and the active file has another configuration. No further look is made.
pub fn look<F: Readable>(
    alloc: Global,
    files: &mut F,
    bounds: &Bounds,
    most: u64,
) -> Result<Seen, LookFault>
    requires { 0 < most }
    ensures ok { IfOk result (λ seen. (n : ℕ) × (n < most)
        × (from : F) × LooksInVain F.gives n files.old from
        × SeesState F.gives bounds.now from files.new
        (durable seen.text.items seen.sessions.items)) }
    ensures err { IfErr result (λ fault. (n : ℕ) × (n < most)
        × (from : F) × LooksInVain F.gives n files.old from
        × IsWhy F.gives bounds.now from files.new fault) }
    // A further look is given up only behind as many as there may be.
    ensures all { IfErr result (λ fault. IsInVain fault
        → LooksInVain F.gives most files.old files.new) }
{
    match look_once(alloc, files, bounds) {
        Err(LookFault::Changing) if most > 1 => look(alloc, files, bounds, most - 1),
        Err(LookFault::Damaged) if most > 1 => look(alloc, files, bounds, most - 1),
        ended => ended,
    }
}
