//! What a crash of the disk in memory leaves of one file, found by going over the record once.
ghost use Rattle.std.specs.Prelude.{◌≡◌, ◌+◌, ◌%◌, ◌<◌, nat_eq, ℕ, [], length, get_or, map, replicate, OnOk, IfOk};
ghost use Rattle.disk_model.specs.Disk.{put};
ghost use Rattle.trial_disk.specs.Recorded.{Since, heard, heard_all, is_same};
ghost use Rattle.trial_disk.specs.Choices.{ones, comes, laid, chosen, placed};
ghost use Rattle.trial_disk.specs.Following.{Follows};
ghost use Rattle.trial_disk.specs.DoneCalls.{done_of};

use crate::call::Call;
use crate::place::place;
use disk_model::FileId;
use std::alloc::{AllocError, Global};

#[derive(Drop)]
struct Replay {
    read: Vec<u8>,
    left: Vec<u8>,
    number: u32,
}

/// What a crash leaves of a file under a choice (`SimDisk::crash`), given its bytes when the record began.
///
/// # Errors
///
/// `AllocError` where memory is refused.
pub(crate) fn left_by(
    alloc: Global,
    choice: u64,
    file: FileId,
    first: &[u8],
    calls: &[Call],
) -> Result<Vec<u8>, AllocError>
    ensures { let since = heard_all file (map done_of calls.now)
        (record { base = first.now; writes = [] }) in
        IfOk result (λ left. left.items ≡ chosen choice since.writes since.base) }
{
    let mut replay = Replay {
        read: Vec::from_slice(alloc, first)?,
        left: Vec::from_slice(alloc, first)?,
        number: 0,
    };
    let mut rest = calls;
    while let [call, more @ ..] = rest {
        hear(alloc, choice, file, &mut replay, call)?;
        rest = more;
    }
    Ok(replay.left)
}

fn hear(
    alloc: Global,
    choice: u64,
    file: FileId,
    replay: &mut Replay,
    call: &Call,
) -> Result<(), AllocError>
    ensures { OnOk result ((since : Since)
        → Follows choice since replay.old.read.items replay.old.left.items replay.old.number
        → Follows choice (heard file (done_of call.now) since) replay.new.read.items
        replay.new.left.items replay.new.number) }
{
    match call {
        Call::Write(of, at, bytes) => {
            if is_same(file, *of) {
                return hear_write(alloc, choice, replay, *at, bytes);
            }
            Ok(())
        }
        Call::Sync(of) => {
            if is_same(file, *of) {
                return hear_sync(alloc, replay);
            }
            Ok(())
        }
    }
}

fn is_same(a: FileId, b: FileId) -> bool
    ensures { result ≡ is_same a b }
{
    a == b
}

fn hear_sync(alloc: Global, replay: &mut Replay) -> Result<(), AllocError>
    ensures read { OnOk result (replay.new.read.items ≡ replay.old.read.items) }
    ensures left { OnOk result (replay.new.left.items ≡ replay.old.read.items) }
    ensures number { OnOk result (replay.new.number ≡ 0) }
{
    replay.left = Vec::from_slice(alloc, &replay.read)?;
    replay.number = 0;
    Ok(())
}

fn hear_write(
    alloc: Global,
    choice: u64,
    replay: &mut Replay,
    at: usize,
    bytes: &[u8],
) -> Result<(), AllocError>
    ensures read { OnOk result (replay.new.read.items ≡ put at bytes.now replay.old.read.items) }
    ensures left { (n : ℕ) → replay.old.number ≡ n % 64
        → OnOk result (replay.new.left.items
        ≡ laid at (comes choice n (record { at = at; bytes = bytes.now }) replay.old.left.items)
        replay.old.left.items) }
    ensures number { OnOk result (replay.new.number ≡ (replay.old.number + 1) % 64) }
{
    lay(alloc, choice, replay.number, &mut replay.left, at, bytes)?;
    extend(&mut replay.read, at, bytes)?;
    replay.number = (replay.number % 64 + 1) % 64;
    Ok(())
}

// Puts bytes as they read, at a place within the file or, beyond its end, at the end.
#[tactic(auto, using(crate::proofs::Laid::put_min))]
fn extend(file: &mut Vec<u8>, at: usize, bytes: &[u8]) -> Result<(), AllocError>
    ensures { OnOk result (file.new.items ≡ put at bytes.now file.old.items) }
{
    place(file, at.min(file.len()), bytes)
}

// Puts what comes of a write.
fn lay(
    alloc: Global,
    choice: u64,
    number: u32,
    left: &mut Vec<u8>,
    at: usize,
    bytes: &[u8],
) -> Result<(), AllocError>
    ensures { (n : ℕ) → number ≡ n % 64 → OnOk result (left.new.items
        ≡ laid at (comes choice n (record { at = at; bytes = bytes.now }) left.old.items)
        left.old.items) }
{
    if choice == 0 {
        return Ok(());
    }
    if choice == 1 {
        return place(left, at, bytes);
    }
    if choice == 2 {
        let byte = one_at(left, at, bytes);
        return fill(alloc, left, at, byte, bytes.len());
    }
    if choice == 3 {
        return fill(alloc, left, at, 255, bytes.len());
    }
    if (choice >> (number % 64)) % 2 == 1 {
        return place(left, at, bytes);
    }
    Ok(())
}

// The byte 1, but 0 where the single byte 0 is written and finds no 1.
fn one_at(left: &[u8], at: usize, bytes: &[u8]) -> u8
    ensures { replicate (length bytes.now) result
        ≡ ones (record { at = at; bytes = bytes.now }) left.now }
{
    if let [only] = bytes {
        if *only == 0 && !has_one(left, at) {
            return 0;
        }
    }
    1
}

fn has_one(left: &[u8], at: usize) -> bool
    ensures { result ≡ nat_eq (get_or left.now at 0) 1 }
{
    at < left.len() && left[at] == 1
}

fn fill(
    alloc: Global,
    left: &mut Vec<u8>,
    at: usize,
    byte: u8,
    count: usize,
) -> Result<(), AllocError>
    ensures { OnOk result (left.new.items ≡ placed at (replicate count byte) left.old.items) }
{
    let bytes = vec![in alloc; byte; count]?;
    place(left, at, &bytes)
}
