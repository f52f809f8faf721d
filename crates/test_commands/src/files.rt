//! What stands in the files, and the sessions that come back.
use crate::shared::{
    ANSWERS, LINE, OverFiles, REQUESTS, SIDES, answered, close, fresh, is_file, opened,
};
use commands::{show, tell_migration};
use gateway::Session;
use options::Sides;
use refusals::Refusal;
use std::alloc::{AllocError, Global};
use std::fs;
use std::test::Fail;

/// Gate, mark, generation 1, `lan`, `wan`, 192.168.0.0/16, one address, 203.0.113.1, filtering by endpoint, no text, no
/// session, and a closed gate.
pub const FRESH: [u8; 42] = [
    0x01, 0x4e, 0x47, 0x57, 0x32, 0x00, 0x00, 0x00, 0x00, 0x00, 0x00, 0x00, 0x01, 0x03, 0x6c, 0x61,
    0x6e, 0x03, 0x77, 0x61, 0x6e, 0x01, 0xc0, 0xa8, 0x00, 0x00, 0x10, 0x01, 0xcb, 0x00, 0x71, 0x01,
    0x00, 0x00, 0x00, 0x00, 0x00, 0x00, 0x00, 0x00, 0x00, 0x00,
];

// Whether a new file begins with these bytes, and has zeros behind them up to its first length.
fn is_new(rt: &HostRuntime, path: &str, expected: &[u8]) -> Result<bool, Fail> {
    let bytes = fs::read(rt, path)?;
    let Some(behind) = bytes.as_slice().strip_prefix(expected) else {
        return Ok(false);
    };
    Ok(bytes.len() == 524_288 && behind.iter().all(|byte| *byte == 0))
}

/// Whether the directory is refused with this word and second line.
pub fn is_refused(
    rt: &HostRuntime,
    sides: &Sides<'_>,
    directory: &str,
    refusal: Refusal,
    line: &str,
) -> bool {
    match opened(rt, sides, directory, 0) {
        Ok(gateway) => {
            close(gateway);
            false
        }
        Err(stop) => stop.refusal == refusal && stop.second_line() == line,
    }
}

const BUSY: &str = "fresh: another program works in that directory: stop it, or name another one";

const OTHER_CONFIGURATION: &str =
    "fresh: the files were written with another configuration: start natgw with --wan wan, or name another directory";

const DAMAGED: &str =
    "fresh: natgw.a holds generation 1, no session; natgw.b is no file of natgw, or one of another version: put both back from one backup, or move natgw.b away to go on with what natgw.a holds, which may be older";

const RENAMED: Sides<'static> = Sides {
    wan: "wan0",
    ..SIDES
};

fn is_of_another(rt: &HostRuntime) -> bool {
    let refusal = Refusal::ConfigDiffers;
    is_refused(rt, &RENAMED, "fresh", refusal, OTHER_CONFIGURATION)
}

// While one gateway holds the directory no other one does.
fn make(rt: &HostRuntime) -> Result<bool, Fail> {
    fresh(rt, "fresh")?;
    let gateway = opened(rt, &SIDES, "fresh", 0)?;
    let is_busy = is_refused(rt, &SIDES, "fresh", Refusal::File, BUSY);
    close(gateway);
    Ok(is_busy)
}

// What is in a directory that isn't there is no file.
fn is_missing(rt: &HostRuntime, directory: &str) -> bool {
    match opened(rt, &SIDES, directory, 0) {
        Ok(gateway) => {
            close(gateway);
            false
        }
        Err(stop) => stop.refusal == Refusal::File,
    }
}

#[test]
fn files(rt: HostRuntime) -> Result<(), Fail> {
    assert!(rt; make(&rt)?);
    assert!(rt; is_new(&rt, "fresh/natgw.a", &FRESH)? && is_new(&rt, "fresh/natgw.b", b"")?);
    assert!(rt; is_of_another(&rt));
    fs::write(&rt, "fresh/natgw.b", b"\x01".as_slice())?;
    assert!(rt; is_refused(&rt, &SIDES, "fresh", Refusal::Damaged, DAMAGED));
    assert!(rt; is_missing(&rt, "fresh/none"));
    Ok(())
}

/// Whether all sessions were used at this moment.
pub fn are_of(sessions: &[Session], moment: u64) -> bool {
    for session in sessions {
        if session.last != moment {
            return false;
        }
    }
    true
}

// Whether these are the lines of the sessions, and all of them were used at this moment.
fn are_shown(
    alloc: Global,
    gateway: &OverFiles,
    moment: u64,
    expected: &[u8],
) -> Result<bool, Fail> {
    let mut lines = Vec::new(alloc);
    show(alloc, gateway, &mut lines)?;
    let sessions = gateway.sessions()?;
    Ok(lines.as_slice() == expected && are_of(sessions.as_slice(), moment))
}

// Whether a directory keeps the session, used at this moment.
fn is_kept(rt: &HostRuntime, directory: &str, moment: u64) -> Result<bool, Fail> {
    let gateway = opened(rt, &SIDES, directory, moment)?;
    let is_shown = are_shown(rt.alloc(), &gateway, moment, LINE);
    close(gateway);
    is_shown
}

#[test]
fn restart(rt: HostRuntime) -> Result<(), Fail> {
    fresh(&rt, "restart")?;
    let mut gateway = opened(&rt, &SIDES, "restart", 1_000)?;
    let answers = answered(&rt, &mut gateway, REQUESTS);
    close(gateway);
    assert!(rt; answers?.as_slice() == ANSWERS);
    assert!(rt; is_kept(&rt, "restart", 1_000)?);
    assert!(rt; is_kept(&rt, "restart", 1_250)?);
    Ok(())
}

// The file of an older natgw: as a fresh one, but with its mark, the address alone, and a group in which the text is
// loaded and the session begins.
const FIRST_FRONT: &[u8] =
    b"\x01NGW1\x00\x00\x00\x00\x00\x00\x00\x01\x03lan\x03wan\x01\xc0\xa8\x00\x00\x10\xcb\x00\x71\x01\x00\x00\x00\x00\x00\x00\x00\x00\x01\x00\x00\x00\x80\x01\x00\x00\x00\x65";

const BEGIN: &[u8] =
    b"\x02\x11\xc0\xa8\x01\x02\x13\x88\xcb\x00\x71\x01\x13\x88\xc6\x33\x64\x07\x00\x35\x00\x00\x00";

const MIGRATED: &[u8] =
    b"the two files are of version 2 from now on: an older natgw calls them damaged\n";

/// The file of an older natgw with the text and the session.
pub fn former_file(alloc: Global) -> Result<Vec<u8>, AllocError> {
    let text = REQUESTS.get(14..115).unwrap_or(b"");
    let mut file = Vec::new(alloc);
    for part in &[FIRST_FRONT, text, BEGIN] {
        file.extend_from_slice(*part)?;
    }
    Ok(file)
}

// What is told of the files when they are opened, which have the session.
fn told(rt: &HostRuntime, directory: &str, moment: u64) -> Result<Vec<u8>, Fail> {
    let gateway = opened(rt, &SIDES, directory, moment)?;
    let mut told = Vec::new(rt.alloc());
    let telling = tell_migration(&gateway, &mut told);
    let is_shown = are_shown(rt.alloc(), &gateway, moment, LINE);
    close(gateway);
    let is_shown = is_shown?;
    telling?;
    if is_shown {
        Ok(told)
    } else {
        Err(Fail::new("another session"))
    }
}

// That they are migrated is told once.
#[test]
fn former_files(rt: HostRuntime) -> Result<(), Fail> {
    fresh(&rt, "former")?;
    let file = former_file(rt.alloc())?;
    fs::write(&rt, "former/natgw.a", file.as_slice())?;
    fs::write(&rt, "former/natgw.b", b"".as_slice())?;
    assert!(rt; told(&rt, "former", 1_250)?.as_slice() == MIGRATED);
    assert!(rt; told(&rt, "former", 1_300)?.is_empty());
    assert!(rt; is_file(&rt, "former/natgw.a", &file)?);
    Ok(())
}
