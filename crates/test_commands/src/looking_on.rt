//! What is told of a gateway that is open, and of files that change while they are read.
use crate::files::{FRESH, former_file};
use crate::shared::{LINE, REQUESTS, SIDES, answered, close, fresh, opened};
use checking::bounds;
use commands::{bind, look_in, look_on, tell_of};
use disk_model::FileId;
use onlooker::{LookFault, Readable};
use options::{Listing, Sides, View};
use refusals::{Refusal, Stop};
use std::alloc::Global;
use std::fs;
use std::os::unix::fs::MetadataExt;
use std::test::Fail;

const OBJECT: &[u8] =
    b"{\"protocol\":\"udp\",\"inside\":\"192.168.1.2:5000\",\"outside\":\"203.0.113.1:5000\",\"remote\":\"198.51.100.7:53\",\"opener\":\"inside\",\"phase\":null}\n";

const TEXT: &[u8] =
    b"table ip nat { chain post { type nat hook postrouting priority srcnat; oifname \"wan\" masquerade; }; }";

const VIEWS: [(View, &[u8]); 3] = [
    (View::Sessions(Listing::Columns), LINE),
    (View::Sessions(Listing::Json), OBJECT),
    (View::Rules, TEXT),
];

// What is told of the files of a directory.
fn told(rt: &HostRuntime, sides: &Sides<'_>, directory: &str, view: View) -> Result<Vec<u8>, Stop> {
    let alloc = rt.alloc();
    let bounds = bounds(alloc, sides)?;
    let mut out = Vec::new(alloc);
    look_in(rt, alloc, directory, &bounds, view, &mut out)?;
    Ok(out)
}

// Whether all views of a directory are these.
fn are_told(rt: &HostRuntime, directory: &str) -> Result<bool, Fail> {
    for (view, expected) in &VIEWS {
        if told(rt, &SIDES, directory, *view)?.as_slice() != *expected {
            return Ok(false);
        }
    }
    Ok(true)
}

fn is_refused(rt: &HostRuntime, sides: &Sides<'_>, directory: &str, refusal: Refusal) -> bool {
    match told(rt, sides, directory, View::Rules) {
        Ok(_) => false,
        Err(stop) => stop.refusal == refusal,
    }
}

const RENAMED: Sides<'static> = Sides {
    wan: "wan0",
    ..SIDES
};

// A gateway that is open is told of, and so are its files once it has gone.
#[test]
fn an_open_gateway(rt: HostRuntime) -> Result<(), Fail> {
    fresh(&rt, "onlooked")?;
    let mut gateway = opened(&rt, &SIDES, "onlooked", 1_000)?;
    let answers = answered(&rt, &mut gateway, REQUESTS);
    let are_seen = are_told(&rt, "onlooked");
    let is_other = is_refused(&rt, &RENAMED, "onlooked", Refusal::ConfigDiffers);
    close(gateway);
    let are_seen = are_seen?;
    answers?;
    assert!(rt; are_seen && is_other);
    assert!(rt; are_told(&rt, "onlooked")?);
    assert!(rt; is_refused(&rt, &SIDES, "onlooked/none", Refusal::File));
    fs::write(&rt, "onlooked/natgw.b", b"\x01".as_slice())?;
    assert!(rt; is_refused(&rt, &SIDES, "onlooked", Refusal::Damaged));
    Ok(())
}

// The views of a gateway itself.
#[test]
fn a_gateway_of_ones_own(rt: HostRuntime) -> Result<(), Fail> {
    fresh(&rt, "own")?;
    let mut gateway = opened(&rt, &SIDES, "own", 1_000)?;
    let answers = answered(&rt, &mut gateway, REQUESTS);
    let mut out = Vec::new(rt.alloc());
    let object = tell_of(rt.alloc(), &gateway, VIEWS[1].0, &mut out);
    let text = tell_of(rt.alloc(), &gateway, View::Rules, &mut out);
    close(gateway);
    answers?;
    object?;
    text?;
    assert!(rt; out.as_slice().strip_prefix(OBJECT) == Some(TEXT));
    Ok(())
}

// Two files whose reads give these bytes, one after the other, and nothing behind the last.
#[derive(Drop)]
struct Scripted {
    reads: Vec<Vec<u8>>,
    next: usize,
}

impl Readable for Scripted {
    ghost gives = { λ _ _ _ _ _. Unit {0} };

    fn read(&mut self, alloc: Global, _: FileId, most: u64) -> Result<Vec<u8>, LookFault> {
        let bytes = match self.reads.get(self.next) {
            Some(bytes) => bytes.as_slice(),
            None => b"",
        };
        self.next = self.next.saturating_add(1);
        let (front, _) = bytes.split_at(bytes.len().min(most as usize));
        Ok(Vec::from_slice(alloc, front)?)
    }
}

// Reads of both files in turn, six a look: of A the file with the session, but where it is the other, and of B the other
// one.
fn reads_of(alloc: Global, looks: usize, others: &[usize]) -> Result<Scripted, Fail> {
    let mut reads = Vec::new(alloc);
    for i in 0..looks.saturating_mul(6) {
        if i % 2 == 1 || others.contains(&i) {
            reads.push(Vec::from_slice(alloc, b"\x00".as_slice())?)?;
        } else {
            reads.push(former_file(alloc)?)?;
        }
    }
    Ok(Scripted { reads, next: 0 })
}

// What is told of such files, and how many reads it took.
fn scripted_told(alloc: Global, mut files: Scripted) -> Result<(Option<Vec<u8>>, usize), Fail> {
    let bounds = bounds(alloc, &SIDES)?;
    let mut out = Vec::new(alloc);
    let view = View::Sessions(Listing::Columns);
    let looked = look_on(alloc, &mut files, "there", &bounds, view, &mut out);
    let reads = files.next;
    drop(files);
    match looked {
        Ok(()) => Ok((Some(out), reads)),
        Err(_) => Ok((None, reads)),
    }
}

fn is_told_by(alloc: Global, others: &[usize], reads: usize) -> Result<bool, Fail> {
    let files = reads_of(alloc, 3, others)?;
    let (told, made) = scripted_told(alloc, files)?;
    match told {
        Some(lines) => Ok(lines.as_slice() == LINE && made == reads),
        None => Ok(false),
    }
}

// Where a front changes over a look, one more is made; each of the three reads of A may be the one that differs.
#[test]
fn files_that_change(rt: HostRuntime) -> Result<(), Fail> {
    let alloc = rt.alloc();
    assert!(rt; is_told_by(alloc, &[], 6)?);
    assert!(rt; is_told_by(alloc, &[0], 12)?);
    assert!(rt; is_told_by(alloc, &[2], 12)?);
    assert!(rt; is_told_by(alloc, &[4], 12)?);
    assert!(rt; is_told_by(alloc, &[4, 6], 18)?);
    Ok(())
}

const NEVER: &str = "there: a file was made anew each time it was read: try again";

// Twenty looks in vain, of which each sees another front before than behind.
#[test]
fn files_that_change_always(rt: HostRuntime) -> Result<(), Fail> {
    let alloc = rt.alloc();
    let mut others = Vec::new(alloc);
    for look in 0..20_usize {
        others.push(look.saturating_mul(6))?;
    }
    let mut files = reads_of(alloc, 20, others.as_slice())?;
    let bounds = bounds(alloc, &SIDES)?;
    let mut out = Vec::new(alloc);
    let looked = look_on(alloc, &mut files, "there", &bounds, View::Rules, &mut out);
    let reads = files.next;
    drop(files);
    assert!(rt; reads == 120 && out.is_empty());
    match looked {
        Ok(()) => assert!(rt; false),
        Err(stop) => assert!(rt; stop.refusal == Refusal::File && stop.second_line() == NEVER),
    }
    Ok(())
}

// A fresh file, whole, stands for no session.
#[test]
fn a_fresh_file(rt: HostRuntime) -> Result<(), Fail> {
    fresh(&rt, "onlooked-fresh")?;
    fs::write(&rt, "onlooked-fresh/natgw.a", FRESH.as_slice())?;
    fs::write(&rt, "onlooked-fresh/natgw.b", b"".as_slice())?;
    let view = View::Sessions(Listing::Json);
    assert!(rt; told(&rt, &SIDES, "onlooked-fresh", view)?.is_empty());
    Ok(())
}

// The mode of a socket, and that it is one.
#[test]
fn a_private_socket(rt: HostRuntime) -> Result<(), Fail> {
    fresh(&rt, "private")?;
    let _listener = bind(&rt, rt.alloc(), "private/sock")?;
    assert!(rt; fs::symlink_metadata(&rt, "private/sock")?.mode() == 0o140600);
    Ok(())
}
