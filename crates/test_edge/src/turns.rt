//! What was asked is answered before more is read, and a file that has grown is made anew.
ghost use Rattle.std.specs.Prelude.{⊤};

use crate::shared::{
    Stream, Trials, answered, close, four_requests, opened, request, run, run_anew, run_with_anew,
};
use socket_edge::Peer;
use std::alloc::{AllocError, Global};
use std::cell::Cell;
use std::io::{self, Read, Write};
use std::process::Abort;
use std::test::Fail;

/// A peer that asks on only once all is answered that it has asked for; otherwise its read fails.
#[derive(Drop)]
struct Asks<'a> {
    left: &'a [u8],
    sizes: &'a [usize],
    asked: usize,
    got: &'a Cell<usize>,
}

impl Read for Asks<'_> {
    fn read(&mut self, buf: &mut [u8]) -> io::Result<usize> {
        if self.got.get() != answered(self.asked) {
            return Err(io::Error::from(io::ErrorKind::WouldBlock));
        }
        let Some((size, sizes)) = self.sizes.split_first() else {
            return Ok(0);
        };
        let most = buf.len().min(*size);
        self.sizes = sizes;
        self.asked = self.asked.saturating_add(most);
        self.left.read(&mut buf[..most])
    }
}

/// It counts what it is answered.
#[derive(Drop)]
struct Hears<'a> {
    written: Vec<u8>,
    got: &'a Cell<usize>,
}

impl Write for Hears<'_> {
    fn write(&mut self, buf: &[u8]) -> io::Result<usize> {
        let n = self.written.write(buf)?;
        self.got.set(self.written.len());
        Ok(n)
    }

    fn flush(&mut self) -> io::Result<()> {
        Ok(())
    }
}

// Whether all is answered to a peer that asks in pieces of these sizes.
fn is_answered(alloc: Global, stream: &Stream, sizes: &[usize]) -> bool {
    let got = Cell::new(0);
    let mut reader = Asks {
        left: stream.requests.as_slice(),
        sizes,
        asked: 0,
        got: &got,
    };
    let mut writer = Hears {
        written: Vec::new(alloc),
        got: &got,
    };
    let ended = run_anew(alloc, &mut reader, &mut writer);
    ended == Ok(4) && writer.written.as_slice() == stream.answers.as_slice()
}

// A request each; two at once; one in parts.
const PIECES: [&[usize]; 3] = [&[115, 42, 14, 42], &[157, 56], &[1, 13, 101, 41, 1, 57]];

fn ask_in_each(rt: &impl Abort, alloc: Global, stream: &Stream) {
    for sizes in &PIECES {
        assert!(rt;
            is_answered(alloc, stream, *sizes),
            "{} pieces",
            sizes.len()
        );
    }
}

#[test]
fn answers_before_it_reads_on(rt: HostRuntime) -> Result<(), Fail> {
    let stream = four_requests(rt.alloc())?;
    ask_in_each(&rt, rt.alloc(), &stream);
    Ok(())
}

/// Both as one peer.
#[derive(Drop)]
struct Asker<'a> {
    left: &'a [u8],
    sizes: &'a [usize],
    asked: usize,
    written: Vec<u8>,
}

impl Peer for Asker<'_> {
    ghost went = { λ _ _ _. ⊤ };

    ghost ended = { λ _. ⊤ };

    fn read(&mut self, bytes: &mut [u8]) -> io::Result<usize> {
        if self.written.len() != answered(self.asked) {
            return Err(io::Error::from(io::ErrorKind::WouldBlock));
        }
        let Some((size, sizes)) = self.sizes.split_first() else {
            return Ok(0);
        };
        let most = bytes.len().min(*size);
        self.sizes = sizes;
        self.asked = self.asked.saturating_add(most);
        self.left.read(&mut bytes[..most])
    }

    fn write(&mut self, bytes: &[u8]) -> io::Result<usize> {
        self.written.write(bytes)
    }

    ghost still = { λ _. tt };

    ghost further = { λ _ _ _ _ _ _ _. tt };
}

// Whether all is answered to such a peer.
fn is_peer_answered(alloc: Global, stream: &Stream, sizes: &[usize]) -> bool {
    let mut peer = Asker {
        left: stream.requests.as_slice(),
        sizes,
        asked: 0,
        written: Vec::new(alloc),
    };
    let ended = run_with_anew(alloc, &mut peer);
    ended == Ok(4) && peer.written.as_slice() == stream.answers.as_slice()
}

fn ask_as_peer_in_each(rt: &impl Abort, alloc: Global, stream: &Stream) {
    for sizes in &PIECES {
        assert!(rt;
            is_peer_answered(alloc, stream, *sizes),
            "{} pieces",
            sizes.len()
        );
    }
}

#[test]
fn answers_a_peer_before_it_asks_on(rt: HostRuntime) -> Result<(), Fail> {
    let stream = four_requests(rt.alloc())?;
    ask_as_peer_in_each(&rt, rt.alloc(), &stream);
    Ok(())
}

// A load of so many spaces.
fn load(alloc: Global, spaces: u32) -> Result<Vec<u8>, AllocError> {
    let text = vec![in alloc; b' '; spaces as usize]?;
    request(alloc, 2, 0, 1000, text.as_slice())
}

// Whether such a load is answered, and leaves a file that has grown so far.
fn is_grown(
    alloc: Global,
    gateway: &mut Trials,
    spaces: u32,
    grown: u64,
) -> Result<bool, AllocError> {
    let frame = load(alloc, spaces)?;
    let mut reader = frame.as_slice();
    let mut written = Vec::new(alloc);
    let ended = run(alloc, &mut reader, &mut written, gateway);
    Ok(ended == Ok(1) && gateway.grown() == grown)
}

// So many spaces, and how far the file has grown then. A group takes ten bytes more than its text. Four of these fill
// 1,048,576 bytes, and the next one is too many.
const GROWN: [(u32, u64); 6] = [
    (262_134, 262_144),
    (262_134, 524_288),
    (262_134, 786_432),
    (262_134, 1_048_576),
    (0, 0),
    (0, 10),
];

fn grow(rt: &impl Abort, alloc: Global, gateway: &mut Trials) -> Result<(), Fail> {
    for (spaces, grown) in &GROWN {
        assert!(rt; is_grown(alloc, gateway, *spaces, *grown)?, "{grown}");
    }
    Ok(())
}

#[test]
fn compacts_above_a_mebibyte(rt: HostRuntime) -> Result<(), Fail> {
    let mut gateway = opened(rt.alloc())?;
    let grown = grow(&rt, rt.alloc(), &mut gateway);
    close(gateway);
    grown
}

// Whether the same loads leave as much where one run takes all of them, the last one in a read of its own.
fn grows_in_a_run(alloc: Global, gateway: &mut Trials) -> Result<bool, AllocError> {
    let mut front = Vec::new(alloc);
    for (spaces, _) in &GROWN[..5] {
        front.extend_from_slice(load(alloc, *spaces)?.as_slice())?;
    }
    let last = load(alloc, 0)?;
    let mut reader = front.as_slice().chain(last.as_slice());
    let mut written = Vec::new(alloc);
    let ended = run(alloc, &mut reader, &mut written, gateway);
    Ok(ended == Ok(6) && gateway.grown() == 10)
}

#[test]
fn compacts_within_a_run(rt: HostRuntime) -> Result<(), Fail> {
    let mut gateway = opened(rt.alloc())?;
    let grown = grows_in_a_run(rt.alloc(), &mut gateway);
    close(gateway);
    assert!(rt; grown?);
    Ok(())
}
