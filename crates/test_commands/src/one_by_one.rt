//! Clients in memory, served one after the other.
ghost use Rattle.std.specs.Prelude.{⊤};

use crate::shared::{ANSWERS, OverFiles, REQUESTS, SIDES, close, fresh, opened};
use commands::{Clients, serve_each};
use refusals::Refusal;
use socket_edge::Peer;
use std::alloc::Global;
use std::io::{self, Read, Write};
use std::test::Fail;

// Clients that send these requests, each its own, and what becomes of them.
#[derive(Drop)]
struct Callers<'a> {
    // What each of them sends.
    sent: &'a [&'a [u8]],
    // How many have come, and how many bytes of the last one were read.
    came: usize,
    read: usize,
    answers: Vec<u8>,
    // For each that came a `c`, and an `l` when it was let go.
    visits: Vec<u8>,
}

// What the last of so many that came has still to send, once so many bytes of it were read.
fn left_of<'a>(sent: &'a [&'a [u8]], came: usize, read: usize) -> &'a [u8] {
    match sent.get(came.saturating_sub(1)) {
        Some(all) => all.split_at(read.min(all.len())).1,
        None => b"",
    }
}

impl Peer for Callers<'_> {
    ghost went = { λ _ _ _. ⊤ };

    ghost ended = { λ _. ⊤ };

    fn read(&mut self, bytes: &mut [u8]) -> io::Result<usize> {
        let mut left = left_of(self.sent, self.came, self.read);
        let count = left.read(bytes)?;
        self.read = self.read.saturating_add(count);
        Ok(count)
    }

    fn write(&mut self, bytes: &[u8]) -> io::Result<usize> {
        self.answers.write(bytes)
    }

    ghost still = { λ _. tt };

    ghost further = { λ _ _ _ _ _ _ _. tt };
}

impl Clients for Callers<'_> {
    ghost came = { λ _ _. ⊤ };

    ghost missed = { λ _ _. ⊤ };

    ghost left = { λ _ _. ⊤ };

    fn accept(&mut self) -> io::Result<()> {
        if self.came >= self.sent.len() {
            return Err(io::Error::from(io::ErrorKind::ConnectionAborted));
        }
        self.came += 1;
        self.read = 0;
        self.visits.write_all(b"c")
    }

    fn leave(&mut self) {
        let _ = self.visits.push(b'l');
    }
}

// The refusal that ends the serving of so many of two clients, and what became of them.
fn serve_two(
    alloc: Global,
    gateway: &mut OverFiles,
    connections: u64,
    answers: &[u8],
    visits: &[u8],
) -> Option<Option<Refusal>> {
    let (first, second) = REQUESTS.split_at(115);
    let mut callers = Callers {
        sent: &[first, second],
        came: 0,
        read: 0,
        answers: Vec::new(alloc),
        visits: Vec::new(alloc),
    };
    let mut errors = Vec::new(alloc);
    let served = serve_each(alloc, &mut callers, "a", connections, &mut errors, gateway);
    let is_so = callers.answers.as_slice() == answers && callers.visits.as_slice() == visits;
    match served {
        _ if !is_so || !errors.is_empty() => None,
        Ok(()) => Some(None),
        Err(stop) => Some(Some(stop.refusal)),
    }
}

// A load of the first one and a packet of the second one.
#[test]
fn each_client_once(rt: HostRuntime) -> Result<(), Fail> {
    fresh(&rt, "once")?;
    let mut gateway = opened(&rt, &SIDES, "once", 1_000)?;
    let ended = serve_two(rt.alloc(), &mut gateway, 2, ANSWERS, b"clcl");
    close(gateway);
    assert!(rt; ended == Some(None));
    Ok(())
}

#[test]
fn a_client_that_does_not_come(rt: HostRuntime) -> Result<(), Fail> {
    fresh(&rt, "missed")?;
    let mut gateway = opened(&rt, &SIDES, "missed", 1_000)?;
    let ended = serve_two(rt.alloc(), &mut gateway, 3, ANSWERS, b"clcl");
    close(gateway);
    assert!(rt; ended == Some(Some(Refusal::File)));
    Ok(())
}
