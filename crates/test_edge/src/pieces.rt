//! Readers and writers that give and take a few bytes a call, and fail.
use std::alloc::Global;
use std::io::{self, Read, Write};

/// Gives up to `most` bytes a call, and fails at the call `last`, counted from 0.
#[derive(Drop)]
pub struct Gives<'a> {
    pub left: &'a [u8],
    pub most: usize,
    pub calls: usize,
    pub last: usize,
}

impl Read for Gives<'_> {
    fn read(&mut self, buf: &mut [u8]) -> io::Result<usize> {
        if self.calls >= self.last {
            return Err(io::Error::from(io::ErrorKind::BrokenPipe));
        }
        self.calls = self.calls.saturating_add(1);
        let most = self.most.min(buf.len());
        self.left.read(&mut buf[..most])
    }
}

/// It gives these bytes.
pub fn giving(left: &[u8], most: usize, last: usize) -> Gives<'_> {
    Gives {
        left,
        most,
        calls: 0,
        last,
    }
}

/// How a call of a writer ends that takes nothing.
#[derive(Clone, Copy, Drop)]
pub enum End {
    Fails,
    TakesNone,
}

/// Takes up to `most` bytes a call, and none at the call `last`, counted from 0.
#[derive(Drop)]
pub struct Takes {
    pub got: Vec<u8>,
    pub most: usize,
    pub calls: usize,
    pub last: usize,
    pub end: End,
}

impl Write for Takes {
    fn write(&mut self, buf: &[u8]) -> io::Result<usize> {
        if self.calls < self.last {
            self.calls = self.calls.saturating_add(1);
            let most = self.most.min(buf.len());
            return self.got.write(&buf[..most]);
        }
        match self.end {
            End::Fails => Err(io::Error::from(io::ErrorKind::BrokenPipe)),
            End::TakesNone => Ok(0),
        }
    }

    fn flush(&mut self) -> io::Result<()> {
        Ok(())
    }
}

/// It has taken nothing yet.
pub fn taking(alloc: Global, most: usize, last: usize, end: End) -> Takes {
    Takes {
        got: Vec::new(alloc),
        most,
        calls: 0,
        last,
        end,
    }
}
