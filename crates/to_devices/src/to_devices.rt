//! What takes answers, until their packets are let out.
ghost use Rattle.std.specs.Prelude.{◌≡◌, ◌≤◌, ◌++◌, [], ℕ, List, Some, IfOk, OnOk, OnErr, length, take};
ghost use Rattle.std.specs.Io.{WritesAtMost};
ghost use Rattle.std.specs.Io.KnownBytes.{Keeps, WriteAppends};
ghost use Rattle.std.specs.List.{AllByRecursion, flat_map};
ghost use Rattle.devices.specs.Handing.{Hands};
ghost use Rattle.to_devices.specs.Counting.{AreCounted};
ghost use Rattle.to_devices.specs.Leaving.{leaving};
ghost use Rattle.to_devices.specs.Replies.{FitsReply, HasNoReply, Reply, reply_frame};

use crate::counts::Counts;
use crate::letting_out::let_all_out;
use devices::{Device, Header};
use std::alloc::{AllocError, Global};
use std::io;
use std::io::{ErrorKind, Write};
use std::marker::Model;

/// The most bytes of answers that wait.
pub const MOST_BYTES: usize = 1_048_576;

/// Answers that wait for their packets to be let out. Contracts see their bytes.
#[derive(Drop)]
pub struct ToDevices {
    answers: Vec<u8>,
}

impl Model for ToDevices {
    ghost use Rattle.std.specs.Prelude.{◌≤◌, ℕ, List, length};

    ghost Value = { List ℕ };

    ghost view = { λ t. t.answers.items };

    ghost invariant = { λ t. length t.answers.items ≤ 1048576 };
}

impl ToDevices {
    /// No answers.
    pub fn new(alloc: Global) -> Result<ToDevices, AllocError>
        ensures { IfOk result (λ to. to ≡ []) }
    {
        let mut answers = Vec::new(alloc);
        answers.reserve(MOST_BYTES)?;
        Ok(ToDevices { answers })
    }

    /// Forgets the answers that wait.
    pub fn clear(&mut self)
        ensures { self.new ≡ [] }
    {
        self.answers.clear();
    }

    /// The answers that wait.
    pub fn answers(&self) -> &[u8]
        ensures value { result.now ≡ self.now }
        ensures most { length result.now ≤ 1048576 }
    {
        self.answers.as_slice()
    }

    /// Hands the packets that leave by the answers that wait to the devices of their interfaces, in order, each once.
    /// The headers are those of the requests that they answer; where there are fewer, `NO_HEADER`. Of an answer that
    /// isn't whole nothing leaves. No answer waits then. From the request with the number `wan_from` on, counted from 0,
    /// they came from wan, which only the counts are told. Each answer is counted once: a packet that leaves at its
    /// device, as let out or lost, one that is dropped at the device that it came from, and a ruleset.
    pub fn let_out<L: Device, W: Device>(
        &mut self,
        headers: &[Header],
        wan_from: usize,
        lan: &mut L,
        wan: &mut W,
        counts: &mut Counts,
    )
        ensures left { (replies : List Reply) × (rest : List ℕ) × AllByRecursion FitsReply replies
            × (self.old ≡ flat_map reply_frame replies ++ rest) × HasNoReply rest
            × Hands (L.handed lan.old) (L.handed lan.new) (leaving 0 headers.now replies)
            × Hands (W.handed wan.old) (W.handed wan.new) (leaving 1 headers.now replies)
            × AreCounted wan_from 0 replies counts.old counts.new }
        ensures none { self.new ≡ [] }
        ensures from_lan { L.coming lan.new ≡ L.coming lan.old }
        ensures from_wan { W.coming wan.new ≡ W.coming wan.old }
        ensures lan_waited { L.waited lan.new ≡ L.waited lan.old }
        ensures wan_waited { W.waited wan.new ≡ W.waited wan.old }
    {
        let_all_out(
            self.answers.as_mut_slice(),
            headers,
            wan_from,
            lan,
            wan,
            counts,
        );
        self.answers.clear();
    }
}

impl Write for ToDevices {
    ghost contents = { λ t. Some t };

    fn write(&mut self, buf: &[u8]) -> io::Result<usize>
        ensures bound { WritesAtMost result buf.now }
        ensures bytes { WriteAppends (Some self.old) (Some self.new) result buf.now }
    {
        if MOST_BYTES - self.answers.len() < buf.len() {
            return Err(io::Error::from(ErrorKind::StorageFull));
        }
        self.answers.extend_from_slice(buf)?;
        Ok(buf.len())
    }

    fn flush(&mut self) -> io::Result<()>
        ensures bytes { Keeps (Some self.old) (Some self.new) }
    {
        Ok(())
    }
}
