//! Requests at hand, and the room for their answers, as one peer.
ghost use Rattle.std.specs.Prelude.{◌≡◌, [], Some};
ghost use Rattle.std.specs.Io.KnownBytes.{Appends, Consumes};
ghost use Rattle.std.proofs.Common.{refl, ◌∙◌};
ghost use Rattle.socket_edge.specs.Joined.{Appends-nil, Consumes-nil, appended_then, consumed_then};
ghost use Rattle.carrying.specs.AtHand.{NoReadFails, none_then};
ghost use Rattle.socket_edge.specs.Turns.{given, taken};

use socket_edge::Peer;
use std::io;
use std::io::{Read, Write};
use to_devices::ToDevices;

/// Requests, all of which are there, and what takes their answers. No read of it fails.
#[derive(Drop)]
pub struct AtHand<'a> {
    /// The requests that aren't read yet.
    pub requests: &'a [u8],
    /// What takes the answers.
    pub answers: &'a mut ToDevices,
}

impl Peer for AtHand<'_> {
    ghost went = { λ old new turns. (new.answers.ghost_name ≡ old.answers.ghost_name)
        × Consumes (Some old.requests.now) (Some new.requests.now) (given turns)
        × Appends (Some old.answers.now) (Some new.answers.now) (taken turns)
        × NoReadFails turns };

    ghost ended = { λ peer. peer.requests.now ≡ [] };

    fn read(&mut self, bytes: &mut [u8]) -> io::Result<usize> {
        self.requests.read(bytes)
    }

    fn write(&mut self, bytes: &[u8]) -> io::Result<usize> {
        self.answers.write(bytes)
    }

    ghost still = { λ peer. (
      refl,
      Consumes-nil (Some peer.requests.now),
      Appends-nil (Some peer.answers.now),
      tt,
    ) };

    ghost further = { λ a b c turns more first then. (
      then.0 ∙ first.0,
      consumed_then (Some a.requests.now) (Some b.requests.now) (Some c.requests.now)
          turns more first.1 then.1,
      appended_then (Some a.answers.now) (Some b.answers.now) (Some c.answers.now)
          turns more first.2 then.2,
      none_then turns more first.3 then.3,
    ) };
}
