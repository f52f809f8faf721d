//! Whoever asks and is answered: the trait `Peer`, and `Both`, two streams as one peer.
ghost use Rattle.std.specs.Prelude.{◌≡◌, ◌<◌, ◌++◌, [], ◌∷◌, List, ℕ, IfOk, length};
ghost use Rattle.std.specs.Io.{ReadsAtMost, WritesAtMost};
ghost use Rattle.std.specs.Io.KnownBytes.{Appends, Consumes, IsAtEnd};
ghost use Rattle.std.proofs.Common.{refl, ◌∙◌};
ghost use Rattle.socket_edge.specs.Turns.{Turn, given, read_turn, taken, write_turn};
ghost use Rattle.socket_edge.specs.Joined.{Appends-nil, Consumes-nil, appended_then, consumed_then};

use std::io;
use std::io::{Read, Write};

/// Whoever sends requests and takes answers, seen as one value: so a clause can say what it had been given when it was
/// asked for more.
pub trait Peer {
    /// From the one to the other it went by these turns, in this order, and by no others.
    ghost went: { Self → Self → List Turn → Type 0 };

    /// It has no more to give.
    ghost ended: { Self → Type 0 };

    /// Asks it for more, which may wait until it sends, and says how many bytes it put at the front of `bytes`; none at
    /// its end.
    ///
    /// # Errors
    ///
    /// Those of the stream. It gave nothing.
    fn read(&mut self, bytes: &mut [u8]) -> io::Result<usize>
        ensures bound { ReadsAtMost result bytes.new }
        ensures went { went self.old self.new (read_turn result bytes.new ∷ []) }
        ensures end { IfOk result (λ n. n ≡ 0 → 0 < length bytes.old → ended self.new) };

    /// Hands it bytes, and says how many of them, from the front, it took.
    ///
    /// # Errors
    ///
    /// Those of the stream. It took nothing.
    fn write(&mut self, bytes: &[u8]) -> io::Result<usize>
        ensures bound { WritesAtMost result bytes.now }
        ensures went { went self.old self.new (write_turn result bytes.now ∷ []) };

    /// From a peer to itself it goes by no turn.
    ghost still: { (peer : Self) → went peer peer [] };

    /// Turns, and then further turns, are both one after the other.
    ghost further: { (a b c : Self) (turns more : List Turn) → went a b turns → went b c more
        → went a c (turns ++ more) };
}

/// Two streams as one peer. What went between is told as far as the streams tell it: all bytes that the one gave, and
/// all that the other took.
#[derive(Drop)]
pub struct Both<'a, R, W> {
    /// It gives the requests.
    pub reader: &'a mut R,
    /// It takes the answers.
    pub writer: &'a mut W,
}

impl<R: Read, W: Write> Peer for Both<'_, R, W> {
    ghost went = { λ old new turns. (new.reader.ghost_name ≡ old.reader.ghost_name)
        × (new.writer.ghost_name ≡ old.writer.ghost_name)
        × Consumes (R.remaining old.reader.now) (R.remaining new.reader.now) (given turns)
        × Appends (W.contents old.writer.now) (W.contents new.writer.now) (taken turns) };

    ghost ended = { λ peer. IsAtEnd (R.remaining peer.reader.now) };

    fn read(&mut self, bytes: &mut [u8]) -> io::Result<usize> {
        self.reader.read(bytes)
    }

    fn write(&mut self, bytes: &[u8]) -> io::Result<usize> {
        self.writer.write(bytes)
    }

    ghost still = { λ peer. (
      refl,
      refl,
      Consumes-nil (R.remaining peer.reader.now),
      Appends-nil (W.contents peer.writer.now),
    ) };

    ghost further = { λ a b c turns more first then. (
      then.0 ∙ first.0,
      then.1 ∙ first.1,
      consumed_then (R.remaining a.reader.now) (R.remaining b.reader.now)
          (R.remaining c.reader.now) turns more first.2 then.2,
      appended_then (W.contents a.writer.now) (W.contents b.writer.now)
          (W.contents c.writer.now) turns more first.3 then.3,
    ) };
}
