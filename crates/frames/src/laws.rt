//! What holds of every stream of frames. The function does nothing: its clause is a theorem, which is proved.
ghost use Rattle.std.specs.Prelude.{◌≡◌, ◌↔◌, ℕ, List};
ghost use Rattle.frames.specs.Framing.{EventsAndRest, whole_frames};
ghost use Rattle.packet.specs.Laws.{AreBytes};
ghost use Rattle.frames.specs.Streams.{IsStream};

/// The frames of any events, and then a rest that is no whole frame or a faulty header, read as
/// those events and that end. Bytes read as nothing else: they are the frames of the events that
/// they read as, and then that end.
pub fn streams_read_exactly()
    ensures law { (bytes : List ℕ) (f : EventsAndRest) → AreBytes bytes
        → (whole_frames bytes ≡ f) ↔ IsStream bytes f }
{}
