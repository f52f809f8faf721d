//! What holds of every packet that leaves. Each function does nothing: its clause is a theorem, which is proved.
ghost use Rattle.to_devices.specs.Laws.{LeavesAlike, OpenComesRight};

/// Whoever sends a packet on with its checksum open, and fills it in so that all it sums up makes 0, gives it the right
/// checksum of RFC 768 and RFC 9293.
pub fn open_comes_right()
    ensures { OpenComesRight }
{}

/// If the same bytes are the frames of two lists of answers, both let out the same packets, by the same headers.
pub fn leaves_alike()
    ensures { LeavesAlike }
{}
