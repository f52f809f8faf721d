//! Bytes in, answer frames out: the edge between a byte stream and a gateway.
//!
//! It works over any byte stream, whatever its name says: a reader (`std::io::Read`) and a writer
//! (`std::io::Write`). `natgw` hands it standard input and output, or both sides of a Unix socket.
//!
//! `run` reads request frames, offers each whole one to the gateway, and writes the frames of the
//! answers, in whatever pieces the bytes come and go. What a frame is, the crate `frames` says. The modules:
//! - `edge`: the run, one read after the other;
//! - `peer`: whoever asks and is answered, and two streams as one peer;
//! - `waiting`: the bytes that were read and aren't answered yet, and the answers in front of them;
//! - `answering`: a request that the gateway takes where it lies, and that is answered in its own bytes;
//! - `ahead`: among many sessions, a look at the next packets before they are taken;
//! - `serving`: all whole frames at the front, offered in order;
//! - `sending`: what stands in the bytes of the requests is written in one piece, behind the frames of answers that
//!   were held when the run began; for whoever has the answers alone all their frames are written in one piece;
//! - `fault`: why a run ends early;
//! - `laws`: what follows from the definitions of `specs/Running`.
#![tactic(auto)]

mod ahead;
mod answering;
mod edge;
mod fault;
pub mod laws;
mod peer;
mod sending;
mod serving;
mod waiting;

pub use edge::{run, run_with};
pub use fault::EdgeFault;
pub use peer::Peer;
pub use sending::{send, send_all};
pub use serving::MOST_GROWN;
