//! The format of a stream: frames of requests, and frames of answers.
//!
//! Which bytes the frame of an event or of an answer is, and what any bytes read as. The crate knows no gateway and no
//! disk: `socket_edge` has a gateway take the events, and writes what it answers. The modules:
//! - `request`: what stands at the front of the bytes: a whole frame, a part of one, or a fault;
//! - `answer`: the frames of answers;
//! - `laws`: what holds of every stream of frames;
//! - `fault`: what is wrong in a request's header.
#![tactic(auto)]

mod answer;
mod fault;
pub mod laws;
mod request;

pub use answer::{ANSWER_FRONT, byte_of, head_bytes, put_frames, write_front};
pub use fault::HeaderFault;
pub use request::{Front, Kind, REQUEST_HEAD, read_front};
