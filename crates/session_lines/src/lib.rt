//! Lines that tell people of sessions: one a session, in columns.
//!
//! A line is `tcp` or `udp`; the inside, the outside and the remote endpoint, as 192.0.2.1:80, each at the left of
//! 21 places; `partial`, `established` or `closing`, and `-` for UDP, which has no such states. One space stands
//! between columns, and a newline at the end.
//!
//! As JSON a session is an object in a line of its own, with the members `protocol`, `inside`, `outside`, `remote`,
//! `opener` and `phase`, all of them texts; the phase of UDP is `null`.
//!
//! - `line`: the lines of sessions;
//! - `object`: sessions as objects of JSON;
//! - `column`: an endpoint in its column;
//! - `laws`: that the columns stand under each other.
#![tactic(auto)]

mod column;
pub mod laws;
mod line;
mod object;

pub use line::{put_line, put_lines};
pub use object::{put_object, put_objects};
