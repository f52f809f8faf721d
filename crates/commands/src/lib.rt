//! What the commands of `natgw` do over a gateway, and all of them put together. The reading of the command line is
//! `command_line`'s, why a command gives up is told by `refusals`, and what needs no gateway is `checking`'s.
//!
//! - `clients`: clients that are served one after the other, of a socket or from wherever they come;
//! - `faults`: the refusal for each fault of a gateway, of an opening and of a stream;
//! - `opening`: a gateway over the files of a directory, or what is the matter with them;
//! - `showing`: what is told of a gateway: its sessions, or the ruleset in force;
//! - `onlooking`: the same of a gateway that another natgw may be serving;
//! - `streams`: streams of requests, and what the end of one means;
//! - `sockets`: a Unix socket is bound, and requests are sent through it and back;
//! - `running`: the commands, put together of all this;
//! - `laws`: what follows from the definitions of `specs/Visits`.
#![tactic(auto)]

mod clients;
mod faults;
pub mod laws;
mod onlooking;
mod opening;
mod running;
mod showing;
mod sockets;
mod streams;

pub use clients::{Clients, serve_clients, serve_each};
pub use faults::of_edge;
pub use onlooking::{look_in, look_on};
pub use opening::{AnewFault, open, open_anew, open_over, tell_migration};
pub use running::{keep_freed_memory, let_go, run, tell_opened};
pub use showing::{show, tell_of};
pub use sockets::{Loop, bind, bind_for, loop_back};
pub use streams::{replay, tell_end};
