//! What is told of packets that were dropped: the names of the causes, and a line for each packet.
//!
//! - `causes`: the names of the causes;
//! - `reading`: what can be read of a packet, whatever is wrong with it;
//! - `line`: the line.
#![tactic(auto)]

mod causes;
mod line;
mod reading;

pub use causes::cause_name;
pub use line::put_line;
