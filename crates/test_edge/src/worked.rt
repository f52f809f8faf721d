//! Streams of requests, and what a gateway answers them: packets worked by hand or by another program. Each test plays
//! rows of events and answers through `socket_edge`, and so through all crates below.
//!
//! - `script`: events and their answers as lines of text, which are played over the byte stream;
//! - `shared`: lines that several tests begin with;
//! - `first_frame`, `phases`, `loads`, `legs`, `drops`, `pool`: the tests.
mod drops;
mod first_frame;
mod legs;
mod loads;
mod phases;
mod pool;
mod script;
mod shared;
